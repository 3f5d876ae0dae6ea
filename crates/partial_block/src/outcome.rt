// What the arrivals at a core save of its block.
use crate::Partial;

/// What the symbols that arrived save of a source block.
#[derive(Drop)]
pub enum Survey {
    /// No codeword fits them.
    NoCodeword,
    /// Some codeword does: the source symbols that all that fit have in common, and what shows that
    /// the others are open.
    Sources(Partial),
}
