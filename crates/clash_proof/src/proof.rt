// A proof that no codeword fits.
use crate::RowSet;

/// Why no codeword fits some entries.
#[derive(Drop)]
pub enum ClashProof {
    /// Two entries of one position have different bytes. The second is the earliest entry that
    /// differs from the first of its position.
    Repeat {
        /// The index of the first entry of the position.
        first: u64,
        /// The index of the entry that differs from it.
        second: u64,
    },
    /// The sum of these rows speaks of symbols that arrived alone, and isn't zero.
    Rows(RowSet),
}
