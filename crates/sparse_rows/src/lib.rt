//! The parity check matrix of a sparse erasure code, and the mathematics that every crate above
//! speaks in: symbols and their sums, the shape of a matrix, codewords, the codeword of a source
//! block, null words. It stands on `fec_base` for want of memory and counted steps. It promises
//! that a `Code` is its list of rows and has the shape (row i ends with column k + i and holds a
//! source symbol), and the laws that under the shape each source block has exactly one codeword,
//! and each null word a source symbol.
#![tactic(auto)]

mod builder;
mod by_column;
mod code;
mod laws;
mod layout;

pub use builder::RowsBuilder;
pub use code::Code;
pub use laws::{null_words_hold_a_source_symbol, one_codeword_for_each_source};
