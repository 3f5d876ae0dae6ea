//! A peeling decoder of one source block, and the laws of the peeling closure. It stands on
//! `sparse_rows` for codes, codewords and the closure, and on `symbol_arena` for the symbols. It
//! promises that after any arrivals exactly the closure of their positions is known, that each kept
//! symbol is that of every codeword that fits them, and that they are said to contradict one
//! another exactly where no symbols for the known positions agree with every arrival and make each
//! row of known symbols sum to zero.
#![tactic(auto)]

mod laws;
mod peeler;
mod unknowns;
mod worklist;

pub use laws::{arrivals_decide, closure_is_determined, closure_is_least, kept_symbols_are_forced};
pub use peeler::{Arrival, Peeler};
