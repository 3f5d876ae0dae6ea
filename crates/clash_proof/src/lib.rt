//! Proofs that no codeword fits what arrived of a source block: two entries of one position that
//! differ, or rows of the parity check matrix whose sum speaks of symbols that arrived alone and
//! isn't zero. It stands on `sparse_rows` for codes, on `symbol_arena` for what arrived, on `gauss`
//! for the row sets whose sums speak of what arrived alone, and on `null_witness` for what reduced
//! sets are. It promises that `find` gives the first proof exactly where no codeword fits, that
//! `holds` says exactly whether a proof is one, and the laws of closed row sets.
#![tactic(auto)]

mod checking;
mod closed_sets;
mod evidence;
mod finding;
mod laws;
mod proof;
mod row_set;
mod row_sums;

pub use checking::holds;
pub use evidence::Evidence;
pub use finding::find;
pub use laws::{closed_rows_show_that_nothing_fits, each_late_row_has_one_reduced_set};
pub use proof::ClashProof;
pub use row_set::RowSet;
