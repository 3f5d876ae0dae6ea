//! Systems of linear equations over the field of two elements, whose unknowns are symbols: what
//! peeling leaves open is one. It stands on `sparse_rows` for what symbols and null words are, on
//! `symbol_arena` and `xor_lanes` for sums, and on `null_witness` for null words. It promises that
//! `solve` says exactly whether a system has no solution, one, or several, gives the one, and names
//! for several the null set whose last unknown is least.
#![tactic(auto)]

mod answer;
mod clash;
mod echelon;
mod eliminate;
mod eliminated;
mod entries;
mod equations;
mod freedom;
mod laws;
mod masks;
mod null_set;
mod packed;
mod reduced;
mod reducing;
mod solving;
mod substitution;
mod symbols;
mod table;
mod values;

pub use answer::{Answer, Values};
pub use equations::Equations;
pub use freedom::{FreeUnknowns, free_unknowns};
pub use laws::{a_system_has_one_answer, reduced_sets_show_what_is_open};
pub use reduced::Reduced;
pub use reducing::{Reduction, reduce};
pub use solving::solve;
