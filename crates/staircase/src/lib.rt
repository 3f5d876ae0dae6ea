//! The LDPC-Staircase code of RFC 5170: the left side, which spreads each source symbol over the
//! rows by counted draws, and the staircase of repair symbols behind it. It stands on `park_miller`
//! and `sparse_rows`, and promises that the matrix and its number of draws are those of `specs/`,
//! stated by a shrinking list and first good draws, or that the draws did not suffice.
#![tactic(auto)]

mod choices;
mod extras;
mod left_side;
mod picks;
mod refusal;
mod stairs;

pub use left_side::left;
pub use refusal::BuildRefusal;
pub use stairs::{Built, add_stairs, staircase};
