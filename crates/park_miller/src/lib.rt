//! The generator of RFC 5170, section 5.7: the "minimal standard" of Park and Miller, with draws
//! below a bound that are scaled in whole numbers, a shuffle, and draws that are counted up to a
//! limit. It stands on std alone, and promises that each draw, shuffle and refusal is exactly the
//! one that `specs/` states. Neither a step nor a draw divides.
#![tactic(auto)]

mod generator;
mod limited;

pub use generator::{BadSeed, MAX_BOUND, MAX_SEED, ParkMiller};
pub use limited::{Draws, Over};
