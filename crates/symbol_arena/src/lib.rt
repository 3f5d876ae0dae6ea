//! Symbols of one length in one block of memory. It stands on `fec_base`, which says what the sum
//! of two symbols is, on `xor_lanes` for sums, and on `core` and `std_alloc` of the kit for the
//! proofs of the five small functions of `memory`, which alone have a pointer. It promises that an
//! `Arena` is a list of symbols, and that each call changes the symbol that it names as it says,
//! and no other. Only `Arena::new` takes memory.
#![tactic(auto)]

mod arena;
mod block;
mod memory;

pub use arena::Arena;
#[doc(hidden)]
pub use block::Block;
#[doc(hidden)]
pub use memory::{Lease, Memory};
