//! How an object is cut into source blocks (RFC 5052, section 9.1): as few blocks as the greatest
//! block length allows, whose sizes differ by at most one source symbol, the larger ones first. And
//! how many encoding symbols a block has, in the three ways that there are. It stands on nothing, and
//! promises that a plan is the list of these sizes.
#![tactic(auto)]

mod laws;
mod plan;

pub use laws::blocks_are_sized;
pub use plan::{Plan, TooManyBlocks, ldpc_n, size_2d, size_2d_corner};
