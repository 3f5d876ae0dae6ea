//! Which packets of a sequence are lost, and in which order packets are sent. It stands on
//! `park_miller` for the draws and on `fec_base` for want of memory. It promises that each packet
//! is kept or lost as `specs/` states for its index and the state that the generator began with,
//! over any number of packets, that an order is exactly the stated shuffle, and that the texts of
//! losses are read exactly.
#![tactic(auto)]

mod kind;
mod loss;
mod numbers;
mod sending;

pub use kind::{LossKind, read_loss};
pub use loss::Loss;
pub use numbers::read_number;
pub use sending::order;
