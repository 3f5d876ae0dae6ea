//! The packet file of an object, taken to its end by one decoder for each of its blocks, for what
//! looks at the decoders afterwards. It stands on `object_file` for opening a file, on
//! `packet_intake` for its packets, and on `fec_session` for the decoders. It promises that the
//! decoder of each block stands for what arrived for the block, and that a refusal names the first
//! cause.
#![tactic(auto)]

mod cores;
mod taking;

pub use cores::BlockCores;
pub use taking::{TakenFile, fault_of, take_file};
