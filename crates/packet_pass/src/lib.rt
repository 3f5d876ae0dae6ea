//! One pass over a packet file: what it writes of the header, and then of one packet after the
//! other. A pass loses packets, shows them, or upgrades the file. It stands on `packet_file` for
//! the input, on `loss_patterns` for which packets are kept, and on `fec_base` for the outside. It
//! promises what was taken of the input and what stands in the output, however it ends: one packet
//! is in memory, and its text is handed over whole before a byte of the next one is asked for.
#![tactic(auto)]

mod kind;
mod line;
mod passing;
mod room;
mod thinning;
mod writer;

pub use kind::{Pass, PassRefusal, Passed};
pub use passing::pass;
