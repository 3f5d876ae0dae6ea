//! One pass over datagrams: from a stream into frames, or from frames into a stream. It stands on
//! `adu_frames` for the frames, and on `fec_base` for the outside. It promises what was taken of
//! the input and what stands in the output, however it ends: one datagram is in memory, and what
//! goes for it is handed over whole before a byte of the next one is asked for.
#![tactic(auto)]

mod kind;
mod laws;
mod passing;
mod reading;
mod writing;

pub use kind::{DatagramFault, DatagramRefusal, Way};
pub use laws::datagrams_are_passed;
pub use passing::pass_datagrams;
