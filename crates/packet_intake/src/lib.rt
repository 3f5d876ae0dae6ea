//! The packets of a file, taken in one at a time, by whatever takes them: decoders of its blocks,
//! or what writes them again. It stands on `packet_file` for the packets and on `fec_base` for the
//! input. It promises how the packets that came changed what takes them, what was taken of the
//! input, and, where they are refused, why; one packet is in memory, and the taker has taken it in
//! before a byte of the next one is asked for.
#![tactic(auto)]

mod intake;
mod refusal;
mod taker;

pub use intake::take_packets;
pub use refusal::IntakeRefusal;
pub use taker::{PacketTaker, TakerFailed};
