//! The bodies of commands over contracts that stand: `frame` and `unframe`, each one pass over
//! datagrams with its report, and `salvage`, which writes what the packets of a file determine of
//! its object and names what shows that the rest is open. It stands on `datagram_pass` for the pass, on
//! `block_cores` for the packets of a file, on `partial_block` for what is saved of a block, and on
//! `tool_base` for the statuses and the report. It promises what is taken of the input, what stands
//! in the output and in the report, and with which status a command ends.
#![tactic(auto)]

mod datagram_run;
mod framing;
mod laws;
mod salvaging;
mod saved_object;
mod saved_report;
mod surveying;
mod unframing;

pub use framing::frame;
pub use laws::what_is_salvaged_is_certain;
pub use salvaging::salvage;
pub use unframing::unframe;
