//! The packet file: a header, and then packets, each a payload identifier and an encoding symbol.
//! It stands on `oti_fields` for the fields and on `blocking` for the blocks, and promises that
//! headers and packets are written and read by one relation between values and bytes, and that the
//! first fault of a file is named, with the numbers that were found.
#![tactic(auto)]

mod fault;
mod header;
mod header_file;
mod laws;
mod packets;
mod version;

pub use fault::{FileFault, Limit};
pub use header::Header;
pub use header_file::{HEADER_LEN, read_header, write_header};
pub use laws::{files_have_one_fault, headers_and_packets_have_one_spelling};
pub use packets::{HEAD_LEN, IDENTIFIER_LEN, next_packet, spell_packet, write_head, write_packet};
