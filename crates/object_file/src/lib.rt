//! The packet file of an object: its object is read, the file is made ready and written, and a
//! packet file is received, its packets one by one by the decoders of its blocks. It stands on
//! `tool_base` for the code of a block and for statuses, on `packet_file` for headers and packets,
//! and on `fec_session` for codewords and decoders. It promises that what is written is the file of
//! the object, that what is received is what its packets make known, each told before a further
//! byte is read, and that a refusal names the first cause.
#![tactic(auto)]

mod buffer;
mod file_codes;
mod making;
mod object;
mod options;
mod reception;
mod write;

pub use buffer::Staging;
pub use file_codes::{block_codes, build_codes, find_code};
pub use making::{Made, STAGING_LEN, make_file};
pub use object::read_object;
pub use options::EncodeOptions;
pub use reception::{Opened, Received, open, receive};
pub use write::{WriteRefusal, write_file};
