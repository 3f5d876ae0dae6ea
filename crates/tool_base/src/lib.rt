//! What the commands share: which command a list of words asks for and with which options, the code
//! of a block of a file or of a shape, how a run may end, and texts and numbers put into a report.
//! It stands on `clap`, which splits the words into options, on `loss_patterns` for numbers and
//! losses in them, on `packet_file` for the header of a file and on `staircase`, `triangle` and
//! `parity_2d` for its codes. It promises that words are read exactly as `specs/` states without a
//! word of clap, for any table of options, that what is given is what is read, in its ranges, that
//! a block has the code of its codec, and that each status has its number and its text.
#![tactic(auto)]

mod causes;
mod codes;
mod command;
mod ending;
mod fault_report;
mod given;
mod laws;
mod options;
mod printing;
mod report;
mod status;
mod table;
mod words;

pub use causes::Refusal;
pub use codes::{block_code, shape_code};
pub use command::{Command, Shape};
pub use ending::{conclude, tell};
pub use fault_report::refuse;
pub use laws::what_is_given_is_read;
pub use options::codec_word;
pub use printing::{put_number, put_text};
pub use report::{put_numbered, put_positions};
pub use staircase::{BuildRefusal, Built};
pub use status::Status;
pub use words::read_words;
