//! What each command of the program does, and `run`, its top call: words and an input in, a packet
//! file or its object and a report out. The contract of `run` says what a user gets. Each command
//! has a module of its name, with its promises in `specs/`. The crate stands on `tool_base` for the
//! words, on `object_file` for the file of an object, on `packet_pass` for packet files with losses
//! and their lines, and on `loss_runs` for runs of a decoder under losses.
#![tactic(auto)]

mod decode;
mod encode;
mod options;
mod outcome;
mod pass_run;
mod perf;
mod top_call;

pub use options::PerfOptions;
pub use outcome::{outcome_status, put_decode_report};
pub use pass_run::run_pass;
pub use top_call::{Ended, run};
