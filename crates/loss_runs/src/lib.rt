//! Runs of a decoder under losses. A plan and a code give a source block, by draws from a seed, and
//! then, run by run, an order in which its encoding symbols are sent and which of them are lost.
//! `LossRuns` makes one run a call, and `write_runs` makes them all and writes their lines. The
//! crate stands on `fec_session` for the codeword and the decoder, on `loss_patterns` and
//! `park_miller` for what is sent and lost, and on `fec_base` for the sink. It promises that each
//! run ends as `specs/` states for its seed: after the least number of arrivals whose closure holds
//! the source, or with what all of them determine.
#![tactic(auto)]

mod decoding;
mod laws;
mod least;
mod lines;
mod plan;
mod result;
mod runs;
mod sending;
mod source;
mod writing;

pub use laws::{
    each_run_has_a_result, least_is_never_above_needed, threshold_changes_nothing_else,
};
pub use plan::RunPlan;
pub use result::{RunEnd, RunLeast, RunResult, RunsRefusal};
pub use runs::LossRuns;
pub use writing::write_runs;
