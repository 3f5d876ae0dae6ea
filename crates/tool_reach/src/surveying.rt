// What the packets save of each block.
ghost use Rattle.std.specs.List.{list_any};
ghost use Rattle.std.specs.Prelude.{◌≡◌, ◌<◌, ◌≤◌, IfOk};
ghost use Rattle.tool_reach.specs.Salvaged.{count_of, determined_count, is_contradicted};
ghost use Rattle.tool_reach.specs.Salvaged.{is_determined, is_partial, salvage_status};
ghost use Rattle.tool_reach.specs.Surveyed.{AreSurveys};

use fec_base::NoMemory;
use fec_session::Core;
use partial_block::{Partial, Survey, survey};
use std::alloc::Global;
use tool_base::Status;

// What the arrivals at each decoder save of its block.
pub(crate) fn survey_all(alloc: Global, cores: &[Core]) -> Result<Vec<Survey>, NoMemory>
    ensures { IfOk result (λ surveys. AreSurveys cores.now surveys.items) }
{
    let mut surveys = Vec::with_capacity(alloc, cores.len())?;
    for core in cores {
        surveys.push(survey(alloc, core)?)?;
    }
    Ok(surveys)
}

// The status of a run by what is saved of the blocks.
pub(crate) fn survey_status(surveys: &[Survey]) -> Status
    ensures { result ≡ salvage_status surveys.now }
{
    if has_contradicted(surveys) {
        return Status::NoCodeword;
    }
    if has_partial(surveys) {
        return Status::Undetermined;
    }
    Status::Done
}

// Whether no codeword fits some block.
fn has_contradicted(surveys: &[Survey]) -> bool
    ensures { result ≡ list_any is_contradicted surveys.now }
{
    surveys.iter().any(|survey| is_contradicted(survey))
}

// Whether no codeword fits the block.
fn is_contradicted(survey: &Survey) -> bool
    ensures { result ≡ is_contradicted survey.now }
{
    match survey {
        Survey::NoCodeword => true,
        Survey::Sources(_) => false,
    }
}

// Whether a source symbol of some block isn't determined, where some codeword fits it.
fn has_partial(surveys: &[Survey]) -> bool
    ensures { result ≡ list_any is_partial surveys.now }
{
    surveys.iter().any(|survey| is_partial(survey))
}

// Whether a source symbol isn't determined, where some codeword fits the block.
fn is_partial(survey: &Survey) -> bool
    ensures { result ≡ is_partial survey.now }
{
    match survey {
        Survey::NoCodeword => false,
        Survey::Sources(partial) => count_determined(partial) != partial.count(),
    }
}

// How many source symbols are determined.
pub(crate) fn count_determined(partial: &Partial) -> u32
    ensures value { result ≡ determined_count partial.now }
    ensures most { result ≤ count_of partial.now }
{
    let mut count = 0;
    for e in 0..partial.count() {
        if is_determined(partial, e) {
            count += 1;
        }
    }
    count
}

// Whether source symbol e is determined.
fn is_determined(partial: &Partial, e: u32) -> bool
    requires { e < count_of partial.now }
    ensures { result ≡ is_determined partial.now e }
{
    match partial.symbol(e) {
        Some(_) => true,
        None => false,
    }
}
