// The lines of runs, each put together before it is written.
ghost use Rattle.std.specs.Prelude.{◌≡◌, ◌+◌, ◌<◌, ℕ, List, [], ◌++◌, ◌∷◌, length, IfOk};
ghost use Rattle.std.specs.String.{string_bytes};
ghost use Rattle.loss_runs.specs.Lines.{code_line, end_text, least_text, run_line, sum_line};
ghost use Rattle.loss_runs.specs.Kept.{AreSums};
ghost use Rattle.loss_runs.specs.declared.result.RunResult.{RunResult};

use crate::{RunEnd, RunLeast, RunResult};
use sparse_rows::Code;
use std::alloc::{AllocError, Global};

/// How many runs ended in each way.
#[derive(Clone, Copy, Debug, PartialEq, Eq)]
pub struct Sums {
    pub peeled: u32,
    pub solved: u32,
    pub undetermined: u32,
}

impl Sums {
    /// Those of no runs.
    pub fn none() -> Sums
        ensures { AreSums [] result }
    {
        Sums {
            peeled: 0,
            solved: 0,
            undetermined: 0,
        }
    }

    /// Those of one run more.
    pub fn and(self, made: RunResult) -> Sums
        requires { (results : List RunResult) × AreSums results self
            × (length results < 4294967295) }
        ensures { (results : List RunResult) → AreSums results self
            → AreSums (results ++ made ∷ []) result }
    {
        let Sums {
            peeled,
            solved,
            undetermined,
        } = self;
        match made.end {
            RunEnd::Peeled(_) => Sums {
                peeled: peeled + 1,
                solved,
                undetermined,
            },
            RunEnd::Solved => Sums {
                peeled,
                solved: solved + 1,
                undetermined,
            },
            RunEnd::Undetermined => Sums {
                peeled,
                solved,
                undetermined: undetermined + 1,
            },
        }
    }
}

/// The line of a code.
pub fn code_line(alloc: Global, name: &str, code: &Code, draws: u64) -> Result<String, AllocError>
    ensures { IfOk result (λ line. string_bytes line ≡ code_line name.now code.now draws) }
{
    let k = code.k();
    let n = code.n();
    let entries = code.entries();
    format!(in alloc; "code {name} k {k} n {n} entries {entries} draws {draws}\n")
}

/// The line of the run with this number.
pub fn run_line(alloc: Global, number: u64, made: RunResult) -> Result<String, AllocError>
    ensures { IfOk result (λ line. string_bytes line ≡ run_line number made) }
{
    let kept = made.kept;
    let end_text = end_text(alloc, made.end)?;
    let end = end_text.as_str();
    let least_text = least_text(alloc, made.least)?;
    let least = least_text.as_str();
    format!(in alloc; "run {number} kept {kept} needed {end}{least}\n")
}

// How many arrivals peeling needed, and how the run ended.
fn end_text(alloc: Global, end: RunEnd) -> Result<String, AllocError>
    ensures { IfOk result (λ text. string_bytes text ≡ end_text end) }
{
    match end {
        RunEnd::Peeled(needed) => format!(in alloc; "{needed} peeled"),
        RunEnd::Solved => format!(in alloc; "none solved"),
        RunEnd::Undetermined => format!(in alloc; "none undetermined"),
    }
}

// How many of the kept symbols determine the block, where that is asked for.
fn least_text(alloc: Global, least: RunLeast) -> Result<String, AllocError>
    ensures { IfOk result (λ text. string_bytes text ≡ least_text least) }
{
    match least {
        RunLeast::Unasked => Ok(String::new(alloc)),
        RunLeast::Never => format!(in alloc; " least none"),
        RunLeast::Prefix(count) => format!(in alloc; " least {count}"),
    }
}

/// The line with the sums of so many runs.
pub fn sum_line(alloc: Global, count: u32, sums: Sums) -> Result<String, AllocError>
    ensures { IfOk result (λ line. (results : List RunResult) → length results ≡ count
        → AreSums results sums → string_bytes line ≡ sum_line results) }
{
    let Sums {
        peeled,
        solved,
        undetermined,
    } = sums;
    format!(in alloc; "runs {count} peeled {peeled} solved {solved} undetermined {undetermined}\n")
}
