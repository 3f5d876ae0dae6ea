// The runs of a plan, written line by line.
ghost use Rattle.std.specs.Prelude.{◌≡◌, ◌+◌, ◌<◌, ◌≤◌, ℕ, List, Err, IfOk, OnOk, length};
ghost use Rattle.std.specs.Io.KnownBytes.{Appends};
ghost use Rattle.fec_base.specs.Bytes.{AppendsFront};
ghost use Rattle.fec_base.specs.Parts.{AppendsPart};
ghost use Rattle.fec_base.specs.Causes.{Rose};
ghost use Rattle.loss_runs.specs.Trials.{trial_of};
ghost use Rattle.loss_runs.specs.Plans.{IsPlan};
ghost use Rattle.loss_runs.specs.Ends.{IsRunOf};
ghost use Rattle.loss_runs.specs.Lines.{run_line, run_lines};
ghost use Rattle.loss_runs.specs.Written.{OfText};
ghost use Rattle.loss_runs.specs.Kept.{AreFirst, AreSums};
ghost use Rattle.loss_runs.specs.declared.result.RunResult.{RunResult};
ghost use Rattle.loss_runs.specs.declared.result.RunsRefusal.TheVariants.{Memory, Output};

use crate::lines::{Sums, code_line, run_line, sum_line};
use crate::{LossRuns, RunPlan, RunResult, RunsRefusal, each_run_has_a_result};
use fec_base::{Sink, write_all};
use sparse_rows::{Code, one_codeword_for_each_source};
use std::alloc::Global;

/// Makes the runs of the plan with this code, and writes the line of the code, a line for each run
/// and a line with the sums. `name` is what the code is called there, and `draws` is how many draws
/// its building took.
///
/// A line is put together in memory and handed over as one piece, that of a run as soon as the run
/// has ended and before the next one begins. So the lines show how far it has come.
pub fn write_runs<K: Sink>(
    alloc: Global,
    plan: &RunPlan,
    code: Code,
    name: &str,
    draws: u64,
    output: &mut K,
) -> Result<(), RunsRefusal>
    requires { IsPlan plan.now }
    ensures whole { OnOk result (OfText (trial_of plan.now code) plan.now.runs name.now draws
        (Appends (K.held output.old) (K.held output.new))) }
    ensures cut { result ≡ Err Output
        → OfText (trial_of plan.now code) plan.now.runs name.now draws
        (AppendsFront (K.held output.old) (K.held output.new)) }
    ensures cause { result ≡ Err Output → Rose (K.faults output.old) (K.faults output.new) }
    ensures part { result ≡ Err Memory
        → OfText (trial_of plan.now code) plan.now.runs name.now draws
        (AppendsPart (K.held output.old) (K.held output.new)) }
    ensures later { K.faults output.old ≤ K.faults output.new }
{
    // These tell that each run has a result, also one that isn't made.
    prove!(code.k() <= code.n());
    one_codeword_for_each_source();
    each_run_has_a_result();
    let first = code_line(alloc, name, &code, draws)?;
    let mut runs = LossRuns::new(alloc, code, plan)?;
    write_all(output, first.as_bytes())?;
    let sums = write_run_lines(alloc, &mut runs, plan.runs, output)?;
    let last = sum_line(alloc, plan.runs, sums)?;
    write_all(output, last.as_bytes())?;
    Ok(())
}

// Makes so many runs, of which none is made yet, and writes a line for each. Says their sums.
fn write_run_lines<K: Sink>(
    alloc: Global,
    runs: &mut LossRuns,
    count: u32,
    output: &mut K,
) -> Result<Sums, RunsRefusal>
    requires { runs.old.done ≡ 0 }
    ensures whole { IfOk result (λ sums. (results : List RunResult)
        × AreFirst runs.old.trial runs.old.word results × (length results ≡ count)
        × AreSums results sums
        × Appends (K.held output.old) (K.held output.new) (run_lines results)) }
    ensures cut { result ≡ Err Output → (results : List RunResult)
        × AreFirst runs.old.trial runs.old.word results × (length results ≤ count)
        × AppendsFront (K.held output.old) (K.held output.new) (run_lines results) }
    ensures cause { result ≡ Err Output → Rose (K.faults output.old) (K.faults output.new) }
    ensures part { result ≡ Err Memory → (results : List RunResult)
        × AreFirst runs.old.trial runs.old.word results × (length results ≤ count)
        × Appends (K.held output.old) (K.held output.new) (run_lines results) }
    ensures later { K.faults output.old ≤ K.faults output.new }
{
    let mut sums = Sums::none();
    for _ in 0..count {
        let made = write_run(alloc, runs, output)?;
        sums = sums.and(made);
    }
    Ok(sums)
}

// Makes the next run, and writes its line.
fn write_run<K: Sink>(
    alloc: Global,
    runs: &mut LossRuns,
    output: &mut K,
) -> Result<RunResult, RunsRefusal>
    requires { runs.old.done < 4294967295 }
    ensures made { IfOk result (IsRunOf runs.old.trial runs.old.word runs.old.done) }
    ensures written { IfOk result (λ made. Appends (K.held output.old) (K.held output.new)
        (run_line (runs.old.done + 1) made)) }
    ensures next { OnOk result (runs.new ≡ record runs.old { done = runs.old.done + 1 }) }
    ensures cut { result ≡ Err Output → (made : RunResult)
        × IsRunOf runs.old.trial runs.old.word runs.old.done made
        × AppendsFront (K.held output.old) (K.held output.new)
        (run_line (runs.old.done + 1) made) }
    ensures cause { result ≡ Err Output → Rose (K.faults output.old) (K.faults output.new) }
    ensures unwritten { result ≡ Err Memory → K.held output.new ≡ K.held output.old }
    ensures later { K.faults output.old ≤ K.faults output.new }
{
    let made = runs.run(alloc)?;
    let line = run_line(alloc, runs.done() as u64, made)?;
    write_all(output, line.as_bytes())?;
    Ok(made)
}
