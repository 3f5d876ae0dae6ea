// The code is LDPC-Staircase with k = 3, n = 7, N1 = 3 and seed 1: rows {0, 2, 3}, {1, 2, 3, 4},
// {0, 1, 2, 4, 5} and {0, 1, 5, 6}, made by 12 draws. With symbols of one byte and seed 1 the
// source is 00 21 c1, and the order drawn behind it is 5 4 2 0 1 6 3.
ghost use Rattle.loss_patterns.specs.Ranges.{IsLoss};
ghost use Rattle.loss_runs.specs.Plans.{IsPlan};

use fec_base::MemSink;
use loss_patterns::LossKind;
use loss_runs::{LossRuns, RunEnd, RunLeast, RunPlan, RunResult, RunsRefusal, write_runs};
use staircase::staircase;
use std::alloc::Global;
use std::process::Abort;
use std::test::Fail;

// The lines of one run in which nothing is lost and the symbols are sent from 0 up.
const LINES: &str = "code staircase k 3 n 7 entries 16 draws 12\n\
    run 1 kept 7 needed 3 peeled\n\
    runs 1 peeled 1 solved 0 undetermined 0\n";

// One run with symbols of one byte and seed 1.
fn plan(loss: LossKind, random: bool, threshold: bool) -> RunPlan
    requires { IsLoss loss }
    ensures { IsPlan result }
{
    RunPlan {
        symbol: 1,
        loss,
        random,
        runs: 1,
        seed: 1,
        threshold,
    }
}

// The first run of the plan comes out so.
fn check_run(rt: &impl Abort, alloc: Global, plan: &RunPlan, wanted: RunResult) -> Result<(), Fail>
    requires { IsPlan plan.now }
{
    let built = staircase(alloc, 3, 7, 3, 1, 100)?;
    let mut runs = LossRuns::new(alloc, built.code, plan)?;
    assert!(rt; runs.run(alloc)? == wanted);
    assert!(rt; runs.done() == 1);
    Ok(())
}

// The first run under this loss keeps so many symbols, ends so, and finds this least number where
// it is asked for.
fn check_runs(
    rt: &impl Abort,
    alloc: Global,
    loss: LossKind,
    random: bool,
    wanted: RunResult,
) -> Result<(), Fail>
    requires { IsLoss loss }
{
    check_run(rt, alloc, &plan(loss, random, true), wanted)?;
    let unasked = RunResult {
        least: RunLeast::Unasked,
        ..wanted
    };
    check_run(rt, alloc, &plan(loss, random, false), unasked)
}

// A run that keeps so many symbols, ends so, and finds this least number.
const fn result(kept: u32, end: RunEnd, least: RunLeast) -> RunResult {
    RunResult { kept, end, least }
}

#[test]
fn runs_end_by_what_is_kept(rt: HostRuntime) -> Result<(), Fail> {
    let alloc = rt.alloc();
    let peeled = result(7, RunEnd::Peeled(3), RunLeast::Prefix(3));
    check_runs(&rt, alloc, LossKind::None, false, peeled)?;
    let solved = result(4, RunEnd::Solved, RunLeast::Prefix(3));
    check_runs(&rt, alloc, LossKind::First(3), false, solved)?;
    let open = result(1, RunEnd::Undetermined, RunLeast::Never);
    check_runs(&rt, alloc, LossKind::First(6), false, open)?;
    let shuffled = result(7, RunEnd::Peeled(4), RunLeast::Prefix(4));
    check_runs(&rt, alloc, LossKind::None, true, shuffled)
}

// A sink with this room takes this front of the lines.
fn check_lines(
    rt: &impl Abort,
    alloc: Global,
    room: usize,
    wanted: Result<(), RunsRefusal>,
) -> Result<(), Fail> {
    let built = staircase(alloc, 3, 7, 3, 1, 100)?;
    let mut output = MemSink::new(alloc, room, 7)?;
    assert!(rt;
        write_runs(
            alloc,
            &plan(LossKind::None, false, false),
            built.code,
            "staircase",
            built.draws,
            &mut output,
        ) == wanted
    );
    assert!(rt; Some(output.bytes()) == LINES.as_bytes().get(..room));
    Ok(())
}

#[test]
fn the_lines_are_written_or_a_front_of_them(rt: HostRuntime) -> Result<(), Fail> {
    let alloc = rt.alloc();
    for room in 0..LINES.len() {
        check_lines(&rt, alloc, room, Err(RunsRefusal::Output))?;
    }
    check_lines(&rt, alloc, LINES.len(), Ok(()))
}
