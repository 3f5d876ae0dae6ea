// Runs of a decoder under losses, and their lines.
use super::{Left, Outside, ample, check_left, run_in, run_over};
use loss_patterns::read_number;
use std::alloc::Global;
use std::process::Abort;
use std::test::Fail;
use tool_base::Status;

const CODE_LINE: &str = "code staircase k 3 n 7 entries 16 draws 12\n";

// Runs the words over an input whose first read would be a fault: a `perf` reads nothing.
fn run_unread(alloc: Global, words: &[&str]) -> Result<Left, Fail> {
    let outside = Outside {
        stop: Some(0),
        ..ample(70)
    };
    run_in(alloc, words, b"0", outside)
}

// A `perf` of the code of three and seven, sent in this order under this loss, writes these lines
// behind that of the code.
fn check_runs(
    rt: &impl Abort,
    alloc: Global,
    order: &str,
    loss: &str,
    threshold: &str,
    lines: &str,
) -> Result<(), Fail> {
    let words = [
        "perf",
        "--k=3",
        "--n=7",
        "--symbol=1",
        "--order",
        order,
        "--loss",
        loss,
        "--threshold",
        threshold,
    ];
    let left = run_unread(alloc, &words)?;
    let wanted = format!(in alloc; "{CODE_LINE}{lines}")?;
    check_left(rt, &left, Status::Done, wanted.as_bytes(), &[]);
    Ok(())
}

#[test]
fn runs_peel_or_are_solved_or_stay_undetermined(rt: HostRuntime) -> Result<(), Fail> {
    let alloc = rt.alloc();
    let peeled = "run 1 kept 7 needed 3 peeled\nruns 1 peeled 1 solved 0 undetermined 0\n";
    check_runs(&rt, alloc, "sent", "none", "no", peeled)?;
    let solved = "run 1 kept 4 needed none solved\nruns 1 peeled 0 solved 1 undetermined 0\n";
    check_runs(&rt, alloc, "sent", "first:3", "no", solved)?;
    let open = "run 1 kept 1 needed none undetermined\nruns 1 peeled 0 solved 0 undetermined 1\n";
    check_runs(&rt, alloc, "sent", "first:6", "no", open)?;
    let shuffled = "run 1 kept 7 needed 4 peeled\nruns 1 peeled 1 solved 0 undetermined 0\n";
    check_runs(&rt, alloc, "random", "none", "no", shuffled)?;
    Ok(())
}

#[test]
fn runs_tell_the_least_number_that_determines(rt: HostRuntime) -> Result<(), Fail> {
    let alloc = rt.alloc();
    let peeled = "run 1 kept 7 needed 3 peeled least 3\nruns 1 peeled 1 solved 0 undetermined 0\n";
    check_runs(&rt, alloc, "sent", "none", "yes", peeled)?;
    let solved = "run 1 kept 4 needed none solved least 3\n\
        runs 1 peeled 0 solved 1 undetermined 0\n";
    check_runs(&rt, alloc, "sent", "first:3", "yes", solved)?;
    let open = "run 1 kept 1 needed none undetermined least none\n\
        runs 1 peeled 0 solved 0 undetermined 1\n";
    check_runs(&rt, alloc, "sent", "first:6", "yes", open)?;
    let shuffled =
        "run 1 kept 7 needed 4 peeled least 4\nruns 1 peeled 1 solved 0 undetermined 0\n";
    check_runs(&rt, alloc, "random", "none", "yes", shuffled)?;
    Ok(())
}

#[test]
fn runs_that_are_refused_write_nothing(rt: HostRuntime) -> Result<(), Fail> {
    let alloc = rt.alloc();
    let large = run_unread(alloc, &["perf", "--k=65536", "--symbol=4097"])?;
    let limit = "fault: limit block-bytes\n";
    check_left(&rt, &large, Status::Limit, &[], limit.as_bytes());
    let over = run_unread(alloc, &["perf", "--k=3", "--n=7", "--draws=11"])?;
    check_left(&rt, &over, Status::Draws, &[], b"fault: draws block 0\n");
    Ok(())
}

#[test]
fn the_same_words_write_the_same_lines(rt: HostRuntime) -> Result<(), Fail> {
    let first = run_over(rt.alloc(), &["perf", "--k=300"], b"")?;
    let second = run_over(rt.alloc(), &["perf", "--k=300"], b"")?;
    assert!(rt; first.status == Status::Done);
    assert!(rt; first.output.bytes() == second.output.bytes());
    let lines = first
        .output
        .bytes()
        .iter()
        .filter(|byte| **byte == b'\n')
        .count();
    assert!(rt; lines == 3);
    Ok(())
}

// The text is the line of run `run`, which kept all 30,000 symbols and needed from 20,000 of them
// to all; what follows is given back.
fn after_run<'a>(rt: &impl Abort, alloc: Global, run: u32, text: &'a str) -> Result<&'a str, Fail> {
    let head = format!(in alloc; "run {run} kept 30000 needed ")?;
    let tail = text.strip_prefix(head.as_str()).ok_or("another run")?;
    let (needed, rest) = tail.split_once(" peeled\n").ok_or("not peeled")?;
    assert!(rt; read_number(needed.as_bytes(), 20_000, 30_000).is_some());
    Ok(rest)
}

#[test]
fn a_hundred_runs_of_a_large_code_peel(rt: HostRuntime) -> Result<(), Fail> {
    let alloc = rt.alloc();
    let words = [
        "perf",
        "--k=20000",
        "--n=30000",
        "--symbol=16",
        "--runs=100",
    ];
    let left = run_over(alloc, &words, b"")?;
    assert!(rt; left.status == Status::Done);
    let text = str::from_utf8(left.output.bytes())?;
    let (code, mut rest) = text.split_once('\n').ok_or("no line")?;
    assert!(rt; code.starts_with("code staircase k 20000 n 30000 entries "));
    for run in 1..101 {
        rest = after_run(&rt, alloc, run, rest)?;
    }
    assert!(rt; rest == "runs 100 peeled 100 solved 0 undetermined 0\n");
    Ok(())
}
