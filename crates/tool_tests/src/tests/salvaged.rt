// What is salvaged of objects whose packets leave some of them open.
ghost use Rattle.std.specs.Prelude.{◌≤◌};

use super::{Outside, STAIRCASE_FILE, ample, check, check_left, run_in, run_over, with_packets};
use std::alloc::Global;
use std::process::Abort;
use std::test::Fail;
use tool_base::Status;

// Packets, each an ESI and its symbol; how a salvage of them ends, its output and its report.
type Case = (&'static [(u8, u8)], Status, &'static [u8], &'static str);

const SALVAGED: [Case; 6] = [
    // Peeling rebuilds nothing, and elimination one of the three.
    (
        &[(5, 4), (6, 7)],
        Status::Undetermined,
        &[0, 0, 4],
        "block 0 partial 1 of 3\nsymbol 0 through 0 1 3\nsymbol 1 through 0 1 3\npackets 2\n",
    ),
    (
        &[],
        Status::Undetermined,
        &[0, 0, 0],
        "block 0 partial 0 of 3\nsymbol 0 through 0 1 3\nsymbol 1 through 0 1 3\n\
        symbol 2 through 0 2 4 5\npackets 0\n",
    ),
    (
        &[(3, 5), (4, 3), (5, 4), (6, 7)],
        Status::Done,
        &[1, 2, 4],
        "block 0 whole\npackets 4\n",
    ),
    // Only elimination sees that these contradict one another.
    (
        &[(3, 5), (4, 3), (5, 4), (6, 6)],
        Status::NoCodeword,
        &[],
        "block 0 contradicted\npackets 4\n",
    ),
    (
        &[(3, 5), (3, 6)],
        Status::NoCodeword,
        &[],
        "block 0 contradicted\npackets 2\n",
    ),
    (
        &[(5, 4), (7, 1)],
        Status::Malformed,
        &[],
        "fault: packet 1 symbol 7\n",
    ),
];

#[test]
fn what_is_determined_is_salvaged(rt: HostRuntime) -> Result<(), Fail> {
    let alloc = rt.alloc();
    for (packets, status, output, report) in &SALVAGED {
        let file = with_packets(alloc, &STAIRCASE_FILE[..26], packets)?;
        check(&rt, alloc, &["salvage"], &file, *status, output, report)?;
    }
    Ok(())
}

#[test]
fn the_limits_of_a_salvage(rt: HostRuntime) -> Result<(), Fail> {
    let alloc = rt.alloc();
    let few = ["salvage", "--packets=6"];
    let limit = "fault: limit packets\n";
    check(&rt, alloc, &few, &STAIRCASE_FILE, Status::Limit, &[], limit)?;
    let drawn = ["salvage", "--draws=11"];
    let over = "fault: draws block 0\n";
    check(
        &rt,
        alloc,
        &drawn,
        &STAIRCASE_FILE,
        Status::Draws,
        &[],
        over,
    )?;
    let usage = "fault: usage\nusage: eperftool COMMAND [--name=value ...]\n";
    let early = ["salvage", "--early=yes"];
    check(
        &rt,
        alloc,
        &early,
        &STAIRCASE_FILE,
        Status::Usage,
        &[],
        usage,
    )?;
    Ok(())
}

const PADDED: [&str; 4] = ["encode", "--symbol=4", "--block=3", "--max-n=7"];

// Its header.
const PADDED_HEADER: [u8; 26] =
    *b"OFPK\x01\x03\0\0\0\0\0\0\0\x0a\0\x04\x01\0\0\x30\0\x07\0\0\0\x01";

// The packet file of ten bytes in three source symbols.
fn padded_file(rt: &impl Abort, alloc: Global) -> Result<Vec<u8>, Fail> {
    let left = run_over(alloc, &PADDED, b"0123456789")?;
    assert!(rt; left.status == Status::Done);
    Ok(Vec::from_slice(alloc, left.output.bytes())?)
}

// The last symbol is cut to the object's length, whether it is determined or not.
#[test]
fn the_last_symbol_is_cut(rt: HostRuntime) -> Result<(), Fail> {
    let alloc = rt.alloc();
    let file = padded_file(&rt, alloc)?;
    assert!(rt; file.len() == 82);
    let whole = "block 0 whole\npackets 7\n";
    check(
        &rt,
        alloc,
        &["salvage"],
        &file,
        Status::Done,
        b"0123456789",
        whole,
    )?;
    let open = "block 0 partial 0 of 3\nsymbol 0 through 0 1 3\nsymbol 1 through 0 1 3\n\
        symbol 2 through 0 2 4 5\npackets 0\n";
    let partial = Status::Undetermined;
    check(
        &rt,
        alloc,
        &["salvage"],
        &PADDED_HEADER,
        partial,
        &[0; 10],
        open,
    )?;
    Ok(())
}

// A salvage of the bytes ends so.
fn check_salvage(
    rt: &impl Abort,
    alloc: Global,
    bytes: &[u8],
    outside: Outside,
    status: Status,
    output: &[u8],
    report: &[u8],
) -> Result<(), Fail>
    requires { 1 ≤ outside.chunk }
{
    let left = run_in(alloc, &["salvage"], bytes, outside)?;
    check_left(rt, &left, status, output, report);
    Ok(())
}

// The input fails at each byte.
fn check_inputs(rt: &impl Abort, alloc: Global, file: &[u8], chunk: usize) -> Result<(), Fail>
    requires { 1 ≤ chunk }
{
    for stop in 0..37usize {
        let outside = Outside {
            stop: Some(stop),
            ..ample(chunk)
        };
        let fault = Status::ReadFault;
        check_salvage(rt, alloc, file, outside, fault, &[], b"fault: read\n")?;
    }
    Ok(())
}

// The output fails at each byte, or the report does.
fn check_sinks(rt: &impl Abort, alloc: Global, file: &[u8], chunk: usize) -> Result<(), Fail>
    requires { 1 ≤ chunk }
{
    let object = [0u8, 0, 4];
    for room in 0..3usize {
        let outside = Outside {
            output: room,
            ..ample(chunk)
        };
        let fault = Status::WriteFault;
        check_salvage(
            rt,
            alloc,
            file,
            outside,
            fault,
            &object[..room],
            b"fault: write\n",
        )?;
    }
    let report = SALVAGED[0].3.as_bytes();
    for room in 0..report.len() {
        let outside = Outside {
            report: room,
            ..ample(chunk)
        };
        let partial = Status::Undetermined;
        check_salvage(rt, alloc, file, outside, partial, &object, &report[..room])?;
    }
    Ok(())
}

#[test]
fn a_salvage_that_fails_at_each_byte(rt: HostRuntime) -> Result<(), Fail> {
    let file = with_packets(rt.alloc(), &STAIRCASE_FILE[..26], SALVAGED[0].0)?;
    for chunk in [1usize, 7] {
        assert!(rt; 1 <= chunk);
        check_inputs(&rt, rt.alloc(), &file, chunk)?;
        check_sinks(&rt, rt.alloc(), &file, chunk)?;
    }
    Ok(())
}
