// Packet files without the packets that are lost, and packet files that are shown.
use super::{CORNER_FILE, GRID_FILE, STAIRCASE_FILE, check};
use std::alloc::Global;
use std::process::Abort;
use std::test::Fail;
use tool_base::Status;

// A loss of the file of seven packets keeps those of these symbols.
fn check_kept(
    rt: &impl Abort,
    alloc: Global,
    loss: &str,
    kept: &[u8],
    report: &str,
) -> Result<(), Fail> {
    let mut file = Vec::from_slice(alloc, &STAIRCASE_FILE[..26])?;
    for esi in kept {
        let start = 26 + 5 * (*esi).min(6) as usize;
        file.extend_from_slice(&STAIRCASE_FILE[start..start + 5])?;
    }
    let words = ["lose", "--loss", loss];
    check(
        rt,
        alloc,
        &words,
        &STAIRCASE_FILE,
        Status::Done,
        &file,
        report,
    )
}

#[test]
fn packets_are_lost(rt: HostRuntime) -> Result<(), Fail> {
    let alloc = rt.alloc();
    let all = [0u8, 1, 2, 3, 4, 5, 6];
    check_kept(&rt, alloc, "none", &all, "read 7 kept 7\n")?;
    check_kept(&rt, alloc, "first:3", &[3, 4, 5, 6], "read 7 kept 4\n")?;
    check_kept(&rt, alloc, "burst:500:500", &[1, 2, 5], "read 7 kept 3\n")?;
    check_kept(&rt, alloc, "even:500", &[2, 4], "read 7 kept 2\n")?;
    Ok(())
}

const STAIRCASE_LINE: &str =
    "codec staircase n1 3 seed 1 length 3 symbol 1 block 3 max 7 blocks 1\n";

const GRID_LINE: &str = "codec 2d width 3 length 5 symbol 1 block 5 max 10 blocks 1\n";

const CORNER_LINE: &str = "codec 2d-corner width 3 length 5 symbol 1 block 5 max 11 blocks 1\n";

// The first bytes of a file are shown by these lines.
fn check_shown(
    rt: &impl Abort,
    alloc: Global,
    file: &[u8],
    header: &str,
    packets: &str,
) -> Result<(), Fail> {
    let shown = format!(in alloc; "{header}{packets}")?;
    check(
        rt,
        alloc,
        &["show"],
        file,
        Status::Done,
        shown.as_bytes(),
        "",
    )
}

#[test]
fn a_file_is_shown(rt: HostRuntime) -> Result<(), Fail> {
    let alloc = rt.alloc();
    let mut file = Vec::from_slice(alloc, &STAIRCASE_FILE[..26])?;
    file.extend_from_slice(&STAIRCASE_FILE[41..46])?;
    let packet = "packet 0 block 0 symbol 3 bytes 05\n";
    check_shown(&rt, alloc, &file, STAIRCASE_LINE, packet)?;
    let packet = "packet 0 block 0 symbol 0 bytes 01\n";
    check_shown(&rt, alloc, &GRID_FILE[..31], GRID_LINE, packet)?;
    check_shown(&rt, alloc, &CORNER_FILE[..31], CORNER_LINE, packet)?;
    Ok(())
}

// A pass over the first bytes of the file is refused behind the packets 0 and 1, if they are there.
fn check_refused(
    rt: &impl Abort,
    alloc: Global,
    words: &[&str],
    file: &[u8],
    status: Status,
    report: &str,
) -> Result<(), Fail> {
    let output = if file.len() < 36 {
        [].as_slice()
    } else {
        &file[..36]
    };
    check(rt, alloc, words, file, status, output, report)
}

#[test]
fn a_refused_pass_has_written_the_packets_before(rt: HostRuntime) -> Result<(), Fail> {
    let alloc = rt.alloc();
    let malformed = Status::Malformed;
    let short = "fault: header short 25\n";
    check_refused(
        &rt,
        alloc,
        &["lose"],
        &STAIRCASE_FILE[..25],
        malformed,
        short,
    )?;
    let short = "fault: packet 2 short 4\n";
    check_refused(
        &rt,
        alloc,
        &["lose"],
        &STAIRCASE_FILE[..40],
        malformed,
        short,
    )?;
    let two = ["lose", "--packets=2"];
    let limit = "fault: limit packets\n";
    check_refused(&rt, alloc, &two, &STAIRCASE_FILE, Status::Limit, limit)?;
    let mut file = Vec::from_slice(alloc, &STAIRCASE_FILE[..36])?;
    file.extend_from_slice(b"\0\x10\0\0\x01")?;
    let block = "fault: packet 2 block 1\n";
    check_refused(&rt, alloc, &["lose"], &file, malformed, block)?;
    Ok(())
}
