// Each fault of a header, of its fields and of a packet, each limit of a file's sizes, and words
// that mean no command.
use super::{GRID_FILE, Outside, STAIRCASE_FILE, ample, check, check_left, run_in};
use Damage::{Grid, Packets, Staircase};
use std::alloc::Global;
use std::test::Fail;
use tool_base::Status::{self, Limit, Malformed};

// What was done to a file.
enum Damage {
    // Behind the header of the staircase's file stand these bytes.
    Packets(&'static [u8]),
    // From this place on, the staircase's file has these bytes.
    Staircase(usize, &'static [u8]),
    // From this place on, the grid's file has these bytes.
    Grid(usize, &'static [u8]),
}

// The bytes of a file to which this was done.
fn damaged(alloc: Global, damage: &Damage) -> Result<Vec<u8>, Fail> {
    match damage {
        Packets(bytes) => behind_header(alloc, bytes),
        Staircase(place, bytes) => with_bytes(alloc, &STAIRCASE_FILE, *place, bytes),
        Grid(place, bytes) => with_bytes(alloc, &GRID_FILE, *place, bytes),
    }
}

// The header of the staircase's file, and these bytes.
fn behind_header(alloc: Global, bytes: &[u8]) -> Result<Vec<u8>, Fail> {
    let mut file = Vec::from_slice(alloc, &STAIRCASE_FILE[..26])?;
    file.extend_from_slice(bytes)?;
    Ok(file)
}

// The file with other bytes from this place on.
fn with_bytes(alloc: Global, file: &[u8], place: usize, bytes: &[u8]) -> Result<Vec<u8>, Fail> {
    let mut changed = Vec::from_slice(alloc, file)?;
    for (byte, other) in changed.iter_mut().skip(place).zip(bytes) {
        *byte = *other;
    }
    Ok(changed)
}

const REFUSED: [(Damage, Status, &str); 27] = [
    (
        Packets(b"\0\x10\0\0\x01"),
        Malformed,
        "fault: packet 0 block 1\n",
    ),
    (
        Packets(b"\0\x10\0\0"),
        Malformed,
        "fault: packet 0 short 4\n",
    ),
    (
        Packets(b"\0\0\0\x07\x01"),
        Malformed,
        "fault: packet 0 symbol 7\n",
    ),
    (
        Packets(b"\0\0\0\0\x01\0\0\0\x01\x02\0\0"),
        Malformed,
        "fault: packet 2 short 2\n",
    ),
    (
        Packets(b"\0\0\0\0\x01\0\0\0\x09\x02\0\0"),
        Malformed,
        "fault: packet 1 symbol 9\n",
    ),
    (Staircase(0, b"P"), Malformed, "fault: header magic\n"),
    (
        Staircase(4, &[3, 5]),
        Malformed,
        "fault: header version 3\n",
    ),
    (Staircase(5, &[5, 1]), Malformed, "fault: header codec 5\n"),
    (Staircase(6, &[1]), Malformed, "fault: header reserved\n"),
    (Staircase(7, &[1]), Malformed, "fault: header reserved\n"),
    (
        Staircase(14, &[0, 0, 2]),
        Malformed,
        "fault: header field 1\n",
    ),
    (Staircase(16, &[2]), Malformed, "fault: header field 2\n"),
    (
        Staircase(17, &[0, 0, 0]),
        Malformed,
        "fault: header field 3\n",
    ),
    (Staircase(20, &[0, 2]), Malformed, "fault: header field 4\n"),
    (
        Staircase(19, &[0x31, 0, 1]),
        Malformed,
        "fault: header field 5\n",
    ),
    (Staircase(22, &[0; 4]), Malformed, "fault: header field 6\n"),
    (
        Staircase(22, &[0x7f, 0xff, 0xff, 0xff]),
        Malformed,
        "fault: header field 6\n",
    ),
    (Grid(22, &[0; 4]), Malformed, "fault: header field 7\n"),
    (Grid(21, &[11]), Malformed, "fault: header field 8\n"),
    (Grid(16, &[0x21]), Malformed, "fault: header field 8\n"),
    // The greatest n of a grid isn't that of a grid with a corner.
    (Grid(5, &[201]), Malformed, "fault: header field 8\n"),
    (Grid(5, &[202]), Malformed, "fault: header codec 202\n"),
    // From byte 8 on: the length, the symbol length, N1 and G, the greatest block length and n.
    (
        Staircase(8, &[0, 0, 0x10, 0, 0, 1]),
        Limit,
        "fault: limit length\n",
    ),
    (
        Staircase(8, &[0, 0, 0, 0, 0x10, 1, 0, 1, 1, 0, 0, 0x10, 0, 1]),
        Limit,
        "fault: limit blocks\n",
    ),
    (
        Staircase(8, &[0, 0, 0x10, 0, 0, 0, 0xff, 0xff, 1, 0x10, 0, 1, 0, 0]),
        Limit,
        "fault: limit block-bytes\n",
    ),
    (
        Staircase(8, &[0, 0, 0, 0x40, 0, 1, 0, 1, 1, 0x10, 0, 1, 0, 0]),
        Limit,
        "fault: limit symbols\n",
    ),
    (
        Staircase(
            8,
            &[0, 0, 0x10, 0, 0, 0, 4, 0, 1, 0, 0x3e, 0x80, 0x0b, 0xb8],
        ),
        Limit,
        "fault: limit bytes\n",
    ),
];

#[test]
fn the_first_fault_of_a_file_is_reported(rt: HostRuntime) -> Result<(), Fail> {
    for (damage, status, report) in &REFUSED {
        let file = damaged(rt.alloc(), damage)?;
        check(&rt, rt.alloc(), &["decode"], &file, *status, &[], report)?;
    }
    Ok(())
}

#[test]
fn words_that_mean_no_command_are_usage(rt: HostRuntime) -> Result<(), Fail> {
    let usage = "fault: usage\n\
        usage: eperftool COMMAND [--name=value ...]\n";
    let cases: [&[&str]; 19] = [
        &[],
        &["pack"],
        &["encode", "--symbol=0"],
        &["encode", "--symbol=08"],
        &["encode", "--seed=1", "--seed=1"],
        &["encode", "--seed=1", "--seed", "1"],
        &["encode", "--width=3"],
        &["encode", "--codec=2d", "--n1=3"],
        &["encode", "--codec=2d", "--width=256", "--block=65026"],
        &["encode", "--block=7", "--max-n=6"],
        &["encode", "--sym=1"],
        &["encode", "--help"],
        &["decode", "--"],
        &["decode", "x"],
        &["decode", "--early", "--packets=3"],
        &["perf", "--k=3", "--k=3"],
        &["perf", "--k=8", "--n=7"],
        &["frame", "--symbol=2"],
        &["unframe", "--symbol=65536"],
    ];
    for words in cases {
        // The first read of this input would be a fault.
        let outside = Outside {
            stop: Some(0),
            ..ample(70)
        };
        let left = run_in(rt.alloc(), words, b"01234", outside)?;
        check_left(&rt, &left, Status::Usage, &[], usage.as_bytes());
    }
    Ok(())
}
