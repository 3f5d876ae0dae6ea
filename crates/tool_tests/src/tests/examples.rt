// Words and an input, and how a run over them ends.
use super::{CORNER_FILE, GRID, GRID_FILE, STAIRCASE_FILE, THREE_OF_SEVEN, check};
use std::test::Fail;
use tool_base::Status::{self, Done, Limit, Undetermined};

// The words, the input, and the status, output and report.
type Case = (
    &'static [&'static str],
    &'static [u8],
    Status,
    &'static [u8],
    &'static str,
);

// The defaults: a staircase, symbols of 1,024 bytes, blocks of 1,000 of them and 1,500 with repair.
const EMPTY_FILE: [u8; 26] = *b"OFPK\x01\x03\0\0\0\0\0\0\0\0\x04\0\x01\0\x3e\x80\x05\xdc\0\0\0\x01";

const OBJECT: [u8; 3] = [1, 2, 4];

const GRID_OBJECT: [u8; 5] = [1, 2, 4, 8, 16];

const SEVEN: &str = "blocks 1\npackets 7\n";

const PEELED: &str = "block 0 peeled\npackets 7\n";

const CASES: [Case; 18] = [
    // A staircase of three source symbols and seven encoding symbols.
    (&THREE_OF_SEVEN, &OBJECT, Done, &STAIRCASE_FILE, SEVEN),
    (
        &["encode", "--symbol", "1", "--block", "3", "--max-n", "7"],
        &OBJECT,
        Done,
        &STAIRCASE_FILE,
        SEVEN,
    ),
    (
        &[
            "encode",
            "--codec=staircase",
            "--n1=3",
            "--seed=1",
            "--block=3",
            "--max-n=7",
            "--symbol=1",
        ],
        &OBJECT,
        Done,
        &STAIRCASE_FILE,
        SEVEN,
    ),
    (&["decode"], &STAIRCASE_FILE, Done, &OBJECT, PEELED),
    // A grid, which draws nothing.
    (
        &GRID,
        &GRID_OBJECT,
        Done,
        &GRID_FILE,
        "blocks 1\npackets 10\n",
    ),
    (
        &["decode"],
        &GRID_FILE,
        Done,
        &GRID_OBJECT,
        "block 0 peeled\npackets 10\n",
    ),
    (
        &["decode", "--draws=0"],
        &GRID_FILE,
        Done,
        &GRID_OBJECT,
        "block 0 peeled\npackets 10\n",
    ),
    // The same grid with a corner.
    (
        &[
            "encode",
            "--codec=2d-corner",
            "--width=3",
            "--block=5",
            "--symbol=1",
        ],
        &GRID_OBJECT,
        Done,
        &CORNER_FILE,
        "blocks 1\npackets 11\n",
    ),
    (
        &["decode"],
        &CORNER_FILE,
        Done,
        &GRID_OBJECT,
        "block 0 peeled\npackets 11\n",
    ),
    // An object without a byte has no block.
    (&["encode"], &[], Done, &EMPTY_FILE, "blocks 0\npackets 0\n"),
    (
        &["encode", "--draws=0"],
        &[],
        Done,
        &EMPTY_FILE,
        "blocks 0\npackets 0\n",
    ),
    (&["decode"], &EMPTY_FILE, Done, &[], "packets 0\n"),
    (
        &GRID,
        &[],
        Done,
        b"OFPK\x01\xc8\0\0\0\0\0\0\0\0\0\x01\x01\0\0\x50\0\x0a\0\0\0\x03",
        "blocks 0\npackets 0\n",
    ),
    // A header alone, of an object of ten bytes in one symbol.
    (
        &["decode"],
        b"OFPK\x01\x03\0\0\0\0\0\0\0\x0a\x04\0\x01\0\x3e\x80\x05\xdc\0\0\0\x01",
        Undetermined,
        &[],
        "block 0 undetermined 0\npackets 0\n",
    ),
    // Three bytes in symbols of two in a grid of width 2: of its codeword 01 02 | 04 00 the sum of
    // the row came, and the first source symbol.
    (
        &["decode"],
        b"OFPK\x01\xc8\0\0\0\0\0\0\0\x03\0\x02\x01\0\0\x20\0\x05\0\0\0\x02\
            \0\0\0\x02\x05\x02\0\0\0\0\x01\x02",
        Done,
        &OBJECT,
        "block 0 peeled\npackets 2\n",
    ),
    // As many packets as may be read, and one more. A single byte behind the limit is told as one
    // packet too many, and not as a short one.
    (
        &["decode", "--packets=7"],
        &STAIRCASE_FILE,
        Done,
        &OBJECT,
        PEELED,
    ),
    (
        &["decode", "--packets=6"],
        &STAIRCASE_FILE,
        Limit,
        &[],
        "fault: limit packets\n",
    ),
    (
        &["decode", "--packets=0"],
        b"OFPK\x01\x03\0\0\0\0\0\0\0\x03\0\x01\x01\0\0\x30\0\x07\0\0\0\x01\0",
        Limit,
        &[],
        "fault: limit packets\n",
    ),
];

#[test]
fn runs_end_with_their_output_and_report(rt: HostRuntime) -> Result<(), Fail> {
    for (words, input, status, output, report) in &CASES {
        check(&rt, rt.alloc(), words, input, *status, output, report)?;
    }
    Ok(())
}
