// What a decode tells, packet by packet, how its blocks come out, and where it stops.
use super::{
    CORNER_FILE, GRID_FILE, Outside, REBUILT, STAIRCASE_FILE, ample, check, check_left, check_told,
    run_in, run_over, with_packets,
};
use fec_base::Place;
use std::alloc::Global;
use std::process::Abort;
use std::test::Fail;
use tool_base::Status;

#[test]
fn packets_tell_what_they_make_known(rt: HostRuntime) -> Result<(), Fail> {
    let left = run_over(rt.alloc(), &["decode"], &STAIRCASE_FILE)?;
    let peeled = "block 0 peeled\npackets 7\n";
    check_left(&rt, &left, Status::Done, &[1, 2, 4], peeled.as_bytes());
    check_told(&rt, &left, &[(3, 5), (4, 3), (5, 4), (6, 7)]);
    Ok(())
}

// Packets, each an ESI and its symbol; how the decode of them ends, its report and its output; and
// what it tells.
type Case = (
    &'static [(u8, u8)],
    Status,
    &'static str,
    &'static [u8],
    &'static [(u32, u8)],
);

const CASES: [Case; 7] = [
    // Elimination alone gives the source, and tells nothing.
    (
        &[(3, 5), (4, 3), (5, 4), (6, 7)],
        Status::Done,
        "block 0 solved\npackets 4\n",
        &[1, 2, 4],
        &[],
    ),
    // Elimination alone sees the contradiction.
    (
        &[(3, 5), (4, 3), (5, 4), (6, 6)],
        Status::NoCodeword,
        "block 0 contradicted\npackets 4\n",
        &[],
        &[],
    ),
    // A symbol that was rebuilt comes with another byte.
    (
        &[(3, 5), (4, 3), (0, 1), (1, 3)],
        Status::NoCodeword,
        "block 0 contradicted\npackets 4\n",
        &[],
        &REBUILT,
    ),
    (
        &[],
        Status::Undetermined,
        "block 0 undetermined 0 1 3\npackets 0\n",
        &[],
        &[],
    ),
    (
        &[(3, 5)],
        Status::Undetermined,
        "block 0 undetermined 0 2 4 5\npackets 1\n",
        &[],
        &[],
    ),
    (
        &[(3, 5), (4, 3)],
        Status::Undetermined,
        "block 0 undetermined 0 1 2 5 6\npackets 2\n",
        &[],
        &[],
    ),
    // Each packet three times, the last one first.
    (
        &[
            (6, 7),
            (6, 7),
            (6, 7),
            (5, 4),
            (5, 4),
            (5, 4),
            (4, 3),
            (4, 3),
            (4, 3),
            (3, 5),
            (3, 5),
            (3, 5),
            (2, 4),
            (2, 4),
            (2, 4),
            (1, 2),
            (1, 2),
            (1, 2),
            (0, 1),
            (0, 1),
            (0, 1),
        ],
        Status::Done,
        "block 0 peeled\npackets 21\n",
        &[1, 2, 4],
        &[(0, 1), (1, 2)],
    ),
];

#[test]
fn packets_tell_what_peeling_gives_and_decide_the_block(rt: HostRuntime) -> Result<(), Fail> {
    for (packets, status, report, output, told) in &CASES {
        let file = with_packets(rt.alloc(), &STAIRCASE_FILE[..26], packets)?;
        let left = run_over(rt.alloc(), &["decode"], &file)?;
        check_left(&rt, &left, *status, output, report.as_bytes());
        check_told(&rt, &left, told);
    }
    Ok(())
}

// The same of a grid with the source 01 02 04 08 10, without what is told.
const GRID_CASES: [(&[(u8, u8)], Status, &str); 7] = [
    // Rebuilt from the repair symbols, with a repeat at the end.
    (
        &[(9, 4), (7, 9), (4, 16), (5, 7), (0, 1), (0, 1)],
        Status::Done,
        "block 0 peeled\npackets 6\n",
    ),
    // Without the packets 0, 5 and 7: the first row of the grid and its first column.
    (
        &[
            (1, 2),
            (2, 4),
            (3, 8),
            (4, 16),
            (6, 0x18),
            (8, 0x12),
            (9, 4),
        ],
        Status::Undetermined,
        "block 0 undetermined 0 5 7\npackets 7\n",
    ),
    (
        &[(2, 4), (5, 7), (6, 0x18), (7, 9), (8, 0x12), (9, 4)],
        Status::Undetermined,
        "block 0 undetermined 0 1 3 4\npackets 6\n",
    ),
    (
        &[],
        Status::Undetermined,
        "block 0 undetermined 0 1 3 4\npackets 0\n",
    ),
    (
        &[(2, 4), (9, 5)],
        Status::NoCodeword,
        "block 0 contradicted\npackets 2\n",
    ),
    (
        &[(9, 5), (2, 4)],
        Status::NoCodeword,
        "block 0 contradicted\npackets 2\n",
    ),
    (
        &[(2, 4), (2, 5)],
        Status::NoCodeword,
        "block 0 contradicted\npackets 2\n",
    ),
];

#[test]
fn packets_decide_how_a_grid_comes_out(rt: HostRuntime) -> Result<(), Fail> {
    for (packets, status, report) in &GRID_CASES {
        let file = with_packets(rt.alloc(), &GRID_FILE[..26], packets)?;
        let left = run_over(rt.alloc(), &["decode"], &file)?;
        let object: &[u8] = &[1, 2, 4, 8, 16];
        let output = if *status == Status::Done { object } else { &[] };
        check_left(&rt, &left, *status, output, report.as_bytes());
    }
    Ok(())
}

// Packets of the grid with a corner. Its first row lacks a symbol until the corner comes.
const CORNER_PACKETS: [(u8, u8); 8] = [
    (1, 2),
    (2, 4),
    (3, 8),
    (4, 16),
    (6, 0x18),
    (8, 0x12),
    (9, 4),
    (10, 0x1f),
];

const CORNER_TOLD: [(u32, u8); 6] = [(9, 4), (6, 0x18), (8, 0x12), (0, 1), (5, 7), (7, 9)];

#[test]
fn a_corner_rebuilds_what_its_grid_leaves_open(rt: HostRuntime) -> Result<(), Fail> {
    let header = &CORNER_FILE[..26];
    let file = with_packets(rt.alloc(), header, &CORNER_PACKETS)?;
    let left = run_over(rt.alloc(), &["decode"], &file)?;
    let peeled = "block 0 peeled\npackets 8\n";
    check_left(
        &rt,
        &left,
        Status::Done,
        &[1, 2, 4, 8, 16],
        peeled.as_bytes(),
    );
    check_told(&rt, &left, &CORNER_TOLD);
    // How many packets came before a byte that is none, and how many symbols they made known.
    for (came, known) in [(1, 0), (2, 1), (3, 1), (4, 3), (7, 3)] {
        let mut file = with_packets(rt.alloc(), header, &CORNER_PACKETS[..came])?;
        file.push(0)?;
        let left = run_over(rt.alloc(), &["decode"], &file)?;
        assert!(rt; left.status == Status::Malformed);
        check_told(&rt, &left, &CORNER_TOLD[..known]);
    }
    Ok(())
}

#[test]
fn a_packet_too_many_ends_a_decode_that_has_told(rt: HostRuntime) -> Result<(), Fail> {
    let left = run_over(rt.alloc(), &["decode", "--packets=6"], &STAIRCASE_FILE)?;
    check_left(&rt, &left, Status::Limit, &[], b"fault: limit packets\n");
    check_told(&rt, &left, &[(3, 5), (4, 3), (5, 4), (6, 7)]);
    Ok(())
}

#[test]
fn what_a_damaged_file_made_known_is_told(rt: HostRuntime) -> Result<(), Fail> {
    let mut file = with_packets(rt.alloc(), &STAIRCASE_FILE[..26], &[(3, 5), (0, 1)])?;
    file.extend_from_slice(&[0, 0])?;
    let left = run_over(rt.alloc(), &["decode"], &file)?;
    let short = "fault: packet 2 short 2\n";
    check_left(&rt, &left, Status::Malformed, &[], short.as_bytes());
    check_told(&rt, &left, &[(2, 4)]);
    Ok(())
}

#[test]
fn an_early_decode_leaves_the_rest_unread(rt: HostRuntime) -> Result<(), Fail> {
    let mut file = with_packets(rt.alloc(), &STAIRCASE_FILE[..26], &[(3, 5), (4, 3), (0, 1)])?;
    for _ in 0..10 {
        file.extend_from_slice(&[0, 0, 0, 1, 2])?;
    }
    let left = run_over(rt.alloc(), &["decode", "--early=yes"], &file)?;
    let peeled = "block 0 peeled\npackets 3\n";
    check_left(&rt, &left, Status::Done, &[1, 2, 4], peeled.as_bytes());
    check_told(&rt, &left, &REBUILT);
    assert!(rt; left.unread == 50);
    Ok(())
}

#[test]
fn a_watch_that_fails_ends_the_decode_at_its_packet(rt: HostRuntime) -> Result<(), Fail> {
    let packets = [(3, 5), (4, 3), (0, 1), (1, 2)];
    let file = with_packets(rt.alloc(), &STAIRCASE_FILE[..26], &packets)?;
    let outside = Outside {
        places: 2,
        ..ample(70)
    };
    let left = run_in(rt.alloc(), &["decode"], &file, outside)?;
    check_left(&rt, &left, Status::WatchFault, &[], b"fault: watch\n");
    check_told(&rt, &left, &REBUILT[..2]);
    assert!(rt; left.unread == 5);
    Ok(())
}

// The bytes 0, 1, 2 .. modulo 251, ten thousand of them.
fn object(alloc: Global) -> Result<Vec<u8>, Fail> {
    let mut object = Vec::with_capacity(alloc, 10_000)?;
    for i in 0..10_000u32 {
        object.push((i % 251) as u8)?;
    }
    Ok(object)
}

// The packet file of the object without the packet that is lost, which has ten source symbols and
// five repair symbols.
fn without_a_packet(rt: &impl Abort, alloc: Global, object: &[u8]) -> Result<Vec<u8>, Fail> {
    let file = run_over(alloc, &["encode"], object)?;
    assert!(rt; file.report.bytes() == b"blocks 1\npackets 15\n".as_slice());
    assert!(rt; file.output.bytes().len() == 15_446);
    let lose = ["lose", "--loss=even:200", "--seed=7"];
    let lost = run_over(alloc, &lose, file.output.bytes())?;
    assert!(rt; lost.report.bytes() == b"read 15 kept 14\n".as_slice());
    assert!(rt; lost.output.bytes().len() == 14_418);
    Ok(Vec::from_slice(alloc, lost.output.bytes())?)
}

#[test]
fn a_lost_packet_is_rebuilt(rt: HostRuntime) -> Result<(), Fail> {
    let object = object(rt.alloc())?;
    let file = without_a_packet(&rt, rt.alloc(), &object)?;
    let left = run_over(rt.alloc(), &["decode"], &file)?;
    let peeled = "block 0 peeled\npackets 14\n";
    check_left(&rt, &left, Status::Done, &object, peeled.as_bytes());
    assert!(rt; left.watch.told_count() == 5);
    for (i, esi) in [0, 11, 12, 13, 14].iter().enumerate() {
        let place = Place {
            block: 0,
            esi: *esi,
        };
        assert!(rt; left.watch.told_place(i as u32) == Some(place));
    }
    // The first ten packets suffice: after the tenth, symbol 10, all source is known.
    let early = "block 0 peeled\npackets 10\n";
    let words = ["decode", "--early=yes"];
    check(&rt, rt.alloc(), &words, &file, Status::Done, &object, early)
}
