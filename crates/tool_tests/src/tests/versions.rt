// Packet files of both versions.
ghost use Rattle.std.specs.Prelude.{◌+◌, ◌≤◌};

use super::sweeps::{check_failing_input, check_outputs, check_reports};
use super::{Left, ample, check, check_left, run_in, run_over};
use std::alloc::Global;
use std::process::Abort;
use std::test::Fail;
use tool_base::Status;

const TWO_BYTES: [&str; 5] = [
    "encode",
    "--codec=2d",
    "--width=2",
    "--block=3",
    "--symbol=2",
];

const SECOND: [&str; 6] = [
    "encode",
    "--codec=2d",
    "--width=2",
    "--block=3",
    "--symbol=2",
    "--format=2",
];

const OBJECT: [u8; 5] = [1, 2, 4, 8, 16];

// The file of 01 02 04 08 10 in a grid of width 2, in version 1.
const WHOLE: [u8; 68] = *b"OFPK\x01\xc8\0\0\0\0\0\0\0\x05\0\x02\x01\0\0\x30\0\x07\0\0\0\x02\
    \0\0\0\0\x01\x02\0\0\0\x01\x04\x08\0\0\0\x02\x10\0\0\0\0\x03\x05\x0a\
    \0\0\0\x04\x10\0\0\0\0\x05\x11\x02\0\0\0\x06\x04\x08";

// The same in version 2.
const MEASURED: [u8; 81] = *b"OFPK\x02\xc8\0\0\0\0\0\0\0\x05\0\x02\x01\0\0\x30\0\x07\0\0\0\x02\
    \0\0\0\0\0\x02\x01\x02\0\0\0\x01\0\x02\x04\x08\0\0\0\x02\0\x01\x10\
    \0\0\0\x03\0\x02\x05\x0a\0\0\0\x04\0\x02\x10\0\0\0\0\x05\0\x02\x11\x02\
    \0\0\0\x06\0\x02\x04\x08";

#[test]
fn files_of_both_versions_are_encoded(rt: HostRuntime) -> Result<(), Fail> {
    let alloc = rt.alloc();
    let report = "blocks 1\npackets 7\n";
    check(
        &rt,
        alloc,
        &TWO_BYTES,
        &OBJECT,
        Status::Done,
        &WHOLE,
        report,
    )?;
    check(
        &rt,
        alloc,
        &SECOND,
        &OBJECT,
        Status::Done,
        &MEASURED,
        report,
    )?;
    Ok(())
}

// This is told as symbol number `i`.
fn check_place(rt: &impl Abort, left: &Left, i: u32, esi: u32, bytes: &[u8]) {
    match left.watch.told_place(i) {
        Some(place) => assert!(rt; place.esi == esi),
        None => assert!(rt; false),
    }
    assert!(rt; left.watch.told_bytes(i) == bytes);
}

#[test]
fn files_of_both_versions_are_decoded_alike(rt: HostRuntime) -> Result<(), Fail> {
    let alloc = rt.alloc();
    let files: [&[u8]; 2] = [&WHOLE, &MEASURED];
    for file in files {
        let left = run_over(alloc, &["decode"], file)?;
        let report = b"block 0 peeled\npackets 7\n";
        check_left(&rt, &left, Status::Done, &OBJECT, report);
        assert!(&rt; left.watch.told_count() == 4);
        check_place(&rt, &left, 0, 3, &[5, 10]);
        check_place(&rt, &left, 1, 6, &[4, 8]);
        check_place(&rt, &left, 2, 4, &[16, 0]);
        check_place(&rt, &left, 3, 5, &[17, 2]);
    }
    Ok(())
}

#[test]
fn files_of_both_versions_are_upgraded(rt: HostRuntime) -> Result<(), Fail> {
    let alloc = rt.alloc();
    let files: [&[u8]; 2] = [&WHOLE, &MEASURED];
    for file in files {
        check(
            &rt,
            alloc,
            &["upgrade"],
            file,
            Status::Done,
            &MEASURED,
            "packets 7\n",
        )?;
    }
    Ok(())
}

// A run of the word over a header and these bytes ends so, with some of the input left.
fn check_behind(
    rt: &impl Abort,
    alloc: Global,
    word: &str,
    header: &[u8],
    bytes: &[u8],
    output: &[u8],
    report: &str,
) -> Result<usize, Fail> {
    let mut file = Vec::from_slice(alloc, header)?;
    file.extend_from_slice(bytes)?;
    let left = run_over(alloc, &[word], &file)?;
    check_left(rt, &left, Status::Malformed, output, report.as_bytes());
    Ok(left.unread)
}

#[test]
fn a_wrong_length_is_refused(rt: HostRuntime) -> Result<(), Fail> {
    let alloc = rt.alloc();
    let header = &MEASURED[..26];
    let long = [0u8, 0, 0, 2, 0, 2, 16, 0];
    let text = "fault: packet 0 length 2\n";
    let unread = check_behind(&rt, alloc, "decode", header, &long, &[], text)?;
    assert!(&rt; unread == 2);
    let short = [0u8, 0, 0, 0, 0, 2, 1];
    let text = "fault: packet 0 short 7\n";
    let unread = check_behind(&rt, alloc, "decode", header, &short, &[], text)?;
    assert!(&rt; unread == 0);
    Ok(())
}

#[test]
fn padding_that_is_not_zero_is_not_upgraded(rt: HostRuntime) -> Result<(), Fail> {
    let alloc = rt.alloc();
    let header = &WHOLE[..26];
    let packet = [0u8, 0, 0, 2, 16, 1];
    let text = "fault: packet 0 padding\n";
    check_behind(
        &rt,
        alloc,
        "upgrade",
        header,
        &packet,
        &MEASURED[..26],
        text,
    )?;
    let mut file = Vec::from_slice(alloc, header)?;
    file.extend_from_slice(&packet)?;
    let left = run_over(alloc, &["decode"], &file)?;
    assert!(&rt; left.status == Status::Undetermined);
    Ok(())
}

#[test]
fn files_of_version_2_are_passed(rt: HostRuntime) -> Result<(), Fail> {
    let alloc = rt.alloc();
    let words = ["lose", "--loss=first:6"];
    let mut file = Vec::from_slice(alloc, &MEASURED[..26])?;
    file.extend_from_slice(&MEASURED[73..])?;
    check(
        &rt,
        alloc,
        &words,
        &MEASURED,
        Status::Done,
        &file,
        "read 7 kept 1\n",
    )?;
    let lines = "codec 2d width 2 length 5 symbol 2 block 3 max 7 blocks 1\n\
        packet 0 block 0 symbol 0 bytes 0102\n\
        packet 1 block 0 symbol 1 bytes 0408\n\
        packet 2 block 0 symbol 2 bytes 10\n";
    check(
        &rt,
        alloc,
        &["show"],
        &MEASURED[..49],
        Status::Done,
        lines.as_bytes(),
        "",
    )?;
    Ok(())
}

// Where each packet of the file of version 2 begins, and how many bytes it has.
const PACKETS: [(usize, usize); 7] = [
    (26, 8),
    (34, 8),
    (42, 7),
    (49, 8),
    (57, 8),
    (65, 8),
    (73, 8),
];

// What `show` writes of it, a line each.
const LINES: [&str; 8] = [
    "codec 2d width 2 length 5 symbol 2 block 3 max 7 blocks 1\n",
    "packet 0 block 0 symbol 0 bytes 0102\n",
    "packet 1 block 0 symbol 1 bytes 0408\n",
    "packet 2 block 0 symbol 2 bytes 10\n",
    "packet 3 block 0 symbol 3 bytes 050a\n",
    "packet 4 block 0 symbol 4 bytes 1000\n",
    "packet 5 block 0 symbol 5 bytes 1102\n",
    "packet 6 block 0 symbol 6 bytes 0408\n",
];

// The lines of the header and of the first packets.
fn shown(alloc: Global, packets: usize) -> Result<Vec<u8>, Fail> {
    let mut text = Vec::new(alloc);
    for line in LINES.iter().take(packets.min(7) + 1) {
        text.extend_from_slice(line.as_bytes())?;
    }
    Ok(text)
}

// The file ends so many bytes behind the start of a packet, or the input fails there: the packets
// before were passed on.
fn check_within(
    rt: &impl Abort,
    alloc: Global,
    chunk: usize,
    packet: usize,
    start: usize,
    have: usize,
) -> Result<(), Fail>
    requires chunk { 1 ≤ chunk }
    requires inside { start + have ≤ 81 }
{
    let report = format!(in alloc; "fault: packet {packet} short {have}\n")?;
    let (cut, before) = (&MEASURED[..start + have], &MEASURED[..start]);
    for word in ["lose", "upgrade"] {
        let left = run_in(alloc, &[word], cut, ample(chunk))?;
        check_left(rt, &left, Status::Malformed, before, report.as_bytes());
        check_failing_input(rt, alloc, &[word], &MEASURED, start + have, chunk, before)?;
    }
    let lines = shown(alloc, packet)?;
    let left = run_in(alloc, &["show"], cut, ample(chunk))?;
    check_left(rt, &left, Status::Malformed, &lines, report.as_bytes());
    check_failing_input(rt, alloc, &["show"], &MEASURED, start + have, chunk, &lines)?;
    let left = run_in(alloc, &["decode"], cut, ample(chunk))?;
    check_left(rt, &left, Status::Malformed, &[], report.as_bytes());
    check_failing_input(rt, alloc, &["decode"], &MEASURED, start + have, chunk, &[])
}

#[test]
fn files_of_version_2_cut_at_each_byte_or_failing_there(rt: HostRuntime) -> Result<(), Fail> {
    for chunk in [1usize, 7] {
        assert!(rt; 1 <= chunk);
        for (packet, (start, len)) in PACKETS.iter().enumerate() {
            assert!(rt; *start <= 73 && *len <= 8);
            for have in 1..*len {
                check_within(&rt, rt.alloc(), chunk, packet, *start, have)?;
            }
        }
    }
    Ok(())
}

#[test]
fn outputs_and_reports_over_version_2_that_fail_at_each_byte(rt: HostRuntime) -> Result<(), Fail> {
    let alloc = rt.alloc();
    let (decode, lose) = (["decode"], ["lose"]);
    let (peeled, kept) = ("block 0 peeled\npackets 7\n", "read 7 kept 7\n");
    let lines = shown(alloc, 7)?;
    for chunk in [1usize, 7] {
        assert!(rt; 1 <= chunk);
        check_outputs(&rt, alloc, &decode, &MEASURED, &OBJECT, chunk)?;
        check_reports(&rt, alloc, &decode, &MEASURED, &OBJECT, peeled, chunk)?;
        check_outputs(&rt, alloc, &lose, &MEASURED, &MEASURED, chunk)?;
        check_reports(&rt, alloc, &lose, &MEASURED, &MEASURED, kept, chunk)?;
        check_outputs(&rt, alloc, &["show"], &MEASURED, &lines, chunk)?;
    }
    Ok(())
}

#[test]
fn an_upgrade_that_fails_at_each_byte(rt: HostRuntime) -> Result<(), Fail> {
    let (alloc, words) = (rt.alloc(), ["upgrade"]);
    for chunk in [1usize, 7] {
        assert!(rt; 1 <= chunk);
        for stop in 0..26usize {
            check_failing_input(&rt, alloc, &words, &WHOLE, stop, chunk, &[])?;
        }
        check_outputs(&rt, alloc, &words, &WHOLE, &MEASURED, chunk)?;
        check_reports(&rt, alloc, &words, &WHOLE, &MEASURED, "packets 7\n", chunk)?;
        check_outputs(&rt, alloc, &SECOND, &OBJECT, &MEASURED, chunk)?;
    }
    Ok(())
}
