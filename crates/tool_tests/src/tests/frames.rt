// Datagrams in frames, and back.
ghost use Rattle.std.specs.Prelude.{◌≤◌};

use super::sweeps::{check_failing_input, check_outputs, check_reports};
use super::{Outside, ample, check, run_in};
use fec_base::{CleanSource, MemSink, NullSink};
use std::alloc::Global;
use std::process::Abort;
use std::test::Fail;
use tool_base::Status::{Done, Limit, Malformed};
use tool_reach::frame;

const FRAME: [&str; 2] = ["frame", "--symbol=6"];

const UNFRAME: [&str; 2] = ["unframe", "--symbol=6"];

// Two datagrams: aa bb of flow 7, and one without bytes of flow 1.
const STREAM: [u8; 8] = [7, 0, 2, 0xaa, 0xbb, 1, 0, 0];

// Their frames of six bytes.
const FRAMES: [u8; 12] = [7, 0, 2, 0xaa, 0xbb, 0, 1, 0, 0, 0, 0, 0];

const COUNT: &str = "datagrams 2\n";

#[test]
fn datagrams_are_framed_and_come_back(rt: HostRuntime) -> Result<(), Fail> {
    let alloc = rt.alloc();
    check(&rt, alloc, &FRAME, &STREAM, Done, &FRAMES, COUNT)?;
    check(&rt, alloc, &UNFRAME, &FRAMES, Done, &STREAM, COUNT)?;
    check(&rt, alloc, &FRAME, &[], Done, &[], "datagrams 0\n")?;
    check(&rt, alloc, &UNFRAME, &[], Done, &[], "datagrams 0\n")?;
    Ok(())
}

#[test]
fn faulty_symbols_are_no_frames(rt: HostRuntime) -> Result<(), Fail> {
    let alloc = rt.alloc();
    let cases: [(&[u8], &[u8], &str); 4] = [
        (&[7, 0, 4, 0xaa, 0xbb, 0], &[], "fault: symbol 0 length 4\n"),
        (&[7, 0, 1, 0xaa, 0xbb, 0], &[], "fault: symbol 0 padding\n"),
        (&[7, 0, 1], &[], "fault: symbol 0 short 3\n"),
        (
            &[7, 0, 2, 0xaa, 0xbb, 0, 1, 1, 0, 0, 0, 0],
            &[7, 0, 2, 0xaa, 0xbb],
            "fault: symbol 1 length 256\n",
        ),
    ];
    for (symbols, stream, report) in cases {
        check(&rt, alloc, &UNFRAME, symbols, Malformed, stream, report)?;
    }
    Ok(())
}

#[test]
fn faulty_datagrams_are_not_framed(rt: HostRuntime) -> Result<(), Fail> {
    let alloc = rt.alloc();
    let words = ["frame", "--symbol=4"];
    let cases: [(&[u8], &[u8], &str); 4] = [
        (&[7, 0, 2, 0xaa, 0xbb], &[], "fault: datagram 0 long 2\n"),
        (&[7, 1, 0], &[], "fault: datagram 0 long 256\n"),
        (&[7, 0], &[], "fault: datagram 0 short 2\n"),
        (
            &[7, 0, 1, 0xaa, 1, 0, 1],
            &[7, 0, 1, 0xaa],
            "fault: datagram 1 short 3\n",
        ),
    ];
    for (stream, frames, report) in cases {
        check(&rt, alloc, &words, stream, Malformed, frames, report)?;
    }
    Ok(())
}

// The input of a command of two items is cut within the first of them, and within the second.
fn check_cut(
    rt: &impl Abort,
    alloc: Global,
    words: &[&str],
    input: &[u8],
    first: usize,
    what: &str,
    output: &[u8],
) -> Result<(), Fail> {
    for end in 1..input.len() {
        let (index, start) = if end < first { (0u8, 0) } else { (1u8, first) };
        let have = end.saturating_sub(start);
        if have == 0 {
            continue;
        }
        let written: &[u8] = if end < first { &[] } else { output };
        let report = format!(in alloc; "fault: {what} {index} short {have}\n")?;
        check(rt, alloc, words, &input[..end], Malformed, written, &report)?;
    }
    Ok(())
}

#[test]
fn datagrams_cut_at_each_byte_are_short(rt: HostRuntime) -> Result<(), Fail> {
    let alloc = rt.alloc();
    check_cut(&rt, alloc, &FRAME, &STREAM, 5, "datagram", &FRAMES[..6])?;
    check_cut(&rt, alloc, &UNFRAME, &FRAMES, 6, "symbol", &STREAM[..5])?;
    Ok(())
}

// The output has room for so many bytes: so many of the input are left.
fn check_unread(
    rt: &impl Abort,
    alloc: Global,
    words: &[&str],
    input: &[u8],
    room: usize,
    unread: usize,
    chunk: usize,
) -> Result<(), Fail>
    requires { 1 ≤ chunk }
{
    let outside = Outside {
        output: room,
        ..ample(chunk)
    };
    let left = run_in(alloc, words, input, outside)?;
    assert!(rt; left.unread == unread);
    Ok(())
}

// The output fails within the first item or within the second: nothing behind it was taken.
fn check_all_unread(rt: &impl Abort, alloc: Global, chunk: usize) -> Result<(), Fail>
    requires { 1 ≤ chunk }
{
    for room in 0..12usize {
        let unread = if room < 6 { 3 } else { 0 };
        check_unread(rt, alloc, &FRAME, &STREAM, room, unread, chunk)?;
    }
    for room in 0..8usize {
        let unread = if room < 5 { 6 } else { 0 };
        check_unread(rt, alloc, &UNFRAME, &FRAMES, room, unread, chunk)?;
    }
    Ok(())
}

// The input fails at each byte, and at its end: what goes for the datagrams before was written.
fn check_failing_inputs(rt: &impl Abort, alloc: Global, chunk: usize) -> Result<(), Fail>
    requires { 1 ≤ chunk }
{
    for stop in 0..9usize {
        let written = if stop < 5 {
            0
        } else if stop < 8 {
            6
        } else {
            12
        };
        check_failing_input(rt, alloc, &FRAME, &STREAM, stop, chunk, &FRAMES[..written])?;
    }
    for stop in 0..13usize {
        let written = if stop < 6 {
            0
        } else if stop < 12 {
            5
        } else {
            8
        };
        check_failing_input(
            rt,
            alloc,
            &UNFRAME,
            &FRAMES,
            stop,
            chunk,
            &STREAM[..written],
        )?;
    }
    Ok(())
}

#[test]
fn a_frame_or_an_unframe_that_fails_at_each_byte(rt: HostRuntime) -> Result<(), Fail> {
    let alloc = rt.alloc();
    for chunk in [1usize, 7] {
        assert!(rt; 1 <= chunk);
        check_outputs(&rt, alloc, &FRAME, &STREAM, &FRAMES, chunk)?;
        check_outputs(&rt, alloc, &UNFRAME, &FRAMES, &STREAM, chunk)?;
        check_all_unread(&rt, alloc, chunk)?;
        check_failing_inputs(&rt, alloc, chunk)?;
        check_reports(&rt, alloc, &FRAME, &STREAM, &FRAMES, COUNT, chunk)?;
        check_reports(&rt, alloc, &UNFRAME, &FRAMES, &STREAM, COUNT, chunk)?;
    }
    Ok(())
}

#[test]
fn frames_are_no_more_than_an_object(rt: HostRuntime) -> Result<(), Fail> {
    let alloc = rt.alloc();
    // 4,096 frames of 65,535 bytes are within the limit, and one more isn't.
    let stream = vec![in alloc; 0u8; 3 * 4097]?;
    let mut input = CleanSource::new(alloc, &stream)?;
    let mut report = MemSink::new(alloc, 30, 30)?;
    let status = frame(alloc, 65_535, &mut input, &mut NullSink, &mut report);
    assert!(rt; status == Limit);
    assert!(rt; report.bytes() == b"fault: limit length\n".as_slice());
    Ok(())
}
