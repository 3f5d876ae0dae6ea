// Runs whose input is cut at each byte, and whose input, watch, output or report fails there, in
// pieces of one byte and of seven.
ghost use Rattle.std.specs.Prelude.{◌≤◌};

use super::{
    Outside, STAIRCASE_FILE, THREE_OF_SEVEN, ample, check_left, check_told, run_in, with_packets,
};
use std::alloc::Global;
use std::process::Abort;
use std::test::Fail;
use tool_base::Status;

const OBJECT: [u8; 3] = [1, 2, 4];

// What the third packet of the file makes known.
const TOLD: [(u32, u8); 4] = [(3, 5), (4, 3), (5, 4), (6, 7)];

// A decode of these bytes ends so, and tells the first so many of these symbols. It leaves so many
// bytes of its input.
fn check_decode(
    rt: &impl Abort,
    alloc: Global,
    bytes: &[u8],
    outside: Outside,
    status: Status,
    report: &[u8],
    told: usize,
) -> Result<usize, Fail>
    requires chunk { 1 ≤ outside.chunk }
    requires told { told ≤ 4 }
{
    let left = run_in(alloc, &["decode"], bytes, outside)?;
    let output: &[u8] = if status == Status::Done { &OBJECT } else { &[] };
    check_left(rt, &left, status, output, report);
    check_told(rt, &left, &TOLD[..told]);
    Ok(left.unread)
}

// The file ends within its header, or within a packet.
fn check_short_ends(rt: &impl Abort, alloc: Global, chunk: usize) -> Result<(), Fail>
    requires { 1 ≤ chunk }
{
    for have in 0..26usize {
        let report = format!(in alloc; "fault: header short {have}\n")?;
        let bytes = &STAIRCASE_FILE[..have];
        let short = Status::Malformed;
        check_decode(rt, alloc, bytes, ample(chunk), short, report.as_bytes(), 0)?;
    }
    for packets in 0..7usize {
        for have in 1..5usize {
            check_short_packet(rt, alloc, chunk, packets, have)?;
        }
    }
    Ok(())
}

// The file ends behind so many packets and so many bytes of the next one.
fn check_short_packet(
    rt: &impl Abort,
    alloc: Global,
    chunk: usize,
    packets: usize,
    have: usize,
) -> Result<(), Fail>
    requires chunk { 1 ≤ chunk }
    requires packets { packets ≤ 6 }
    requires have { have ≤ 4 }
{
    let report = format!(in alloc; "fault: packet {packets} short {have}\n")?;
    let bytes = &STAIRCASE_FILE[..26 + 5 * packets + have];
    let told = if packets < 3 { 0 } else { 4 };
    let short = Status::Malformed;
    check_decode(
        rt,
        alloc,
        bytes,
        ample(chunk),
        short,
        report.as_bytes(),
        told,
    )?;
    Ok(())
}

// The file ends behind its header or a packet.
fn check_whole_packets(rt: &impl Abort, alloc: Global, chunk: usize) -> Result<(), Fail>
    requires { 1 ≤ chunk }
{
    let left_open = [
        "block 0 undetermined 0 1 3\npackets 0\n",
        "block 0 undetermined 1 2 3 4 5\npackets 1\n",
        "block 0 undetermined 2 3 5 6\npackets 2\n",
    ];
    for (packets, report) in left_open.iter().enumerate() {
        let bytes = &STAIRCASE_FILE[..26 + 5 * packets];
        let open = Status::Undetermined;
        check_decode(rt, alloc, bytes, ample(chunk), open, report.as_bytes(), 0)?;
    }
    for packets in 3..8usize {
        let bytes = &STAIRCASE_FILE[..26 + 5 * packets];
        let report = format!(in alloc; "block 0 peeled\npackets {packets}\n")?;
        let done = Status::Done;
        check_decode(rt, alloc, bytes, ample(chunk), done, report.as_bytes(), 4)?;
    }
    Ok(())
}

// The input fails at each byte, and the watch at each symbol that it is told.
fn check_failing_inputs(rt: &impl Abort, alloc: Global, chunk: usize) -> Result<(), Fail>
    requires { 1 ≤ chunk }
{
    for stop in 0..62usize {
        let outside = Outside {
            stop: Some(stop),
            ..ample(chunk)
        };
        let told = if stop < 41 { 0 } else { 4 };
        let (fault, report) = (Status::ReadFault, b"fault: read\n");
        check_decode(rt, alloc, &STAIRCASE_FILE, outside, fault, report, told)?;
    }
    for places in 0..4u32 {
        let outside = Outside {
            places,
            ..ample(chunk)
        };
        let (fault, report) = (Status::WatchFault, b"fault: watch\n");
        let told = places as usize;
        let unread = check_decode(rt, alloc, &STAIRCASE_FILE, outside, fault, report, told)?;
        assert!(rt; unread == 20);
    }
    Ok(())
}

#[test]
fn a_decode_cut_at_each_byte_or_failing_there(rt: HostRuntime) -> Result<(), Fail> {
    let (decode, report) = (["decode"], "block 0 peeled\npackets 7\n");
    for chunk in [1usize, 7] {
        assert!(rt; 1 <= chunk);
        check_short_ends(&rt, rt.alloc(), chunk)?;
        check_whole_packets(&rt, rt.alloc(), chunk)?;
        check_failing_inputs(&rt, rt.alloc(), chunk)?;
        check_outputs(&rt, rt.alloc(), &decode, &STAIRCASE_FILE, &OBJECT, chunk)?;
        check_reports(
            &rt,
            rt.alloc(),
            &decode,
            &STAIRCASE_FILE,
            &OBJECT,
            report,
            chunk,
        )?;
    }
    Ok(())
}

#[test]
fn an_input_that_fails_within_the_third_packet_tells_nothing(rt: HostRuntime) -> Result<(), Fail> {
    let packets = [(3, 5), (4, 3), (0, 1)];
    let file = with_packets(rt.alloc(), &STAIRCASE_FILE[..26], &packets)?;
    for chunk in [1usize, 7] {
        assert!(rt; 1 <= chunk);
        let outside = Outside {
            stop: Some(36),
            ..ample(chunk)
        };
        let (fault, report) = (Status::ReadFault, b"fault: read\n");
        check_decode(&rt, rt.alloc(), &file, outside, fault, report, 0)?;
    }
    Ok(())
}

// An output that fails at any byte holds what stands before it.
pub fn check_outputs(
    rt: &impl Abort,
    alloc: Global,
    words: &[&str],
    input: &[u8],
    output: &[u8],
    chunk: usize,
) -> Result<(), Fail>
    requires { 1 ≤ chunk }
{
    for room in 0..output.len() {
        let outside = Outside {
            output: room,
            ..ample(chunk)
        };
        let left = run_in(alloc, words, input, outside)?;
        check_left(
            rt,
            &left,
            Status::WriteFault,
            &output[..room],
            b"fault: write\n",
        );
    }
    Ok(())
}

// A report that fails at any byte holds what stands before it, and the output is whole.
pub fn check_reports(
    rt: &impl Abort,
    alloc: Global,
    words: &[&str],
    input: &[u8],
    output: &[u8],
    report: &str,
    chunk: usize,
) -> Result<(), Fail>
    requires { 1 ≤ chunk }
{
    for room in 0..report.len() {
        let outside = Outside {
            report: room,
            ..ample(chunk)
        };
        let left = run_in(alloc, words, input, outside)?;
        check_left(
            rt,
            &left,
            Status::WriteFault,
            output,
            &report.as_bytes()[..room],
        );
    }
    Ok(())
}

const PERF: [&str; 5] = ["perf", "--k=3", "--n=7", "--symbol=1", "--order=sent"];

const RUN_LINES: &str = "code staircase k 3 n 7 entries 16 draws 12\n\
    run 1 kept 7 needed 3 peeled\nruns 1 peeled 1 solved 0 undetermined 0\n";

#[test]
fn an_encode_or_a_perf_that_fails_at_each_byte(rt: HostRuntime) -> Result<(), Fail> {
    let (alloc, file) = (rt.alloc(), &STAIRCASE_FILE);
    let report = "blocks 1\npackets 7\n";
    for chunk in [1usize, 7] {
        assert!(rt; 1 <= chunk);
        for stop in 0..4usize {
            check_failing_input(&rt, alloc, &THREE_OF_SEVEN, &OBJECT, stop, chunk, &[])?;
        }
        check_outputs(&rt, alloc, &THREE_OF_SEVEN, &OBJECT, file, chunk)?;
        check_reports(&rt, alloc, &THREE_OF_SEVEN, &OBJECT, file, report, chunk)?;
        check_outputs(&rt, alloc, &PERF, &[], RUN_LINES.as_bytes(), chunk)?;
    }
    Ok(())
}

#[test]
fn a_report_that_fails_changes_no_other_status(rt: HostRuntime) -> Result<(), Fail> {
    let outside = Outside {
        report: 7,
        ..ample(70)
    };
    let left = run_in(rt.alloc(), &["pack"], &[], outside)?;
    check_left(&rt, &left, Status::Usage, &[], b"fault: ");
    Ok(())
}

const LOSE: [&str; 2] = ["lose", "--loss=first:3"];

const SHOW: [&str; 1] = ["show"];

// What `show` writes of the file, a line each.
const LINES: [&str; 8] = [
    "codec staircase n1 3 seed 1 length 3 symbol 1 block 3 max 7 blocks 1\n",
    "packet 0 block 0 symbol 0 bytes 01\n",
    "packet 1 block 0 symbol 1 bytes 02\n",
    "packet 2 block 0 symbol 2 bytes 04\n",
    "packet 3 block 0 symbol 3 bytes 05\n",
    "packet 4 block 0 symbol 4 bytes 03\n",
    "packet 5 block 0 symbol 5 bytes 04\n",
    "packet 6 block 0 symbol 6 bytes 07\n",
];

// What `lose` keeps of the first packets: the header, and those behind the first three.
fn kept(alloc: Global, packets: usize) -> Result<Vec<u8>, Fail> {
    let mut file = Vec::from_slice(alloc, &STAIRCASE_FILE[..26])?;
    let end = 26 + 5 * packets.clamp(3, 7);
    file.extend_from_slice(&STAIRCASE_FILE[41..end])?;
    Ok(file)
}

// What `show` writes of the first packets.
fn shown(alloc: Global, packets: usize) -> Result<Vec<u8>, Fail> {
    let mut text = Vec::new(alloc);
    for line in LINES.iter().take(packets.min(7) + 1) {
        text.extend_from_slice(line.as_bytes())?;
    }
    Ok(text)
}

// The output fails within the header, or within a packet that is kept: nothing is read behind it.
fn check_unread(rt: &impl Abort, alloc: Global, chunk: usize) -> Result<(), Fail>
    requires { 1 ≤ chunk }
{
    for room in 0..46usize {
        let outside = Outside {
            output: room,
            ..ample(chunk)
        };
        let left = run_in(alloc, &LOSE, &STAIRCASE_FILE, outside)?;
        let unread = if room < 26 {
            35
        } else {
            15usize.saturating_sub((room - 26) / 5 * 5)
        };
        assert!(rt; left.unread == unread);
    }
    Ok(())
}

// The input fails behind so many bytes: the output has this text.
pub fn check_failing_input(
    rt: &impl Abort,
    alloc: Global,
    words: &[&str],
    input: &[u8],
    stop: usize,
    chunk: usize,
    text: &[u8],
) -> Result<(), Fail>
    requires { 1 ≤ chunk }
{
    let outside = Outside {
        stop: Some(stop),
        ..ample(chunk)
    };
    let left = run_in(alloc, words, input, outside)?;
    check_left(rt, &left, Status::ReadFault, text, b"fault: read\n");
    Ok(())
}

// The input of a pass fails at each byte, and at its end: the output has the text of the packets
// that came whole.
fn check_failing_passes(rt: &impl Abort, alloc: Global, chunk: usize) -> Result<(), Fail>
    requires { 1 ≤ chunk }
{
    let file = &STAIRCASE_FILE;
    for stop in 0..26usize {
        check_failing_input(rt, alloc, &LOSE, file, stop, chunk, &[])?;
        check_failing_input(rt, alloc, &SHOW, file, stop, chunk, &[])?;
    }
    for stop in 26..62usize {
        let packets = (stop - 26) / 5;
        check_failing_input(rt, alloc, &LOSE, file, stop, chunk, &kept(alloc, packets)?)?;
        check_failing_input(rt, alloc, &SHOW, file, stop, chunk, &shown(alloc, packets)?)?;
    }
    Ok(())
}

#[test]
fn a_pass_that_fails_at_each_byte(rt: HostRuntime) -> Result<(), Fail> {
    let (alloc, file) = (rt.alloc(), &STAIRCASE_FILE);
    let whole = kept(alloc, 7)?;
    for chunk in [1usize, 7] {
        assert!(rt; 1 <= chunk);
        check_outputs(&rt, alloc, &LOSE, file, &whole, chunk)?;
        check_unread(&rt, alloc, chunk)?;
        check_failing_passes(&rt, alloc, chunk)?;
        check_reports(&rt, alloc, &LOSE, file, &whole, "read 7 kept 4\n", chunk)?;
    }
    Ok(())
}
