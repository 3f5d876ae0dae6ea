ghost use Rattle.std.specs.Prelude.{◌≡◌, ◌≤◌};

use fec_base::{ListWatch, MemSink, MemSource, Place, Source, Watch, Words};
use std::alloc::Global;
use std::process::Abort;
use std::test::Fail;
use tool_base::Status;
use tool_commands::run;

mod blocks;
mod codewords;
mod decodes;
mod digests;
mod encodes;
mod examples;
mod frames;
mod passes;
mod perf;
mod refused;
mod salvaged;
mod sweeps;
mod versions;

const THREE_OF_SEVEN: [&str; 4] = ["encode", "--symbol=1", "--block=3", "--max-n=7"];

const GRID: [&str; 5] = [
    "encode",
    "--codec=2d",
    "--width=3",
    "--block=5",
    "--symbol=1",
];

// The file of 01 02 04 in a staircase of three source symbols and seven encoding symbols.
const STAIRCASE_FILE: [u8; 61] =
    *b"OFPK\x01\x03\0\0\0\0\0\0\0\x03\0\x01\x01\0\0\x30\0\x07\0\0\0\x01\
    \0\0\0\0\x01\0\0\0\x01\x02\0\0\0\x02\x04\0\0\0\x03\x05\0\0\0\x04\x03\0\0\0\x05\x04\
    \0\0\0\x06\x07";

// The file of 01 02 04 08 10 in a grid of width 3.
const GRID_FILE: [u8; 76] = *b"OFPK\x01\xc8\0\0\0\0\0\0\0\x05\0\x01\x01\0\0\x50\0\x0a\0\0\0\x03\
    \0\0\0\0\x01\0\0\0\x01\x02\0\0\0\x02\x04\0\0\0\x03\x08\0\0\0\x04\x10\
    \0\0\0\x05\x07\0\0\0\x06\x18\0\0\0\x07\x09\0\0\0\x08\x12\0\0\0\x09\x04";

// And in the same grid with a corner.
const CORNER_FILE: [u8; 81] = *b"OFPK\x01\xc9\0\0\0\0\0\0\0\x05\0\x01\x01\0\0\x50\0\x0b\0\0\0\x03\
    \0\0\0\0\x01\0\0\0\x01\x02\0\0\0\x02\x04\0\0\0\x03\x08\0\0\0\x04\x10\
    \0\0\0\x05\x07\0\0\0\x06\x18\0\0\0\x07\x09\0\0\0\x08\x12\0\0\0\x09\x04\0\0\0\x0a\x1f";

// What the packets of symbols 3, 4 and 0 of the staircase make known: symbols and their bytes.
const REBUILT: [(u32, u8); 4] = [(1, 2), (2, 4), (5, 4), (6, 7)];

// What a run meets: the most bytes of a read or a write, how many bytes may be read before the
// input fails, and how much room the watch, the output and the report have.
#[derive(Clone, Copy)]
struct Outside {
    chunk: usize,
    stop: Option<usize>,
    places: u32,
    output: usize,
    report: usize,
}

// What a run left: how it ended, its output and report, the watch, and how many bytes of the input
// can still be read, up to a hundred.
#[derive(Drop)]
struct Left {
    status: Status,
    output: MemSink,
    report: MemSink,
    watch: Box<dyn Watch>,
    unread: usize,
}

// Nothing fails.
fn ample(chunk: usize) -> Outside
    ensures { result.chunk ≡ chunk }
{
    Outside {
        chunk,
        stop: None,
        places: 20,
        output: 20_000,
        report: 200,
    }
}

fn words_of(alloc: Global, words: &[&str]) -> Result<Words, Fail> {
    let mut all = Words::new(alloc);
    for word in words {
        all.push(word)?;
    }
    Ok(all)
}

fn still_there(input: &mut MemSource) -> usize {
    let mut byte = [0u8; 1];
    let mut count = 0usize;
    for _ in 0..100 {
        count = count.saturating_add(input.read(&mut byte).unwrap_or(0));
    }
    count
}

// Runs the words over the bytes.
fn run_in(alloc: Global, words: &[&str], bytes: &[u8], outside: Outside) -> Result<Left, Fail>
    requires { 1 ≤ outside.chunk }
{
    let all = words_of(alloc, words)?;
    let mut input = MemSource::new(alloc, bytes, outside.chunk, outside.stop)?;
    let mut output = MemSink::new(alloc, outside.output, outside.chunk)?;
    let mut report = MemSink::new(alloc, outside.report, outside.chunk)?;
    let watch: Box<dyn Watch> = Box::new(alloc, ListWatch::new(alloc, outside.places, 20_000)?)?;
    let ended = run(alloc, &all, &mut input, &mut output, &mut report, watch);
    Ok(Left {
        status: ended.status,
        output,
        report,
        watch: ended.watch,
        unread: still_there(&mut input),
    })
}

// The same where nothing fails.
fn run_over(alloc: Global, words: &[&str], bytes: &[u8]) -> Result<Left, Fail> {
    run_in(alloc, words, bytes, ample(70))
}

// A run ended so.
fn check_left(rt: &impl Abort, left: &Left, status: Status, output: &[u8], report: &[u8]) {
    assert!(rt; left.report.bytes() == report);
    assert!(rt; left.status == status);
    assert!(rt; left.output.bytes() == output);
}

// A run of the words over the input, where nothing fails, ends so.
fn check(
    rt: &impl Abort,
    alloc: Global,
    words: &[&str],
    input: &[u8],
    status: Status,
    output: &[u8],
    report: &str,
) -> Result<(), Fail> {
    let left = run_over(alloc, words, input)?;
    check_left(rt, &left, status, output, report.as_bytes());
    Ok(())
}

// These symbols of block 0 were told, and no others.
fn check_told(rt: &impl Abort, left: &Left, told: &[(u32, u8)]) {
    assert!(rt; left.watch.told_count() as usize == told.len());
    for (i, (esi, byte)) in told.iter().enumerate() {
        let place = Place {
            block: 0,
            esi: *esi,
        };
        assert!(rt; left.watch.told_place(i as u32) == Some(place));
        assert!(rt; left.watch.told_bytes(i as u32) == [*byte].as_slice());
    }
}

// The file with this header of one block of symbols of one byte, and with these packets, each an
// ESI and its symbol.
fn with_packets(alloc: Global, header: &[u8], packets: &[(u8, u8)]) -> Result<Vec<u8>, Fail> {
    let mut file = Vec::from_slice(alloc, header)?;
    for (esi, symbol) in packets {
        file.extend_from_slice(&[0, 0, 0, *esi, *symbol])?;
    }
    Ok(file)
}
