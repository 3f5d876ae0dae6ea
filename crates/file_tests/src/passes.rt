ghost use Rattle.std.specs.Prelude.{◌≤◌};
ghost use Rattle.loss_patterns.specs.Ranges.{IsLoss};

use fec_base::{MemSink, MemSource, NoMemory};
use loss_patterns::LossKind;
use packet_file::FileFault;
use packet_pass::{Pass, PassRefusal, pass};
use std::alloc::Global;
use std::process::Abort;
use std::test::Fail;

// The header of a staircase file of three bytes, with symbols of one byte, blocks of three source
// symbols and seven encoding symbols, and seed 1; then the packets of symbols 0 to 6 of its one
// block.
const FILE: [u8; 61] = *b"OFPK\x01\x03\0\0\0\0\0\0\0\x03\0\x01\x01\0\0\x30\0\x07\0\0\0\x01\
    \0\0\0\0\x01\0\0\0\x01\x02\0\0\0\x02\x04\0\0\0\x03\x05\
    \0\0\0\x04\x03\0\0\0\x05\x04\0\0\0\x06\x07";

// The header's line and that of the packet of symbol 3, which is the first one shown.
const FILE_LINES: &str = "codec staircase n1 3 seed 1 length 3 symbol 1 block 3 max 7 blocks 1\n\
    packet 0 block 0 symbol 3 bytes 05\n";

// The header of a grid of width three with five source symbols of one byte.
const GRID: [u8; 26] = *b"OFPK\x01\xc8\0\0\0\0\0\0\0\x05\0\x01\x01\0\0\x50\0\x0a\0\0\0\x03";

const GRID_LINES: &str = "codec 2d width 3 length 5 symbol 1 block 5 max 10 blocks 1\n";

// The header of a triangle file of seventeen bytes, with N1 = 10 and symbols of seventeen bytes,
// and a packet of its one block.
const LONG: [u8; 47] = *b"OFPK\x01\x04\0\0\0\0\0\0\0\x11\0\x11\xe1\0\0\x30\0\x07\0\0\0\x09\
    \0\0\0\x01\0\x01\x02\x03\x04\x05\x06\x07\x08\x09\x0a\x0b\x0c\x0d\xef\xff\x10";

const LONG_LINES: &str = "codec triangle n1 10 seed 9 length 17 symbol 17 block 3 max 7 blocks 1\n\
    packet 0 block 0 symbol 1 bytes 000102030405060708090a0b0c0defff\n";

// What loses nothing.
const NOTHING: Pass = Pass::Lose {
    loss: LossKind::None,
    seed: 1,
};

const FIRST_THREE: Pass = Pass::Lose {
    loss: LossKind::First(3),
    seed: 1,
};

fn source(alloc: Global, bytes: &[u8]) -> Result<MemSource, NoMemory> {
    MemSource::new(alloc, bytes, 3, None)
}

// A loss of the file keeps the packets of these symbols.
fn check_lost(rt: &impl Abort, alloc: Global, loss: LossKind, wanted: &[u8]) -> Result<(), Fail>
    requires { IsLoss loss }
{
    let mut input = source(alloc, &FILE)?;
    let mut output = MemSink::new(alloc, 100, 2)?;
    let passed = pass(
        alloc,
        Pass::Lose { loss, seed: 1 },
        7,
        &mut input,
        &mut output,
    )?;
    assert!(rt; passed.packets == 7);
    assert!(rt; passed.kept == wanted.len() as u64);
    let mut kept = Vec::from_slice(alloc, &FILE[..26])?;
    for esi in wanted {
        let start = 26 + 5 * (*esi).min(6) as usize;
        kept.extend_from_slice(&FILE[start..start + 5])?;
    }
    assert!(rt; output.bytes() == kept.as_slice());
    Ok(())
}

#[test]
fn packets_are_lost(rt: HostRuntime) -> Result<(), Fail> {
    let alloc = rt.alloc();
    check_lost(&rt, alloc, LossKind::None, &[0, 1, 2, 3, 4, 5, 6])?;
    check_lost(&rt, alloc, LossKind::First(3), &[3, 4, 5, 6])?;
    check_lost(&rt, alloc, LossKind::Burst(500, 500), &[1, 2, 5])?;
    check_lost(&rt, alloc, LossKind::Even(500), &[2, 4])?;
    Ok(())
}

// The file, read one byte or seven at a time, is shown by this text.
fn check_shown(rt: &impl Abort, alloc: Global, file: &[u8], wanted: &str) -> Result<(), Fail> {
    for chunk in [1, 7usize] {
        let mut input = MemSource::new(alloc, file, chunk, None)?;
        let mut output = MemSink::new(alloc, 200, chunk)?;
        assert!(rt; pass(alloc, Pass::Show, 7, &mut input, &mut output).is_ok());
        assert!(rt; output.bytes() == wanted.as_bytes());
    }
    Ok(())
}

#[test]
fn a_file_of_each_codec_is_shown(rt: HostRuntime) -> Result<(), Fail> {
    let alloc = rt.alloc();
    let mut file = Vec::from_slice(alloc, &FILE[..26])?;
    file.extend_from_slice(&FILE[41..46])?;
    check_shown(&rt, alloc, &file, FILE_LINES)?;
    check_shown(&rt, alloc, &LONG, LONG_LINES)?;
    check_shown(&rt, alloc, &GRID, GRID_LINES)?;
    Ok(())
}

// With this room the output is a front of the file without its first three packets, and so many
// bytes of the input are taken.
fn check_cut(rt: &impl Abort, alloc: Global, room: usize, taken: usize) -> Result<(), Fail>
    requires { taken ≤ 61 }
{
    let mut input = source(alloc, &FILE)?;
    let mut output = MemSink::new(alloc, room, 2)?;
    let result = pass(alloc, FIRST_THREE, 7, &mut input, &mut output);
    assert!(rt; result == Err(PassRefusal::Output));
    let mut kept = Vec::from_slice(alloc, &FILE[..26])?;
    kept.extend_from_slice(&FILE[41..])?;
    assert!(rt; Some(output.bytes()) == kept.get(..room));
    let mut rest = [0u8; 61];
    let left = fec_base::read_full(&mut input, &mut rest)?;
    assert!(rt; left + taken == 61);
    Ok(())
}

#[test]
fn an_output_that_fails_stops_the_input(rt: HostRuntime) -> Result<(), Fail> {
    let alloc = rt.alloc();
    for room in 0..26usize {
        check_cut(&rt, alloc, room, 26)?;
    }
    for q in 0..4usize {
        for s in 0..5usize {
            check_cut(&rt, alloc, 26 + 5 * q + s, 26 + 5 * (4 + q))?;
        }
    }
    Ok(())
}

#[test]
fn an_input_that_fails_leaves_the_whole_packets(rt: HostRuntime) -> Result<(), Fail> {
    let alloc = rt.alloc();
    for stop in 0..62usize {
        let mut input = MemSource::new(alloc, &FILE, 7, Some(stop))?;
        let mut output = MemSink::new(alloc, 100, 7)?;
        let result = pass(alloc, NOTHING, 7, &mut input, &mut output);
        assert!(rt; result == Err(PassRefusal::File(FileFault::ReadFault)));
        let whole = if stop < 26 { 0 } else { stop - (stop - 26) % 5 };
        assert!(rt; output.bytes() == &FILE[..whole]);
    }
    Ok(())
}

// These bytes of the file end with the fault behind two packets, which are written.
fn check_bad(
    rt: &impl Abort,
    alloc: Global,
    most: u32,
    bytes: &[u8],
    fault: FileFault,
) -> Result<(), Fail>
    requires { most ≤ 7 }
{
    let mut input = source(alloc, bytes)?;
    let mut output = MemSink::new(alloc, 100, 2)?;
    assert!(rt;
        pass(alloc, NOTHING, most, &mut input, &mut output) == Err(PassRefusal::File(fault))
    );
    assert!(rt; output.bytes() == &FILE[..36]);
    Ok(())
}

#[test]
fn a_piece_that_is_no_packet_ends_the_pass(rt: HostRuntime) -> Result<(), Fail> {
    let alloc = rt.alloc();
    check_bad(
        &rt,
        alloc,
        7,
        &FILE[..38],
        FileFault::ShortPacket { index: 2, have: 2 },
    )?;
    check_bad(&rt, alloc, 2, &FILE[..38], FileFault::TooManyPackets)?;
    Ok(())
}
