// Datagrams as they are read, from a stream and from frames.
ghost use Rattle.std.specs.Prelude.{◌≡◌, ◌<◌, ◌≤◌, ◌+◌, ◌*◌, ℕ, List, [], length, take};
ghost use Rattle.std.specs.Prelude.{true, false, Ok, None, Option, IfOk, IfErr, IfSome, OnOk};
ghost use Rattle.std.specs.Io.KnownBytes.{Consumes, IsAtEnd};
ghost use Rattle.adu_frames.specs.Reading.{IsFrame, datagram_in};
ghost use Rattle.datagram_pass.specs.Faults.{HasDatagramFault};
ghost use Rattle.datagram_pass.specs.Progress.{EndsReading, IsHead, TakesOne};
ghost use Rattle.datagram_pass.specs.declared.kind.Way.TheVariants.{Framing, Unframing};

use crate::{DatagramFault, DatagramRefusal};
use adu_frames::{Frame, FrameFault, HEAD_LEN, read_frame};
use fec_base::{ReadFailed, Source, read_full};

// The greatest number of bytes of all frames: those of the longest object.
const MOST_BYTES: u64 = 268_435_456;

// Whether there are too many frames with the one of this number.
fn are_too_many(symbol: usize, index: u64) -> bool
    requires symbol { symbol ≤ 65535 }
    requires index { index < 268435456 }
    ensures many { result ≡ true → 268435456 < (index + 1) * symbol }
    ensures few { result ≡ false → (index + 1) * symbol ≤ 268435456 }
{
    (index + 1) * symbol as u64 > MOST_BYTES
}

/// Reads datagram number `index` of a stream, its bytes to the front of `buf`, which is as long as
/// a frame. None comes exactly at the end of the input.
pub fn next_datagram<S: Source>(
    src: &mut S,
    index: u64,
    buf: &mut [u8],
) -> Result<Option<Frame>, DatagramRefusal>
    requires least { 3 ≤ length buf.old }
    requires most { length buf.old ≤ 65535 }
    requires index { index < 268435456 }
    ensures takes { IfOk result
        (λ found. IfSome found
        (λ frame. TakesOne Framing (length buf.new) index (S.left src.old) (S.left src.new)
        (record { flow = frame.flow; bytes = take frame.length buf.new }))) }
    ensures room { IfOk result
        (λ found. IfSome found (λ frame. frame.length + 3 ≤ length buf.new)) }
    ensures end { result ≡ Ok None → Consumes (S.left src.old) (S.left src.new) []
        × IsAtEnd (S.left src.new) }
    ensures ends { IfErr result (EndsReading Framing (length buf.old) index (S.left src.old)
        (S.left src.new) (S.faults src.old) (S.faults src.new)) }
    ensures length { length buf.new ≡ length buf.old }
    ensures later { S.faults src.old ≤ S.faults src.new }
{
    let mut head = [0u8; HEAD_LEN];
    let have = match read_full(src, &mut head) {
        Ok(0) => return Ok(None),
        Ok(have) => have,
        Err(ReadFailed) => return Err(DatagramRefusal::Read),
    };
    if have < HEAD_LEN {
        let have = have as u32;
        return Err(DatagramRefusal::Fault(DatagramFault::Short { index, have }));
    }
    let frame = check_head(buf.len(), index, &head)?;
    let symbol = buf.len();
    read_bytes(
        src,
        symbol,
        index,
        &head,
        frame,
        &mut buf[..frame.length as usize],
    )?;
    Ok(Some(frame))
}

// What three bytes say of datagram number `index` of a stream.
fn check_head(symbol: usize, index: u64, head: &[u8; 3]) -> Result<Frame, DatagramFault>
    requires symbol { symbol ≤ 65535 }
    requires index { index < 268435456 }
    ensures head { IfOk result (IsHead symbol index head.now) }
    ensures fault { IfErr result (λ fault. (left : Option (List ℕ))
        → HasDatagramFault Framing symbol index head.now left fault) }
{
    if are_too_many(symbol, index) {
        return Err(DatagramFault::TooMany);
    }
    let length = u16::from_be_bytes([head[1], head[2]]) as u32;
    if HEAD_LEN + length as usize > symbol {
        return Err(DatagramFault::Long { index, length });
    }
    Ok(Frame {
        flow: head[0],
        length,
    })
}

// Reads the bytes of datagram number `index` of a stream, behind its head.
fn read_bytes<S: Source>(
    src: &mut S,
    symbol: usize,
    index: u64,
    head: &[u8; 3],
    frame: Frame,
    bytes: &mut [u8],
) -> Result<(), DatagramRefusal>
    requires head { IsHead symbol index head.now frame }
    requires symbol { symbol ≤ 65535 }
    requires bytes { length bytes.old ≡ frame.length }
    ensures whole { OnOk result (Consumes (S.left src.old) (S.left src.new) bytes.new) }
    ensures ends { IfErr result (λ refusal. (before : Option (List ℕ))
        → Consumes before (S.left src.old) head.now
        → EndsReading Framing symbol index before (S.left src.new)
        (S.faults src.old) (S.faults src.new) refusal) }
    ensures length { length bytes.new ≡ length bytes.old }
    ensures later { S.faults src.old ≤ S.faults src.new }
{
    let have = match read_full(src, bytes) {
        Ok(have) => have,
        Err(ReadFailed) => return Err(DatagramRefusal::Read),
    };
    if have < bytes.len() {
        let have = (HEAD_LEN + have) as u32;
        return Err(DatagramRefusal::Fault(DatagramFault::Short { index, have }));
    }
    Ok(())
}

/// Reads symbol number `index` of an input of frames into `buf`, which is as long as a frame. None
/// comes exactly at the end of the input. The datagram stands in `buf` from place 3.
pub fn next_symbol<S: Source>(
    src: &mut S,
    index: u64,
    buf: &mut [u8],
) -> Result<Option<Frame>, DatagramRefusal>
    requires least { 3 ≤ length buf.old }
    requires most { length buf.old ≤ 65535 }
    requires index { index < 268435456 }
    ensures takes { IfOk result
        (λ found. IfSome found
        (λ frame. TakesOne Unframing (length buf.new) index (S.left src.old) (S.left src.new)
        (datagram_in buf.new frame))) }
    ensures frame { IfOk result (λ found. IfSome found (IsFrame buf.new)) }
    ensures end { result ≡ Ok None → Consumes (S.left src.old) (S.left src.new) []
        × IsAtEnd (S.left src.new) }
    ensures ends { IfErr result (EndsReading Unframing (length buf.old) index (S.left src.old)
        (S.left src.new) (S.faults src.old) (S.faults src.new)) }
    ensures length { length buf.new ≡ length buf.old }
    ensures later { S.faults src.old ≤ S.faults src.new }
{
    let have = match read_full(src, buf) {
        Ok(0) => return Ok(None),
        Ok(have) => have,
        Err(ReadFailed) => return Err(DatagramRefusal::Read),
    };
    if are_too_many(buf.len(), index) {
        return Err(DatagramRefusal::Fault(DatagramFault::TooMany));
    }
    if have < buf.len() {
        let have = have as u32;
        return Err(DatagramRefusal::Fault(DatagramFault::Short { index, have }));
    }
    let frame = check_symbol(index, buf)?;
    Ok(Some(frame))
}

// The frame that symbol number `index` is.
fn check_symbol(index: u64, symbol: &[u8]) -> Result<Frame, DatagramFault>
    requires least { 3 ≤ length symbol.now }
    requires most { length symbol.now ≤ 65535 }
    requires within { (index + 1) * length symbol.now ≤ 268435456 }
    ensures frame { IfOk result (IsFrame symbol.now) }
    ensures fault { IfErr result (λ fault. (left : Option (List ℕ))
        → HasDatagramFault Unframing (length symbol.now) index symbol.now left fault) }
{
    match read_frame(symbol) {
        Ok(frame) => Ok(frame),
        Err(FrameFault::LengthPast(length)) => Err(DatagramFault::LengthPast { index, length }),
        Err(FrameFault::PaddingSet) => Err(DatagramFault::PaddingSet { index }),
    }
}
