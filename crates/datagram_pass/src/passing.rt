// The pass itself.
ghost use Rattle.std.specs.Prelude.{◌≡◌, ◌<◌, ◌≤◌, [], true, false, length, Ok};
ghost use Rattle.std.specs.Prelude.{IfErr, IfOk};
ghost use Rattle.std.specs.Io.KnownBytes.{Consumes, IsAtEnd};
ghost use Rattle.fec_base.specs.Outside.{stream};
ghost use Rattle.adu_frames.specs.Frames.{Datagram};
ghost use Rattle.datagram_pass.specs.Progress.{EndsAtOne, EndsEarly, PassesOne};
ghost use Rattle.datagram_pass.specs.Written.{WritesEarly, WritesWhole};
ghost use Rattle.datagram_pass.specs.declared.kind.Way.TheVariants.{Framing, Unframing};

use crate::reading::{next_datagram, next_symbol};
use crate::writing::{put_datagram, put_frame};
use crate::{DatagramRefusal, Way};
use fec_base::{Sink, Source};
use std::alloc::Global;

// How many frames there may be at most, whatever their length.
const MOST_FRAMES: u64 = 268_435_456;

/// Passes over the datagrams that the input is, and says how many there are.
///
/// All memory is taken before the first byte is. One datagram is in memory at a time, and what goes
/// for it is whole in the output before a byte behind it is asked for: so a datagram costs one
/// write, and one read or two. `Ok` comes at the end of the input alone. What stands after each
/// refusal is said there.
pub fn pass_datagrams<S: Source, K: Sink>(
    alloc: Global,
    way: Way,
    symbol: u32,
    input: &mut S,
    output: &mut K,
) -> Result<u64, DatagramRefusal>
    requires least { 3 ≤ symbol }
    requires most { symbol ≤ 65535 }
    ensures whole { IfOk result (WritesWhole way symbol
        (stream (S.left input.old) (S.faults input.old))
        (stream (S.left input.new) (S.faults input.new))
        (stream (K.held output.old) (K.faults output.old))
        (stream (K.held output.new) (K.faults output.new))) }
    ensures ends { IfErr result (WritesEarly way symbol
        (stream (S.left input.old) (S.faults input.old))
        (stream (S.left input.new) (S.faults input.new))
        (stream (K.held output.old) (K.faults output.old))
        (stream (K.held output.new) (K.faults output.new))) }
{
    let mut datagram = vec![in alloc; 0u8; symbol as usize]?;
    let mut frame = vec![in alloc; 0u8; symbol as usize]?;
    let count = pass_all(way, &mut datagram, &mut frame, input, output)?;
    Ok(count)
}

// Passes over the datagrams, each by the same two buffers.
fn pass_all<S: Source, K: Sink>(
    way: Way,
    datagram: &mut [u8],
    symbol: &mut [u8],
    input: &mut S,
    output: &mut K,
) -> Result<u64, DatagramRefusal>
    requires least { 3 ≤ length symbol.old }
    requires most { length symbol.old ≤ 65535 }
    requires alike { length datagram.old ≡ length symbol.old }
    ensures whole { IfOk result (WritesWhole way (length symbol.old)
        (stream (S.left input.old) (S.faults input.old))
        (stream (S.left input.new) (S.faults input.new))
        (stream (K.held output.old) (K.faults output.old))
        (stream (K.held output.new) (K.faults output.new))) }
    ensures ends { IfErr result (λ refusal. EndsEarly refusal (WritesEarly way (length symbol.old)
        (stream (S.left input.old) (S.faults input.old))
        (stream (S.left input.new) (S.faults input.new))
        (stream (K.held output.old) (K.faults output.old))
        (stream (K.held output.new) (K.faults output.new))
        refusal)) }
{
    for index in 0..MOST_FRAMES {
        if !pass_one(way, index, datagram, symbol, input, output)? {
            return Ok(index);
        }
    }
    // One frame more would be too many.
    unreachable!()
}

// Passes over datagram number `index`. Says whether there was one.
fn pass_one<S: Source, K: Sink>(
    way: Way,
    index: u64,
    datagram: &mut [u8],
    symbol: &mut [u8],
    input: &mut S,
    output: &mut K,
) -> Result<bool, DatagramRefusal>
    requires least { 3 ≤ length symbol.old }
    requires most { length symbol.old ≤ 65535 }
    requires alike { length datagram.old ≡ length symbol.old }
    requires index { index < 268435456 }
    ensures passes { result ≡ Ok true → (d : Datagram) × PassesOne way (length symbol.old) index
        (S.left input.old) (S.left input.new) (K.held output.old) (K.held output.new) d }
    ensures end { result ≡ Ok false → Consumes (S.left input.old) (S.left input.new) []
        × IsAtEnd (S.left input.new) × (output.new ≡ output.old) }
    ensures ends { IfErr result (EndsAtOne way (length symbol.old) index
        (S.left input.old) (S.left input.new) (K.held output.old) (K.held output.new)
        (S.faults input.old) (S.faults input.new) (K.faults output.old) (K.faults output.new)) }
    ensures alike { length datagram.new ≡ length datagram.old }
    ensures length { length symbol.new ≡ length symbol.old }
    ensures later { S.faults input.old ≤ S.faults input.new }
    ensures sink_later { K.faults output.old ≤ K.faults output.new }
{
    match way {
        Way::Framing => frame_one(index, datagram, symbol, input, output),
        Way::Unframing => unframe_one(index, symbol, input, output),
    }
}

// Writes the frame of datagram number `index` of a stream. Says whether there was one.
fn frame_one<S: Source, K: Sink>(
    index: u64,
    datagram: &mut [u8],
    symbol: &mut [u8],
    input: &mut S,
    output: &mut K,
) -> Result<bool, DatagramRefusal>
    requires least { 3 ≤ length symbol.old }
    requires most { length symbol.old ≤ 65535 }
    requires alike { length datagram.old ≡ length symbol.old }
    requires index { index < 268435456 }
    ensures passes { result ≡ Ok true → (d : Datagram) × PassesOne Framing (length symbol.old) index
        (S.left input.old) (S.left input.new) (K.held output.old) (K.held output.new) d }
    ensures end { result ≡ Ok false → Consumes (S.left input.old) (S.left input.new) []
        × IsAtEnd (S.left input.new) × (output.new ≡ output.old) }
    ensures ends { IfErr result (EndsAtOne Framing (length symbol.old) index
        (S.left input.old) (S.left input.new) (K.held output.old) (K.held output.new)
        (S.faults input.old) (S.faults input.new) (K.faults output.old) (K.faults output.new)) }
    ensures alike { length datagram.new ≡ length datagram.old }
    ensures length { length symbol.new ≡ length symbol.old }
    ensures later { S.faults input.old ≤ S.faults input.new }
    ensures sink_later { K.faults output.old ≤ K.faults output.new }
{
    let Some(frame) = next_datagram(input, index, datagram)? else {
        return Ok(false);
    };
    put_frame(output, frame, datagram, symbol)?;
    Ok(true)
}

// Writes the datagram of symbol number `index`. Says whether there was one.
fn unframe_one<S: Source, K: Sink>(
    index: u64,
    symbol: &mut [u8],
    input: &mut S,
    output: &mut K,
) -> Result<bool, DatagramRefusal>
    requires least { 3 ≤ length symbol.old }
    requires most { length symbol.old ≤ 65535 }
    requires index { index < 268435456 }
    ensures passes { result ≡ Ok true
        → (d : Datagram) × PassesOne Unframing (length symbol.old) index
        (S.left input.old) (S.left input.new) (K.held output.old) (K.held output.new) d }
    ensures end { result ≡ Ok false → Consumes (S.left input.old) (S.left input.new) []
        × IsAtEnd (S.left input.new) × (output.new ≡ output.old) }
    ensures ends { IfErr result (EndsAtOne Unframing (length symbol.old) index
        (S.left input.old) (S.left input.new) (K.held output.old) (K.held output.new)
        (S.faults input.old) (S.faults input.new) (K.faults output.old) (K.faults output.new)) }
    ensures length { length symbol.new ≡ length symbol.old }
    ensures later { S.faults input.old ≤ S.faults input.new }
    ensures sink_later { K.faults output.old ≤ K.faults output.new }
{
    let Some(frame) = next_symbol(input, index, symbol)? else {
        return Ok(false);
    };
    put_datagram(output, frame, symbol)?;
    Ok(true)
}
