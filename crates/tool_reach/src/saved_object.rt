// What is saved of the object, written.
ghost use Rattle.std.specs.Io.KnownBytes.{Appends};
ghost use Rattle.std.specs.List.{flat_map};
ghost use Rattle.std.specs.Prelude.{◌++◌, ◌-◌, ◌<◌, ◌≡◌, ◌≤◌, All, IfOk, OnErr, OnOk, []};
ghost use Rattle.std.specs.Prelude.{length, take};
ghost use Rattle.fec_base.specs.Bytes.{AppendsFront};
ghost use Rattle.fec_base.specs.Causes.{HasCause};
ghost use Rattle.fec_base.specs.Symbol.{zero_symbol};
ghost use Rattle.object_file.specs.Staged.{PassesOn};
ghost use Rattle.partial_block.specs.Saved.{HasSources};
ghost use Rattle.tool_reach.specs.Salvaged.{count_of, salvaged_bytes, salvaged_object};
ghost use Rattle.tool_reach.specs.Salvaged.{salvaged_symbol, sources_of};
ghost use Rattle.tool_reach.specs.Surveyed.{HasLength};

use fec_base::{Sink, WriteFailed};
use object_file::Staging;
use partial_block::{Partial, Survey};

// Writes what is saved of an object of `size` bytes, by a staging buffer in which nothing waits.
// `zeros` is a symbol of zero bytes.
pub(crate) fn write_object<K: Sink>(
    staging: &mut Staging,
    sink: &mut K,
    surveys: &[Survey],
    zeros: &[u8],
    size: usize,
) -> Result<(), WriteFailed>
    requires empty { staging.old.bytes ≡ [] }
    requires room { 65535 ≤ staging.old.room }
    requires long { All (HasLength (length zeros.now)) surveys.now }
    requires zeros { zeros.now ≡ zero_symbol (length zeros.now) }
    requires short { length zeros.now ≤ 65535 }
    ensures written { OnOk result (Appends (K.held sink.old) (K.held sink.new)
        (salvaged_object (length zeros.now) surveys.now size)) }
    ensures cut { OnErr result (AppendsFront (K.held sink.old) (K.held sink.new)
        (salvaged_object (length zeros.now) surveys.now size)) }
    ensures cause { HasCause (K.faults sink.old) (K.faults sink.new) result }
{
    put_object(staging, sink, surveys, zeros, size)?;
    staging.flush(sink)?;
    Ok(())
}

// Puts what is saved of the blocks one after the other, cut to `size` bytes.
fn put_object<K: Sink>(
    staging: &mut Staging,
    sink: &mut K,
    surveys: &[Survey],
    zeros: &[u8],
    size: usize,
) -> Result<(), WriteFailed>
    requires room { 65535 ≤ staging.old.room }
    requires long { All (HasLength (length zeros.now)) surveys.now }
    requires zeros { zeros.now ≡ zero_symbol (length zeros.now) }
    requires short { length zeros.now ≤ 65535 }
    ensures passed { OnOk result
        (PassesOn (K.held sink.old) (K.held sink.new) staging.old.bytes staging.new.bytes
        (salvaged_object (length zeros.now) surveys.now size)) }
    ensures cut { OnErr result (AppendsFront (K.held sink.old) (K.held sink.new)
        (staging.old.bytes ++ salvaged_object (length zeros.now) surveys.now size)) }
    ensures cause { HasCause (K.faults sink.old) (K.faults sink.new) result }
{
    let mut rest = size;
    for block in 0..surveys.len() {
        rest = put_survey(staging, sink, &surveys[block], zeros, rest)?;
    }
    Ok(())
}

// Puts what is saved of a block, cut to what is left of the object. Says how much is left behind
// it.
fn put_survey<K: Sink>(
    staging: &mut Staging,
    sink: &mut K,
    survey: &Survey,
    zeros: &[u8],
    size: usize,
) -> Result<usize, WriteFailed>
    requires room { 65535 ≤ staging.old.room }
    requires long { HasLength (length zeros.now) survey.now }
    requires zeros { zeros.now ≡ zero_symbol (length zeros.now) }
    requires short { length zeros.now ≤ 65535 }
    ensures passed { OnOk result
        (PassesOn (K.held sink.old) (K.held sink.new) staging.old.bytes staging.new.bytes
        (take size (salvaged_bytes (length zeros.now) survey.now))) }
    ensures left { IfOk result (λ rest. rest
        ≡ size - length (salvaged_bytes (length zeros.now) survey.now)) }
    ensures cut { OnErr result (AppendsFront (K.held sink.old) (K.held sink.new)
        (staging.old.bytes ++ take size (salvaged_bytes (length zeros.now) survey.now))) }
    ensures room { staging.new.room ≡ staging.old.room }
    ensures cause { HasCause (K.faults sink.old) (K.faults sink.new) result }
{
    match survey {
        Survey::NoCodeword => Ok(size),
        Survey::Sources(partial) => put_symbols(staging, sink, partial, zeros, size),
    }
}

// Puts the source symbols of a block, with zero bytes in place of those that aren't determined.
fn put_symbols<K: Sink>(
    staging: &mut Staging,
    sink: &mut K,
    partial: &Partial,
    zeros: &[u8],
    size: usize,
) -> Result<usize, WriteFailed>
    requires room { 65535 ≤ staging.old.room }
    requires long { HasSources (count_of partial.now) (length zeros.now) partial.now }
    requires zeros { zeros.now ≡ zero_symbol (length zeros.now) }
    requires short { length zeros.now ≤ 65535 }
    ensures passed { OnOk result
        (PassesOn (K.held sink.old) (K.held sink.new) staging.old.bytes staging.new.bytes
        (take size (flat_map (salvaged_symbol (length zeros.now) partial.now)
        (sources_of partial.now)))) }
    ensures left { IfOk result (λ rest. rest ≡ size
        - length (flat_map (salvaged_symbol (length zeros.now) partial.now)
        (sources_of partial.now))) }
    ensures cut { OnErr result (AppendsFront (K.held sink.old) (K.held sink.new)
        (staging.old.bytes ++ take size (flat_map (salvaged_symbol (length zeros.now) partial.now)
        (sources_of partial.now)))) }
    ensures room { staging.new.room ≡ staging.old.room }
    ensures cause { HasCause (K.faults sink.old) (K.faults sink.new) result }
{
    let mut rest = size;
    for e in 0..partial.count() {
        let symbol = symbol_or(partial, e, zeros);
        let len = rest.min(symbol.len());
        staging.put(sink, &symbol[..len])?;
        rest -= len;
    }
    Ok(rest)
}

// Source symbol e, or the zero bytes where it isn't determined.
fn symbol_or<'a>(partial: &'a Partial, e: u32, zeros: &'a [u8]) -> &'a [u8]
    requires source { e < count_of partial.now }
    requires long { HasSources (count_of partial.now) (length zeros.now) partial.now }
    requires zeros { zeros.now ≡ zero_symbol (length zeros.now) }
    ensures value { result.now ≡ salvaged_symbol (length zeros.now) partial.now e }
    ensures long { length result.now ≡ length zeros.now }
{
    match partial.symbol(e) {
        Some(symbol) => symbol,
        None => zeros,
    }
}
