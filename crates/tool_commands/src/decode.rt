// The `decode` of a packet file.
ghost use Rattle.std.specs.Prelude.{◌≡◌, ◌≤◌, ◌<◌, ◌-◌, ◌++◌, [], ℕ, take, length};
ghost use Rattle.std.specs.Prelude.{slice_index, slice_index_or, IfOk, OnOk, OnErr};
ghost use Rattle.std.specs.List.{flat_map};
ghost use Rattle.std.specs.Io.KnownBytes.{Appends};
ghost use Rattle.fec_base.specs.Bytes.{AppendsFront};
ghost use Rattle.fec_base.specs.Causes.{HasCause};
ghost use Rattle.peeling.specs.Decoder.{Decoder};
ghost use Rattle.fec_session.specs.declared.outcome.Outcome.{Outcome};
ghost use Rattle.packet_file.specs.Header.{source_counts};
ghost use Rattle.tool_commands.specs.DecodeRun.{IsDecodeRun};
ghost use Rattle.tool_base.specs.Ending.{EndsOrRefuses};
ghost use Rattle.tool_commands.specs.Outcomes.{if_done, object_of, outcome_status, source_bytes};
ghost use Rattle.tool_commands.specs.Ready.{CoresDue, IsMemory, OutcomesDue};
ghost use Rattle.fec_base.specs.Outside.{hearing, stream};
ghost use Rattle.tool_base.specs.Outside.{seen};
ghost use Rattle.object_file.specs.Receiving.{HasSource, HaveSource, HoldsCount};
ghost use Rattle.object_file.specs.Staged.{PassesOn};

use crate::{Ended, outcome_status, put_decode_report};
use fec_base::{NoMemory, Sink, Source, Watch, WriteFailed};
use fec_session::{Finished, Outcome, SourceBlock};
use object_file::{Received, STAGING_LEN, Staging, receive};
use packet_file::Header;
use std::alloc::Global;
use tool_base::{Refusal, Status, conclude, refuse, tell};

/// Decodes the packet file that the input is: its packets are received to the last, and then the
/// object is written where each block has one source alone.
pub fn decode<S: Source, K: Sink, R: Sink, W: Watch>(
    alloc: Global,
    draws: Option<u32>,
    early: bool,
    most: u32,
    input: &mut S,
    output: &mut K,
    report: &mut R,
    watch: W,
) -> Ended<W>
    ensures decodes { IsDecodeRun draws early most
        (seen (S.left input.old) (S.faults input.old) (K.held output.old) (K.faults output.old)
        (R.held report.old) (R.faults report.old))
        (seen (S.left input.new) (S.faults input.new) (K.held output.new) (K.faults output.new)
        (R.held report.new) (R.faults report.new))
        (hearing (W.told watch) (W.faults watch))
        (hearing (W.told result.watch) (W.faults result.watch)) result.status }
    ensures name { W.name result.watch ≡ W.name watch }
{
    match receive(alloc, draws, early, most, input, watch) {
        Ok(received) => finish(alloc, received, output, report),
        Err((refusal, watch)) => Ended {
            status: refuse(report, refusal),
            watch,
        },
    }
}

// Ends the decode of a file whose packets were received to the last.
fn finish<K: Sink, R: Sink, W: Watch>(
    alloc: Global,
    received: Received<W>,
    output: &mut K,
    report: &mut R,
) -> Ended<W>
    requires counted { length received.receiver.cores ≡ length (source_counts received.header) }
    requires sized { (b : ℕ) (d : Decoder) → b < length received.receiver.cores
        → (slice_index_or received.receiver.cores b d).matrix.k
        ≡ slice_index (source_counts received.header) b }
    ensures ends { EndsOrRefuses
        (CoresDue received.receiver.cores received.header.oti.length received.packets) IsMemory
        (stream (K.held output.old) (K.faults output.old))
        (stream (K.held output.new) (K.faults output.new))
        (stream (R.held report.old) (R.faults report.old))
        (stream (R.held report.new) (R.faults report.new)) result.status }
    ensures watch { result.watch ≡ received.receiver.watch }
{
    let Received {
        header,
        receiver,
        packets,
    } = received;
    match receiver.finish_all(alloc) {
        Ok(finished) => {
            let status = write_outcomes(alloc, &header, &finished, packets, output, report);
            Ended {
                status,
                watch: finished.into_watch(),
            }
        }
        Err((watch, NoMemory)) => Ended {
            status: refuse(report, Refusal::Memory),
            watch,
        },
    }
}

// Writes the object, where each block has a source, and reports how the blocks came out. All memory
// is taken before the first write.
fn write_outcomes<K: Sink, R: Sink, W: Watch>(
    alloc: Global,
    header: &Header,
    finished: &Finished<W>,
    packets: u64,
    output: &mut K,
    report: &mut R,
) -> Status
    requires counted { length finished.now.outcomes ≡ length (source_counts header.now) }
    requires sized { (b : ℕ) (o : Outcome) → b < length finished.now.outcomes
        → HoldsCount (slice_index (source_counts header.now) b)
        (slice_index_or finished.now.outcomes b o) }
    ensures ends { EndsOrRefuses
        (OutcomesDue finished.now.outcomes header.now.oti.length packets) IsMemory
        (stream (K.held output.old) (K.faults output.old))
        (stream (K.held output.new) (K.faults output.new))
        (stream (R.held report.old) (R.faults report.old))
        (stream (R.held report.new) (R.faults report.new)) result }
{
    let Ok(mut staging) = Staging::new(alloc, STAGING_LEN) else {
        return refuse(report, Refusal::Memory);
    };
    let status = outcome_status(finished);
    match write_if_done(&mut staging, output, header, finished, status) {
        Ok(()) => {}
        Err(WriteFailed) => return tell(report, Status::WriteFault),
    }
    let reported = put_decode_report(report, finished, packets);
    conclude(reported, status)
}

// Writes the object where the blocks have this status and each has its source, and else nothing.
fn write_if_done<K: Sink, W: Watch>(
    staging: &mut Staging,
    sink: &mut K,
    header: &Header,
    finished: &Finished<W>,
    status: Status,
) -> Result<(), WriteFailed>
    requires status { outcome_status finished.now.outcomes ≡ status }
    requires sized { (b : ℕ) (o : Outcome) → b < length finished.now.outcomes
        → HoldsCount (slice_index (source_counts header.now) b)
        (slice_index_or finished.now.outcomes b o) }
    requires counted { length finished.now.outcomes ≡ length (source_counts header.now) }
    requires empty { staging.old.bytes ≡ [] }
    requires room { staging.old.room ≡ 262144 }
    ensures written { OnOk result (Appends (K.held sink.old) (K.held sink.new)
        (if_done status (object_of finished.now.outcomes header.now.oti.length))) }
    ensures done { OnErr result (status ≡ Status.Done) }
    ensures cut { OnErr result (AppendsFront (K.held sink.old) (K.held sink.new)
        (object_of finished.now.outcomes header.now.oti.length)) }
    ensures cause { HasCause (K.faults sink.old) (K.faults sink.new) result }
{
    if status != Status::Done {
        return Ok(());
    }
    write_object(staging, sink, header, finished)?;
    Ok(())
}

// Writes the object, of which each block has its source, by a staging buffer in which nothing
// waits.
fn write_object<K: Sink, W: Watch>(
    staging: &mut Staging,
    sink: &mut K,
    header: &Header,
    finished: &Finished<W>,
) -> Result<(), WriteFailed>
    requires empty { staging.old.bytes ≡ [] }
    requires room { 65535 ≤ staging.old.room }
    requires counted { length finished.now.outcomes ≡ length (source_counts header.now) }
    requires known { HaveSource header.now finished.now.outcomes }
    ensures written { OnOk result
        (Appends (K.held sink.old) (K.held sink.new)
        (object_of finished.now.outcomes header.now.oti.length)) }
    ensures cut { OnErr result
        (AppendsFront (K.held sink.old) (K.held sink.new)
        (object_of finished.now.outcomes header.now.oti.length)) }
    ensures cause { HasCause (K.faults sink.old) (K.faults sink.new) result }
{
    put_object(staging, sink, header, finished)?;
    staging.flush(sink)?;
    Ok(())
}

// Puts the source symbols of all blocks one after the other, cut to the object's length.
fn put_object<K: Sink, W: Watch>(
    staging: &mut Staging,
    sink: &mut K,
    header: &Header,
    finished: &Finished<W>,
) -> Result<(), WriteFailed>
    requires room { 65535 ≤ staging.old.room }
    requires counted { length finished.now.outcomes ≡ length (source_counts header.now) }
    requires known { HaveSource header.now finished.now.outcomes }
    ensures passed { OnOk result
        (PassesOn (K.held sink.old) (K.held sink.new) staging.old.bytes staging.new.bytes
        (object_of finished.now.outcomes header.now.oti.length)) }
    ensures cut { OnErr result
        (AppendsFront (K.held sink.old) (K.held sink.new)
        (staging.old.bytes ++ object_of finished.now.outcomes header.now.oti.length)) }
    ensures cause { HasCause (K.faults sink.old) (K.faults sink.new) result }
{
    let mut rest = header.oti().length as usize;
    for block in 0..finished.count() {
        rest = put_source(
            staging,
            sink,
            finished.outcome(block),
            header.source_count(block),
            rest,
        )?;
    }
    Ok(())
}

// Puts the k source symbols of a block one after the other, cut to what is left of the object. Says
// how much is left behind them.
fn put_source<K: Sink>(
    staging: &mut Staging,
    sink: &mut K,
    outcome: &Outcome,
    k: u32,
    size: usize,
) -> Result<usize, WriteFailed>
    requires room { 65535 ≤ staging.old.room }
    requires known { HasSource k outcome.now }
    ensures passed { OnOk result
        (PassesOn (K.held sink.old) (K.held sink.new) staging.old.bytes staging.new.bytes
        (take size (source_bytes outcome.now))) }
    ensures left { IfOk result (λ rest. rest ≡ size - length (source_bytes outcome.now)) }
    ensures cut { OnErr result
        (AppendsFront (K.held sink.old) (K.held sink.new)
        (staging.old.bytes ++ take size (source_bytes outcome.now))) }
    ensures room { staging.new.room ≡ staging.old.room }
    ensures cause { HasCause (K.faults sink.old) (K.faults sink.new) result }
{
    match outcome {
        Outcome::Block(block) => put_symbols(staging, sink, block, k, size),
        _ => unreachable!(),
    }
}

// Puts the symbols of a source block one after the other, cut to what is left of the object.
fn put_symbols<K: Sink>(
    staging: &mut Staging,
    sink: &mut K,
    block: &SourceBlock,
    k: u32,
    size: usize,
) -> Result<usize, WriteFailed>
    requires room { 65535 ≤ staging.old.room }
    requires counted { k ≡ length block.now.source }
    ensures passed { OnOk result
        (PassesOn (K.held sink.old) (K.held sink.new) staging.old.bytes staging.new.bytes
        (take size (flat_map (λ symbol. symbol) block.now.source))) }
    ensures left { IfOk result (λ rest. rest
        ≡ size - length (flat_map (λ symbol. symbol) block.now.source)) }
    ensures cut { OnErr result
        (AppendsFront (K.held sink.old) (K.held sink.new)
        (staging.old.bytes ++ take size (flat_map (λ symbol. symbol) block.now.source))) }
    ensures room { staging.new.room ≡ staging.old.room }
    ensures cause { HasCause (K.faults sink.old) (K.faults sink.new) result }
{
    let mut rest = size;
    for position in 0..k {
        let symbol = block.symbol(position);
        let len = rest.min(symbol.len());
        staging.put(sink, &symbol[..len])?;
        rest -= len;
    }
    Ok(rest)
}
