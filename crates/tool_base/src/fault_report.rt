// What a run that ends early reports.
ghost use Rattle.std.specs.Prelude.{◌≡◌, OnErr, OnOk};
ghost use Rattle.std.specs.Io.KnownBytes.{Appends};
ghost use Rattle.fec_base.specs.Bytes.{AppendsFront};
ghost use Rattle.fec_base.specs.Causes.{HasCause};
ghost use Rattle.fec_base.specs.Outside.{stream};
ghost use Rattle.tool_base.specs.Refusals.{file_fault_text, limit_text, packet_text, padding_text};
ghost use Rattle.tool_base.specs.Refusals.{refusal_status, refusal_text};
ghost use Rattle.tool_base.specs.Written.{IsTold};

use crate::{Refusal, Status, put_number, put_numbered, put_text};
use fec_base::{Sink, WriteFailed};
use packet_file::{FileFault, Limit};

/// Ends a run that is refused: the report says why, as far as it takes the text.
pub fn refuse<R: Sink>(report: &mut R, refusal: Refusal) -> Status
    ensures status { result ≡ refusal_status refusal }
    ensures told { IsTold (refusal_text refusal)
        (stream (R.held report.old) (R.faults report.old))
        (stream (R.held report.new) (R.faults report.new)) }
{
    let _ = put_refusal(report, refusal);
    refusal.status()
}

// Reports a refusal.
fn put_refusal<R: Sink>(report: &mut R, refusal: Refusal) -> Result<(), WriteFailed>
    ensures written { OnOk result
        (Appends (R.held report.old) (R.held report.new) (refusal_text refusal)) }
    ensures cut { OnErr result
        (AppendsFront (R.held report.old) (R.held report.new) (refusal_text refusal)) }
    ensures cause { HasCause (R.faults report.old) (R.faults report.new) result }
{
    match refusal {
        Refusal::Memory => put_text(report, Status::Memory.fault_text()),
        Refusal::File(fault) => put_fault(report, fault),
        Refusal::Draws(block) => put_numbered(report, "fault: draws block ", block as u64),
        Refusal::Watch => put_text(report, Status::WatchFault.fault_text()),
    }
}

// Reports a fault of a file.
fn put_fault<R: Sink>(report: &mut R, fault: FileFault) -> Result<(), WriteFailed>
    ensures written { OnOk result
        (Appends (R.held report.old) (R.held report.new) (file_fault_text fault)) }
    ensures cut { OnErr result
        (AppendsFront (R.held report.old) (R.held report.new) (file_fault_text fault)) }
    ensures cause { HasCause (R.faults report.old) (R.faults report.new) result }
{
    match fault {
        FileFault::ShortHeader { have } => {
            put_numbered(report, "fault: header short ", have as u64)
        }
        FileFault::BadMagic => put_text(report, "fault: header magic\n"),
        FileFault::BadVersion(version) => {
            put_numbered(report, "fault: header version ", version as u64)
        }
        FileFault::BadCodec(number) => {
            put_numbered(report, "fault: header codec ", number as u64)
        }
        FileFault::BadReserved => put_text(report, "fault: header reserved\n"),
        FileFault::Field(fault) => {
            put_numbered(report, "fault: header field ", fault.number() as u64)
        }
        FileFault::ShortPacket { index, have } => {
            put_packet_fault(report, index, " short ", have as u64)
        }
        FileFault::NoSuchBlock { index, sbn } => {
            put_packet_fault(report, index, " block ", sbn as u64)
        }
        FileFault::NoSuchSymbol { index, esi } => {
            put_packet_fault(report, index, " symbol ", esi as u64)
        }
        FileFault::BadLength { index, length } => {
            put_packet_fault(report, index, " length ", length as u64)
        }
        FileFault::BadPadding { index } => put_padding_fault(report, index),
        FileFault::TooLarge(limit) => put_text(report, limit_text(limit)),
        FileFault::TooManyBlocks => put_text(report, "fault: limit blocks\n"),
        FileFault::TooManyPackets => put_text(report, "fault: limit packets\n"),
        FileFault::ReadFault => put_text(report, Status::ReadFault.fault_text()),
    }
}

// What is reported of a limit.
fn limit_text(limit: Limit) -> &'static str
    ensures { result.now ≡ limit_text limit }
{
    match limit {
        Limit::Length => "fault: limit length\n",
        Limit::BlockBytes => "fault: limit block-bytes\n",
        Limit::AllSymbols => "fault: limit symbols\n",
        Limit::AllBytes => "fault: limit bytes\n",
    }
}

// Reports a fault of packet number `index`.
fn put_packet_fault<R: Sink>(
    report: &mut R,
    index: u64,
    what: &str,
    number: u64,
) -> Result<(), WriteFailed>
    ensures written { OnOk result
        (Appends (R.held report.old) (R.held report.new) (packet_text index what.now number)) }
    ensures cut { OnErr result
        (AppendsFront (R.held report.old) (R.held report.new) (packet_text index what.now number)) }
    ensures cause { HasCause (R.faults report.old) (R.faults report.new) result }
{
    put_text(report, "fault: packet ")?;
    put_number(report, index)?;
    put_numbered(report, what, number)?;
    Ok(())
}

// Reports that the padding of packet number `index` isn't zero.
fn put_padding_fault<R: Sink>(report: &mut R, index: u64) -> Result<(), WriteFailed>
    ensures written { OnOk result
        (Appends (R.held report.old) (R.held report.new) (padding_text index)) }
    ensures cut { OnErr result
        (AppendsFront (R.held report.old) (R.held report.new) (padding_text index)) }
    ensures cause { HasCause (R.faults report.old) (R.faults report.new) result }
{
    put_text(report, "fault: packet ")?;
    put_number(report, index)?;
    put_text(report, " padding\n")?;
    Ok(())
}
