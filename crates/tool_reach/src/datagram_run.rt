// A pass over datagrams with its report.
ghost use Rattle.std.specs.Prelude.{◌≡◌, ◌≤◌, ◌++◌, OnErr, OnOk, codes};
ghost use Rattle.std.specs.Io.KnownBytes.{Appends};
ghost use Rattle.fec_base.specs.Bytes.{AppendsFront};
ghost use Rattle.fec_base.specs.Causes.{HasCause};
ghost use Rattle.fec_base.specs.Outside.{stream};
ghost use Rattle.tool_base.specs.Outside.{seen};
ghost use Rattle.tool_base.specs.Written.{IsTold};
ghost use Rattle.tool_reach.specs.DatagramRun.{IsDatagramRun, datagram_fault_status};
ghost use Rattle.tool_reach.specs.DatagramRun.{datagram_fault_text, item_fault_text, item_head};
ghost use Rattle.tool_reach.specs.DatagramRun.{item_text};

use datagram_pass::{DatagramFault, DatagramRefusal, Way, pass_datagrams};
use fec_base::{Sink, Source, WriteFailed};
use packet_file::FileFault;
use std::alloc::Global;
use tool_base::{Refusal, Status, conclude, put_number, put_numbered, put_text, refuse, tell};

/// Passes once over the datagrams that the input is, and reports their number, or why the pass ends
/// before the end of the input.
pub fn run_datagrams<S: Source, K: Sink, R: Sink>(
    alloc: Global,
    way: Way,
    symbol: u32,
    input: &mut S,
    output: &mut K,
    report: &mut R,
) -> Status
    requires least { 3 ≤ symbol }
    requires most { symbol ≤ 65535 }
    ensures { IsDatagramRun way symbol
        (seen (S.left input.old) (S.faults input.old) (K.held output.old) (K.faults output.old)
        (R.held report.old) (R.faults report.old))
        (seen (S.left input.new) (S.faults input.new) (K.held output.new) (K.faults output.new)
        (R.held report.new) (R.faults report.new)) result }
{
    match pass_datagrams(alloc, way, symbol, input, output) {
        Ok(count) => conclude(put_numbered(report, "datagrams ", count), Status::Done),
        Err(DatagramRefusal::Memory) => refuse(report, Refusal::Memory),
        Err(DatagramRefusal::Read) => refuse(report, Refusal::File(FileFault::ReadFault)),
        Err(DatagramRefusal::Fault(fault)) => refuse_input(report, way, fault),
        Err(DatagramRefusal::Output) => tell(report, Status::WriteFault),
    }
}

// Ends a run at a fault of its input: the report says which, as far as it takes the text.
fn refuse_input<R: Sink>(report: &mut R, way: Way, fault: DatagramFault) -> Status
    ensures status { result ≡ datagram_fault_status fault }
    ensures told { IsTold (datagram_fault_text way fault)
        (stream (R.held report.old) (R.faults report.old))
        (stream (R.held report.new) (R.faults report.new)) }
{
    let _ = put_fault(report, way, fault);
    status_of_fault(fault)
}

// The status of a fault.
fn status_of_fault(fault: DatagramFault) -> Status
    ensures { result ≡ datagram_fault_status fault }
{
    match fault {
        DatagramFault::TooMany => Status::Limit,
        _ => Status::Malformed,
    }
}

// Reports a fault.
fn put_fault<R: Sink>(report: &mut R, way: Way, fault: DatagramFault) -> Result<(), WriteFailed>
    ensures written { OnOk result
        (Appends (R.held report.old) (R.held report.new) (datagram_fault_text way fault)) }
    ensures cut { OnErr result
        (AppendsFront (R.held report.old) (R.held report.new) (datagram_fault_text way fault)) }
    ensures cause { HasCause (R.faults report.old) (R.faults report.new) result }
{
    match fault {
        DatagramFault::Short { index, have } => {
            put_item_fault(report, way, index, " short ", have as u64)
        }
        DatagramFault::TooMany => put_text(report, "fault: limit length\n"),
        DatagramFault::Long { index, length } => {
            put_item_fault(report, way, index, " long ", length as u64)
        }
        DatagramFault::LengthPast { index, length } => {
            put_item_fault(report, way, index, " length ", length as u64)
        }
        DatagramFault::PaddingSet { index } => put_padding_fault(report, way, index),
    }
}

// Reports how the report of a fault begins.
fn put_item_text<R: Sink>(report: &mut R, way: Way) -> Result<(), WriteFailed>
    ensures written { OnOk result
        (Appends (R.held report.old) (R.held report.new) (item_text way)) }
    ensures cut { OnErr result
        (AppendsFront (R.held report.old) (R.held report.new) (item_text way)) }
    ensures cause { HasCause (R.faults report.old) (R.faults report.new) result }
{
    match way {
        Way::Framing => put_text(report, "fault: datagram "),
        Way::Unframing => put_text(report, "fault: symbol "),
    }
}

// Reports that there is a fault of datagram or symbol number `index`.
fn put_item<R: Sink>(report: &mut R, way: Way, index: u64) -> Result<(), WriteFailed>
    ensures written { OnOk result
        (Appends (R.held report.old) (R.held report.new) (item_head way index)) }
    ensures cut { OnErr result
        (AppendsFront (R.held report.old) (R.held report.new) (item_head way index)) }
    ensures cause { HasCause (R.faults report.old) (R.faults report.new) result }
{
    put_item_text(report, way)?;
    put_number(report, index)?;
    Ok(())
}

// Reports a fault of datagram or symbol number `index`, with a number.
fn put_item_fault<R: Sink>(
    report: &mut R,
    way: Way,
    index: u64,
    what: &str,
    number: u64,
) -> Result<(), WriteFailed>
    ensures written { OnOk result
        (Appends (R.held report.old) (R.held report.new)
        (item_fault_text way index what.now number)) }
    ensures cut { OnErr result
        (AppendsFront (R.held report.old) (R.held report.new)
        (item_fault_text way index what.now number)) }
    ensures cause { HasCause (R.faults report.old) (R.faults report.new) result }
{
    put_item(report, way, index)?;
    put_numbered(report, what, number)?;
    Ok(())
}

// Reports the padding of symbol number `index`.
fn put_padding_fault<R: Sink>(report: &mut R, way: Way, index: u64) -> Result<(), WriteFailed>
    ensures written { OnOk result
        (Appends (R.held report.old) (R.held report.new)
        (item_head way index ++ codes " padding\n")) }
    ensures cut { OnErr result
        (AppendsFront (R.held report.old) (R.held report.new)
        (item_head way index ++ codes " padding\n")) }
    ensures cause { HasCause (R.faults report.old) (R.faults report.new) result }
{
    put_item(report, way, index)?;
    put_text(report, " padding\n")?;
    Ok(())
}
