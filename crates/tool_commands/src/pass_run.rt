// The `lose`, the `show` and the `upgrade` of a packet file.
ghost use Rattle.std.specs.Prelude.{◌≤◌, ◌++◌, OnErr, OnOk, codes, decimal};
ghost use Rattle.std.specs.Io.KnownBytes.{Appends};
ghost use Rattle.fec_base.specs.Bytes.{AppendsFront};
ghost use Rattle.fec_base.specs.Causes.{HasCause};
ghost use Rattle.packet_pass.specs.Ranges.{IsPass};
ghost use Rattle.tool_base.specs.Outside.{seen};
ghost use Rattle.tool_commands.specs.PassRun.{IsPassRun, pass_report};
ghost use Rattle.tool_base.specs.Refusals.{numbered};

use fec_base::{Sink, Source, WriteFailed};
use packet_pass::{Pass, PassRefusal, Passed, pass};
use std::alloc::Global;
use tool_base::{Refusal, Status, conclude, put_number, put_numbered, put_text, refuse, tell};

/// Passes once over the packet file that the input is, of at most `most` packets, and writes it
/// without the packets that are lost, shows it, or writes it in version 2. One packet is in memory
/// at a time, and each packet's text is handed over before a byte behind the packet is asked for. A
/// pass that loses packets reports how many it read and how many it kept, and one that upgrades how
/// many there are.
pub fn run_pass<S: Source, K: Sink, R: Sink>(
    alloc: Global,
    what: Pass,
    most: u32,
    input: &mut S,
    output: &mut K,
    report: &mut R,
) -> Status
    requires pass { IsPass what }
    requires most { most ≤ 16777216 }
    ensures { IsPassRun what most
        (seen (S.left input.old) (S.faults input.old) (K.held output.old) (K.faults output.old)
        (R.held report.old) (R.faults report.old))
        (seen (S.left input.new) (S.faults input.new) (K.held output.new) (K.faults output.new)
        (R.held report.new) (R.faults report.new)) result }
{
    match pass(alloc, what, most, input, output) {
        Ok(passed) => conclude(put_pass_report(report, what, passed), Status::Done),
        Err(PassRefusal::Memory) => refuse(report, Refusal::Memory),
        Err(PassRefusal::File(fault)) => refuse(report, Refusal::File(fault)),
        Err(PassRefusal::Output) => tell(report, Status::WriteFault),
    }
}

// Puts the report of a pass to the end of the input.
fn put_pass_report<R: Sink>(report: &mut R, what: Pass, passed: Passed) -> Result<(), WriteFailed>
    ensures written { OnOk result
        (Appends (R.held report.old) (R.held report.new) (pass_report what passed)) }
    ensures cut { OnErr result
        (AppendsFront (R.held report.old) (R.held report.new) (pass_report what passed)) }
    ensures cause { HasCause (R.faults report.old) (R.faults report.new) result }
{
    match what {
        Pass::Lose { .. } => put_counts(report, passed.packets, passed.kept),
        Pass::Show => Ok(()),
        Pass::Upgrade => put_numbered(report, "packets ", passed.packets),
    }
}

// Puts how many packets were read, and how many of them are kept.
fn put_counts<R: Sink>(report: &mut R, packets: u64, kept: u64) -> Result<(), WriteFailed>
    ensures written { OnOk result (Appends (R.held report.old) (R.held report.new)
        (codes "read " ++ decimal packets ++ numbered (codes " kept ") kept)) }
    ensures cut { OnErr result (AppendsFront (R.held report.old) (R.held report.new)
        (codes "read " ++ decimal packets ++ numbered (codes " kept ") kept)) }
    ensures cause { HasCause (R.faults report.old) (R.faults report.new) result }
{
    put_text(report, "read ")?;
    put_number(report, packets)?;
    put_numbered(report, " kept ", kept)?;
    Ok(())
}
