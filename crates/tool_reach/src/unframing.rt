// The `unframe` of frames.
ghost use Rattle.std.specs.Prelude.{◌≤◌};
ghost use Rattle.datagram_pass.specs.declared.kind.Way.TheVariants.{Unframing};
ghost use Rattle.tool_base.specs.Outside.{seen};
ghost use Rattle.tool_reach.specs.DatagramRun.{IsDatagramRun};

use crate::datagram_run::run_datagrams;
use datagram_pass::Way;
use fec_base::{Sink, Source};
use std::alloc::Global;
use tool_base::Status;

/// Writes the datagram of each frame that the input has, one after the other: a datagram stream.
/// One frame is in memory at a time, and its datagram is handed over before a byte behind the frame
/// is asked for. All memory is taken before the first byte is. The report has the number of
/// datagrams.
pub fn unframe<S: Source, K: Sink, R: Sink>(
    alloc: Global,
    symbol: u32,
    input: &mut S,
    output: &mut K,
    report: &mut R,
) -> Status
    requires least { 3 ≤ symbol }
    requires most { symbol ≤ 65535 }
    ensures { IsDatagramRun Unframing symbol
        (seen (S.left input.old) (S.faults input.old) (K.held output.old) (K.faults output.old)
        (R.held report.old) (R.faults report.old))
        (seen (S.left input.new) (S.faults input.new) (K.held output.new) (K.faults output.new)
        (R.held report.new) (R.faults report.new)) result }
{
    run_datagrams(alloc, Way::Unframing, symbol, input, output, report)
}
