// The `frame` of a datagram stream.
ghost use Rattle.std.specs.Prelude.{◌≤◌};
ghost use Rattle.datagram_pass.specs.declared.kind.Way.TheVariants.{Framing};
ghost use Rattle.tool_base.specs.Outside.{seen};
ghost use Rattle.tool_reach.specs.DatagramRun.{IsDatagramRun};

use crate::datagram_run::run_datagrams;
use datagram_pass::Way;
use fec_base::{Sink, Source};
use std::alloc::Global;
use tool_base::Status;

/// Writes the frame of each datagram of the stream that the input is: the frames are the symbols of
/// an object. One datagram is in memory at a time, and its frame is handed over before a byte
/// behind the datagram is asked for. All memory is taken before the first byte is. The report has
/// the number of datagrams.
pub fn frame<S: Source, K: Sink, R: Sink>(
    alloc: Global,
    symbol: u32,
    input: &mut S,
    output: &mut K,
    report: &mut R,
) -> Status
    requires least { 3 ≤ symbol }
    requires most { symbol ≤ 65535 }
    ensures { IsDatagramRun Framing symbol
        (seen (S.left input.old) (S.faults input.old) (K.held output.old) (K.faults output.old)
        (R.held report.old) (R.faults report.old))
        (seen (S.left input.new) (S.faults input.new) (K.held output.new) (K.faults output.new)
        (R.held report.new) (R.faults report.new)) result }
{
    run_datagrams(alloc, Way::Framing, symbol, input, output, report)
}
