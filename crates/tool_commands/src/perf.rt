// The `perf` of a code: runs of a decoder over the symbols of a block that is made from a number.
ghost use Rattle.std.specs.Prelude.{◌≡◌, ◌≤◌, IfOk, IfErr, Some};
ghost use Rattle.tool_base.specs.BlockCode.{shape_matrix};
ghost use Rattle.tool_base.specs.Ranges.{IsInRange};
ghost use Rattle.fec_base.specs.Outside.{stream};
ghost use Rattle.tool_base.specs.Ending.{EndsOrRefuses};
ghost use Rattle.tool_commands.specs.PerfRun.{PerfDue, RefusesPerf, block_bytes};
ghost use Rattle.tool_commands.specs.Asking.{perf_command};

use crate::PerfOptions;
use fec_base::Sink;
use loss_runs::{RunsRefusal, write_runs};
use packet_file::{FileFault, Limit};
use std::alloc::Global;
use tool_base::{BuildRefusal, Built, Refusal, Status, codec_word, refuse, shape_code, tell};

// The greatest number of bytes that the symbols of a block may take.
const MAX_BLOCK_BYTES: u64 = 268_435_456;

/// Builds the code and makes runs of a decoder over the symbols of one block, whose bytes and whose
/// losses are drawn. A run's line is written before the next run begins. Nothing is read, and
/// nothing is reported where all goes well.
pub fn perf<K: Sink, R: Sink>(
    alloc: Global,
    options: &PerfOptions,
    output: &mut K,
    report: &mut R,
) -> Status
    requires { IsInRange (perf_command options.now) }
    ensures ends { EndsOrRefuses (PerfDue options.now) (RefusesPerf options.now)
        (stream (K.held output.old) (K.faults output.old))
        (stream (K.held output.new) (K.faults output.new))
        (stream (R.held report.old) (R.faults report.old))
        (stream (R.held report.new) (R.faults report.new)) result }
    ensures quiet { result ≡ Status.Done → report.new ≡ report.old }
{
    let built = match build_shape(alloc, options) {
        Ok(built) => built,
        Err(refusal) => return refuse(report, refusal),
    };
    let Built { code, draws } = built;
    // The calls tell that the matrix has the shape of a code's.
    prove!(code.k() <= code.n());
    let name = codec_word(options.shape.codec);
    match write_runs(alloc, &options.plan, code, name, draws, output) {
        Ok(()) => Status::Done,
        Err(RunsRefusal::Memory) => refuse(report, Refusal::Memory),
        Err(RunsRefusal::Output) => tell(report, Status::WriteFault),
    }
}

// The code of the options, where its block is within the limit.
fn build_shape(alloc: Global, options: &PerfOptions) -> Result<Built, Refusal>
    requires { IsInRange (perf_command options.now) }
    ensures small { IfOk result (λ built. block_bytes options.now ≤ 268435456) }
    ensures built { IfOk result
        (λ built. shape_matrix options.now.shape options.now.k options.now.n
        ≡ Some (record { matrix = built.code; draws = built.draws })) }
    ensures refusal { IfErr result (RefusesPerf options.now) }
{
    if options.n as u64 * options.plan.symbol as u64 > MAX_BLOCK_BYTES {
        return Err(Refusal::File(FileFault::TooLarge(Limit::BlockBytes)));
    }
    match shape_code(alloc, &options.shape, options.k, options.n) {
        Ok(built) => Ok(built),
        Err(BuildRefusal::DrawLimit) => Err(Refusal::Draws(0)),
        Err(BuildRefusal::NoMemory) => Err(Refusal::Memory),
    }
}
