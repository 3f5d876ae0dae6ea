// The top call.
ghost use Rattle.std.specs.Prelude.{◌≡◌, ◌≢◌, Some};
ghost use Rattle.tool_base.specs.Ranges.{IsInRange};
ghost use Rattle.fec_base.specs.Outside.{hearing};
ghost use Rattle.tool_base.specs.Outside.{seen};
ghost use Rattle.tool_commands.specs.Run.{AsksNoDecode, IsCommandRun, IsNoDecode, IsRun};

use crate::decode::decode;
use crate::encode::encode;
use crate::perf::perf;
use crate::{PerfOptions, run_pass};
use fec_base::{NoMemory, Sink, Source, Watch, Words};
use loss_runs::RunPlan;
use object_file::EncodeOptions;
use packet_pass::Pass;
use std::alloc::Global;
use tool_base::{Command, Refusal, Status, read_words, refuse, tell};
use tool_reach::{frame, salvage, unframe};

/// How a run ended, and the watch that was handed in.
#[derive(Drop)]
pub struct Ended<W = Box<dyn Watch>> {
    pub status: Status,
    pub watch: W,
}

/// Runs a command: the words say which, the input is read, the output and the report are written,
/// and the watch comes back.
///
/// The commands are `encode`, `decode`, `salvage`, `lose`, `show`, `upgrade`, `perf`, `frame` and
/// `unframe` (docs/COMMANDS.md). At `Done` the output is the packet file of the whole input, the
/// object that the packets of the input determine, the packet file without the packets that are
/// lost, or its lines, or the packet file in version 2, or the lines of the runs of a decoder, or
/// the frames of a stream of datagrams, or the stream of frames; and the report is its counts. At
/// `Undetermined` a `salvage` has written the object, with zero bytes in place of what the packets
/// leave open. At `WriteFault` the output has a front of what it was to have, or the whole of it
/// where the report alone failed. An `encode` or a `perf` that ends for want of memory may have
/// written a part of its output, from its front on. A `lose`, a `show` or an `upgrade` whose input
/// fails or is no packet file, or has a packet that can't be passed on, has written the text of the
/// packets before, and a `frame` or an `unframe` whose input fails or has a fault what goes for the
/// datagrams before. At every other status nothing was written to the output. A `decode` tells the
/// watch, after each packet and before a further byte is read, of each symbol that this packet
/// makes known.
pub fn run<S: Source, K: Sink, R: Sink>(
    alloc: Global,
    words: &Words,
    input: &mut S,
    output: &mut K,
    report: &mut R,
    watch: Box<dyn Watch>,
) -> Ended
    ensures runs { IsRun words.now
        (seen (S.left input.old) (S.faults input.old) (K.held output.old) (K.faults output.old)
        (R.held report.old) (R.faults report.old))
        (seen (S.left input.new) (S.faults input.new) (K.held output.new) (K.faults output.new)
        (R.held report.new) (R.faults report.new))
        (hearing (told watch) ((Watch-box watch).faults watch.value))
        (hearing (told result.watch) ((Watch-box result.watch).faults result.watch.value))
        result.status }

    // The watch is the one that was handed in, and commands other than decode leave it as it is.
    ensures name { name result.watch ≡ name watch }
    ensures watch { AsksNoDecode words.now → result.watch ≡ watch }

    // Words that mean no command are refused before anything is read.
    ensures unread { result.status ≡ Status.Usage → input.new ≡ input.old }
{
    run_words(alloc, words, input, output, report, watch)
}

// Runs the command that the words mean.
fn run_words<S: Source, K: Sink, R: Sink, W: Watch>(
    alloc: Global,
    words: &Words,
    input: &mut S,
    output: &mut K,
    report: &mut R,
    watch: W,
) -> Ended<W>
    ensures runs { IsRun words.now
        (seen (S.left input.old) (S.faults input.old) (K.held output.old) (K.faults output.old)
        (R.held report.old) (R.faults report.old))
        (seen (S.left input.new) (S.faults input.new) (K.held output.new) (K.faults output.new)
        (R.held report.new) (R.faults report.new))
        (hearing (W.told watch) (W.faults watch))
        (hearing (W.told result.watch) (W.faults result.watch)) result.status }
    ensures name { W.name result.watch ≡ W.name watch }
    ensures watch { AsksNoDecode words.now → result.watch ≡ watch }
    ensures unread { result.status ≡ Status.Usage → input.new ≡ input.old }
{
    match read_words(alloc, words) {
        Ok(Some(command)) => run_command(alloc, command, input, output, report, watch),
        Ok(None) => {
            let status = tell(report, Status::Usage);
            Ended { status, watch }
        }
        Err(NoMemory) => {
            let status = refuse(report, Refusal::Memory);
            Ended { status, watch }
        }
    }
}

// Runs a command.
fn run_command<S: Source, K: Sink, R: Sink, W: Watch>(
    alloc: Global,
    command: Command,
    input: &mut S,
    output: &mut K,
    report: &mut R,
    watch: W,
) -> Ended<W>
    requires { IsInRange command }
    ensures runs { IsCommandRun (Some command)
        (seen (S.left input.old) (S.faults input.old) (K.held output.old) (K.faults output.old)
        (R.held report.old) (R.faults report.old))
        (seen (S.left input.new) (S.faults input.new) (K.held output.new) (K.faults output.new)
        (R.held report.new) (R.faults report.new))
        (hearing (W.told watch) (W.faults watch))
        (hearing (W.told result.watch) (W.faults result.watch)) result.status }
    ensures name { W.name result.watch ≡ W.name watch }
    ensures watch { IsNoDecode (Some command) → result.watch ≡ watch }
    ensures used { result.status ≢ Status.Usage }
{
    match command {
        Command::Encode {
            shape,
            symbol,
            block,
            max_n,
            format,
        } => {
            let options = EncodeOptions {
                shape,
                symbol,
                block,
                max_n,
                format,
            };
            let status = encode(alloc, &options, input, output, report);
            Ended { status, watch }
        }
        Command::Decode {
            draws,
            early,
            packets,
        } => decode(alloc, draws, early, packets, input, output, report, watch),
        Command::Lose {
            loss,
            seed,
            packets,
        } => {
            let lose = Pass::Lose { loss, seed };
            let status = run_pass(alloc, lose, packets, input, output, report);
            Ended { status, watch }
        }
        Command::Show { packets } => {
            let status = run_pass(alloc, Pass::Show, packets, input, output, report);
            Ended { status, watch }
        }
        Command::Upgrade { packets } => {
            let status = run_pass(alloc, Pass::Upgrade, packets, input, output, report);
            Ended { status, watch }
        }
        Command::Perf {
            shape,
            symbol,
            k,
            n,
            loss,
            random,
            runs,
            run_seed,
            threshold,
        } => {
            let plan = RunPlan {
                symbol,
                loss,
                random,
                runs,
                seed: run_seed,
                threshold,
            };
            let options = PerfOptions { shape, k, n, plan };
            let status = perf(alloc, &options, output, report);
            Ended { status, watch }
        }
        Command::Frame { symbol } => {
            let status = frame(alloc, symbol, input, output, report);
            Ended { status, watch }
        }
        Command::Unframe { symbol } => {
            let status = unframe(alloc, symbol, input, output, report);
            Ended { status, watch }
        }
        Command::Salvage { draws, packets } => {
            let status = salvage(alloc, draws, packets, input, output, report);
            Ended { status, watch }
        }
    }
}
