// The `encode` of an object: its packet file, made ready and written.
ghost use Rattle.std.specs.Prelude.{◌≡◌, ◌<◌, [], ℕ, List, All, length, IfOk, IfErr, OnOk, OnErr};
ghost use Rattle.std.specs.Io.KnownBytes.{Appends};
ghost use Rattle.tool_base.specs.Ranges.{IsInRange};
ghost use Rattle.fec_base.specs.Bytes.{AppendsFront};
ghost use Rattle.fec_base.specs.Causes.{HasCause};
ghost use Rattle.packet_file.specs.Taking.{TakesAtMost};
ghost use Rattle.tool_commands.specs.EncodeRun.{IsEncodeRun, ReadsObject, RefusesEncode};
ghost use Rattle.object_file.specs.Taken.{most_taken};
ghost use Rattle.object_file.specs.File.{encode_report};
ghost use Rattle.object_file.specs.Made.{AreCodewords, IsMade, IsReadyToWrite};
ghost use Rattle.object_file.specs.Options.{header_for};
ghost use Rattle.object_file.specs.Asking.{encode_command};
ghost use Rattle.fec_base.specs.Outside.{stream};
ghost use Rattle.tool_base.specs.Outside.{seen};
ghost use Rattle.tool_base.specs.Ending.{EndsBy, FrontOf};
ghost use Rattle.tool_commands.specs.Ready.{FileDue};

use fec_base::{Sink, Source, WriteFailed};
use object_file::{EncodeOptions, Made, WriteRefusal, make_file, read_object, write_file};
use packet_file::Header;
use sparse_rows::Code;
use std::alloc::Global;
use tool_base::{Refusal, Status, conclude, put_numbered, refuse, tell};

/// Encodes the input.
pub fn encode<S: Source, K: Sink, R: Sink>(
    alloc: Global,
    options: &EncodeOptions,
    input: &mut S,
    output: &mut K,
    report: &mut R,
) -> Status
    requires { IsInRange (encode_command options.now) }
    ensures { IsEncodeRun options.now
        (seen (S.left input.old) (S.faults input.old) (K.held output.old) (K.faults output.old)
        (R.held report.old) (R.faults report.old))
        (seen (S.left input.new) (S.faults input.new) (K.held output.new) (K.faults output.new)
        (R.held report.new) (R.faults report.new)) result }
{
    match read_and_make(alloc, options, input) {
        Ok(made) => deliver(alloc, made, output, report),
        Err(refusal) => refuse(report, refusal),
    }
}

// Reads the input and makes its packet file ready, or says why there is none.
fn read_and_make<S: Source>(
    alloc: Global,
    options: &EncodeOptions,
    input: &mut S,
) -> Result<Made, Refusal>
    requires { IsInRange (encode_command options.now) }
    ensures object { IfOk result (λ made. (object : List ℕ)
        × ReadsObject options.now (S.left input.old) (S.left input.new) object
        × IsMade (header_for options.now (length object)) options.now.shape.draws object made) }
    ensures refusal { IfErr result (RefusesEncode options.now
        (stream (S.left input.old) (S.faults input.old))
        (stream (S.left input.new) (S.faults input.new))) }
    ensures taken { TakesAtMost (S.left input.old) (S.left input.new) most_taken }
{
    let object = read_object(alloc, input)?;
    make_file(alloc, options, object)
}

// Writes the packet file and then the report.
fn deliver<K: Sink, R: Sink>(alloc: Global, made: Made, output: &mut K, report: &mut R) -> Status
    requires ready { IsReadyToWrite made.header made.codes.items made.object.items }
    requires empty { made.staging.bytes ≡ [] }
    requires room { made.staging.room ≡ 262144 }
    ensures ends { (words : List (List (List ℕ)))
        → AreCodewords made.header made.codes.items made.object.items words
        → EndsBy (FileDue made.header words) (FrontOf (FileDue made.header words))
        (stream (K.held output.old) (K.faults output.old))
        (stream (K.held output.new) (K.faults output.new))
        (stream (R.held report.old) (R.faults report.old))
        (stream (R.held report.new) (R.faults report.new)) result }
    ensures bytes { All (λ byte. byte < 256) made.object.items }
{
    let Made {
        header,
        object,
        codes,
        mut staging,
    } = made;
    match write_file(alloc, &mut staging, output, &header, &codes, &object) {
        Ok(()) => {}
        Err(WriteRefusal::Memory) => return refuse(report, Refusal::Memory),
        Err(WriteRefusal::Output) => return tell(report, Status::WriteFault),
    }
    let reported = put_encode_report(report, header.plan().count(), header.total_symbols());
    conclude(reported, Status::Done)
}

// Reports how many blocks and packets were written.
fn put_encode_report<R: Sink>(report: &mut R, blocks: u32, packets: u64) -> Result<(), WriteFailed>
    ensures written { OnOk result
        (Appends (R.held report.old) (R.held report.new) (encode_report blocks packets)) }
    ensures cut { OnErr result
        (AppendsFront (R.held report.old) (R.held report.new) (encode_report blocks packets)) }
    ensures cause { HasCause (R.faults report.old) (R.faults report.new) result }
{
    put_numbered(report, "blocks ", blocks as u64)?;
    put_numbered(report, "packets ", packets)?;
    Ok(())
}
