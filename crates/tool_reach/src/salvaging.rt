// The `salvage` of a packet file.
ghost use Rattle.std.specs.Io.KnownBytes.{Appends};
ghost use Rattle.std.specs.Prelude.{◌≡◌, ◌≢◌, ◌<◌, ◌≤◌, All, IfOk, OnErr, OnOk, [], length};
ghost use Rattle.std.specs.Prelude.{slice_index_or, ℕ};
ghost use Rattle.fec_base.specs.Bytes.{AppendsFront};
ghost use Rattle.fec_base.specs.Causes.{HasCause};
ghost use Rattle.fec_base.specs.Outside.{stream};
ghost use Rattle.fec_base.specs.Symbol.{zero_symbol};
ghost use Rattle.peeling.specs.Decoder.{Decoder};
ghost use Rattle.tool_base.specs.Outside.{seen};
ghost use Rattle.tool_reach.specs.SalvageRun.{EndsKnowing, IsSalvageRun};
ghost use Rattle.tool_reach.specs.Salvaged.{if_fitting, salvage_status, salvaged_object};
ghost use Rattle.tool_reach.specs.Surveyed.{AreSurveys, CoresDue, HasLength, IsMemory, SurveysDue};

use crate::saved_object::write_object;
use crate::saved_report::put_salvage_report;
use crate::surveying::{survey_all, survey_status};
use block_cores::{TakenFile, take_file};
use fec_base::{NoMemory, Sink, Source, WriteFailed};
use object_file::{STAGING_LEN, Staging};
use packet_file::Header;
use partial_block::Survey;
use std::alloc::Global;
use tool_base::{Refusal, Status, conclude, refuse, tell};

// What is to be written of a file: what is saved of each block, a symbol of zero bytes, and a
// buffer.
#[derive(Drop)]
struct Made {
    surveys: Vec<Survey>,
    zeros: Vec<u8>,
    staging: Staging,
}

/// Takes the packets of the file that the input is, at most `packets`, to its end, and writes what
/// they determine of its object: zero bytes stand for each source symbol that they leave open, and
/// the report names the null word through it. Where no codeword fits the packets of some block
/// nothing is written. All memory is taken before the first write.
pub fn salvage<S: Source, K: Sink, R: Sink>(
    alloc: Global,
    draws: Option<u32>,
    packets: u32,
    input: &mut S,
    output: &mut K,
    report: &mut R,
) -> Status
    ensures { IsSalvageRun draws packets
        (seen (S.left input.old) (S.faults input.old) (K.held output.old) (K.faults output.old)
        (R.held report.old) (R.faults report.old))
        (seen (S.left input.new) (S.faults input.new) (K.held output.new) (K.faults output.new)
        (R.held report.new) (R.faults report.new)) result }
{
    match take_file(alloc, draws, packets, input) {
        Ok(taken) => finish(alloc, &taken, output, report),
        Err(refusal) => refuse(report, refusal),
    }
}

// Ends the run of a file whose packets were taken to its end.
fn finish<K: Sink, R: Sink>(
    alloc: Global,
    taken: &TakenFile,
    output: &mut K,
    report: &mut R,
) -> Status
    requires long { (b : ℕ) (d : Decoder) → b < length taken.now.cores
        → (slice_index_or taken.now.cores b d).len ≡ taken.now.header.oti.symbol }
    ensures { EndsKnowing (CoresDue taken.now.header taken.now.cores taken.now.packets) IsMemory
        (stream (K.held output.old) (K.faults output.old))
        (stream (K.held output.new) (K.faults output.new))
        (stream (R.held report.old) (R.faults report.old))
        (stream (R.held report.new) (R.faults report.new)) result }
{
    match make(alloc, taken) {
        Ok(made) => write_made(&taken.header, made, taken.packets, output, report),
        Err(NoMemory) => refuse(report, Refusal::Memory),
    }
}

// What is to be written.
fn make(alloc: Global, taken: &TakenFile) -> Result<Made, NoMemory>
    requires long { (b : ℕ) (d : Decoder) → b < length taken.now.cores
        → (slice_index_or taken.now.cores b d).len ≡ taken.now.header.oti.symbol }
    ensures surveys { IfOk result (λ made. AreSurveys taken.now.cores made.surveys.items) }
    ensures long { IfOk result
        (λ made. All (HasLength taken.now.header.oti.symbol) made.surveys.items) }
    ensures zeros { IfOk result (λ made. made.zeros.items
        ≡ zero_symbol taken.now.header.oti.symbol) }
    ensures empty { IfOk result (λ made. made.staging.bytes ≡ []) }
    ensures room { IfOk result (λ made. 65535 ≤ made.staging.room) }
{
    let surveys = survey_all(alloc, taken.cores.cores())?;
    let zeros = vec![in alloc; 0u8; taken.header.symbol_len() as usize]?;
    let staging = Staging::new(alloc, STAGING_LEN)?;
    Ok(Made {
        surveys,
        zeros,
        staging,
    })
}

// Writes what is saved, unless no codeword fits some block, and reports how the blocks came out.
fn write_made<K: Sink, R: Sink>(
    header: &Header,
    made: Made,
    packets: u64,
    output: &mut K,
    report: &mut R,
) -> Status
    requires long { All (HasLength header.now.oti.symbol) made.surveys.items }
    requires zeros { made.zeros.items ≡ zero_symbol header.now.oti.symbol }
    requires empty { made.staging.bytes ≡ [] }
    requires room { 65535 ≤ made.staging.room }
    ensures ends { EndsKnowing (SurveysDue header.now made.surveys.items packets) IsMemory
        (stream (K.held output.old) (K.faults output.old))
        (stream (K.held output.new) (K.faults output.new))
        (stream (R.held report.old) (R.faults report.old))
        (stream (R.held report.new) (R.faults report.new)) result }
{
    let Made {
        surveys,
        zeros,
        mut staging,
    } = made;
    let status = survey_status(&surveys);
    match write_if_fitting(&mut staging, output, header, &surveys, &zeros, status) {
        Ok(()) => {}
        Err(WriteFailed) => return tell(report, Status::WriteFault),
    }
    let reported = put_salvage_report(report, &surveys, packets);
    conclude(reported, status)
}

// Writes what is saved, unless the blocks have the status that no codeword fits one.
fn write_if_fitting<K: Sink>(
    staging: &mut Staging,
    sink: &mut K,
    header: &Header,
    surveys: &[Survey],
    zeros: &[u8],
    status: Status,
) -> Result<(), WriteFailed>
    requires empty { staging.old.bytes ≡ [] }
    requires room { 65535 ≤ staging.old.room }
    requires long { All (HasLength header.now.oti.symbol) surveys.now }
    requires zeros { zeros.now ≡ zero_symbol header.now.oti.symbol }
    ensures written { OnOk result (Appends (K.held sink.old) (K.held sink.new)
        (if_fitting status
        (salvaged_object header.now.oti.symbol surveys.now header.now.oti.length))) }
    ensures cut { OnErr result (AppendsFront (K.held sink.old) (K.held sink.new)
        (if_fitting status
        (salvaged_object header.now.oti.symbol surveys.now header.now.oti.length))) }
    ensures cause { HasCause (K.faults sink.old) (K.faults sink.new) result }
{
    if status == Status::NoCodeword {
        return Ok(());
    }
    let size = header.oti().length as usize;
    write_object(staging, sink, surveys, zeros, size)?;
    Ok(())
}
