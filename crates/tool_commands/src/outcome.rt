// How the blocks of a file came out, when all packets had come.
ghost use Rattle.std.specs.Prelude.{◌≡◌, ◌++◌, OnOk, OnErr, codes, decimal};
ghost use Rattle.std.specs.List.{list_any};
ghost use Rattle.std.specs.Io.KnownBytes.{Appends};
ghost use Rattle.fec_base.specs.Bytes.{AppendsFront};
ghost use Rattle.fec_base.specs.Causes.{HasCause};
ghost use Rattle.tool_commands.specs.Outcomes.{block_line, block_lines, decode_report};
ghost use Rattle.tool_commands.specs.Outcomes.{is_contradicted, is_undetermined, outcome_status};
ghost use Rattle.tool_commands.specs.Outcomes.{outcome_words};
ghost use Rattle.tool_base.specs.Lines.{spaced};

use fec_base::{Sink, Watch, WriteFailed};
use fec_session::{Finished, Outcome};
use tool_base::{Status, put_number, put_numbered, put_positions, put_text};

/// The status of a run whose blocks came out so: a block that no codeword fits decides, and then
/// one that is undetermined.
pub fn outcome_status<W: Watch>(finished: &Finished<W>) -> Status
    ensures { result ≡ outcome_status finished.now.outcomes }
{
    if has_contradicted(finished) {
        return Status::NoCodeword;
    }
    if has_undetermined(finished) {
        return Status::Undetermined;
    }
    Status::Done
}

// Whether no codeword fits some block.
fn has_contradicted<W: Watch>(finished: &Finished<W>) -> bool
    ensures { result ≡ list_any is_contradicted finished.now.outcomes }
{
    for block in 0..finished.count() {
        if is_contradicted(finished.outcome(block)) {
            return true;
        }
    }
    false
}

// Whether codewords of two sources fit some block.
fn has_undetermined<W: Watch>(finished: &Finished<W>) -> bool
    ensures { result ≡ list_any is_undetermined finished.now.outcomes }
{
    for block in 0..finished.count() {
        if is_undetermined(finished.outcome(block)) {
            return true;
        }
    }
    false
}

// Whether no codeword fits the block.
fn is_contradicted(outcome: &Outcome) -> bool
    ensures { result ≡ is_contradicted outcome.now }
{
    match outcome {
        Outcome::NoCodeword => true,
        Outcome::Block(_) | Outcome::Undetermined(_) => false,
    }
}

// Whether codewords of two sources fit the block.
fn is_undetermined(outcome: &Outcome) -> bool
    ensures { result ≡ is_undetermined outcome.now }
{
    match outcome {
        Outcome::Undetermined(_) => true,
        Outcome::Block(_) | Outcome::NoCodeword => false,
    }
}

/// Reports how each block came out, and the number of packets.
pub fn put_decode_report<R: Sink, W: Watch>(
    report: &mut R,
    finished: &Finished<W>,
    packets: u64,
) -> Result<(), WriteFailed>
    ensures written { OnOk result
        (Appends (R.held report.old) (R.held report.new)
        (decode_report finished.now.outcomes packets)) }
    ensures cut { OnErr result
        (AppendsFront (R.held report.old) (R.held report.new)
        (decode_report finished.now.outcomes packets)) }
    ensures cause { HasCause (R.faults report.old) (R.faults report.new) result }
{
    put_block_lines(report, finished)?;
    put_numbered(report, "packets ", packets)?;
    Ok(())
}

// Reports how each block came out.
fn put_block_lines<R: Sink, W: Watch>(
    report: &mut R,
    finished: &Finished<W>,
) -> Result<(), WriteFailed>
    ensures written { OnOk result
        (Appends (R.held report.old) (R.held report.new) (block_lines finished.now.outcomes)) }
    ensures cut { OnErr result
        (AppendsFront (R.held report.old) (R.held report.new) (block_lines finished.now.outcomes)) }
    ensures cause { HasCause (R.faults report.old) (R.faults report.new) result }
{
    for block in 0..finished.count() {
        put_block_line(report, block as u64, finished.outcome(block))?;
    }
    Ok(())
}

// Reports how a block came out.
fn put_block_line<R: Sink>(report: &mut R, block: u64, outcome: &Outcome) -> Result<(), WriteFailed>
    ensures written { OnOk result
        (Appends (R.held report.old) (R.held report.new) (block_line block outcome.now)) }
    ensures cut { OnErr result
        (AppendsFront (R.held report.old) (R.held report.new) (block_line block outcome.now)) }
    ensures cause { HasCause (R.faults report.old) (R.faults report.new) result }
{
    put_text(report, "block ")?;
    put_number(report, block)?;
    put_outcome(report, outcome)?;
    Ok(())
}

// Puts what is said of a block, behind its number.
fn put_outcome<R: Sink>(report: &mut R, outcome: &Outcome) -> Result<(), WriteFailed>
    ensures written { OnOk result
        (Appends (R.held report.old) (R.held report.new) (outcome_words outcome.now)) }
    ensures cut { OnErr result
        (AppendsFront (R.held report.old) (R.held report.new) (outcome_words outcome.now)) }
    ensures cause { HasCause (R.faults report.old) (R.faults report.new) result }
{
    match outcome {
        Outcome::NoCodeword => put_text(report, " contradicted\n"),
        Outcome::Block(block) => put_text(
            report,
            if block.by_peeling() {
                " peeled\n"
            } else {
                " solved\n"
            },
        ),
        Outcome::Undetermined(word) => put_word(report, word.positions()),
    }
}

// Says that a block is undetermined, and names the positions of its null word.
fn put_word<R: Sink>(report: &mut R, positions: &[u32]) -> Result<(), WriteFailed>
    ensures written { OnOk result
        (Appends (R.held report.old) (R.held report.new)
        (codes " undetermined" ++ spaced positions.now ++ codes "\n")) }
    ensures cut { OnErr result
        (AppendsFront (R.held report.old) (R.held report.new)
        (codes " undetermined" ++ spaced positions.now ++ codes "\n")) }
    ensures cause { HasCause (R.faults report.old) (R.faults report.new) result }
{
    put_text(report, " undetermined")?;
    put_positions(report, positions)?;
    put_text(report, "\n")?;
    Ok(())
}
