// The report of what is saved of a file's blocks.
ghost use Rattle.std.specs.Io.KnownBytes.{Appends};
ghost use Rattle.std.specs.Prelude.{◌<◌, ◌≡◌, ◌++◌, OnErr, OnOk, codes, decimal};
ghost use Rattle.fec_base.specs.Bytes.{AppendsFront};
ghost use Rattle.fec_base.specs.Causes.{HasCause};
ghost use Rattle.tool_base.specs.Refusals.{numbered};
ghost use Rattle.tool_reach.specs.Salvaged.{count_line, count_of, determined_count, open_line};
ghost use Rattle.tool_reach.specs.Salvaged.{open_lines, salvage_report, survey_line, survey_lines};
ghost use Rattle.tool_reach.specs.Salvaged.{survey_words, through_line};

use crate::surveying::count_determined;
use fec_base::{Sink, WriteFailed};
use partial_block::{Partial, Survey};
use tool_base::{put_number, put_numbered, put_positions, put_text};

// Reports what is saved of each block, and the number of packets.
pub(crate) fn put_salvage_report<R: Sink>(
    report: &mut R,
    surveys: &[Survey],
    packets: u64,
) -> Result<(), WriteFailed>
    ensures written { OnOk result (Appends (R.held report.old) (R.held report.new)
        (salvage_report surveys.now packets)) }
    ensures cut { OnErr result (AppendsFront (R.held report.old) (R.held report.new)
        (salvage_report surveys.now packets)) }
    ensures cause { HasCause (R.faults report.old) (R.faults report.new) result }
{
    put_survey_lines(report, surveys)?;
    put_numbered(report, "packets ", packets)?;
    Ok(())
}

// Reports what is saved of each block.
fn put_survey_lines<R: Sink>(report: &mut R, surveys: &[Survey]) -> Result<(), WriteFailed>
    ensures written { OnOk result (Appends (R.held report.old) (R.held report.new)
        (survey_lines surveys.now)) }
    ensures cut { OnErr result (AppendsFront (R.held report.old) (R.held report.new)
        (survey_lines surveys.now)) }
    ensures cause { HasCause (R.faults report.old) (R.faults report.new) result }
{
    for block in 0..surveys.len() {
        put_survey_line(report, block as u64, &surveys[block])?;
    }
    Ok(())
}

// Reports what is saved of a block.
fn put_survey_line<R: Sink>(report: &mut R, block: u64, survey: &Survey) -> Result<(), WriteFailed>
    ensures written { OnOk result (Appends (R.held report.old) (R.held report.new)
        (survey_line block survey.now)) }
    ensures cut { OnErr result (AppendsFront (R.held report.old) (R.held report.new)
        (survey_line block survey.now)) }
    ensures cause { HasCause (R.faults report.old) (R.faults report.new) result }
{
    put_text(report, "block ")?;
    put_number(report, block)?;
    put_survey_words(report, survey)?;
    Ok(())
}

// Puts what is said of a block, behind its number.
fn put_survey_words<R: Sink>(report: &mut R, survey: &Survey) -> Result<(), WriteFailed>
    ensures written { OnOk result (Appends (R.held report.old) (R.held report.new)
        (survey_words survey.now)) }
    ensures cut { OnErr result (AppendsFront (R.held report.old) (R.held report.new)
        (survey_words survey.now)) }
    ensures cause { HasCause (R.faults report.old) (R.faults report.new) result }
{
    match survey {
        Survey::NoCodeword => put_text(report, " contradicted\n"),
        Survey::Sources(partial) => {
            let determined = count_determined(partial);
            if determined == partial.count() {
                return put_text(report, " whole\n");
            }
            put_partial(report, partial, determined)
        }
    }
}

// Says how many source symbols are determined, and names what shows that the others aren't.
fn put_partial<R: Sink>(
    report: &mut R,
    partial: &Partial,
    determined: u32,
) -> Result<(), WriteFailed>
    requires { determined ≡ determined_count partial.now }
    ensures written { OnOk result (Appends (R.held report.old) (R.held report.new)
        (count_line partial.now ++ open_lines partial.now)) }
    ensures cut { OnErr result (AppendsFront (R.held report.old) (R.held report.new)
        (count_line partial.now ++ open_lines partial.now)) }
    ensures cause { HasCause (R.faults report.old) (R.faults report.new) result }
{
    put_counts(report, determined, partial.count())?;
    put_open_lines(report, partial)?;
    Ok(())
}

// Says how many source symbols are determined, of how many.
fn put_counts<R: Sink>(report: &mut R, determined: u32, count: u32) -> Result<(), WriteFailed>
    ensures written { OnOk result (Appends (R.held report.old) (R.held report.new)
        (codes " partial " ++ decimal determined ++ numbered (codes " of ") count)) }
    ensures cut { OnErr result (AppendsFront (R.held report.old) (R.held report.new)
        (codes " partial " ++ decimal determined ++ numbered (codes " of ") count)) }
    ensures cause { HasCause (R.faults report.old) (R.faults report.new) result }
{
    put_text(report, " partial ")?;
    put_number(report, determined as u64)?;
    put_numbered(report, " of ", count as u64)?;
    Ok(())
}

// Reports what shows that source symbols aren't determined, one line for each.
fn put_open_lines<R: Sink>(report: &mut R, partial: &Partial) -> Result<(), WriteFailed>
    ensures written { OnOk result (Appends (R.held report.old) (R.held report.new)
        (open_lines partial.now)) }
    ensures cut { OnErr result (AppendsFront (R.held report.old) (R.held report.new)
        (open_lines partial.now)) }
    ensures cause { HasCause (R.faults report.old) (R.faults report.new) result }
{
    for e in 0..partial.count() {
        put_open_line(report, partial, e)?;
    }
    Ok(())
}

// Reports what shows that source symbol e isn't determined, and nothing where it is.
fn put_open_line<R: Sink>(report: &mut R, partial: &Partial, e: u32) -> Result<(), WriteFailed>
    requires { e < count_of partial.now }
    ensures written { OnOk result (Appends (R.held report.old) (R.held report.new)
        (open_line partial.now e)) }
    ensures cut { OnErr result (AppendsFront (R.held report.old) (R.held report.new)
        (open_line partial.now e)) }
    ensures cause { HasCause (R.faults report.old) (R.faults report.new) result }
{
    match partial.through(e) {
        None => Ok(()),
        Some(word) => put_through(report, e, word.positions()),
    }
}

// Names the null word through source symbol e.
fn put_through<R: Sink>(report: &mut R, e: u32, positions: &[u32]) -> Result<(), WriteFailed>
    ensures written { OnOk result (Appends (R.held report.old) (R.held report.new)
        (through_line e positions.now)) }
    ensures cut { OnErr result (AppendsFront (R.held report.old) (R.held report.new)
        (through_line e positions.now)) }
    ensures cause { HasCause (R.faults report.old) (R.faults report.new) result }
{
    put_text(report, "symbol ")?;
    put_number(report, e as u64)?;
    put_text(report, " through")?;
    put_positions(report, positions)?;
    put_text(report, "\n")?;
    Ok(())
}
