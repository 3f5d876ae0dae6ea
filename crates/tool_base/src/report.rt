// The lines of a report.
ghost use Rattle.std.specs.Prelude.{◌++◌, OnErr, OnOk, codes, decimal};
ghost use Rattle.std.specs.Io.KnownBytes.{Appends};
ghost use Rattle.fec_base.specs.Bytes.{AppendsFront};
ghost use Rattle.fec_base.specs.Causes.{HasCause};
ghost use Rattle.tool_base.specs.Lines.{spaced};
ghost use Rattle.tool_base.specs.Refusals.{numbered};

use crate::{put_number, put_text};
use fec_base::{Sink, WriteFailed};

/// Reports a line with a number at its end.
pub fn put_numbered<R: Sink>(report: &mut R, text: &str, number: u64) -> Result<(), WriteFailed>
    ensures written { OnOk result
        (Appends (R.held report.old) (R.held report.new) (numbered text.now number)) }
    ensures cut { OnErr result
        (AppendsFront (R.held report.old) (R.held report.new) (numbered text.now number)) }
    ensures cause { HasCause (R.faults report.old) (R.faults report.new) result }
{
    put_text(report, text)?;
    put_number(report, number)?;
    put_text(report, "\n")?;
    Ok(())
}

/// Puts positions, each behind a space.
pub fn put_positions<R: Sink>(report: &mut R, positions: &[u32]) -> Result<(), WriteFailed>
    ensures written { OnOk result
        (Appends (R.held report.old) (R.held report.new) (spaced positions.now)) }
    ensures cut { OnErr result
        (AppendsFront (R.held report.old) (R.held report.new) (spaced positions.now)) }
    ensures cause { HasCause (R.faults report.old) (R.faults report.new) result }
{
    for position in positions {
        put_position(report, *position)?;
    }
    Ok(())
}

// Puts a position behind a space.
fn put_position<R: Sink>(report: &mut R, position: u32) -> Result<(), WriteFailed>
    ensures written { OnOk result
        (Appends (R.held report.old) (R.held report.new) (codes " " ++ decimal position)) }
    ensures cut { OnErr result
        (AppendsFront (R.held report.old) (R.held report.new) (codes " " ++ decimal position)) }
    ensures cause { HasCause (R.faults report.old) (R.faults report.new) result }
{
    put_text(report, " ")?;
    put_number(report, position as u64)?;
    Ok(())
}
