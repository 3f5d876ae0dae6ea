// The lines of the output.
ghost use Rattle.std.specs.Prelude.{OnOk, ◌++◌, codes};
ghost use Rattle.std.specs.Io.KnownBytes.{Appends};
ghost use Rattle.fec_base.specs.Causes.{HasCause};
ghost use Rattle.one_block.specs.Lines.{line, spaced, symbol_line};

use fec_base::{Sink, WriteFailed, write_all};
use itoa::{Buffer, Integer};

/// Prints a line: the words, and the numbers behind them.
pub fn put_line<S: Sink, I: Integer>(
    out: &mut S,
    words: &str,
    numbers: &[I],
) -> Result<(), WriteFailed>
    ensures written { OnOk result
        (Appends (S.held out.old) (S.held out.new) (line words.now (spaced I.text numbers.now))) }
    ensures cause { HasCause (S.faults out.old) (S.faults out.new) result }
{
    write_all(out, words.as_bytes())?;
    put_numbers(out, numbers)?;
    write_all(out, b"\n")?;
    Ok(())
}

/// Prints the line of a symbol: the word, its identifier, and its bytes.
pub fn put_symbol<S: Sink>(
    out: &mut S,
    word: &str,
    esi: u32,
    bytes: &[u8],
) -> Result<(), WriteFailed>
    ensures written { OnOk result
        (Appends (S.held out.old) (S.held out.new) (symbol_line word.now esi bytes.now)) }
    ensures cause { HasCause (S.faults out.old) (S.faults out.new) result }
{
    write_all(out, word.as_bytes())?;
    put_number(out, esi)?;
    write_all(out, b":")?;
    put_numbers(out, bytes)?;
    write_all(out, b"\n")?;
    Ok(())
}

// Prints the numbers, each behind a space.
fn put_numbers<S: Sink, I: Integer>(out: &mut S, numbers: &[I]) -> Result<(), WriteFailed>
    ensures written { OnOk result
        (Appends (S.held out.old) (S.held out.new) (spaced I.text numbers.now)) }
    ensures cause { HasCause (S.faults out.old) (S.faults out.new) result }
{
    for number in numbers {
        put_number(out, *number)?;
    }
    Ok(())
}

// Prints a number behind a space.
fn put_number<S: Sink, I: Integer>(out: &mut S, number: I) -> Result<(), WriteFailed>
    ensures written { OnOk result
        (Appends (S.held out.old) (S.held out.new) (codes " " ++ I.text number)) }
    ensures cause { HasCause (S.faults out.old) (S.faults out.new) result }
{
    write_all(out, b" ")?;
    write_all(out, Buffer::new().format(number).as_bytes())?;
    Ok(())
}
