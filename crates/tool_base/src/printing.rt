// Texts and numbers, put behind what a sink holds.
ghost use Rattle.std.specs.Prelude.{OnErr, OnOk, decimal};
ghost use Rattle.std.specs.Io.KnownBytes.{Appends};
ghost use Rattle.fec_base.specs.Bytes.{AppendsFront};
ghost use Rattle.fec_base.specs.Causes.{HasCause};

use fec_base::{Sink, WriteFailed, write_all};
use itoa::Buffer;

/// Appends the bytes of the text.
///
/// After `WriteFailed` what was appended is a front of them, and not the whole.
pub fn put_text<K: Sink>(sink: &mut K, text: &str) -> Result<(), WriteFailed>
    ensures bytes { OnOk result (Appends (K.held sink.old) (K.held sink.new) text.now) }
    ensures cut { OnErr result (AppendsFront (K.held sink.old) (K.held sink.new) text.now) }
    ensures cause { HasCause (K.faults sink.old) (K.faults sink.new) result }
{
    write_all(sink, text.as_bytes())
}

/// Appends the number in decimal.
///
/// After `WriteFailed` what was appended is a front of its digits, and not all of them.
pub fn put_number<K: Sink>(sink: &mut K, n: u64) -> Result<(), WriteFailed>
    ensures bytes { OnOk result (Appends (K.held sink.old) (K.held sink.new) (decimal n)) }
    ensures cut { OnErr result (AppendsFront (K.held sink.old) (K.held sink.new) (decimal n)) }
    ensures cause { HasCause (K.faults sink.old) (K.faults sink.new) result }
{
    put_text(sink, Buffer::new().format(n))
}
