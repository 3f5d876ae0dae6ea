// Datagrams as they are written, into frames and into a stream.
ghost use Rattle.std.specs.Prelude.{◌≡◌, ◌≤◌, ◌+◌, length, take, OnErr, OnOk};
ghost use Rattle.std.specs.Io.KnownBytes.{Appends};
ghost use Rattle.fec_base.specs.Bytes.{AppendsFront};
ghost use Rattle.fec_base.specs.Causes.{HasCause};
ghost use Rattle.adu_frames.specs.Reading.{IsFrame, datagram_in};
ghost use Rattle.adu_frames.specs.Frames.{datagram_bytes, frame_bytes};

use adu_frames::{Frame, HEAD_LEN, write_frame};
use fec_base::{Sink, WriteFailed, write_all};

/// Writes the frame of a datagram, whose bytes are at the front of `datagram`; it is made in
/// `symbol`.
pub fn put_frame<K: Sink>(
    output: &mut K,
    frame: Frame,
    datagram: &[u8],
    symbol: &mut [u8],
) -> Result<(), WriteFailed>
    requires least { 3 ≤ length symbol.old }
    requires most { length symbol.old ≤ 65535 }
    requires room { frame.length + 3 ≤ length symbol.old }
    requires datagram { frame.length ≤ length datagram.now }
    ensures written { OnOk result (Appends (K.held output.old) (K.held output.new)
        (frame_bytes (length symbol.old)
        (record { flow = frame.flow; bytes = take frame.length datagram.now }))) }
    ensures cut { OnErr result (AppendsFront (K.held output.old) (K.held output.new)
        (frame_bytes (length symbol.old)
        (record { flow = frame.flow; bytes = take frame.length datagram.now }))) }
    ensures cause { HasCause (K.faults output.old) (K.faults output.new) result }
    ensures length { length symbol.new ≡ length symbol.old }
{
    write_frame(frame.flow, &datagram[..frame.length as usize], symbol);
    write_all(output, symbol)
}

/// Writes the datagram of a frame as it stands in a stream.
pub fn put_datagram<K: Sink>(output: &mut K, frame: Frame, symbol: &[u8]) -> Result<(), WriteFailed>
    requires { IsFrame symbol.now frame }
    ensures written { OnOk result (Appends (K.held output.old) (K.held output.new)
        (datagram_bytes (datagram_in symbol.now frame))) }
    ensures cut { OnErr result (AppendsFront (K.held output.old) (K.held output.new)
        (datagram_bytes (datagram_in symbol.now frame))) }
    ensures cause { HasCause (K.faults output.old) (K.faults output.new) result }
{
    write_all(output, &symbol[..HEAD_LEN + frame.length as usize])
}
