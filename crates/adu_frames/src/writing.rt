// Frames as they are written.
ghost use Rattle.std.specs.Prelude.{◌≡◌, ◌+◌, ◌-◌, ◌≤◌, ◌++◌, length, replicate};
ghost use Rattle.adu_frames.specs.Frames.{frame_bytes};

/// How many bytes a frame has before its datagram: the flow, and the datagram's length.
pub const HEAD_LEN: usize = 3;

/// Makes `out` the frame of a datagram: its flow, its length in two bytes, its bytes, and zeros.
pub fn write_frame(flow: u8, bytes: &[u8], out: &mut [u8])
    requires least { 3 ≤ length out.old }
    requires most { length out.old ≤ 65535 }
    requires fits { length bytes.now + 3 ≤ length out.old }
    ensures { out.new ≡ frame_bytes (length out.old) (record { flow = flow; bytes = bytes.now }) }
{
    let [high, low] = (bytes.len() as u16).to_be_bytes();
    out[0] = flow;
    out[1] = high;
    out[2] = low;
    put_padded(bytes, &mut out[HEAD_LEN..]);
}

// Puts the bytes, and then zeros up to the end.
fn put_padded(bytes: &[u8], out: &mut [u8])
    requires { length bytes.now ≤ length out.old }
    ensures { out.new ≡ bytes.now ++ replicate (length out.old - length bytes.now) 0 }
{
    out[..bytes.len()].copy_from_slice(bytes);
    out[bytes.len()..].fill(0);
}
