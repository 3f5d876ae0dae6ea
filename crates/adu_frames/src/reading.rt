// Symbols that are read as frames.
ghost use Rattle.std.specs.Prelude.{◌≡◌, ◌+◌, ◌≤◌, ◌↔◌, length, replicate, true, IfOk, IfErr};
ghost use Rattle.adu_frames.specs.Faults.{HasFrameFault};
ghost use Rattle.adu_frames.specs.Reading.{IsFrame};

use crate::HEAD_LEN;
use std::error::Error;
use std::fmt;

/// What a symbol has before its datagram. The datagram is the `length` bytes from place 3.
#[derive(Clone, Copy, Debug, PartialEq, Eq)]
pub struct Frame {
    /// The flow that the datagram belongs to.
    pub flow: u8,
    /// How many bytes the datagram has.
    pub length: u32,
}

/// Why a symbol is no frame.
#[derive(Clone, Copy, Debug, PartialEq, Eq)]
pub enum FrameFault {
    /// The length field, which is above what there is room for.
    LengthPast(u32),
    /// A byte behind the datagram isn't zero.
    PaddingSet,
}

impl fmt::Display for FrameFault {
    fn fmt<W: fmt::Write>(&self, f: &mut fmt::Formatter<W>) -> fmt::Result {
        match self {
            FrameFault::LengthPast(length) => write!(f, "no room for a datagram of {length} bytes"),
            FrameFault::PaddingSet => write!(f, "a byte behind the datagram isn't zero"),
        }
    }
}

impl Error for FrameFault {}

/// Reads a symbol as a frame, or names its first fault.
pub fn read_frame(symbol: &[u8]) -> Result<Frame, FrameFault>
    requires least { 3 ≤ length symbol.now }
    requires most { length symbol.now ≤ 65535 }
    ensures frame { IfOk result (IsFrame symbol.now) }
    ensures fault { IfErr result (HasFrameFault symbol.now) }
{
    let length = u16::from_be_bytes([symbol[1], symbol[2]]) as u32;
    let end = HEAD_LEN + length as usize;
    if end > symbol.len() {
        return Err(FrameFault::LengthPast(length));
    }
    if !are_zeros(&symbol[end..]) {
        return Err(FrameFault::PaddingSet);
    }
    Ok(Frame {
        flow: symbol[0],
        length,
    })
}

// Whether all bytes are zero.
fn are_zeros(bytes: &[u8]) -> bool
    ensures { result ≡ true ↔ bytes.now ≡ replicate (length bytes.now) 0 }
{
    bytes.iter().all(|byte| *byte == 0)
}
