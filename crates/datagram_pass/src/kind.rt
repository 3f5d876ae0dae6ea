// Which way datagrams go, and why a pass over them ends.
ghost use Rattle.std.specs.Prelude.{◌≡◌};
ghost use Rattle.datagram_pass.specs.declared.kind.DatagramRefusal.TheVariants.{Fault, Memory};
ghost use Rattle.datagram_pass.specs.declared.kind.DatagramRefusal.TheVariants.{Output};

use fec_base::WriteFailed;
use std::alloc::{AllocError, AllocFailed};

/// Which way datagrams go.
#[derive(Clone, Copy, Debug, PartialEq, Eq)]
pub enum Way {
    /// From a datagram stream into frames.
    Framing,
    /// From frames into a datagram stream.
    Unframing,
}

/// What is wrong with the input: with datagram or symbol number `index`, counted from 0.
#[derive(Clone, Copy, Debug, PartialEq, Eq)]
pub enum DatagramFault {
    /// The input ends after so many of its bytes.
    Short { index: u64, have: u32 },
    /// With it the frames have more than 268,435,456 bytes.
    TooMany,
    /// A frame has no room for so many bytes: it stands in a stream.
    Long { index: u64, length: u32 },
    /// The length field is above what there is room for: it stands in a frame.
    LengthPast { index: u64, length: u32 },
    /// A byte behind the datagram isn't zero: it stands in a frame.
    PaddingSet { index: u64 },
}

/// Why a pass ends before the end of the input.
#[derive(Clone, Copy, Debug, PartialEq, Eq)]
pub enum DatagramRefusal {
    /// There was no memory. Nothing is taken or written.
    Memory,
    /// The input failed, whose count of faults rose.
    Read,
    /// The first fault of the input.
    Fault(DatagramFault),
    /// The output failed, whose count of faults rose.
    Output,
}

impl From<AllocError> for DatagramRefusal {
    ghost from_gives = { λ _ refusal. refusal ≡ Memory };

    fn from(_: AllocError) -> Self {
        DatagramRefusal::Memory
    }
}

impl<T: Drop> From<AllocFailed<T>> for DatagramRefusal {
    ghost from_gives = { λ _ refusal. refusal ≡ Memory };

    fn from(_: AllocFailed<T>) -> Self {
        DatagramRefusal::Memory
    }
}

impl From<DatagramFault> for DatagramRefusal {
    ghost from_gives = { λ fault refusal. refusal ≡ Fault fault };

    fn from(fault: DatagramFault) -> Self {
        DatagramRefusal::Fault(fault)
    }
}

impl From<WriteFailed> for DatagramRefusal {
    ghost from_gives = { λ _ refusal. refusal ≡ Output };

    fn from(_: WriteFailed) -> Self {
        DatagramRefusal::Output
    }
}
