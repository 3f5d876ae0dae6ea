// Why the example stops.
ghost use Rattle.std.specs.Prelude.{◌≡◌};
ghost use Rattle.staircase.specs.declared.refusal.BuildRefusal.TheVariants as refusal;
ghost use Rattle.one_block.specs.declared.fault.Fault.TheVariants as fault;

use fec_base::{NoMemory, WriteFailed};
use fec_session::WatchFault;
use staircase::BuildRefusal;
use std::alloc::{AllocError, AllocFailed};
use std::error::Error;
use std::fmt;

/// Why the example stopped.
#[derive(Clone, Copy, Debug, PartialEq, Eq)]
pub enum Fault {
    /// There was no memory.
    NoMemory,
    /// The matrix takes more draws than it may.
    Draws,
    /// A packet isn't one of the block: its identifier or its length is wrong.
    Packet,
    /// The watch failed.
    Watch,
    /// The output failed.
    Output,
}

impl fmt::Display for Fault {
    fn fmt<W: fmt::Write>(&self, f: &mut fmt::Formatter<W>) -> fmt::Result {
        match self {
            Fault::NoMemory => write!(f, "no memory"),
            Fault::Draws => write!(f, "the matrix takes more draws than it may"),
            Fault::Packet => write!(f, "a packet isn't one of the block"),
            Fault::Watch => write!(f, "the watch failed"),
            Fault::Output => write!(f, "the output failed"),
        }
    }
}

impl Error for Fault {}

impl From<NoMemory> for Fault {
    ghost from_gives = { λ _ f. f ≡ fault.NoMemory };

    fn from(_: NoMemory) -> Self {
        Fault::NoMemory
    }
}

impl From<AllocError> for Fault {
    ghost from_gives = { λ _ f. f ≡ fault.NoMemory };

    fn from(_: AllocError) -> Self {
        Fault::NoMemory
    }
}

impl<T: Drop> From<AllocFailed<T>> for Fault {
    ghost from_gives = { λ _ f. f ≡ fault.NoMemory };

    fn from(_: AllocFailed<T>) -> Self {
        Fault::NoMemory
    }
}

impl From<BuildRefusal> for Fault {
    ghost from_gives = { λ why f. f ≡ fault.Draws → why ≡ refusal.DrawLimit };

    fn from(why: BuildRefusal) -> Self {
        match why {
            BuildRefusal::DrawLimit => Fault::Draws,
            BuildRefusal::NoMemory => Fault::NoMemory,
        }
    }
}

impl From<WatchFault> for Fault {
    ghost from_gives = { λ _ f. f ≡ fault.Watch };

    fn from(_: WatchFault) -> Self {
        Fault::Watch
    }
}

impl From<WriteFailed> for Fault {
    ghost from_gives = { λ _ f. f ≡ fault.Output };

    fn from(_: WriteFailed) -> Self {
        Fault::Output
    }
}
