// Why a run ends early.
ghost use Rattle.std.specs.Prelude.{◌≡◌};
ghost use Rattle.tool_base.specs.Refusals.{fault_status, refusal_status};
ghost use Rattle.tool_base.specs.declared.causes.Refusal.TheVariants.{File, Memory};

use crate::Status;
use fec_base::NoMemory;
use packet_file::FileFault;
use std::alloc::{AllocError, AllocFailed};

/// Why a run ends before its output, or within it for want of memory.
#[derive(Clone, Copy, Debug, PartialEq, Eq)]
pub enum Refusal {
    /// There was no memory.
    Memory,
    /// The input failed, is no packet file, or is too large.
    File(FileFault),
    /// The code of this block takes more draws than there may be.
    Draws(u32),
    /// The watch failed.
    Watch,
}

impl From<NoMemory> for Refusal {
    ghost from_gives = { λ _ refusal. refusal ≡ Memory };

    fn from(_: NoMemory) -> Self {
        Refusal::Memory
    }
}

impl From<AllocError> for Refusal {
    ghost from_gives = { λ _ refusal. refusal ≡ Memory };

    fn from(_: AllocError) -> Self {
        Refusal::Memory
    }
}

impl<T: Drop> From<AllocFailed<T>> for Refusal {
    ghost from_gives = { λ _ refusal. refusal ≡ Memory };

    fn from(_: AllocFailed<T>) -> Self {
        Refusal::Memory
    }
}

impl From<FileFault> for Refusal {
    ghost from_gives = { λ fault refusal. refusal ≡ File fault };

    fn from(fault: FileFault) -> Self {
        Refusal::File(fault)
    }
}

impl Refusal {
    /// The status of a run that ends so.
    pub fn status(self) -> Status
        ensures { result ≡ refusal_status self }
    {
        match self {
            Refusal::Memory => Status::Memory,
            Refusal::File(fault) => fault_status(fault),
            Refusal::Draws(_) => Status::Draws,
            Refusal::Watch => Status::WatchFault,
        }
    }
}

// The status of a fault of a file.
fn fault_status(fault: FileFault) -> Status
    ensures { result ≡ fault_status fault }
{
    match fault {
        FileFault::ReadFault => Status::ReadFault,
        FileFault::TooLarge(_) | FileFault::TooManyBlocks | FileFault::TooManyPackets => {
            Status::Limit
        }
        _ => Status::Malformed,
    }
}
