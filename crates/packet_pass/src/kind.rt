// What a pass does, and why it ends.
ghost use Rattle.std.specs.Prelude.{◌≡◌};
ghost use Rattle.packet_pass.specs.declared.kind.PassRefusal.TheVariants.{Memory, File, Output};

use fec_base::WriteFailed;
use loss_patterns::LossKind;
use packet_file::FileFault;
use std::alloc::{AllocError, AllocFailed};

/// What a pass writes of a packet file.
#[derive(Clone, Copy, Debug, PartialEq, Eq)]
pub enum Pass {
    /// The packet file without the packets that are lost: the header, and then the kept packets in
    /// their order, each as it was. The draws begin at the seed, from 1 to 2,147,483,646.
    Lose { loss: LossKind, seed: u32 },
    /// A line for the header, and then a line for each packet. It has the packet's number from 0
    /// up, its identifier, and its first 16 bytes in lower-case hexadecimal.
    Show,
    /// The packet file in version 2: the header, and then each packet, without its padding. A
    /// packet whose padding isn't zero is refused.
    Upgrade,
}

/// A pass that came to the end of the input.
#[derive(Clone, Copy, Debug, PartialEq, Eq)]
pub struct Passed {
    /// How many packets came.
    pub packets: u64,
    /// How many of them are kept. A pass that shows or upgrades keeps all.
    pub kept: u64,
}

/// Why a pass ends before the end of the input.
#[derive(Clone, Copy, Debug, PartialEq, Eq)]
pub enum PassRefusal {
    /// There was no memory. The header was taken, and nothing is written.
    Memory,
    /// The input failed (`ReadFault`, only where its count of faults rose), or it is no packet file
    /// within the limits, with its first fault. The text of the whole packets before stands in the
    /// output, and nothing where the header is at fault.
    File(FileFault),
    /// The output failed, whose count of faults rose. A front of the text stands in it, and nothing
    /// was taken behind the header or the packet whose text isn't whole.
    Output,
}

impl From<AllocError> for PassRefusal {
    ghost from_gives = { λ _ refusal. refusal ≡ Memory };

    fn from(_: AllocError) -> Self {
        PassRefusal::Memory
    }
}

impl<T: Drop> From<AllocFailed<T>> for PassRefusal {
    ghost from_gives = { λ _ refusal. refusal ≡ Memory };

    fn from(_: AllocFailed<T>) -> Self {
        PassRefusal::Memory
    }
}

impl From<FileFault> for PassRefusal {
    ghost from_gives = { λ fault refusal. refusal ≡ File fault };

    fn from(fault: FileFault) -> Self {
        PassRefusal::File(fault)
    }
}

impl From<WriteFailed> for PassRefusal {
    ghost from_gives = { λ _ refusal. refusal ≡ Output };

    fn from(_: WriteFailed) -> Self {
        PassRefusal::Output
    }
}
