// Why the packets of a file aren't taken in to the last.
ghost use Rattle.std.specs.Prelude.{◌≡◌};
ghost use Rattle.packet_intake.specs.declared.refusal.IntakeRefusal.TheVariants.{File, Taker};

use crate::TakerFailed;
use packet_file::FileFault;

/// Why the packets of a file aren't taken in to the last.
#[derive(Clone, Copy, Debug, PartialEq, Eq)]
pub enum IntakeRefusal {
    /// The input failed, or its bytes are no packets of the file.
    File(FileFault),
    /// The taker failed.
    Taker,
}

impl From<FileFault> for IntakeRefusal {
    ghost from_gives = { λ fault refusal. refusal ≡ File fault };

    fn from(fault: FileFault) -> Self {
        IntakeRefusal::File(fault)
    }
}

impl From<TakerFailed> for IntakeRefusal {
    ghost from_gives = { λ _ refusal. refusal ≡ Taker };

    fn from(_: TakerFailed) -> Self {
        IntakeRefusal::Taker
    }
}
