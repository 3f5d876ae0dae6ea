// Why a matrix is not built.
ghost use Rattle.std.specs.Prelude.{◌≡◌};
ghost use Rattle.staircase.specs.declared.refusal.BuildRefusal.TheVariants.{DrawLimit, NoMemory};

use fec_base::NoMemory;
use park_miller::Over;
use std::error::Error;
use std::fmt;

/// Why no matrix was built.
#[derive(Clone, Copy, Debug, PartialEq, Eq)]
pub enum BuildRefusal {
    /// It takes more draws than there may be.
    DrawLimit,
    /// There was no memory.
    NoMemory,
}

impl fmt::Display for BuildRefusal {
    fn fmt<W: fmt::Write>(&self, f: &mut fmt::Formatter<W>) -> fmt::Result {
        match self {
            BuildRefusal::DrawLimit => write!(f, "the matrix takes more draws than it may"),
            BuildRefusal::NoMemory => write!(f, "no memory"),
        }
    }
}

impl Error for BuildRefusal {}

impl From<NoMemory> for BuildRefusal {
    ghost from_gives = { λ _ refusal. refusal ≡ NoMemory };

    fn from(_: NoMemory) -> Self {
        BuildRefusal::NoMemory
    }
}

impl From<Over> for BuildRefusal {
    ghost from_gives = { λ _ refusal. refusal ≡ DrawLimit };

    fn from(_: Over) -> Self {
        BuildRefusal::DrawLimit
    }
}
