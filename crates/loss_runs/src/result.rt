// What comes of runs, and why writing of them ends.
ghost use Rattle.std.specs.Prelude.{◌≡◌};
ghost use Rattle.loss_runs.specs.declared.result.RunsRefusal.TheVariants.{Memory, Output};

use fec_base::{NoMemory, WriteFailed};
use std::alloc::AllocError;

/// How a run ends.
#[derive(Clone, Copy, Debug, PartialEq, Eq)]
pub enum RunEnd {
    /// After so many arrivals, and no fewer, peeling gave the whole source.
    Peeled(u32),
    /// It never did, and elimination after the last arrival gave it.
    Solved,
    /// What arrived leaves the source open.
    Undetermined,
}

/// How many of the kept symbols, in the order in which they arrive, determine the block.
#[derive(Clone, Copy, Debug, PartialEq, Eq)]
pub enum RunLeast {
    /// It isn't asked for.
    Unasked,
    /// All of them together don't.
    Never,
    /// So many, and no fewer.
    Prefix(u32),
}

/// What comes of a run.
#[derive(Clone, Copy, Debug, PartialEq, Eq)]
pub struct RunResult {
    /// How many of the n encoding symbols are kept. Those behind the last one that is needed are
    /// counted too.
    pub kept: u32,
    /// How it ends.
    pub end: RunEnd,
    /// How many of the kept symbols determine the block.
    pub least: RunLeast,
}

/// Why not all lines of the runs were written.
#[derive(Clone, Copy, Debug, PartialEq, Eq)]
pub enum RunsRefusal {
    /// There was no memory. A front of the text stands in the output.
    Memory,
    /// The output failed, whose count of faults rose. A front of the text stands in it.
    Output,
}

impl From<AllocError> for RunsRefusal {
    ghost from_gives = { λ _ refusal. refusal ≡ Memory };

    fn from(_: AllocError) -> Self {
        RunsRefusal::Memory
    }
}

impl From<NoMemory> for RunsRefusal {
    ghost from_gives = { λ _ refusal. refusal ≡ Memory };

    fn from(_: NoMemory) -> Self {
        RunsRefusal::Memory
    }
}

impl From<WriteFailed> for RunsRefusal {
    ghost from_gives = { λ _ refusal. refusal ≡ Output };

    fn from(_: WriteFailed) -> Self {
        RunsRefusal::Output
    }
}
