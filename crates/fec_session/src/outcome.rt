// How a block came out.
ghost use Rattle.std.specs.Prelude.{◌≡◌, IfOk};
ghost use Rattle.fec_session.specs.Session.{ComeOut, ComesOut, HoldsOutcome};

use crate::{Core, SourceBlock, Verdict};
use fec_base::NoMemory;
use null_witness::NullWord;
use std::alloc::Global;

/// What the symbols that arrived determine of a source block, when its decoder is done with.
#[derive(Drop)]
pub enum Outcome {
    /// Some codeword fits them, and all that fit have this source block.
    Block(SourceBlock),
    /// Codewords of different source blocks fit. Of the null words of the positions that arrived
    /// this is the one whose last position is least.
    Undetermined(NullWord),
    /// No codeword fits them.
    NoCodeword,
}

// How the block of a decoder comes out.
fn finish_core(alloc: Global, core: Core) -> Result<Outcome, NoMemory>
    ensures outcome { IfOk result (ComesOut core) }
    ensures holds { IfOk result (HoldsOutcome core) }
{
    match core.finish(alloc) {
        Ok(Verdict::Block(block)) => Ok(Outcome::Block(block)),
        Ok(Verdict::Undetermined(_, word)) => Ok(Outcome::Undetermined(word)),
        Ok(Verdict::NoCodeword(_)) => Ok(Outcome::NoCodeword),
        Err((_, refused)) => Err(refused),
    }
}

// How the blocks of these decoders come out, one after the other.
pub(crate) fn finish_cores(alloc: Global, cores: Vec<Core>) -> Result<Vec<Outcome>, NoMemory>
    ensures { IfOk result (λ outcomes. ComeOut cores.items outcomes.items) }
{
    let mut outcomes = Vec::with_capacity(alloc, cores.len())?;
    for core in cores {
        outcomes.push(finish_core(alloc, core)?)?;
    }
    Ok(outcomes)
}
