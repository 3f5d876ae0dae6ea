// Elimination of what peeling leaves.
ghost use Rattle.std.specs.Prelude.{◌≡◌, ◌<◌, ℕ, List, All, length, map, slice_index, IfOk};
ghost use Rattle.std.specs.List.Sorted.{IsStrictlyIncreasing};
ghost use Rattle.fec_session.specs.Residual.{IsResidual};

use crate::{Core, Residue};
use fec_base::NoMemory;
use gauss::{Answer, Values, solve};
use null_witness::NullWord;
use std::alloc::Global;

/// What elimination finds of the equations that peeling leaves.
#[derive(Drop)]
pub enum Residual {
    /// Nothing solves them.
    Clash,
    /// One choice of symbols does: the columns whose symbol isn't known, and their symbols.
    Solved(Vec<u32>, Values),
    /// Several do: the columns of the first null set.
    Open(NullWord),
}

// Solves the equations between the symbols that peeling leaves open.
pub(crate) fn eliminate(alloc: Global, core: &Core) -> Result<Residual, NoMemory>
    ensures { IfOk result (IsResidual core.now) }
{
    let Residue { columns, equations } = core.residue(alloc)?;
    match solve(alloc, equations)? {
        Answer::Clash => Ok(Residual::Clash),
        Answer::One(values) => Ok(Residual::Solved(columns, values)),
        Answer::Free(set) => Ok(Residual::Open(columns_at(alloc, &columns, set.positions())?)),
    }
}

// The columns at these places.
fn columns_at(alloc: Global, columns: &[u32], places: &[u32]) -> Result<NullWord, NoMemory>
    requires columns { IsStrictlyIncreasing columns.now }
    requires places { IsStrictlyIncreasing places.now }
    requires inside { All (λ place. place < length columns.now) places.now }
    ensures { IfOk result (λ word. word ≡ map (slice_index columns.now) places.now) }
{
    let mut word = Vec::with_capacity(alloc, places.len())?;
    for place in places {
        word.push(columns[*place as usize])?;
    }
    NullWord::new(alloc, &word)
}
