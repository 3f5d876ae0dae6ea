// A system after its elimination, on which every answer stands.
ghost use Rattle.std.specs.Prelude.{IfOk};
ghost use Rattle.gauss.specs.Echelon.{IsEliminated};

use crate::Equations;
use crate::eliminate::{Pivots, eliminate};
use fec_base::NoMemory;
use std::alloc::Global;
use symbol_arena::Arena;

// Rows in echelon form, their pivots, and a sum of `len` bytes for each row.
#[derive(Drop)]
pub(crate) struct Eliminated {
    pub(crate) len: u32,
    pub(crate) words: Vec<u64>,
    pub(crate) pivots: Pivots,
    pub(crate) sums: Arena,
}

// Eliminates the unknowns in rising order. The sums stay as they are.
pub(crate) fn after_elimination(alloc: Global, eqs: Equations) -> Result<Eliminated, NoMemory>
    ensures { IfOk result (λ done. IsEliminated eqs done.len done.words.items
        done.pivots.rows.items done.pivots.leads.items done.sums) }
{
    let Equations {
        unknowns,
        rows,
        len,
        mut words,
        sums,
    } = eqs;
    let pivots = eliminate(alloc, unknowns, rows, &mut words)?;
    Ok(Eliminated {
        len,
        words,
        pivots,
        sums,
    })
}
