// The reduced form of a system, read off from rows in echelon form.
ghost use Rattle.std.specs.Prelude.{length, IfOk};
ghost use Rattle.gauss.specs.Equations.{System};
ghost use Rattle.gauss.specs.Packed.{IsPacked};
ghost use Rattle.gauss.specs.Echelon.{IsEliminated};
ghost use Rattle.gauss.specs.Reductions.{IsReduction};

use crate::clash::any_clashes;
use crate::echelon::Echelon;
use crate::eliminated::after_elimination;
use crate::masks::null_masks;
use crate::packed::width_of;
use crate::values::some_values;
use crate::{Equations, Reduced};
use fec_base::NoMemory;
use std::alloc::Global;
use symbol_arena::Arena;

/// What a system of equations leaves open.
#[derive(Drop)]
pub enum Reduction {
    /// No assignment of symbols solves it.
    Clash,
    /// Some assignment does: its reduced null sets, and the symbols that all solutions share.
    Reduced(Reduced),
}

/// The reduced form of the equations, by one elimination in rising order of the unknowns and back
/// substitution. For u unknowns, of which f are free, and about as many rows, this takes what
/// `solve` takes, and some u * u / 16 XORs of f / 8 bytes more. `NoMemory` comes only for want of
/// memory, and gives up the equations.
pub fn reduce(alloc: Global, eqs: Equations) -> Result<Reduction, NoMemory>
    ensures { IfOk result (IsReduction eqs) }
{
    let done = after_elimination(alloc, eqs)?;
    let reduction = read_form(
        alloc,
        &done.words,
        &done.pivots.rows,
        &done.pivots.leads,
        done.len,
        &done.sums,
    )?;
    Ok(reduction)
}

// The reduced form of rows in echelon form, or a clash where a row that leads no unknown has a sum
// that isn't zero.
fn read_form(
    alloc: Global,
    words: &[u64],
    pivots: &[u32],
    leads: &[u32],
    len: u32,
    sums: &Arena,
) -> Result<Reduction, NoMemory>
    requires { IsPacked (length pivots.now) len (length leads.now) words.now sums.now }
    ensures { (s : System) → IsEliminated s len words.now pivots.now leads.now sums.now
        → IfOk result (IsReduction s) }
{
    let width = width_of(pivots.len() as u32);
    let rows = leads.len();
    let form = Echelon {
        words,
        width,
        rows,
        pivots,
    };
    let mut sum = vec![in alloc; 0u8; len as usize]?;
    if any_clashes(&form, leads, sums, &mut sum) {
        return Ok(Reduction::Clash);
    }
    let masks = null_masks(alloc, &form)?;
    let values = some_values(alloc, &form, len, sums)?;
    Ok(Reduction::Reduced(Reduced::new(values, masks)))
}
