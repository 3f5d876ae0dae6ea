// The free unknowns of a system, read off from rows in echelon form.
ghost use Rattle.std.specs.Prelude.{length, IfOk};
ghost use Rattle.gauss.specs.Equations.{System};
ghost use Rattle.gauss.specs.Packed.{IsPacked};
ghost use Rattle.gauss.specs.Echelon.{IsEliminated};
ghost use Rattle.gauss.specs.Freedom.{IsFreedom};

use crate::Equations;
use crate::clash::any_clashes;
use crate::echelon::Echelon;
use crate::eliminated::after_elimination;
use crate::masks::without_pivots;
use crate::packed::width_of;
use fec_base::NoMemory;
use std::alloc::Global;
use symbol_arena::Arena;

/// The free unknowns of a system of equations: those at which its null sets end.
#[derive(Drop)]
pub enum FreeUnknowns {
    /// No assignment of symbols solves the system.
    Clash,
    /// Some assignment does: the free unknowns, counted from 0, in rising order.
    Rising(Vec<u32>),
}

/// Which unknowns of the equations are free, by one elimination in rising order of the unknowns and
/// no back substitution: it takes what `solve` takes for the answer `Free`. `NoMemory` comes only
/// for want of memory, and gives up the equations.
pub fn free_unknowns(alloc: Global, eqs: Equations) -> Result<FreeUnknowns, NoMemory>
    ensures { IfOk result (IsFreedom eqs) }
{
    let done = after_elimination(alloc, eqs)?;
    let free = read_free(
        alloc,
        &done.words,
        &done.pivots.rows,
        &done.pivots.leads,
        done.len,
        &done.sums,
    )?;
    Ok(free)
}

// The unknowns without a pivot row, or a clash where a row that leads no unknown has a sum that
// isn't zero.
fn read_free(
    alloc: Global,
    words: &[u64],
    pivots: &[u32],
    leads: &[u32],
    len: u32,
    sums: &Arena,
) -> Result<FreeUnknowns, NoMemory>
    requires { IsPacked (length pivots.now) len (length leads.now) words.now sums.now }
    ensures { (s : System) → IsEliminated s len words.now pivots.now leads.now sums.now
        → IfOk result (IsFreedom s) }
{
    let width = width_of(pivots.len() as u32);
    let rows = leads.len();
    let form = Echelon {
        words,
        width,
        rows,
        pivots,
    };
    let mut sum = vec![in alloc; 0u8; len as usize]?;
    if any_clashes(&form, leads, sums, &mut sum) {
        return Ok(FreeUnknowns::Clash);
    }
    let free = without_pivots(alloc, rows, pivots)?;
    Ok(FreeUnknowns::Rising(free))
}
