// The answer, read off from rows in echelon form.
ghost use Rattle.std.specs.Prelude.{length, IfOk, MatchOption};
ghost use Rattle.gauss.specs.Answer.{IsAnswer};
ghost use Rattle.gauss.specs.Equations.{System};
ghost use Rattle.gauss.specs.Packed.{IsPacked};
ghost use Rattle.gauss.specs.Echelon.{IsEliminated};
ghost use Rattle.gauss.specs.Elimination.{AllPivots, IsFirstFree};

use crate::clash::any_clashes;
use crate::echelon::Echelon;
use crate::eliminated::after_elimination;
use crate::null_set::null_set;
use crate::packed::width_of;
use crate::values::some_values;
use crate::{Answer, Equations};
use fec_base::NoMemory;
use std::alloc::Global;
use symbol_arena::Arena;

/// What the equations determine, by elimination in rising order of the unknowns. `NoMemory` comes
/// only for want of memory, and gives up the equations.
pub fn solve(alloc: Global, eqs: Equations) -> Result<Answer, NoMemory>
    ensures { IfOk result (IsAnswer eqs) }
{
    let done = after_elimination(alloc, eqs)?;
    let answer = read_answer(
        alloc,
        &done.words,
        &done.pivots.rows,
        &done.pivots.leads,
        done.len,
        &done.sums,
    )?;
    Ok(answer)
}

// The answer of rows in echelon form: a clash where a row that leads no unknown has a sum that
// isn't zero, else the null set of the first free unknown, else the values that the pivot rows
// give. Sums are worked on no earlier than an answer needs them.
fn read_answer(
    alloc: Global,
    words: &[u64],
    pivots: &[u32],
    leads: &[u32],
    len: u32,
    sums: &Arena,
) -> Result<Answer, NoMemory>
    requires { IsPacked (length pivots.now) len (length leads.now) words.now sums.now }
    ensures { (s : System) → IsEliminated s len words.now pivots.now leads.now sums.now
        → IfOk result (IsAnswer s) }
{
    let width = width_of(pivots.len() as u32);
    let rows = leads.len();
    let form = Echelon {
        words,
        width,
        rows,
        pivots,
    };
    let mut sum = vec![in alloc; 0u8; len as usize]?;
    if any_clashes(&form, leads, sums, &mut sum) {
        return Ok(Answer::Clash);
    }
    if let Some(free) = first_free(rows, pivots) {
        return Ok(Answer::Free(null_set(alloc, &form, free)?));
    }
    let values = some_values(alloc, &form, len, sums)?;
    Ok(Answer::One(values))
}

// The first free unknown.
fn first_free(rows: usize, pivots: &[u32]) -> Option<usize>
    ensures { MatchOption result (AllPivots rows pivots.now) (IsFirstFree rows pivots.now) }
{
    for unknown in 0..pivots.len() {
        if pivots[unknown] as usize >= rows {
            return Some(unknown);
        }
    }
    None
}
