// Finding a proof that no codeword fits.
ghost use Rattle.std.specs.Prelude.{◌≡◌, ◌<◌, ℕ, [], length, slice_index_or, MatchOption, None};
ghost use Rattle.std.specs.Prelude.{IfOk};
ghost use Rattle.gauss.specs.Reduction.{set_at};
ghost use Rattle.null_witness.specs.ReducedWords.{IsFirstReducedWord};
ghost use Rattle.sparse_rows.specs.Matrix.{HasShape};
ghost use Rattle.clash_proof.specs.Limits.{IsEvidenceKept};
ghost use Rattle.clash_proof.specs.Proofs.{ContradictedBy, Finds, IsClosedBy};
ghost use Rattle.clash_proof.specs.RowSums.{AreRowSums, set_byte};
ghost use Rattle.clash_proof.specs.Transposed.{AreReducedWords, NoneOf};

use crate::closed_sets::closed_sets;
use crate::row_sums::row_sums;
use crate::{ClashProof, Evidence, RowSet};
use fec_base::NoMemory;
use gauss::Reduced;
use sparse_rows::Code;
use std::alloc::Global;
use symbol_arena::Arena;
use xor_lanes::{is_zero, xor_into};

/// The first proof that no codeword of the code fits the evidence, and none where some codeword
/// does. The evidence is of as many positions as the code has. Where no entries conflict it is the
/// least late row whose reduced set contradicts them: a row is late where a closed row set ends at
/// it, and the reduced set is the one that holds no other late row.
///
/// For r rows and f late ones it takes what `gauss::reduce` takes for r unknowns, and then up to
/// f * r sums of symbols. `NoMemory` comes only for want of memory, and leaves the evidence as it
/// is.
pub fn find(alloc: Global, code: &Code, ev: &Evidence) -> Result<Option<ClashProof>, NoMemory>
    requires { code.now.n ≡ ev.now.n }
    ensures { IfOk result (Finds code.now ev.now) }
{
    match ev.conflict() {
        Some((first, second)) => Ok(Some(ClashProof::Repeat { first, second })),
        None => find_rows(alloc, code, ev),
    }
}

// The same where no entries conflict.
fn find_rows(alloc: Global, code: &Code, ev: &Evidence) -> Result<Option<ClashProof>, NoMemory>
    requires n { code.now.n ≡ ev.now.n }
    requires none { ev.now.conflict ≡ None }
    ensures { IfOk result (Finds code.now ev.now) }
{
    // This call tells that the code has the shape.
    prove!(code.k() <= code.n());
    let sets = closed_sets(alloc, code, ev)?;
    let sums = row_sums(alloc, code, ev)?;
    let mut sum = vec![in alloc; 0u8; ev.symbol_len() as usize]?;
    match first_refuting(alloc, code, ev, &sets, &sums, &mut sum)? {
        Some(rows) => Ok(Some(ClashProof::Rows(rows))),
        None => Ok(None),
    }
}

// The first of the sets that contradicts what arrived.
fn first_refuting(
    alloc: Global,
    code: &Code,
    ev: &Evidence,
    sets: &Reduced,
    sums: &Arena,
    sum: &mut [u8],
) -> Result<Option<RowSet>, NoMemory>
    requires shape { HasShape code.now }
    requires kept { IsEvidenceKept ev.now }
    requires sets { AreReducedWords (IsClosedBy code.now ev.now) sets.now.sets }
    requires unknowns { length sets.now.symbols ≡ length code.now.rows }
    requires sums { AreRowSums code.now ev.now sums.now }
    requires sum { length sum.old ≡ ev.now.len }
    ensures { IfOk result (λ found. MatchOption found
        (NoneOf (IsClosedBy code.now ev.now) (ContradictedBy code.now ev.now))
        (IsFirstReducedWord (IsClosedBy code.now ev.now) (ContradictedBy code.now ev.now))) }
{
    for i in 0..sets.sets() {
        sum_set(code, ev, sets, i, sums, sum);
        if !is_zero(sum) {
            let rows = sets.null_set(alloc, i)?;
            let rows = RowSet::new(alloc, rows.positions())?;
            return Ok(Some(rows));
        }
    }
    Ok(None)
}

// Makes `sum` the sum of the rows of set i.
fn sum_set(code: &Code, ev: &Evidence, sets: &Reduced, i: u32, sums: &Arena, sum: &mut [u8])
    requires set { i < length sets.now.sets }
    requires unknowns { length sets.now.symbols ≡ length code.now.rows }
    requires sums { AreRowSums code.now ev.now sums.now }
    requires sum { length sum.old ≡ ev.now.len }
    ensures long { length sum.new ≡ ev.now.len }
    ensures bytes { (t : ℕ)
        → slice_index_or sum.new t 0 ≡ set_byte code.now ev.now t (set_at sets.now i) }
{
    sum.fill(0);
    for r in 0..code.n() - code.k() {
        if sets.holds(i, r) {
            xor_into(sum, sums.get(r));
        }
    }
}
