// The null set of the first free unknown, by back substitution of bits.
ghost use Rattle.std.specs.Prelude.{◌≡◌, ◌≢◌, ◌≤◌, ◌<◌, ◌+◌, ◌*◌, ℕ, List, Bool, true, false};
ghost use Rattle.std.specs.Prelude.{length, IfOk};
ghost use Rattle.std.proofs.Math.Bool.{xor as bool_xor};
ghost use Rattle.sparse_rows.specs.Closure.{flagged, members};
ghost use Rattle.gauss.specs.Packed.{bits_of};
ghost use Rattle.gauss.specs.Elimination.{IsFirstFree, IsNullFlags, product};
ghost use Rattle.gauss.specs.Echelon.{IsEchelon, bits_in, pivots_in, unknowns_in};

use crate::echelon::Echelon;
use crate::packed::has;
use fec_base::NoMemory;
use null_witness::NullWord;
use std::alloc::Global;

// The free unknown, and those below it that the pivot rows put into its null set.
pub(crate) fn null_set(alloc: Global, form: &Echelon<'_>, free: usize) -> Result<NullWord, NoMemory>
    requires form { IsEchelon form.now }
    requires free { IsFirstFree form.now.rows form.now.pivots.now free }
    ensures { IfOk result (λ set. (flags : List Bool)
        × IsNullFlags (unknowns_in form.now) (bits_in form.now) (pivots_in form.now) free
        flags
        × (set ≡ members (unknowns_in form.now) (flagged flags))) }
{
    let mut flags = vec![in alloc; false; form.pivots.len()]?;
    flags[free] = true;
    put_flags(form, free, &mut flags);
    let set = flagged(alloc, &flags)?;
    let word = NullWord::new(alloc, &set)?;
    Ok(word)
}

// Flags the unknowns below the free one that belong to its null set, from the last one down.
fn put_flags(form: &Echelon<'_>, free: usize, flags: &mut [bool])
    requires form { IsEchelon form.now }
    requires free { IsFirstFree form.now.rows form.now.pivots.now free }
    requires count { length flags.old ≡ unknowns_in form.now }
    requires flag { flagged flags.old free ≡ true }
    requires others { (c : ℕ) → c ≢ free → flagged flags.old c ≡ false }
    ensures { IsNullFlags (unknowns_in form.now) (bits_in form.now) (pivots_in form.now)
        free
        flags.new }
{
    for k in 0..free {
        let p = free - 1 - k;
        flags[p] = is_odd(form.words, form.width, form.pivots[p] as usize, flags);
    }
}

// Whether row r has an odd number of the flagged unknowns.
fn is_odd(words: &[u64], width: usize, r: usize, flags: &[bool]) -> bool
    requires row { r * width + width ≤ length words.now }
    requires width { length flags.now ≤ width * 64 }
    ensures { result ≡ product false bool_xor (length flags.now) (bits_of width words.now r)
        (flagged flags.now) }
{
    let mut odd = false;
    for c in 0..flags.len() {
        odd ^= has(words, width, r, c) & flags[c];
    }
    odd
}

// The unknowns that are flagged.
fn flagged(alloc: Global, flags: &[bool]) -> Result<Vec<u32>, NoMemory>
    requires { length flags.now ≤ 65536 }
    ensures { IfOk result
        (λ set. set.items ≡ members (length flags.now) (flagged flags.now)) }
{
    let mut set = Vec::new(alloc);
    for c in 0..flags.len() {
        if flags[c] {
            set.push(c as u32)?;
        }
    }
    Ok(set)
}
