// Whether a row that leads no unknown is a contradiction.
ghost use Rattle.std.specs.Prelude.{◌≡◌, ◌≢◌, ◌≤◌, ◌<◌, ◌*◌, ◌+◌, ℕ, true, false, All, length};
ghost use Rattle.std.specs.Prelude.{slice_index_or, bit_xor};
ghost use Rattle.gauss.specs.Packed.{sum_byte};
ghost use Rattle.gauss.specs.Elimination.{lead_of, product, rest_byte};
ghost use Rattle.gauss.specs.Echelon.{AreSums, IsEchelon, bits_in, pivots_in, unknowns_in};

use crate::echelon::Echelon;
use crate::packed::has;
use crate::symbols::is_nonzero;
use symbol_arena::Arena;
use xor_lanes::xor_into;

// Whether a row that leads no unknown has a sum that isn't zero. No other sum is worked on.
pub(crate) fn any_clashes(form: &Echelon<'_>, leads: &[u32], sums: &Arena, sum: &mut [u8]) -> bool
    requires form { IsEchelon form.now }
    requires leads { length leads.now ≡ form.now.rows }
    requires short { length sum.old ≤ 65535 }
    requires sums { AreSums form.now.rows (length sum.old) sums.now }
    ensures some { result ≡ true → (j : ℕ) × (t : ℕ) × (j < length leads.now)
        × (unknowns_in form.now ≤ lead_of (unknowns_in form.now) leads.now j)
        × (t < length sum.old)
        × (rest_byte (unknowns_in form.now) (bits_in form.now) (pivots_in form.now) sums.now t j
        ≢ 0) }
    ensures none { result ≡ false → (j t : ℕ) → j < length leads.now
        → unknowns_in form.now ≤ lead_of (unknowns_in form.now) leads.now j
        → t < length sum.old
        → rest_byte (unknowns_in form.now) (bits_in form.now) (pivots_in form.now) sums.now t j
        ≡ 0 }
    ensures long { length sum.new ≡ length sum.old }
{
    for j in 0..leads.len() {
        if leads[j] as usize >= form.pivots.len() {
            sum.copy_from_slice(sums.get(j as u32));
            add_pivot_sums(form, j, sums, sum);
            if is_nonzero(sum) {
                return true;
            }
        }
    }
    false
}

// Adds the sums of the pivot rows that went into row r.
fn add_pivot_sums(form: &Echelon<'_>, r: usize, sums: &Arena, sum: &mut [u8])
    requires form { IsEchelon form.now }
    requires row { r < form.now.rows }
    requires short { length sum.old ≤ 65535 }
    requires sums { AreSums form.now.rows (length sum.old) sums.now }
    ensures { (t : ℕ) → t < length sum.old → slice_index_or sum.new t 0
        ≡ bit_xor (slice_index_or sum.old t 0)
        (product 0 bit_xor (unknowns_in form.now) (bits_in form.now r)
        (λ p. sum_byte sums.now t (pivots_in form.now p))) }
{
    for p in 0..form.pivots.len() {
        if has(form.words, form.width, r, p) {
            add_row_sum(sums, form.rows, form.pivots[p] as usize, sum);
        }
    }
}

// Adds the sum of row r, if there is such a row.
fn add_row_sum(sums: &Arena, rows: usize, r: usize, sum: &mut [u8])
    requires rows { rows ≤ 65536 }
    requires short { length sum.old ≤ 65535 }
    requires sums { AreSums rows (length sum.old) sums.now }
    ensures { (t : ℕ) → t < length sum.old → slice_index_or sum.new t 0
        ≡ bit_xor (slice_index_or sum.old t 0) (sum_byte sums.now t r) }
{
    if r < rows {
        xor_into(sum, sums.get(r as u32));
    }
}
