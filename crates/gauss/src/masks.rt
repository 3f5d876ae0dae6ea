// The reduced null sets as bits: for each unknown a run of bytes, bit i of which says whether null
// set i holds it.
ghost use Rattle.std.specs.Prelude.{◌≡◌, ◌≢◌, ◌≤◌, ◌<◌, ◌+◌, ◌*◌, ◌/◌, ◌==◌, ◌||◌, ℕ, All, length};
ghost use Rattle.std.specs.Prelude.{slice_index_or, IfOk, false};
ghost use Rattle.sparse_rows.specs.Closure.{members};
ghost use Rattle.gauss.specs.Echelon.{IsEchelon, bits_in};
ghost use Rattle.gauss.specs.Masks.{AreNullMasks, free_unknowns, set_of, stride_of};

use crate::echelon::Echelon;
use crate::substitution::add_values;
use fec_base::NoMemory;
use null_witness::NullWord;
use std::alloc::Global;

// So many null sets, and the bits of the unknowns.
#[derive(Drop)]
pub(crate) struct Masks {
    pub(crate) sets: u32,
    pub(crate) bytes: Vec<u8>,
}

// How many bytes hold a bit for each of so many null sets.
pub(crate) fn stride_of(sets: u32) -> usize
    requires { sets ≤ 65536 }
    ensures { result ≡ stride_of sets }
{
    (sets as usize + 7) / 8
}

// The null sets of the free unknowns: back substitution, with a bit for each free unknown in place
// of a byte of a symbol.
pub(crate) fn null_masks(alloc: Global, form: &Echelon<'_>) -> Result<Masks, NoMemory>
    requires form { IsEchelon form.now }
    ensures { IfOk result (λ masks. AreNullMasks (bits_in form.now) form.now.rows
        form.now.pivots.now masks.sets masks.bytes.items) }
{
    let free = without_pivots(alloc, form.rows, form.pivots)?;
    let sets = free.len() as u32;
    let stride = stride_of(sets);
    let mut bytes = vec![in alloc; 0u8; form.pivots.len() * stride]?;
    put_free(&free, form.pivots.len(), stride, &mut bytes);
    let mut table = vec![in alloc; 0u8; 256 * stride]?;
    add_values(form, stride, &mut bytes, &mut table);
    Ok(Masks { sets, bytes })
}

// The unknowns without a pivot row.
pub(crate) fn without_pivots(
    alloc: Global,
    rows: usize,
    pivots: &[u32],
) -> Result<Vec<u32>, NoMemory>
    requires { length pivots.now ≤ 65536 }
    ensures { IfOk result (λ free. free.items ≡ free_unknowns rows pivots.now) }
{
    let mut free = Vec::new(alloc);
    for p in 0..pivots.len() {
        if pivots[p] as usize >= rows {
            free.push(p as u32)?;
        }
    }
    Ok(free)
}

// Puts bit i into the bytes of free unknown i, for each of them.
fn put_free(free: &[u32], unknowns: usize, stride: usize, masks: &mut [u8])
    requires unknowns { unknowns ≤ 65536 }
    requires below { All (λ c. c < unknowns) free.now }
    requires few { length free.now ≤ 65536 }
    requires stride { stride ≡ stride_of (length free.now) }
    requires masks { length masks.old ≡ unknowns * stride }
    requires zero { (k : ℕ) → slice_index_or masks.old k 0 ≡ 0 }
    ensures { (i c : ℕ) → i < length free.now → c < unknowns
        → set_of stride masks.new i c ≡ (c == slice_index_or free.now i 0) }
{
    for i in 0..free.len() {
        put_bit(masks, stride, i, free[i] as usize);
    }
}

// Puts bit i into the bytes of unknown c.
fn put_bit(masks: &mut [u8], stride: usize, i: usize, c: usize)
    requires bit { i / 8 < stride }
    requires unknown { c * stride + stride ≤ length masks.old }
    ensures own { (j : ℕ) → j / 8 < stride
        → set_of stride masks.new j c ≡ (set_of stride masks.old j c || (j == i)) }
    ensures others { (j d : ℕ) → j / 8 < stride → d ≢ c
        → set_of stride masks.new j d ≡ set_of stride masks.old j d }
{
    masks[c * stride + i / 8] |= 1 << (i % 8);
}

// Whether null set i holds unknown c.
pub(crate) fn holds_at(masks: &[u8], stride: usize, i: usize, c: usize) -> bool
    requires bit { i / 8 < stride }
    requires unknown { c * stride + stride ≤ length masks.now }
    ensures { result ≡ set_of stride masks.now i c }
{
    masks[c * stride + i / 8] >> (i % 8) & 1 == 1
}

// The unknowns of null set i.
pub(crate) fn members_of(
    alloc: Global,
    masks: &[u8],
    unknowns: usize,
    stride: usize,
    i: usize,
) -> Result<NullWord, NoMemory>
    requires unknowns { unknowns ≤ 65536 }
    requires bit { i / 8 < stride }
    requires masks { length masks.now ≡ unknowns * stride }
    ensures { IfOk result (λ set. set ≡ members unknowns (set_of stride masks.now i)) }
{
    let mut set = Vec::new(alloc);
    for c in 0..unknowns {
        if holds_at(masks, stride, i, c) {
            set.push(c as u32)?;
        }
    }
    NullWord::new(alloc, &set)
}
