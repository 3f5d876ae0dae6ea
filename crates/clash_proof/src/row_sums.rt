// The sums of what is kept for the columns of each row.
ghost use Rattle.std.specs.Prelude.{◌≡◌, ◌<◌, ℕ, [], length, slice_index_or, IfOk};
ghost use Rattle.sparse_rows.specs.Matrix.{HasShape};
ghost use Rattle.clash_proof.specs.RowSums.{AreRowSums, row_byte};

use crate::Evidence;
use fec_base::{NoMemory, Steps, Tally};
use sparse_rows::Code;
use std::alloc::Global;
use symbol_arena::Arena;
use xor_lanes::xor_into;

// For each row the sum of what is kept for its columns. Whatever is kept for columns that did not
// arrive cancels out where such sums are added over a closed row set.
pub(crate) fn row_sums(alloc: Global, code: &Code, ev: &Evidence) -> Result<Arena, NoMemory>
    requires { code.now.n ≡ ev.now.n }
    ensures { IfOk result (AreRowSums code.now ev.now) }
{
    let rows = code.n() - code.k();
    let mut sum = vec![in alloc; 0u8; ev.symbol_len() as usize]?;
    let mut sums = Arena::new(alloc, rows, ev.symbol_len())?;
    put_sums(code, ev, &mut sum, &mut sums);
    Ok(sums)
}

// Makes each symbol the sum of its row.
fn put_sums(code: &Code, ev: &Evidence, sum: &mut [u8], sums: &mut Arena)
    requires n { code.now.n ≡ ev.now.n }
    requires sum { length sum.old ≡ ev.now.len }
    requires count { length sums.old ≡ length code.now.rows }
    requires long { (r : ℕ) → r < length code.now.rows
        → length (slice_index_or sums.old r []) ≡ ev.now.len }
    ensures { AreRowSums code.now ev.now sums.new }
{
    for r in 0..code.n() - code.k() {
        sum_row(code, ev, r, sum);
        sums.put(r, sum);
    }
}

// Makes `sum` the sum of what is kept for the columns of row r.
fn sum_row(code: &Code, ev: &Evidence, r: u32, sum: &mut [u8])
    requires shape { HasShape code.now }
    requires n { code.now.n ≡ ev.now.n }
    requires row { r < length code.now.rows }
    requires sum { length sum.old ≡ ev.now.len }
    ensures long { length sum.new ≡ ev.now.len }
    ensures bytes { (t : ℕ) → slice_index_or sum.new t 0 ≡ row_byte code.now ev.now t r }
{
    let mut steps = Steps::<Tally>::start();
    sum.fill(0);
    for i in 0..code.row_len(r) {
        xor_into(sum, ev.symbol(code.row_entry(r, i, &mut steps)));
    }
}
