// Checking a proof that no codeword fits.
ghost use Rattle.std.specs.Prelude.{◌≡◌, ◌<◌, ◌-◌, ◌↔◌, ℕ, true, length, slice_index, IsTrue, All};
ghost use Rattle.std.specs.List.Sorted.{IsStrictlyIncreasing};
ghost use Rattle.sparse_rows.specs.Closure.{flagged};
ghost use Rattle.sparse_rows.specs.Matrix.{HasShape, is_in};
ghost use Rattle.clash_proof.specs.RowSets.{odd_columns};
ghost use Rattle.clash_proof.specs.Proofs.{ContradictedBy, IsClosedBy, IsProof};
ghost use Rattle.clash_proof.specs.RowSums.{row_byte, rows_byte};

use crate::{ClashProof, Evidence};
use fec_base::{Steps, Tally};
use sparse_rows::Code;

/// Whether the proof shows that no codeword of the code fits the evidence, which is of as many
/// positions as the code has: it names the conflict of the evidence, or there is none, and its rows
/// are rows of the matrix that are closed and contradict what arrived. It takes no memory. Each
/// entry of the columns that did not arrive is looked for in the rows by halving, and each byte of
/// each column of the rows is added once.
pub fn holds(code: &Code, ev: &Evidence, p: &ClashProof) -> bool
    requires { code.now.n ≡ ev.now.n }
    ensures { IsTrue result ↔ IsProof code.now ev.now p.now }
{
    match p {
        ClashProof::Repeat { first, second } => is_conflict(ev, *first, *second),
        ClashProof::Rows(set) => refutes(code, ev, set.rows()),
    }
}

// Whether these are the indices of the conflict.
fn is_conflict(ev: &Evidence, first: u64, second: u64) -> bool
    ensures { IsTrue result ↔ (ev.now.conflict ≡ Some (first, second)) }
{
    match ev.conflict() {
        Some((one, other)) => one == first && other == second,
        None => false,
    }
}

// Whether there is no conflict, and the rows are closed and contradict what arrived.
fn refutes(code: &Code, ev: &Evidence, rows: &[u32]) -> bool
    requires n { code.now.n ≡ ev.now.n }
    requires rising { IsStrictlyIncreasing rows.now }
    ensures { IsTrue result ↔ ((ev.now.conflict ≡ None) × IsClosedBy code.now ev.now rows.now
        × ContradictedBy code.now ev.now rows.now) }
{
    // This call tells that the code has the shape.
    prove!(code.k() <= code.n());
    if ev.conflict().is_some() {
        return false;
    }
    if rows.is_empty() {
        return false;
    }
    if !are_rows(code, rows) {
        return false;
    }
    if !are_closed(code, ev, rows) {
        return false;
    }
    contradict(code, ev, rows)
}

// Whether these are rows of the matrix.
fn are_rows(code: &Code, rows: &[u32]) -> bool
    ensures { IsTrue result ↔ All (λ r. r < length code.now.rows) rows.now }
{
    let count = code.n() - code.k();
    for r in rows {
        if *r >= count {
            return false;
        }
    }
    true
}

// Whether each column that an odd number of the rows have arrived.
fn are_closed(code: &Code, ev: &Evidence, rows: &[u32]) -> bool
    requires n { code.now.n ≡ ev.now.n }
    requires rising { IsStrictlyIncreasing rows.now }
    requires below { All (λ r. r < length code.now.rows) rows.now }
    ensures { IsTrue result ↔ ((column : ℕ) → column < code.now.n
        → odd_columns code.now rows.now column ≡ true → flagged ev.now.arrived column ≡ true) }
{
    for column in 0..code.n() {
        if !is_met(code, ev, column, rows) {
            return false;
        }
    }
    true
}

// Whether the column arrived, if an odd number of the rows have it.
fn is_met(code: &Code, ev: &Evidence, column: u32, rows: &[u32]) -> bool
    requires n { code.now.n ≡ ev.now.n }
    requires column { column < code.now.n }
    requires rising { IsStrictlyIncreasing rows.now }
    requires below { All (λ r. r < length code.now.rows) rows.now }
    ensures { IsTrue result ↔ (odd_columns code.now rows.now column ≡ true
        → flagged ev.now.arrived column ≡ true) }
{
    if ev.has_arrived(column) {
        return true;
    }
    !is_odd(code, column, rows)
}

// Whether an odd number of the rows have the column.
fn is_odd(code: &Code, column: u32, rows: &[u32]) -> bool
    requires column { column < code.now.n }
    requires rising { IsStrictlyIncreasing rows.now }
    requires below { All (λ r. r < length code.now.rows) rows.now }
    ensures { result ≡ odd_columns code.now rows.now column }
{
    let mut steps = Steps::<Tally>::start();
    let mut odd = false;
    for i in 0..code.col_len(column) {
        if has_row(rows, code.col_entry(column, i, &mut steps)) {
            odd = !odd;
        }
    }
    odd
}

// Whether the rows have this one.
fn has_row(rows: &[u32], r: u32) -> bool
    requires { IsStrictlyIncreasing rows.now }
    ensures { result ≡ is_in rows.now r }
{
    rows.binary_search(&r).is_ok()
}

// Whether the sum of the rows isn't zero.
fn contradict(code: &Code, ev: &Evidence, rows: &[u32]) -> bool
    requires shape { HasShape code.now }
    requires n { code.now.n ≡ ev.now.n }
    requires rising { IsStrictlyIncreasing rows.now }
    requires below { All (λ r. r < length code.now.rows) rows.now }
    ensures { IsTrue result ↔ ContradictedBy code.now ev.now rows.now }
{
    for t in 0..ev.symbol_len() {
        if sum_byte(code, ev, rows, t) != 0 {
            return true;
        }
    }
    false
}

// Byte t of the sum of the rows.
fn sum_byte(code: &Code, ev: &Evidence, rows: &[u32], t: u32) -> u8
    requires shape { HasShape code.now }
    requires n { code.now.n ≡ ev.now.n }
    requires below { All (λ r. r < length code.now.rows) rows.now }
    requires place { t < ev.now.len }
    ensures { result ≡ rows_byte code.now ev.now t rows.now }
{
    let mut byte = 0;
    for r in rows {
        byte ^= row_byte(code, ev, *r, t);
    }
    byte
}

// Byte t of the sum of what is kept for the columns of row r.
fn row_byte(code: &Code, ev: &Evidence, r: u32, t: u32) -> u8
    requires shape { HasShape code.now }
    requires n { code.now.n ≡ ev.now.n }
    requires row { r < length code.now.rows }
    requires place { t < ev.now.len }
    ensures { result ≡ row_byte code.now ev.now t r }
{
    let mut steps = Steps::<Tally>::start();
    let mut byte = 0;
    for i in 0..code.row_len(r) {
        byte ^= ev.symbol(code.row_entry(r, i, &mut steps))[t as usize];
    }
    byte
}
