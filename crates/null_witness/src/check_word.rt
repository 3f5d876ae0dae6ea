// The check of a null word, row by row.
ghost use Rattle.std.specs.Prelude.{◌≡◌, ◌<◌, ◌-◌, ◌%◌, ◌↔◌, false, length, IsTrue, All, count_by};
ghost use Rattle.std.specs.List.Sorted.{IsStrictlyIncreasing};
ghost use Rattle.sparse_rows.specs.Matrix.{IsCode, row_of, is_in};
ghost use Rattle.sparse_rows.specs.Closure.{flagged};
ghost use Rattle.sparse_rows.specs.NullWord.{IsNullWord};

use crate::NullWord;
use fec_base::{Steps, Tally};
use sparse_rows::Code;

/// Whether the word is a null word of the positions that arrived: it isn't empty, each of its
/// positions is below n and has not arrived, and each row of the matrix has an even number of them.
/// `arrived` has a flag for each encoding symbol. Each entry of the matrix is looked for in the
/// word once, by halving.
pub fn check(code: &Code, arrived: &[bool], w: &NullWord) -> bool
    requires { length arrived.now ≡ code.now.n }
    ensures { IsTrue result ↔ IsNullWord code.now (flagged arrived.now) w.now }
{
    let word = w.positions();
    if word.is_empty() {
        return false;
    }
    if !are_missing(arrived, word) {
        return false;
    }
    rows_are_even(code, word)
}

// Whether each of these positions is one and has not arrived.
fn are_missing(arrived: &[bool], word: &[u32]) -> bool
    ensures { IsTrue result
        ↔ All (λ position. (position < length arrived.now)
        × (flagged arrived.now position ≡ false)) word.now }
{
    for position in word {
        if *position as usize >= arrived.len() || arrived[*position as usize] {
            return false;
        }
    }
    true
}

// Whether each row has an even number of the word's columns.
fn rows_are_even(code: &Code, word: &[u32]) -> bool
    requires { IsStrictlyIncreasing word.now }
    ensures { IsTrue result ↔ All (λ row. count_by (is_in word.now) row % 2 ≡ 0) code.now.rows }
{
    for r in 0..code.n() - code.k() {
        if !row_is_even(code, r, word) {
            return false;
        }
    }
    true
}

// Whether row r has an even number of the word's columns.
fn row_is_even(code: &Code, r: u32, word: &[u32]) -> bool
    requires row { r < code.now.n - code.now.k }
    requires rising { IsStrictlyIncreasing word.now }
    ensures { IsTrue result ↔ (count_by (is_in word.now) (row_of code.now r) % 2 ≡ 0) }
{
    let mut steps = Steps::<Tally>::start();
    let mut even = true;
    for i in 0..code.row_len(r) {
        if has_column(word, code.row_entry(r, i, &mut steps)) {
            even = !even;
        }
    }
    even
}

// Whether the word has this column.
fn has_column(word: &[u32], column: u32) -> bool
    requires { IsStrictlyIncreasing word.now }
    ensures { result ≡ is_in word.now column }
{
    word.binary_search(&column).is_ok()
}
