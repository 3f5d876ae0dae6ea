// Peeling by a worklist: each column that becomes known is worked off once, row by row.
ghost use Rattle.std.specs.Prelude.{◌≡◌, ◌↔◌, ◌<◌, ◌≤◌, ◌+◌, ◌*◌, ◌&&◌, not, Bool, ℕ, List, true};
ghost use Rattle.std.specs.Prelude.{false, IsTrue, length, take, drop, slice_set, slice_index_or};
ghost use Rattle.std.specs.Vec.{vec_capacity};
ghost use Rattle.sparse_rows.specs.Matrix.{IsCode};
ghost use Rattle.sparse_rows.specs.Codeword.{symbol_at};
ghost use Rattle.sparse_rows.specs.Closure.{Set, flagged, members, adding};
ghost use Rattle.sparse_rows.specs.Columns.{column_of, entries};
ghost use Rattle.peeling.specs.Lookups.{new_positions, set_count};
ghost use Rattle.peeling.specs.Peeled.{IsLaid, unset_count, IsPeeledOut, PeelsTo};
ghost use Rattle.peeling.specs.Unknowns.{IsCounted};
ghost use Rattle.peeling.specs.Worklist.{seen_by, IsWorked, IsListed, NewRowsHold};

use crate::unknowns::{Unknowns, without};
use fec_base::{Ledger, Steps};
use sparse_rows::Code;
use symbol_arena::Arena;

// Makes position e known by its bytes, and peels until no row has a single unknown symbol left.
// Says whether each row that became known by that sums to zero. The symbols of the positions stand
// first, and the sum of row r behind them, at n + r.
pub(crate) fn peel<L: Ledger>(
    code: &Code,
    e: u32,
    bytes: &[u8],
    known: &mut [bool],
    symbols: &mut Arena,
    rows: &mut [Unknowns],
    fresh: &mut Vec<u32>,
    steps: &mut Steps<L>,
) -> bool
    requires code { IsCode code.now }
    requires position { e < code.now.n }
    requires unknown { flagged known.old e ≡ false }
    requires laid { IsLaid code.now.n (length bytes.now) known.old (take code.now.n symbols.old) }
    requires counted { IsCounted code.now (length bytes.now) (λ row. flagged known.old)
        (symbol_at (length bytes.now) (take code.now.n symbols.old)) rows.old
        (drop code.now.n symbols.old) }
    requires rests { IsPeeledOut code.now known.old }
    requires room { code.now.n ≤ vec_capacity fresh.old }
    ensures laid { IsLaid code.now.n (length bytes.now) known.new (take code.now.n symbols.new) }
    ensures counted { IsCounted code.now (length bytes.now) (λ row. flagged known.new)
        (symbol_at (length bytes.now) (take code.now.n symbols.new)) rows.new
        (drop code.now.n symbols.new) }
    ensures peeled { PeelsTo code.now (length bytes.now) (slice_set known.old e true)
        (slice_set (take code.now.n symbols.old) e bytes.now) known.new
        (take code.now.n symbols.new) }
    ensures rests { IsPeeledOut code.now known.new }
    ensures holds { IsTrue result
        ↔ NewRowsHold code.now (length bytes.now) (flagged known.old) (flagged known.new)
        (symbol_at (length bytes.now) (take code.now.n symbols.new)) }
    ensures fresh { fresh.new.items ≡ new_positions (slice_set known.old e true) known.new }
    ensures count { set_count known.new ≡ set_count known.old + 1 + length fresh.new.items }
    ensures room { vec_capacity fresh.new ≡ vec_capacity fresh.old }
    ensures rises { steps.old ≤ steps.new }
    ensures steps { steps.new + 2 * entries code.now (flagged known.old)
        ≡ steps.old + 2 * entries code.now (flagged known.new) }
{
    known[e as usize] = true;
    symbols.put(e, bytes);
    fresh.clear();
    fresh.push_reserved(e);
    let mut holds = true;
    let mut head = 0;
    while head < fresh.len() {
        let c = fresh[head];
        holds &= work_off(code, c, known, symbols, rows, fresh, steps);
        head += 1;
    }
    sort_fresh(fresh);
    holds
}

// Tells each row of column c that the column is known. Says whether each row that has no column
// left by that sums to zero.
fn work_off<L: Ledger>(
    code: &Code,
    c: u32,
    known: &mut [bool],
    symbols: &mut Arena,
    rows: &mut [Unknowns],
    fresh: &mut Vec<u32>,
    steps: &mut Steps<L>,
) -> bool
    requires code { IsCode code.now }
    requires column { flagged known.old c ≡ true }
    requires worked { (len : ℕ) × (done : Set) × (before : Set) × (base : Set) × (x : (ℕ → List ℕ))
        × (held : Bool) × (done c ≡ false)
        × IsWorked code.now len before base x (λ row. done) known.old symbols.old rows.old held }
    requires room { length fresh.old.items + unset_count known.old ≤ vec_capacity fresh.old }
    ensures worked { (len : ℕ) (done before base : Set) (x : ℕ → List ℕ) (held : Bool)
        → done c ≡ false
        → IsWorked code.now len before base x (λ row. done) known.old symbols.old rows.old held
        → IsWorked code.now len before base x (λ row. adding c done) known.new symbols.new rows.new
        (held && result) }
    ensures listed { (before : Set) → IsListed before fresh.old.items (flagged known.old)
        → IsListed before fresh.new.items (flagged known.new) }
    ensures front { take (length fresh.old.items) fresh.new.items ≡ fresh.old.items }
    ensures count { length fresh.new.items + unset_count known.new
        ≡ length fresh.old.items + unset_count known.old }
    ensures room { vec_capacity fresh.new ≡ vec_capacity fresh.old }
    ensures steps { steps.new ≡ steps.old + 2 * length (column_of code.now c) }
{
    let mut holds = true;
    for i in 0..code.col_len(c) {
        holds &= see(code, c, i, known, symbols, rows, fresh, steps);
    }
    holds
}

// Tells the i-th row of column c that the column is known. A row that has one column left gives the
// symbol of that one, and one that has none left is to sum to zero: says whether it does.
fn see<L: Ledger>(
    code: &Code,
    c: u32,
    i: u32,
    known: &mut [bool],
    symbols: &mut Arena,
    rows: &mut [Unknowns],
    fresh: &mut Vec<u32>,
    steps: &mut Steps<L>,
) -> bool
    requires code { IsCode code.now }
    requires column { flagged known.old c ≡ true }
    requires place { i < length (column_of code.now c) }
    requires worked { (len : ℕ) × (done : Set) × (before : Set) × (base : Set) × (x : (ℕ → List ℕ))
        × (held : Bool) × (done c ≡ false)
        × IsWorked code.now len before base x (seen_by (take i (column_of code.now c)) c done)
        known.old symbols.old rows.old held }
    requires room { length fresh.old.items + unset_count known.old ≤ vec_capacity fresh.old }
    ensures known { flagged known.new c ≡ true }
    ensures worked { (len : ℕ) (done before base : Set) (x : ℕ → List ℕ) (held : Bool)
        → done c ≡ false
        → IsWorked code.now len before base x (seen_by (take i (column_of code.now c)) c done)
        known.old symbols.old rows.old held
        → IsWorked code.now len before base x
        (seen_by (take (i + 1) (column_of code.now c)) c done) known.new symbols.new rows.new
        (held && result) }
    ensures listed { (before : Set) → IsListed before fresh.old.items (flagged known.old)
        → IsListed before fresh.new.items (flagged known.new) }
    ensures front { take (length fresh.old.items) fresh.new.items ≡ fresh.old.items }
    ensures count { length fresh.new.items + unset_count known.new
        ≡ length fresh.old.items + unset_count known.old }
    ensures room { vec_capacity fresh.new ≡ vec_capacity fresh.old }
    ensures steps { steps.new ≡ steps.old + 2 }
{
    let r = code.col_entry(c, i, steps);
    let left = without(rows[r as usize], c);
    rows[r as usize] = left;
    let sum = code.n() + r;
    symbols.add(sum, c, steps);
    if left.count == 0 {
        return symbols.is_zero(sum);
    }
    if left.count > 1 {
        return true;
    }
    let d = left.columns as u32;
    if known[d as usize] {
        return true;
    }
    known[d as usize] = true;
    symbols.copy(d, sum);
    fresh.push_reserved(d);
    true
}

// Leaves out the first of the columns, and puts the others in rising order.
fn sort_fresh(fresh: &mut Vec<u32>)
    requires { 0 < length fresh.old.items }
    ensures sorted { (n : ℕ) (before known : Set) → IsListed before fresh.old.items known
        → ((c : ℕ) → n ≤ c → known c ≡ false)
        → fresh.new.items
        ≡ members n (λ c. known c && not (adding (slice_index_or fresh.old.items 0 0) before c)) }
    ensures count { length fresh.new.items + 1 ≡ length fresh.old.items }
    ensures room { vec_capacity fresh.new ≡ vec_capacity fresh.old }
{
    if fresh.len() == 1 {
        fresh.clear();
        return;
    }
    fresh.remove(0);
    fresh.sort_unstable();
}
