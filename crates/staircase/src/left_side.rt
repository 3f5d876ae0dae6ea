// The left side of the matrix: the columns of the source symbols.
ghost use Rattle.std.specs.Prelude.{◌≡◌, ◌<◌, ◌≤◌, ◌+◌, ◌-◌, false, Some, None, Err, IfOk, OnOk};
ghost use Rattle.std.specs.Prelude.{OnErr};
ghost use Rattle.sparse_rows.specs.Matrix.{has_entry, with_entry};
ghost use Rattle.staircase.specs.LeftSide.{turn, column, left_side, in_order};
ghost use Rattle.staircase.specs.Left.{HasDrawn, IsFilled, IsLeftSide};
ghost use Rattle.staircase.specs.LeftSide.{drawn_matrix};
ghost use Rattle.staircase.specs.Choices.{filling, blocked_count};

use crate::choices::Choices;
use crate::extras::add_extras;
use crate::picks::{pick_choice, pick_row};
use crate::refusal::BuildRefusal;
use park_miller::{Draws, Over};
use sparse_rows::RowsBuilder;
use std::alloc::Global;

/// The left side of the matrix of a code of n encoding symbols, of which the first k are the source
/// symbols (RFC 5170, section 6.2): each source symbol goes into `n1` rows, or into all where there
/// are fewer, and then a row with fewer than two source symbols gains some. `DrawLimit` comes where
/// that takes more draws than `g` has left. After a refusal `g` has made some of its draws.
pub fn left(
    alloc: Global,
    k: u32,
    n: u32,
    n1: u32,
    g: &mut Draws,
) -> Result<RowsBuilder, BuildRefusal>
    requires some { 1 ≤ k }
    requires within { k ≤ n }
    requires most { n ≤ 65536 }
    requires least { 3 ≤ n1 }
    requires greatest { n1 ≤ 10 }
    ensures ok { IfOk result (λ rows. left_side k n n1 g.old ≡ Some (drawn_matrix rows g.new)) }
    ensures draw_limit { result ≡ Err BuildRefusal.DrawLimit → left_side k n n1 g.old ≡ None }
    ensures sources { IfOk result (IsLeftSide k n) }
    ensures drawn { HasDrawn g.old g.new }
{
    let mut rows = RowsBuilder::new(alloc, k, n)?;
    let count = n - k;
    if count == 0 {
        return Ok(rows);
    }
    let mut choices = Choices::new(alloc, count, n1 * k)?;
    fill_columns(&mut rows, &mut choices, k, n1.min(count), g)?;
    add_extras(&mut rows, k, count, g)?;
    Ok(rows)
}

// Fills the columns of the k source symbols.
fn fill_columns(
    rows: &mut RowsBuilder,
    choices: &mut Choices,
    k: u32,
    turns: u32,
    g: &mut Draws,
) -> Result<(), BuildRefusal>
    requires k { k ≡ rows.old.k }
    requires some { k < rows.old.n }
    requires filled { IsFilled rows.old.k rows.old.n 0 rows.old }
    requires rows { choices.old.rows ≡ rows.old.n - rows.old.k }
    ensures ok { OnOk result (in_order k (column turns) (filling rows.old choices.old g.old)
        ≡ Some (filling rows.new choices.new g.new)) }
    ensures draw_limit { result ≡ Err BuildRefusal.DrawLimit
        → in_order k (column turns) (filling rows.old choices.old g.old) ≡ None }
    ensures filled { OnOk result (IsFilled rows.old.k rows.old.n k rows.new) }
    ensures drawn { HasDrawn g.old g.new }
{
    for c in 0..k {
        fill_column(rows, choices, c, turns, g)?;
    }
    Ok(())
}

// Puts column c into a row for each turn. The number of choices that are rows which have the column
// already says whether a choice is left, without a look at the choices.
fn fill_column(
    rows: &mut RowsBuilder,
    choices: &mut Choices,
    c: u32,
    turns: u32,
    g: &mut Draws,
) -> Result<(), BuildRefusal>
    requires column { c < rows.old.k }
    requires some { rows.old.k < rows.old.n }
    requires filled { IsFilled rows.old.k rows.old.n c rows.old }
    requires rows { choices.old.rows ≡ rows.old.n - rows.old.k }
    ensures ok { OnOk result (column turns c (filling rows.old choices.old g.old)
        ≡ Some (filling rows.new choices.new g.new)) }
    ensures draw_limit { result ≡ Err BuildRefusal.DrawLimit
        → column turns c (filling rows.old choices.old g.old) ≡ None }
    ensures filled { OnOk result (IsFilled rows.old.k rows.old.n (c + 1) rows.new) }
    ensures rows { OnOk result (choices.new.rows ≡ choices.old.rows) }
    ensures drawn { HasDrawn g.old g.new }
{
    let mut blocked = 0;
    for _ in 0..turns {
        let row = choose_row(rows, choices, blocked, c, g)?;
        rows.insert(row, c)?;
        blocked += choices.count(row);
    }
    Ok(())
}

// The row that column c goes into in its next turn, which is taken from the choices if some of them
// are without the column.
fn choose_row(
    rows: &RowsBuilder,
    choices: &mut Choices,
    blocked: u32,
    c: u32,
    g: &mut Draws,
) -> Result<u32, Over>
    requires some { rows.now.k < rows.now.n }
    requires rows { choices.old.rows ≡ rows.now.n - rows.now.k }
    requires blocked { blocked ≡ blocked_count rows.now c choices.old.list }
    ensures turn { IfOk result (λ r. turn c (filling rows.now choices.old g.old)
        ≡ Some (filling (with_entry rows.now r c) choices.new g.new)) }
    ensures over { OnErr result (turn c (filling rows.now choices.old g.old) ≡ None) }
    ensures below { IfOk result (λ r. r < rows.now.n - rows.now.k) }
    ensures free { IfOk result (λ r. has_entry rows.now r c ≡ false) }
    ensures blocked { OnOk result (blocked_count rows.now c choices.new.list ≡ blocked) }
    ensures rows { choices.new.rows ≡ choices.old.rows }
    ensures drawn { HasDrawn g.old g.new }
{
    if blocked < choices.len() {
        let place = pick_choice(rows, choices, c, g)?;
        Ok(choices.take(place))
    } else {
        pick_row(rows, choices.row_count(), c, g)
    }
}
