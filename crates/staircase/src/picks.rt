// Draws that are repeated until one is good.
ghost use Rattle.std.specs.Prelude.{◌≡◌, ◌<◌, ◌≤◌, ◌-◌, false, length, slice_index, Some, None};
ghost use Rattle.std.specs.Prelude.{IfOk, OnErr};
ghost use Rattle.sparse_rows.specs.Matrix.{has_entry};
ghost use Rattle.staircase.specs.Pick.{pick};
ghost use Rattle.staircase.specs.Left.{HasDrawn};
ghost use Rattle.staircase.specs.LeftSide.{lacks};

use crate::choices::Choices;
use park_miller::{Draws, MAX_BOUND, Over};
use sparse_rows::RowsBuilder;

// A place of the choices whose row is without column c.
pub fn pick_choice(
    rows: &RowsBuilder,
    choices: &Choices,
    c: u32,
    g: &mut Draws,
) -> Result<u32, Over>
    requires some { 1 ≤ length choices.now.list }
    requires rows { choices.now.rows ≡ rows.now.n - rows.now.k }
    ensures picked { IfOk result
        (λ i. pick (length choices.now.list)
        (λ place. lacks rows.now c (slice_index choices.now.list place)) g.old
        ≡ Some (record { value = i; draws = g.new })) }
    ensures over { OnErr result
        (pick (length choices.now.list)
        (λ place. lacks rows.now c (slice_index choices.now.list place)) g.old ≡ None) }
    ensures below { IfOk result (λ i. i < length choices.now.list) }
    ensures free { IfOk result (λ i. has_entry rows.now (slice_index choices.now.list i) c
        ≡ false) }
    ensures drawn { HasDrawn g.old g.new }
{
    loop {
        let place = g.draw(choices.len())?;
        if !rows.has(choices.row(place), c) {
            return Ok(place);
        }
    }
}

// A row without column c, of so many.
pub fn pick_row(rows: &RowsBuilder, count: u32, c: u32, g: &mut Draws) -> Result<u32, Over>
    requires some { 1 ≤ count }
    requires most { count ≤ MAX_BOUND }
    requires rows { count ≡ rows.now.n - rows.now.k }
    ensures picked { IfOk result (λ r. pick count (lacks rows.now c) g.old
        ≡ Some (record { value = r; draws = g.new })) }
    ensures over { OnErr result (pick count (lacks rows.now c) g.old ≡ None) }
    ensures below { IfOk result (λ r. r < count) }
    ensures free { IfOk result (λ r. has_entry rows.now r c ≡ false) }
    ensures drawn { HasDrawn g.old g.new }
{
    loop {
        let row = g.draw(count)?;
        if !rows.has(row, c) {
            return Ok(row);
        }
    }
}

// A source symbol, of k, that isn't in row r.
pub fn pick_column(rows: &RowsBuilder, k: u32, r: u32, g: &mut Draws) -> Result<u32, Over>
    requires some { 1 ≤ k }
    requires most { k ≤ MAX_BOUND }
    requires row { r < rows.now.n - rows.now.k }
    ensures picked { IfOk result (λ c. pick k (λ column. lacks rows.now column r) g.old
        ≡ Some (record { value = c; draws = g.new })) }
    ensures over { OnErr result (pick k (λ column. lacks rows.now column r) g.old ≡ None) }
    ensures below { IfOk result (λ c. c < k) }
    ensures drawn { HasDrawn g.old g.new }
{
    loop {
        let column = g.draw(k)?;
        if !rows.has(r, column) {
            return Ok(column);
        }
    }
}
