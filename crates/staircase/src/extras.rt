// The extra columns of rows with fewer than two source symbols.
ghost use Rattle.std.specs.Prelude.{◌≡◌, ◌<◌, ◌≤◌, ◌-◌, ℕ, length, Some, None, Err, OnOk};
ghost use Rattle.sparse_rows.specs.Matrix.{row_of};
ghost use Rattle.staircase.specs.LeftSide.{first_extra, second_extra, extras};
ghost use Rattle.staircase.specs.Left.{HasDrawn, IsFilled, IsLeftSide};
ghost use Rattle.staircase.specs.LeftSide.{in_order, drawn_matrix};

use crate::picks::pick_column;
use crate::refusal::BuildRefusal;
use park_miller::Draws;
use sparse_rows::RowsBuilder;

// Gives each of the rows its extra columns.
pub fn add_extras(
    rows: &mut RowsBuilder,
    k: u32,
    count: u32,
    g: &mut Draws,
) -> Result<(), BuildRefusal>
    requires some { 1 ≤ k }
    requires most { k ≤ 65536 }
    requires filled { IsFilled k rows.old.n k rows.old }
    requires count { count ≡ rows.old.n - k }
    ensures ok { OnOk result (in_order count extras (drawn_matrix rows.old g.old)
        ≡ Some (drawn_matrix rows.new g.new)) }
    ensures draw_limit { result ≡ Err BuildRefusal.DrawLimit
        → in_order count extras (drawn_matrix rows.old g.old) ≡ None }
    ensures sources { OnOk result (IsLeftSide k rows.old.n rows.new) }
    ensures drawn { HasDrawn g.old g.new }
{
    for r in 0..count {
        add_first(rows, r, k, g)?;
        add_second(rows, r, k, g)?;
    }
    Ok(())
}

// Gives row r a source symbol where it has none.
fn add_first(rows: &mut RowsBuilder, r: u32, k: u32, g: &mut Draws) -> Result<(), BuildRefusal>
    requires some { 1 ≤ k }
    requires most { k ≤ 65536 }
    requires filled { IsFilled k rows.old.n k rows.old }
    requires row { r < rows.old.n - k }
    ensures ok { OnOk result (first_extra r (drawn_matrix rows.old g.old)
        ≡ Some (drawn_matrix rows.new g.new)) }
    ensures draw_limit { result ≡ Err BuildRefusal.DrawLimit
        → first_extra r (drawn_matrix rows.old g.old) ≡ None }
    ensures filled { OnOk result (IsFilled k rows.old.n k rows.new) }
    ensures some { OnOk result (0 < length (row_of rows.new r)) }
    ensures keeps { OnOk result ((i : ℕ) → 0 < length (row_of rows.old i)
        → 0 < length (row_of rows.new i)) }
    ensures drawn { HasDrawn g.old g.new }
{
    if rows.source_degree(r) == 0 {
        let column = g.draw(k)?;
        rows.insert(r, column)?;
    }
    Ok(())
}

// Gives row r another source symbol where it has one alone, and there is another.
fn add_second(rows: &mut RowsBuilder, r: u32, k: u32, g: &mut Draws) -> Result<(), BuildRefusal>
    requires some { 1 ≤ k }
    requires most { k ≤ 65536 }
    requires filled { IsFilled k rows.old.n k rows.old }
    requires row { r < rows.old.n - k }
    ensures ok { OnOk result (second_extra r (drawn_matrix rows.old g.old)
        ≡ Some (drawn_matrix rows.new g.new)) }
    ensures draw_limit { result ≡ Err BuildRefusal.DrawLimit
        → second_extra r (drawn_matrix rows.old g.old) ≡ None }
    ensures filled { OnOk result (IsFilled k rows.old.n k rows.new) }
    ensures keeps { OnOk result ((i : ℕ) → 0 < length (row_of rows.old i)
        → 0 < length (row_of rows.new i)) }
    ensures drawn { HasDrawn g.old g.new }
{
    if rows.source_degree(r) == 1 && k >= 2 {
        let column = pick_column(rows, k, r, g)?;
        rows.insert(r, column)?;
    }
    Ok(())
}
