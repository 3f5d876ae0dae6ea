// The grid, source symbol by source symbol.
ghost use Rattle.std.specs.Prelude.{◌≡◌, ◌≤◌, ◌<◌, ◌+◌, min, replicate, [], length, All, IfOk};
ghost use Rattle.std.specs.Prelude.{OnOk};
ghost use Rattle.std.specs.Int.{div_ceil};
ghost use Rattle.blocking.specs.Blocks.{size_2d};
ghost use Rattle.blocking.specs.CornerSize.{size_2d_corner};
ghost use Rattle.parity_2d.specs.Grid.{grid_matrix};
ghost use Rattle.parity_2d.specs.Corner.{corner_matrix};
ghost use Rattle.parity_2d.specs.Filling.{matrix_of, source_rows, with_parities};

use fec_base::NoMemory;
use sparse_rows::{Code, RowsBuilder};
use std::alloc::Global;

/// The code of `k` source symbols in a grid of this width. Row i of the matrix sums row i of the
/// grid and its repair symbol; the rows for the grid's columns follow. It takes one pass over the
/// matrix's entries. `NoMemory` where the allocator has no room for the rows.
pub fn parity_2d(alloc: Global, k: u32, width: u32) -> Result<Code, NoMemory>
    requires some { 1 ≤ k }
    requires wide { 1 ≤ width }
    requires fits { size_2d k width ≤ 65536 }
    ensures { IfOk result (λ code. code ≡ grid_matrix k width) }
{
    code_of(alloc, k, width, 0)
}

/// The code of `k` source symbols in a grid of this width with a corner: the rows of `parity_2d`,
/// and a last row, which sums all source symbols and the last repair symbol. It takes one pass over
/// the matrix's entries. `NoMemory` where the allocator has no room for the rows.
pub fn parity_2d_corner(alloc: Global, k: u32, width: u32) -> Result<Code, NoMemory>
    requires some { 1 ≤ k }
    requires wide { 1 ≤ width }
    requires fits { size_2d_corner k width ≤ 65536 }
    ensures { IfOk result (λ code. code ≡ corner_matrix k width) }
{
    code_of(alloc, k, width, 1)
}

// The code of a grid without a corner or with one.
fn code_of(alloc: Global, k: u32, width: u32, corners: u32) -> Result<Code, NoMemory>
    requires some { 1 ≤ k }
    requires wide { 1 ≤ width }
    requires few { corners ≤ 1 }
    requires fits { size_2d k width + corners ≤ 65536 }
    ensures { IfOk result (λ code. code ≡ matrix_of k width corners) }
{
    let grid_rows = k.div_ceil(width);
    let parities = grid_rows + width.min(k) + corners;
    let mut rows = RowsBuilder::new(alloc, k, k + parities)?;
    add_sources(&mut rows, k, width, grid_rows, corners)?;
    add_parities(&mut rows, k, parities)?;
    Code::from_builder(alloc, rows)
}

// Puts each source symbol into its row and its column of the grid, and into the corner's row.
fn add_sources(
    rows: &mut RowsBuilder,
    k: u32,
    width: u32,
    grid_rows: u32,
    corners: u32,
) -> Result<(), NoMemory>
    requires wide { 1 ≤ width }
    requires few { corners ≤ 1 }
    requires fits { size_2d k width + corners ≤ 65536 }
    requires grid { grid_rows ≡ div_ceil k width }
    requires k { rows.old.k ≡ k }
    requires n { rows.old.n ≡ size_2d k width + corners }
    requires empty { rows.old.rows ≡ replicate (div_ceil k width + min width k + corners) [] }
    ensures { OnOk result (rows.new ≡ record rows.old { rows = source_rows k width corners }) }
{
    let corner = grid_rows + width.min(k);
    for c in 0..k {
        rows.insert(c / width, c)?;
        rows.insert(grid_rows + c % width, c)?;
        if corners > 0 {
            rows.insert(corner, c)?;
        }
    }
    Ok(())
}

// Puts each repair symbol into its row of the matrix.
fn add_parities(rows: &mut RowsBuilder, k: u32, parities: u32) -> Result<(), NoMemory>
    requires k { rows.old.k ≡ k }
    requires n { rows.old.n ≡ k + parities }
    requires fits { k + parities ≤ 65536 }
    requires count { length rows.old.rows ≡ parities }
    requires sources { All (All (λ c. c < k)) rows.old.rows }
    ensures { OnOk result (rows.new ≡ with_parities rows.old) }
{
    for r in 0..parities {
        rows.insert(r, k + r)?;
    }
    Ok(())
}
