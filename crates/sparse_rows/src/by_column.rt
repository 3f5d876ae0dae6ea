// The columns of rows, each as the rows that have it.
ghost use Rattle.std.specs.Prelude.{◌≡◌, ◌≤◌, All, length, IfOk, OnOk};
ghost use Rattle.sparse_rows.specs.Rows.{lists_of};
ghost use Rattle.sparse_rows.specs.Building.{IsRising};
ghost use Rattle.sparse_rows.specs.Rows.{columns_in, GainsRow};

use crate::builder::empty_rows;
use fec_base::NoMemory;
use smallvec::SmallVec;
use std::alloc::Global;

// For each of n columns the rows that have it, rising.
pub(crate) fn by_columns(
    alloc: Global,
    n: usize,
    rows: &[SmallVec<u32, 8>],
) -> Result<Vec<SmallVec<u32, 8>>, NoMemory>
    requires few { length rows.now ≤ 65536 }
    requires rows { All (IsRising n) (lists_of rows.now) }
    ensures { IfOk result (λ columns. lists_of columns.items ≡ columns_in n (lists_of rows.now)) }
{
    let mut columns = empty_rows(alloc, n)?;
    for r in 0..rows.len() {
        put_row(&mut columns, r as u32, rows[r].as_slice())?;
    }
    Ok(columns)
}

// Puts row r behind the rows of each of its columns.
fn put_row(columns: &mut [SmallVec<u32, 8>], r: u32, row: &[u32]) -> Result<(), NoMemory>
    requires { IsRising (length columns.old) row.now }
    ensures { OnOk result (GainsRow r row.now (lists_of columns.old) (lists_of columns.new)) }
{
    for c in row {
        columns[*c as usize].push(r)?;
    }
    Ok(())
}
