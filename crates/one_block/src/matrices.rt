// The rows of matrices.
ghost use Rattle.std.specs.Prelude.{◌≡◌, ◌<◌, ◌-◌, IfOk, OnOk};
ghost use Rattle.std.specs.Io.KnownBytes.{Appends};
ghost use Rattle.sparse_rows.specs.Matrix.{row_of};
ghost use Rattle.one_block.specs.Lines.{row_lines};

use crate::fault::Fault;
use crate::lines::put_line;
use fec_base::{Sink, Steps, Tally};
use sparse_rows::Code;
use std::alloc::Global;

/// Prints the rows of a matrix, one a line.
pub fn put_rows<S: Sink>(alloc: Global, out: &mut S, code: &Code) -> Result<(), Fault>
    ensures { OnOk result (Appends (S.held out.old) (S.held out.new) (row_lines code.now.rows)) }
{
    for r in 0..code.n() - code.k() {
        let columns = row_columns(alloc, code, r)?;
        put_line(out, "row", &columns)?;
    }
    Ok(())
}

// The columns of a row.
fn row_columns(alloc: Global, code: &Code, r: u32) -> Result<Vec<u32>, Fault>
    requires { r < code.now.n - code.now.k }
    ensures { IfOk result (λ columns. columns.items ≡ row_of code.now r) }
{
    let mut steps = Steps::<Tally>::start();
    let mut columns = Vec::with_capacity(alloc, code.row_len(r) as usize)?;
    for i in 0..code.row_len(r) {
        columns.push(code.row_entry(r, i, &mut steps))?;
    }
    Ok(columns)
}
