// What a row has left.
ghost use Rattle.std.specs.Prelude.{◌≡◌, ◌<◌, ◌+◌, ◌-◌, ◌%◌, bit_xor, map, IfOk};
ghost use Rattle.sparse_rows.specs.Matrix.{IsCode, row_of};
ghost use Rattle.peeling.specs.Unknowns.{unknowns_of};

use fec_base::{NoMemory, Steps, Tally};
use sparse_rows::Code;
use std::alloc::Global;

// How many columns a row has left, and the XOR of their numbers: the column itself where one is
// left. Only a row with 65,536 columns that has all of them left has a number that doesn't fit,
// and counts 0. It has fewer as soon as it has lost one.
#[derive(Clone, Copy)]
pub(crate) struct Unknowns {
    pub(crate) count: u16,
    pub(crate) columns: u16,
}

// The same without one of the columns.
pub(crate) fn without(left: Unknowns, c: u32) -> Unknowns
    requires { c < 65536 }
    ensures { result ≡ record {
      count = (left.count + 65535) % 65536;
      columns = bit_xor left.columns c;
    } }
{
    Unknowns {
        count: left.count.wrapping_sub(1),
        columns: left.columns ^ c as u16,
    }
}

// Each row has all of its columns left.
pub(crate) fn all_unknown(alloc: Global, code: &Code) -> Result<Vec<Unknowns>, NoMemory>
    ensures { IfOk result (λ rows. rows.items ≡ map unknowns_of code.now.rows) }
{
    let count = code.n() - code.k();
    let mut rows = Vec::with_capacity(alloc, count as usize)?;
    for r in 0..count {
        rows.push(row_unknowns(code, r))?;
    }
    Ok(rows)
}

// All columns of row r.
fn row_unknowns(code: &Code, r: u32) -> Unknowns
    requires { r < code.now.n - code.now.k }
    ensures { result ≡ unknowns_of (row_of code.now r) }
{
    // The call of `k` tells that there are at most 65,536 columns.
    prove!(code.k() <= code.n());
    let mut steps = Steps::<Tally>::start();
    let count = code.row_len(r);
    let mut columns = 0;
    for i in 0..count {
        columns ^= code.row_entry(r, i, &mut steps) as u16;
    }
    Unknowns {
        count: (count % 65_536) as u16,
        columns,
    }
}
