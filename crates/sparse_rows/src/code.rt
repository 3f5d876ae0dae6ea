// A parity check matrix as the crates above read it.
ghost use Rattle.std.specs.Prelude.{◌≡◌, ◌<◌, ◌≤◌, ◌+◌, ◌-◌, length, slice_index, sum_by, IfOk};
ghost use Rattle.sparse_rows.specs.Matrix.{HasShape, IsCode, row_of};
ghost use Rattle.sparse_rows.specs.Columns.{column_of};

use crate::RowsBuilder;
use crate::by_column::by_columns;
use crate::layout::Layout;
use fec_base::{Ledger, NoMemory, Steps};
use std::alloc::Global;
use std::marker::Model;
use std::rc::Rc;

/// The parity check matrix of a code of n encoding symbols, of which the first k are the source
/// symbols: n - k rows of rising columns, kept one after the other, and each column's rows. Row i
/// has column k + i and none above, and at least one below k, so that repair symbol k + i follows
/// from the symbols before it. Copies of a code share all of that.
#[derive(Drop)]
pub struct Code {
    k: u32,
    n: u32,
    tables: Rc<Tables>,
}

// For each row its columns, and for each column the rows that have it.
#[derive(Drop)]
struct Tables {
    rows: Layout,
    columns: Layout,
}

impl Model for Code {
    ghost use Rattle.sparse_rows.specs.Matrix.{Matrix, IsCode};
    ghost use Rattle.sparse_rows.specs.Rows.{IsKept};

    ghost Value = { Matrix };

    ghost view = { λ a. record { k = a.k; n = a.n; rows = a.tables.value.rows } };

    ghost invariant = { λ a. IsKept a.k a.n a.tables.value.rows a.tables.value.columns };
}

impl Code {
    /// The matrix of these rows. `NoMemory` gives up the builder.
    pub fn from_builder(alloc: Global, b: RowsBuilder) -> Result<Code, NoMemory>
        requires { HasShape b }
        ensures { IfOk result (λ code. code ≡ b) }
    {
        let RowsBuilder { k, n, rows } = b;
        let columns = Layout::of(alloc, &by_columns(alloc, n as usize, &rows)?)?;
        let rows = Layout::of(alloc, &rows)?;
        let tables = Rc::new(alloc, Tables { rows, columns })?;
        Ok(Code { k, n, tables })
    }

    /// Another code with the same matrix: the two share its rows and its columns. `NoMemory` leaves
    /// this one as it is.
    pub fn copy(&self, _alloc: Global) -> Result<Code, NoMemory>
        ensures { IfOk result (λ code. code ≡ self.now) }
    {
        Ok(Code {
            k: self.k,
            n: self.n,
            tables: self.tables.clone()?,
        })
    }

    /// The number of source symbols, at least 1.
    pub fn k(&self) -> u32
        ensures value { result ≡ self.now.k }
        ensures code { IsCode self.now }
    {
        self.k
    }

    /// The number of encoding symbols, at most 65,536.
    pub fn n(&self) -> u32
        ensures value { result ≡ self.now.n }
        ensures code { IsCode self.now }
    {
        self.n
    }

    /// The number of pairs of a row and one of its columns.
    pub fn entries(&self) -> u64
        ensures { result ≡ sum_by length self.now.rows }
    {
        self.tables.rows.items() as u64
    }

    /// How many columns row r has.
    pub fn row_len(&self, r: u32) -> u32
        requires { r < self.now.n - self.now.k }
        ensures { result ≡ length (row_of self.now r) }
    {
        self.row(r).len() as u32
    }

    /// The i-th column of row r, counted from 0, by one step.
    pub fn row_entry<L: Ledger>(&self, r: u32, i: u32, steps: &mut Steps<L>) -> u32
        requires row { r < self.now.n - self.now.k }
        requires place { i < length (row_of self.now r) }
        ensures value { result ≡ slice_index (row_of self.now r) i }
        ensures cost { steps.new ≡ steps.old + 1 }
    {
        steps.tick();
        self.row(r)[i as usize] as u32
    }

    // The columns of row r, rising.
    fn row(&self, r: u32) -> &[u16]
        requires { r < self.now.n - self.now.k }
        ensures value { result.now ≡ row_of self.now r }
        ensures short { length result.now ≤ 65536 }
    {
        self.tables.rows.list(r)
    }

    /// How many rows have column c.
    pub fn col_len(&self, c: u32) -> u32
        requires { c < self.now.n }
        ensures { result ≡ length (column_of self.now c) }
    {
        self.column(c).len() as u32
    }

    /// The i-th row that has column c, counted from 0, by one step.
    pub fn col_entry<L: Ledger>(&self, c: u32, i: u32, steps: &mut Steps<L>) -> u32
        requires column { c < self.now.n }
        requires place { i < length (column_of self.now c) }
        ensures value { result ≡ slice_index (column_of self.now c) i }
        ensures cost { steps.new ≡ steps.old + 1 }
    {
        steps.tick();
        self.column(c)[i as usize] as u32
    }

    // The rows that have column c.
    fn column(&self, c: u32) -> &[u16]
        requires { c < self.now.n }
        ensures value { result.now ≡ column_of self.now c }
        ensures short { length result.now ≤ 65536 }
    {
        self.tables.columns.list(c)
    }
}
