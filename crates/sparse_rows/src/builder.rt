// Rows that gain their columns one by one.
ghost use Rattle.std.specs.Prelude.{◌≡◌, ◌<◌, ◌≤◌, ◌-◌, not, replicate, [], length, count_by};
ghost use Rattle.std.specs.Prelude.{nat_lt, take, drop, slice_index, All, IfOk, IfErr, OnOk, OnErr};
ghost use Rattle.std.specs.List.Sorted.{IsStrictlyIncreasing};
ghost use Rattle.sparse_rows.specs.Building.{IsRising};
ghost use Rattle.sparse_rows.specs.Matrix.{row_of, is_in, has_entry, with_column, with_entry};

use fec_base::NoMemory;
use smallvec::SmallVec;
use std::alloc::Global;
use std::marker::Model;

/// The n - k rows of a parity check matrix of n columns, of which the first k are the source
/// symbols, while they are built. The columns of each row rise, in whatever order they come.
#[derive(Drop)]
pub struct RowsBuilder {
    pub(crate) k: u32,
    pub(crate) n: u32,
    // Most rows of a sparse code have few columns, which lie in the row itself.
    pub(crate) rows: Vec<SmallVec<u32, 8>>,
}

impl Model for RowsBuilder {
    ghost use Rattle.sparse_rows.specs.Matrix.{Matrix};
    ghost use Rattle.sparse_rows.specs.Rows.{matrix_of_rows};
    ghost use Rattle.sparse_rows.specs.Building.{IsBuilt};

    ghost Value = { Matrix };

    ghost view = { λ b. matrix_of_rows b.k b.n b.rows.items };

    ghost invariant = { λ b. IsBuilt (matrix_of_rows b.k b.n b.rows.items) };
}

impl RowsBuilder {
    /// n - k rows without a column.
    pub fn new(alloc: Global, k: u32, n: u32) -> Result<RowsBuilder, NoMemory>
        requires some { 1 ≤ k }
        requires within { k ≤ n }
        requires most { n ≤ 65536 }
        ensures { IfOk result (λ b. b ≡ record { k = k; n = n; rows = replicate (n - k) [] }) }
    {
        let rows = empty_rows(alloc, (n - k) as usize)?;
        Ok(RowsBuilder { k, n, rows })
    }

    /// Puts column c into row r. True where it was added, false where the row had it before.
    /// `NoMemory` changes nothing.
    pub fn insert(&mut self, r: u32, c: u32) -> Result<bool, NoMemory>
        requires row { r < self.old.n - self.old.k }
        requires column { c < self.old.n }
        ensures added { IfOk result (λ added. added ≡ not (has_entry self.old r c)) }
        ensures ok { OnOk result (self.new ≡ with_entry self.old r c) }
        ensures err { OnErr result (self.new ≡ self.old) }
    {
        insert_column(&mut self.rows[r as usize], c)
    }

    /// Whether row r has column c.
    pub fn has(&self, r: u32, c: u32) -> bool
        requires { r < self.now.n - self.now.k }
        ensures { result ≡ has_entry self.now r c }
    {
        place_of(self.row(r), c).is_ok()
    }

    /// How many source symbols row r sums: the number of its columns below k.
    pub fn source_degree(&self, r: u32) -> u32
        requires { r < self.now.n - self.now.k }
        ensures { result ≡ count_by (λ column. nat_lt column self.now.k) (row_of self.now r) }
    {
        match place_of(self.row(r), self.k) {
            Ok(place) | Err(place) => place as u32,
        }
    }

    // The columns of row r.
    fn row(&self, r: u32) -> &[u32]
        requires { r < self.now.n - self.now.k }
        ensures value { result.now ≡ row_of self.now r }
        ensures rising { IsRising self.now.n result.now }
        ensures most { self.now.n ≤ 65536 }
    {
        self.rows[r as usize].as_slice()
    }
}

// Rows without a column.
pub(crate) fn empty_rows(alloc: Global, count: usize) -> Result<Vec<SmallVec<u32, 8>>, NoMemory>
    ensures { IfOk result (λ rows. rows.items
        ≡ replicate count (record { items = []; capacity = 8 })) }
{
    let mut rows = Vec::with_capacity(alloc, count)?;
    for _ in 0..count {
        rows.push(SmallVec::new(alloc))?;
    }
    Ok(rows)
}

// Where a row has the column, or where it belongs. Columns mostly come in rising order, and then
// nothing is searched.
fn place_of(row: &[u32], c: u32) -> Result<usize, usize>
    requires { IsStrictlyIncreasing row.now }
    ensures held { IfOk result (λ i. (i < length row.now) × (slice_index row.now i ≡ c)) }
    ensures bound { IfErr result (λ i. i ≤ length row.now) }
    ensures below { IfErr result (λ i. All (λ column. column < c) (take i row.now)) }
    ensures above { IfErr result (λ i. All (λ column. c < column) (drop i row.now)) }
{
    match row.last() {
        Some(last) if *last < c => Err(row.len()),
        _ => row.binary_search(&c),
    }
}

// Puts the column into the row, and says whether it was not there.
fn insert_column(row: &mut SmallVec<u32, 8>, c: u32) -> Result<bool, NoMemory>
    requires { IsStrictlyIncreasing row.old.items }
    ensures added { IfOk result (λ added. added ≡ not (is_in row.old.items c)) }
    ensures ok { OnOk result (row.new.items ≡ with_column c row.old.items) }
    ensures err { OnErr result (row.new ≡ row.old) }
{
    match place_of(row.as_slice(), c) {
        Ok(_) => Ok(false),
        Err(place) => {
            row.insert(place, c)?;
            Ok(true)
        }
    }
}
