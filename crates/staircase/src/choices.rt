// The rows that are left to choose from.
ghost use Rattle.std.specs.Prelude.{◌≡◌, ◌==◌, ◌<◌, ◌≤◌, ◌%◌, length, map, count_by, slice_index};
ghost use Rattle.std.specs.Prelude.{IfOk};
ghost use Rattle.std.specs.List.{range_with_len};
ghost use Rattle.staircase.specs.LeftSide.{without};

use fec_base::NoMemory;
use park_miller::MAX_BOUND;
use std::alloc::Global;
use std::marker::Model;

// Rows to choose from. What is left of the items lies from a limit on, which moves as they are
// taken. A count for each row spares the search for the items that are that row.
#[derive(Drop)]
pub struct Choices {
    items: Vec<u32>,
    first: usize,
    counts: Vec<u32>,
}

impl Model for Choices {
    ghost use Rattle.std.specs.Prelude.{length, drop};
    ghost use Rattle.staircase.specs.Choices.{RowList, IsCounted};

    ghost Value = { RowList };

    ghost view = { λ a. record
        { rows = length a.counts.items; list = drop a.first a.items.items } };

    ghost invariant = { λ a. IsCounted a.first a.items.items a.counts.items };
}

impl Choices {
    // So many choices, which go through the rows in a circle.
    pub fn new(alloc: Global, rows: u32, count: u32) -> Result<Choices, NoMemory>
        requires some { 1 ≤ rows }
        requires few { rows ≤ 65536 }
        requires most { count ≤ MAX_BOUND }
        ensures { IfOk result (λ choices. choices
            ≡ record { rows = rows; list = map (λ h. h % rows) (range_with_len 0 count) }) }
    {
        let mut items = Vec::with_capacity(alloc, count as usize)?;
        let mut counts = vec![in alloc; 0; rows as usize]?;
        for h in 0..count {
            let row = h % rows;
            items.push(row)?;
            counts[row as usize] += 1;
        }
        Ok(Choices {
            items,
            first: 0,
            counts,
        })
    }

    // How many rows there are.
    pub fn row_count(&self) -> u32
        ensures value { result ≡ self.now.rows }
        ensures few { result ≤ 65536 }
    {
        self.counts.len() as u32
    }

    // How many are left.
    pub fn len(&self) -> u32
        ensures value { result ≡ length self.now.list }
        ensures most { result ≤ MAX_BOUND }
    {
        (self.items.len() - self.first) as u32
    }

    // The row at place i of those that are left.
    pub fn row(&self, i: u32) -> u32
        requires { i < length self.now.list }
        ensures value { result ≡ slice_index self.now.list i }
        ensures below { result < self.now.rows }
    {
        self.items[self.first + i as usize]
    }

    // How often row r is left.
    pub fn count(&self, r: u32) -> u32
        requires { r < self.now.rows }
        ensures value { result ≡ count_by (λ row. row == r) self.now.list }
        ensures most { length self.now.list ≤ MAX_BOUND }
    {
        self.counts[r as usize]
    }

    // Takes the row at place i. The first one goes there, and the limit moves past where it was.
    pub fn take(&mut self, i: u32) -> u32
        requires { i < length self.old.list }
        ensures value { result ≡ slice_index self.old.list i }
        ensures below { result < self.old.rows }
        ensures rest { self.new ≡ record self.old { list = without self.old.list i } }
    {
        let place = self.first + i as usize;
        let row = self.items[place];
        self.items[place] = self.items[self.first];
        self.first += 1;
        self.counts[row as usize] -= 1;
        row
    }
}
