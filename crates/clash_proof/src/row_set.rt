// A set of rows.
ghost use Rattle.std.specs.Prelude.{◌≡◌, IfOk};
ghost use Rattle.std.specs.List.Sorted.{IsStrictlyIncreasing};

use fec_base::NoMemory;
use std::alloc::Global;
use std::marker::Model;

/// Rows of a parity check matrix, counted from 0, in rising order. Whether their sum contradicts
/// some evidence is what `holds` says.
#[derive(Drop)]
pub struct RowSet {
    rows: Vec<u32>,
}

impl Model for RowSet {
    ghost use Rattle.std.specs.Prelude.{ℕ, List};
    ghost use Rattle.std.specs.List.Sorted.{IsStrictlyIncreasing};

    ghost Value = { List ℕ };

    ghost view = { λ s. s.rows.items };

    ghost invariant = { λ s. IsStrictlyIncreasing s.rows.items };
}

impl RowSet {
    /// The set of these rows, which rise. They are copied. `NoMemory` comes only for want of
    /// memory.
    pub fn new(alloc: Global, rows: &[u32]) -> Result<RowSet, NoMemory>
        requires { IsStrictlyIncreasing rows.now }
        ensures { IfOk result (λ set. set ≡ rows.now) }
    {
        let rows = Vec::from_slice(alloc, rows)?;
        Ok(RowSet { rows })
    }

    /// The rows, in rising order.
    pub fn rows(&self) -> &[u32]
        ensures value { result.now ≡ self.now }
        ensures rising { IsStrictlyIncreasing self.now }
    {
        &self.rows
    }
}
