// A word of columns.
ghost use Rattle.std.specs.Prelude.{◌≡◌, IfOk};
ghost use Rattle.std.specs.List.Sorted.{IsStrictlyIncreasing};

use fec_base::NoMemory;
use std::alloc::Global;
use std::marker::Model;

/// Columns of a matrix, as positions of encoding symbols, in rising order. Whether they are a null
/// word of some arrivals is what `check` says.
#[derive(Drop)]
pub struct NullWord {
    positions: Vec<u32>,
}

impl Model for NullWord {
    ghost use Rattle.std.specs.Prelude.{ℕ, List};
    ghost use Rattle.std.specs.List.Sorted.{IsStrictlyIncreasing};

    ghost Value = { List ℕ };

    ghost view = { λ w. w.positions.items };

    ghost invariant = { λ w. IsStrictlyIncreasing w.positions.items };
}

impl NullWord {
    /// The word of these positions.
    pub fn new(alloc: Global, positions: &[u32]) -> Result<NullWord, NoMemory>
        requires { IsStrictlyIncreasing positions.now }
        ensures { IfOk result (λ word. word ≡ positions.now) }
    {
        let positions = Vec::from_slice(alloc, positions)?;
        Ok(NullWord { positions })
    }

    /// The positions, in rising order.
    pub fn positions(&self) -> &[u32]
        ensures value { result.now ≡ self.now }
        ensures rising { IsStrictlyIncreasing self.now }
    {
        &self.positions
    }
}
