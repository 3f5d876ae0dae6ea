// What the arrivals at a core leave to ask for.
ghost use Rattle.std.specs.Prelude.{◌≡◌};
ghost use Rattle.std.specs.List.Sorted.{IsStrictlyIncreasing};

use std::marker::Model;

/// What the symbols that arrived leave to ask for.
#[derive(Drop)]
pub enum Request {
    /// No codeword fits them, so no further symbols help.
    NoCodeword,
    /// Some codeword does: the fewest positions whose symbols determine the block. None are left
    /// exactly where what arrived determines it.
    Symbols(Positions),
}

/// Positions of encoding symbols, in rising order.
#[derive(Drop)]
pub struct Positions {
    positions: Vec<u32>,
}

impl Model for Positions {
    ghost use Rattle.std.specs.Prelude.{ℕ, List};
    ghost use Rattle.std.specs.List.Sorted.{IsStrictlyIncreasing};

    ghost Value = { List ℕ };

    ghost view = { λ p. p.positions.items };

    ghost invariant = { λ p. IsStrictlyIncreasing p.positions.items };
}

impl Positions {
    // These positions.
    pub(crate) fn new(positions: Vec<u32>) -> Positions
        requires { IsStrictlyIncreasing positions.items }
        ensures { result ≡ positions.items }
    {
        Positions { positions }
    }

    /// The positions, in rising order.
    pub fn as_slice(&self) -> &[u32]
        ensures value { result.now ≡ self.now }
        ensures rising { IsStrictlyIncreasing self.now }
    {
        &self.positions
    }
}
