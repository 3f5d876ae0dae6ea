// What a system of equations determines.
ghost use Rattle.std.specs.Prelude.{◌≡◌, ◌<◌, ◌≤◌, [], length, slice_index_or};

use null_witness::NullWord;
use std::marker::Model;

/// What a system of equations determines.
#[derive(Drop)]
pub enum Answer {
    /// No assignment of symbols solves it.
    Clash,
    /// One assignment does, and no other.
    One(Values),
    /// Several do. This set of unknowns shows it: each equation has an even number of them, so any
    /// one symbol may be added to all of them. Of such sets it is the one whose last unknown is
    /// least.
    Free(NullWord),
}

/// The only solution: a symbol for each unknown.
#[derive(Drop)]
pub struct Values {
    pub(crate) count: u32,
    pub(crate) len: u32,
    pub(crate) bytes: Vec<u8>,
}

impl Model for Values {
    ghost use Rattle.std.specs.Prelude.{ℕ, List};
    ghost use Rattle.gauss.specs.Packed.{AreSymbols};
    ghost use Rattle.fec_base.specs.Symbol.{symbols_of};

    ghost Value = { List (List ℕ) };

    ghost view = { λ v. symbols_of v.len v.count v.bytes.items };

    ghost invariant = { λ v. AreSymbols v.len v.count v.bytes.items };
}

impl Values {
    // How many symbols there are.
    pub(crate) fn count(&self) -> u32
        ensures value { result ≡ length self.now }
        ensures few { result ≤ 65536 }
    {
        self.count
    }

    /// The symbol of unknown i, counted from 0: as many bytes as a sum of the equations has.
    pub fn symbol(&self, i: u32) -> &[u8]
        requires { i < length self.now }
        ensures { result.now ≡ slice_index_or self.now i [] }
    {
        let bytes = self.bytes.as_slice();
        let start = i as usize * self.len as usize;
        &bytes[start..start + self.len as usize]
    }
}
