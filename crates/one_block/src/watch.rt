// A watch of one's own: it counts what it is told, and prints it.
ghost use Rattle.std.specs.Prelude.{◌≡◌, OnOk, None, codes};
ghost use Rattle.std.specs.Io.KnownBytes.{Appends};
ghost use Rattle.fec_base.specs.Causes.{HasCause};
ghost use Rattle.fec_base.specs.Watches.{counted_up};
ghost use Rattle.one_block.specs.Lines.{symbol_line};

use crate::lines::put_symbol;
use fec_base::{Failed, Place, Sink, Watch};

/// Counts the symbols that it is told, and prints a line for each. A symbol is counted also where
/// its line isn't printed.
#[derive(Drop)]
pub struct CountWatch<S: Sink + Drop> {
    pub out: S,
    pub count: u64,
}

impl<S: Sink + Drop> CountWatch<S> {
    /// A watch that has counted nothing, and prints its lines there.
    pub fn new(out: S) -> CountWatch<S>
        ensures out { result.out ≡ out }
        ensures count { result.count ≡ 0 }
    {
        CountWatch { out, count: 0 }
    }
}

impl<S: Sink + Drop> Watch for CountWatch<S> {
    // It keeps no list of what it is told.
    ghost told = { λ _. None };

    ghost name = { λ _. 0 };

    ghost faults = { λ w. S.faults w.out };

    fn rebuilt(&mut self, _block: u32, esi: u32, bytes: &[u8]) -> Result<(), Failed>
        ensures count { self.new.count ≡ counted_up self.old.count }
        ensures written { OnOk result (Appends (S.held self.old.out) (S.held self.new.out)
            (symbol_line (codes "rebuilt") esi bytes.now)) }
        ensures cause { HasCause (S.faults self.old.out) (S.faults self.new.out) result }
    {
        self.count = self.count.saturating_add(1);
        match put_symbol(&mut self.out, "rebuilt", esi, bytes) {
            Ok(()) => Ok(()),
            Err(_) => Err(Failed),
        }
    }

    fn told_count(&self) -> u32 {
        0
    }

    fn told_place(&self, _i: u32) -> Option<Place> {
        None
    }

    fn told_bytes(&self, _i: u32) -> &[u8] {
        &[]
    }
}
