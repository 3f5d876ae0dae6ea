// What the arrivals at a core determine.
ghost use Rattle.std.specs.Prelude.{◌≡◌, ◌<◌, ◌≤◌, ℕ, true, false, [], length, Contains};
ghost use Rattle.std.specs.Prelude.{slice_index, slice_index_or};
ghost use Rattle.std.specs.List.Sorted.{IsStrictlyIncreasing};
ghost use Rattle.peeling.specs.Lookups.{HasAllSource};
ghost use Rattle.fec_session.specs.Kept.{AreValues, source_of};

use crate::Core;
use gauss::Values;
use null_witness::NullWord;
use std::marker::Model;

/// What the symbols that arrived determine of a source block.
#[derive(Drop)]
pub enum Verdict {
    /// No codeword fits them. The core is as it was, and may take further symbols.
    NoCodeword(Core),
    /// Some codeword does, and all that fit have this source block.
    Block(SourceBlock),
    /// Codewords of different source blocks fit. The null word of the positions that arrived shows
    /// it: of all there are it is the one whose last position is least. The core is as it was, and
    /// may take further symbols.
    Undetermined(Core, NullWord),
}

/// A source block that was determined: k symbols of `len` bytes. It keeps the decoder's symbols
/// where they are, and beside them those that elimination gave to the columns which peeling left
/// unknown. So no symbol is copied, and each is stored once. A look-up of a symbol that peeling
/// left unknown halves the list of these columns.
#[derive(Drop)]
pub struct SourceBlock {
    core: Core,
    // What elimination gave, where peeling alone didn't give the source.
    solved: Option<Solved>,
}

// The columns that peeling left unknown, rising, and the symbol of each.
#[derive(Drop)]
struct Solved {
    columns: Vec<u32>,
    values: Values,
}

impl Model for SourceBlock {
    ghost use Rattle.std.specs.Option.{is_none};
    ghost use Rattle.fec_session.specs.Block.{Block};

    ghost Value = { Block };

    ghost use Rattle.fec_session.specs.Kept.{HasSymbols, source_of, values_of};

    ghost view = { λ b. record {
      source = source_of b.core (values_of b.solved);
      by_peeling = is_none b.solved;
    } };

    ghost invariant = { λ b. HasSymbols b.core b.solved };
}

impl SourceBlock {
    // The source block of a core that knows it.
    pub(crate) fn peeled(core: Core) -> SourceBlock
        requires { HasAllSource core }
        ensures { result ≡ record { source = source_of core []; by_peeling = true } }
    {
        SourceBlock { core, solved: None }
    }

    // The source block of a core, and of the symbols of its unknown columns.
    pub(crate) fn solved(core: Core, columns: Vec<u32>, values: Values) -> SourceBlock
        requires { AreValues core columns.items values }
        ensures { result ≡ record { source = source_of core values; by_peeling = false } }
    {
        SourceBlock {
            core,
            solved: Some(Solved { columns, values }),
        }
    }

    /// Source symbol e, counted from 0: `len` bytes.
    pub fn symbol(&self, e: u32) -> &[u8]
        requires { e < length self.now.source }
        ensures value { result.now ≡ slice_index_or self.now.source e [] }
        ensures short { length result.now ≤ 65535 }
    {
        // These calls tell that the source symbols are positions of the code.
        prove!(self.core.code().k() <= self.core.code().n());
        if let Some(bytes) = self.core.symbol(e) {
            return bytes;
        }
        match &self.solved {
            Some(solved) => value_of(&solved.columns, &solved.values, e),
            None => unreachable!(),
        }
    }

    /// Whether the closure of what arrived holds every source symbol, so that peeling alone gave
    /// them.
    pub fn by_peeling(&self) -> bool
        ensures { result ≡ self.now.by_peeling }
    {
        self.solved.is_none()
    }
}

// The value of a column: the columns rise, and value i is that of column i.
fn value_of<'a>(columns: &[u32], values: &'a Values, column: u32) -> &'a [u8]
    requires rising { IsStrictlyIncreasing columns.now }
    requires count { length values.now ≡ length columns.now }
    requires few { length columns.now ≤ 65536 }
    requires there { Contains columns.now column }
    ensures { (i : ℕ) → i < length columns.now → slice_index columns.now i ≡ column
        → result.now ≡ slice_index_or values.now i [] }
{
    match columns.binary_search(&column) {
        Ok(i) => values.symbol(i as u32),
        Err(_) => unreachable!(),
    }
}
