// The decoder of one source block.
ghost use Rattle.std.specs.Prelude.{◌≡◌, ◌↔◌, ◌<◌, ◌≤◌, ◌+◌, ◌*◌, ℕ, true, [], IsTrue, IsSome};
ghost use Rattle.std.specs.Prelude.{IfSome, IfOk, IfErr, length, count_by};
ghost use Rattle.std.specs.List.Sorted.{IsStrictlyIncreasing};
ghost use Rattle.sparse_rows.specs.Closure.{flagged};
ghost use Rattle.peeling.specs.Decoder.{kept, IsDecoder};
ghost use Rattle.peeling.specs.Lookups.{known_entries, HasAllSource, IsEmpty};
ghost use Rattle.peeling.specs.Stands.{StandsFor, Receives};
ghost use Rattle.peeling.specs.Outcome.{IsOutcome};
ghost use Rattle.fec_session.specs.Residue.{residue, unknown_columns};
ghost use Rattle.fec_session.specs.Verdict.{Decides, Holds};

use crate::elimination::{Residual, eliminate};
use crate::residue::{equations, unknown_columns};
use crate::{Residue, SourceBlock, Verdict};
use fec_base::{Ledger, NoMemory, Steps};
use peeling::{Arrival, Peeler};
use sparse_rows::Code;
use std::alloc::Global;
use std::marker::Model;

/// The decoder of one source block. It takes encoding symbols in any order and any number, and
/// rebuilds by peeling each symbol that is the only unknown one of some row. It has room for the n
/// symbols of the code, of `len` bytes each, from the start: no call but `new`, `residue` and
/// `finish` takes memory.
#[derive(Drop)]
pub struct Core {
    peeler: Peeler,
}

impl Model for Core {
    ghost use Rattle.peeling.specs.Decoder.{Decoder};

    ghost Value = { Decoder };

    ghost view = { λ c. c.peeler };
}

impl Core {
    /// A core for the code and symbols of `len` bytes, at which nothing has arrived. `NoMemory`
    /// hands back the code.
    pub fn new(alloc: Global, code: Code, len: u32) -> Result<Core, (Code, NoMemory)>
        requires some { 1 ≤ len }
        requires most { len ≤ 65535 }
        ensures empty { IfOk result (λ core. IsEmpty code len core) }
        ensures stands { IfOk result (λ core. StandsFor core []) }
        ensures err { IfErr result (λ refused. refused.0 ≡ code) }
    {
        let peeler = Peeler::new(alloc, code, len)?;
        Ok(Core { peeler })
    }

    /// Takes in an encoding symbol: its position, below n, and its `len` bytes. After `Fresh` the
    /// bytes are kept, and so is each symbol that follows from them, which `fresh` lists. After
    /// `Repeat` every symbol stays as it was: a repeat with other bytes leaves those that are kept,
    /// and the core is clashed from then on. It takes no memory.
    pub fn arrive<L: Ledger>(&mut self, e: u32, bytes: &[u8], steps: &mut Steps<L>) -> Arrival
        requires position { e < self.old.matrix.n }
        requires length { length bytes.now ≡ self.old.len }
        ensures outcome { IsOutcome result self.old e bytes.now }
        ensures received { Receives self.old self.new e bytes.now }
        ensures steps { steps.old ≤ steps.new }
        ensures bound { steps.new + 2 * known_entries self.old
            ≤ steps.old + 2 * known_entries self.new }
    {
        self.peeler.arrive(e, bytes, steps)
    }

    /// The positions that the last arrival rebuilt, rising, without its own. None after a repeat.
    pub fn fresh(&self) -> &[u32]
        ensures { result.now ≡ self.now.fresh }
    {
        self.peeler.fresh()
    }

    /// The `len` bytes that are kept at a position below n, where its symbol is known.
    pub fn symbol(&self, e: u32) -> Option<&[u8]>
        requires { e < self.now.matrix.n }
        ensures known { IsSome result ↔ (flagged self.now.known e ≡ true) }
        ensures value { IfSome result (λ bytes. bytes.now ≡ kept self.now e) }
    {
        self.peeler.symbol(e)
    }

    /// For each of the n positions whether it arrived.
    pub fn arrived(&self) -> &[bool]
        ensures value { result.now ≡ self.now.arrived }
        ensures each { length result.now ≡ self.now.matrix.n }
    {
        self.peeler.arrived()
    }

    /// How many of the n positions are known, by arrival or by rebuilding.
    pub fn known_count(&self) -> u32
        ensures { result ≡ count_by (λ flag. flag) self.now.known }
    {
        self.peeler.known_count()
    }

    /// How many of the n positions arrived. A repeat counts once.
    pub fn arrived_count(&self) -> u32
        ensures { result ≡ count_by (λ flag. flag) self.now.arrived }
    {
        self.peeler.arrived_count()
    }

    /// Whether each of the k source symbols is known.
    pub fn has_all_source(&self) -> bool
        ensures { IsTrue result ↔ HasAllSource self.now }
    {
        self.peeler.has_all_source()
    }

    /// The code.
    pub fn code(&self) -> &Code
        ensures value { result.now ≡ self.now.matrix }
        ensures decoder { IsDecoder self.now }
    {
        self.peeler.code()
    }

    /// The length of a symbol.
    pub fn symbol_len(&self) -> u32
        ensures { result ≡ self.now.len }
    {
        self.peeler.symbol_len()
    }

    /// Whether the arrivals contradict one another as far as peeling goes: by a repeat with other
    /// bytes, or by a row whose symbols are all known and do not sum to zero. Once true it stays
    /// true. Where it is false, it may still be that no codeword fits.
    pub fn clashed(&self) -> bool
        ensures { result ≡ self.now.clashed }
    {
        self.peeler.clashed()
    }

    /// The equations between the symbols that peeling leaves unknown. Their solutions pair with the
    /// codewords that fit what arrived, where the core isn't clashed. It takes a bit for each
    /// unknown column of each row with one, and a symbol for each such row.
    pub fn residue(&self, alloc: Global) -> Result<Residue, NoMemory>
        ensures columns { IfOk result (λ r. r.columns.items ≡ unknown_columns self.now) }
        ensures equations { IfOk result (λ r. r.equations ≡ residue self.now) }
        ensures rising { IfOk result (λ r. IsStrictlyIncreasing r.columns.items) }
        ensures few { IfOk result (λ r. length r.columns.items ≤ 65536) }
    {
        // The call of `code` tells that there are at most 65,536 columns.
        prove!(self.code().k() <= self.code().n());
        let columns = unknown_columns(alloc, self)?;
        let equations = equations(alloc, self, columns.len() as u32)?;
        Ok(Residue { columns, equations })
    }

    /// What the symbols that arrived determine: peeling first, and then elimination of what it
    /// leaves, over the rows with an unknown column. For that it takes a bit for each unknown
    /// column of each such row, and a symbol for each of them. `NoMemory` hands the core back as it
    /// was.
    pub fn finish(self, alloc: Global) -> Result<Verdict, (Core, NoMemory)>
        ensures verdict { IfOk result (Decides self) }
        ensures holds { IfOk result (Holds self) }
        ensures err { IfErr result (λ refused. refused.0 ≡ self) }
    {
        // The call of `code` tells what holds of each decoder.
        prove!(self.code().k() <= self.code().n());
        if self.clashed() {
            return Ok(Verdict::NoCodeword(self));
        }
        if self.has_all_source() {
            return Ok(Verdict::Block(SourceBlock::peeled(self)));
        }
        match eliminate(alloc, &self) {
            Ok(Residual::Clash) => Ok(Verdict::NoCodeword(self)),
            Ok(Residual::Solved(columns, values)) => {
                Ok(Verdict::Block(SourceBlock::solved(self, columns, values)))
            }
            Ok(Residual::Open(word)) => Ok(Verdict::Undetermined(self, word)),
            Err(refused) => Err((self, refused)),
        }
    }
}
