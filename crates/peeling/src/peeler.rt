// The decoder.
ghost use Rattle.std.specs.Prelude.{◌≡◌, ◌↔◌, ◌<◌, ◌≤◌, ◌+◌, ◌*◌, true, false, [], IsTrue, IsSome};
ghost use Rattle.std.specs.Prelude.{IfSome, IfOk, IfErr, length, take, slice_set};
ghost use Rattle.sparse_rows.specs.Closure.{flagged};
ghost use Rattle.sparse_rows.specs.Columns.{entries};
ghost use Rattle.sparse_rows.specs.Matrix.{IsCode};
ghost use Rattle.peeling.specs.Decoder.{kept, IsDecoder};
ghost use Rattle.peeling.specs.Lookups.{set_count, known_entries, HasAllSource};
ghost use Rattle.peeling.specs.Lookups.{IsEmpty};
ghost use Rattle.peeling.specs.Stands.{StandsFor, Receives};
ghost use Rattle.peeling.specs.Outcome.{IsOutcome};
ghost use Rattle.peeling.specs.Blank.{IsBlank};

use crate::unknowns::{Unknowns, all_unknown};
use crate::worklist::peel;
use fec_base::{Ledger, NoMemory, Steps};
use sparse_rows::Code;
use std::alloc::Global;
use std::marker::Model;
use symbol_arena::Arena;

/// What an arrival was to the decoder.
#[derive(Clone, Copy, PartialEq, Eq, Debug)]
pub enum Arrival {
    /// The position was not known.
    Fresh,
    /// The position was known, by an earlier arrival or by rebuilding.
    Repeat {
        /// Whether the bytes are those that are kept.
        same: bool,
    },
}

// What is kept of each position.
#[derive(Drop)]
struct Store {
    arrived: Vec<bool>,
    known: Vec<bool>,
    // The symbol of each position, zero where it is not known, and behind them for each row the sum
    // of its known symbols.
    symbols: Arena,
    // Of each row what is unknown.
    rows: Vec<Unknowns>,
    fresh: Vec<u32>,
}

/// A peeling decoder of one source block of a sparse erasure code. It takes encoding symbols one by
/// one, in any order, repeated or not and whatever their bytes, and rebuilds each symbol that is
/// the only unknown one of some row of the parity check matrix.
///
/// The essence in four steps. A row whose symbols are all known but one gives that one, as the sum
/// of the others. Repeated until no row gives anything, this makes known exactly the peeling
/// closure of the positions that arrived. Each step is forced, so a rebuilt symbol is that of every
/// codeword that fits the arrivals. What is left is a stopping set: no row has just one of its
/// symbols, and more can follow by elimination alone.
///
/// This decoder keeps of each row how many of its columns are unknown, the XOR of their numbers,
/// and the sum of the known symbols. A column that becomes known is worked off once: each of its
/// rows is read, and gains its symbol. So all arrivals together take at most two steps for each
/// entry of the matrix, whatever their order, and one arrival at most two for each entry of the
/// columns that it makes known. Beside the code it holds n + (n - k) symbols in one block of
/// memory, four bytes for each row and six for each position.
#[derive(Drop)]
pub struct Peeler {
    code: Code,
    len: u32,
    clashed: bool,
    // How many flags of each kind are set.
    arrived_count: u32,
    known_count: u32,
    store: Store,
}

impl Model for Peeler {
    ghost use Rattle.peeling.specs.Decoder.{Decoder};

    ghost Value = { Decoder };

    ghost use Rattle.peeling.specs.Storage.{decoder_of, IsStored};

    ghost view = { decoder_of };

    ghost invariant = { IsStored };
}

impl Peeler {
    /// A decoder for this code and symbols of `len` bytes, at which nothing has arrived. It takes
    /// all its memory here. `NoMemory` hands back the code.
    pub fn new(alloc: Global, code: Code, len: u32) -> Result<Peeler, (Code, NoMemory)>
        requires some { 1 ≤ len }
        requires most { len ≤ 65535 }
        ensures empty { IfOk result (λ peeler. IsEmpty code len peeler) }
        ensures stands { IfOk result (λ peeler. StandsFor peeler []) }
        ensures err { IfErr result (λ refused. refused.0 ≡ code) }
    {
        match empty_store(alloc, &code, len) {
            Ok(store) => Ok(Peeler {
                code,
                len,
                clashed: false,
                arrived_count: 0,
                known_count: 0,
                store,
            }),
            Err(refused) => Err((code, refused)),
        }
    }

    /// Takes in an encoding symbol, its position and its `len` bytes, and rebuilds what follows. A
    /// repeat with other bytes leaves those that are kept, and the arrivals then contradict one
    /// another. It takes no memory.
    pub fn arrive<L: Ledger>(&mut self, e: u32, bytes: &[u8], steps: &mut Steps<L>) -> Arrival
        requires position { e < self.old.matrix.n }
        requires length { length bytes.now ≡ self.old.len }
        ensures outcome { IsOutcome result self.old e bytes.now }
        ensures received { Receives self.old self.new e bytes.now }
        ensures steps { steps.old ≤ steps.new }
        ensures bound { steps.new + 2 * known_entries self.old
            ≤ steps.old + 2 * known_entries self.new }
    {
        if self.store.known[e as usize] {
            let same = self.take_repeat(e, bytes);
            Arrival::Repeat { same }
        } else {
            self.take_new(e, bytes, steps);
            Arrival::Fresh
        }
    }

    /// The positions that the last arrival rebuilt, rising, without its own. It is empty before the
    /// first arrival and after a repeat.
    pub fn fresh(&self) -> &[u32]
        ensures { result.now ≡ self.now.fresh }
    {
        &self.store.fresh
    }

    /// The `len` bytes of the symbol at a position, where it is known.
    pub fn symbol(&self, e: u32) -> Option<&[u8]>
        requires { e < self.now.matrix.n }
        ensures known { IsSome result ↔ (flagged self.now.known e ≡ true) }
        ensures value { IfSome result (λ bytes. bytes.now ≡ kept self.now e) }
    {
        if self.store.known[e as usize] {
            Some(self.store.symbols.get(e))
        } else {
            None
        }
    }

    /// For each position whether it arrived.
    pub fn arrived(&self) -> &[bool]
        ensures value { result.now ≡ self.now.arrived }
        ensures each { length result.now ≡ self.now.matrix.n }
    {
        &self.store.arrived
    }

    /// How many positions are known, by arrival or by rebuilding.
    pub fn known_count(&self) -> u32
        ensures { result ≡ set_count self.now.known }
    {
        self.known_count
    }

    /// How many different positions arrived.
    pub fn arrived_count(&self) -> u32
        ensures { result ≡ set_count self.now.arrived }
    {
        self.arrived_count
    }

    /// Whether each source symbol is known.
    pub fn has_all_source(&self) -> bool
        ensures { IsTrue result ↔ HasAllSource self.now }
    {
        // Where all source symbols are known, all symbols are.
        self.known_count == self.code.n()
    }

    /// The code.
    pub fn code(&self) -> &Code
        ensures value { result.now ≡ self.now.matrix }
        ensures decoder { IsDecoder self.now }
    {
        &self.code
    }

    /// The length of a symbol.
    pub fn symbol_len(&self) -> u32
        ensures { result ≡ self.now.len }
    {
        self.len
    }

    /// Whether the arrivals contradict one another: no symbols for the known positions agree with
    /// every arrival and make each row of known symbols sum to zero. From then on the bytes of
    /// newly rebuilt symbols mean nothing, while which positions are known stays exact.
    pub fn clashed(&self) -> bool
        ensures { result ≡ self.now.clashed }
    {
        self.clashed
    }

    // Takes in a position that is known, and says whether its bytes are those that are kept.
    fn take_repeat(&mut self, e: u32, bytes: &[u8]) -> bool
        requires position { e < self.old.matrix.n }
        requires length { length bytes.now ≡ self.old.len }
        requires known { flagged self.old.known e ≡ true }
        ensures same { IsTrue result ↔ (bytes.now ≡ kept self.old e) }
        ensures received { Receives self.old self.new e bytes.now }
    {
        let count = with_flag(&self.store.arrived, self.arrived_count, e);
        self.arrived_count = count;
        self.store.arrived[e as usize] = true;
        self.store.fresh.clear();
        let same = is_same(bytes, self.store.symbols.get(e));
        self.clashed |= !same;
        same
    }

    // Takes in a position that is not known, and peels from it.
    fn take_new<L: Ledger>(&mut self, e: u32, bytes: &[u8], steps: &mut Steps<L>)
        requires position { e < self.old.matrix.n }
        requires length { length bytes.now ≡ self.old.len }
        requires unknown { flagged self.old.known e ≡ false }
        ensures received { Receives self.old self.new e bytes.now }
        ensures steps { steps.old ≤ steps.new }
        ensures cost { steps.new + 2 * entries self.old.matrix (flagged self.old.known)
            ≡ steps.old + 2 * entries self.old.matrix (flagged self.new.known) }
    {
        let count = with_flag(&self.store.arrived, self.arrived_count, e);
        self.arrived_count = count;
        let store = &mut self.store;
        store.arrived[e as usize] = true;
        let known = store.known.as_mut_slice();
        let rows = store.rows.as_mut_slice();
        let holds = peel(
            &self.code,
            e,
            bytes,
            known,
            &mut store.symbols,
            rows,
            &mut store.fresh,
            steps,
        );
        let more = 1 + store.fresh.len() as u32;
        self.known_count += more;
        self.clashed |= !holds;
    }
}

// How many flags are set once that of e is, where `count` are now.
fn with_flag(flags: &[bool], count: u32, e: u32) -> u32
    requires place { e < length flags.now }
    requires few { length flags.now ≤ 65536 }
    requires count { count ≡ set_count flags.now }
    ensures { result ≡ set_count (slice_set flags.now e true) }
{
    if flags[e as usize] { count } else { count + 1 }
}

// Whether the bytes are the same.
fn is_same(a: &[u8], b: &[u8]) -> bool
    ensures { IsTrue result ↔ (a.now ≡ b.now) }
{
    a == b
}

// No flag is set, each symbol and each sum is zero, and each column is unknown to its rows.
fn empty_store(alloc: Global, code: &Code, len: u32) -> Result<Store, NoMemory>
    requires some { 1 ≤ len }
    requires most { len ≤ 65535 }
    ensures blank { IfOk result (λ store. IsBlank code.now len store) }
    ensures code { IsCode code.now }
{
    let n = code.n();
    let rows = n - code.k();
    Ok(Store {
        arrived: vec![in alloc; false; n as usize]?,
        known: vec![in alloc; false; n as usize]?,
        symbols: Arena::new(alloc, n + rows, len)?,
        rows: all_unknown(alloc, code)?,
        fresh: Vec::with_capacity(alloc, n as usize)?,
    })
}
