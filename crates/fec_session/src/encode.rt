// The codeword of a source block, repair symbol by repair symbol.
ghost use Rattle.std.specs.Prelude.{◌≡◌, ◌<◌, ◌≤◌, ◌+◌, ◌-◌, ◌*◌, ◌++◌, ℕ, List, [], All, take};
ghost use Rattle.std.specs.Prelude.{drop, replicate, length, slice_index_or, slice_set, IfOk};
ghost use Rattle.std.specs.Vec.{vec_capacity};
ghost use Rattle.sparse_rows.specs.Matrix.{IsCode, row_of};
ghost use Rattle.fec_base.specs.Symbol.{IsSymbol, xor_sum, zero_symbol, symbols_of};
ghost use Rattle.sparse_rows.specs.Codeword.{symbol_at, IsEncoded};

use fec_base::{Ledger, NoMemory, Steps, Tally};
use sparse_rows::Code;
use std::alloc::Global;
use std::marker::Model;
use symbol_arena::Arena;

/// A codeword: n encoding symbols of `len` bytes each, the k source symbols first.
#[derive(Drop)]
pub struct Coded {
    symbols: Arena,
}

impl Model for Coded {
    ghost use Rattle.std.specs.Prelude.{ℕ, List};

    ghost Value = { List (List ℕ) };

    ghost view = { λ word. word.symbols };
}

impl Coded {
    /// Encoding symbol e, `len` bytes.
    pub fn symbol(&self, e: u32) -> &[u8]
        requires { e < length self.now }
        ensures { result.now ≡ slice_index_or self.now e [] }
    {
        self.symbols.get(e)
    }

    /// The n encoding symbols, of `len` bytes each: a list of them without a copy.
    pub fn arena(&self) -> &Arena
        ensures { result.now ≡ self.now }
    {
        &self.symbols
    }
}

/// Encodes a source block: `source` holds the k source symbols of `len` bytes one after the other.
///
/// Row i of the matrix ends with its own repair symbol k + i, which is the sum of the row's other
/// symbols, and these stand before it. So one pass over the rows fills the repair symbols. Each sum
/// is made tile by tile: the row's symbols are read once, and the sum is written once. The source
/// is copied once, into its place, and beside the n symbols the call holds one row's columns.
/// `NoMemory` comes where the memory for these is refused.
pub fn encode_block(alloc: Global, code: &Code, source: &[u8], len: u32) -> Result<Coded, NoMemory>
    requires some { 1 ≤ len }
    requires most { len ≤ 65535 }
    requires source { length source.now ≡ code.now.k * len }
    ensures { IfOk result
        (λ word. IsEncoded code.now len (symbols_of len code.now.k source.now) word) }
{
    let mut symbols = Arena::new(alloc, code.n(), len)?;
    let mut columns = Vec::with_capacity(alloc, code.n() as usize)?;
    let mut steps = Steps::<Tally>::start();
    put_source(source, code.k(), len as usize, &mut symbols);
    fill_repair(code, &mut columns, &mut symbols, &mut steps);
    Ok(Coded { symbols })
}

// Puts the k source symbols, which lie one after the other, in front.
fn put_source(source: &[u8], k: u32, len: usize, symbols: &mut Arena)
    requires source { length source.now ≡ k * len }
    requires count { k ≤ length symbols.old }
    requires each { All (λ symbol. length symbol ≡ len) symbols.old }
    ensures { symbols.new ≡ symbols_of len k source.now ++ drop k symbols.old }
{
    for e in 0..k {
        let start = e as usize * len;
        symbols.put(e, &source[start..start + len]);
    }
}

// Fills the repair symbols, which are zero, behind the source symbols.
fn fill_repair<L: Ledger>(
    code: &Code,
    columns: &mut Vec<u32>,
    symbols: &mut Arena,
    steps: &mut Steps<L>,
)
    requires count { length symbols.old ≡ code.now.n }
    requires room { code.now.n ≤ vec_capacity columns.old }
    ensures { (len : ℕ) (source : List (List ℕ)) → length source ≡ code.now.k
        → All (IsSymbol len) source
        → symbols.old ≡ source ++ replicate (code.now.n - code.now.k) (zero_symbol len)
        → IsEncoded code.now len source symbols.new }
{
    for r in 0..code.n() - code.k() {
        add_row(code, r, columns, symbols, steps);
    }
}

// Adds up row r into the row's own repair symbol, which is zero, from the symbols before it.
fn add_row<L: Ledger>(
    code: &Code,
    r: u32,
    columns: &mut Vec<u32>,
    symbols: &mut Arena,
    steps: &mut Steps<L>,
)
    requires row { r < code.now.n - code.now.k }
    requires count { length symbols.old ≡ code.now.n }
    requires room { code.now.n ≤ vec_capacity columns.old }
    ensures count { length symbols.new ≡ length symbols.old }
    ensures room { vec_capacity columns.new ≡ vec_capacity columns.old }
    ensures sum { (len : ℕ) → All (IsSymbol len) symbols.old
        → slice_index_or symbols.old (code.now.k + r) [] ≡ zero_symbol len
        → symbols.new ≡ slice_set symbols.old (code.now.k + r)
        (xor_sum len (symbol_at len symbols.old) (row_of code.now r)) }
{
    read_before(code, r, columns, steps);
    symbols.add_all(code.k() + r, columns.as_slice(), steps);
}

// Reads the columns of row r before the last one, which is that of the repair symbol itself.
fn read_before<L: Ledger>(code: &Code, r: u32, columns: &mut Vec<u32>, steps: &mut Steps<L>)
    requires row { r < code.now.n - code.now.k }
    requires room { code.now.n ≤ vec_capacity columns.old }
    ensures columns { columns.new.items
        ≡ take (length (row_of code.now r) - 1) (row_of code.now r) }
    ensures room { vec_capacity columns.new ≡ vec_capacity columns.old }
{
    // The code has a shape, which the bound of the loop rests on.
    prove!(code.k() <= code.n());
    columns.clear();
    for i in 0..code.row_len(r) - 1 {
        columns.push_reserved(code.row_entry(r, i, steps));
    }
}
