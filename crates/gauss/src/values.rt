// A solution, some bytes of each symbol at a time.
ghost use Rattle.std.specs.Prelude.{◌≡◌, ◌≤◌, ◌<◌, ◌+◌, ◌*◌, ◌⊎◌, ℕ, List, All, length, min};
ghost use Rattle.std.specs.Prelude.{slice_index_or, IfOk, []};
ghost use Rattle.fec_base.specs.Symbol.{symbols_of};
ghost use Rattle.gauss.specs.Packed.{AreSymbols, KeepsOthers, byte_in, sum_byte};
ghost use Rattle.gauss.specs.Elimination.{AreValues, IsValue};
ghost use Rattle.gauss.specs.Echelon.{AreSums, IsEchelon, bits_in, pivots_in, unknowns_in};
ghost use Rattle.gauss.specs.Tiles.{IsTile};

use crate::Values;
use crate::echelon::Echelon;
use crate::substitution::substitute;
use crate::symbols::{clear_symbol, store_symbol, tell_bytes};
use fec_base::NoMemory;
use std::alloc::Global;
use symbol_arena::Arena;

// How many bytes of each symbol are worked on at a time, so that they and the table stay in the
// cache.
const TILE: usize = 512;

// The bytes of each symbol from `start` on, so many, where each symbol has `len` bytes.
#[derive(Clone, Copy)]
pub(crate) struct Tile {
    pub(crate) len: usize,
    pub(crate) start: usize,
    pub(crate) size: usize,
}

// The values of the unknowns, zero for those without a pivot row.
pub(crate) fn some_values(
    alloc: Global,
    form: &Echelon<'_>,
    len: u32,
    sums: &Arena,
) -> Result<Values, NoMemory>
    requires form { IsEchelon form.now }
    requires some { 1 ≤ len }
    requires most { len ≤ 65535 }
    requires sums { AreSums form.now.rows len sums.now }
    ensures { IfOk result (λ symbols. (values : List ℕ)
        × (length values ≡ unknowns_in form.now * len) × All (λ byte. byte < 256) values
        × AreValues (unknowns_in form.now) len (bits_in form.now) (pivots_in form.now) sums.now
        values
        × (symbols ≡ symbols_of len (unknowns_in form.now) values)) }
{
    let unknowns = form.pivots.len();
    let mut bytes = vec![in alloc; 0u8; unknowns * len as usize]?;
    let most = lesser(len as usize, TILE);
    let mut part = vec![in alloc; 0u8; unknowns * most]?;
    let mut table = vec![in alloc; 0u8; 256 * most]?;
    write_values(
        form,
        sums,
        len as usize,
        &mut bytes,
        most,
        &mut part,
        &mut table,
    );
    tell_bytes(&bytes);
    Ok(values_of(unknowns as u32, len, bytes))
}

// So many symbols that lie one after the other.
fn values_of(count: u32, len: u32, bytes: Vec<u8>) -> Values
    requires { AreSymbols len count bytes.items }
    ensures { result ≡ symbols_of len count bytes.items }
{
    Values { count, len, bytes }
}

// Puts the values, tile after tile, of so many bytes at most.
fn write_values(
    form: &Echelon<'_>,
    sums: &Arena,
    len: usize,
    values: &mut [u8],
    most: usize,
    part: &mut [u8],
    table: &mut [u8],
)
    requires form { IsEchelon form.now }
    requires long { len ≤ 65535 }
    requires sums { AreSums form.now.rows len sums.now }
    requires values { length values.old ≡ unknowns_in form.now * len }
    requires some { 1 ≤ most }
    requires most { most ≤ 512 }
    requires part { length part.old ≡ unknowns_in form.now * most }
    requires table { length table.old ≡ 256 * most }
    ensures { AreValues (unknowns_in form.now) len (bits_in form.now) (pivots_in form.now) sums.now
        values.new }
{
    let mut start = 0;
    while start < len {
        let size = lesser(len - start, most);
        let tile = Tile { len, start, size };
        write_tile(form, sums, tile, values, part, table);
        start += size;
    }
}

// The lesser of two numbers.
fn lesser(a: usize, b: usize) -> usize
    ensures { result ≡ min a b }
{
    if b < a {
        return b;
    }
    a
}

// Puts a tile of the values.
fn write_tile(
    form: &Echelon<'_>,
    sums: &Arena,
    tile: Tile,
    values: &mut [u8],
    part: &mut [u8],
    table: &mut [u8],
)
    requires form { IsEchelon form.now }
    requires sums { AreSums form.now.rows tile.len sums.now }
    requires tile { IsTile tile }
    requires values { length values.old ≡ unknowns_in form.now * tile.len }
    requires part { unknowns_in form.now * tile.size ≤ length part.old }
    requires table { 256 * tile.size ≤ length table.old }
    ensures tile { (p t : ℕ) → p < unknowns_in form.now → tile.start ≤ t
        → t < tile.start + tile.size
        → IsValue (unknowns_in form.now) tile.len (bits_in form.now) (pivots_in form.now) sums.now
        values.new p t }
    ensures others { (p t : ℕ) → p < unknowns_in form.now → t < tile.start
        → byte_in tile.len values.new t p ≡ byte_in tile.len values.old t p }
{
    let part = &mut part[..form.pivots.len() * tile.size];
    load_tile(form, sums, tile, part);
    substitute(form, tile.size, part, &mut table[..256 * tile.size]);
    store_tile(form.pivots.len(), tile, part, values);
}

// Makes each symbol of a tile that part of the sum of its unknown's pivot row, zero where there is
// none.
fn load_tile(form: &Echelon<'_>, sums: &Arena, tile: Tile, part: &mut [u8])
    requires form { IsEchelon form.now }
    requires sums { AreSums form.now.rows tile.len sums.now }
    requires tile { IsTile tile }
    requires part { length part.old ≡ unknowns_in form.now * tile.size }
    ensures { (p t : ℕ) → p < unknowns_in form.now → t < tile.size
        → byte_in tile.size part.new t p
        ≡ sum_byte sums.now (tile.start + t) (pivots_in form.now p) }
{
    for p in 0..form.pivots.len() {
        load_part(form.rows, form.pivots[p], sums, tile, part, p);
    }
}

// Makes symbol p of a tile that part of the sum of row r, zero where there is no such row.
fn load_part(rows: usize, r: u32, sums: &Arena, tile: Tile, part: &mut [u8], p: usize)
    requires rows { rows ≤ 65536 }
    requires sums { length sums.now ≡ rows }
    requires long { (j : ℕ) → j < rows
        → tile.start + tile.size ≤ length (slice_index_or sums.now j []) }
    requires part { p * tile.size + tile.size ≤ length part.old }
    ensures symbol { (t : ℕ) → t < tile.size
        → byte_in tile.size part.new t p ≡ sum_byte sums.now (tile.start + t) r }
    ensures others { KeepsOthers tile.size p part.old part.new }
{
    if r as usize >= rows {
        clear_symbol(part, p, tile.size);
        return;
    }
    store_symbol(part, p, &sums.get(r)[tile.start..tile.start + tile.size]);
}

// Puts a tile's bytes into the values.
fn store_tile(unknowns: usize, tile: Tile, part: &[u8], values: &mut [u8])
    requires few { unknowns ≤ 65536 }
    requires tile { IsTile tile }
    requires part { length part.now ≡ unknowns * tile.size }
    requires values { length values.old ≡ unknowns * tile.len }
    ensures tile { (p t : ℕ) → p < unknowns → t < tile.size
        → byte_in tile.len values.new (tile.start + t) p ≡ byte_in tile.size part.now t p }
    ensures others { (p t : ℕ) → p < unknowns → t < tile.len
        → (t < tile.start) ⊎ (tile.start + tile.size ≤ t)
        → byte_in tile.len values.new t p ≡ byte_in tile.len values.old t p }
{
    for p in 0..unknowns {
        let own = &part[p * tile.size..p * tile.size + tile.size];
        store_part(own, tile.len, tile.start, values, p);
    }
}

// Puts some bytes into symbol p, from `start` on.
fn store_part(part: &[u8], len: usize, start: usize, values: &mut [u8], p: usize)
    requires few { p < 65536 }
    requires most { len ≤ 65535 }
    requires end { start + length part.now ≤ len }
    requires values { p * len + len ≤ length values.old }
    ensures tile { (t : ℕ) → t < length part.now
        → byte_in len values.new (start + t) p ≡ slice_index_or part.now t 0 }
    ensures rest { (t : ℕ) → t < len → (t < start) ⊎ (start + length part.now ≤ t)
        → byte_in len values.new t p ≡ byte_in len values.old t p }
    ensures others { KeepsOthers len p values.old values.new }
{
    let to = p * len + start;
    values[to..to + part.len()].copy_from_slice(part);
}
