// A table of the sums of a group's symbols: for each of the 256 bytes the symbols whose bit it has.
ghost use Rattle.std.specs.Prelude.{◌≡◌, ◌≤◌, ◌<◌, ◌+◌, ◌*◌, ◌^◌, ℕ, cond, length, bit_xor};
ghost use Rattle.std.proofs.Common.{ltb};
ghost use Rattle.gauss.specs.Packed.{AreSymbols, KeepsOthers, byte_in};
ghost use Rattle.gauss.specs.Groups.{HoldsEntries};

use crate::symbols::{add_to_symbol, clear_first, copy_symbol};

// Makes each entry the sum of the symbols of the group whose bit its byte has.
pub(crate) fn fill(symbols: &[u8], unknowns: usize, group: usize, len: usize, table: &mut [u8])
    requires group { group * 8 < unknowns }
    requires symbols { AreSymbols len unknowns symbols.now }
    requires table { length table.old ≡ 256 * len }
    ensures { HoldsEntries unknowns len group symbols.now table.new }
{
    clear_first(table, len);
    for bit in 0..8 {
        double(symbols, unknowns, group * 8 + bit, len, table, bit);
    }
}

// Makes the entries of the bytes from 2 ^ bit on to before twice that: those before them, with the
// symbol of this unknown, if there is one.
fn double(symbols: &[u8], unknowns: usize, unknown: usize, len: usize, table: &mut [u8], bit: usize)
    requires unknown { unknown ≤ 65543 }
    requires symbols { AreSymbols len unknowns symbols.now }
    requires table { length table.old ≡ 256 * len }
    requires bit { bit < 8 }
    ensures made { (b t : ℕ) → b < 2 ^ bit → t < len
        → byte_in len table.new t (1 * 2 ^ bit + b) ≡ bit_xor (byte_in len table.old t b)
        (cond (ltb unknown unknowns) (byte_in len symbols.now t unknown) 0) }
    ensures kept { (b t : ℕ) → b < 2 ^ bit → t < len
        → byte_in len table.new t b ≡ byte_in len table.old t b }
{
    let half = 1 << bit;
    for b in 0..half {
        put_entry(symbols, unknowns, unknown, len, table, half + b, b);
    }
}

// Makes an entry another one before it, with the symbol of this unknown, if there is one.
fn put_entry(
    symbols: &[u8],
    unknowns: usize,
    unknown: usize,
    len: usize,
    table: &mut [u8],
    to: usize,
    from: usize,
)
    requires unknown { unknown ≤ 65543 }
    requires symbols { AreSymbols len unknowns symbols.now }
    requires to { to * len + len ≤ length table.old }
    requires from { from < to }
    requires few { to < 256 }
    ensures made { (t : ℕ) → t < len
        → byte_in len table.new t to ≡ bit_xor (byte_in len table.old t from)
        (cond (ltb unknown unknowns) (byte_in len symbols.now t unknown) 0) }
    ensures others { KeepsOthers len to table.old table.new }
{
    copy_symbol(table, to, from, len);
    if unknown < unknowns {
        add_to_symbol(table, to, &symbols[unknown * len..unknown * len + len]);
    }
}

// Adds an entry to symbol p.
pub(crate) fn add_entry(table: &[u8], byte: usize, len: usize, symbols: &mut [u8], p: usize)
    requires byte { byte < 256 }
    requires len { len ≤ 65535 }
    requires table { length table.now ≡ 256 * len }
    requires p { p < 65536 }
    requires symbols { p * len + len ≤ length symbols.old }
    ensures symbol { (t : ℕ) → t < len → byte_in len symbols.new t p
        ≡ bit_xor (byte_in len symbols.old t p) (byte_in len table.now t byte) }
    ensures others { KeepsOthers len p symbols.old symbols.new }
{
    add_to_symbol(symbols, p, &table[byte * len..byte * len + len]);
}
