// The only solution, by substitution of symbols, eight unknowns at a time from the last ones down.
ghost use Rattle.std.specs.Prelude.{◌≡◌, ◌≢◌, ◌≤◌, ◌<◌, ◌*◌, ◌/◌, ◌%◌, ◌==◌, ◌&&◌, ℕ, length};
ghost use Rattle.std.specs.Prelude.{bit_xor};
ghost use Rattle.std.specs.Int.{bit_at};
ghost use Rattle.std.proofs.Common.{ltb};
ghost use Rattle.gauss.specs.Packed.{AreSymbols, KeepsOthers, byte_in};
ghost use Rattle.gauss.specs.Elimination.{AreSubstituted, before, behind, product};
ghost use Rattle.gauss.specs.Echelon.{IsEchelon, bits_in, pivots_in, unknowns_in};
ghost use Rattle.gauss.specs.Groups.{AreAdded, HoldsEntries, in_group};

use crate::echelon::Echelon;
use crate::entries::{add_entry, fill};
use crate::packed::{byte_or_zero, group_end, has};
use crate::symbols::add_symbol_within;

// Makes each symbol, which was the sum of the pivot row of its unknown, the value of the unknown.
// That of an unknown without a pivot row stays as it is.
pub(crate) fn substitute(form: &Echelon<'_>, len: usize, symbols: &mut [u8], table: &mut [u8])
    requires form { IsEchelon form.now }
    requires symbols { AreSymbols len (unknowns_in form.now) symbols.old }
    requires table { length table.old ≡ 256 * len }
    ensures { AreSubstituted (unknowns_in form.now) len (bits_in form.now)
        (pivots_in form.now) symbols.old symbols.new }
{
    add_recorded(form, len, symbols, table);
    add_values(form, len, symbols, table);
}

// Adds to each symbol those before it that went into its row. The groups come from the last one
// down: a symbol is given those of groups up to its own alone, so that the symbols of the group at
// hand are still the first ones.
fn add_recorded(form: &Echelon<'_>, len: usize, symbols: &mut [u8], table: &mut [u8])
    requires form { IsEchelon form.now }
    requires symbols { AreSymbols len (unknowns_in form.now) symbols.old }
    requires table { length table.old ≡ 256 * len }
    ensures { AreAdded (unknowns_in form.now) len
        (before (bits_in form.now) (pivots_in form.now))
        symbols.old symbols.old symbols.new }
{
    let groups = (form.pivots.len() + 7) / 8;
    for k in 0..groups {
        let group = groups - 1 - k;
        fill(symbols, form.pivots.len(), group, len, table);
        add_group_recorded(form, group, len, symbols, table);
    }
}

// Adds to each symbol those of a group before it that went into its row.
fn add_group_recorded(
    form: &Echelon<'_>,
    group: usize,
    len: usize,
    symbols: &mut [u8],
    table: &[u8],
)
    requires form { IsEchelon form.now }
    requires group { group * 8 < unknowns_in form.now }
    requires symbols { AreSymbols len (unknowns_in form.now) symbols.old }
    requires table { length table.now ≡ 256 * len }
    requires entries { HoldsEntries (unknowns_in form.now) len group symbols.old table.now }
    ensures { AreAdded (unknowns_in form.now) len
        (λ p. in_group group (before (bits_in form.now) (pivots_in form.now) p))
        symbols.old symbols.old symbols.new }
{
    for p in group * 8..form.pivots.len() {
        let byte = byte_before(form, form.pivots[p] as usize, group, p);
        add_entry(table, byte, len, symbols, p);
    }
}

// The byte of row r in a group, with the bits before p alone.
fn byte_before(form: &Echelon<'_>, r: usize, group: usize, p: usize) -> usize
    requires form { IsEchelon form.now }
    requires p { p < form.now.width * 64 }
    requires group { group * 8 ≤ p }
    ensures byte { result < 256 }
    ensures bits { (c : ℕ) → c / 8 ≡ group
        → (bit_at result (c % 8) == 1) ≡ (ltb c p && bits_in form.now r c) }
{
    let byte = byte_or_zero(form.words, form.width, form.rows, r, group);
    if group < p / 8 {
        return byte;
    }
    byte % (1 << (p % 8))
}

// Adds to each symbol the values behind it that its row has: once this is done for its group and
// those behind it, the symbol is a value.
pub(crate) fn add_values(form: &Echelon<'_>, len: usize, symbols: &mut [u8], table: &mut [u8])
    requires form { IsEchelon form.now }
    requires symbols { AreSymbols len (unknowns_in form.now) symbols.old }
    requires table { length table.old ≡ 256 * len }
    ensures { AreAdded (unknowns_in form.now) len
        (behind (bits_in form.now) (pivots_in form.now))
        symbols.new symbols.old symbols.new }
{
    let groups = (form.pivots.len() + 7) / 8;
    for k in 0..groups {
        let group = groups - 1 - k;
        add_group_values(form, group, len, symbols, table);
    }
}

// Adds to each symbol the values of a group behind it that its row has.
fn add_group_values(
    form: &Echelon<'_>,
    group: usize,
    len: usize,
    symbols: &mut [u8],
    table: &mut [u8],
)
    requires form { IsEchelon form.now }
    requires group { group * 8 < unknowns_in form.now }
    requires symbols { AreSymbols len (unknowns_in form.now) symbols.old }
    requires table { length table.old ≡ 256 * len }
    ensures { AreAdded (unknowns_in form.now) len
        (λ p. in_group group (behind (bits_in form.now) (pivots_in form.now) p))
        symbols.new symbols.old symbols.new }
{
    add_values_within(form, group, len, symbols);
    fill(symbols, form.pivots.len(), group, len, table);
    add_values_before(form, group, len, symbols, table);
}

// Adds to each symbol of a group the values behind it in the group that its row has, from the last
// one down.
fn add_values_within(form: &Echelon<'_>, group: usize, len: usize, symbols: &mut [u8])
    requires form { IsEchelon form.now }
    requires group { group * 8 < unknowns_in form.now }
    requires symbols { AreSymbols len (unknowns_in form.now) symbols.old }
    ensures own { (p t : ℕ) → p < unknowns_in form.now → p / 8 ≡ group → t < len
        → byte_in len symbols.new t p ≡ bit_xor (byte_in len symbols.old t p)
        (product 0 bit_xor (unknowns_in form.now)
        (in_group group (behind (bits_in form.now) (pivots_in form.now) p))
        (byte_in len symbols.new t)) }
    ensures others { (p t : ℕ) → p / 8 ≢ group → t < len
        → byte_in len symbols.new t p ≡ byte_in len symbols.old t p }
{
    let end = group_end(group * 8, form.pivots.len());
    for k in 0..end - group * 8 {
        let p = end - 1 - k;
        add_range(form, form.pivots[p] as usize, p, end, len, symbols);
    }
}

// Adds to symbol p those between it and `end` that row r has, if there is such a row.
fn add_range(form: &Echelon<'_>, r: usize, p: usize, end: usize, len: usize, symbols: &mut [u8])
    requires form { IsEchelon form.now }
    requires p { p < end }
    requires end { end ≤ form.now.width * 64 }
    requires few { end ≤ 65536 }
    requires len { len ≤ 65535 }
    requires symbols { end * len ≤ length symbols.old }
    ensures symbol { (t : ℕ) → t < len
        → byte_in len symbols.new t p ≡ bit_xor (byte_in len symbols.old t p)
        (product 0 bit_xor end (λ c. ltb p c && bits_in form.now r c)
        (byte_in len symbols.old t)) }
    ensures others { KeepsOthers len p symbols.old symbols.new }
{
    if r >= form.rows {
        return;
    }
    for c in p + 1..end {
        if has(form.words, form.width, r, c) {
            add_symbol_within(symbols, p, c, len);
        }
    }
}

// Adds to each symbol before a group the values of the group that its row has.
fn add_values_before(form: &Echelon<'_>, group: usize, len: usize, symbols: &mut [u8], table: &[u8])
    requires form { IsEchelon form.now }
    requires group { group * 8 < unknowns_in form.now }
    requires symbols { AreSymbols len (unknowns_in form.now) symbols.old }
    requires table { length table.now ≡ 256 * len }
    requires entries { HoldsEntries (unknowns_in form.now) len group symbols.old table.now }
    ensures low { (p t : ℕ) → p < group * 8 → t < len
        → byte_in len symbols.new t p ≡ bit_xor (byte_in len symbols.old t p)
        (product 0 bit_xor (unknowns_in form.now)
        (in_group group (bits_in form.now (pivots_in form.now p)))
        (byte_in len symbols.old t)) }
    ensures rest { (p t : ℕ) → group * 8 ≤ p → t < len
        → byte_in len symbols.new t p ≡ byte_in len symbols.old t p }
{
    for p in 0..group * 8 {
        let byte = byte_or_zero(
            form.words,
            form.width,
            form.rows,
            form.pivots[p] as usize,
            group,
        );
        add_entry(table, byte, len, symbols, p);
    }
}
