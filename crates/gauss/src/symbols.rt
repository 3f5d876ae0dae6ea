// Symbols of one length in bytes, one after the other.
ghost use Rattle.std.specs.Prelude.{◌≡◌, ◌≢◌, ◌≤◌, ◌<◌, ◌+◌, ◌*◌, ℕ, true, false, length, All};
ghost use Rattle.std.specs.Prelude.{slice_index_or, bit_xor};
ghost use Rattle.gauss.specs.Packed.{KeepsOthers, byte_in};

use xor_lanes::{is_zero, xor_into};

// Adds another symbol to symbol c.
pub(crate) fn add_to_symbol(symbols: &mut [u8], c: usize, other: &[u8])
    requires { c * length other.now + length other.now ≤ length symbols.old }
    ensures symbol { (t : ℕ) → t < length other.now → byte_in (length other.now) symbols.new t c
        ≡ bit_xor (byte_in (length other.now) symbols.old t c) (slice_index_or other.now t 0) }
    ensures others { KeepsOthers (length other.now) c symbols.old symbols.new }
{
    let start = c * other.len();
    xor_into(&mut symbols[start..start + other.len()], other);
}

// Adds symbol c to symbol p, which lies before it.
pub(crate) fn add_symbol_within(symbols: &mut [u8], p: usize, c: usize, len: usize)
    requires len { len ≤ 65535 }
    requires few { c < 65536 }
    requires p { p < c }
    requires c { c * len + len ≤ length symbols.old }
    ensures symbol { (t : ℕ) → t < len → byte_in len symbols.new t p
        ≡ bit_xor (byte_in len symbols.old t p) (byte_in len symbols.old t c) }
    ensures others { KeepsOthers len p symbols.old symbols.new }
{
    let (before, from) = symbols.split_at_mut(c * len);
    add_to_symbol(before, p, &from[..len]);
}

// Makes symbol `to` symbol `from`, which lies before it.
pub(crate) fn copy_symbol(symbols: &mut [u8], to: usize, from: usize, len: usize)
    requires len { len ≤ 65535 }
    requires few { to < 65536 }
    requires from { from < to }
    requires to { to * len + len ≤ length symbols.old }
    ensures symbol { (t : ℕ) → t < len → byte_in len symbols.new t to
        ≡ byte_in len symbols.old t from }
    ensures others { KeepsOthers len to symbols.old symbols.new }
{
    let (before, behind) = symbols.split_at_mut(to * len);
    behind[..len].copy_from_slice(&before[from * len..from * len + len]);
}

// Makes the bytes of symbol c zero.
pub(crate) fn clear_symbol(symbols: &mut [u8], c: usize, len: usize)
    requires { c * len + len ≤ length symbols.old }
    ensures symbol { (t : ℕ) → t < len → byte_in len symbols.new t c ≡ 0 }
    ensures others { KeepsOthers len c symbols.old symbols.new }
{
    symbols[c * len..c * len + len].fill(0);
}

// Makes the bytes of symbol 0 zero.
pub(crate) fn clear_first(symbols: &mut [u8], len: usize)
    requires { len ≤ length symbols.old }
    ensures { (t : ℕ) → t < len → byte_in len symbols.new t 0 ≡ 0 }
{
    symbols[..len].fill(0);
}

// Makes symbol c another one.
pub(crate) fn store_symbol(symbols: &mut [u8], c: usize, symbol: &[u8])
    requires { c * length symbol.now + length symbol.now ≤ length symbols.old }
    ensures symbol { (t : ℕ) → t < length symbol.now
        → byte_in (length symbol.now) symbols.new t c ≡ slice_index_or symbol.now t 0 }
    ensures others { KeepsOthers (length symbol.now) c symbols.old symbols.new }
{
    let start = c * symbol.len();
    symbols[start..start + symbol.len()].copy_from_slice(symbol);
}

// Whether a byte isn't zero.
pub(crate) fn is_nonzero(symbol: &[u8]) -> bool
    ensures some { result
        ≡ true → (t : ℕ) × (t < length symbol.now) × (slice_index_or symbol.now t 0 ≢ 0) }
    ensures none { result ≡ false → (t : ℕ) → slice_index_or symbol.now t 0 ≡ 0 }
{
    !is_zero(symbol)
}

// Tells that bytes are below 256: a vector that was lent doesn't say so of itself.
pub(crate) fn tell_bytes(symbols: &[u8])
    ensures { All (λ byte. byte < 256) symbols.now }
{}
