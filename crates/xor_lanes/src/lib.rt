//! Sums of symbols and the test for the zero symbol, in lanes of 16 and 32 and tiles of 64 bytes.
//! It stands on `fec_base`, which says what the sum of two symbols is. It promises that each call
//! gives exactly what a plain loop over the bytes gives, at every length. It takes no memory.
#![tactic(auto)]

ghost use Rattle.std.specs.Prelude.{◌≡◌, ◌↔◌, ℕ, ◌+◌, ◌<◌, ◌≤◌, length, IsTrue, slice_index_or};
ghost use Rattle.std.specs.Int.Bits.{bit_xor};
ghost use Rattle.std.specs.Simd.Lanes.{zip2};
ghost use lib.Lanes.{chunk, put_chunk};
ghost use Rattle.fec_base.specs.Symbol.{xor, zero_symbol};

mod sums;

use std::simd::prelude::*;
pub use sums::add_columns;

/// Each byte of `dst` becomes its XOR with the byte of `src` at the same place. Both have the same
/// length, whatever it is.
pub fn xor_into(dst: &mut [u8], src: &[u8])
    requires { length dst.old ≡ length src.now }
    ensures { dst.new ≡ xor dst.old src.now }
{
    let mut at = 0;
    while at + 32 <= dst.len() {
        xor_lane(dst, src, at);
        at += 32;
    }
    for i in at..dst.len() {
        dst[i] ^= src[i];
    }
}

// One lane is loaded whole, before it is stored.
#[inline(always)]
fn xor_lane(dst: &mut [u8], src: &[u8], at: usize)
    requires dst { at + 32 ≤ length dst.old }
    requires src { at + 32 ≤ length src.now }
    ensures { dst.new
        ≡ put_chunk at dst.old (zip2 bit_xor (chunk at 32 dst.old) (chunk at 32 src.now)) }
{
    let sum = u8x32::from_slice(&dst[at..]) ^ u8x32::from_slice(&src[at..]);
    sum.copy_to_slice(&mut dst[at..]);
}

/// Whether each byte is zero. It stops at the first lane that isn't.
pub fn is_zero(s: &[u8]) -> bool
    ensures { IsTrue result ↔ (s.now ≡ zero_symbol (length s.now)) }
{
    let mut at = 0;
    while at + 32 <= s.len() {
        if !is_lane_zero(s, at) {
            return false;
        }
        at += 32;
    }
    is_rest_zero(s, at)
}

// Whether each byte from `from` on is zero.
#[inline(always)]
fn is_rest_zero(s: &[u8], from: usize) -> bool
    requires { from ≤ length s.now }
    ensures { IsTrue result
        ↔ ((k : ℕ) → from ≤ k → k < length s.now → slice_index_or s.now k 0 ≡ 0) }
{
    if from + 16 > s.len() {
        return is_tail_zero(s, from);
    }
    is_half_zero(s, from) && is_tail_zero(s, from + 16)
}

// Whether each byte from `from` on is zero, seen one by one.
fn is_tail_zero(s: &[u8], from: usize) -> bool
    requires { from ≤ length s.now }
    ensures { IsTrue result
        ↔ ((k : ℕ) → from ≤ k → k < length s.now → slice_index_or s.now k 0 ≡ 0) }
{
    for at in from..s.len() {
        if s[at] != 0 {
            return false;
        }
    }
    true
}

// Whether the 16 bytes from `at` on are zero.
#[inline(always)]
fn is_half_zero(s: &[u8], at: usize) -> bool
    requires { at + 16 ≤ length s.now }
    ensures { IsTrue result ↔ ((k : ℕ) → at ≤ k → k < at + 16 → slice_index_or s.now k 0 ≡ 0) }
{
    u8x16::from_slice(&s[at..])
        .simd_ne(u8x16::splat(0))
        .to_bitmask()
        == 0
}

// Whether the 32 bytes from `at` on are zero.
#[inline(always)]
fn is_lane_zero(s: &[u8], at: usize) -> bool
    requires { at + 32 ≤ length s.now }
    ensures { IsTrue result ↔ ((k : ℕ) → at ≤ k → k < at + 32 → slice_index_or s.now k 0 ≡ 0) }
{
    u8x32::from_slice(&s[at..])
        .simd_ne(u8x32::splat(0))
        .to_bitmask()
        == 0
}
