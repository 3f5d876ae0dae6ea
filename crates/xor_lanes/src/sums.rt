// The sum of many symbols in tiles of 64 bytes. A tile stays in registers while all symbols are
// read.
ghost use Rattle.std.specs.Prelude.{◌≡◌, ◌≢◌, ◌⊎◌, ℕ, ◌+◌, ◌*◌, ◌%◌, ◌<◌, ◌≤◌, All, length};
ghost use Rattle.std.specs.Prelude.{slice_index_or};
ghost use lib.Lanes.{put_chunk};
ghost use Rattle.xor_lanes.specs.Sums.{summed_byte};

use std::simd::prelude::*;

/// Adds to symbol `own` the symbol of each column, none of which is `own`. The symbols lie `stride`
/// bytes apart, a multiple of 32, and all bytes of them are added: those between the end of a
/// symbol and the next one, too. A tile of `own` stays in registers while all columns are read, and
/// is written once, so the cost is one load a column and lane.
pub fn add_columns(all: &mut [u8], own: u32, columns: &[u32], stride: usize)
    requires stride { stride % 32 ≡ 0 }
    requires own { own * stride + stride ≤ length all.old }
    requires others { All (λ column. column ≢ own) columns.now }
    requires each { All (λ column. column * stride + stride ≤ length all.old) columns.now }
    ensures sum { (j : ℕ) → j < stride
        → slice_index_or all.new (own * stride + j) 0
        ≡ summed_byte all.old stride own columns.now j }
    ensures rest { (k : ℕ) → (k < own * stride) ⊎ (own * stride + stride ≤ k)
        → slice_index_or all.new k 0 ≡ slice_index_or all.old k 0 }
{
    let mut at = 0;
    while at + 64 <= stride {
        put_tile(all, own, columns, stride, at);
        at += 64;
    }
    if at < stride {
        put_lane(all, own, columns, stride, at);
    }
}

// Adds up the 64 bytes from `at` on.
#[inline(always)]
fn put_tile(all: &mut [u8], own: u32, columns: &[u32], stride: usize, at: usize)
    requires own { own * stride + at + 64 ≤ length all.old }
    requires each { All (λ column. column * stride + at + 64 ≤ length all.old) columns.now }
    ensures sum { (j : ℕ) → j < 64
        → slice_index_or all.new (own * stride + at + j) 0
        ≡ summed_byte all.old stride own columns.now (at + j) }
    ensures rest { (k : ℕ) → (k < own * stride + at) ⊎ (own * stride + at + 64 ≤ k)
        → slice_index_or all.new k 0 ≡ slice_index_or all.old k 0 }
{
    let sum = sum_tile(all, own, columns, stride, at);
    store_tile(all, own as usize * stride + at, sum);
}

// The 64 bytes of `own` from `at` on, and those of each column added to them.
#[inline(always)]
fn sum_tile(all: &[u8], own: u32, columns: &[u32], stride: usize, at: usize) -> u8x64
    requires own { own * stride + at + 64 ≤ length all.now }
    requires each { All (λ column. column * stride + at + 64 ≤ length all.now) columns.now }
    ensures long { length result ≡ 64 }
    ensures bytes { (j : ℕ) → j < 64
        → slice_index_or result j 0 ≡ summed_byte all.now stride own columns.now (at + j) }
{
    let mut sum = u8x64::from_slice(&all[own as usize * stride + at..]);
    for i in 0..columns.len() {
        sum ^= u8x64::from_slice(&all[columns[i] as usize * stride + at..]);
    }
    sum
}

// Adds up the 32 bytes from `at` on.
#[inline(always)]
fn put_lane(all: &mut [u8], own: u32, columns: &[u32], stride: usize, at: usize)
    requires own { own * stride + at + 32 ≤ length all.old }
    requires each { All (λ column. column * stride + at + 32 ≤ length all.old) columns.now }
    ensures sum { (j : ℕ) → j < 32
        → slice_index_or all.new (own * stride + at + j) 0
        ≡ summed_byte all.old stride own columns.now (at + j) }
    ensures rest { (k : ℕ) → (k < own * stride + at) ⊎ (own * stride + at + 32 ≤ k)
        → slice_index_or all.new k 0 ≡ slice_index_or all.old k 0 }
{
    let sum = sum_lane(all, own, columns, stride, at);
    store_lane(all, own as usize * stride + at, sum);
}

// The 32 bytes of `own` from `at` on, and those of each column added to them.
#[inline(always)]
fn sum_lane(all: &[u8], own: u32, columns: &[u32], stride: usize, at: usize) -> u8x32
    requires own { own * stride + at + 32 ≤ length all.now }
    requires each { All (λ column. column * stride + at + 32 ≤ length all.now) columns.now }
    ensures long { length result ≡ 32 }
    ensures bytes { (j : ℕ) → j < 32
        → slice_index_or result j 0 ≡ summed_byte all.now stride own columns.now (at + j) }
{
    let mut sum = u8x32::from_slice(&all[own as usize * stride + at..]);
    for i in 0..columns.len() {
        sum ^= u8x32::from_slice(&all[columns[i] as usize * stride + at..]);
    }
    sum
}

// Writes a tile over the bytes from `at` on.
#[inline(always)]
fn store_tile(all: &mut [u8], at: usize, tile: u8x64)
    requires { at + 64 ≤ length all.old }
    ensures { all.new ≡ put_chunk at all.old tile }
{
    tile.copy_to_slice(&mut all[at..]);
}

// Writes a lane over the bytes from `at` on.
#[inline(always)]
fn store_lane(all: &mut [u8], at: usize, lane: u8x32)
    requires { at + 32 ≤ length all.old }
    ensures { all.new ≡ put_chunk at all.old lane }
{
    lane.copy_to_slice(&mut all[at..]);
}
