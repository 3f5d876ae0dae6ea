// Bytes in one block of memory, which are zero until the first of them is written. No function here
// has a pointer.
ghost use Rattle.std.specs.Prelude.{◌≡◌, ◌≢◌, ◌⊎◌, ℕ, ◌+◌, ◌*◌, ◌%◌, ◌^◌, ◌<◌, ◌≤◌, All, length};
ghost use Rattle.std.specs.Prelude.{[], replicate, slice_index_or, IfOk};
ghost use Rattle.symbol_arena.specs.Zeros.{with_zeros, IsWritten};
ghost use lib.Lanes.{chunk, put_chunk};
ghost use Rattle.xor_lanes.specs.Sums.{summed_byte};

use crate::memory::{Lease, Memory};
use core::mem::replace_with;
use fec_base::NoMemory;
use std::alloc::Global;
use std::marker::Model;
use std::simd::prelude::*;
use xor_lanes::add_columns;

/// The owner of a block. Its memory is written whole, with zeros, before the first write to it: so
/// memory that nothing is written to is never touched, and what is written is near by then.
pub struct Block {
    memory: Memory,
    lease: Lease<Global>,
    alloc: Global,
    size: usize,
    written: bool,
}

impl Model for Block {
    ghost use Rattle.std.specs.Prelude.{◌≡◌, ◌^◌, ◌<◌, ℕ, List};
    ghost use Rattle.symbol_arena.specs.Zeros.{with_zeros, IsWritten};

    ghost Value = { List ℕ };

    ghost view = { λ b. with_zeros b.size b.memory.written };

    ghost invariant = { λ b. IsWritten b.size b.written b.memory.written
        × (b.size < 2 ^ 63) × (b.memory.size ≡ b.size)
        × (b.lease.ptr ≡ b.memory.ptr) × (b.lease.size ≡ b.size) × (b.lease.alloc ≡ b.alloc) };
}

impl Drop for Block {
    fn drop(self) {
        let Block {
            memory,
            lease,
            alloc,
            size,
            written: _,
        } = self;
        memory.free(lease, &alloc, size);
    }
}

impl Block {
    // A block of zeros.
    pub(crate) fn zeroed(alloc: Global, size: usize) -> Result<Block, NoMemory>
        requires { size < 2 ^ 63 }
        ensures { IfOk result (λ block. block ≡ replicate size 0) }
    {
        let (memory, lease) = Memory::allocate::<Global>(&alloc, size)?;
        Ok(Block {
            memory,
            lease,
            alloc,
            size,
            written: false,
        })
    }

    // The `len` bytes from `from` on.
    pub(crate) fn run(&self, from: usize, len: usize) -> &[u8]
        requires place { from + len ≤ length self.now }
        requires most { len ≤ 65536 }
        ensures { result.now ≡ chunk from len self.now }
    {
        if self.written {
            return self.memory.run(from, len);
        }
        zeros(len)
    }

    // Writes the bytes from `at` on.
    pub(crate) fn put(&mut self, at: usize, bytes: &[u8])
        requires { at + length bytes.now ≤ length self.old }
        ensures { self.new ≡ put_chunk at self.old bytes.now }
    {
        write_zeros(&mut self.memory, self.size, self.written);
        self.written = true;
        overwrite(self.memory.run_mut(at, bytes.len()), bytes);
    }

    // Adds to the part `own` of `stride` bytes the part of each column.
    pub(crate) fn add_columns(&mut self, own: u32, columns: &[u32], stride: usize)
        requires stride { stride % 32 ≡ 0 }
        requires own { own * stride + stride ≤ length self.old }
        requires others { All (λ column. column ≢ own) columns.now }
        requires each { All (λ column. column * stride + stride ≤ length self.old) columns.now }
        ensures count { length self.new ≡ length self.old }
        ensures sum { (j : ℕ) → j < stride
            → slice_index_or self.new (own * stride + j) 0
            ≡ summed_byte self.old stride own columns.now j }
        ensures rest { (k : ℕ) → (k < own * stride) ⊎ (own * stride + stride ≤ k)
            → slice_index_or self.new k 0 ≡ slice_index_or self.old k 0 }
    {
        write_zeros(&mut self.memory, self.size, self.written);
        self.written = true;
        add_columns(self.memory.run_mut(0, self.size), own, columns, stride);
    }

    // Copies the run at `src` over the run at `dst`.
    pub(crate) fn copy(&mut self, dst: usize, src: usize, len: usize)
        requires dst { dst + len ≤ length self.old }
        requires src { src + len ≤ length self.old }
        ensures { self.new ≡ put_chunk dst self.old (chunk src len self.old) }
    {
        write_zeros(&mut self.memory, self.size, self.written);
        self.written = true;
        copy_run(self.memory.run_mut(0, self.size), dst, src, len);
    }
}

// Zeros, which a block is read as before the first write to it.
static ZEROS: [u8; 65_536] = [0; 65_536];

// So many zeros.
fn zeros(len: usize) -> &'static [u8]
    requires { len ≤ 65536 }
    ensures { result.now ≡ replicate len 0 }
{
    &ZEROS[..len]
}

// Writes zeros over all of the memory, where nothing was written.
#[inline(always)]
fn write_zeros(memory: &mut Memory, size: usize, written: bool)
    requires written { IsWritten size written memory.old.written }
    requires size { (memory.old.size ≡ size) × (size < 2 ^ 63) }
    ensures all { length memory.new.written ≡ size }
    ensures same { memory.new.written ≡ with_zeros size memory.old.written }
    ensures place { (memory.new.ptr ≡ memory.old.ptr) × (memory.new.size ≡ memory.old.size) }
{
    if written {
        return;
    }
    fill(memory, size);
}

// Writes zeros over all of the memory, of which nothing was written.
#[inline(never)]
fn fill(memory: &mut Memory, size: usize)
    requires none { memory.old.written ≡ [] }
    requires size { (memory.old.size ≡ size) × (size < 2 ^ 63) }
    ensures all { memory.new.written ≡ replicate size 0 }
    ensures place { (memory.new.ptr ≡ memory.old.ptr) × (memory.new.size ≡ memory.old.size) }
{
    replace_with(memory, size, filled);
}

// The same memory, with zeros all over it. It is taken by value: behind a reference the bytes would
// be written one by one.
fn filled(mut memory: Memory, size: usize) -> (Memory, ())
    requires none { memory.written ≡ [] }
    requires size { (memory.size ≡ size) × (size < 2 ^ 63) }
    ensures all { result.0.written ≡ replicate size 0 }
    ensures place { (result.0.ptr ≡ memory.ptr) × (result.0.size ≡ memory.size) }
{
    for i in 0..size {
        memory.push_zero(i);
    }
    (memory, ())
}

// Writes the bytes over as many others. Short ones go by two lanes that overlap, in place of a
// call.
fn overwrite(all: &mut [u8], bytes: &[u8])
    requires { length bytes.now ≡ length all.old }
    ensures { all.new ≡ bytes.now }
{
    let len = bytes.len();
    if len < 16 || len > 32 {
        all.copy_from_slice(bytes);
        return;
    }
    store_half(all, 0, load_half(bytes, 0));
    store_half(all, len - 16, load_half(bytes, len - 16));
}

// The 16 bytes from `at` on.
#[inline(always)]
fn load_half(bytes: &[u8], at: usize) -> u8x16
    requires { at + 16 ≤ length bytes.now }
    ensures { result ≡ chunk at 16 bytes.now }
{
    u8x16::from_slice(&bytes[at..])
}

// Writes the 16 bytes over those from `at` on.
#[inline(always)]
fn store_half(all: &mut [u8], at: usize, half: u8x16)
    requires { at + 16 ≤ length all.old }
    ensures { all.new ≡ put_chunk at all.old half }
{
    half.copy_to_slice(&mut all[at..]);
}

// Copies the run at `src` over the run at `dst`. One lane needs no call of a general copy.
fn copy_run(all: &mut [u8], dst: usize, src: usize, len: usize)
    requires dst { dst + len ≤ length all.old }
    requires src { src + len ≤ length all.old }
    ensures { all.new ≡ put_chunk dst all.old (chunk src len all.old) }
{
    if len == 32 {
        copy_lane(all, dst, src);
        return;
    }
    all.copy_within(src..src + len, dst);
}

// Copies the 32 bytes at `src` over those at `dst`.
#[inline(always)]
fn copy_lane(all: &mut [u8], dst: usize, src: usize)
    requires dst { dst + 32 ≤ length all.old }
    requires src { src + 32 ≤ length all.old }
    ensures { all.new ≡ put_chunk dst all.old (chunk src 32 all.old) }
{
    let lane = u8x32::from_slice(&all[src..]);
    lane.copy_to_slice(&mut all[dst..]);
}
