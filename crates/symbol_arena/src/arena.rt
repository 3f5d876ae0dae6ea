// Symbols of one length in one block of memory.
ghost use Rattle.std.specs.Prelude.{◌≡◌, ◌≢◌, ◌↔◌, ◌+◌, ◌<◌, ◌≤◌, length, replicate, [], All, fold};
ghost use Rattle.std.specs.Prelude.{slice_index_or, slice_set, IfOk, IsTrue};
ghost use Rattle.fec_base.specs.Symbol.{xor, zero_symbol};

use crate::block::Block;
use fec_base::{Ledger, NoMemory, Steps};
use std::alloc::Global;
use std::marker::Model;

/// Up to 131,072 symbols of one length, numbered from 0, in one block of memory. The first byte of
/// each is 32 bytes, or a multiple of it, behind the first byte of the one before.
///
/// So sums and copies go by whole lanes, without a loop over single bytes at the end: what lies
/// between a symbol and the next one is added and copied with it, and has no meaning. Symbols of up
/// to 32 bytes are one lane, and no call of a general copy is made for them.
#[derive(Drop)]
pub struct Arena {
    block: Block,
    count: u32,
    len: u32,
    // From the first byte of a symbol to that of the next.
    stride: usize,
}

impl Model for Arena {
    ghost use Rattle.std.specs.Prelude.{◌≡◌, ℕ, ◌*◌, ◌%◌, ◌≤◌, List, length};
    ghost use Rattle.symbol_arena.specs.Laid.{laid_symbols};

    ghost Value = { List (List ℕ) };

    ghost view = { λ a. laid_symbols a.count a.stride a.len a.block };

    ghost invariant = { λ a. (length a.block ≡ a.count * a.stride) × (a.len ≤ a.stride)
        × (a.stride ≤ 65536) × (a.count ≤ 131072) × (a.stride % 32 ≡ 0) };
}

impl Arena {
    /// `count` symbols of `len` bytes, all zero. `NoMemory` comes where the block is refused.
    pub fn new(alloc: Global, count: u32, len: u32) -> Result<Arena, NoMemory>
        requires count { count ≤ 131072 }
        requires some { 1 ≤ len }
        requires most { len ≤ 65535 }
        ensures { IfOk result (λ arena. arena ≡ replicate count (zero_symbol len)) }
    {
        let stride = (len as usize + 31) / 32 * 32;
        let block = Block::zeroed(alloc, count as usize * stride)?;
        Ok(Arena {
            block,
            count,
            len,
            stride,
        })
    }

    /// The `len` bytes of symbol s.
    pub fn get(&self, s: u32) -> &[u8]
        requires { s < length self.now }
        ensures { result.now ≡ slice_index_or self.now s [] }
    {
        self.block.run(s as usize * self.stride, self.len as usize)
    }

    /// Makes the bytes symbol s. They are as many as it has.
    pub fn put(&mut self, s: u32, bytes: &[u8])
        requires place { s < length self.old }
        requires len { length bytes.now ≡ length (slice_index_or self.old s []) }
        ensures { self.new ≡ slice_set self.old s bytes.now }
    {
        self.block.put(s as usize * self.stride, bytes);
    }

    /// Whether each byte of symbol s is zero.
    pub fn is_zero(&self, s: u32) -> bool
        requires { s < length self.now }
        ensures { IsTrue result
            ↔ (slice_index_or self.now s [] ≡ zero_symbol (length (slice_index_or self.now s []))) }
    {
        xor_lanes::is_zero(self.get(s))
    }

    /// Symbol `dst` becomes what symbol `src` is.
    pub fn copy(&mut self, dst: u32, src: u32)
        requires dst { dst < length self.old }
        requires src { src < length self.old }
        ensures { self.new ≡ slice_set self.old dst (slice_index_or self.old src []) }
    {
        self.block.copy(
            dst as usize * self.stride,
            src as usize * self.stride,
            self.stride,
        );
    }

    /// Symbol `dst` becomes its XOR with symbol `src`, another one. It is one step.
    pub fn add<L: Ledger>(&mut self, dst: u32, src: u32, steps: &mut Steps<L>)
        requires dst { dst < length self.old }
        requires src { src < length self.old }
        requires apart { dst ≢ src }
        ensures sum { self.new
            ≡ slice_set self.old dst
            (xor (slice_index_or self.old dst []) (slice_index_or self.old src [])) }
        ensures steps { steps.new ≡ steps.old + 1 }
    {
        steps.tick();
        self.block.add_columns(dst, &[src], self.stride);
    }

    /// Symbol `dst` becomes its sum with each of the other symbols at `sources`, a step each. Each
    /// tile of it is written once.
    pub fn add_all<L: Ledger>(&mut self, dst: u32, sources: &[u32], steps: &mut Steps<L>)
        requires dst { dst < length self.old }
        requires sources { All (λ src. src < length self.old) sources.now }
        requires apart { All (λ src. src ≢ dst) sources.now }
        ensures sum { self.new
            ≡ slice_set self.old dst
            (fold (λ sum src. xor sum (slice_index_or self.old src []))
            (slice_index_or self.old dst []) sources.now) }
        ensures steps { steps.new ≡ steps.old + length sources.now }
    {
        for _ in 0..sources.len() {
            steps.tick();
        }
        self.block.add_columns(dst, sources, self.stride);
    }
}
