// The source blocks of an object.
ghost use Rattle.std.specs.Prelude.{◌≡◌, ◌<◌, ◌≤◌, ◌*◌, length, slice_index, sum, take, IfOk, OnOk};
ghost use Rattle.std.specs.Prelude.{OnErr};
ghost use Rattle.blocking.specs.Blocks.{block_count, block_sizes, scaled, size_2d};
ghost use Rattle.blocking.specs.CornerSize.{size_2d_corner};

use std::error::Error;
use std::fmt;
use std::marker::Model;

// How many source blocks an object has at most.
const MOST_BLOCKS: u64 = 4096;

/// The object would have more than 4,096 source blocks.
#[derive(Clone, Copy, Debug, PartialEq, Eq)]
pub struct TooManyBlocks;

impl fmt::Display for TooManyBlocks {
    fn fmt<W: fmt::Write>(&self, f: &mut fmt::Formatter<W>) -> fmt::Result {
        write!(f, "more than 4096 blocks")
    }
}

impl Error for TooManyBlocks {}

/// How many source symbols each source block of an object has: at most 4,096 blocks, and at most
/// 268,435,456 source symbols. The larger blocks come first.
#[derive(Drop)]
pub struct Plan {
    larger: u32,
    larger_len: u32,
    smaller: u32,
    smaller_len: u32,
}

impl Model for Plan {
    ghost use Rattle.std.specs.Prelude.{◌≤◌, ◌+◌, ◌*◌, ℕ, List, ◌++◌, replicate};

    ghost Value = { List ℕ };

    ghost view = { λ p. replicate p.larger p.larger_len ++ replicate p.smaller p.smaller_len };

    ghost invariant = { λ p. (p.larger + p.smaller ≤ 4096)
        × (p.larger * p.larger_len + p.smaller * p.smaller_len ≤ 268435456) };
}

impl Plan {
    /// The plan of an object of `length` bytes, in symbols of `e` bytes and source blocks of at
    /// most `b` symbols. An object without a byte has no block.
    pub fn of(length: u64, e: u32, b: u32) -> Result<Plan, TooManyBlocks>
        requires symbol { 1 ≤ e }
        requires block { 1 ≤ b }
        requires most { length ≤ 268435456 }
        ensures ok { IfOk result (λ plan. plan ≡ block_sizes length e b) }
        ensures few { OnOk result (block_count length e b ≤ 4096) }
        ensures err { OnErr result (4096 < block_count length e b) }
    {
        let total = length.div_ceil(e as u64);
        let count = total.div_ceil(b as u64);
        if count > MOST_BLOCKS {
            return Err(TooManyBlocks);
        }
        if count == 0 {
            return Ok(Plan {
                larger: 0,
                larger_len: 0,
                smaller: 0,
                smaller_len: 0,
            });
        }
        let smaller_len = total / count;
        let larger = total - smaller_len * count;
        Ok(Plan {
            larger: larger as u32,
            larger_len: total.div_ceil(count) as u32,
            smaller: (count - larger) as u32,
            smaller_len: smaller_len as u32,
        })
    }

    /// How many source blocks there are, at most 4,096.
    pub fn count(&self) -> u32
        ensures value { result ≡ length self.now }
        ensures most { result ≤ 4096 }
    {
        self.larger + self.smaller
    }

    /// How many source symbols block i has.
    pub fn block_len(&self, i: u32) -> u32
        requires { i < length self.now }
        ensures { result ≡ slice_index self.now i }
    {
        if i < self.larger {
            self.larger_len
        } else {
            self.smaller_len
        }
    }

    /// How many source symbols the blocks before block i have.
    pub fn block_start(&self, i: u32) -> u32
        requires { i < length self.now }
        ensures value { result ≡ sum (take i self.now) }
        ensures most { result ≤ 268435456 }
    {
        let larger = i.min(self.larger);
        larger * self.larger_len + (i - larger) * self.smaller_len
    }
}

/// How many encoding symbols a block of `k` source symbols has, where a block of `b` source symbols
/// has `max_n`: in the same proportion, rounded down.
pub fn ldpc_n(k: u32, b: u32, max_n: u32) -> u32
    requires some { 1 ≤ k }
    requires within { k ≤ b }
    requires block { b ≤ max_n }
    requires most { max_n ≤ 65536 }
    ensures value { result ≡ scaled k b max_n }
    ensures least { k ≤ result }
    ensures most { result ≤ max_n }
{
    (k as u64 * max_n as u64 / b as u64) as u32
}

/// How many encoding symbols `k` source symbols in a grid of this width have: the source symbols,
/// one repair symbol for each row of the grid (the last row may be in part), and one for each
/// column that holds a symbol.
pub fn size_2d(k: u32, width: u32) -> u64
    requires some { 1 ≤ k }
    requires wide { 1 ≤ width }
    ensures { result ≡ size_2d k width }
{
    k as u64 + k.div_ceil(width) as u64 + width.min(k) as u64
}

/// How many encoding symbols `k` source symbols in a grid of this width have with a corner, which
/// is one repair symbol more: those of `size_2d`, and the corner.
pub fn size_2d_corner(k: u32, width: u32) -> u64
    requires some { 1 ≤ k }
    requires wide { 1 ≤ width }
    ensures { result ≡ size_2d_corner k width }
{
    size_2d(k, width) + 1
}
