// What the sender and the receiver agree on: the block and its code.
ghost use Rattle.std.specs.Prelude.{◌≡◌, None, Err, IfOk};
ghost use Rattle.staircase.specs.Staircase.{staircase_matrix};
ghost use Rattle.one_block.specs.Block.{IsBlockCode};

use crate::fault::Fault;
use sparse_rows::Code;
use staircase::staircase;
use std::alloc::Global;

/// How many source symbols the block has.
pub const K: u32 = 3;

/// How many encoding symbols it has: the K source symbols, and then the repair symbols.
pub const N: u32 = 7;

/// How many bytes a symbol has, from 1 to 65,535.
pub const LEN: u32 = 1;

/// N1, from 3 to 10: a source symbol takes min(N1, n - k) turns at being put into a row.
pub const N1: u32 = 3;

/// The seed of the matrix, from 1 to 2,147,483,646.
pub const SEED: u32 = 1;

/// The most draws that the matrix may take.
pub const DRAW_LIMIT: u64 = 100_000;

/// The code of the block. Whoever has the same numbers builds the same code.
pub fn block_code(alloc: Global) -> Result<Code, Fault>
    ensures ok { IfOk result IsBlockCode }
    ensures draws { result ≡ Err Fault.Draws
        → staircase_matrix K N N1 SEED DRAW_LIMIT ≡ None }
{
    let built = staircase(alloc, K, N, N1, SEED, DRAW_LIMIT)?;
    Ok(built.code)
}
