// The right side of the staircase, and the code.
ghost use Rattle.std.specs.Prelude.{◌≡◌, ◌<◌, ◌≤◌, ◌+◌, ◌-◌, length, Some, None, Err, All, IfOk};
ghost use Rattle.std.specs.Prelude.{OnOk};
ghost use Rattle.staircase.specs.Left.{IsLeftSide};
ghost use Rattle.sparse_rows.specs.Matrix.{HasShape, row_of};
ghost use Rattle.staircase.specs.Staircase.{with_stairs, staircase_matrix};
ghost use Rattle.staircase.specs.Stairs.{with_stair};

use crate::left_side::left;
use crate::refusal::BuildRefusal;
use fec_base::NoMemory;
use park_miller::{Draws, MAX_SEED, ParkMiller};
use sparse_rows::{Code, RowsBuilder};
use std::alloc::Global;

/// A code, and how many draws its matrix took, rejected ones included.
#[derive(Drop)]
pub struct Built {
    pub code: Code,
    pub draws: u64,
}

/// The LDPC-Staircase code (RFC 5170, section 6.2) of n encoding symbols, of which the first k are
/// the source symbols: the left side, whose draws begin at the seed, and in each row its own repair
/// symbol behind that of the row before. `DrawLimit` comes where the left side takes more than
/// `limit` draws.
pub fn staircase(
    alloc: Global,
    k: u32,
    n: u32,
    n1: u32,
    seed: u32,
    limit: u64,
) -> Result<Built, BuildRefusal>
    requires some { 1 ≤ k }
    requires within { k ≤ n }
    requires most { n ≤ 65536 }
    requires least { 3 ≤ n1 }
    requires greatest { n1 ≤ 10 }
    requires positive_seed { 1 ≤ seed }
    requires seed { seed ≤ MAX_SEED }
    ensures ok { IfOk result (λ built. staircase_matrix k n n1 seed limit
        ≡ Some (record { matrix = built.code; draws = built.draws })) }
    ensures draw_limit { result ≡ Err BuildRefusal.DrawLimit
        → staircase_matrix k n n1 seed limit ≡ None }
    ensures source { IfOk result (λ built. built.code.k ≡ k) }
    ensures symbols { IfOk result (λ built. built.code.n ≡ n) }
{
    let mut g = Draws::new(ParkMiller::new(seed).unwrap(), limit);
    let mut rows = left(alloc, k, n, n1, &mut g)?;
    add_stairs(&mut rows, k, n - k)?;
    let code = Code::from_builder(alloc, rows)?;
    Ok(Built {
        code,
        draws: g.used(),
    })
}

/// Puts the staircase behind a left side of `count` rows: each row's own repair symbol, behind that
/// of the row before. After `NoMemory` some rows have theirs.
pub fn add_stairs(rows: &mut RowsBuilder, k: u32, count: u32) -> Result<(), NoMemory>
    requires left { IsLeftSide k (k + count) rows.old }
    requires most { k + count ≤ 65536 }
    ensures stairs { OnOk result (rows.new ≡ with_stairs rows.old) }
    ensures shape { OnOk result (HasShape rows.new) }
{
    for r in 0..count {
        add_stair(rows, k, r)?;
    }
    Ok(())
}

// Puts the repair symbol of row r into it, behind that of the row before.
fn add_stair(rows: &mut RowsBuilder, k: u32, r: u32) -> Result<(), NoMemory>
    requires row { r < rows.old.n - k }
    requires size { k ≡ rows.old.k }
    requires most { rows.old.n ≤ 65536 }
    requires inside { r < length rows.old.rows }
    requires sources { All (λ c. c < k) (row_of rows.old r) }
    ensures { OnOk result (rows.new ≡ with_stair rows.old r) }
{
    if r == 0 {
        rows.insert(r, k)?;
    } else {
        rows.insert(r, k + r - 1)?;
        rows.insert(r, k + r)?;
    }
    Ok(())
}
