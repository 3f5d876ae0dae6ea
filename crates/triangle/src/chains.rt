// The chains of the triangle, and the code.
ghost use Rattle.std.specs.Prelude.{◌≡◌, ◌<◌, ◌≤◌, ◌-◌, Some, None, IfOk, OnOk};
ghost use Rattle.sparse_rows.specs.Matrix.{IsCode};
ghost use Rattle.staircase.specs.LeftSide.{drawn_matrix, in_order};
ghost use Rattle.triangle.specs.Triangle.{chain, triangle_matrix};

use park_miller::{Draws, MAX_SEED, ParkMiller};
use sparse_rows::{Code, RowsBuilder};
use staircase::{BuildRefusal, Built, add_stairs, left};
use std::alloc::Global;

/// The LDPC-Triangle code (RFC 5170, section 7.2) of n encoding symbols, of which the first k are
/// the source symbols: the staircase, whose left side has the first draws from the seed, and then
/// row by row a chain of further repair symbols, which begins at that of the row before.
/// `DrawLimit` comes where both take more than `limit` draws. The numbers of a chain fall, so it
/// meets no repair symbol twice.
pub fn triangle(
    alloc: Global,
    k: u32,
    n: u32,
    n1: u32,
    seed: u32,
    limit: u64,
) -> Result<Built, BuildRefusal>
    requires some { 1 ≤ k }
    requires within { k ≤ n }
    requires most { n ≤ 65536 }
    requires least { 3 ≤ n1 }
    requires greatest { n1 ≤ 10 }
    requires positive_seed { 1 ≤ seed }
    requires seed { seed ≤ MAX_SEED }
    ensures ok { IfOk result (λ built. triangle_matrix k n n1 seed limit
        ≡ Some (record { matrix = built.code; draws = built.draws })) }
    ensures draw_limit { result ≡ Err BuildRefusal.DrawLimit
        → triangle_matrix k n n1 seed limit ≡ None }
    ensures source { IfOk result (λ built. built.code.k ≡ k) }
    ensures symbols { IfOk result (λ built. built.code.n ≡ n) }
{
    let mut g = Draws::new(ParkMiller::new(seed).unwrap(), limit);
    let mut rows = left(alloc, k, n, n1, &mut g)?;
    add_stairs(&mut rows, k, n - k)?;
    // The chains are promised the draws that are left, so there has to be no draw too many.
    prove!(g.used() <= limit);
    add_chains(&mut rows, k, n - k, &mut g)?;
    let code = Code::from_builder(alloc, rows)?;
    Ok(Built {
        code,
        draws: g.used(),
    })
}

// Puts the chains into the rows.
fn add_chains(rows: &mut RowsBuilder, k: u32, count: u32, g: &mut Draws) -> Result<(), BuildRefusal>
    requires code { IsCode rows.old }
    requires k { k ≡ rows.old.k }
    requires count { count ≡ rows.old.n - rows.old.k }
    requires within { g.old.used ≤ g.old.limit }
    ensures ok { OnOk result (in_order count chain (drawn_matrix rows.old g.old)
        ≡ Some (drawn_matrix rows.new g.new)) }
    ensures draw_limit { result ≡ Err BuildRefusal.DrawLimit
        → in_order count chain (drawn_matrix rows.old g.old) ≡ None }
    ensures source { OnOk result (rows.new.k ≡ rows.old.k) }
    ensures encoding { OnOk result (rows.new.n ≡ rows.old.n) }
    ensures code { OnOk result (IsCode rows.new) }
{
    for r in 0..count {
        add_chain(rows, k, r, g)?;
    }
    Ok(())
}

// Puts its chain into row r. Link l of the chain is below r - l, so the chain ends.
fn add_chain(rows: &mut RowsBuilder, k: u32, r: u32, g: &mut Draws) -> Result<(), BuildRefusal>
    requires code { IsCode rows.old }
    requires k { k ≡ rows.old.k }
    requires row { r < rows.old.n - rows.old.k }
    requires within { g.old.used ≤ g.old.limit }
    ensures ok { OnOk result (chain r (drawn_matrix rows.old g.old)
        ≡ Some (drawn_matrix rows.new g.new)) }
    ensures draw_limit { result ≡ Err BuildRefusal.DrawLimit
        → chain r (drawn_matrix rows.old g.old) ≡ None }
    ensures source { OnOk result (rows.new.k ≡ rows.old.k) }
    ensures encoding { OnOk result (rows.new.n ≡ rows.old.n) }
    ensures code { OnOk result (IsCode rows.new) }
    ensures within { g.new.used ≤ g.new.limit }
{
    let mut reached = r.saturating_sub(1);
    let mut links = 0;
    while links < reached {
        reached = g.draw(reached)?;
        rows.insert(r, k + reached)?;
        links += 1;
    }
    Ok(())
}
