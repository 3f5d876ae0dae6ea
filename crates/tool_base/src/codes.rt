// The code of a source block, of a file or by itself.
ghost use Rattle.std.specs.Prelude.{◌≡◌, ◌≤◌, ◌<◌, length, slice_index, Some, None, IfOk, IfSome};
ghost use Rattle.std.specs.Prelude.{false};
ghost use Rattle.oti_fields.specs.Grids.{grid_size, is_grid};
ghost use Rattle.packet_file.specs.Header.{source_counts};
ghost use Rattle.packet_file.specs.Packets.{block_symbols};
ghost use Rattle.tool_base.specs.BlockCode.{block_matrix, limit_by, matrix_by, seed_field};
ghost use Rattle.tool_base.specs.BlockCode.{shape_matrix};
ghost use Rattle.tool_base.specs.Ranges.{IsShapeInRange};

use crate::Shape;
use oti_fields::Codec;
use packet_file::Header;
use parity_2d::{parity_2d, parity_2d_corner};
use staircase::{BuildRefusal, Built, staircase};
use std::alloc::Global;
use triangle::triangle;

/// The code of block i of a file, and how many draws its matrix took, 0 for a grid. The draws may
/// be as many as are given, or else 64 for each of the N1*k + 2*(n - k) entries of the block and
/// 65,536 more. `DrawLimit` comes only where the matrix takes more,
/// and where it does nothing else comes but want of memory.
pub fn block_code(
    alloc: Global,
    h: &Header,
    i: u32,
    draws: Option<u32>,
) -> Result<Built, BuildRefusal>
    requires { i < length (source_counts h.now) }
    ensures ok { IfOk result
        (λ built. block_matrix h.now draws (slice_index (source_counts h.now) i)
        ≡ Some (record { matrix = built.code; draws = built.draws })) }
    ensures draw_limit { result ≡ Err BuildRefusal.DrawLimit
        → block_matrix h.now draws (slice_index (source_counts h.now) i) ≡ None }
    ensures source { IfOk result (λ built. built.code.k ≡ slice_index (source_counts h.now) i) }
    ensures symbols { IfOk result (λ built. built.code.n ≡ block_symbols h.now i) }
{
    let k = h.source_count(i);
    let n = h.symbol_count(i);
    let oti = h.oti();
    code_by(alloc, h.codec(), oti.n1m3 as u32 + 3, oti.seed, draws, k, n)
}

/// The code of a block of k source and n encoding symbols of this shape, and how many draws its
/// matrix took, 0 for a grid. The draws may be as many as the shape says, or else 64 for each of
/// the N1*k + 2*(n - k) entries and 65,536 more. `DrawLimit` comes only where the matrix takes
/// more.
pub fn shape_code(alloc: Global, shape: &Shape, k: u32, n: u32) -> Result<Built, BuildRefusal>
    requires shape { IsShapeInRange shape.now }
    requires some { 1 ≤ k }
    requires within { k ≤ n }
    requires most { n ≤ 65536 }
    requires grid { IfSome (grid_size shape.now.codec k shape.now.width) (λ size. n ≡ size) }
    ensures ok { IfOk result (λ built. shape_matrix shape.now k n
        ≡ Some (record { matrix = built.code; draws = built.draws })) }
    ensures draw_limit { result ≡ Err BuildRefusal.DrawLimit → shape_matrix shape.now k n ≡ None }
    ensures source { IfOk result (λ built. built.code.k ≡ k) }
    ensures symbols { IfOk result (λ built. built.code.n ≡ n) }
{
    code_by(
        alloc,
        shape.codec,
        shape.n1,
        shape.seed_field(),
        shape.draws,
        k,
        n,
    )
}

// The code that a codec gives a block of k source and n encoding symbols. `field` is the seed of
// the generator, or the width of the grid.
fn code_by(
    alloc: Global,
    codec: Codec,
    n1: u32,
    field: u32,
    draws: Option<u32>,
    k: u32,
    n: u32,
) -> Result<Built, BuildRefusal>
    requires some { 1 ≤ k }
    requires within { k ≤ n }
    requires most { n ≤ 65536 }
    requires least { 3 ≤ n1 }
    requires greatest { n1 ≤ 10 }
    requires field_some { 1 ≤ field }
    requires seed { is_grid codec ≡ false → field ≤ 2147483646 }
    requires grid { IfSome (grid_size codec k field) (λ size. n ≡ size) }
    ensures ok { IfOk result (λ built. matrix_by codec n1 field draws k n
        ≡ Some (record { matrix = built.code; draws = built.draws })) }
    ensures draw_limit { result ≡ Err BuildRefusal.DrawLimit
        → matrix_by codec n1 field draws k n ≡ None }
    ensures source { IfOk result (λ built. built.code.k ≡ k) }
    ensures symbols { IfOk result (λ built. built.code.n ≡ n) }
{
    let limit = limit_of(draws, n1, k, n);
    match codec {
        Codec::Staircase => staircase(alloc, k, n, n1, field, limit),
        Codec::Triangle => triangle(alloc, k, n, n1, field, limit),
        Codec::Parity2d => Ok(Built {
            code: parity_2d(alloc, k, field)?,
            draws: 0,
        }),
        Codec::Corner2d => Ok(Built {
            code: parity_2d_corner(alloc, k, field)?,
            draws: 0,
        }),
    }
}

impl Shape {
    /// What the header of a file of this code has in its last field: the seed of the generator, or
    /// the width of the grid.
    pub fn seed_field(&self) -> u32
        ensures { result ≡ seed_field self.now }
    {
        if self.codec.is_grid() {
            self.width
        } else {
            self.seed
        }
    }
}

// How many draws a matrix may take.
fn limit_of(draws: Option<u32>, n1: u32, k: u32, n: u32) -> u64
    requires within { k ≤ n }
    requires most { n ≤ 65536 }
    requires greatest { n1 ≤ 10 }
    ensures { result ≡ limit_by draws n1 k n }
{
    match draws {
        Some(draws) => draws as u64,
        None => 64 * (n1 as u64 * k as u64 + 2 * (n - k) as u64) + 65_536,
    }
}
