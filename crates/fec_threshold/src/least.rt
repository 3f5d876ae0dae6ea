// The least prefix of an order that determines a block, by halving.
ghost use Rattle.std.specs.Prelude.{◌<◌, ◌≤◌, ◌↔◌, ℕ, IsNone, All, length, IfOk, IfSome};
ghost use Rattle.sparse_rows.specs.Matrix.{is_in};
ghost use Rattle.fec_threshold.specs.LeastPrefix.{HasNullWord, IsLeastPrefix};

use crate::null_words::has_null_word;
use fec_base::NoMemory;
use sparse_rows::Code;
use std::alloc::Global;

/// The least number of items, from the start of the order, that together have no null word. None
/// exactly where all items together have one. The items are positions of encoding symbols in the
/// order in which they come, and may be repeated. Prefixes are tried by halving, each with a
/// decoder of one byte a symbol, for which it takes memory.
pub fn least_prefix(alloc: Global, code: &Code, order: &[u32]) -> Result<Option<u32>, NoMemory>
    requires below { All (λ position. position < code.now.n) order.now }
    requires few { length order.now ≤ 16777216 }
    ensures some { IfOk result (λ least. IfSome least (IsLeastPrefix code.now order.now)) }
    ensures none { IfOk result (λ least. IsNone least
        ↔ HasNullWord code.now (is_in order.now)) }
{
    if has_null_word(alloc, code, order)? {
        return Ok(None);
    }
    let least = halve(alloc, code, order)?;
    Ok(Some(least))
}

// The least prefix that has no null word, where the whole order has none.
fn halve(alloc: Global, code: &Code, order: &[u32]) -> Result<u32, NoMemory>
    requires below { All (λ position. position < code.now.n) order.now }
    requires few { length order.now ≤ 16777216 }
    requires whole { ¬ HasNullWord code.now (is_in order.now) }
    ensures { IfOk result (IsLeastPrefix code.now order.now) }
{
    // Each prefix shorter than `low` has a null word, and that of length `high` has none.
    let mut low = 0;
    let mut high = order.len();
    while low < high {
        let middle = next_length(low, high, code.k() as usize);
        if has_null_word(alloc, code, &order[..middle])? {
            low = middle + 1;
        } else {
            high = middle;
        }
    }
    Ok(high as u32)
}

// The length of the prefix that is tried next: first the longest that is shorter than the source
// block, since a short prefix leaves much to eliminate and is never one that determines; and then
// the middle.
fn next_length(low: usize, high: usize, k: usize) -> usize
    requires { low < high }
    ensures low { low ≤ result }
    ensures high { result < high }
{
    if low < k && k <= high {
        return k - 1;
    }
    low + (high - low) / 2
}
