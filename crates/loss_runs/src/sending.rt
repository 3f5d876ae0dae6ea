// What is sent of a codeword, and what of it is kept.
ghost use Rattle.std.specs.Prelude.{◌≡◌, ◌<◌, ◌≤◌, ◌-◌, ◌+◌, ℕ, All, length, IfOk, OnOk};
ghost use Rattle.std.specs.Prelude.{if◌then◌else◌};
ghost use Rattle.std.specs.List.{range_with_len};
ghost use Rattle.park_miller.specs.Generator.{after};
ghost use Rattle.loss_patterns.specs.Ranges.{IsLoss};
ghost use Rattle.loss_patterns.specs.Keeps.{draws_for, keeps};
ghost use Rattle.loss_patterns.specs.Order.{order};
ghost use Rattle.loss_runs.specs.Trials.{items_where};

use fec_base::NoMemory;
use loss_patterns::{Loss, LossKind, order};
use park_miller::ParkMiller;
use std::alloc::Global;

/// The positions below n in the order in which they are sent: shuffled by the generator, or as they
/// are, and then nothing is drawn.
pub fn sending_order(
    alloc: Global,
    n: u32,
    random: bool,
    generator: &mut ParkMiller,
) -> Result<Vec<u32>, NoMemory>
    requires { n ≤ 65536 }
    ensures order { IfOk result (λ list. list.items
        ≡ (if random then order n generator.old else range_with_len 0 n)) }
    ensures state { OnOk result (generator.new
        ≡ after (if random then n - 1 else 0) generator.old) }
    ensures counted { IfOk result (λ list. length list.items ≡ n) }
    ensures below { IfOk result (λ list. All (λ e. e < n) list.items) }
{
    if random {
        let list = order(alloc, n, generator)?;
        return Ok(list);
    }
    let mut list = Vec::with_capacity(alloc, n as usize)?;
    for e in 0..n {
        list.push_reserved(e);
    }
    Ok(list)
}

/// The items that a new loss keeps of a list, in order. It counts their places from 0.
pub fn keep_some(
    alloc: Global,
    kind: LossKind,
    list: &[u32],
    generator: &mut ParkMiller,
) -> Result<Vec<u32>, NoMemory>
    requires loss { IsLoss kind }
    requires few { length list.now ≤ 65536 }
    ensures kept { IfOk result (λ kept. kept.items
        ≡ items_where (keeps kind generator.old) list.now) }
    ensures state { OnOk result (generator.new
        ≡ after (draws_for kind (length list.now)) generator.old) }
    ensures few { IfOk result (λ kept. length kept.items ≤ length list.now) }
    ensures below { IfOk result (λ kept. (n : ℕ) → All (λ e. e < n) list.now
        → All (λ e. e < n) kept.items) }
{
    let mut kept = Vec::with_capacity(alloc, list.len())?;
    let mut loss = Loss::new(kind);
    for e in list {
        if loss.keep(generator) {
            kept.push_reserved(*e);
        }
    }
    Ok(kept)
}
