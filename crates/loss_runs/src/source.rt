// The source block that a generator draws.
ghost use Rattle.std.specs.Prelude.{◌≡◌, ◌≤◌, IfOk, OnOk, length};
ghost use Rattle.park_miller.specs.Generator.{after};
ghost use Rattle.loss_runs.specs.Trials.{drawn_bytes};

use fec_base::NoMemory;
use park_miller::ParkMiller;
use std::alloc::Global;

/// So many bytes, each a draw below 256, in order.
pub fn draw_bytes(
    alloc: Global,
    count: usize,
    generator: &mut ParkMiller,
) -> Result<Vec<u8>, NoMemory>
    ensures bytes { IfOk result (λ bytes. bytes.items ≡ drawn_bytes count generator.old) }
    ensures state { OnOk result (generator.new ≡ after count generator.old) }
    ensures counted { IfOk result (λ bytes. length bytes.items ≡ count) }
{
    let mut bytes = Vec::with_capacity(alloc, count)?;
    for _ in 0..count {
        bytes.push_reserved(generator.draw(256) as u8);
    }
    Ok(bytes)
}
