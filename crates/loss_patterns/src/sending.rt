// The order in which packets are sent.
ghost use Rattle.std.specs.Prelude.{◌≡◌, ◌≤◌, ◌-◌, length, IfOk, OnOk, OnErr, IsPermutation};
ghost use Rattle.std.specs.List.{range_with_len};
ghost use Rattle.park_miller.specs.Generator.{after};
ghost use Rattle.loss_patterns.specs.Order.{order};

use fec_base::NoMemory;
use park_miller::ParkMiller;
use std::alloc::Global;

/// The n numbers from 0 up, shuffled by the generator: the order in which n packets are sent. It
/// takes n - 1 draws, and none where n is 0. After `NoMemory` nothing was drawn.
pub fn order(alloc: Global, n: u32, generator: &mut ParkMiller) -> Result<Vec<u32>, NoMemory>
    requires { n ≤ 65536 }
    ensures order { IfOk result (λ list. list.items ≡ order n generator.old) }
    ensures permutation { IfOk result (λ list. IsPermutation (range_with_len 0 n) list.items) }
    ensures draws { OnOk result (generator.new ≡ after (n - 1) generator.old) }
    ensures unchanged { OnErr result (generator.new ≡ generator.old) }
{
    let mut list = numbers_below(alloc, n)?;
    generator.shuffle(&mut list);
    Ok(list)
}

// The numbers below n, from 0 up.
fn numbers_below(alloc: Global, n: u32) -> Result<Vec<u32>, NoMemory>
    ensures numbers { IfOk result (λ list. list.items ≡ range_with_len 0 n) }
    ensures counted { IfOk result (λ list. length list.items ≡ n) }
{
    let mut list = Vec::with_capacity(alloc, n as usize)?;
    for number in 0..n {
        list.push(number)?;
    }
    Ok(list)
}
