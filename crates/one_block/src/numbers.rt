// Numbers of the generator.
ghost use Rattle.std.specs.Prelude.{◌≡◌, ◌≤◌, length, IfOk};
ghost use Rattle.std.specs.List.{range_with_len};
ghost use Rattle.park_miller.specs.Generator.{after};
ghost use Rattle.park_miller.specs.Shuffle.{shuffled};
ghost use Rattle.one_block.specs.Numbers.{draws_of};

use crate::fault::Fault;
use park_miller::{MAX_BOUND, MAX_SEED, ParkMiller};
use std::alloc::Global;

/// The state of the generator after so many steps from the seed.
pub fn state_after(seed: u32, steps: u32) -> u32
    requires positive { 1 ≤ seed }
    requires seed { seed ≤ MAX_SEED }
    ensures { result ≡ after steps seed }
{
    let mut generator = ParkMiller::new(seed).unwrap();
    for _ in 0..steps {
        generator.draw(1);
    }
    generator.state()
}

/// The first draws below a bound from the seed.
pub fn first_draws(alloc: Global, seed: u32, below: u32, count: u32) -> Result<Vec<u32>, Fault>
    requires positive { 1 ≤ seed }
    requires seed { seed ≤ MAX_SEED }
    requires some { 1 ≤ below }
    requires most { below ≤ MAX_BOUND }
    ensures { IfOk result (λ draws. draws.items ≡ draws_of seed below count) }
{
    let mut generator = ParkMiller::new(seed).unwrap();
    let mut draws = Vec::with_capacity(alloc, count as usize)?;
    for _ in 0..count {
        draws.push(generator.draw(below))?;
    }
    Ok(draws)
}

/// The numbers below a count, shuffled from the seed.
pub fn shuffled_numbers(alloc: Global, seed: u32, count: u32) -> Result<Vec<u32>, Fault>
    requires positive { 1 ≤ seed }
    requires seed { seed ≤ MAX_SEED }
    requires most { count ≤ MAX_BOUND }
    ensures { IfOk result (λ order. order.items ≡ shuffled (range_with_len 0 count) seed) }
{
    let mut generator = ParkMiller::new(seed).unwrap();
    let mut order = numbers_below(alloc, count)?;
    generator.shuffle(&mut order);
    Ok(order)
}

// The numbers below a count, rising.
fn numbers_below(alloc: Global, count: u32) -> Result<Vec<u32>, Fault>
    ensures numbers { IfOk result (λ list. list.items ≡ range_with_len 0 count) }
    ensures counted { IfOk result (λ list. length list.items ≡ count) }
{
    let mut list = Vec::with_capacity(alloc, count as usize)?;
    for number in 0..count {
        list.push(number)?;
    }
    Ok(list)
}
