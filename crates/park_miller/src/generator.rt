ghost use Rattle.std.specs.Prelude.{◌≡◌, ℕ, ◌-◌, ◌*◌, ◌/◌, ◌%◌, ◌^◌, ◌<◌, ◌≤◌, ◌↔◌, ◌⊎◌, length};
ghost use Rattle.std.specs.Prelude.{IsErr, IfOk, IsPermutation};
ghost use Rattle.park_miller.specs.Generator.{modulus, next, after, drawn};
ghost use Rattle.park_miller.specs.States.{IsState};
ghost use Rattle.park_miller.specs.Shuffle.{shuffled};

use std::error::Error;
use std::fmt;
use std::marker::Model;

/// The greatest seed.
pub const MAX_SEED: u32 = 2_147_483_646;

/// The greatest bound of a draw, 2^22, and the greatest number of items of a shuffle.
pub const MAX_BOUND: u32 = 4_194_304;

// The prime 2^31 - 1, modulo which the generator steps.
const MODULUS: u64 = 2_147_483_647;

// What a step multiplies the state by, 7^5.
const MULTIPLIER: u64 = 16_807;

/// A seed that is 0 or above [`MAX_SEED`].
#[derive(Clone, Copy, Debug, PartialEq, Eq)]
pub struct BadSeed;

impl fmt::Display for BadSeed {
    fn fmt<W: fmt::Write>(&self, f: &mut fmt::Formatter<W>) -> fmt::Result {
        write!(f, "the seed is 0 or above 2147483646")
    }
}

impl Error for BadSeed {}

/// The "minimal standard" generator of Park and Miller.
///
/// It isn't `Copy`: a copied generator would repeat its draws unseen. Since each state is a seed,
/// `ParkMiller::new(generator.state())` makes one that repeats them on purpose.
#[derive(Debug, PartialEq, Eq, Drop)]
pub struct ParkMiller {
    state: u32,
}

impl Model for ParkMiller {
    ghost Value = { ℕ };

    ghost view = { λ generator. generator.state };

    ghost invariant = { λ generator. IsState generator.state };

    ghost inverse = { λ state. record { state = state } };
}

impl ParkMiller {
    /// A generator whose state is the seed, before its first step.
    pub fn new(seed: u32) -> Result<Self, BadSeed>
        ensures bad_seed { IsErr result ↔ ((seed ≡ 0) ⊎ (MAX_SEED < seed)) }
        ensures state { IfOk result (λ generator. generator ≡ seed) }
    {
        if seed == 0 || seed > MAX_SEED {
            return Err(BadSeed);
        }
        Ok(ParkMiller { state: seed })
    }

    /// The state after the last step, or the seed.
    pub fn state(&self) -> u32
        ensures value { result ≡ self.now }
        ensures positive { 1 ≤ result }
        ensures within { result ≤ MAX_SEED }
    {
        self.state
    }

    /// Steps once, and scales the new state to a number below the bound.
    pub fn draw(&mut self, below: u32) -> u32
        requires positive { 1 ≤ below }
        requires within { below ≤ MAX_BOUND }
        ensures value { result ≡ drawn below self.new }
        ensures below { result < below }
        ensures state { self.new ≡ next self.old }
    {
        self.state = reduce(MULTIPLIER * u64::from(self.state));
        quotient(u64::from(below) * u64::from(self.state))
    }

    /// Exchanges the item at each place, from the last down to the second, with the one at a place
    /// drawn at or below it. A list of n items takes n - 1 draws, and an empty one takes none.
    pub fn shuffle(&mut self, list: &mut [u32])
        requires { length list.old ≤ MAX_BOUND }
        ensures shuffled { list.new ≡ shuffled list.old self.old }
        ensures permutation { IsPermutation list.old list.new }
        ensures draws { self.new ≡ after (length list.old - 1) self.old }
    {
        for place in (1..list.len()).rev() {
            let other = self.draw(place as u32 + 1);
            list.swap(place, other as usize);
        }
    }
}

// 2^31 is one more than the modulus, so the bits above the lowest 31 may be added to those. The sum
// is below twice the modulus.
fn reduce(product: u64) -> u32
    requires { product < 2 ^ 46 }
    ensures { result ≡ product % modulus }
{
    let sum = (product & MODULUS) + (product >> 31);
    if sum < MODULUS {
        sum as u32
    } else {
        (sum - MODULUS) as u32
    }
}

// With h the bits above the lowest 31 and l those, the product is h * (2^31 - 1) + (h + l). So the
// quotient is h, and one more where h + l reaches the modulus: where h + l + 1 carries into bit 31.
fn quotient(product: u64) -> u32
    requires { product < 2 ^ 53 }
    ensures { result ≡ product / modulus }
{
    ((product + (product >> 31) + 1) >> 31) as u32
}
