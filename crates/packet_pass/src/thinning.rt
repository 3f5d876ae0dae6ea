// The packets that a loss keeps of a sequence, with the loss's own generator.
ghost use Rattle.std.specs.Prelude.{◌≡◌, ◌+◌, ◌<◌, ◌≤◌};
ghost use Rattle.loss_patterns.specs.Ranges.{IsLoss};
ghost use Rattle.loss_patterns.specs.Keeps.{keeps};
ghost use Rattle.packet_pass.specs.Thinned.{kept_of};

use loss_patterns::{Loss, LossKind};
use park_miller::{BadSeed, ParkMiller};
use std::marker::Model;

/// A loss that decides one packet after the other, by draws from a seed, and counts the kept ones.
#[derive(Drop)]
pub struct Thinning {
    loss: Loss,
    generator: ParkMiller,
    seed: u32,
    kept: u64,
}

impl Model for Thinning {
    ghost use Rattle.std.specs.Prelude.{◌≡◌, ◌≤◌};
    ghost use Rattle.loss_patterns.specs.Deciding.{Follows};
    ghost use Rattle.packet_pass.specs.Progress.{Thinned};
    ghost use Rattle.packet_pass.specs.Thinned.{kept_of};

    ghost Value = { Thinned };

    ghost view = { λ t. record { kind = t.loss.kind; seed = t.seed; done = t.loss.decided } };

    ghost invariant = { λ t. Follows t.loss t.seed t.generator
        × (t.kept ≡ kept_of t.loss.kind t.seed t.loss.decided) × (t.kept ≤ t.loss.decided) };
}

impl Thinning {
    /// A loss that has decided nothing, and draws from this seed on.
    pub fn new(kind: LossKind, seed: u32) -> Thinning
        requires kind { IsLoss kind }
        requires seed { (1 ≤ seed) × (seed ≤ 2147483646) }
        ensures { result ≡ record { kind = kind; seed = seed; done = 0 } }
    {
        let generator = match ParkMiller::new(seed) {
            Ok(generator) => generator,
            Err(BadSeed) => unreachable!(),
        };
        Thinning {
            loss: Loss::new(kind),
            generator,
            seed,
            kept: 0,
        }
    }

    /// Whether the next packet is kept.
    pub fn next(&mut self) -> bool
        requires { self.old.done < 16777216 }
        ensures kept { result ≡ keeps self.old.kind self.old.seed self.old.done }
        ensures done { self.new ≡ record self.old { done = self.old.done + 1 } }
    {
        let keep = self.loss.keep(&mut self.generator);
        self.kept += keep as u64;
        keep
    }

    /// How many packets were kept.
    pub fn kept(&self) -> u64
        ensures { result ≡ kept_of self.now.kind self.now.seed self.now.done }
    {
        self.kept
    }
}
