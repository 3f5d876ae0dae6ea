// Decisions, packet by packet.
ghost use Rattle.std.specs.Prelude.{◌≡◌, ℕ, ◌+◌, ◌<◌, true};
ghost use Rattle.loss_patterns.specs.Ranges.{IsLoss};
ghost use Rattle.loss_patterns.specs.Keeps.{keeps};
ghost use Rattle.loss_patterns.specs.Deciding.{Follows};

use crate::LossKind;
use park_miller::ParkMiller;
use std::marker::Model;

/// A loss, and how far it has come: it decides one packet after the other, in their order.
///
/// A decision takes one draw at most, and no memory: all that is kept is how many packets were
/// decided and whether a burst is on. The generator is the caller's, who may go on drawing from it
/// when the loss is done with.
#[derive(Debug, PartialEq, Eq, Drop)]
pub struct Loss {
    kind: LossKind,
    decided: u32,
    good: bool,
}

impl Model for Loss {
    ghost use Rattle.loss_patterns.specs.Ranges.{IsLoss};
    ghost use Rattle.loss_patterns.specs.Deciding.{Deciding};

    ghost Value = { Deciding };

    ghost view = { λ l. record { kind = l.kind; decided = l.decided; good = l.good } };

    ghost invariant = { λ l. IsLoss l.kind };

    ghost inverse = { λ l. record { kind = l.kind; decided = l.decided; good = l.good } };
}

impl Loss {
    /// A loss that has decided nothing. Its numbers are in the ranges of [`LossKind`].
    pub fn new(kind: LossKind) -> Loss
        requires in_range { IsLoss kind }
        ensures kind { result.kind ≡ kind }
        ensures decided { result.decided ≡ 0 }
        ensures follows { (start : ℕ) → Follows result start start }
    {
        Loss {
            kind,
            decided: 0,
            good: true,
        }
    }

    /// Whether the next packet is kept, for up to 16,777,216 packets. `Even` and `Burst` draw once
    /// below 1000, the others not at all. Where the generator has made no other draws since the
    /// loss began, the decision is the one that is stated for the packet's index and the state that
    /// the generator had then.
    pub fn keep(&mut self, generator: &mut ParkMiller) -> bool
        requires few { self.old.decided < 16777216 }
        ensures kept { (start : ℕ) → Follows self.old start generator.old
            → result ≡ keeps self.old.kind start self.old.decided }
        ensures follows { (start : ℕ) → Follows self.old start generator.old
            → Follows self.new start generator.new }
        ensures kind { self.new.kind ≡ self.old.kind }
        ensures decided { self.new.decided ≡ self.old.decided + 1 }
    {
        let index = self.decided;
        self.decided += 1;
        match self.kind {
            LossKind::None => true,
            LossKind::First(lost) => lost <= index,
            LossKind::Even(chance) => chance <= generator.draw(1000),
            LossKind::Burst(begins, ends) => {
                let value = generator.draw(1000);
                self.good = if self.good {
                    begins <= value
                } else {
                    value < ends
                };
                self.good
            }
        }
    }
}
