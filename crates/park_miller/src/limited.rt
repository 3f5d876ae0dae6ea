ghost use Rattle.std.specs.Prelude.{◌≡◌, ◌+◌, ◌<◌, ◌≤◌, ◌↔◌, IsErr, OnOk, OnErr, IfOk};
ghost use Rattle.park_miller.specs.Generator.{next, drawn};

use crate::generator::{MAX_BOUND, ParkMiller};
use std::error::Error;
use std::fmt;
use std::marker::Model;

/// No draw is left: as many have been used as the limit allows.
#[derive(Clone, Copy, Debug, PartialEq, Eq)]
pub struct Over;

impl fmt::Display for Over {
    fn fmt<W: fmt::Write>(&self, f: &mut fmt::Formatter<W>) -> fmt::Result {
        write!(f, "no draw is left")
    }
}

impl Error for Over {}

/// A generator whose draws are counted, up to a limit.
#[derive(Debug, PartialEq, Eq, Drop)]
pub struct Draws {
    generator: ParkMiller,
    used: u64,
    limit: u64,
}

impl Model for Draws {
    ghost use Rattle.std.specs.Prelude.{◌≤◌};
    ghost use Rattle.park_miller.specs.LimitedDraws.{LimitedDraws};

    ghost Value = { LimitedDraws };

    ghost view = { λ draws. record
        { state = draws.generator; used = draws.used; limit = draws.limit } };

    ghost invariant = { λ draws. draws.used ≤ draws.limit };

    ghost inverse = { λ draws. record
        { generator = draws.state; used = draws.used; limit = draws.limit } };
}

impl Draws {
    /// Counts the draws of a generator, none of which has been used.
    pub fn new(generator: ParkMiller, limit: u64) -> Self
        ensures state { result.state ≡ generator }
        ensures used { result.used ≡ 0 }
        ensures limit { result.limit ≡ limit }
    {
        Draws {
            generator,
            used: 0,
            limit,
        }
    }

    /// Draws as [`ParkMiller::draw`] does. Where the limit is reached, it answers `Over` and
    /// changes nothing.
    pub fn draw(&mut self, below: u32) -> Result<u32, Over>
        requires positive { 1 ≤ below }
        requires within { below ≤ MAX_BOUND }
        ensures over { IsErr result ↔ (self.old.used ≡ self.old.limit) }
        ensures unchanged { OnErr result (self.new ≡ self.old) }
        ensures value { IfOk result (λ value. value ≡ drawn below self.new.state) }
        ensures below { IfOk result (λ value. value < below) }
        ensures state { OnOk result (self.new.state ≡ next self.old.state) }
        ensures used { OnOk result (self.new.used ≡ self.old.used + 1) }
        ensures limit { self.new.limit ≡ self.old.limit }
        ensures within_limit { self.new.used ≤ self.new.limit }
    {
        if self.used == self.limit {
            return Err(Over);
        }
        self.used += 1;
        Ok(self.generator.draw(below))
    }

    /// How many draws have been used.
    pub fn used(&self) -> u64
        ensures value { result ≡ self.now.used }
        ensures within_limit { result ≤ self.now.limit }
    {
        self.used
    }

    /// Gives the generator back, in the state that the last draw left it in.
    pub fn into_generator(self) -> ParkMiller
        ensures { result ≡ self.state }
    {
        self.generator
    }
}
