// What may be wrong with the fields.
ghost use Rattle.std.specs.Prelude.{◌≡◌, ◌≤◌, Some, None, IfErr, OnOk};
ghost use Rattle.oti_fields.specs.Fields.{FitsBits};
ghost use Rattle.oti_fields.specs.Faults.{fault_number, field_fault, grid_fault, seed_fault};

use crate::{Codec, Oti};
use park_miller::MAX_SEED;
use std::error::Error;
use std::fmt;

/// The first fault of the fields of a transmission information, in this order.
#[derive(Clone, Copy, Debug, PartialEq, Eq)]
pub enum FieldFault {
    /// The symbol length is 0.
    SymbolZero = 1,
    /// G, the number of encoding symbols of a packet, isn't 1.
    GroupNotOne = 2,
    /// The greatest block length is 0.
    BlockZero = 3,
    /// The greatest n is below the greatest block length.
    MaxBelowBlock = 4,
    /// The greatest n is above 65,536.
    MaxTooLarge = 5,
    /// The seed of an LDPC code is 0 or above 2,147,483,646.
    SeedRange = 6,
    /// The width of a grid is 0.
    WidthZero = 7,
    /// The field of N1 of a grid isn't 0, or its greatest n isn't the one that follows from its
    /// width and the greatest block length.
    NotFixed = 8,
}

impl fmt::Display for FieldFault {
    fn fmt<W: fmt::Write>(&self, f: &mut fmt::Formatter<W>) -> fmt::Result {
        match self {
            FieldFault::SymbolZero => write!(f, "the symbol length is 0"),
            FieldFault::GroupNotOne => write!(f, "a packet doesn't have one symbol"),
            FieldFault::BlockZero => write!(f, "the block length is 0"),
            FieldFault::MaxBelowBlock => write!(f, "n is below the block length"),
            FieldFault::MaxTooLarge => write!(f, "n is above 65536"),
            FieldFault::SeedRange => write!(f, "the seed is 0 or above 2147483646"),
            FieldFault::WidthZero => write!(f, "the width is 0"),
            FieldFault::NotFixed => write!(
                f,
                "a field of the grid isn't the one that follows from the others"
            ),
        }
    }
}

impl Error for FieldFault {}

impl FieldFault {
    /// The number of the fault, from 1 on.
    pub fn number(self) -> u8
        ensures { result ≡ fault_number self }
    {
        self as u8
    }
}

/// Whether the fields are those of a transmission information of this codec, or their first fault.
pub fn check_oti(codec: Codec, oti: &Oti) -> Result<(), FieldFault>
    requires { FitsBits oti.now }
    ensures ok { OnOk result (field_fault codec oti.now ≡ None) }
    ensures err { IfErr result (λ fault. field_fault codec oti.now ≡ Some fault) }
{
    if oti.symbol == 0 {
        return Err(FieldFault::SymbolZero);
    }
    if oti.group != 1 {
        return Err(FieldFault::GroupNotOne);
    }
    if oti.block == 0 {
        return Err(FieldFault::BlockZero);
    }
    if oti.max_n < oti.block {
        return Err(FieldFault::MaxBelowBlock);
    }
    if oti.max_n > 65_536 {
        return Err(FieldFault::MaxTooLarge);
    }
    if codec.is_grid() {
        check_grid(codec, oti)
    } else {
        check_seed(oti)
    }
}

// The seed is one of the generator's states.
fn check_seed(oti: &Oti) -> Result<(), FieldFault>
    ensures ok { OnOk result (seed_fault oti.now ≡ None) }
    ensures err { IfErr result (λ fault. seed_fault oti.now ≡ Some fault) }
{
    if oti.seed == 0 || oti.seed > MAX_SEED {
        return Err(FieldFault::SeedRange);
    }
    Ok(())
}

// What a grid leaves no choice of is as it must be.
fn check_grid(codec: Codec, oti: &Oti) -> Result<(), FieldFault>
    requires block { 1 ≤ oti.now.block }
    ensures ok { OnOk result (grid_fault codec oti.now ≡ None) }
    ensures err { IfErr result (λ fault. grid_fault codec oti.now ≡ Some fault) }
{
    if oti.seed == 0 {
        return Err(FieldFault::WidthZero);
    }
    match codec.grid_size(oti.block, oti.seed) {
        Some(n) if oti.n1m3 == 0 && oti.max_n as u64 == n => Ok(()),
        _ => Err(FieldFault::NotFixed),
    }
}
