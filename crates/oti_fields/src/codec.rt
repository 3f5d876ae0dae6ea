// The codecs, by their numbers.
ghost use Rattle.std.specs.Prelude.{◌≡◌, ◌≢◌, ◌≤◌, ℕ, MatchOption};
ghost use Rattle.oti_fields.specs.Fields.{codec_number};
ghost use Rattle.oti_fields.specs.Grids.{grid_size, is_grid};
ghost use Rattle.oti_fields.specs.declared.codec.Codec.{Codec};

use blocking::{size_2d, size_2d_corner};

/// Which code a file has.
#[derive(Clone, Copy, Debug, PartialEq, Eq)]
pub enum Codec {
    /// LDPC-Staircase, FEC Encoding ID 3 (RFC 5170).
    Staircase,
    /// LDPC-Triangle, FEC Encoding ID 4 (RFC 5170).
    Triangle,
    /// Two-dimensional parity, with a number of this project's own.
    Parity2d,
    /// Two-dimensional parity with a corner, the sum of all source symbols. The number is this
    /// project's own, too.
    Corner2d,
}

impl Codec {
    /// The number of the codec: 3, 4, 200 or 201.
    pub fn number(self) -> u8
        ensures { result ≡ codec_number self }
    {
        match self {
            Codec::Staircase => 3,
            Codec::Triangle => 4,
            Codec::Parity2d => 200,
            Codec::Corner2d => 201,
        }
    }

    /// The codec of a number. None where no codec has it.
    pub fn from_number(number: u8) -> Option<Codec>
        ensures { MatchOption result ((codec : Codec)
            → codec_number codec ≢ number) (λ codec. codec_number codec ≡ number) }
    {
        match number {
            3 => Some(Codec::Staircase),
            4 => Some(Codec::Triangle),
            200 => Some(Codec::Parity2d),
            201 => Some(Codec::Corner2d),
            _ => None,
        }
    }

    /// Whether the codec is a grid, which has a width in the place of a seed.
    pub fn is_grid(self) -> bool
        ensures { result ≡ is_grid self }
    {
        match self {
            Codec::Staircase | Codec::Triangle => false,
            Codec::Parity2d | Codec::Corner2d => true,
        }
    }

    /// How many encoding symbols `k` source symbols have in the codec's grid of this width. None
    /// where the codec is no grid: it has as many as it is asked for.
    pub fn grid_size(self, k: u32, width: u32) -> Option<u64>
        requires some { 1 ≤ k }
        requires wide { 1 ≤ width }
        ensures { result ≡ grid_size self k width }
    {
        match self {
            Codec::Staircase | Codec::Triangle => None,
            Codec::Parity2d => Some(size_2d(k, width)),
            Codec::Corner2d => Some(size_2d_corner(k, width)),
        }
    }
}
