// The FEC object transmission information.
ghost use Rattle.std.specs.Prelude.{◌≡◌, Some, None, IfOk, IfErr};
ghost use Rattle.oti_fields.specs.Fields.{FitsBits, oti_bytes};
ghost use Rattle.oti_fields.specs.Faults.{field_fault};
ghost use Rattle.oti_fields.specs.declared.oti.Oti.{Oti};

use crate::{Codec, FieldFault, check_oti};
use byteorder::{BigEndian, ByteOrder};

/// The fields of a transmission information (RFC 5170, section 4.2), 18 bytes.
#[derive(Clone, Copy, Debug, PartialEq, Eq)]
pub struct Oti {
    /// The transfer length, how many bytes the object has: 48 bits.
    pub length: u64,
    /// The length of an encoding symbol in bytes: 16 bits.
    pub symbol: u32,
    /// N1 - 3: 3 bits. A source symbol takes min(N1, n - k) turns at being put into a row.
    pub n1m3: u8,
    /// G, how many encoding symbols a packet has: 5 bits.
    pub group: u8,
    /// The greatest number of source symbols of a block: 20 bits.
    pub block: u32,
    /// The greatest number of encoding symbols of a block: 20 bits.
    pub max_n: u32,
    /// The seed of the generator, or the width of a grid: 32 bits.
    pub seed: u32,
}

/// Writes the fields, whatever they say, as long as each fits into its bits.
pub fn write_oti(oti: &Oti, out: &mut [u8; 18])
    requires { FitsBits oti.now }
    ensures { out.new ≡ oti_bytes oti.now }
{
    let sizes = (oti.block as u64) << 20 | oti.max_n as u64;
    BigEndian::write_u48(&mut out[..6], oti.length);
    BigEndian::write_u16(&mut out[6..8], oti.symbol as u16);
    out[8] = oti.n1m3 << 5 | oti.group;
    BigEndian::write_uint(&mut out[9..14], sizes, 5);
    BigEndian::write_u32(&mut out[14..], oti.seed);
}

/// The fields that the bytes spell, or the first fault that they have with this codec.
pub fn read_oti(codec: Codec, bytes: &[u8; 18]) -> Result<Oti, FieldFault>
    ensures ok { IfOk result (λ oti. FitsBits oti × (bytes.now ≡ oti_bytes oti)
        × (field_fault codec oti ≡ None)) }
    ensures err { IfErr result (λ fault. (oti : Oti) × FitsBits oti × (bytes.now ≡ oti_bytes oti)
        × (field_fault codec oti ≡ Some fault)) }
{
    let oti = read_fields(bytes);
    check_oti(codec, &oti)?;
    Ok(oti)
}

// The fields that the bytes spell.
fn read_fields(bytes: &[u8; 18]) -> Oti
    ensures fits { FitsBits result }
    ensures spelled { bytes.now ≡ oti_bytes result }
{
    let sizes = BigEndian::read_uint(&bytes[9..14], 5);
    Oti {
        length: BigEndian::read_u48(&bytes[..6]),
        symbol: BigEndian::read_u16(&bytes[6..8]) as u32,
        n1m3: bytes[8] >> 5,
        group: bytes[8] & 31,
        block: (sizes >> 20) as u32,
        max_n: (sizes & 0xF_FFFF) as u32,
        seed: BigEndian::read_u32(&bytes[14..]),
    }
}
