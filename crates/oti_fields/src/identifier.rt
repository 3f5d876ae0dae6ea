// The payload identifier of a packet.
ghost use Rattle.std.specs.Prelude.{◌≡◌};
ghost use Rattle.oti_fields.specs.Fields.{FitsIdBits, id_bytes};

/// Which encoding symbol a packet has (RFC 5170, section 4.1): the number of the source block, 12
/// bits, and the encoding symbol identifier within it, 20 bits.
#[derive(Clone, Copy, Debug, PartialEq, Eq)]
pub struct PacketId {
    pub sbn: u32,
    pub esi: u32,
}

/// Writes an identifier.
pub fn write_id(id: PacketId, out: &mut [u8; 4])
    requires { FitsIdBits id }
    ensures { out.new ≡ id_bytes id }
{
    *out = (id.sbn << 20 | id.esi).to_be_bytes();
}

/// The identifier that the bytes spell.
pub fn read_id(bytes: &[u8; 4]) -> PacketId
    ensures fits { FitsIdBits result }
    ensures spelled { bytes.now ≡ id_bytes result }
{
    let number = u32::from_be_bytes(*bytes);
    PacketId {
        sbn: number >> 20,
        esi: number & 0xF_FFFF,
    }
}
