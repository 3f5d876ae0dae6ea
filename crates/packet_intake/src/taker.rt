// What takes in the packets of a file.
ghost use Rattle.std.specs.Prelude.{◌≡◌, ℕ, OnErr, OnOk, false, true, drop};
ghost use Rattle.packet_file.specs.Header.{HeaderFields};
ghost use Rattle.packet_file.specs.Packets.{Packet};
ghost use Rattle.packet_intake.specs.Pieces.{IsPacketBytes};

use oti_fields::PacketId;

/// The taker of a packet failed within it.
#[derive(Clone, Copy, Debug, PartialEq, Eq)]
pub struct TakerFailed;

/// What takes in the packets of a file, one after the other. What becomes of it is its own: it says
/// by relations how one packet changes it, and these hold of many by one packet after the other.
pub trait PacketTaker {
    /// It has a place for each packet of this file.
    ghost fits: { HeaderFields → Self → Type 0 };

    /// It wants no packet more.
    ghost done: { Self → Type 0 };

    /// What becomes of it by a packet, whose number among those of the file this is.
    ghost takes: { Self → ℕ → Packet → Self → Type 0 };

    /// What becomes of it where it fails within a packet.
    ghost fails: { Self → ℕ → Packet → Self → Type 0 };

    /// Whether it wants no packet more.
    fn is_done(&self) -> bool
        ensures done { result ≡ true → done self.now }
        ensures wanting { result ≡ false → ¬ done self.now };

    /// Takes in packet number `index` of a file for whose packets it has a place: `bytes` are its
    /// identifier, and from the fifth on its encoding symbol, padded. It may fail within the
    /// packet.
    fn take(&mut self, index: u64, id: PacketId, bytes: &[u8]) -> Result<(), TakerFailed>
        requires { (h : HeaderFields) × fits h self.old × IsPacketBytes h id bytes.now }
        ensures fits { (h : HeaderFields) → fits h self.old → IsPacketBytes h id bytes.now
            → fits h self.new }
        ensures takes { OnOk result (takes self.old index (id, drop 4 bytes.now) self.new) }
        ensures fails { OnErr result (fails self.old index (id, drop 4 bytes.now) self.new) };
}
