// One packet's bytes, put together before they are written.
ghost use Rattle.std.specs.Prelude.{◌≡◌, ◌+◌, ◌≤◌, IfOk, OnErr, OnOk};
ghost use Rattle.std.specs.Io.KnownBytes.{Appends};
ghost use Rattle.fec_base.specs.Bytes.{AppendsFront};
ghost use Rattle.fec_base.specs.Causes.{HasCause};
ghost use Rattle.packet_file.specs.Packets.{IsPacketOf, packet_bytes};

use fec_base::{Sink, WriteFailed, write_all};
use oti_fields::PacketId;
use packet_file::{HEAD_LEN, Header, spell_packet};
use std::alloc::{AllocError, Global};
use std::marker::Model;

/// Room for the bytes of a packet, whose memory is taken when it is made.
#[derive(Drop)]
pub struct PacketRoom {
    bytes: Vec<u8>,
}

impl Model for PacketRoom {
    ghost use Rattle.std.specs.Prelude.{ℕ, length};

    ghost Value = { ℕ };

    ghost view = { λ r. length r.bytes.items };
}

impl PacketRoom {
    /// Room for each packet of a file.
    pub fn new(alloc: Global, header: &Header) -> Result<PacketRoom, AllocError>
        ensures { IfOk result (λ room. room ≡ 6 + header.now.oti.symbol) }
    {
        let bytes = vec![in alloc; 0u8; HEAD_LEN + header.symbol_len() as usize]?;
        Ok(PacketRoom { bytes })
    }

    /// Writes a packet of the file as one piece.
    pub fn write<K: Sink>(
        &mut self,
        output: &mut K,
        header: &Header,
        id: PacketId,
        symbol: &[u8],
    ) -> Result<(), WriteFailed>
        requires packet { IsPacketOf header.now (id, symbol.now) }
        requires room { 6 + header.now.oti.symbol ≤ self.old }
        ensures written { OnOk result (Appends (K.held output.old) (K.held output.new)
            (packet_bytes header.now (id, symbol.now))) }
        ensures cut { OnErr result (AppendsFront (K.held output.old) (K.held output.new)
            (packet_bytes header.now (id, symbol.now))) }
        ensures cause { HasCause (K.faults output.old) (K.faults output.new) result }
        ensures room { self.new ≡ self.old }
    {
        let len = spell_packet(header, id, symbol, &mut self.bytes);
        write_all(output, &self.bytes[..len])
    }
}
