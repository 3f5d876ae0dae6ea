// The laws of the packet file.
ghost use Rattle.packet_file.specs.Laws.{BlocksAreSized, FileIsOne, HeaderIsOne, PacketIsOne};
ghost use Rattle.packet_file.specs.Laws.{PacketIsSpelled, UpgradeHasPackets};
ghost use Rattle.packet_file.specs.FaultLaws.{HeaderFaultIsOne, HeaderHasNoFault};
ghost use Rattle.packet_file.specs.FaultLaws.{PacketFaultIsOne, PacketHasNoFault};
ghost use Rattle.packet_file.specs.FaultLaws.{PacketsAreNoBadPiece};

use oti_fields::fields_have_one_spelling;

/// Bytes spell one header at most, begin with one packet of a file at most, and are the packet file
/// of one header and one list of packets at most. In version 1 as many bytes as a packet has spell
/// exactly one. An upgrade without a fault of padding has the packets of the first file. The blocks
/// of a header have at least one source symbol and at least their source symbols as encoding
/// symbols, and are within the limits of a block.
pub fn headers_and_packets_have_one_spelling()
    ensures header { HeaderIsOne }
    ensures packet { PacketIsOne }
    ensures spelled { PacketIsSpelled }
    ensures file { FileIsOne }
    ensures upgrade { UpgradeHasPackets }
    ensures blocks { BlocksAreSized }
{
    fields_have_one_spelling();
}

/// Bytes have one fault at most, as a header and as a packet: so the first fault is one. The bytes
/// of a header have none, and those of packets of the file have none, nor hold they a bad piece.
pub fn files_have_one_fault()
    ensures header { HeaderFaultIsOne }
    ensures packet { PacketFaultIsOne }
    ensures header_less { HeaderHasNoFault }
    ensures packet_less { PacketHasNoFault }
    ensures no_bad_piece { PacketsAreNoBadPiece }
{
    fields_have_one_spelling();
    headers_and_packets_have_one_spelling();
}
