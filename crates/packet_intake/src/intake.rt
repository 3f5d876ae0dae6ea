// The packets of a file, one after the other.
ghost use Rattle.std.specs.Prelude.{◌≡◌, ◌≤◌, ◌+◌, List, length, IfErr, IfOk, Ok, false, true};
ghost use Rattle.fec_base.specs.Outside.{stream};
ghost use Rattle.packet_file.specs.Packets.{Packet};
ghost use Rattle.packet_file.specs.OnePacket.{StopsBefore};
ghost use Rattle.packet_file.specs.TakenPacket.{TakesPacketOf};
ghost use Rattle.packet_file.specs.OneReading.Stop.{End};
ghost use Rattle.packet_intake.specs.Intake.{RefusesPackets, TakesAll};
ghost use Rattle.packet_intake.specs.Inside.{RefusesOne};

use crate::{IntakeRefusal, PacketTaker};
use fec_base::Source;
use packet_file::{Header, next_packet};

/// Takes in the packets that follow the header of a file, at most `most`: to the end of the input,
/// or to the first after which the taker wants no more. They are read into `piece`, which is as
/// long as an identifier and an encoding symbol, and the taker has each before a further byte is
/// asked for. Says how many.
pub fn take_packets<S: Source, T: PacketTaker>(
    input: &mut S,
    header: &Header,
    most: u32,
    piece: &mut [u8],
    taker: &mut T,
) -> Result<u64, IntakeRefusal>
    requires piece { length piece.old ≡ 4 + header.now.oti.symbol }
    requires fits { T.fits header.now taker.old }
    ensures packets { IfOk result (λ count. (packets : List Packet)
        × TakesAll T.done T.takes header.now most
        (stream (S.left input.old) (S.faults input.old))
        (stream (S.left input.new) (S.faults input.new)) taker.old taker.new packets
        × (length packets ≡ count)) }
    ensures refusal { IfErr result (RefusesPackets T.done T.takes T.fails header.now most
        (stream (S.left input.old) (S.faults input.old))
        (stream (S.left input.new) (S.faults input.new)) taker.old taker.new) }
    ensures fits { T.fits header.now taker.new }
    ensures later { S.faults input.old ≤ S.faults input.new }
{
    let most = most as u64;
    for index in 0..most + 1 {
        if taker.is_done() {
            return Ok(index);
        }
        if !take_packet(input, header, index, most, piece, taker)? {
            return Ok(index);
        }
    }
    // At the limit a packet more is refused.
    unreachable!()
}

// Takes in packet number `index`, of at most `most`. Says whether there was one.
fn take_packet<S: Source, T: PacketTaker>(
    input: &mut S,
    header: &Header,
    index: u64,
    most: u64,
    piece: &mut [u8],
    taker: &mut T,
) -> Result<bool, IntakeRefusal>
    requires piece { length piece.old ≡ 4 + header.now.oti.symbol }
    requires fits { T.fits header.now taker.old }
    requires index { index ≤ most }
    ensures packet { result ≡ Ok true → (p : Packet) × TakesPacketOf header.now most index
        (stream (S.left input.old) (S.faults input.old))
        (stream (S.left input.new) (S.faults input.new)) p
        × T.takes taker.old index p taker.new }
    ensures end { result ≡ Ok false → StopsBefore header.now most index
        (stream (S.left input.old) (S.faults input.old))
        (stream (S.left input.new) (S.faults input.new)) End × (taker.new ≡ taker.old) }
    ensures refusal { IfErr result (RefusesOne T.fails header.now most index
        (stream (S.left input.old) (S.faults input.old))
        (stream (S.left input.new) (S.faults input.new)) taker.old taker.new) }
    ensures fits { T.fits header.now taker.new }
    ensures length { length piece.new ≡ length piece.old }
    ensures later { S.faults input.old ≤ S.faults input.new }
{
    let Some(id) = next_packet(input, header, index, most, piece)? else {
        return Ok(false);
    };
    taker.take(index, id, piece)?;
    Ok(true)
}
