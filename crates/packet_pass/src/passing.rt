// The pass itself.
ghost use Rattle.std.specs.Prelude.{◌≡◌, ◌+◌, ◌≤◌, List, true, false, length, Ok, IfOk, IfErr};
ghost use Rattle.std.specs.Prelude.{OnOk, OnErr};
ghost use Rattle.fec_base.specs.Outside.{stream};
ghost use Rattle.packet_file.specs.Packets.{IsPacketOf, Packet};
ghost use Rattle.packet_file.specs.Files.{HasZeroPadding};
ghost use Rattle.packet_file.specs.OnePacket.{StopsBefore};
ghost use Rattle.packet_file.specs.OneReading.Stop.{End};
ghost use Rattle.packet_pass.specs.Pass.{IsFitFor};
ghost use Rattle.packet_pass.specs.Written.{WritesEarly, WritesWhole};
ghost use Rattle.packet_pass.specs.Ranges.{IsPass};
ghost use Rattle.packet_pass.specs.Writing.{EndsAtPacket, EndsEarly, HasWritten, PassesOne};
ghost use Rattle.packet_pass.specs.Writing.{PassesPackets};

use crate::writer::{PassWriter, put_head, put_packet};
use crate::{Pass, PassRefusal, Passed};
use fec_base::{Sink, Source};
use oti_fields::PacketId;
use packet_file::{FileFault, Header, IDENTIFIER_LEN, next_packet, read_header};
use std::alloc::Global;

/// Passes over the packet file that the input is, of at most `most` packets, up to 16,777,216.
///
/// One packet is in memory at a time, and all memory is taken before the first byte is written. The
/// text of the header, and then that of each packet, is put together in memory and handed over as
/// one piece. It is whole in the output before a byte behind it is asked for: more can't be staged,
/// since an output that fails has to find the input just behind the packet whose text isn't whole.
/// So a packet costs one read, or in version 2 two, one write where it is kept, and one draw at
/// most.
///
/// `Ok` comes at the end of the input alone. What stands after each refusal is said there.
pub fn pass<S: Source, K: Sink>(
    alloc: Global,
    pass: Pass,
    most: u32,
    input: &mut S,
    output: &mut K,
) -> Result<Passed, PassRefusal>
    requires pass { IsPass pass }
    requires most { most ≤ 16777216 }
    ensures whole { IfOk result (WritesWhole pass most
        (stream (S.left input.old) (S.faults input.old))
        (stream (S.left input.new) (S.faults input.new))
        (stream (K.held output.old) (K.faults output.old))
        (stream (K.held output.new) (K.faults output.new))) }
    ensures ends { IfErr result (WritesEarly pass most
        (stream (S.left input.old) (S.faults input.old))
        (stream (S.left input.new) (S.faults input.new))
        (stream (K.held output.old) (K.faults output.old))
        (stream (K.held output.new) (K.faults output.new))) }
{
    let header = read_header(input)?;
    let mut writer = PassWriter::new(alloc, pass, &header)?;
    let mut piece = vec![in alloc; 0u8; IDENTIFIER_LEN + header.symbol_len() as usize]?;
    put_head(&mut writer, output, &header)?;
    let packets = pass_packets(&mut writer, most as u64, &header, &mut piece, input, output)?;
    Ok(Passed {
        packets,
        kept: writer.thinning.kept(),
    })
}

// Passes over the packets behind the header, each by the same piece. Says how many.
fn pass_packets<S: Source, K: Sink>(
    writer: &mut PassWriter,
    most: u64,
    header: &Header,
    piece: &mut [u8],
    input: &mut S,
    output: &mut K,
) -> Result<u64, PassRefusal>
    requires ready { HasWritten header.now writer.old 0 }
    requires most { most ≤ 16777216 }
    requires piece { length piece.old ≡ 4 + header.now.oti.symbol }
    ensures whole { IfOk result (λ count. (packets : List Packet)
        × PassesPackets writer.old.pass most header.now
        (stream (S.left input.old) (S.faults input.old))
        (stream (S.left input.new) (S.faults input.new))
        (stream (K.held output.old) (K.faults output.old))
        (stream (K.held output.new) (K.faults output.new)) packets End
        × (length packets ≡ count)) }
    ensures written { IfOk result (λ count. HasWritten header.now writer.new count) }
    ensures pass { writer.new.pass ≡ writer.old.pass }
    ensures ends { IfErr result (EndsEarly writer.old.pass most header.now
        (stream (S.left input.old) (S.faults input.old))
        (stream (S.left input.new) (S.faults input.new))
        (stream (K.held output.old) (K.faults output.old))
        (stream (K.held output.new) (K.faults output.new))) }
{
    for index in 0..most + 1 {
        if !pass_packet(writer, index, most, header, piece, input, output)? {
            return Ok(index);
        }
    }
    // At the limit a packet more is refused.
    unreachable!()
}

// Passes over packet number `index`, of at most `most`. Says whether there was one.
fn pass_packet<S: Source, K: Sink>(
    writer: &mut PassWriter,
    index: u64,
    most: u64,
    header: &Header,
    piece: &mut [u8],
    input: &mut S,
    output: &mut K,
) -> Result<bool, PassRefusal>
    requires ready { HasWritten header.now writer.old index }
    requires index { index ≤ most }
    requires most { most ≤ 16777216 }
    requires piece { length piece.old ≡ 4 + header.now.oti.symbol }
    ensures packet { result ≡ Ok true
        → (p : Packet) × PassesOne writer.old.pass most header.now index
        (stream (S.left input.old) (S.faults input.old))
        (stream (S.left input.new) (S.faults input.new))
        (stream (K.held output.old) (K.faults output.old))
        (stream (K.held output.new) (K.faults output.new)) p }
    ensures ready { result ≡ Ok true → HasWritten header.now writer.new (index + 1) }
    ensures end { result ≡ Ok false → StopsBefore header.now most index
        (stream (S.left input.old) (S.faults input.old))
        (stream (S.left input.new) (S.faults input.new)) End
        × (output.new ≡ output.old) × (writer.new ≡ writer.old) }
    ensures pass { writer.new.pass ≡ writer.old.pass }
    ensures ends { IfErr result (EndsAtPacket writer.old.pass most header.now index
        (stream (S.left input.old) (S.faults input.old))
        (stream (S.left input.new) (S.faults input.new))
        (stream (K.held output.old) (K.faults output.old))
        (stream (K.held output.new) (K.faults output.new))) }
    ensures length { length piece.new ≡ length piece.old }
    ensures later { S.faults input.old ≤ S.faults input.new }
    ensures sink_later { K.faults output.old ≤ K.faults output.new }
{
    let Some(id) = next_packet(input, header, index, most, piece)? else {
        return Ok(false);
    };
    let symbol = &piece[IDENTIFIER_LEN..];
    check_fit(writer.pass, header, index, id, symbol)?;
    put_packet(writer, output, header, index, id, symbol)?;
    Ok(true)
}

// Whether a packet can be passed on.
fn check_fit(
    pass: Pass,
    header: &Header,
    index: u64,
    id: PacketId,
    symbol: &[u8],
) -> Result<(), FileFault>
    requires { IsPacketOf header.now (id, symbol.now) }
    ensures fit { OnOk result (IsFitFor pass header.now (id, symbol.now)) }
    ensures unfit { OnErr result (¬ IsFitFor pass header.now (id, symbol.now)) }
    ensures fault { IfErr result (λ fault. fault ≡ FileFault.BadPadding index) }
{
    match pass {
        Pass::Lose { .. } | Pass::Show => Ok(()),
        Pass::Upgrade => check_padding(header, index, id, symbol),
    }
}

// Whether the padding of a packet is zero.
fn check_padding(header: &Header, index: u64, id: PacketId, symbol: &[u8]) -> Result<(), FileFault>
    requires { IsPacketOf header.now (id, symbol.now) }
    ensures fit { OnOk result (HasZeroPadding header.now (id, symbol.now)) }
    ensures unfit { OnErr result (¬ HasZeroPadding header.now (id, symbol.now)) }
    ensures fault { IfErr result (λ fault. fault ≡ FileFault.BadPadding index) }
{
    if header.padding_is_zero(id, symbol) {
        return Ok(());
    }
    Err(FileFault::BadPadding { index })
}
