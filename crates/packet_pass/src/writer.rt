// What a pass writes of the header and of each packet.
ghost use Rattle.std.specs.Prelude.{◌≡◌, ◌+◌, ◌<◌, ◌≤◌, IfOk, OnErr, OnOk};
ghost use Rattle.std.specs.Io.KnownBytes.{Appends};
ghost use Rattle.fec_base.specs.Bytes.{AppendsFront};
ghost use Rattle.fec_base.specs.Causes.{HasCause};
ghost use Rattle.packet_file.specs.Packets.{IsPacketOf, packet_bytes};
ghost use Rattle.packet_pass.specs.Pass.{IsFitFor, head_of, kept_in, loss_in, seed_in};
ghost use Rattle.packet_pass.specs.Pass.{text_of};
ghost use Rattle.packet_pass.specs.Ranges.{IsPass};
ghost use Rattle.packet_pass.specs.Writing.{HasWritten, written_as};

use crate::Pass;
use crate::line::{Line, put_header_line, put_packet_line};
use crate::room::PacketRoom;
use crate::thinning::Thinning;
use fec_base::{Sink, WriteFailed, write_all};
use loss_patterns::LossKind;
use oti_fields::PacketId;
use packet_file::{Header, write_header};
use std::alloc::{AllocError, Global};

/// What a pass needs to write, all of whose memory is taken when it is made.
#[derive(Drop)]
pub struct PassWriter {
    pub pass: Pass,
    pub thinning: Thinning,
    pub line: Line,
    // The header of what is written, and room for one of its packets.
    pub out: Header,
    pub packet: PacketRoom,
}

impl PassWriter {
    /// The writer of a pass over a file with this header, of which nothing is written.
    pub fn new(alloc: Global, pass: Pass, header: &Header) -> Result<PassWriter, AllocError>
        requires { IsPass pass }
        ensures written { IfOk result (λ w. HasWritten header.now w 0) }
        ensures pass { IfOk result (λ w. w.pass ≡ pass) }
    {
        let out = header_of(pass, header);
        Ok(PassWriter {
            pass,
            thinning: thinning_of(pass),
            line: Line::new(alloc)?,
            packet: PacketRoom::new(alloc, &out)?,
            out,
        })
    }
}

// The decisions of a pass, none of which is made.
fn thinning_of(pass: Pass) -> Thinning
    requires { IsPass pass }
    ensures kind { result.kind ≡ loss_in pass }
    ensures seed { result.seed ≡ seed_in pass }
    ensures done { result.done ≡ 0 }
{
    match pass {
        Pass::Lose { loss, seed } => Thinning::new(loss, seed),
        Pass::Show | Pass::Upgrade => Thinning::new(LossKind::None, 1),
    }
}

// The header of what a pass writes.
fn header_of(pass: Pass, header: &Header) -> Header
    ensures { result ≡ written_as pass header.now }
{
    match pass {
        Pass::Lose { .. } | Pass::Show => header.copy(),
        Pass::Upgrade => header.copy().with_version(2),
    }
}

/// Writes what the pass writes of the header.
pub fn put_head<K: Sink>(
    writer: &mut PassWriter,
    output: &mut K,
    header: &Header,
) -> Result<(), WriteFailed>
    requires { HasWritten header.now writer.old 0 }
    ensures written { OnOk result (Appends (K.held output.old) (K.held output.new)
        (head_of writer.old.pass header.now)) }
    ensures cut { OnErr result (AppendsFront (K.held output.old) (K.held output.new)
        (head_of writer.old.pass header.now)) }
    ensures cause { HasCause (K.faults output.old) (K.faults output.new) result }
    ensures pass { writer.new.pass ≡ writer.old.pass }
    ensures ready { HasWritten header.now writer.new 0 }
{
    match writer.pass {
        Pass::Lose { .. } | Pass::Upgrade => write_header(output, &writer.out),
        Pass::Show => {
            put_header_line(&mut writer.line, header);
            write_all(output, writer.line.bytes())
        }
    }
}

/// Writes what the pass writes of packet number `index`, which it can pass on.
pub fn put_packet<K: Sink>(
    writer: &mut PassWriter,
    output: &mut K,
    header: &Header,
    index: u64,
    id: PacketId,
    symbol: &[u8],
) -> Result<(), WriteFailed>
    requires ready { HasWritten header.now writer.old index }
    requires few { index < 16777216 }
    requires packet { IsPacketOf header.now (id, symbol.now) }
    requires fit { IsFitFor writer.old.pass header.now (id, symbol.now) }
    ensures written { OnOk result (Appends (K.held output.old) (K.held output.new)
        (text_of writer.old.pass header.now index (id, symbol.now))) }
    ensures cut { OnErr result (AppendsFront (K.held output.old) (K.held output.new)
        (text_of writer.old.pass header.now index (id, symbol.now))) }
    ensures cause { HasCause (K.faults output.old) (K.faults output.new) result }
    ensures pass { writer.new.pass ≡ writer.old.pass }
    ensures ready { HasWritten header.now writer.new (index + 1) }
{
    let keep = writer.thinning.next();
    match writer.pass {
        Pass::Lose { .. } => write_kept(&mut writer.packet, output, &writer.out, keep, id, symbol),
        Pass::Upgrade => writer.packet.write(output, &writer.out, id, symbol),
        Pass::Show => {
            put_packet_line(&mut writer.line, header, index, id, symbol);
            write_all(output, writer.line.bytes())
        }
    }
}

// Writes a packet if it is kept.
fn write_kept<K: Sink>(
    room: &mut PacketRoom,
    output: &mut K,
    header: &Header,
    keep: bool,
    id: PacketId,
    symbol: &[u8],
) -> Result<(), WriteFailed>
    requires packet { IsPacketOf header.now (id, symbol.now) }
    requires room { 6 + header.now.oti.symbol ≤ room.old }
    ensures written { OnOk result (Appends (K.held output.old) (K.held output.new)
        (kept_in keep (packet_bytes header.now (id, symbol.now)))) }
    ensures cut { OnErr result (AppendsFront (K.held output.old) (K.held output.new)
        (kept_in keep (packet_bytes header.now (id, symbol.now)))) }
    ensures cause { HasCause (K.faults output.old) (K.faults output.new) result }
    ensures room { room.new ≡ room.old }
{
    if keep {
        room.write(output, header, id, symbol)
    } else {
        Ok(())
    }
}
