// The packets of a file.
ghost use Rattle.std.specs.Prelude.{◌≡◌, ◌≢◌, ◌<◌, ◌≤◌, ◌+◌, ◌++◌, [], length, drop, take, IfOk};
ghost use Rattle.std.specs.Prelude.{IfErr, IfSome, OnOk, OnErr, Ok, None};
ghost use Rattle.std.specs.Io.KnownBytes.{Appends, Consumes, IsAtEnd};
ghost use Rattle.fec_base.specs.Bytes.{AppendsFront};
ghost use Rattle.fec_base.specs.Causes.{HasCause};
ghost use Rattle.fec_base.specs.Outside.{stream};
ghost use Rattle.fec_base.specs.Symbol.{zero_symbol};
ghost use Rattle.fec_base.specs.Taken.{ConsumesFront};
ghost use Rattle.oti_fields.specs.Fields.{id_bytes};
ghost use Rattle.packet_file.specs.Packets.{IsIdOf, IsPacketOf, IsZeroFrom, packet_bytes};
ghost use Rattle.packet_file.specs.Packets.{packet_head, true_len};
ghost use Rattle.packet_file.specs.Pieces.{IsBroken, lead_len};
ghost use Rattle.packet_file.specs.Faults.{HasPacketFault};
ghost use Rattle.packet_file.specs.OneReading.{stop_by};
ghost use Rattle.packet_file.specs.OneReading.Stop.{End};
ghost use Rattle.packet_file.specs.OnePacket.{StopsBefore};
ghost use Rattle.packet_file.specs.TakenPacket.{TakesPacketOf};
ghost use Rattle.packet_file.specs.Taking.{TakesAtMost};
ghost use Rattle.packet_file.specs.PacketMost.{packet_most};
ghost use Rattle.packet_file.specs.declared.version.Version.TheVariants.{Two};

use crate::version::Version;
use crate::{FileFault, Header};
use fec_base::{ReadFailed, Sink, Source, WriteFailed, read_full, write_all};
use oti_fields::{PacketId, fields_have_one_spelling, read_id, write_id};

/// How many bytes a packet has before its symbol, in version 1.
pub const IDENTIFIER_LEN: usize = 4;

/// How many bytes a packet has before its payload, at most.
pub const HEAD_LEN: usize = 6;

/// Reads packet number `index`, of at most `limit`, into `buf`, which is as long as an identifier
/// and an encoding symbol. None comes exactly at the end of the input. After `Some` the bytes of
/// `buf` are the identifier and then the encoding symbol, padded. The first fault is named:
/// `TooManyPackets` where `index` is the limit and the input goes on, `ShortPacket` where the input
/// ends before anything is known of the packet, `NoSuchBlock`, `NoSuchSymbol`, in version 2
/// `BadLength`, and `ShortPacket` where it ends within the payload. `ReadFault` comes only where
/// the source's count rose. At most one packet's bytes are taken.
pub fn next_packet<S: Source>(
    src: &mut S,
    h: &Header,
    index: u64,
    limit: u64,
    buf: &mut [u8],
) -> Result<Option<PacketId>, FileFault>
    requires buf { length buf.old ≡ 4 + h.now.oti.symbol }
    requires index { index ≤ limit }
    ensures packet { IfOk result (λ found. IfSome found (λ id. TakesPacketOf h.now limit index
        (stream (S.left src.old) (S.faults src.old)) (stream (S.left src.new) (S.faults src.new))
        (id, drop 4 buf.new))) }
    ensures spelled { IfOk result (λ found. IfSome found (λ id. buf.new
        ≡ id_bytes id ++ drop 4 buf.new)) }
    ensures end { result ≡ Ok None → StopsBefore h.now limit index
        (stream (S.left src.old) (S.faults src.old)) (stream (S.left src.new) (S.faults src.new))
        End }
    ensures stops { IfErr result (λ fault. StopsBefore h.now limit index
        (stream (S.left src.old) (S.faults src.old)) (stream (S.left src.new) (S.faults src.new))
        (stop_by fault)) }
    ensures taken { OnErr result
        (TakesAtMost (S.left src.old) (S.left src.new) (packet_most h.now)) }
    ensures length { length buf.new ≡ length buf.old }
    ensures later { S.faults src.old ≤ S.faults src.new }
{
    match h.form() {
        Version::One => read_lead(src, h, index, limit, buf),
        Version::Two => next_measured(src, h, index, limit, buf),
    }
}

// Reads what comes first of packet number `index`: in version 1 all of it, in version 2 what stands
// in front of its payload.
fn read_lead<S: Source>(
    src: &mut S,
    h: &Header,
    index: u64,
    limit: u64,
    lead: &mut [u8],
) -> Result<Option<PacketId>, FileFault>
    requires lead { length lead.old ≡ lead_len h.now }
    requires index { index ≤ limit }
    ensures id { IfOk result (λ found. IfSome found (IsIdOf h.now)) }
    ensures within { IfOk result (λ found. IfSome found (λ id. index < limit)) }
    ensures bytes { IfOk result (λ found. IfSome found
        (λ id. Consumes (S.left src.old) (S.left src.new) lead.new)) }
    ensures spelled { IfOk result (λ found. IfSome found (λ id. lead.new
        ≡ id_bytes id ++ drop 4 lead.new)) }
    ensures end { result ≡ Ok None → StopsBefore h.now limit index
        (stream (S.left src.old) (S.faults src.old)) (stream (S.left src.new) (S.faults src.new))
        End }
    ensures stops { IfErr result (λ fault. StopsBefore h.now limit index
        (stream (S.left src.old) (S.faults src.old)) (stream (S.left src.new) (S.faults src.new))
        (stop_by fault)) }
    ensures taken { OnErr result
        (TakesAtMost (S.left src.old) (S.left src.new) (lead_len h.now)) }
    ensures length { length lead.new ≡ length lead.old }
    ensures later { S.faults src.old ≤ S.faults src.new }
{
    let len = lead.len();
    prove!(h.symbol_len() <= 65535);
    let taken = match read_full(src, lead) {
        Ok(0) => return Ok(None),
        Ok(taken) => taken,
        Err(ReadFailed) => return Err(FileFault::ReadFault),
    };
    if index == limit {
        return Err(FileFault::TooManyPackets);
    }
    if taken < len {
        return Err(FileFault::ShortPacket {
            index,
            have: taken as u32,
        });
    }
    match check_id(h, index, limit, lead) {
        Ok(id) => Ok(Some(id)),
        Err(fault) => Err(fault),
    }
}

// The identifier that a piece begins with.
fn check_id(h: &Header, index: u64, limit: u64, lead: &[u8]) -> Result<PacketId, FileFault>
    requires lead { length lead.now ≡ lead_len h.now }
    requires index { index < limit }
    ensures packet { IfOk result (λ id. lead.now ≡ id_bytes id ++ drop 4 lead.now) }
    ensures id { IfOk result (IsIdOf h.now) }
    ensures fault { IfErr result (λ fault. HasPacketFault h.now index limit lead.now fault) }
    ensures whole { OnErr result (¬ IsBroken h.now index limit lead.now) }
{
    fields_have_one_spelling();
    let oti = h.oti();
    prove!(oti.symbol == h.symbol_len());
    let id = read_id(&[lead[0], lead[1], lead[2], lead[3]]);
    if id.sbn >= h.plan().count() {
        return Err(FileFault::NoSuchBlock { index, sbn: id.sbn });
    }
    if id.esi >= h.symbol_count(id.sbn) {
        return Err(FileFault::NoSuchSymbol { index, esi: id.esi });
    }
    Ok(id)
}

// Reads a packet of version 2.
fn next_measured<S: Source>(
    src: &mut S,
    h: &Header,
    index: u64,
    limit: u64,
    buf: &mut [u8],
) -> Result<Option<PacketId>, FileFault>
    requires version { h.now.version ≡ Two }
    requires buf { length buf.old ≡ 4 + h.now.oti.symbol }
    requires index { index ≤ limit }
    ensures packet { IfOk result (λ found. IfSome found (λ id. TakesPacketOf h.now limit index
        (stream (S.left src.old) (S.faults src.old)) (stream (S.left src.new) (S.faults src.new))
        (id, drop 4 buf.new))) }
    ensures spelled { IfOk result (λ found. IfSome found (λ id. buf.new
        ≡ id_bytes id ++ drop 4 buf.new)) }
    ensures end { result ≡ Ok None → StopsBefore h.now limit index
        (stream (S.left src.old) (S.faults src.old)) (stream (S.left src.new) (S.faults src.new))
        End }
    ensures stops { IfErr result (λ fault. StopsBefore h.now limit index
        (stream (S.left src.old) (S.faults src.old)) (stream (S.left src.new) (S.faults src.new))
        (stop_by fault)) }
    ensures taken { OnErr result
        (TakesAtMost (S.left src.old) (S.left src.new) (packet_most h.now)) }
    ensures length { length buf.new ≡ length buf.old }
    ensures later { S.faults src.old ≤ S.faults src.new }
{
    let mut head = [0u8; HEAD_LEN];
    let Some(id) = read_lead(src, h, index, limit, &mut head)? else {
        return Ok(None);
    };
    let len = match check_len(h, index, limit, id, &head) {
        Ok(len) => len,
        Err(fault) => return Err(fault),
    };
    let have = match read_payload(src, len, &head, buf) {
        Ok(have) => have,
        Err(ReadFailed) => return Err(FileFault::ReadFault),
    };
    if have < len {
        return Err(FileFault::ShortPacket {
            index,
            have: (HEAD_LEN + have) as u32,
        });
    }
    Ok(Some(id))
}

// The length of the payload behind the head of a packet of version 2.
fn check_len(
    h: &Header,
    index: u64,
    limit: u64,
    id: PacketId,
    head: &[u8; HEAD_LEN],
) -> Result<usize, FileFault>
    requires version { h.now.version ≡ Two }
    requires index { index < limit }
    requires id { IsIdOf h.now id }
    requires spelled { head.now ≡ id_bytes id ++ drop 4 head.now }
    ensures len { IfOk result (λ len. len ≡ true_len h.now id) }
    ensures some { IfOk result (λ len. 1 ≤ len) }
    ensures most { IfOk result (λ len. len ≤ h.now.oti.symbol) }
    ensures bits { IfOk result (λ len. len ≤ 65535) }
    ensures head { IfOk result (λ len. head.now ≡ packet_head h.now id) }
    ensures fault { IfErr result (λ fault. HasPacketFault h.now index limit head.now fault) }
    ensures whole { OnErr result (¬ IsBroken h.now index limit head.now) }
{
    fields_have_one_spelling();
    let oti = h.oti();
    prove!(oti.symbol == h.symbol_len());
    let len = h.true_len(id);
    let told = u16::from_be_bytes([head[4], head[5]]) as u32;
    if told != len {
        return Err(FileFault::BadLength {
            index,
            length: told,
        });
    }
    Ok(len as usize)
}

// Reads a payload of so many bytes behind the identifier of its head, and zeros behind it. Says how
// many bytes of it were there.
fn read_payload<S: Source>(
    src: &mut S,
    len: usize,
    head: &[u8; HEAD_LEN],
    buf: &mut [u8],
) -> Result<usize, ReadFailed>
    requires { 4 + len ≤ length buf.old }
    ensures bound { IfOk result (λ have. have ≤ len) }
    ensures bytes { IfOk result (λ have. Consumes (S.left src.old) (S.left src.new)
        (take have (drop 4 buf.new))) }
    ensures front { take 4 buf.new ≡ take 4 head.now }
    ensures padding { IsZeroFrom len (drop 4 buf.new) }
    ensures end { IfOk result (λ have. have < len → IsAtEnd (S.left src.new)) }
    ensures cut { OnErr result
        (ConsumesFront (S.left src.old) (S.left src.new) (take len (drop 4 buf.new))) }
    ensures cause { HasCause (S.faults src.old) (S.faults src.new) result }
    ensures length { length buf.new ≡ length buf.old }
{
    buf[..4].copy_from_slice(&head[..4]);
    read_padded(src, len, &mut buf[4..])
}

// Reads so many bytes of a symbol, and zeros behind them. Says how many bytes were there.
fn read_padded<S: Source>(src: &mut S, len: usize, symbol: &mut [u8]) -> Result<usize, ReadFailed>
    requires { len ≤ length symbol.old }
    ensures bound { IfOk result (λ have. have ≤ len) }
    ensures bytes { IfOk result (λ have. Consumes (S.left src.old) (S.left src.new)
        (take have symbol.new)) }
    ensures padding { IsZeroFrom len symbol.new }
    ensures end { IfOk result (λ have. have < len → IsAtEnd (S.left src.new)) }
    ensures cut { OnErr result
        (ConsumesFront (S.left src.old) (S.left src.new) (take len symbol.new)) }
    ensures cause { HasCause (S.faults src.old) (S.faults src.new) result }
    ensures length { length symbol.new ≡ length symbol.old }
{
    set_zero(&mut symbol[len..]);
    read_full(src, &mut symbol[..len])
}

// Sets all bytes to zero.
fn set_zero(bytes: &mut [u8])
    ensures { bytes.new ≡ zero_symbol (length bytes.old) }
{
    bytes.fill(0);
}

/// Writes a packet of the file. After `WriteFailed` the sink has a front of it.
pub fn write_packet<K: Sink>(
    sink: &mut K,
    h: &Header,
    id: PacketId,
    symbol: &[u8],
) -> Result<(), WriteFailed>
    requires { IsPacketOf h.now (id, symbol.now) }
    ensures written { OnOk result
        (Appends (K.held sink.old) (K.held sink.new) (packet_bytes h.now (id, symbol.now))) }
    ensures cut { OnErr result
        (AppendsFront (K.held sink.old) (K.held sink.new) (packet_bytes h.now (id, symbol.now))) }
    ensures cause { HasCause (K.faults sink.old) (K.faults sink.new) result }
{
    let len = h.payload_len(id) as usize;
    let mut head = [0u8; HEAD_LEN];
    let count = write_head(h, id, &mut head);
    write_all(sink, &head[..count])?;
    write_all(sink, &symbol[..len])?;
    Ok(())
}

/// Spells a packet of the file at the front of `out`, which has room for it. Says how many bytes it
/// has.
pub fn spell_packet(h: &Header, id: PacketId, symbol: &[u8], out: &mut [u8]) -> usize
    requires packet { IsPacketOf h.now (id, symbol.now) }
    requires room { 6 + h.now.oti.symbol ≤ length out.old }
    ensures within { result ≤ length out.new }
    ensures bytes { take result out.new ≡ packet_bytes h.now (id, symbol.now) }
    ensures length { length out.new ≡ length out.old }
{
    let len = h.payload_len(id) as usize;
    let mut head = [0u8; HEAD_LEN];
    let count = write_head(h, id, &mut head);
    put_piece(out, 0, &head[..count]);
    put_piece(out, count, &symbol[..len]);
    count + len
}

// Puts a piece behind the first `at` bytes.
fn put_piece(out: &mut [u8], at: usize, piece: &[u8])
    requires { at + length piece.now ≤ length out.old }
    ensures bytes { take (at + length piece.now) out.new ≡ take at out.old ++ piece.now }
    ensures length { length out.new ≡ length out.old }
{
    out[at..at + piece.len()].copy_from_slice(piece);
}

/// Spells what a packet has in front of its payload. Says how many bytes that has.
pub fn write_head(h: &Header, id: PacketId, head: &mut [u8; HEAD_LEN]) -> usize
    requires { IsIdOf h.now id }
    ensures most { result ≤ 6 }
    ensures head { take result head.new ≡ packet_head h.now id }
{
    // A header's limits let the identifier and the length fit into their bits.
    let oti = h.oti();
    prove!(oti.symbol == h.symbol_len());
    let mut identifier = [0u8; IDENTIFIER_LEN];
    write_id(id, &mut identifier);
    head[..4].copy_from_slice(&identifier);
    match h.form() {
        Version::One => 4,
        Version::Two => {
            let len = h.true_len(id) as u16;
            head[4..].copy_from_slice(&len.to_be_bytes());
            6
        }
    }
}
