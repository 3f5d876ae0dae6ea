// The header as bytes.
ghost use Rattle.std.specs.Prelude.{◌≡◌, ◌≢◌, ◌≤◌, ◌++◌, ◌∷◌, [], take, codes, IfOk, IfErr, OnOk};
ghost use Rattle.std.specs.Prelude.{OnErr};
ghost use Rattle.std.specs.Io.KnownBytes.{Appends, Consumes};
ghost use Rattle.fec_base.specs.Bytes.{AppendsFront};
ghost use Rattle.fec_base.specs.Causes.{HasCause};
ghost use Rattle.oti_fields.specs.Fields.{codec_number};
ghost use Rattle.packet_file.specs.Header.{IsHeader, header_bytes, version_number};
ghost use Rattle.packet_file.specs.Faults.{HasHeaderFault};
ghost use Rattle.packet_file.specs.Taking.{TakesAtMost};
ghost use Rattle.fec_base.specs.Outside.{stream};
ghost use Rattle.packet_file.specs.OneReading.{LacksHeader, stop_by};

use crate::version::Version;
use crate::{FileFault, Header};
use fec_base::{ReadFailed, Sink, Source, WriteFailed, read_full, write_all};
use oti_fields::{Codec, read_oti, write_oti};

/// How many bytes a header has.
pub const HEADER_LEN: usize = 26;

const MAGIC: [u8; 4] = *b"OFPK";

/// Reads a header. The first of its faults is named: `ShortHeader`, `BadMagic`, `BadVersion`,
/// `BadCodec`, `BadReserved`, `Field`, and then those of `Header::new`. `ReadFault` comes only
/// where the source's count rose. At most 26 bytes are taken.
pub fn read_header<S: Source>(src: &mut S) -> Result<Header, FileFault>
    ensures bytes { IfOk result (λ h. Consumes (S.left src.old) (S.left src.new) (header_bytes h)) }
    ensures header { IfOk result IsHeader }
    ensures lacks { IfErr result (λ fault. LacksHeader
        (stream (S.left src.old) (S.faults src.old)) (stream (S.left src.new) (S.faults src.new))
        (stop_by fault)) }
    ensures taken { TakesAtMost (S.left src.old) (S.left src.new) 26 }
    ensures later { S.faults src.old ≤ S.faults src.new }
{
    let mut bytes = [0u8; HEADER_LEN];
    match read_full(src, &mut bytes) {
        Ok(HEADER_LEN) => parse_header(&bytes),
        Ok(taken) => Err(FileFault::ShortHeader { have: taken as u32 }),
        Err(ReadFailed) => Err(FileFault::ReadFault),
    }
}

// The header that the bytes spell, or their first fault.
fn parse_header(bytes: &[u8; HEADER_LEN]) -> Result<Header, FileFault>
    ensures ok { IfOk result (λ h. bytes.now ≡ header_bytes h) }
    ensures header { IfOk result IsHeader }
    ensures fault { IfErr result (λ fault. HasHeaderFault bytes.now fault) }
{
    let (version, codec) = parse_front(bytes)?;
    let mut fields = [0u8; 18];
    fields.copy_from_slice(&bytes[8..]);
    let oti = match read_oti(codec, &fields) {
        Ok(oti) => oti,
        Err(fault) => return Err(FileFault::Field(fault)),
    };
    match Header::new(codec, oti) {
        Ok(header) => Ok(header.of_version(version)),
        Err(fault) => Err(fault),
    }
}

// The version and the codec of a header, whose first eight bytes have no fault.
fn parse_front(bytes: &[u8; HEADER_LEN]) -> Result<(Version, Codec), FileFault>
    ensures ok { IfOk result (λ found. take 8 bytes.now
        ≡ codes "OFPK" ++ version_number found.0 ∷ codec_number found.1 ∷ 0 ∷ 0 ∷ []) }
    ensures fault { IfErr result (λ fault. HasHeaderFault bytes.now fault) }
{
    if bytes[..4] != MAGIC[..] {
        return Err(FileFault::BadMagic);
    }
    let Some(version) = Version::from_number(bytes[4]) else {
        return Err(FileFault::BadVersion(bytes[4]));
    };
    let Some(codec) = Codec::from_number(bytes[5]) else {
        return Err(FileFault::BadCodec(bytes[5]));
    };
    if bytes[6] != 0 || bytes[7] != 0 {
        return Err(FileFault::BadReserved);
    }
    Ok((version, codec))
}

/// Writes the 26 bytes of a header. After `WriteFailed` the sink has a front of them.
pub fn write_header<K: Sink>(sink: &mut K, h: &Header) -> Result<(), WriteFailed>
    ensures written { OnOk result
        (Appends (K.held sink.old) (K.held sink.new) (header_bytes h.now)) }
    ensures cut { OnErr result
        (AppendsFront (K.held sink.old) (K.held sink.new) (header_bytes h.now)) }
    ensures cause { HasCause (K.faults sink.old) (K.faults sink.new) result }
{
    write_all(sink, &spell_header(h))
}

// The bytes of a header.
fn spell_header(h: &Header) -> [u8; HEADER_LEN]
    ensures { result ≡ header_bytes h.now }
{
    let mut fields = [0u8; 18];
    write_oti(h.oti(), &mut fields);
    let mut bytes = [0u8; HEADER_LEN];
    bytes[..4].copy_from_slice(&MAGIC);
    bytes[4] = h.version();
    bytes[5] = h.codec().number();
    bytes[8..].copy_from_slice(&fields);
    bytes
}
