// A packet file, written block by block.
ghost use Rattle.std.specs.Prelude.{◌≡◌, ◌≤◌, ◌<◌, ◌++◌, [], ℕ, List, length, slice_index_or, All};
ghost use Rattle.std.specs.Prelude.{Err, IfOk, OnOk, OnErr};
ghost use Rattle.std.specs.Io.KnownBytes.{Appends};
ghost use Rattle.fec_base.specs.Bytes.{AppendsFront};
ghost use Rattle.fec_base.specs.Parts.{AppendsPart};
ghost use Rattle.fec_base.specs.Causes.{HasCause, Rose};
ghost use Rattle.packet_file.specs.Header.{header_bytes, source_counts};
ghost use Rattle.packet_file.specs.Packets.{IsPacketOf, block_symbols, packet_bytes};
ghost use Rattle.object_file.specs.File.{block_packets, packets};
ghost use Rattle.object_file.specs.Made.{AreCodewords, ArePackets, IsReadyToWrite};
ghost use Rattle.object_file.specs.Staged.{PassesOn, PassesPart};
ghost use Rattle.object_file.specs.declared.write.WriteRefusal.TheVariants.{Memory, Output};

use crate::{Staging, find_code};
use fec_base::{NoMemory, Sink, WriteFailed};
use fec_session::{Coded, encode_block};
use oti_fields::PacketId;
use packet_file::{HEAD_LEN, Header, write_head, write_header};
use sparse_rows::Code;
use std::alloc::Global;

/// Why a file wasn't written whole.
#[derive(Clone, Copy, Debug, PartialEq, Eq)]
pub enum WriteRefusal {
    /// There was no memory for the codeword of a block.
    Memory,
    /// The output failed.
    Output,
}

impl From<NoMemory> for WriteRefusal {
    ghost from_gives = { λ _ refusal. refusal ≡ Memory };

    fn from(_: NoMemory) -> Self {
        WriteRefusal::Memory
    }
}

impl From<WriteFailed> for WriteRefusal {
    ghost from_gives = { λ _ refusal. refusal ≡ Output };

    fn from(_: WriteFailed) -> Self {
        WriteRefusal::Output
    }
}

/// Writes the packet file of the source symbols in `object`: the header, and the packets of each
/// block by a staging buffer in which nothing waits. One block's codeword is in memory at a time.
/// After a refusal the sink has a part of the file, from its front on.
pub fn write_file<K: Sink>(
    alloc: Global,
    staging: &mut Staging,
    sink: &mut K,
    header: &Header,
    codes: &[Code],
    object: &[u8],
) -> Result<(), WriteRefusal>
    requires ready { IsReadyToWrite header.now codes.now object.now }
    requires empty { staging.old.bytes ≡ [] }
    requires room { staging.old.room ≡ 262144 }
    ensures written { (words : List (List (List ℕ)))
        → AreCodewords header.now codes.now object.now words
        → OnOk result
        (Appends (K.held sink.old) (K.held sink.new)
        (header_bytes header.now ++ packets header.now words)) }
    ensures cut { (words : List (List (List ℕ)))
        → AreCodewords header.now codes.now object.now words
        → result ≡ Err Output
        → AppendsFront (K.held sink.old) (K.held sink.new)
        (header_bytes header.now ++ packets header.now words) }
    ensures memory { (words : List (List (List ℕ)))
        → AreCodewords header.now codes.now object.now words
        → result ≡ Err Memory
        → AppendsPart (K.held sink.old) (K.held sink.new)
        (header_bytes header.now ++ packets header.now words) }
    ensures cause { result ≡ Err Output → Rose (K.faults sink.old) (K.faults sink.new) }
    ensures bytes { All (λ byte. byte < 256) object.now }
{
    write_header(sink, header)?;
    put_blocks(alloc, staging, sink, header, codes, object)?;
    staging.flush(sink)?;
    Ok(())
}

// Puts the packets of all blocks.
fn put_blocks<K: Sink>(
    alloc: Global,
    staging: &mut Staging,
    sink: &mut K,
    header: &Header,
    codes: &[Code],
    object: &[u8],
) -> Result<(), WriteRefusal>
    requires ready { IsReadyToWrite header.now codes.now object.now }
    requires room { staging.old.room ≡ 262144 }
    ensures passed { (words : List (List (List ℕ)))
        → AreCodewords header.now codes.now object.now words
        → OnOk result
        (PassesOn (K.held sink.old) (K.held sink.new) staging.old.bytes staging.new.bytes
        (packets header.now words)) }
    ensures cut { (words : List (List (List ℕ)))
        → AreCodewords header.now codes.now object.now words
        → result ≡ Err Output
        → AppendsFront (K.held sink.old) (K.held sink.new)
        (staging.old.bytes ++ packets header.now words) }
    ensures memory { (words : List (List (List ℕ)))
        → AreCodewords header.now codes.now object.now words
        → result ≡ Err Memory
        → PassesPart (K.held sink.old) (K.held sink.new) staging.old.bytes staging.new.bytes
        (packets header.now words) }
    ensures cause { result ≡ Err Output → Rose (K.faults sink.old) (K.faults sink.new) }
    ensures later { K.faults sink.old ≤ K.faults sink.new }
{
    for block in 0..header.plan().count() {
        let word = encode_source(alloc, header, codes, object, block)?;
        put_block(staging, sink, header, block, &word)?;
    }
    Ok(())
}

// The codeword of a block.
fn encode_source(
    alloc: Global,
    header: &Header,
    codes: &[Code],
    object: &[u8],
    block: u32,
) -> Result<Coded, NoMemory>
    requires ready { IsReadyToWrite header.now codes.now object.now }
    requires block { block < length (source_counts header.now) }
    ensures word { (words : List (List (List ℕ)))
        → AreCodewords header.now codes.now object.now words
        → IfOk result (λ word. word ≡ slice_index_or words block []) }
    ensures counted { IfOk result (λ word. length word ≡ block_symbols header.now block) }
    ensures packets { IfOk result (ArePackets header.now block) }
{
    let len = header.oti().symbol;
    let code = find_code(codes, header.source_count(block));
    let start = header.plan().block_start(block) as usize * len as usize;
    let end = start + code.k() as usize * len as usize;
    encode_block(alloc, code, &object[start..end], len)
}

// Puts the packets of a block, in rising order of the ESI.
fn put_block<K: Sink>(
    staging: &mut Staging,
    sink: &mut K,
    header: &Header,
    block: u32,
    word: &Coded,
) -> Result<(), WriteFailed>
    requires room { staging.old.room ≡ 262144 }
    requires block { block < length (source_counts header.now) }
    requires counted { length word.now ≡ block_symbols header.now block }
    requires packets { ArePackets header.now block word.now }
    ensures passed { OnOk result
        (PassesOn (K.held sink.old) (K.held sink.new) staging.old.bytes staging.new.bytes
        (block_packets header.now block word.now)) }
    ensures cut { OnErr result
        (AppendsFront (K.held sink.old) (K.held sink.new)
        (staging.old.bytes ++ block_packets header.now block word.now)) }
    ensures room { staging.new.room ≡ staging.old.room }
    ensures cause { HasCause (K.faults sink.old) (K.faults sink.new) result }
{
    for esi in 0..header.symbol_count(block) {
        put_packet(
            staging,
            sink,
            header,
            PacketId { sbn: block, esi },
            word.symbol(esi),
        )?;
    }
    Ok(())
}

// Puts a packet of the file.
fn put_packet<K: Sink>(
    staging: &mut Staging,
    sink: &mut K,
    header: &Header,
    id: PacketId,
    symbol: &[u8],
) -> Result<(), WriteFailed>
    requires room { staging.old.room ≡ 262144 }
    requires packet { IsPacketOf header.now (id, symbol.now) }
    ensures passed { OnOk result
        (PassesOn (K.held sink.old) (K.held sink.new) staging.old.bytes staging.new.bytes
        (packet_bytes header.now (id, symbol.now))) }
    ensures cut { OnErr result
        (AppendsFront (K.held sink.old) (K.held sink.new)
        (staging.old.bytes ++ packet_bytes header.now (id, symbol.now))) }
    ensures room { staging.new.room ≡ staging.old.room }
    ensures cause { HasCause (K.faults sink.old) (K.faults sink.new) result }
{
    prove!(header.symbol_len() <= 65535);
    let len = header.payload_len(id) as usize;
    let mut head = [0u8; HEAD_LEN];
    let count = write_head(header, id, &mut head);
    staging.put(sink, &head[..count])?;
    staging.put(sink, &symbol[..len])?;
    Ok(())
}
