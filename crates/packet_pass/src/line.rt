// Lines of text, each put together before it is written.
ghost use Rattle.std.specs.Prelude.{◌≡◌, ◌+◌, ◌≤◌, ◌++◌, [], length, decimal, IfOk};
ghost use Rattle.packet_file.specs.Packets.{IsIdOf};
ghost use Rattle.packet_pass.specs.Lines.{codec_text, header_line, packet_line, shown};

use hex::encode_to_slice;
use itoa::Buffer;
use oti_fields::{Codec, Oti, PacketId};
use packet_file::Header;
use std::alloc::{AllocError, Global};
use std::marker::Model;

// Each line is shorter.
const ROOM: usize = 512;

// How many bytes of a symbol are shown.
const SHOWN: usize = 16;

/// A line, whose memory is taken when it is made.
#[derive(Drop)]
pub struct Line {
    bytes: Vec<u8>,
}

impl Model for Line {
    ghost use Rattle.std.specs.Prelude.{ℕ, List, ◌≤◌, vec_capacity};

    ghost Value = { List ℕ };

    ghost view = { λ l. l.bytes.items };

    ghost invariant = { λ l. 512 ≤ vec_capacity l.bytes };
}

impl Line {
    /// An empty line.
    pub fn new(alloc: Global) -> Result<Line, AllocError>
        ensures { IfOk result (λ line. line ≡ []) }
    {
        let bytes = Vec::with_capacity(alloc, ROOM)?;
        Ok(Line { bytes })
    }

    /// What was put.
    pub fn bytes(&self) -> &[u8]
        ensures { result.now ≡ self.now }
    {
        &self.bytes
    }

    /// Nothing is in it any more.
    pub fn clear(&mut self)
        ensures { self.new ≡ [] }
    {
        self.bytes.clear();
    }

    /// Puts bytes behind the others.
    pub fn put(&mut self, bytes: &[u8])
        requires { length self.old + length bytes.now ≤ 512 }
        ensures { self.new ≡ self.old ++ bytes.now }
    {
        match self.bytes.extend_from_slice(bytes) {
            Ok(()) => {}
            Err(_) => unreachable!(),
        }
    }

    /// Puts a text, and then a number in decimal.
    pub fn put_field(&mut self, name: &str, number: u64)
        requires { length self.old + length name.now + 40 ≤ 512 }
        ensures value { self.new ≡ self.old ++ name.now ++ decimal number }
        ensures bound { length self.new ≤ length self.old + length name.now + 40 }
    {
        self.put(name.as_bytes());
        self.put(Buffer::new().format(number).as_bytes());
    }
}

/// Makes the line of a header.
pub fn put_header_line(line: &mut Line, header: &Header)
    ensures { line.new ≡ header_line header.now }
{
    let oti = header.oti();
    line.clear();
    put_code(line, header.codec(), oti);
    line.put_field(" length ", oti.length);
    line.put_field(" symbol ", oti.symbol as u64);
    line.put_field(" block ", oti.block as u64);
    line.put_field(" max ", oti.max_n as u64);
    line.put_field(" blocks ", header.plan().count() as u64);
    line.put(b"\n");
}

// Puts the name of the code and its parameters into an empty line.
fn put_code(line: &mut Line, codec: Codec, oti: &Oti)
    requires { line.old ≡ [] }
    ensures value { line.new ≡ codec_text codec oti.now }
    ensures bound { length line.new ≤ 120 }
{
    let n1 = oti.n1m3 as u64 + 3;
    let seed = oti.seed as u64;
    match codec {
        Codec::Staircase => {
            line.put_field("codec staircase n1 ", n1);
            line.put_field(" seed ", seed);
        }
        Codec::Triangle => {
            line.put_field("codec triangle n1 ", n1);
            line.put_field(" seed ", seed);
        }
        Codec::Parity2d => line.put_field("codec 2d width ", seed),
        Codec::Corner2d => line.put_field("codec 2d-corner width ", seed),
    }
}

/// Makes the line of packet number `index`.
pub fn put_packet_line(line: &mut Line, header: &Header, index: u64, id: PacketId, symbol: &[u8])
    requires id { IsIdOf header.now id }
    requires symbol { length symbol.now ≡ header.now.oti.symbol }
    ensures { line.new ≡ packet_line header.now index (id, symbol.now) }
{
    let len = header.payload_len(id) as usize;
    line.clear();
    line.put_field("packet ", index);
    line.put_field(" block ", id.sbn as u64);
    line.put_field(" symbol ", id.esi as u64);
    line.put(b" bytes ");
    put_shown(line, &symbol[..len]);
    line.put(b"\n");
}

// Puts the first bytes of a symbol in hexadecimal.
fn put_shown(line: &mut Line, symbol: &[u8])
    requires { length line.old + 32 ≤ 512 }
    ensures value { line.new ≡ line.old ++ shown symbol.now }
    ensures bound { length line.new ≤ length line.old + 32 }
{
    let count = symbol.len().min(SHOWN);
    let mut digits = [0u8; 2 * SHOWN];
    match encode_to_slice(&symbol[..count], &mut digits[..2 * count]) {
        Ok(()) => line.put(&digits[..2 * count]),
        Err(_) => unreachable!(),
    }
}
