// The sender of one source block.
ghost use Rattle.std.specs.Prelude.{◌≡◌, ◌*◌, length, map, IfOk};
ghost use Rattle.std.specs.List.{range_with_len};
ghost use Rattle.one_block.specs.Block.{AreItsPackets};

use crate::block::{K, LEN, N, block_code};
use crate::fault::Fault;
use fec_session::{Coded, encode_block};
use std::alloc::Global;

/// A packet: the identifier of an encoding symbol, and its bytes.
#[derive(Drop)]
pub struct Packet {
    pub esi: u32,
    pub bytes: Vec<u8>,
}

/// The N packets of a source block: `source` holds its K symbols of LEN bytes one after the other.
pub fn send(alloc: Global, source: &[u8]) -> Result<Vec<Packet>, Fault>
    requires { length source.now ≡ K * LEN }
    ensures { IfOk result (λ packets. AreItsPackets source.now packets.items) }
{
    let code = block_code(alloc)?;
    let word = encode_block(alloc, &code, source, LEN)?;
    let packets = packets_of(alloc, &word)?;
    Ok(packets)
}

// The packets of a codeword.
fn packets_of(alloc: Global, word: &Coded) -> Result<Vec<Packet>, Fault>
    requires { length word.now ≡ N }
    ensures bytes { IfOk result (λ packets. map (λ p. p.bytes.items) packets.items ≡ word.now) }
    ensures identifiers { IfOk result (λ packets.
        map (λ p. p.esi) packets.items ≡ range_with_len 0 N) }
{
    let mut packets = Vec::with_capacity(alloc, N as usize)?;
    for esi in 0..N {
        let bytes = Vec::from_slice(alloc, word.symbol(esi))?;
        packets.push(Packet { esi, bytes })?;
    }
    Ok(packets)
}
