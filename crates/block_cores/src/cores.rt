// The decoders of a file's blocks.
ghost use Rattle.std.specs.Prelude.{◌≡◌, ◌<◌, ◌≤◌, IfOk, length};
ghost use Rattle.fec_session.specs.Session.{AreNew, ReceivesAt};
ghost use Rattle.peeling.specs.Stands.{Receives};
ghost use Rattle.block_cores.specs.Cores.{AreBlocks};

use fec_base::{NoMemory, Steps, Tally};
use fec_session::Core;
use oti_fields::PacketId;
use packet_file::IDENTIFIER_LEN;
use packet_intake::{PacketTaker, TakerFailed};
use sparse_rows::Code;
use std::alloc::Global;
use std::marker::Model;

/// The decoders of a file's blocks, which take in its packets. They have the memory for all packets
/// from the start.
#[derive(Drop)]
pub struct BlockCores {
    cores: Vec<Core>,
}

impl Model for BlockCores {
    ghost use Rattle.std.specs.Prelude.{List};
    ghost use Rattle.peeling.specs.Decoder.{Decoder};

    ghost Value = { List Decoder };

    ghost view = { λ b. b.cores.items };
}

impl BlockCores {
    /// Decoders of blocks with these codes, in order, and symbols of `len` bytes, at which nothing
    /// has arrived.
    pub fn new(alloc: Global, codes: Vec<Code>, len: u32) -> Result<BlockCores, NoMemory>
        requires some { 1 ≤ len }
        requires most { len ≤ 65535 }
        ensures { IfOk result (AreNew codes.items len) }
    {
        let mut cores = Vec::with_capacity(alloc, codes.len())?;
        for code in codes {
            match Core::new(alloc, code, len) {
                Ok(core) => cores.push(core)?,
                Err((_, refused)) => return Err(refused),
            }
        }
        Ok(BlockCores { cores })
    }

    /// The decoders, in order.
    pub fn cores(&self) -> &[Core]
        ensures { result.now ≡ self.now }
    {
        &self.cores
    }
}

impl PacketTaker for BlockCores {
    ghost fits = { AreBlocks };

    ghost done = { λ _. ⊥ };

    ghost takes = { λ old _ packet new.
        ReceivesAt old new packet.0.sbn packet.0.esi packet.1 };

    ghost fails = { λ _ _ _ _. ⊥ };

    fn is_done(&self) -> bool {
        false
    }

    fn take(&mut self, _index: u64, id: PacketId, bytes: &[u8]) -> Result<(), TakerFailed> {
        arrive(
            &mut self.cores[id.sbn as usize],
            id.esi,
            &bytes[IDENTIFIER_LEN..],
        );
        Ok(())
    }
}

// Takes in an encoding symbol of the decoder's block.
fn arrive(core: &mut Core, e: u32, bytes: &[u8])
    requires position { e < core.old.matrix.n }
    requires length { length bytes.now ≡ core.old.len }
    ensures { Receives core.old core.new e bytes.now }
{
    core.arrive(e, bytes, &mut Steps::<Tally>::start());
}
