// A packet file, taken to its end.
ghost use Rattle.std.specs.Prelude.{◌≡◌, ◌≢◌, IfErr, IfOk};
ghost use Rattle.fec_base.specs.Outside.{stream};
ghost use Rattle.block_cores.specs.Taken.{RefusesFile};
ghost use Rattle.block_cores.specs.TakenCores.{IsTakenFile};
ghost use Rattle.packet_intake.specs.declared.refusal.IntakeRefusal.TheVariants.{File, Taker};

use crate::BlockCores;
use fec_base::Source;
use object_file::{Opened, open};
use packet_file::{FileFault, Header};
use packet_intake::{IntakeRefusal, take_packets};
use std::alloc::Global;
use tool_base::Refusal;

/// A packet file whose packets were taken to its end.
#[derive(Drop)]
pub struct TakenFile {
    pub header: Header,
    /// The decoders of its blocks, which have taken in the packets.
    pub cores: BlockCores,
    /// How many packets came, repeats among them.
    pub packets: u64,
}

/// Takes the packets of the file that the input is, at most `most`, to its end. One packet is in
/// memory at a time, beside the decoders. Where the input is no such file nothing is read behind
/// the header or the packet that shows it.
pub fn take_file<S: Source>(
    alloc: Global,
    draws: Option<u32>,
    most: u32,
    input: &mut S,
) -> Result<TakenFile, Refusal>
    ensures taken { IfOk result (IsTakenFile draws most
        (stream (S.left input.old) (S.faults input.old))
        (stream (S.left input.new) (S.faults input.new))) }
    ensures refusal { IfErr result (RefusesFile draws most
        (stream (S.left input.old) (S.faults input.old))
        (stream (S.left input.new) (S.faults input.new))) }
{
    let opened = open(alloc, draws, input)?;
    let Opened {
        header,
        codes,
        mut piece,
    } = opened;
    let mut cores = BlockCores::new(alloc, codes, header.symbol_len())?;
    match take_packets(input, &header, most, &mut piece, &mut cores) {
        Ok(packets) => Ok(TakenFile {
            header,
            cores,
            packets,
        }),
        Err(refusal) => Err(Refusal::File(fault_of(refusal))),
    }
}

/// Why packets aren't taken in to the last, where what takes them never fails.
pub fn fault_of(refusal: IntakeRefusal) -> FileFault
    requires { refusal ≢ Taker }
    ensures { refusal ≡ File result }
{
    match refusal {
        IntakeRefusal::File(fault) => fault,
        IntakeRefusal::Taker => unreachable!(),
    }
}
