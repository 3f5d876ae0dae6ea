// A packet file, received packet by packet.
ghost use Rattle.std.specs.Prelude.{◌≡◌, ◌≤◌, ◌+◌, vec_len, IfOk, IfErr};
ghost use Rattle.std.specs.Io.KnownBytes.{Consumes};
ghost use Rattle.packet_file.specs.Header.{IsHeader, header_bytes};
ghost use Rattle.packet_file.specs.Taking.{TakesAtMost};
ghost use Rattle.object_file.specs.BuiltCodes.{AreBlockCodes};
ghost use Rattle.object_file.specs.Reception.{RefusesDecode};
ghost use Rattle.fec_base.specs.Outside.{hearing, stream};
ghost use Rattle.object_file.specs.Receiving.{IsReceived};
ghost use Rattle.object_file.specs.Opening.{RefusesOpening};
ghost use Rattle.object_file.specs.Takers.{FailsWithin, HasAll, IsOfFile, TakesIn, refused_by};

use crate::block_codes;
use fec_base::{NoMemory, Source, Steps, Tally, Watch};
use fec_session::{Receiver, rebuilt_symbols_are_forced};
use oti_fields::PacketId;
use packet_file::{Header, IDENTIFIER_LEN, read_header};
use packet_intake::{IntakeRefusal, PacketTaker, TakerFailed, take_packets};
use sparse_rows::Code;
use std::alloc::Global;
use tool_base::Refusal;

/// A packet file whose packets were taken to the last.
#[derive(Drop)]
pub struct Received<W = Box<dyn Watch>> {
    pub header: Header,
    /// The decoders of the blocks, and the watch.
    pub receiver: Receiver<W>,
    /// How many packets came, repeats among them.
    pub packets: u64,
}

/// A packet file whose header was read.
#[derive(Drop)]
pub struct Opened {
    pub header: Header,
    /// The codes of its blocks, in order.
    pub codes: Vec<Code>,
    /// Room for a packet.
    pub piece: Vec<u8>,
}

// A receiver that takes in the packets of a file: with `early` it wants no more once all source is
// known.
#[derive(Drop)]
struct Taking<W> {
    receiver: Receiver<W>,
    early: bool,
}

/// Receives the packet file that the input is, of at most `most` packets: to its end, or with
/// `early` to the first packet after which all source is known. One packet is in memory at a time,
/// beside the decoders, and the watch is told of what it makes known before a further byte is read.
/// Where the input is no such file nothing is read behind the header or the packet that shows it.
pub fn receive<S: Source, W: Watch>(
    alloc: Global,
    draws: Option<u32>,
    early: bool,
    most: u32,
    input: &mut S,
    watch: W,
) -> Result<Received<W>, (Refusal, W)>
    ensures received { IfOk result
        (λ r. IsReceived draws early most (S.left input.old) (S.left input.new) (W.told watch)
        (W.told r.receiver.watch) r.header r.receiver.cores r.packets) }
    ensures refusal { IfErr result (λ refused. RefusesDecode draws early most
        (stream (S.left input.old) (S.faults input.old))
        (stream (S.left input.new) (S.faults input.new))
        (hearing (W.told watch) (W.faults watch))
        (hearing (W.told refused.1) (W.faults refused.1)) refused.0) }
    ensures name { IfOk result (λ r. W.name r.receiver.watch ≡ W.name watch) }
    ensures name_back { IfErr result (λ refused. W.name refused.1 ≡ W.name watch) }
{
    let Opened {
        header,
        codes,
        mut piece,
    } = match open(alloc, draws, input) {
        Ok(opened) => opened,
        Err(refusal) => return Err((refusal, watch)),
    };
    let receiver = match Receiver::new(alloc, codes, header.symbol_len(), watch) {
        Ok(receiver) => receiver,
        Err((watch, NoMemory)) => return Err((Refusal::Memory, watch)),
    };
    rebuilt_symbols_are_forced();
    let mut taking = Taking { receiver, early };
    match take_packets(input, &header, most, &mut piece, &mut taking) {
        Ok(packets) => Ok(Received {
            header,
            receiver: taking.receiver,
            packets,
        }),
        Err(refusal) => Err((cause_of(refusal), taking.receiver.close())),
    }
}

// Why the file is refused whose packets aren't taken in: a receiver fails where its watch does.
fn cause_of(refusal: IntakeRefusal) -> Refusal
    ensures { result ≡ refused_by refusal }
{
    match refusal {
        IntakeRefusal::File(fault) => Refusal::File(fault),
        IntakeRefusal::Taker => Refusal::Watch,
    }
}

/// Opens the packet file that the input is: reads its header, and makes the codes of its blocks and
/// room for a packet. Nothing is read behind the header.
pub fn open<S: Source>(alloc: Global, draws: Option<u32>, input: &mut S) -> Result<Opened, Refusal>
    ensures header { IfOk result (λ opened. IsHeader opened.header) }
    ensures bytes { IfOk result
        (λ opened. Consumes (S.left input.old) (S.left input.new) (header_bytes opened.header)) }
    ensures codes { IfOk result (λ opened. AreBlockCodes opened.header draws opened.codes.items) }
    ensures few { IfOk result (λ opened. vec_len opened.codes ≤ 4096) }
    ensures piece { IfOk result (λ opened. vec_len opened.piece ≡ 4 + opened.header.oti.symbol) }
    ensures refusal { IfErr result (RefusesOpening draws
        (stream (S.left input.old) (S.faults input.old))
        (stream (S.left input.new) (S.faults input.new))) }
    ensures taken { TakesAtMost (S.left input.old) (S.left input.new) 26 }
    ensures later { S.faults input.old ≤ S.faults input.new }
{
    let header = read_header(input)?;
    let codes = block_codes(alloc, &header, draws)?;
    let piece = vec![in alloc; 0u8; IDENTIFIER_LEN + header.symbol_len() as usize]?;
    Ok(Opened {
        header,
        codes,
        piece,
    })
}

impl<W: Watch> PacketTaker for Taking<W> {
    ghost fits = { IsOfFile };

    ghost done = { HasAll };

    ghost takes = { λ old _ packet new. TakesIn W.told W.faults W.name old new packet };

    ghost fails = { λ old _ packet new. FailsWithin W.told W.faults W.name old new packet };

    fn is_done(&self) -> bool {
        if self.early {
            return self.receiver.all_source_known();
        }
        false
    }

    fn take(&mut self, _index: u64, id: PacketId, bytes: &[u8]) -> Result<(), TakerFailed> {
        let symbol = &bytes[IDENTIFIER_LEN..];
        let mut steps = Steps::<Tally>::start();
        match self.receiver.accept(id.sbn, id.esi, symbol, &mut steps) {
            Ok(_) => Ok(()),
            Err(_) => Err(TakerFailed),
        }
    }
}
