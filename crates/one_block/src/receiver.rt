// The receiver of one source block.
ghost use Rattle.std.specs.Prelude.{◌≡◌, ◌≤◌, ◌++◌, ◌∷◌, List, [], All, Err, IfOk, OnOk};
ghost use Rattle.fec_base.specs.Causes.{Rose};
ghost use Rattle.sparse_rows.specs.Codeword.{Arrival};
ghost use Rattle.peeling.specs.Stands.{StandsFor};
ghost use Rattle.one_block.specs.Block.{arrivals_of, arrival_of, IsOfBlock, IsOpen, IsPacket};
ghost use Rattle.one_block.specs.Block.{IsVerdict};

use crate::block::{LEN, N, block_code};
use crate::fault::Fault;
use crate::sender::Packet;
use fec_base::{NoMemory, Steps, Tally, Watch};
use fec_session::{Session, SessionVerdict};
use std::alloc::Global;

/// A session for the block, at which nothing has arrived.
pub fn open_session<W: Watch>(alloc: Global, watch: W) -> Result<Session<W>, Fault>
    ensures open { IfOk result (λ session. IsOpen session []) }
    ensures watch { IfOk result (λ session. session.watch ≡ watch) }
{
    let code = block_code(alloc)?;
    let session = Session::new(alloc, code, LEN, 0, watch).map_err(|refused| refused.2)?;
    Ok(session)
}

/// Takes in packets, in any order and any number. The watch is told of each symbol that they
/// rebuild. After `Fault::Packet` the packets before that one are taken in, after `Fault::Watch`
/// that one too, and the session may go on.
pub fn take_packets<W: Watch>(session: &mut Session<W>, packets: &[Packet]) -> Result<(), Fault>
    requires { IsOfBlock session.old.core }
    ensures block { IsOfBlock session.new.core }
    ensures stands { OnOk result ((arrivals : List Arrival) → StandsFor session.old.core arrivals
        → StandsFor session.new.core (arrivals ++ arrivals_of packets.now)) }
    ensures foreign { result ≡ Err Fault.Packet → ¬ All IsPacket packets.now }
    ensures cause { result ≡ Err Fault.Watch
        → Rose (W.faults session.old.watch) (W.faults session.new.watch) }
    ensures later { W.faults session.old.watch ≤ W.faults session.new.watch }
{
    for packet in packets {
        take_packet(session, packet)?;
    }
    Ok(())
}

// Takes in one packet, where it is one of the block.
fn take_packet<W: Watch>(session: &mut Session<W>, packet: &Packet) -> Result<(), Fault>
    requires { IsOfBlock session.old.core }
    ensures block { IsOfBlock session.new.core }
    ensures stands { OnOk result ((arrivals : List Arrival) → StandsFor session.old.core arrivals
        → StandsFor session.new.core (arrivals ++ arrival_of packet.now ∷ [])) }
    ensures foreign { result ≡ Err Fault.Packet → ¬ IsPacket packet.now }
    ensures cause { result ≡ Err Fault.Watch
        → Rose (W.faults session.old.watch) (W.faults session.new.watch) }
    ensures later { W.faults session.old.watch ≤ W.faults session.new.watch }
{
    if packet.esi >= N || packet.bytes.len() != LEN as usize {
        return Err(Fault::Packet);
    }
    let mut steps = Steps::<Tally>::start();
    session.receive(packet.esi, &packet.bytes, &mut steps)?;
    Ok(())
}

/// What the packets that arrived determine. Where they leave the block open, the session comes back
/// and may take further packets.
pub fn conclude<W: Watch>(alloc: Global, session: Session<W>) -> Result<SessionVerdict<W>, Fault>
    ensures { IfOk result (λ verdict. (arrivals : List Arrival) → IsOpen session arrivals
        → IsVerdict arrivals verdict) }
{
    match session.finish(alloc) {
        Ok(verdict) => Ok(verdict),
        // The session comes back as it was, and may be asked again.
        Err((session, NoMemory)) => conclude_again(alloc, session),
    }
}

// The same, where there was no memory the first time.
fn conclude_again<W: Watch>(alloc: Global, session: Session<W>) -> Result<SessionVerdict<W>, Fault>
    ensures { IfOk result (λ verdict. (arrivals : List Arrival) → IsOpen session arrivals
        → IsVerdict arrivals verdict) }
{
    match session.finish(alloc) {
        Ok(verdict) => Ok(verdict),
        Err((_session, NoMemory)) => Err(Fault::NoMemory),
    }
}

/// Receives packets of the block, and says what they determine.
pub fn receive<W: Watch>(
    alloc: Global,
    packets: &[Packet],
    watch: W,
) -> Result<SessionVerdict<W>, Fault>
    ensures { IfOk result (IsVerdict (arrivals_of packets.now)) }
{
    let mut session = open_session(alloc, watch)?;
    take_packets(&mut session, packets)?;
    let verdict = conclude(alloc, session)?;
    Ok(verdict)
}
