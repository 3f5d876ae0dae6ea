// The decoder of one source block, whose watch is told of each symbol that it rebuilds.
ghost use Rattle.std.specs.Prelude.{◌≡◌, ◌<◌, ◌≤◌, ◌+◌, ◌*◌, [], length, All, IfOk, IfErr, OnOk};
ghost use Rattle.fec_base.specs.Causes.{HasCause};
ghost use Rattle.fec_base.specs.Told.{GrowsTold};
ghost use Rattle.peeling.specs.Lookups.{HasAllSource, IsEmpty, known_entries};
ghost use Rattle.peeling.specs.Stands.{Receives, StandsFor};
ghost use Rattle.peeling.specs.Outcome.{IsOutcome};
ghost use Rattle.fec_session.specs.Kept.{IsKnownPosition};
ghost use Rattle.fec_session.specs.Session.{TellsFront, rebuilt};
ghost use Rattle.fec_session.specs.SessionVerdict.{Decides, HandsBack};

use crate::{Core, SourceBlock, Verdict};
use fec_base::{Failed, Ledger, NoMemory, Steps, Watch};
use null_witness::NullWord;
use peeling::Arrival;
use sparse_rows::Code;
use std::alloc::Global;
use std::error::Error;
use std::fmt;
use std::marker::Model;

/// The watch failed while it was told of what an arrival rebuilt. The arrival is kept. The first
/// `told` of the symbols that it rebuilt were told, which aren't all, and the others never will be.
#[derive(Clone, Copy, Debug, PartialEq, Eq)]
pub struct WatchFault {
    pub told: u32,
}

impl fmt::Display for WatchFault {
    fn fmt<W: fmt::Write>(&self, f: &mut fmt::Formatter<W>) -> fmt::Result {
        let told = self.told;
        write!(f, "the watch failed after {told} symbols")
    }
}

impl Error for WatchFault {}

/// A decoder of one source block, and a watch that is told of each symbol that it rebuilds, as soon
/// as the symbol that makes it known has arrived. It has the memory for all arrivals from the
/// start.
#[derive(Drop)]
pub struct Session<W = Box<dyn Watch>> {
    core: Core,
    block: u32,
    watch: W,
}

impl<W> Model for Session<W> {
    ghost use Rattle.fec_session.specs.Session.{Watched};

    ghost Value = { Watched W };

    ghost view = { λ s. record { core = s.core; block = s.block; watch = s.watch } };
}

/// What the symbols that a session received determine of its block.
#[derive(Drop)]
pub enum SessionVerdict<W = Box<dyn Watch>> {
    /// Some codeword fits them, and all that fit have this source block.
    Block(SourceBlock, W),
    /// Codewords of different source blocks fit. Of the null words of the positions that arrived
    /// this is the one whose last position is least. The session is as it was, and may receive
    /// further symbols.
    Undetermined(Session<W>, NullWord),
    /// No codeword fits them. The session is as it was.
    NoCodeword(Session<W>),
}

impl<W: Watch> Session<W> {
    /// A session for the code and symbols of `len` bytes, at which nothing has arrived. It tells of
    /// its block by the number `block`. `NoMemory` hands back the code and the watch.
    pub fn new(
        alloc: Global,
        code: Code,
        len: u32,
        block: u32,
        watch: W,
    ) -> Result<Session<W>, (Code, W, NoMemory)>
        requires some { 1 ≤ len }
        requires most { len ≤ 65535 }
        ensures empty { IfOk result (λ session. IsEmpty code len session.core) }
        ensures stands { IfOk result (λ session. StandsFor session.core []) }
        ensures block { IfOk result (λ session. session.block ≡ block) }
        ensures watch { IfOk result (λ session. session.watch ≡ watch) }
        ensures err { IfErr result (λ refused. (refused.0 ≡ code) × (refused.1 ≡ watch)) }
    {
        match Core::new(alloc, code, len) {
            Ok(core) => Ok(Session { core, block, watch }),
            Err((code, refused)) => Err((code, watch, refused)),
        }
    }

    /// Takes in an encoding symbol: its position, below n, and its `len` bytes. Then it tells the
    /// watch of each symbol that this rebuilt, rising, with its bytes. It takes no memory.
    pub fn receive<L: Ledger>(
        &mut self,
        e: u32,
        bytes: &[u8],
        steps: &mut Steps<L>,
    ) -> Result<Arrival, WatchFault>
        requires position { e < self.old.core.matrix.n }
        requires length { length bytes.now ≡ self.old.core.len }
        ensures outcome { IfOk result (λ arrival. IsOutcome arrival self.old.core e bytes.now) }
        ensures received { Receives self.old.core self.new.core e bytes.now }
        ensures told { OnOk result (GrowsTold (W.told self.old.watch) (W.told self.new.watch)
            (rebuilt self.old.block self.new.core)) }
        ensures cut { IfErr result (λ fault.
            TellsFront (W.told self.old.watch) (W.told self.new.watch)
            self.old.block self.new.core fault.told) }
        ensures block { self.new.block ≡ self.old.block }
        ensures name { W.name self.new.watch ≡ W.name self.old.watch }
        ensures cause { HasCause (W.faults self.old.watch) (W.faults self.new.watch) result }
        ensures steps { steps.old ≤ steps.new }
        ensures bound { steps.new + 2 * known_entries self.old.core
            ≤ steps.old + 2 * known_entries self.new.core }
    {
        let arrival = take_in(&mut self.core, e, bytes, steps);
        tell_fresh(&self.core, self.block, &mut self.watch)?;
        Ok(arrival)
    }

    /// The decoder.
    pub fn core(&self) -> &Core
        ensures { result.now ≡ self.now.core }
    {
        &self.core
    }

    /// What the symbols that arrived determine: peeling first, and then elimination of what it
    /// leaves. It tells the watch nothing. `NoMemory` hands the session back as it was.
    pub fn finish(self, alloc: Global) -> Result<SessionVerdict<W>, (Session<W>, NoMemory)>
        ensures verdict { IfOk result (Decides self) }
        ensures back { IfOk result (HandsBack self) }
        ensures err { IfErr result (λ refused. refused.0 ≡ self) }
    {
        let Session { core, block, watch } = self;
        match core.finish(alloc) {
            Ok(Verdict::Block(source)) => Ok(SessionVerdict::Block(source, watch)),
            Ok(Verdict::Undetermined(core, word)) => Ok(SessionVerdict::Undetermined(
                Session { core, block, watch },
                word,
            )),
            Ok(Verdict::NoCodeword(core)) => {
                Ok(SessionVerdict::NoCodeword(Session { core, block, watch }))
            }
            Err((core, refused)) => Err((Session { core, block, watch }, refused)),
        }
    }

    /// Ends the session, and gives back its watch.
    pub fn close(self) -> W
        ensures { result ≡ self.watch }
    {
        self.watch
    }
}

// Takes in an encoding symbol. What it rebuilds is known from then on.
pub(crate) fn take_in<L: Ledger>(
    core: &mut Core,
    e: u32,
    bytes: &[u8],
    steps: &mut Steps<L>,
) -> Arrival
    requires position { e < core.old.matrix.n }
    requires length { length bytes.now ≡ core.old.len }
    ensures outcome { IsOutcome result core.old e bytes.now }
    ensures received { Receives core.old core.new e bytes.now }
    ensures fresh { All (IsKnownPosition core.new) core.new.fresh }
    ensures few { length core.new.fresh ≤ 65536 }
    ensures source { HasAllSource core.old → HasAllSource core.new }
    ensures steps { steps.old ≤ steps.new }
    ensures bound { steps.new + 2 * known_entries core.old
        ≤ steps.old + 2 * known_entries core.new }
{
    // These calls tell that a core has a flag for each position.
    prove!(core.code().k() <= core.code().n());
    core.arrive(e, bytes, steps)
}

// Tells the watch of each symbol that the core's last arrival rebuilt.
pub(crate) fn tell_fresh<W: Watch>(core: &Core, block: u32, watch: &mut W) -> Result<(), WatchFault>
    requires known { All (IsKnownPosition core.now) core.now.fresh }
    requires few { length core.now.fresh ≤ 65536 }
    ensures told { OnOk result
        (GrowsTold (W.told watch.old) (W.told watch.new) (rebuilt block core.now)) }
    ensures cut { IfErr result (λ fault.
        TellsFront (W.told watch.old) (W.told watch.new) block core.now fault.told) }
    ensures name { W.name watch.new ≡ W.name watch.old }
    ensures cause { HasCause (W.faults watch.old) (W.faults watch.new) result }
{
    let mut told = 0;
    for position in core.fresh() {
        let Some(bytes) = core.symbol(*position) else {
            unreachable!()
        };
        if let Err(Failed) = watch.rebuilt(block, *position, bytes) {
            return Err(WatchFault { told });
        }
        told += 1;
    }
    Ok(())
}
