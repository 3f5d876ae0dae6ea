// The decoders of all source blocks, and the one watch that is told of what they rebuild.
ghost use Rattle.std.specs.Prelude.{◌≡◌, ◌↔◌, ◌<◌, ◌≤◌, ◌+◌, ◌*◌, ℕ, length, vec_len};
ghost use Rattle.std.specs.Prelude.{slice_index_or, All, IsTrue, IfOk, IfErr, OnOk};
ghost use Rattle.fec_base.specs.Causes.{HasCause};
ghost use Rattle.fec_base.specs.Told.{GrowsTold};
ghost use Rattle.peeling.specs.Decoder.{Decoder};
ghost use Rattle.peeling.specs.Lookups.{HasAllSource, known_entries};
ghost use Rattle.peeling.specs.Outcome.{IsOutcome};
ghost use Rattle.fec_session.specs.Session.{AreNew, ComeOut, ReceivesAt, TellsFront, rebuilt};
ghost use Rattle.fec_session.specs.Whole.{AreWhole, IsWholeFront};
ghost use Rattle.fec_session.specs.declared.outcome.Outcome.{Outcome};

use crate::outcome::finish_cores;
use crate::session::{take_in, tell_fresh};
use crate::{Core, Outcome, WatchFault};
use fec_base::{Ledger, NoMemory, Steps, Watch};
use peeling::Arrival;
use sparse_rows::Code;
use std::alloc::Global;
use std::marker::Model;

/// The decoders of an object's source blocks, and a watch that is told of each symbol that they
/// rebuild, as soon as the symbol that makes it known has arrived. It has the memory for all
/// arrivals from the start.
#[derive(Drop)]
pub struct Receiver<W = Box<dyn Watch>> {
    cores: Vec<Core>,
    watch: W,
    // How many blocks from the first on know all of their source. A block that does stays so, so
    // that each is looked at once after it.
    whole: usize,
}

impl<W> Model for Receiver<W> {
    ghost use Rattle.std.specs.Prelude.{◌≤◌, length};
    ghost use Rattle.fec_session.specs.Session.{Receiving};
    ghost use Rattle.fec_session.specs.Whole.{IsWholeFront};

    ghost Value = { Receiving W };

    ghost view = { λ r. record { cores = r.cores.items; watch = r.watch } };

    ghost invariant = { λ r. (length r.cores.items ≤ 4096)
        × IsWholeFront r.cores.items r.whole };
}

/// How the blocks of a receiver came out, and its watch.
#[derive(Drop)]
pub struct Finished<W = Box<dyn Watch>> {
    outcomes: Vec<Outcome>,
    watch: W,
}

impl<W> Model for Finished<W> {
    ghost use Rattle.std.specs.Prelude.{◌≤◌, length};
    ghost use Rattle.fec_session.specs.Session.{Settled};

    ghost Value = { Settled W };

    ghost view = { λ f. record { outcomes = f.outcomes.items; watch = f.watch } };

    ghost invariant = { λ f. length f.outcomes.items ≤ 4096 };
}

impl<W: Watch> Receiver<W> {
    /// A receiver of blocks with these codes, in order, and symbols of `len` bytes, at which
    /// nothing has arrived. `NoMemory` hands back the watch.
    pub fn new(
        alloc: Global,
        codes: Vec<Code>,
        len: u32,
        watch: W,
    ) -> Result<Receiver<W>, (W, NoMemory)>
        requires blocks { vec_len codes ≤ 4096 }
        requires some { 1 ≤ len }
        requires most { len ≤ 65535 }
        ensures cores { IfOk result (λ receiver. AreNew codes.items len receiver.cores) }
        ensures watch { IfOk result (λ receiver. receiver.watch ≡ watch) }
        ensures err { IfErr result (λ refused. refused.0 ≡ watch) }
    {
        match new_cores(alloc, codes, len) {
            Ok(cores) => {
                let whole = whole_front(&cores, 0);
                Ok(Receiver {
                    cores,
                    watch,
                    whole,
                })
            }
            Err(refused) => Err((watch, refused)),
        }
    }

    /// Takes in an encoding symbol of block `sbn`: its position, below n, and its `len` bytes. Then
    /// it tells the watch of each symbol that this rebuilt, rising, with its bytes. The other
    /// blocks stay. It takes no memory.
    pub fn accept<L: Ledger>(
        &mut self,
        sbn: u32,
        e: u32,
        bytes: &[u8],
        steps: &mut Steps<L>,
    ) -> Result<Arrival, WatchFault>
        requires block { sbn < length self.old.cores }
        requires position { (d : Decoder) → e < (slice_index_or self.old.cores sbn d).matrix.n }
        requires length { (d : Decoder)
            → length bytes.now ≡ (slice_index_or self.old.cores sbn d).len }
        ensures outcome { IfOk result (λ arrival. (d : Decoder)
            → IsOutcome arrival (slice_index_or self.old.cores sbn d) e bytes.now) }
        ensures received { ReceivesAt self.old.cores self.new.cores sbn e bytes.now }
        ensures told { OnOk result ((d : Decoder)
            → GrowsTold (W.told self.old.watch) (W.told self.new.watch)
            (rebuilt sbn (slice_index_or self.new.cores sbn d))) }
        ensures cut { IfErr result (λ fault. (d : Decoder)
            → TellsFront (W.told self.old.watch) (W.told self.new.watch)
            sbn (slice_index_or self.new.cores sbn d) fault.told) }
        ensures name { W.name self.new.watch ≡ W.name self.old.watch }
        ensures cause { HasCause (W.faults self.old.watch) (W.faults self.new.watch) result }
        ensures steps { steps.old ≤ steps.new }
        ensures bound { (d : Decoder)
            → steps.new + 2 * known_entries (slice_index_or self.old.cores sbn d)
            ≤ steps.old + 2 * known_entries (slice_index_or self.new.cores sbn d) }
    {
        let arrival = take_in(&mut self.cores[sbn as usize], e, bytes, steps);
        self.whole = whole_front(&self.cores, self.whole);
        tell_fresh(&self.cores[sbn as usize], sbn, &mut self.watch)?;
        Ok(arrival)
    }

    /// Whether each block knows each of its source symbols. With no blocks it is so.
    pub fn all_source_known(&self) -> bool
        ensures { IsTrue result ↔ All HasAllSource self.now.cores }
    {
        self.whole == self.cores.as_slice().len()
    }

    /// What the symbols that arrived determine of each block: peeling first, and then elimination
    /// of what it leaves. It tells the watch nothing. `NoMemory` hands back the watch alone.
    pub fn finish_all(self, alloc: Global) -> Result<Finished<W>, (W, NoMemory)>
        ensures outcomes { IfOk result (λ finished. ComeOut self.cores finished.outcomes) }
        ensures watch { IfOk result (λ finished. finished.watch ≡ self.watch) }
        ensures err { IfErr result (λ refused. refused.0 ≡ self.watch) }
    {
        let Receiver { cores, watch, .. } = self;
        match finish_cores(alloc, cores) {
            Ok(outcomes) => Ok(Finished { outcomes, watch }),
            Err(refused) => Err((watch, refused)),
        }
    }

    /// Ends the receiver, and gives back its watch.
    pub fn close(self) -> W
        ensures { result ≡ self.watch }
    {
        self.watch
    }
}

impl<W: Watch> Finished<W> {
    /// How many blocks there are.
    pub fn count(&self) -> u32
        ensures value { result ≡ length self.now.outcomes }
    {
        self.outcomes.len() as u32
    }

    /// How block i came out, counted from 0.
    pub fn outcome(&self, i: u32) -> &Outcome
        requires { i < length self.now.outcomes }
        ensures { (o : Outcome) → result.now ≡ slice_index_or self.now.outcomes i o }
    {
        &self.outcomes[i as usize]
    }

    /// Gives back the watch.
    pub fn into_watch(self) -> W
        ensures { result ≡ self.watch }
    {
        self.watch
    }
}

// How many blocks from the first on know all of their source, where the first `from` do.
fn whole_front(cores: &[Core], from: usize) -> usize
    requires { AreWhole cores.now from }
    ensures { IsWholeFront cores.now result }
{
    for block in from..cores.len() {
        if !cores[block].has_all_source() {
            return block;
        }
    }
    cores.len()
}

// Decoders of these codes, in order, at which nothing has arrived.
fn new_cores(alloc: Global, codes: Vec<Code>, len: u32) -> Result<Vec<Core>, NoMemory>
    requires some { 1 ≤ len }
    requires most { len ≤ 65535 }
    ensures { IfOk result (λ cores. AreNew codes.items len cores.items) }
{
    let mut cores = Vec::with_capacity(alloc, codes.len())?;
    for code in codes {
        match Core::new(alloc, code, len) {
            Ok(core) => cores.push(core)?,
            Err((_, refused)) => return Err(refused),
        }
    }
    Ok(cores)
}
