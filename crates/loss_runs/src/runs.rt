// The runs of a code, one after the other.
ghost use Rattle.std.specs.Prelude.{◌≡◌, ◌+◌, ◌<◌, ◌≤◌, IfOk, OnErr, OnOk};
ghost use Rattle.sparse_rows.specs.Codeword.{IsEncoded};
ghost use Rattle.loss_runs.specs.Trials.{source_of, trial_of};
ghost use Rattle.loss_runs.specs.Plans.{IsPlan};
ghost use Rattle.loss_runs.specs.Ends.{IsRunOf};

use crate::decoding::decode_kept;
use crate::least::least_kept;
use crate::sending::{keep_some, sending_order};
use crate::source::draw_bytes;
use crate::{RunPlan, RunResult};
use fec_base::NoMemory;
use fec_session::{Coded, encode_block};
use loss_patterns::LossKind;
use park_miller::{BadSeed, ParkMiller};
use sparse_rows::Code;
use std::alloc::Global;
use std::marker::Model;

/// A decoder's runs over the codeword of one source block, one run a call. The source block is
/// drawn when it is made, and each run draws behind the runs before it. It keeps the code, the
/// codeword and a generator; what a run needs beside them it gives back.
#[derive(Drop)]
pub struct LossRuns {
    code: Code,
    word: Coded,
    generator: ParkMiller,
    len: u32,
    loss: LossKind,
    random: bool,
    seed: u32,
    threshold: bool,
    done: u32,
}

impl Model for LossRuns {
    ghost use Rattle.loss_runs.specs.Running.{Running};
    ghost use Rattle.loss_runs.specs.Kept.{IsReadyToRun, running_of};

    ghost Value = { Running };

    ghost view = { running_of };

    ghost invariant = { λ s. IsReadyToRun (running_of s) s.generator };
}

impl LossRuns {
    /// The runs of this plan with this code, of which none is made. It draws the source block and
    /// encodes it. `NoMemory` gives up the code. How many runs the plan has is left to the caller.
    pub fn new(alloc: Global, code: Code, plan: &RunPlan) -> Result<LossRuns, NoMemory>
        requires { IsPlan plan.now }
        ensures trial { IfOk result (λ runs. runs.trial ≡ trial_of plan.now code) }
        ensures encoded { IfOk result (λ runs. IsEncoded code plan.now.symbol
            (source_of (trial_of plan.now code)) runs.word) }
        ensures none_done { IfOk result (λ runs. runs.done ≡ 0) }
    {
        let mut generator = generator_at(plan.seed);
        let count = code.k() as usize * plan.symbol as usize;
        let source = draw_bytes(alloc, count, &mut generator)?;
        let word = encode_block(alloc, &code, &source, plan.symbol)?;
        Ok(LossRuns {
            code,
            word,
            generator,
            len: plan.symbol,
            loss: plan.loss,
            random: plan.random,
            seed: plan.seed,
            threshold: plan.threshold,
            done: 0,
        })
    }

    /// How many runs were made.
    pub fn done(&self) -> u32
        ensures { result ≡ self.now.done }
    {
        self.done
    }

    /// Makes the next run: draws the order in which all n symbols are sent, then which of them are
    /// kept, and lets these arrive at a new decoder until it knows the source. After `NoMemory` the
    /// run isn't made, and may be tried again.
    pub fn run(&mut self, alloc: Global) -> Result<RunResult, NoMemory>
        requires { self.old.done < 4294967295 }
        ensures result { IfOk result (IsRunOf self.old.trial self.old.word self.old.done) }
        ensures next { OnOk result (self.new ≡ record self.old { done = self.old.done + 1 }) }
        ensures unchanged { OnErr result (self.new ≡ self.old) }
    {
        // Draws of its own, so that a run that isn't made leaves the state.
        let mut generator = generator_at(self.generator.state());
        let sent = sending_order(alloc, self.code.n(), self.random, &mut generator)?;
        let kept = keep_some(alloc, self.loss, &sent, &mut generator)?;
        let end = decode_kept(alloc, &self.code, &self.word, self.len, &kept)?;
        let least = least_kept(alloc, &self.code, self.threshold, &kept)?;
        self.generator = generator;
        self.done += 1;
        Ok(RunResult {
            kept: kept.len() as u32,
            end,
            least,
        })
    }
}

// A generator with this state.
fn generator_at(state: u32) -> ParkMiller
    requires positive { 1 ≤ state }
    requires below { state ≤ 2147483646 }
    ensures { result ≡ state }
{
    match ParkMiller::new(state) {
        Ok(generator) => generator,
        Err(BadSeed) => unreachable!(),
    }
}
