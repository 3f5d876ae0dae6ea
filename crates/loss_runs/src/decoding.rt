// A decoder that takes what is kept of a codeword.
ghost use Rattle.std.specs.Prelude.{◌≡◌, ◌<◌, ◌≤◌, ℕ, List, [], All, length, take, IfOk};
ghost use Rattle.std.specs.Prelude.{IfSome, IfNone};
ghost use Rattle.sparse_rows.specs.Codeword.{IsCodeword};
ghost use Rattle.peeling.specs.Stands.{StandsFor};
ghost use Rattle.loss_runs.specs.Trials.{arrivals_of};
ghost use Rattle.loss_runs.specs.Ends.{IsEnd, IsNeeded, NeverHolds};
ghost use Rattle.loss_runs.specs.Kept.{EndsBy, HasFitting};

use crate::RunEnd;
use fec_base::{NoMemory, Steps, Tally};
use fec_session::{Coded, Core, Verdict};
use sparse_rows::Code;
use std::alloc::Global;

/// How a run ends in which the symbols of a codeword arrive at these positions, in this order. The
/// decoder is a new one over a copy of the code, and takes no symbol behind the last that it needs.
pub fn decode_kept(
    alloc: Global,
    code: &Code,
    word: &Coded,
    len: u32,
    positions: &[u32],
) -> Result<RunEnd, NoMemory>
    requires some { 1 ≤ len }
    requires most { len ≤ 65535 }
    requires codeword { IsCodeword code.now len word.now }
    requires below { All (λ e. e < code.now.n) positions.now }
    requires few { length positions.now ≤ 65536 }
    ensures { IfOk result (λ ends. IsEnd code.now len (take code.now.k word.now)
        (arrivals_of len word.now positions.now) ends) }
{
    let mut core = match Core::new(alloc, code.copy(alloc)?, len) {
        Ok(core) => core,
        Err((_, refused)) => return Err(refused),
    };
    if let Some(needed) = take_needed(&mut core, word, positions) {
        return Ok(RunEnd::Peeled(needed));
    }
    let verdict = match core.finish(alloc) {
        Ok(verdict) => verdict,
        Err((_, refused)) => return Err(refused),
    };
    let end = end_by(&verdict);
    Ok(end)
}

// How a run ends whose arrivals don't give the source by peeling alone, where some codeword fits.
fn end_by(verdict: &Verdict) -> RunEnd
    requires { HasFitting verdict.now }
    ensures { EndsBy verdict.now result }
{
    match verdict {
        Verdict::Block(_) => RunEnd::Solved,
        Verdict::Undetermined(..) => RunEnd::Undetermined,
        Verdict::NoCodeword(_) => unreachable!(),
    }
}

// Lets symbols of the codeword arrive at a new core until it knows the whole source. Says how many
// arrived, and none if all of them don't give it.
fn take_needed(core: &mut Core, word: &Coded, positions: &[u32]) -> Option<u32>
    requires codeword { IsCodeword core.old.matrix core.old.len word.now }
    requires stands { StandsFor core.old [] }
    requires below { All (λ e. e < core.old.matrix.n) positions.now }
    requires few { length positions.now ≤ 65536 }
    ensures needed { IfSome result
        (IsNeeded core.old.matrix (arrivals_of core.old.len word.now positions.now)) }
    ensures never { IfNone result
        (NeverHolds core.old.matrix (arrivals_of core.old.len word.now positions.now)) }
    ensures stands { IfNone result
        (StandsFor core.new (arrivals_of core.old.len word.now positions.now)) }
    ensures matrix { core.new.matrix ≡ core.old.matrix }
    ensures len { core.new.len ≡ core.old.len }
{
    let mut steps = Steps::<Tally>::start();
    for i in 0..positions.len() {
        if core.has_all_source() {
            return Some(i as u32);
        }
        core.arrive(positions[i], word.symbol(positions[i]), &mut steps);
    }
    if core.has_all_source() {
        return Some(positions.len() as u32);
    }
    None
}
