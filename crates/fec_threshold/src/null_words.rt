// Whether positions have a null word.
ghost use Rattle.std.specs.Prelude.{◌≡◌, ◌<◌, ◌↔◌, [], IsTrue, All, IfOk};
ghost use Rattle.sparse_rows.specs.Matrix.{is_in};
ghost use Rattle.peeling.specs.Stands.{StandsFor};
ghost use Rattle.fec_threshold.specs.LeastPrefix.{HasNullWord};
ghost use Rattle.fec_threshold.specs.ZeroArrivals.{zero_arrivals};

use fec_base::{NoMemory, Steps, Tally};
use fec_session::{Core, Verdict};
use sparse_rows::Code;
use std::alloc::Global;

// Whether the positions have a null word: a decoder at which a zero symbol arrived at each of them
// doesn't determine the block then. The codeword of zeros fits, whatever the positions are.
pub(crate) fn has_null_word(alloc: Global, code: &Code, positions: &[u32]) -> Result<bool, NoMemory>
    requires { All (λ position. position < code.now.n) positions.now }
    ensures { IfOk result (λ has. IsTrue has ↔ HasNullWord code.now (is_in positions.now)) }
{
    let core = match Core::new(alloc, code.copy(alloc)?, 1) {
        Ok(core) => core,
        Err((_, refused)) => return Err(refused),
    };
    let core = take_zeros(core, positions);
    // This call tells that the code has the shape.
    prove!(core.code().k() <= core.code().n());
    match core.finish(alloc) {
        Ok(Verdict::Block(_)) => Ok(false),
        Ok(Verdict::Undetermined(_, _)) => Ok(true),
        Ok(Verdict::NoCodeword(_)) => unreachable!(),
        Err((_, refused)) => Err(refused),
    }
}

// The core after a zero symbol of one byte arrived at each position.
fn take_zeros(core: Core, positions: &[u32]) -> Core
    requires below { All (λ position. position < core.matrix.n) positions.now }
    requires len { core.len ≡ 1 }
    requires stands { StandsFor core [] }
    ensures code { result.matrix ≡ core.matrix }
    ensures len { result.len ≡ 1 }
    ensures stands { StandsFor result (zero_arrivals positions.now) }
{
    let mut core = core;
    let mut steps = Steps::<Tally>::start();
    for i in 0..positions.len() {
        core.arrive(positions[i], &[0], &mut steps);
    }
    core
}
