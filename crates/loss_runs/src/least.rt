// How many of the kept symbols determine the block.
ghost use Rattle.std.specs.Prelude.{◌<◌, ◌≤◌, All, IfOk, length};
ghost use Rattle.loss_runs.specs.Ends.{IsThreshold};

use crate::RunLeast;
use fec_base::NoMemory;
use fec_threshold::least_prefix;
use sparse_rows::Code;
use std::alloc::Global;

/// How many of these positions, from the first on, determine the block, where that is asked for.
pub fn least_kept(
    alloc: Global,
    code: &Code,
    asked: bool,
    positions: &[u32],
) -> Result<RunLeast, NoMemory>
    requires below { All (λ e. e < code.now.n) positions.now }
    requires few { length positions.now ≤ 65536 }
    ensures { IfOk result (IsThreshold code.now asked positions.now) }
{
    if !asked {
        return Ok(RunLeast::Unasked);
    }
    match least_prefix(alloc, code, positions)? {
        Some(count) => Ok(RunLeast::Prefix(count)),
        None => Ok(RunLeast::Never),
    }
}
