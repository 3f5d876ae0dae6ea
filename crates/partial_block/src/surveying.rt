// What the arrivals at a core save of its block.
ghost use Rattle.std.specs.Prelude.{IfOk};
ghost use Rattle.partial_block.specs.Surveys.{Holds};
ghost use Rattle.partial_block.specs.DecoderSurveys.{Surveys};

use crate::Survey;
use crate::laws::what_is_read_off_is_saved;
use crate::reading::read_off;
use fec_base::NoMemory;
use fec_session::{Core, Residue, codewords_pair_with_solutions, null_words_pair_with_null_sets};
use gauss::{Reduction, reduce};
use std::alloc::Global;

/// What the symbols that arrived at the core determine of its source block, symbol by symbol: those
/// that peeling rebuilt, and those that elimination of what it leaves determines. It takes the time
/// and memory of one elimination, with its back substitution, a copy of the determined symbols, and
/// the null words that are named. `NoMemory` comes only for want of memory.
pub fn survey(alloc: Global, core: &Core) -> Result<Survey, NoMemory>
    ensures survey { IfOk result (Surveys core.now) }
    ensures holds { IfOk result (Holds core.now.matrix.k core.now.len) }
{
    // The call of `code` tells what holds of each decoder.
    prove!(core.code().k() <= core.code().n());
    if core.clashed() {
        return Ok(Survey::NoCodeword);
    }
    // Laws that tell what the answers mean.
    codewords_pair_with_solutions();
    null_words_pair_with_null_sets();
    what_is_read_off_is_saved();
    let Residue { columns, equations } = core.residue(alloc)?;
    match reduce(alloc, equations)? {
        Reduction::Clash => Ok(Survey::NoCodeword),
        Reduction::Reduced(reduced) => {
            let partial = read_off(alloc, core, &columns, &reduced)?;
            Ok(Survey::Sources(partial))
        }
    }
}
