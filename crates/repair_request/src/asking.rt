// What the arrivals at a core leave to ask for.
ghost use Rattle.std.specs.Prelude.{◌≡◌, ◌<◌, All, IfOk, length, map, slice_index};
ghost use Rattle.repair_request.specs.Requests.{Requests};

use crate::{Positions, Request};
use fec_base::NoMemory;
use fec_session::{Core, Residue, codewords_pair_with_solutions, null_words_pair_with_null_sets};
use gauss::{FreeUnknowns, free_unknowns};
use std::alloc::Global;

/// The fewest positions whose symbols, with those that arrived at the core, determine its source
/// block, whatever codeword of those that fit they are of: the positions where null words of what
/// arrived end. It takes the time and memory of one elimination, and no back substitution.
/// `NoMemory` comes only for want of memory.
pub fn request(alloc: Global, core: &Core) -> Result<Request, NoMemory>
    ensures { IfOk result (Requests core.now) }
{
    // The call of `code` tells what holds of each decoder.
    prove!(core.code().k() <= core.code().n());
    if core.clashed() {
        return Ok(Request::NoCodeword);
    }
    // Laws that tell what the answers mean.
    codewords_pair_with_solutions();
    null_words_pair_with_null_sets();
    let Residue { columns, equations } = core.residue(alloc)?;
    match free_unknowns(alloc, equations)? {
        FreeUnknowns::Clash => Ok(Request::NoCodeword),
        FreeUnknowns::Rising(free) => {
            let late = columns_at(alloc, &columns, &free)?;
            Ok(Request::Symbols(Positions::new(late)))
        }
    }
}

// The columns at these places.
fn columns_at(alloc: Global, columns: &[u32], places: &[u32]) -> Result<Vec<u32>, NoMemory>
    requires { All (λ place. place < length columns.now) places.now }
    ensures { IfOk result (λ found. found.items ≡ map (slice_index columns.now) places.now) }
{
    let mut found = Vec::with_capacity(alloc, places.len())?;
    for i in 0..places.len() {
        found.push(columns[places[i] as usize])?;
    }
    Ok(found)
}
