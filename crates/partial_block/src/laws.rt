// Laws over the definitions alone.
ghost use Rattle.partial_block.specs.Laws.{DeterminedByNullWords, NullWordsGoThrough, ThroughIsOne};
ghost use Rattle.partial_block.specs.ReadOff.{ReadOffIsSaved};

use fec_session::{codewords_pair_with_solutions, null_words_pair_with_null_sets};
use gauss::reduced_sets_show_what_is_open;
use peeling::kept_symbols_are_forced;

/// Some null word holds a position exactly where one goes through it, and then only one does. Where
/// some codeword fits, the arrivals determine a position exactly where no null word holds it.
pub fn null_words_show_what_is_not_determined()
    ensures through { NullWordsGoThrough }
    ensures one { ThroughIsOne }
    ensures determined { DeterminedByNullWords }
{}

// What is read off from the reduced form of the equations that peeling leaves is what the arrivals
// save.
pub(crate) fn what_is_read_off_is_saved()
    ensures { ReadOffIsSaved }
{
    null_words_show_what_is_not_determined();
    codewords_pair_with_solutions();
    null_words_pair_with_null_sets();
    reduced_sets_show_what_is_open();
    kept_symbols_are_forced();
}
