// Laws over the definitions alone.
ghost use Rattle.fec_session.specs.Forced.{RebuiltAreForced};
ghost use Rattle.fec_session.specs.Laws.{ArrivalsDecideOutcome, ContradictionStays, OutcomeIsOne};
ghost use Rattle.fec_session.specs.Laws.{SourceStays};
ghost use Rattle.fec_session.specs.Pairing.{CodewordsPairWithSolutions};
ghost use Rattle.fec_session.specs.NullPairing.{NullWordsPairWithNullSets, PlacesAreOfColumns};

use null_witness::null_words_follow_the_closure;
use peeling::{closure_is_least, kept_symbols_are_forced};

/// What a decoder rebuilds at an arrival is decided by the arrivals: the positions are the new
/// members of the closure of what arrived, and their bytes are those of each codeword that fits.
pub fn rebuilt_symbols_are_forced()
    ensures { RebuiltAreForced }
{
    kept_symbols_are_forced();
}

/// Where a decoder stands for its arrivals and isn't clashed, the codewords that fit them pair one
/// to one with the solutions of the equations that peeling leaves.
pub fn codewords_pair_with_solutions()
    ensures { CodewordsPairWithSolutions }
{}

/// Where a decoder stands for its arrivals, the null words of what arrived pair one to one with the
/// null sets of the equations that peeling leaves, and end together: an unknown of these is a column
/// by its place among the unknown ones, which rise together.
pub fn null_words_pair_with_null_sets()
    ensures pairs { NullWordsPairWithNullSets }
    ensures places { PlacesAreOfColumns }
{}

/// Arrivals determine one outcome at most: one source, one null word, and whether peeling alone
/// gave the source.
pub fn outcome_is_one()
    ensures { OutcomeIsOne }
{
    null_words_follow_the_closure();
}

/// The outcome depends on the set of arrivals alone, and neither on their order nor on repeats.
pub fn arrivals_decide_outcome()
    ensures { ArrivalsDecideOutcome }
{}

/// Further arrivals take nothing back. A block that is contradicted stays so. One that has its
/// source keeps it, unless the further arrivals contradict it; one that has it by peeling has it by
/// peeling then too.
pub fn further_arrivals_take_nothing_back()
    ensures contradiction { ContradictionStays }
    ensures source { SourceStays }
{
    closure_is_least();
}
