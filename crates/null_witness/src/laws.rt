// Laws over the definitions alone.
ghost use Rattle.null_witness.specs.Laws.{ClosureHasSameNullWords, FirstNullWordIsOne};
ghost use Rattle.null_witness.specs.Laws.{LateHasOneReducedWord, LateHasReducedWord};
ghost use Rattle.null_witness.specs.Laws.{NullWordOfSubset, UndeterminedByNullWord};

/// Peeling neither adds nor takes a null word, fewer arrivals have those of more, and at most one
/// is the first: that whose last column is least.
pub fn null_words_follow_the_closure()
    ensures closure { ClosureHasSameNullWords }
    ensures subset { NullWordOfSubset }
    ensures first { FirstNullWordIsOne }
{}

/// Where some codeword fits the arrivals, they leave the source block open exactly where their
/// positions have a null word.
pub fn null_words_show_what_is_open()
    ensures { UndeterminedByNullWord }
{}

/// At each position where a null word ends, exactly one null word ends that holds no other such
/// position.
pub fn each_late_position_has_one_reduced_word()
    ensures some { LateHasReducedWord }
    ensures one { LateHasOneReducedWord }
{}
