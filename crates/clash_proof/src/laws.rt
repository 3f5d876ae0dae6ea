// Laws over the definitions alone.
ghost use Rattle.clash_proof.specs.Laws.{LateHasOneReducedSet, LateHasReducedSet};
ghost use Rattle.clash_proof.specs.Laws.{RefutedByReducedSet, RefutedByRows};

/// At each row where a closed row set ends exactly one closed row set ends that holds no other such
/// row.
pub fn each_late_row_has_one_reduced_set()
    ensures some { LateHasReducedSet }
    ensures one { LateHasOneReducedSet }
{}

/// Where the arrivals don't conflict, no codeword fits them exactly where some closed row set
/// contradicts them, and then the reduced set of some late row does.
pub fn closed_rows_show_that_nothing_fits()
    ensures rows { RefutedByRows }
    ensures reduced { RefutedByReducedSet }
{}
