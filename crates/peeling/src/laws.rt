// Laws over the definitions alone.
ghost use Rattle.peeling.specs.Laws.{ClosureRests, ClosureHolds, ClosureIsLeast, ClosureGrows};
ghost use Rattle.peeling.specs.Laws.{ClosureOfNone, ClosureWithSource, ClosureIsDetermined};
ghost use Rattle.peeling.specs.Laws.{KeptAreOfEachCodeword, KeptAreConsistent, ArrivalsDecideKnown};
ghost use Rattle.peeling.specs.Laws.{ArrivalsDecideSymbols};

/// The closure of a set of columns is the least set that holds it and to which a round of peeling
/// adds nothing. It grows with the set. Where row i of a matrix ends with column k + i and holds a
/// source column, nothing follows from nothing, and everything follows from the source.
pub fn closure_is_least()
    ensures rests { ClosureRests }
    ensures holds { ClosureHolds }
    ensures least { ClosureIsLeast }
    ensures grows { ClosureGrows }
    ensures none { ClosureOfNone }
    ensures source { ClosureWithSource }
{}

/// The symbols of a set of columns leave no choice in its closure.
pub fn closure_is_determined()
    ensures { ClosureIsDetermined }
{}

/// What a decoder keeps is no guess: where some codeword fits the arrivals, the kept symbols are
/// those of every codeword that fits. Where none does, but the arrivals do not contradict one
/// another within the closure, they are those of the one assignment that is left.
pub fn kept_symbols_are_forced()
    ensures codeword { KeptAreOfEachCodeword }
    ensures assignment { KeptAreConsistent }
{}

/// Neither the order of the arrivals nor repeats matter: the arrivals as a set decide which
/// positions are known and, where some codeword fits, their symbols.
pub fn arrivals_decide()
    ensures known { ArrivalsDecideKnown }
    ensures symbols { ArrivalsDecideSymbols }
{}
