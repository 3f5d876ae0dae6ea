// Laws over the definitions alone.
ghost use Rattle.gauss.specs.Laws.{AnswerIsOne, FreeHasTwo};
ghost use Rattle.gauss.specs.ReductionLaws.{ClosedIsFixed, FirstIsLeast, OpenByReducedSets};
ghost use Rattle.gauss.specs.ReductionLaws.{OpenHasTwo};

/// A system has at most one answer, and one whose answer is a null set has two solutions that
/// differ.
pub fn a_system_has_one_answer()
    ensures one { AnswerIsOne }
    ensures free { FreeHasTwo }
{}

/// Solutions differ exactly at the unknowns that some reduced null set holds, and these are the
/// unknowns of all null sets.
pub fn reduced_sets_show_what_is_open()
    ensures open { OpenByReducedSets }
    ensures first { FirstIsLeast }
    ensures fixed { ClosedIsFixed }
    ensures two { OpenHasTwo }
{}
