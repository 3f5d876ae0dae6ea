// Laws over the definitions alone.
ghost use Rattle.repair_request.specs.Laws.{EachPartCounts, EachSetHasLate, InnovativeLowersByOne};
ghost use Rattle.repair_request.specs.Laws.{InnovativeIsOpen, InnovativeSettle, LateAreFewest};
ghost use Rattle.repair_request.specs.Laws.{LateOnlyShrink, LateSettle, MissingSourceSettles};
ghost use Rattle.repair_request.specs.Laws.{NeededAtLeast, NeededAtMost, NoneIsNeeded};
ghost use Rattle.repair_request.specs.Laws.{OtherLeavesItSame, PeelingChangesNothing};
ghost use Rattle.repair_request.specs.Laws.{SettlingGivesCodeword, SettlingGivesSource};
ghost use Rattle.repair_request.specs.Laws.{SettlingHoldsFewest};

use null_witness::{null_words_follow_the_closure, null_words_show_what_is_open};
use partial_block::null_words_show_what_is_not_determined;
use sparse_rows::one_codeword_for_each_source;

/// The positions where null words end settle the block, and no fewer positions do. So their number
/// is the least number of further symbols that determine it. A further symbol lowers it by one
/// exactly where some null word holds its position, and else leaves it as it was. So as many
/// symbols as that settle the block exactly where each, when it comes, still is in some null word;
/// and all positions that settle it, as the missing source symbols, have so many among them that
/// do.
pub fn late_positions_settle_a_block()
    ensures late { EachSetHasLate }
    ensures settle { LateSettle }
    ensures fewest { LateAreFewest }
    ensures none { NoneIsNeeded }
    ensures lowers { InnovativeLowersByOne }
    ensures same { OtherLeavesItSame }
    ensures turns { InnovativeSettle }
    ensures among { SettlingHoldsFewest }
{}

/// A request that is answered in part leaves its rest to ask for, and one that other arrivals
/// overtake still has all positions that are late then.
pub fn a_request_stays_good()
    ensures parts { EachPartCounts }
    ensures shrink { LateOnlyShrink }
{}

/// No more positions are needed than source symbols are missing, and no fewer than k less those
/// that arrived.
pub fn the_deficiency_is_bounded()
    ensures most { NeededAtMost }
    ensures least { NeededAtLeast }
{
    one_codeword_for_each_source();
}

/// Where a codeword fits the arrivals, positions settle the block exactly where the codeword's
/// symbols there, with what arrived, determine the source, and so the whole codeword. The source
/// symbols that are missing do. Peeling doesn't change which positions do. One further symbol helps
/// exactly where what arrived doesn't determine it.
pub fn settling_determines_a_block()
    ensures source { SettlingGivesSource }
    ensures codeword { SettlingGivesCodeword }
    ensures innovative { InnovativeIsOpen }
    ensures missing { MissingSourceSettles }
    ensures peeling { PeelingChangesNothing }
{
    null_words_follow_the_closure();
    null_words_show_what_is_open();
    null_words_show_what_is_not_determined();
}
