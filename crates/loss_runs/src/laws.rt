// Laws over the definitions alone.
ghost use Rattle.loss_runs.specs.Laws.{LeastWithinNeeded, NeverIsUndetermined, OtherColumnsStay};
ghost use Rattle.loss_runs.specs.Laws.{RunHasOneResult, RunHasResult};

use fec_threshold::shorter_prefixes_have_more_null_words;
use null_witness::{null_words_follow_the_closure, null_words_show_what_is_open};
use sparse_rows::null_words_hold_a_source_symbol;

/// Each run of a trial has a result, and exactly one: codewords of two sources fit what arrived, or
/// all that fit have the source of the codeword that was sent.
pub fn each_run_has_a_result()
    ensures some { RunHasResult }
    ensures one { RunHasOneResult }
{
    null_words_show_what_is_open();
    shorter_prefixes_have_more_null_words();
}

/// The least number of kept symbols that determine the block is never above the number that peeling
/// needed, and no number of them determines it exactly where the run ends as undetermined.
pub fn least_is_never_above_needed()
    ensures within { LeastWithinNeeded }
    ensures never { NeverIsUndetermined }
{
    null_words_follow_the_closure();
    null_words_hold_a_source_symbol();
    null_words_show_what_is_open();
    shorter_prefixes_have_more_null_words();
}

/// A run that finds the least number keeps the same symbols, and ends in the same way, as one that
/// doesn't.
pub fn threshold_changes_nothing_else()
    ensures { OtherColumnsStay }
{}
