// Laws over the definitions alone.
ghost use Rattle.fec_threshold.specs.Laws.{LeastPrefixIsOne, ShorterPrefixHasNullWord};

/// A prefix has the null words of each longer one, so the prefixes that determine a block are those
/// from one length on, and at most one length is the least.
pub fn shorter_prefixes_have_more_null_words()
    ensures shorter { ShorterPrefixHasNullWord }
    ensures one { LeastPrefixIsOne }
{}
