// Laws over the definitions alone.
ghost use Rattle.sparse_rows.specs.Laws.{SourceHasCodeword, SourceHasOneCodeword};
ghost use Rattle.sparse_rows.specs.Laws.{NullWordHoldsSource};

/// Under the shape, each source block has exactly one codeword: the repair symbols follow row by
/// row, each as the sum of the row's other symbols.
pub fn one_codeword_for_each_source()
    ensures some { SourceHasCodeword }
    ensures one { SourceHasOneCodeword }
{}

/// Under the shape, a null word of any set of columns has a source column: a codeword that is zero
/// on the source is zero everywhere.
pub fn null_words_hold_a_source_symbol()
    ensures { NullWordHoldsSource }
{}
