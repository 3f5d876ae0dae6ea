// The laws of the cut into source blocks.
ghost use Rattle.blocking.specs.Laws.{BlocksAreCounted, BlocksAreInRange, BlocksHaveAll};
ghost use Rattle.blocking.specs.Laws.{SourceIsEncoded};

/// The blocks are as many as counted, each has at least one source symbol and at most as many as
/// the greatest block, together they have all source symbols of the object, and each block has at
/// least its source symbols as encoding symbols.
pub fn blocks_are_sized()
    ensures counted { BlocksAreCounted }
    ensures in_range { BlocksAreInRange }
    ensures all { BlocksHaveAll }
    ensures encoded { SourceIsEncoded }
{}
