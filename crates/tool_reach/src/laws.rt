// A law over the definitions alone.
ghost use Rattle.tool_reach.specs.Laws.{SalvagedIsCertain};

/// What a `salvage` writes of a source symbol that it counts as determined is what each codeword
/// has there that fits the packets: for packets of one encoder, its own symbol.
pub fn what_is_salvaged_is_certain()
    ensures { SalvagedIsCertain }
{}
