// The laws of passes over datagrams.
ghost use Rattle.datagram_pass.specs.Laws.{DatagramsArePassed, DatagramsHaveNoFault};
ghost use Rattle.datagram_pass.specs.Laws.{UnframingUndoesFraming};

use adu_frames::datagrams_have_one_frame;

/// An input that is datagrams has no fault, and a pass to its end writes what goes for them. What
/// framing wrote of a stream is such an input, and what goes for its datagrams is the stream.
pub fn datagrams_are_passed()
    ensures no_fault { DatagramsHaveNoFault }
    ensures passed { DatagramsArePassed }
    ensures back { UnframingUndoesFraming }
{
    datagrams_have_one_frame();
}
