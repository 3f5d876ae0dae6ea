// The laws of frames.
ghost use Rattle.adu_frames.specs.Laws.{DatagramIsOne, FrameIsFaultless, FrameIsOne, FramesAreOne};
ghost use Rattle.adu_frames.specs.Laws.{StreamIsOne};

/// Bytes begin with one datagram at most, in a stream and in a frame, and a frame has no fault. So
/// streams and symbols are those of one list of datagrams at most.
pub fn datagrams_have_one_frame()
    ensures datagram { DatagramIsOne }
    ensures frame { FrameIsOne }
    ensures faultless { FrameIsFaultless }
    ensures frames { FramesAreOne }
    ensures stream { StreamIsOne }
{}
