//! Datagrams in frames: a frame is as long as an encoding symbol, and has a datagram's flow, its
//! length, the datagram, and zero bytes behind it (after RFC 6816). It stands on `byteorder` for
//! the length, and promises that frames are written and read by one relation between datagrams and
//! bytes, and that the first fault of a symbol that is no frame is named. It takes no memory.
#![tactic(auto)]

mod laws;
mod reading;
mod writing;

pub use laws::datagrams_have_one_frame;
pub use reading::{Frame, FrameFault, read_frame};
pub use writing::{HEAD_LEN, write_frame};
