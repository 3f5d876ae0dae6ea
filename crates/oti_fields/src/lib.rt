//! The FEC object transmission information and the payload identifier of RFC 5170, as fields and as
//! bytes. It stands on `blocking` for the size of a grid, and promises that fields go both ways,
//! and that the first of the faults that fields may have is named.
#![tactic(auto)]

mod check;
mod codec;
mod identifier;
mod laws;
mod oti;

pub use check::{FieldFault, check_oti};
pub use codec::Codec;
pub use identifier::{PacketId, read_id, write_id};
pub use laws::fields_have_one_spelling;
pub use oti::{Oti, read_oti, write_oti};
