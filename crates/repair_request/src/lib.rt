//! What a receiver of an undetermined source block asks for: the fewest further encoding symbols
//! that determine it, by their positions. It stands on `fec_session` for the decoder and for the
//! equations that peeling leaves, on `gauss` for their free unknowns, on `null_witness` for the
//! positions where null words end, and on `partial_block` for what null words show of a symbol. It
//! promises that `request` gives exactly these positions, and the laws that they settle the block
//! and that no fewer positions do, whoever chooses them.
#![tactic(auto)]

mod asking;
mod laws;
mod outcome;

pub use asking::request;
pub use laws::{
    a_request_stays_good, late_positions_settle_a_block, settling_determines_a_block,
    the_deficiency_is_bounded,
};
pub use outcome::{Positions, Request};
