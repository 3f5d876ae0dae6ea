//! What can be saved of a source block that isn't determined as a whole. It stands on `fec_session`
//! for the decoder and for the equations that peeling leaves, on `gauss` for their reduced form,
//! and on `null_witness` for null words. It promises that `survey` says exactly which source
//! symbols the arrivals determine, gives these, and names for each other one the null word that
//! goes through it: the reduced one, of those that hold the symbol, whose last position is least.
#![tactic(auto)]

mod laws;
mod outcome;
mod reading;
mod saved;
mod surveying;

pub use laws::null_words_show_what_is_not_determined;
pub use outcome::Survey;
pub use saved::Partial;
pub use surveying::survey;
