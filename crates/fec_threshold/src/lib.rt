//! How many positions of an order it takes until the symbols at them determine a source block. It
//! stands on `null_witness` for null words and on `fec_session` for a decoder that tells whether
//! positions have one. It promises that `least_prefix` gives the least prefix of the order that
//! has no null word: the least one that determines the block, whatever codeword its symbols are
//! of.
#![tactic(auto)]

mod laws;
mod least;
mod null_words;

pub use laws::shorter_prefixes_have_more_null_words;
pub use least::least_prefix;
