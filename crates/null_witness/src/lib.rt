//! Null words: what shows that arrivals leave a source block open. A null word of the positions
//! that arrived is a set of other columns that each row of the matrix has an even number of. Two
//! codewords that fit the same arrivals differ by null words, and adding one to a codeword that
//! fits gives another that does. The definitions of reduced words serve every such family of words,
//! whether of columns, of unknowns or of rows. It stands on `sparse_rows` for codes, codewords and
//! the closure. It promises that `check` says exactly which words are null words, and the laws that
//! tie them to arrivals.
#![tactic(auto)]

mod check_word;
mod laws;
mod null_word;

pub use check_word::check;
pub use laws::{
    each_late_position_has_one_reduced_word, null_words_follow_the_closure,
    null_words_show_what_is_open,
};
pub use null_word::NullWord;
