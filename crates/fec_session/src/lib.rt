//! Encoding and decoding source blocks of a code, whichever code it is. It stands on `sparse_rows`,
//! `symbol_arena`, `peeling`, `null_witness` and `gauss`, whose definitions its contracts cite.
//! `encode_block` gives the one codeword whose first k symbols are the source block. `Core` takes
//! encoding symbols in any order and rebuilds by peeling; its `finish` says what they determine:
//! the source block, or that no codeword fits, or the null word that shows what is open, and its
//! `residue` gives the equations that peeling leaves. `Session` is a core whose watch is told of
//! each symbol as soon as it is rebuilt, and `Receiver` is that for all blocks of an object. What
//! is told is what every codeword that fits has, and the outcome is exactly what the arrivals
//! determine.
#![tactic(auto)]

mod decoder_core;
mod elimination;
mod encode;
mod laws;
mod outcome;
mod receiver;
mod residue;
mod session;
mod verdict;

pub use decoder_core::Core;
pub use encode::{Coded, encode_block};
pub use laws::{
    arrivals_decide_outcome, codewords_pair_with_solutions, further_arrivals_take_nothing_back,
    null_words_pair_with_null_sets, outcome_is_one, rebuilt_symbols_are_forced,
};
pub use outcome::Outcome;
pub use peeling::Arrival;
pub use receiver::{Finished, Receiver};
pub use residue::Residue;
pub use session::{Session, SessionVerdict, WatchFault};
pub use verdict::{SourceBlock, Verdict};
