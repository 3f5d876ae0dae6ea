//! Tests of the decoders, over public calls alone: peeling, null words, elimination, the encoder of
//! a block, cores, sessions and receivers, thresholds, partial blocks, repair requests and proofs
//! of contradiction, most of them over one code of three source and seven encoding symbols. It
//! stands on their crates, and promises nothing: the tests stand apart so that no crate is proved
//! again for them.
#![tactic(auto)]

#[cfg(test)]
mod clashes;
#[cfg(test)]
mod codes;
#[cfg(test)]
mod cores;
#[cfg(test)]
mod decoders;
#[cfg(test)]
mod encoders;
#[cfg(test)]
mod equations;
#[cfg(test)]
mod large_blocks;
#[cfg(test)]
mod null_words;
#[cfg(test)]
mod partial_blocks;
#[cfg(test)]
mod peelers;
#[cfg(test)]
mod prefixes;
#[cfg(test)]
mod receivers;
#[cfg(test)]
mod repair_requests;
#[cfg(test)]
mod sessions;
