//! Tests of what lies below the decoders, over public calls alone: the outside, the generator,
//! matrices and the three codes, sums of symbols and their arena, the cut of an object into blocks,
//! and the fields of a header. It stands on their crates, and promises nothing: the tests stand
//! apart so that no crate is proved again for them.
#![tactic(auto)]

#[cfg(test)]
mod adapters;
#[cfg(test)]
mod arenas;
#[cfg(test)]
mod blocks;
#[cfg(test)]
mod fields;
#[cfg(test)]
mod generator;
#[cfg(test)]
mod grids;
#[cfg(test)]
mod matrices;
#[cfg(test)]
mod outside;
#[cfg(test)]
mod rows;
#[cfg(test)]
mod staircases;
#[cfg(test)]
mod sums;
#[cfg(test)]
mod triangles;
