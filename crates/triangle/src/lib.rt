//! The LDPC-Triangle code of RFC 5170: the staircase, and in each row a chain of further repair
//! symbols, each drawn below the one before. It stands on `park_miller`, `sparse_rows` and
//! `staircase`, and promises that the matrix and its number of draws are those of `specs/`, or that
//! the draws did not suffice.
#![tactic(auto)]

mod chains;

pub use chains::triangle;
