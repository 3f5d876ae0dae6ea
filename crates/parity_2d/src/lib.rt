//! The parity check matrix of two-dimensional parity: the source symbols of a block fill a grid of
//! a given width row by row, and each row and each column of the grid has one repair symbol, the
//! sum of its source symbols. With a corner there is one more, the sum of all source symbols. The
//! crate stands on `sparse_rows`, and on `blocking` for the size of a grid. It promises that the
//! matrix is this grid, without a corner or with one, stated without the loop that fills it.
#![tactic(auto)]

mod grid;

pub use blocking::{size_2d, size_2d_corner};
pub use grid::{parity_2d, parity_2d_corner};
