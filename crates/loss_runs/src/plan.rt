// What the runs of a code are made from.

use loss_patterns::LossKind;

/// How the runs of a code are made.
#[derive(Clone, Copy, Debug, PartialEq, Eq)]
pub struct RunPlan {
    /// The length of a symbol in bytes, from 1 to 65,535.
    pub symbol: u32,
    /// Which symbols of a run are lost, by their places in its sending order, with its numbers in
    /// the ranges of [`LossKind`].
    pub loss: LossKind,
    /// Whether each run shuffles the symbols before it sends them. Otherwise they are sent from 0
    /// up.
    pub random: bool,
    /// How many runs.
    pub runs: u32,
    /// The state that the draws begin with, from 1 to 2,147,483,646. They make the source block,
    /// and then one run after the other.
    pub seed: u32,
    /// Whether each run finds how many of the kept symbols determine the block.
    pub threshold: bool,
}
