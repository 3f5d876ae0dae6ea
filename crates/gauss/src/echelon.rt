// Packed rows in echelon form, as what reads answers off them sees them.

// So many rows of words, and for each unknown its pivot row, or the number of rows where it is
// free.
#[derive(Clone, Copy)]
pub(crate) struct Echelon<'a> {
    pub(crate) words: &'a [u64],
    pub(crate) width: usize,
    pub(crate) rows: usize,
    pub(crate) pivots: &'a [u32],
}
