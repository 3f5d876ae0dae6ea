// The reduced form of a system of equations.
ghost use Rattle.std.specs.Prelude.{◌≡◌, ◌<◌, ◌≤◌, true, false, [], length, slice_index_or};
ghost use Rattle.std.specs.Prelude.{IfOk, MatchOption};
ghost use Rattle.sparse_rows.specs.Matrix.{is_in};
ghost use Rattle.gauss.specs.Reduction.{IsFirstWith, is_open, set_at};
ghost use Rattle.gauss.specs.Masks.{AreMasks, form_of};

use crate::Values;
use crate::masks::{Masks, holds_at, members_of, stride_of};
use fec_base::NoMemory;
use null_witness::NullWord;
use std::alloc::Global;
use std::marker::Model;

/// The reduced null sets of a system of equations, in the order of their last unknowns, and a
/// solution. A null set is reduced where it holds no unknown but its last at which another null set
/// ends: for each unknown at which one ends there is exactly one.
#[derive(Drop)]
pub struct Reduced {
    values: Values,
    masks: Masks,
}

impl Model for Reduced {
    ghost use Rattle.gauss.specs.Reduction.{ReducedForm};
    ghost use Rattle.gauss.specs.Masks.{AreMasks, form_of};
    ghost use Rattle.std.specs.Prelude.{length};

    ghost Value = { ReducedForm };

    ghost view = { λ r. form_of r.values r.masks.sets r.masks.bytes.items };

    ghost invariant = { λ r. AreMasks (length r.values) r.masks.sets r.masks.bytes.items };
}

impl Reduced {
    // These symbols, and the null sets that the bits of the unknowns are.
    pub(crate) fn new(values: Values, masks: Masks) -> Reduced
        requires { AreMasks (length values) masks.sets masks.bytes.items }
        ensures { result ≡ form_of values masks.sets masks.bytes.items }
    {
        Reduced { values, masks }
    }

    /// How many null sets there are.
    pub fn sets(&self) -> u32
        ensures count { result ≡ length self.now.sets }
        ensures few { result ≤ length self.now.symbols }
    {
        self.masks.sets
    }

    /// Whether null set i holds unknown c, both counted from 0.
    pub fn holds(&self, i: u32, c: u32) -> bool
        requires set { i < length self.now.sets }
        requires unknown { c < length self.now.symbols }
        ensures { result ≡ is_in (set_at self.now i) c }
    {
        let stride = stride_of(self.masks.sets);
        holds_at(&self.masks.bytes, stride, i as usize, c as usize)
    }

    /// The number of the first null set that holds unknown c.
    pub fn first_with(&self, c: u32) -> Option<u32>
        requires { c < length self.now.symbols }
        ensures { MatchOption result (is_open self.now c ≡ false) (IsFirstWith self.now c) }
    {
        for i in 0..self.sets() {
            if self.holds(i, c) {
                return Some(i);
            }
        }
        None
    }

    /// Null set i.
    pub fn null_set(&self, alloc: Global, i: u32) -> Result<NullWord, NoMemory>
        requires { i < length self.now.sets }
        ensures { IfOk result (λ set. set ≡ set_at self.now i) }
    {
        let unknowns = self.values.count() as usize;
        let stride = stride_of(self.masks.sets);
        let set = members_of(alloc, &self.masks.bytes, unknowns, stride, i as usize)?;
        Ok(set)
    }

    /// The symbol that all solutions have at unknown c, and none where two differ there.
    pub fn symbol(&self, c: u32) -> Option<&[u8]>
        requires { c < length self.now.symbols }
        ensures { MatchOption result (is_open self.now c ≡ true) (λ bytes.
            (is_open self.now c ≡ false)
            × (bytes.now ≡ slice_index_or self.now.symbols c [])) }
    {
        match self.first_with(c) {
            Some(_) => None,
            None => Some(self.values.symbol(c)),
        }
    }
}
