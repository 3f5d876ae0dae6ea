// A system of equations, as it is put together.
ghost use Rattle.std.specs.Prelude.{◌≡◌, ◌<◌, ◌≤◌, All, length, replicate, IfOk};
ghost use Rattle.gauss.specs.Filling.{equation_at, no_equation, with_equation, with_sum};
ghost use Rattle.gauss.specs.Filling.{with_unknown};

use crate::packed::{put, width_of};
use fec_base::NoMemory;
use std::alloc::Global;
use std::marker::Model;
use symbol_arena::Arena;

/// Equations in a number of unknowns, each of which is a symbol of `len` bytes: what the symbols of
/// some unknowns sum to. The sum of symbols is their XOR, byte by byte.
///
/// `solve` eliminates the unknowns in rising order. That order makes the first unknown without a
/// pivot row the last member of the answer's null set. An equation's unknowns are the bits of a row
/// of 64-bit words, so that adding a row to another is an XOR of words, and unknowns are eliminated
/// eight at a time (the method of four Russians). The essence:
///
/// 1. For each unknown, the first row that has it and leads no other becomes its pivot row. It is
///    added to each other row that has the unknown and leads none.
/// 2. There the bit of the unknown isn't cleared: from then on it says that the pivot row went into
///    the row. So rows keep a record of what was added, and no sum is touched before the end.
/// 3. What is to be added to a row for eight unknowns depends on its eight bits of them alone. A
///    table holds it for each of the 256 bytes, and is added to the rows once for all eight.
/// 4. At the end the record gives the sum of each row that leads nothing: one that isn't zero is a
///    contradiction. Else, where an unknown has no pivot row, back substitution of bits gives the
///    null set of the first one. Else the record and back substitution of symbols give the values,
///    again by tables of eight.
///
/// For u unknowns and about as many rows it takes about u / 1,000 + 2 XORs of words for each of the
/// u * u entries of the matrix, and for the values some u * u / 8 + 64 * u sums of symbols. r rows
/// take r * (u / 8 + len) bytes when they are made, with len rounded up to a multiple of 32.
/// `solve` takes 32 * u + 4 * (u + r) bytes more, and for the values u * len and
/// (u + 256) * min(len, 512).
#[derive(Drop)]
pub struct Equations {
    pub(crate) unknowns: u32,
    pub(crate) rows: u32,
    pub(crate) len: u32,
    pub(crate) words: Vec<u64>,
    pub(crate) sums: Arena,
}

impl Model for Equations {
    ghost use Rattle.gauss.specs.Equations.{System};
    ghost use Rattle.gauss.specs.Packed.{IsPacked, packed_system};

    ghost Value = { System };

    ghost view = { λ e. packed_system e.unknowns e.len e.rows e.words.items e.sums };

    ghost invariant = { λ e. IsPacked e.unknowns e.len e.rows e.words.items e.sums };
}

impl Equations {
    /// So many equations, each of no unknowns and with a sum of zero. This takes all memory that
    /// the equations ever take; `NoMemory` comes only for want of it.
    pub fn new(alloc: Global, unknowns: u32, rows: u32, len: u32) -> Result<Equations, NoMemory>
        requires unknowns { unknowns ≤ 65536 }
        requires rows { rows ≤ 65536 }
        requires some { 1 ≤ len }
        requires most { len ≤ 65535 }
        ensures { IfOk result (λ system. system ≡ record {
          unknowns = unknowns;
          len = len;
          equations = replicate rows (no_equation len);
        }) }
    {
        let words = vec![in alloc; 0u64; rows as usize * width_of(unknowns)]?;
        let sums = Arena::new(alloc, rows, len)?;
        Ok(Equations {
            unknowns,
            rows,
            len,
            words,
            sums,
        })
    }

    /// Puts unknown c into equation r, behind those that it has. Both are counted from 0.
    pub fn add_column(&mut self, r: u32, c: u32)
        requires equation { r < length self.old.equations }
        requires unknown { c < self.old.unknowns }
        requires behind { All (λ unknown. unknown < c) (equation_at self.old r).unknowns }
        ensures { self.new ≡ with_equation self.old r (with_unknown c (equation_at self.old r)) }
    {
        let width = width_of(self.unknowns);
        put(&mut self.words, width, r as usize, c as usize);
    }

    /// Makes these bytes the sum of equation r, in place of the one that it had.
    pub fn set_sum(&mut self, r: u32, bytes: &[u8])
        requires equation { r < length self.old.equations }
        requires long { length bytes.now ≡ self.old.len }
        ensures { self.new
            ≡ with_equation self.old r (with_sum bytes.now (equation_at self.old r)) }
    {
        self.sums.put(r, bytes);
    }
}
