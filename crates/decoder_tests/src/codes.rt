// The codes that the tests of this crate make.
ghost use Rattle.std.specs.Prelude.{◌≡◌, ◌<◌, ◌≤◌, ◌-◌, nat_lt, replicate, fold, []};
ghost use Rattle.std.specs.Prelude.{IsTrue, IfOk};
ghost use Rattle.std.specs.List.{list_all};
ghost use Rattle.sparse_rows.specs.Matrix.{HasShape, with_entry};

use fec_base::NoMemory;
use sparse_rows::{Code, RowsBuilder};
use std::alloc::Global;

// The entries of the rows {0, 2, 3}, {1, 2, 3, 4}, {0, 1, 2, 4, 5} and {0, 1, 5, 6}.
pub(crate) const STAIRCASE: [(u32, u32); 16] = [
    (0, 0),
    (0, 2),
    (0, 3),
    (1, 1),
    (1, 2),
    (1, 3),
    (1, 4),
    (2, 0),
    (2, 1),
    (2, 2),
    (2, 4),
    (2, 5),
    (3, 0),
    (3, 1),
    (3, 5),
    (3, 6),
];

// Three source symbols and four repair symbols.
pub(crate) fn staircase(alloc: Global) -> Result<Code, NoMemory>
    ensures { IfOk result (λ code. (code.k ≡ 3) × (code.n ≡ 7)) }
{
    code_of(alloc, 3, 7, &STAIRCASE)
}

// The code with these entries.
pub(crate) fn code_of(
    alloc: Global,
    k: u32,
    n: u32,
    entries: &[(u32, u32)],
) -> Result<Code, NoMemory>
    requires some { 1 ≤ k }
    requires within { k ≤ n }
    requires most { n ≤ 65536 }
    requires rows { IsTrue (list_all (λ entry. nat_lt entry.0 (n - k)) entries.now) }
    requires columns { IsTrue (list_all (λ entry. nat_lt entry.1 n) entries.now) }
    requires shape { HasShape (fold (λ m entry. with_entry m entry.0 entry.1)
        (record { k = k; n = n; rows = replicate (n - k) [] }) entries.now) }
    ensures { IfOk result (λ code. code ≡ fold (λ m entry. with_entry m entry.0 entry.1)
        (record { k = k; n = n; rows = replicate (n - k) [] }) entries.now) }
{
    let mut rows = RowsBuilder::new(alloc, k, n)?;
    for (r, c) in entries {
        rows.insert(*r, *c)?;
    }
    Code::from_builder(alloc, rows)
}
