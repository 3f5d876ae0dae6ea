ghost use Rattle.std.specs.Prelude.{◌≡◌, ◌<◌, ◌≤◌, ◌-◌, nat_lt, replicate, fold, []};
ghost use Rattle.std.specs.Prelude.{IsTrue, IfOk};
ghost use Rattle.std.specs.List.{list_all};
ghost use Rattle.sparse_rows.specs.Matrix.{with_entry};

use crate::rows::{check_columns, check_rows};
use fec_base::NoMemory;
use sparse_rows::{Code, RowsBuilder};
use std::alloc::Global;
use std::process::Abort;
use std::test::Fail;

// The rows of a code of three source symbols and four repair symbols.
const ROWS: [&[u32]; 4] = [&[0, 2, 3], &[1, 2, 3, 4], &[0, 1, 2, 4, 5], &[0, 1, 5, 6]];

// Its columns: the rows that have them.
const COLUMNS: [&[u32]; 7] = [
    &[0, 2, 3],
    &[1, 2, 3],
    &[0, 1, 2],
    &[0, 1],
    &[1, 2],
    &[2, 3],
    &[3],
];

// The entries of these rows, as pairs of a row and a column, not in order.
const ENTRIES: [(u32, u32); 16] = [
    (0, 3),
    (1, 4),
    (2, 5),
    (3, 6),
    (0, 0),
    (2, 0),
    (3, 0),
    (1, 1),
    (2, 1),
    (3, 1),
    (0, 2),
    (1, 2),
    (2, 2),
    (1, 3),
    (2, 4),
    (3, 5),
];

#[test]
fn tells_whether_a_pair_is_new(rt: HostRuntime) -> Result<(), Fail> {
    let mut rows = filled(rt.alloc(), 3, 7, &[(1, 4), (1, 1), (1, 3), (1, 2)])?;
    assert!(rt; !rows.insert(1, 3)?);
    assert!(rt; rows.insert(2, 3)?);
    Ok(())
}

#[test]
fn a_builder_knows_its_entries(rt: HostRuntime) -> Result<(), Fail> {
    let rows = filled(rt.alloc(), 3, 7, &ENTRIES)?;
    assert!(rt; rows.has(0, 2) && rows.has(3, 6));
    assert!(rt; !rows.has(0, 1) && !rows.has(0, 4));
    assert!(rt; rows.source_degree(1) == 2 && rows.source_degree(2) == 3);
    Ok(())
}

#[test]
fn a_code_has_rising_rows(rt: HostRuntime) -> Result<(), Fail> {
    let alloc = rt.alloc();
    let code = Code::from_builder(alloc, filled(alloc, 3, 7, &ENTRIES)?)?;
    check_code(&rt, &code);
    check_code(&rt, &code.copy(alloc)?);
    Ok(())
}

// The code has the rows of three source symbols and four repair symbols.
fn check_code(rt: &impl Abort, code: &Code) {
    assert!(rt; code.k() == 3 && code.entries() == 16);
    check_rows(rt, code, &ROWS);
    check_columns(rt, code, &COLUMNS);
}

// The entries of a row of eleven source symbols and its repair symbol, not in order.
const LONG_ROW: [(u32, u32); 12] = [
    (0, 7),
    (0, 2),
    (0, 11),
    (0, 0),
    (0, 9),
    (0, 4),
    (0, 10),
    (0, 1),
    (0, 6),
    (0, 3),
    (0, 8),
    (0, 5),
];

#[test]
fn a_row_may_have_many_columns(rt: HostRuntime) -> Result<(), Fail> {
    let alloc = rt.alloc();
    let rows = filled(alloc, 11, 12, &LONG_ROW)?;
    assert!(rt; rows.has(0, 5));
    assert!(rt; rows.source_degree(0) == 11);
    let code = Code::from_builder(alloc, rows)?;
    assert!(rt; code.entries() == 12);
    check_rows(&rt, &code, &[&[0, 1, 2, 3, 4, 5, 6, 7, 8, 9, 10, 11]]);
    Ok(())
}

#[test]
fn without_repair_symbols_there_are_no_rows(rt: HostRuntime) -> Result<(), Fail> {
    let alloc = rt.alloc();
    let code = Code::from_builder(alloc, RowsBuilder::new(alloc, 2, 2)?)?;
    assert!(rt; code.n() == 2);
    assert!(rt; code.entries() == 0);
    Ok(())
}

// The n - k rows with these entries.
fn filled(alloc: Global, k: u32, n: u32, entries: &[(u32, u32)]) -> Result<RowsBuilder, NoMemory>
    requires some { 1 ≤ k }
    requires within { k ≤ n }
    requires most { n ≤ 65536 }
    requires rows { IsTrue (list_all (λ entry. nat_lt entry.0 (n - k)) entries.now) }
    requires columns { IsTrue (list_all (λ entry. nat_lt entry.1 n) entries.now) }
    ensures { IfOk result (λ rows. rows
        ≡ fold (λ m entry. with_entry m entry.0 entry.1)
        (record { k = k; n = n; rows = replicate (n - k) [] }) entries.now) }
{
    let mut rows = RowsBuilder::new(alloc, k, n)?;
    for (r, c) in entries {
        rows.insert(*r, *c)?;
    }
    Ok(rows)
}
