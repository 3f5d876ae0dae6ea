// Checks of the rows and columns of a code.
use fec_base::{Steps, Tally};
use sparse_rows::Code;
use std::process::Abort;

// Row r of the code has these columns and no others.
pub(crate) fn check_row(rt: &impl Abort, code: &Code, r: u32, columns: &[u32]) {
    assert!(rt; r < code.n() - code.k());
    assert!(rt; code.row_len(r) as usize == columns.len());
    let mut steps = Steps::<Tally>::start();
    for (i, column) in columns.iter().enumerate() {
        assert!(rt; (i as u32) < code.row_len(r));
        assert!(rt; code.row_entry(r, i as u32, &mut steps) == *column);
    }
}

// The code has these rows and no others.
pub(crate) fn check_rows(rt: &impl Abort, code: &Code, rows: &[&[u32]]) {
    assert!(rt; rows.len() < 100);
    assert!(rt; (code.n() - code.k()) as usize == rows.len());
    for (r, columns) in rows.iter().enumerate() {
        check_row(rt, code, r as u32, columns);
    }
}

// Column c of the code has entries in these rows and in no others.
fn check_column(rt: &impl Abort, code: &Code, c: u32, rows: &[u32]) {
    assert!(rt; c < code.n());
    assert!(rt; code.col_len(c) as usize == rows.len());
    let mut steps = Steps::<Tally>::start();
    for (i, row) in rows.iter().enumerate() {
        assert!(rt; (i as u32) < code.col_len(c));
        assert!(rt; code.col_entry(c, i as u32, &mut steps) == *row);
    }
}

// The code has these columns and no others.
pub(crate) fn check_columns(rt: &impl Abort, code: &Code, columns: &[&[u32]]) {
    assert!(rt; columns.len() < 100);
    assert!(rt; code.n() as usize == columns.len());
    for (c, rows) in columns.iter().enumerate() {
        check_column(rt, code, c as u32, rows);
    }
}
