use crate::rows::check_rows;
use parity_2d::{parity_2d, parity_2d_corner, size_2d, size_2d_corner};
use std::test::Fail;

#[test]
fn sizes(rt: HostRuntime) {
    assert!(rt; size_2d(5, 3) == 10);
    assert!(rt; size_2d(3, 3) == 7);
    assert!(rt; size_2d(5, 100) == 11);
    assert!(rt; size_2d(1, 1) == 3);
}

#[test]
fn sizes_with_a_corner(rt: HostRuntime) {
    assert!(rt; size_2d_corner(5, 3) == 11);
    assert!(rt; size_2d_corner(3, 3) == 8);
    assert!(rt; size_2d_corner(5, 100) == 12);
    assert!(rt; size_2d_corner(1, 1) == 4);
}

#[test]
fn five_symbols_in_width_three(rt: HostRuntime) -> Result<(), Fail> {
    let code = parity_2d(rt.alloc(), 5, 3)?;
    assert!(rt; code.k() == 5 && code.n() == 10 && code.entries() == 15);
    let rows: [&[u32]; 5] = [&[0, 1, 2, 5], &[3, 4, 6], &[0, 3, 7], &[1, 4, 8], &[2, 9]];
    check_rows(&rt, &code, &rows);
    Ok(())
}

#[test]
fn three_symbols_in_width_two(rt: HostRuntime) -> Result<(), Fail> {
    let code = parity_2d(rt.alloc(), 3, 2)?;
    assert!(rt; code.k() == 3 && code.n() == 7);
    check_rows(&rt, &code, &[&[0, 1, 3], &[2, 4], &[0, 2, 5], &[1, 6]]);
    Ok(())
}

#[test]
fn five_symbols_in_width_three_with_a_corner(rt: HostRuntime) -> Result<(), Fail> {
    let code = parity_2d_corner(rt.alloc(), 5, 3)?;
    assert!(rt; code.k() == 5 && code.n() == 11 && code.entries() == 21);
    let rows: [&[u32]; 6] = [
        &[0, 1, 2, 5],
        &[3, 4, 6],
        &[0, 3, 7],
        &[1, 4, 8],
        &[2, 9],
        &[0, 1, 2, 3, 4, 10],
    ];
    check_rows(&rt, &code, &rows);
    Ok(())
}

#[test]
fn three_symbols_in_width_two_with_a_corner(rt: HostRuntime) -> Result<(), Fail> {
    let code = parity_2d_corner(rt.alloc(), 3, 2)?;
    assert!(rt; code.k() == 3 && code.n() == 8);
    check_rows(
        &rt,
        &code,
        &[&[0, 1, 3], &[2, 4], &[0, 2, 5], &[1, 6], &[0, 1, 2, 7]],
    );
    Ok(())
}
