use crate::rows::{check_row, check_rows};
use staircase::BuildRefusal;
use std::test::Fail;
use triangle::triangle;

#[test]
fn builds_the_triangle_of_three_and_four(rt: HostRuntime) -> Result<(), Fail> {
    let built = triangle(rt.alloc(), 3, 7, 3, 1, 14)?;
    assert!(rt; built.draws == 14);
    check_row(&rt, &built.code, 0, &[0, 2, 3]);
    check_row(&rt, &built.code, 1, &[1, 2, 3, 4]);
    check_row(&rt, &built.code, 2, &[0, 1, 2, 3, 4, 5]);
    check_row(&rt, &built.code, 3, &[0, 1, 3, 5, 6]);
    Ok(())
}

#[test]
fn builds_chains_of_several_links(rt: HostRuntime) -> Result<(), Fail> {
    let built = triangle(rt.alloc(), 3, 19, 3, 1, 63)?;
    assert!(rt; built.draws == 63);
    assert!(rt; built.code.entries() == 91);
    check_row(&rt, &built.code, 14, &[0, 2, 3, 7, 8, 9, 16, 17]);
    check_row(&rt, &built.code, 15, &[0, 2, 6, 9, 15, 17, 18]);
    Ok(())
}

#[test]
fn refuses_one_draw_less(rt: HostRuntime) {
    let refusal = triangle(rt.alloc(), 3, 7, 3, 1, 13).err();
    assert!(rt; refusal == Some(BuildRefusal::DrawLimit));
}

// As many draws as the left side alone takes.
#[test]
fn refuses_a_limit_that_the_staircase_meets(rt: HostRuntime) {
    let refusal = triangle(rt.alloc(), 3, 7, 3, 1, 12).err();
    assert!(rt; refusal == Some(BuildRefusal::DrawLimit));
}

#[test]
fn draws_nothing_where_all_symbols_are_source(rt: HostRuntime) -> Result<(), Fail> {
    let built = triangle(rt.alloc(), 3, 3, 3, 1, 0)?;
    assert!(rt; built.draws == 0);
    assert!(rt; built.code.entries() == 0);
    Ok(())
}

// The codes below were computed apart from this program, by a second reading of the definitions.

#[test]
fn builds_the_triangle_of_4_and_5_by_seed_99(rt: HostRuntime) -> Result<(), Fail> {
    let built = triangle(rt.alloc(), 4, 9, 4, 99, 23)?;
    assert!(rt; built.draws == 23);
    let rows: [&[u32]; 5] = [
        &[0, 1, 2, 3, 4],
        &[0, 1, 2, 4, 5],
        &[0, 2, 3, 4, 5, 6],
        &[0, 1, 2, 3, 5, 6, 7],
        &[1, 3, 4, 7, 8],
    ];
    check_rows(&rt, &built.code, &rows);
    Ok(())
}

#[test]
fn builds_the_triangle_of_6_and_14_by_seed_12345(rt: HostRuntime) -> Result<(), Fail> {
    let built = triangle(rt.alloc(), 6, 20, 5, 12_345, 54)?;
    assert!(rt; built.draws == 54);
    let rows: [&[u32]; 14] = [
        &[0, 1, 2, 6],
        &[1, 2, 3, 6, 7],
        &[0, 3, 6, 7, 8],
        &[0, 3, 7, 8, 9],
        &[0, 2, 6, 8, 9, 10],
        &[3, 5, 6, 10, 11],
        &[1, 5, 7, 9, 11, 12],
        &[3, 5, 7, 12, 13],
        &[4, 5, 7, 13, 14],
        &[2, 4, 8, 13, 14, 15],
        &[1, 4, 8, 10, 15, 16],
        &[0, 4, 8, 12, 16, 17],
        &[2, 5, 8, 10, 17, 18],
        &[1, 4, 8, 9, 18, 19],
    ];
    check_rows(&rt, &built.code, &rows);
    Ok(())
}

#[test]
fn builds_the_triangle_of_2_and_10_by_seed_2147483646(rt: HostRuntime) -> Result<(), Fail> {
    let built = triangle(rt.alloc(), 2, 12, 10, 2_147_483_646, 37)?;
    assert!(rt; built.draws == 37);
    let rows: [&[u32]; 10] = [
        &[0, 1, 2],
        &[0, 1, 2, 3],
        &[0, 1, 2, 3, 4],
        &[0, 1, 3, 4, 5],
        &[0, 1, 3, 5, 6],
        &[0, 1, 2, 4, 6, 7],
        &[0, 1, 2, 7, 8],
        &[0, 1, 3, 8, 9],
        &[0, 1, 3, 6, 7, 9, 10],
        &[0, 1, 3, 7, 10, 11],
    ];
    check_rows(&rt, &built.code, &rows);
    Ok(())
}
