use crate::rows::{check_row, check_rows};
use park_miller::{Draws, ParkMiller};
use staircase::{BuildRefusal, left, staircase};
use std::test::Fail;

#[test]
fn builds_the_staircase_of_three_and_four(rt: HostRuntime) -> Result<(), Fail> {
    let built = staircase(rt.alloc(), 3, 7, 3, 1, 12)?;
    assert!(rt; built.draws == 12);
    assert!(rt; built.code.entries() == 16);
    check_row(&rt, &built.code, 0, &[0, 2, 3]);
    check_row(&rt, &built.code, 1, &[1, 2, 3, 4]);
    check_row(&rt, &built.code, 2, &[0, 1, 2, 4, 5]);
    check_row(&rt, &built.code, 3, &[0, 1, 5, 6]);
    Ok(())
}

#[test]
fn refuses_one_draw_less(rt: HostRuntime) {
    let refusal = staircase(rt.alloc(), 3, 7, 3, 1, 11).err();
    assert!(rt; refusal == Some(BuildRefusal::DrawLimit));
}

// Whatever the limit, the draws up to it are made, and the twelfth ends the left side.
#[test]
fn uses_each_draw_up_to_the_limit(rt: HostRuntime) -> Result<(), Fail> {
    for limit in 0..12 {
        let mut g = Draws::new(ParkMiller::new(1)?, limit);
        let refusal = left(rt.alloc(), 3, 7, 3, &mut g).err();
        assert!(rt; refusal == Some(BuildRefusal::DrawLimit));
        assert!(rt; g.used() == limit);
    }
    let mut g = Draws::new(ParkMiller::new(1)?, 100);
    let rows = left(rt.alloc(), 3, 7, 3, &mut g)?;
    assert!(rt; rows.has(2, 2));
    assert!(rt; g.used() == 12);
    assert!(rt; g.into_generator().state() == 1_115_438_165);
    Ok(())
}

#[test]
fn puts_each_source_symbol_into_all_of_three_rows(rt: HostRuntime) -> Result<(), Fail> {
    let built = staircase(rt.alloc(), 4, 7, 3, 1, 1000)?;
    check_row(&rt, &built.code, 0, &[0, 1, 2, 3, 4]);
    check_row(&rt, &built.code, 1, &[0, 1, 2, 3, 4, 5]);
    check_row(&rt, &built.code, 2, &[0, 1, 2, 3, 5, 6]);
    Ok(())
}

#[test]
fn gives_a_single_source_symbol_no_second_extra_column(rt: HostRuntime) -> Result<(), Fail> {
    let built = staircase(rt.alloc(), 1, 5, 3, 1, 1000)?;
    assert!(rt; built.draws == 4);
    check_row(&rt, &built.code, 0, &[0, 1]);
    check_row(&rt, &built.code, 1, &[0, 1, 2]);
    check_row(&rt, &built.code, 2, &[0, 2, 3]);
    check_row(&rt, &built.code, 3, &[0, 3, 4]);
    Ok(())
}

#[test]
fn draws_nothing_where_all_symbols_are_source(rt: HostRuntime) -> Result<(), Fail> {
    let built = staircase(rt.alloc(), 3, 3, 3, 1, 0)?;
    assert!(rt; built.draws == 0);
    assert!(rt; built.code.entries() == 0);
    Ok(())
}

// A block of 20,000 source symbols: its 60,000 entries take hardly more draws than one each, so
// choosing never goes far.
#[test]
fn builds_a_large_code_with_about_a_draw_an_entry(rt: HostRuntime) -> Result<(), Fail> {
    let built = staircase(rt.alloc(), 20_000, 30_000, 3, 1, 66_000)?;
    assert!(rt; built.draws >= 60_000);
    assert!(rt; built.code.entries() >= 79_999);
    Ok(())
}

// The codes below were computed apart from this program, by a second reading of the definitions.

#[test]
fn builds_the_staircase_of_4_and_5_by_seed_99(rt: HostRuntime) -> Result<(), Fail> {
    let built = staircase(rt.alloc(), 4, 9, 4, 99, 20)?;
    assert!(rt; built.draws == 20);
    let rows: [&[u32]; 5] = [
        &[0, 1, 2, 3, 4],
        &[0, 1, 2, 4, 5],
        &[0, 2, 3, 5, 6],
        &[0, 1, 2, 3, 6, 7],
        &[1, 3, 7, 8],
    ];
    check_rows(&rt, &built.code, &rows);
    Ok(())
}

#[test]
fn builds_the_staircase_of_6_and_11_by_seed_2147483646(rt: HostRuntime) -> Result<(), Fail> {
    let built = staircase(rt.alloc(), 6, 17, 10, 2_147_483_646, 103)?;
    assert!(rt; built.draws == 103);
    let rows: [&[u32]; 11] = [
        &[0, 1, 2, 3, 4, 5, 6],
        &[0, 1, 2, 3, 4, 5, 6, 7],
        &[0, 2, 3, 5, 7, 8],
        &[0, 1, 2, 3, 4, 5, 8, 9],
        &[0, 1, 2, 3, 4, 5, 9, 10],
        &[0, 1, 2, 3, 4, 5, 10, 11],
        &[0, 1, 2, 4, 5, 11, 12],
        &[0, 1, 2, 3, 4, 5, 12, 13],
        &[0, 1, 3, 4, 5, 13, 14],
        &[1, 2, 3, 4, 5, 14, 15],
        &[0, 1, 2, 3, 4, 15, 16],
    ];
    check_rows(&rt, &built.code, &rows);
    Ok(())
}

#[test]
fn builds_the_staircase_of_5_and_2_by_seed_7(rt: HostRuntime) -> Result<(), Fail> {
    let built = staircase(rt.alloc(), 5, 7, 3, 7, 16)?;
    assert!(rt; built.draws == 16);
    let rows: [&[u32]; 2] = [&[0, 1, 2, 3, 4, 5], &[0, 1, 2, 3, 4, 5, 6]];
    check_rows(&rt, &built.code, &rows);
    Ok(())
}
