ghost use Rattle.std.specs.Prelude.{◌≡◌, ◌<◌, IfOk, []};
ghost use Rattle.std.specs.Prelude.{length};

use crate::decoders::core_with;
use fec_base::NoMemory;
use fec_session::Core;
use partial_block::{Partial, Survey, survey};
use std::alloc::Global;
use std::process::Abort;
use std::test::Fail;

#[test]
fn elimination_saves_one_symbol_where_peeling_rebuilds_none(rt: HostRuntime) -> Result<(), Fail> {
    let core = core_with(rt.alloc(), &[(5, 4), (6, 7)])?;
    assert!(rt; core.known_count() == 2);
    let partial = saved(&rt, rt.alloc(), &core)?;
    check_open(&rt, &partial, 0, &[0, 1, 3]);
    check_open(&rt, &partial, 1, &[0, 1, 3]);
    check_symbol(&rt, &partial, 2, 4);
    Ok(())
}

#[test]
fn without_arrivals_each_symbol_is_open(rt: HostRuntime) -> Result<(), Fail> {
    let core = core_with(rt.alloc(), &[])?;
    let partial = saved(&rt, rt.alloc(), &core)?;
    check_open(&rt, &partial, 0, &[0, 1, 3]);
    check_open(&rt, &partial, 1, &[0, 1, 3]);
    check_open(&rt, &partial, 2, &[0, 2, 4, 5]);
    Ok(())
}

#[test]
fn a_determined_block_is_saved_as_a_whole(rt: HostRuntime) -> Result<(), Fail> {
    // By peeling, and by elimination.
    let cases: [&[(u32, u8)]; 2] = [&[(3, 5), (4, 3), (0, 1)], &[(3, 5), (4, 3), (5, 4), (6, 7)]];
    for arrivals in cases {
        let core = core_with(rt.alloc(), arrivals)?;
        let partial = saved(&rt, rt.alloc(), &core)?;
        check_symbol(&rt, &partial, 0, 1);
        check_symbol(&rt, &partial, 1, 2);
        check_symbol(&rt, &partial, 2, 4);
    }
    Ok(())
}

#[test]
fn nothing_is_saved_of_a_contradicted_block(rt: HostRuntime) -> Result<(), Fail> {
    // Peeling sees the first contradiction, and elimination alone the second.
    let cases: [&[(u32, u8)]; 2] = [
        &[(3, 5), (4, 3), (0, 1), (1, 3)],
        &[(3, 5), (4, 3), (5, 4), (6, 6)],
    ];
    for arrivals in cases {
        let core = core_with(rt.alloc(), arrivals)?;
        assert!(rt; matches!(survey(rt.alloc(), &core)?, Survey::NoCodeword));
    }
    Ok(())
}

// What the arrivals at the core save, where some codeword fits them.
fn saved(rt: &impl Abort, alloc: Global, core: &Core) -> Result<Partial, NoMemory>
    requires { core.now.matrix.k ≡ 3 }
    ensures { IfOk result (λ partial. length partial.throughs ≡ 3) }
{
    match survey(alloc, core)? {
        Survey::Sources(partial) => Ok(partial),
        Survey::NoCodeword => panic!(rt; "no codeword fits"),
    }
}

// The source symbol is determined, and is this byte.
fn check_symbol(rt: &impl Abort, partial: &Partial, e: u32, byte: u8)
    requires { e < length partial.now.throughs }
{
    assert!(rt; partial.symbol(e) == Some([byte].as_slice()));
    assert!(rt; partial.through(e).is_none());
}

// The source symbol is open, as this null word shows.
fn check_open(rt: &impl Abort, partial: &Partial, e: u32, word: &[u32])
    requires { e < length partial.now.throughs }
{
    assert!(rt; partial.symbol(e) == None);
    match partial.through(e) {
        Some(found) => assert!(rt; found.positions() == word),
        None => panic!(rt; "no null word goes through it"),
    }
}
