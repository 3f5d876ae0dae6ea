ghost use Rattle.std.specs.Prelude.{◌≡◌, IfOk, length};
ghost use Rattle.decoder_tests.specs.Small.{IsThreeOfSeven};

use crate::decoders::{check_source, core_with, take, take_all};
use fec_base::NoMemory;
use fec_session::{Arrival, Core, Residue, Verdict};
use gauss::{Answer, Values, solve};
use std::alloc::Global;
use std::process::Abort;
use std::test::Fail;

#[test]
fn rebuilds_the_symbol_that_is_lost(rt: HostRuntime) -> Result<(), Fail> {
    let core = core_with(rt.alloc(), &[(0, 1), (2, 4)])?;
    check_rebuilt(&rt, &core);
    Ok(())
}

// Symbols 0 and 2 came, and gave symbol 3 alone.
fn check_rebuilt(rt: &impl Abort, core: &Core)
    requires { IsThreeOfSeven core.now }
{
    assert!(rt; core.fresh() == [3].as_slice());
    assert!(rt; core.symbol(3) == Some([5].as_slice()));
    assert!(rt; core.symbol(1).is_none());
    assert!(rt; core.arrived() == [true, false, true, false, false, false, false].as_slice());
    assert!(rt; core.arrived_count() == 2 && core.known_count() == 3);
    assert!(rt; core.code().n() == 7);
}

const REPAIR: [(u32, u8); 4] = [(3, 5), (4, 3), (5, 4), (6, 7)];

#[test]
fn elimination_gives_what_peeling_leaves(rt: HostRuntime) -> Result<(), Fail> {
    let core = core_with(rt.alloc(), &REPAIR)?;
    assert!(rt; !core.has_all_source());
    match core.finish(rt.alloc()).map_err(|refused| refused.1)? {
        Verdict::Block(block) => check_source(&rt, &block, false),
        _ => panic!(rt; "not determined"),
    }
    Ok(())
}

#[test]
fn the_residue_is_solved_by_the_symbols_that_are_missing(rt: HostRuntime) -> Result<(), Fail> {
    let core = core_with(rt.alloc(), &REPAIR)?;
    let Residue { columns, equations } = core.residue(rt.alloc())?;
    assert!(rt; columns.as_slice() == [0, 1, 2].as_slice());
    match solve(rt.alloc(), equations)? {
        Answer::One(values) => assert!(rt; are_source(&values)),
        _ => panic!(rt; "not one solution"),
    }
    Ok(())
}

// Whether the values of three unknowns are 01 02 04.
fn are_source(values: &Values) -> bool
    requires { length values.now ≡ 3 }
{
    values.symbol(0) == [1].as_slice()
        && values.symbol(1) == [2].as_slice()
        && values.symbol(2) == [4].as_slice()
}

#[test]
fn an_undetermined_core_goes_on(rt: HostRuntime) -> Result<(), Fail> {
    let core = core_with(rt.alloc(), &[])?;
    let mut core = check_open(&rt, rt.alloc(), core, &[0, 1, 3])?;
    take_all(&mut core, &[(3, 5)]);
    let mut core = check_open(&rt, rt.alloc(), core, &[0, 2, 4, 5])?;
    take_all(&mut core, &[(4, 3)]);
    let mut core = check_open(&rt, rt.alloc(), core, &[0, 1, 2, 5, 6])?;
    take_all(&mut core, &[(0, 1)]);
    match core.finish(rt.alloc()).map_err(|refused| refused.1)? {
        Verdict::Block(block) => check_source(&rt, &block, true),
        _ => panic!(rt; "not determined"),
    }
    Ok(())
}

#[test]
fn contradictions_leave_no_codeword(rt: HostRuntime) -> Result<(), Fail> {
    // The arrivals, and whether peeling sees the contradiction.
    let cases: [(&[(u32, u8)], bool); 5] = [
        (&[(3, 5), (3, 6)], true),
        (&[(3, 5), (4, 3), (0, 1), (1, 3)], true),
        (&[(0, 1), (1, 2), (4, 4)], false),
        (&[(0, 1), (1, 2), (4, 4), (3, 5)], true),
        (&[(3, 5), (4, 3), (5, 4), (6, 6)], false),
    ];
    for (arrivals, clashed) in cases {
        let core = core_with(rt.alloc(), arrivals)?;
        check_none(&rt, rt.alloc(), core, clashed)?;
    }
    Ok(())
}

#[test]
fn a_contradicted_core_goes_on(rt: HostRuntime) -> Result<(), Fail> {
    let core = core_with(rt.alloc(), &[(0, 1), (1, 2), (4, 4)])?;
    let mut core = check_none(&rt, rt.alloc(), core, false)?;
    assert!(rt; take(&mut core, 3, 5) == Arrival::Fresh);
    assert!(rt; core.fresh() == [2, 5, 6].as_slice());
    assert!(rt; core.known_count() == 7);
    assert!(rt; take(&mut core, 3, 6) == (Arrival::Repeat { same: false }));
    check_none(&rt, rt.alloc(), core, true)?;
    Ok(())
}

// No codeword fits what arrived at the core, which peeling sees or not. It is given back.
fn check_none(rt: &impl Abort, alloc: Global, core: Core, clashed: bool) -> Result<Core, NoMemory>
    ensures { IfOk result (λ back. back ≡ core) }
{
    assert!(rt; core.clashed() == clashed);
    match core.finish(alloc).map_err(|refused| refused.1)? {
        Verdict::NoCodeword(core) => Ok(core),
        _ => panic!(rt; "some codeword fits"),
    }
}

// What arrived at the core leaves the source open, as this null word shows. It is given back.
fn check_open(rt: &impl Abort, alloc: Global, core: Core, word: &[u32]) -> Result<Core, NoMemory>
    ensures { IfOk result (λ back. back ≡ core) }
{
    match core.finish(alloc).map_err(|refused| refused.1)? {
        Verdict::Undetermined(core, found) => {
            assert!(rt; found.positions() == word);
            Ok(core)
        }
        _ => panic!(rt; "not undetermined"),
    }
}
