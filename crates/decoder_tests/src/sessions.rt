ghost use Rattle.std.specs.Prelude.{◌<◌, nat_lt, IfOk, IsTrue};
ghost use Rattle.std.specs.List.{list_all};
ghost use Rattle.decoder_tests.specs.Small.{IsThreeOfSeven};

use crate::codes::staircase;
use crate::decoders::{check_source, check_told};
use fec_base::{ListWatch, NoMemory, Steps, Tally};
use fec_session::{Arrival, Session, SessionVerdict, WatchFault};
use std::alloc::Global;
use std::process::Abort;
use std::test::Fail;

#[test]
fn tells_what_each_symbol_makes_known(rt: HostRuntime) -> Result<(), Fail> {
    let mut session = session_with(rt.alloc(), 10)?;
    receive_quietly(&rt, &mut session, &[(3, 5), (4, 3)]);
    assert!(rt; receive(&mut session, 0, 1) == Ok(Arrival::Fresh));
    match session.finish(rt.alloc()).map_err(|refused| refused.1)? {
        SessionVerdict::Block(block, watch) => {
            check_source(&rt, &block, true);
            check_told(&rt, &watch, &[(0, 1, 2), (0, 2, 4), (0, 5, 4), (0, 6, 7)]);
        }
        _ => panic!(rt; "not determined"),
    }
    Ok(())
}

#[test]
fn a_differing_repeat_leaves_no_codeword(rt: HostRuntime) -> Result<(), Fail> {
    let mut session = session_with(rt.alloc(), 10)?;
    receive_quietly(&rt, &mut session, &[(3, 5), (4, 3)]);
    assert!(rt; receive(&mut session, 0, 1) == Ok(Arrival::Fresh));
    assert!(rt; receive(&mut session, 1, 3) == Ok(Arrival::Repeat { same: false }));
    match session.finish(rt.alloc()).map_err(|refused| refused.1)? {
        SessionVerdict::NoCodeword(session) => check_told(
            &rt,
            &session.close(),
            &[(0, 1, 2), (0, 2, 4), (0, 5, 4), (0, 6, 7)],
        ),
        _ => panic!(rt; "some codeword fits"),
    }
    Ok(())
}

#[test]
fn a_watch_fault_keeps_the_symbol(rt: HostRuntime) -> Result<(), Fail> {
    let mut session = session_with(rt.alloc(), 2)?;
    receive_quietly(&rt, &mut session, &[(3, 5), (4, 3)]);
    assert!(rt; receive(&mut session, 0, 1) == Err(WatchFault { told: 2 }));
    match session.finish(rt.alloc()).map_err(|refused| refused.1)? {
        SessionVerdict::Block(block, watch) => {
            check_source(&rt, &block, true);
            check_told(&rt, &watch, &[(0, 1, 2), (0, 2, 4)]);
        }
        _ => panic!(rt; "not determined"),
    }
    Ok(())
}

// A session of block 0 whose watch has room for so many symbols.
fn session_with(alloc: Global, places: u32) -> Result<Session<ListWatch>, NoMemory>
    ensures { IfOk result (λ session. IsThreeOfSeven session.core) }
{
    let code = staircase(alloc)?;
    let watch = ListWatch::new(alloc, places, 100)?;
    Session::new(alloc, code, 1, 0, watch).map_err(|refused| refused.2)
}

// The session receives one symbol of one byte.
fn receive(session: &mut Session<ListWatch>, position: u32, byte: u8) -> Result<Arrival, WatchFault>
    requires position { position < 7 }
    requires session { IsThreeOfSeven session.old.core }
    ensures { IsThreeOfSeven session.new.core }
{
    let mut steps = Steps::<Tally>::start();
    session.receive(position, &[byte], &mut steps)
}

// The session receives these symbols of one byte, which are fresh and make nothing else known.
fn receive_quietly(rt: &impl Abort, session: &mut Session<ListWatch>, symbols: &[(u32, u8)])
    requires positions { IsTrue (list_all (λ s. nat_lt s.0 7) symbols.now) }
    requires session { IsThreeOfSeven session.old.core }
    ensures { IsThreeOfSeven session.new.core }
{
    for (position, byte) in symbols {
        assert!(rt; receive(session, *position, *byte) == Ok(Arrival::Fresh));
        assert!(rt; session.core().fresh().is_empty());
    }
}
