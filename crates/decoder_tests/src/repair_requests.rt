use crate::decoders::{core_with, take};
use fec_base::NoMemory;
use fec_session::{Core, Verdict};
use repair_request::{Positions, Request, request};
use std::alloc::Global;
use std::process::Abort;
use std::test::Fail;

#[test]
fn fewest_positions_of_a_small_code(rt: HostRuntime) -> Result<(), Fail> {
    // What arrived, and what is asked for.
    let cases: [(&[(u32, u8)], &[u32]); 6] = [
        (&[], &[3, 5, 6]),
        (&[(3, 5)], &[5, 6]),
        (&[(3, 5), (4, 3)], &[6]),
        (&[(5, 4), (6, 7)], &[3]),
        (&[(2, 4), (2, 4)], &[3, 6]),
        (&[(3, 5), (4, 3), (5, 4), (6, 7)], &[]),
    ];
    for (arrivals, expected) in cases {
        let core = core_with(rt.alloc(), arrivals)?;
        let asked = asked(&rt, rt.alloc(), &core)?;
        assert!(rt; asked.as_slice() == expected);
    }
    Ok(())
}

#[test]
fn what_is_asked_for_determines_the_block(rt: HostRuntime) -> Result<(), Fail> {
    let mut core = core_with(rt.alloc(), &[(5, 4), (6, 7)])?;
    take(&mut core, 3, 5);
    match core.finish(rt.alloc()) {
        Ok(verdict) => assert!(rt; matches!(verdict, Verdict::Block(_))),
        Err((_, refused)) => return Err(refused.into()),
    }
    Ok(())
}

#[test]
fn nothing_is_asked_for_where_no_codeword_fits(rt: HostRuntime) -> Result<(), Fail> {
    // Peeling sees the first contradiction, and elimination alone the second.
    let cases: [&[(u32, u8)]; 2] = [
        &[(3, 5), (4, 3), (0, 1), (1, 3)],
        &[(3, 5), (4, 3), (5, 4), (6, 6)],
    ];
    for arrivals in cases {
        let core = core_with(rt.alloc(), arrivals)?;
        assert!(rt; matches!(request(rt.alloc(), &core)?, Request::NoCodeword));
    }
    Ok(())
}

// What is asked for, where some codeword fits.
fn asked(rt: &impl Abort, alloc: Global, core: &Core) -> Result<Positions, NoMemory> {
    match request(alloc, core)? {
        Request::Symbols(positions) => Ok(positions),
        Request::NoCodeword => panic!(rt; "no codeword fits"),
    }
}
