// A large block, decoded a hundred times. A decoder that goes over the whole matrix at each arrival
// would take hours.
ghost use Rattle.std.specs.Prelude.{◌≡◌, length, IfOk};

use fec_base::{NoMemory, Steps, Tally};
use fec_session::Core;
use park_miller::ParkMiller;
use sparse_rows::Code;
use staircase::staircase;
use std::alloc::Global;
use std::test::Fail;

#[test]
fn a_hundred_large_blocks_are_peeled(rt: HostRuntime) -> Result<(), Fail> {
    let alloc = rt.alloc();
    let built = staircase(alloc, 20_000, 30_000, 3, 1, 66_000)?;
    let mut order = positions(alloc, 30_000)?;
    ParkMiller::new(1).unwrap().shuffle(&mut order);
    for _ in 0..100 {
        let code = built.code.copy(alloc)?;
        assert!(rt; is_peeled(alloc, code, &order)?);
    }
    Ok(())
}

// The positions of a code, rising.
fn positions(alloc: Global, n: u32) -> Result<Vec<u32>, NoMemory>
    ensures { IfOk result (λ order. length order.items ≡ n) }
{
    let mut order = Vec::new(alloc);
    for e in 0..n {
        order.push(e)?;
    }
    Ok(order)
}

// Whether peeling makes all source symbols of zero bytes known, when those at these positions come.
fn is_peeled(alloc: Global, code: Code, order: &[u32]) -> Result<bool, NoMemory> {
    match Core::new(alloc, code, 16) {
        Ok(mut core) => {
            take_all(&mut core, order);
            Ok(core.has_all_source() && !core.clashed())
        }
        Err((_code, refused)) => Err(refused),
    }
}

// Takes in sixteen zero bytes for each of the positions.
fn take_all(core: &mut Core, order: &[u32])
    requires { core.old.len ≡ 16 }
{
    for e in order {
        take_zeros(core, *e);
    }
}

// Takes in sixteen zero bytes.
fn take_zeros(core: &mut Core, e: u32)
    requires { core.old.len ≡ 16 }
    ensures { core.new.len ≡ 16 }
{
    if e < core.code().n() {
        let _ = core.arrive(e, &[0; 16], &mut Steps::<Tally>::start());
    }
}
