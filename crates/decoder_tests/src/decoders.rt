// What the tests of the decoders share. The source 01 02 04 has the codeword 01 02 04 05 03 04 07.
ghost use Rattle.std.specs.Prelude.{◌<◌, ◌≤◌, nat_lt, length, IfOk, IsTrue};
ghost use Rattle.std.specs.List.{list_all};
ghost use Rattle.decoder_tests.specs.Small.{IsThreeOfSeven};

use crate::codes::staircase;
use fec_base::{NoMemory, Place, Steps, Tally, Watch};
use fec_session::{Arrival, Core, SourceBlock};
use std::alloc::Global;
use std::process::Abort;

// A core of that code which took these symbols of one byte.
pub(crate) fn core_with(alloc: Global, arrivals: &[(u32, u8)]) -> Result<Core, NoMemory>
    requires { IsTrue (list_all (λ a. nat_lt a.0 7) arrivals.now) }
    ensures { IfOk result IsThreeOfSeven }
{
    let code = staircase(alloc)?;
    let mut core = Core::new(alloc, code, 1).map_err(|refused| refused.1)?;
    take_all(&mut core, arrivals);
    Ok(core)
}

// The core takes these symbols of one byte.
pub(crate) fn take_all(core: &mut Core, arrivals: &[(u32, u8)])
    requires positions { IsTrue (list_all (λ a. nat_lt a.0 7) arrivals.now) }
    requires core { IsThreeOfSeven core.old }
    ensures { IsThreeOfSeven core.new }
{
    for (position, byte) in arrivals {
        take(core, *position, *byte);
    }
}

// The core takes one symbol of one byte.
pub(crate) fn take(core: &mut Core, position: u32, byte: u8) -> Arrival
    requires position { position < 7 }
    requires core { IsThreeOfSeven core.old }
    ensures { IsThreeOfSeven core.new }
{
    let mut steps = Steps::<Tally>::start();
    core.arrive(position, &[byte], &mut steps)
}

// The block's symbols are 01 02 04.
pub(crate) fn check_source(rt: &impl Abort, block: &SourceBlock, by_peeling: bool)
    requires { 3 ≤ length block.now.source }
{
    for (e, byte) in [1, 2, 4].iter().enumerate() {
        assert!(rt; block.symbol(e as u32) == [*byte].as_slice());
    }
    assert!(rt; block.by_peeling() == by_peeling);
}

// The watch was told of these symbols of one byte, and of no others.
pub(crate) fn check_told(rt: &impl Abort, watch: &impl Watch, told: &[(u32, u32, u8)]) {
    assert!(rt; watch.told_count() as usize == told.len());
    for (i, (block, esi, byte)) in told.iter().enumerate() {
        let place = Place {
            block: *block,
            esi: *esi,
        };
        assert!(rt; watch.told_place(i as u32) == Some(place));
        assert!(rt; watch.told_bytes(i as u32) == [*byte].as_slice());
    }
}
