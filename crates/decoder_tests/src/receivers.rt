ghost use Rattle.std.specs.Prelude.{◌<◌, nat_lt, IfOk, IsTrue};
ghost use Rattle.std.specs.List.{list_all};
ghost use Rattle.decoder_tests.specs.Small.{AreSmall, AreSmallCodes, IsSmallCode};

use crate::codes::code_of;
use crate::decoders::check_told;
use fec_base::{ListWatch, NoMemory, Steps, Tally, Watch};
use fec_session::{Outcome, Receiver};
use sparse_rows::Code;
use std::alloc::Global;
use std::process::Abort;
use std::test::Fail;

#[test]
fn nothing_is_known_where_nothing_arrived(rt: HostRuntime) -> Result<(), Fail> {
    let watch = ListWatch::new(rt.alloc(), 10, 10)?;
    let receiver = receiver_with(rt.alloc(), watch)?;
    assert!(rt; !receiver.all_source_known());
    let finished = receiver
        .finish_all(rt.alloc())
        .map_err(|refused| refused.1)?;
    assert!(rt; finished.count() == 3);
    for i in 0..3 {
        match finished.outcome(i) {
            Outcome::Undetermined(word) => assert!(rt; word.positions() == [0, 1].as_slice()),
            _ => panic!(rt; "block {i} is not undetermined"),
        }
    }
    Ok(())
}

#[test]
fn each_block_comes_out_by_its_own_symbols(rt: HostRuntime) -> Result<(), Fail> {
    let watch: Box<dyn Watch> = Box::new(rt.alloc(), ListWatch::new(rt.alloc(), 10, 10)?)?;
    let mut receiver = receiver_with(rt.alloc(), watch)?;
    let symbols = [(1, 0, 1), (2, 0, 1), (1, 1, 2), (2, 0, 2), (1, 3, 7)];
    accept_all(&rt, &mut receiver, &symbols);
    assert!(rt; !receiver.all_source_known());
    let finished = receiver
        .finish_all(rt.alloc())
        .map_err(|refused| refused.1)?;
    assert!(rt; finished.count() == 3);
    assert!(rt; matches!(finished.outcome(0), Outcome::Undetermined(_)));
    match finished.outcome(1) {
        Outcome::Block(block) => assert!(rt; block.by_peeling()),
        _ => panic!(rt; "block 1 is not determined"),
    }
    assert!(rt; matches!(finished.outcome(2), Outcome::NoCodeword));
    check_told(&rt, &finished.into_watch(), &[(1, 2, 4)]);
    Ok(())
}

#[test]
fn source_is_known_once_the_last_block_is_whole(rt: HostRuntime) -> Result<(), Fail> {
    let watch = ListWatch::new(rt.alloc(), 10, 10)?;
    let mut receiver = receiver_with(rt.alloc(), watch)?;
    accept_all(
        &rt,
        &mut receiver,
        &[(0, 0, 1), (0, 1, 2), (0, 2, 3), (0, 3, 4)],
    );
    accept_all(&rt, &mut receiver, &[(2, 0, 1), (2, 1, 2), (2, 2, 3)]);
    assert!(rt; !receiver.all_source_known());
    accept_all(&rt, &mut receiver, &[(1, 0, 1), (1, 1, 2), (1, 2, 3)]);
    assert!(rt; receiver.all_source_known());
    Ok(())
}

fn receiver_with<W: Watch>(alloc: Global, watch: W) -> Result<Receiver<W>, NoMemory>
    ensures { IfOk result (λ receiver. AreSmall receiver.cores) }
{
    let codes = three_codes(alloc)?;
    match Receiver::new(alloc, codes, 1, watch) {
        Ok(receiver) => Ok(receiver),
        Err((_, refused)) => Err(refused),
    }
}

// Four, three and three source symbols, with two repair symbols, one and one.
fn three_codes(alloc: Global) -> Result<Vec<Code>, NoMemory>
    ensures { IfOk result (λ codes. AreSmallCodes codes.items) }
{
    let mut codes = Vec::with_capacity(alloc, 3)?;
    codes.push(four_and_two(alloc)?)?;
    codes.push(three_and_one(alloc)?)?;
    codes.push(three_and_one(alloc)?)?;
    Ok(codes)
}

fn four_and_two(alloc: Global) -> Result<Code, NoMemory>
    ensures { IfOk result IsSmallCode }
{
    let sums = [
        (0, 0),
        (0, 1),
        (0, 2),
        (0, 3),
        (0, 4),
        (1, 0),
        (1, 1),
        (1, 2),
        (1, 3),
        (1, 4),
        (1, 5),
    ];
    code_of(alloc, 4, 6, &sums)
}

fn three_and_one(alloc: Global) -> Result<Code, NoMemory>
    ensures { IfOk result IsSmallCode }
{
    code_of(alloc, 3, 4, &[(0, 0), (0, 1), (0, 2), (0, 3)])
}

// The receiver accepts these symbols of one byte, each with its block and position.
fn accept_all<W: Watch>(rt: &impl Abort, receiver: &mut Receiver<W>, symbols: &[(u32, u32, u8)])
    requires blocks { IsTrue (list_all (λ s. nat_lt s.0 3) symbols.now) }
    requires positions { IsTrue (list_all (λ s. nat_lt s.1 4) symbols.now) }
    requires small { AreSmall receiver.old.cores }
    ensures { AreSmall receiver.new.cores }
{
    let mut steps = Steps::<Tally>::start();
    for (block, position, byte) in symbols {
        assert!(rt;
            receiver
                .accept(*block, *position, &[*byte], &mut steps)
                .is_ok()
        );
    }
}
