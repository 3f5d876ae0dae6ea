ghost use Rattle.std.specs.Prelude.{◌<◌, length};
ghost use Rattle.loss_patterns.specs.Ranges.{IsLoss};

use loss_patterns::{Loss, LossKind, order, read_loss};
use park_miller::ParkMiller;
use std::process::Abort;
use std::test::Fail;

#[test]
fn losses_are_read(rt: HostRuntime) {
    assert!(rt; read_loss("none") == Some(LossKind::None));
    assert!(rt; read_loss("first:0") == Some(LossKind::First(0)));
    assert!(rt; read_loss("first:16777216") == Some(LossKind::First(16_777_216)));
    assert!(rt; read_loss("even:200") == Some(LossKind::Even(200)));
    assert!(rt; read_loss("burst:0:1000") == Some(LossKind::Burst(0, 1000)));
}

#[test]
fn other_texts_are_no_losses(rt: HostRuntime) {
    for text in [
        "",
        "None",
        "none:",
        "first",
        "first:",
        "first:16777217",
        "first:01",
        "first:-1",
        "even:1001",
        "even:1:2",
        "even: 1",
        "burst:1",
        "burst:1:",
        "burst::1",
        "burst:1:1001",
        "burst:1:2:3",
        "late:1",
    ] {
        assert!(rt; read_loss(text) == None);
    }
}

fn check_draws(rt: &impl Abort, seed: u32, wanted: &[u32]) -> Result<(), Fail> {
    let mut generator = ParkMiller::new(seed)?;
    for value in wanted {
        assert!(rt; generator.draw(1000) == *value);
    }
    Ok(())
}

#[test]
fn the_draws_of_the_first_packets(rt: HostRuntime) -> Result<(), Fail> {
    check_draws(&rt, 1, &[0, 131, 755, 458, 532, 218, 47])?;
    check_draws(
        &rt,
        7,
        &[
            0, 920, 289, 210, 729, 532, 329, 752, 755, 542, 684, 635, 816, 242, 374,
        ],
    )?;
    Ok(())
}

// With this seed the loss keeps exactly these packets: a letter for each, `k` where it is kept.
fn check_kept(rt: &impl Abort, kind: LossKind, seed: u32, wanted: &str) -> Result<(), Fail>
    requires in_range { IsLoss kind }
    requires few { length wanted.now < 100 }
{
    let mut generator = ParkMiller::new(seed)?;
    let mut loss = Loss::new(kind);
    for letter in wanted.as_bytes() {
        let is_kept = *letter == b'k';
        assert!(rt; loss.keep(&mut generator) == is_kept);
    }
    Ok(())
}

#[test]
fn packets_are_kept_by_their_draws(rt: HostRuntime) -> Result<(), Fail> {
    check_kept(&rt, LossKind::None, 1, "kkkkkkk")?;
    check_kept(&rt, LossKind::First(3), 1, "---kkkk")?;
    check_kept(&rt, LossKind::Even(500), 1, "--k-k--")?;
    check_kept(&rt, LossKind::Burst(500, 500), 1, "-kk--k-")?;
    check_kept(&rt, LossKind::Even(200), 7, "-kkkkkkkkkkkkkk")?;
    Ok(())
}

#[test]
fn the_order_is_that_of_the_shuffle(rt: HostRuntime) -> Result<(), Fail> {
    let mut generator = ParkMiller::new(1)?;
    for byte in [0x00, 0x21, 0xc1] {
        assert!(rt; generator.draw(256) == byte);
    }
    let list = order(rt.alloc(), 7, &mut generator)?;
    assert!(rt; list.as_slice() == [5, 4, 2, 0, 1, 6, 3].as_slice());
    Ok(())
}
