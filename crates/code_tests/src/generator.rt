use park_miller::{BadSeed, Draws, Over, ParkMiller};
use std::test::Fail;

// The states after the first fifteen steps from the seed 1.
const STATES: [u32; 15] = [
    16_807,
    282_475_249,
    1_622_650_073,
    984_943_658,
    1_144_108_930,
    470_211_272,
    101_027_544,
    1_457_850_878,
    1_458_777_923,
    2_007_237_709,
    823_564_440,
    1_115_438_165,
    1_784_484_492,
    74_243_042,
    114_807_987,
];

#[test]
fn steps_through_known_states(rt: HostRuntime) -> Result<(), Fail> {
    let mut generator = ParkMiller::new(1)?;
    for state in STATES {
        generator.draw(1);
        assert!(rt; generator.state() == state);
    }
    Ok(())
}

// The check of an implementation that RFC 5170, section 5.7, gives.
#[test]
fn reaches_the_ten_thousandth_state(rt: HostRuntime) -> Result<(), Fail> {
    let mut generator = ParkMiller::new(1)?;
    for _ in 0..10_000 {
        generator.draw(1);
    }
    assert!(rt; generator.state() == 1_043_618_065);
    Ok(())
}

#[test]
fn refuses_seeds_that_are_no_state(rt: HostRuntime) -> Result<(), Fail> {
    assert!(rt; ParkMiller::new(0) == Err(BadSeed));
    assert!(rt; ParkMiller::new(2_147_483_647) == Err(BadSeed));
    assert!(rt; ParkMiller::new(2_147_483_646)?.state() == 2_147_483_646);
    Ok(())
}

#[test]
fn scales_draws_to_thousandths(rt: HostRuntime) -> Result<(), Fail> {
    let mut generator = ParkMiller::new(1)?;
    for value in [0, 131, 755, 458, 532, 218, 47] {
        assert!(rt; generator.draw(1000) == value);
    }
    let mut generator = ParkMiller::new(7)?;
    for value in [
        0, 920, 289, 210, 729, 532, 329, 752, 755, 542, 684, 635, 816, 242, 374,
    ] {
        assert!(rt; generator.draw(1000) == value);
    }
    Ok(())
}

#[test]
fn shuffles_after_other_draws(rt: HostRuntime) -> Result<(), Fail> {
    let mut generator = ParkMiller::new(1)?;
    for byte in [0x00, 0x21, 0xc1] {
        assert!(rt; generator.draw(256) == byte);
    }
    let mut order = [0, 1, 2, 3, 4, 5, 6];
    generator.shuffle(&mut order);
    assert!(rt; order == [5, 4, 2, 0, 1, 6, 3]);
    Ok(())
}

#[test]
fn stops_at_the_limit(rt: HostRuntime) -> Result<(), Fail> {
    let mut draws = Draws::new(ParkMiller::new(1)?, 2);
    assert!(rt; draws.draw(1000) == Ok(0));
    assert!(rt; draws.draw(1000) == Ok(131));
    assert!(rt; draws.draw(1000) == Err(Over));
    assert!(rt; draws.used() == 2);
    assert!(rt; draws.into_generator().draw(1000) == 755);
    Ok(())
}
