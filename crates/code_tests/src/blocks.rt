use blocking::{Plan, TooManyBlocks, ldpc_n};
use std::process::Abort;
use std::test::Fail;

// The plan has blocks of these sizes, each with so many encoding symbols.
fn check(rt: &impl Abort, plan: &Plan, b: u32, max_n: u32, sizes: &[(u32, u32)]) {
    assert!(rt; plan.count() as usize == sizes.len());
    let mut start = 0;
    for (i, (k, n)) in sizes.iter().enumerate() {
        assert!(rt; (i as u32) < plan.count());
        assert!(rt; plan.block_len(i as u32) == *k);
        assert!(rt; plan.block_start(i as u32) == start);
        assert!(rt; 1 <= *k && *k <= b && b <= max_n && max_n <= 65_536);
        assert!(rt; ldpc_n(*k, b, max_n) == *n);
        start += *k;
    }
}

#[test]
fn cuts_objects_into_blocks(rt: HostRuntime) -> Result<(), Fail> {
    check(&rt, &Plan::of(0, 1024, 1000)?, 1000, 1500, &[]);
    check(&rt, &Plan::of(1, 1024, 1000)?, 1000, 1500, &[(1, 1)]);
    check(
        &rt,
        &Plan::of(1000, 100, 4)?,
        4,
        6,
        &[(4, 6), (3, 4), (3, 4)],
    );
    check(&rt, &Plan::of(10_000, 1024, 1000)?, 1000, 1500, &[(10, 15)]);
    check(&rt, &Plan::of(7, 1, 3)?, 3, 5, &[(3, 5), (2, 3), (2, 3)]);
    Ok(())
}

#[test]
fn refuses_one_block_too_many(rt: HostRuntime) -> Result<(), Fail> {
    assert!(rt; Plan::of(4096, 1, 1)?.count() == 4096);
    assert!(rt; Plan::of(4097, 1, 1).err() == Some(TooManyBlocks));
    Ok(())
}

#[test]
fn plans_the_greatest_object(rt: HostRuntime) -> Result<(), Fail> {
    let plan = Plan::of(268_435_456, 1024, 1000)?;
    assert!(rt; plan.count() == 263);
    assert!(rt; plan.count() > 262);
    assert!(rt; plan.block_len(0) == 997);
    assert!(rt; plan.block_start(262) + plan.block_len(262) == 262_144);
    Ok(())
}
