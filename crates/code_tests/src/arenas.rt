ghost use Rattle.std.specs.Prelude.{◌≡◌, ◌≤◌, length, IfOk};

use fec_base::{NoMemory, Steps, Tally};
use std::alloc::Global;
use std::process::Abort;
use std::test::Fail;
use symbol_arena::Arena;

// Lengths beside those of lanes.
const LENGTHS: [u32; 10] = [1, 16, 17, 31, 32, 33, 63, 64, 65, 65535];

// The bytes 0, 1, 2 .. modulo 251, so that each lane differs from the one before.
fn counting(alloc: Global, len: usize) -> Result<Vec<u8>, NoMemory>
    requires { len ≤ 65535 }
    ensures { IfOk result (λ bytes. length bytes.items ≡ len) }
{
    let mut bytes = vec![in alloc; 0u8; len]?;
    for i in 0..len {
        bytes[i] = (i % 251) as u8;
    }
    Ok(bytes)
}

// Each byte of a symbol is kept, and the symbols beside it stay zero.
fn check_kept(rt: &impl Abort, alloc: Global, len: u32) -> Result<(), NoMemory>
    requires some { 1 ≤ len }
    requires most { len ≤ 65535 }
{
    let mut arena = Arena::new(alloc, 3, len)?;
    let bytes = counting(alloc, len as usize)?;
    arena.put(1, &bytes);
    assert!(rt; arena.get(1) == bytes.as_slice());
    assert!(rt; arena.is_zero(0) && arena.is_zero(2));
    Ok(())
}

// Each byte of a symbol is added to zeros and copied, and cancels out when it is added again.
fn check_added(rt: &impl Abort, alloc: Global, len: u32) -> Result<(), NoMemory>
    requires some { 1 ≤ len }
    requires most { len ≤ 65535 }
{
    let mut arena = Arena::new(alloc, 3, len)?;
    let mut steps = Steps::<Tally>::start();
    let bytes = counting(alloc, len as usize)?;
    arena.put(0, &bytes);
    arena.add(1, 0, &mut steps);
    arena.copy(2, 1);
    assert!(rt; arena.get(2) == bytes.as_slice());
    arena.add(2, 0, &mut steps);
    assert!(rt; arena.is_zero(2));
    Ok(())
}

// Many symbols are added to one, one of them twice: it cancels out.
fn check_sum(rt: &impl Abort, alloc: Global, len: u32) -> Result<(), NoMemory>
    requires some { 1 ≤ len }
    requires most { len ≤ 65535 }
{
    let mut arena = Arena::new(alloc, 4, len)?;
    let bytes = counting(alloc, len as usize)?;
    let ones = vec![in alloc; 0xffu8; len as usize]?;
    arena.put(1, &bytes);
    arena.put(3, &ones);
    arena.add_all(2, &[1, 3, 1, 0], &mut Steps::<Tally>::start());
    assert!(rt; arena.get(2) == ones.as_slice());
    Ok(())
}

#[test]
fn keeps_adds_and_copies_at_each_length(rt: HostRuntime) -> Result<(), Fail> {
    for len in LENGTHS {
        check_kept(&rt, rt.alloc(), len)?;
        check_added(&rt, rt.alloc(), len)?;
        check_sum(&rt, rt.alloc(), len)?;
    }
    Ok(())
}

// Of many symbols the last is kept, and the one before it stays zero.
fn check_last(rt: &impl Abort, alloc: Global, count: u32, len: u32) -> Result<(), NoMemory>
    requires few { 2 ≤ count }
    requires many { count ≤ 131072 }
    requires some { 1 ≤ len }
    requires most { len ≤ 65535 }
{
    let mut arena = Arena::new(alloc, count, len)?;
    let bytes = counting(alloc, len as usize)?;
    arena.put(count - 1, &bytes);
    assert!(rt; arena.get(count - 1) == bytes.as_slice());
    assert!(rt; arena.is_zero(count - 2));
    Ok(())
}

#[test]
fn takes_no_symbols_and_many(rt: HostRuntime) -> Result<(), Fail> {
    let _none = Arena::new(rt.alloc(), 0, 1)?;
    check_last(&rt, rt.alloc(), 131_072, 2)?;
    check_last(&rt, rt.alloc(), 2, 65_535)?;
    Ok(())
}
