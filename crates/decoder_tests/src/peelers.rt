ghost use Rattle.std.specs.Prelude.{◌≡◌, ◌<◌, ◌≤◌, ◌-◌, IfOk, length};

use crate::codes::code_of;
use fec_base::{NoMemory, Steps, Tally};
use peeling::{Arrival, Peeler};
use std::alloc::Global;
use std::process::Abort;
use std::test::Fail;

// Three source and four repair symbols of one byte. The rows are 0 1 3, 1 3 4, 2 4 5 and 0 2 6,
// here as sets of bits, and the word is the codeword of the source 01 02 04.
const ROWS: [u32; 4] = [0b0001011, 0b0011010, 0b0110100, 0b1000101];

const WORD: [u8; 7] = [1, 2, 4, 3, 1, 5, 5];

// The entries of these rows.
const ENTRIES: [(u32, u32); 12] = [
    (0, 0),
    (0, 1),
    (0, 3),
    (1, 1),
    (1, 3),
    (1, 4),
    (2, 2),
    (2, 4),
    (2, 5),
    (3, 0),
    (3, 2),
    (3, 6),
];

fn decoder_of(alloc: Global, len: u32) -> Result<Peeler, NoMemory>
    requires some { 1 ≤ len }
    requires most { len ≤ 65535 }
    ensures n { IfOk result (λ d. d.matrix.n ≡ 7) }
    ensures len { IfOk result (λ d. d.len ≡ len) }
{
    match Peeler::new(alloc, code_of(alloc, 3, 7, &ENTRIES)?, len) {
        Ok(d) => Ok(d),
        Err((_code, refused)) => Err(refused),
    }
}

fn decoder(alloc: Global) -> Result<Peeler, NoMemory>
    ensures n { IfOk result (λ d. d.matrix.n ≡ 7) }
    ensures len { IfOk result (λ d. d.len ≡ 1) }
{
    decoder_of(alloc, 1)
}

fn take_bytes(d: &mut Peeler, e: u32, bytes: &[u8]) -> Arrival
    requires position { e < d.old.matrix.n }
    requires len { length bytes.now ≡ d.old.len }
    ensures code { d.new.matrix ≡ d.old.matrix }
    ensures len { d.new.len ≡ d.old.len }
{
    let mut steps = Steps::<Tally>::start();
    d.arrive(e, bytes, &mut steps)
}

fn take(d: &mut Peeler, e: u32, byte: u8) -> Arrival
    requires position { e < d.old.matrix.n }
    requires len { d.old.len ≡ 1 }
    ensures code { d.new.matrix ≡ d.old.matrix }
    ensures len { d.new.len ≡ d.old.len }
{
    take_bytes(d, e, &[byte])
}

// The closure, by its definition: seven rounds over all rows at once.
fn closure_of(set: u32) -> u32 {
    let mut known = set;
    for _ in 0..7 {
        let mut next = known;
        for row in ROWS {
            let outside = row & !known;
            if outside.count_ones() == 1 {
                next |= outside;
            }
        }
        known = next;
    }
    known
}

// The known positions, and whether each has its byte of the word.
fn known_of(d: &Peeler) -> (u32, bool)
    requires { d.now.matrix.n ≡ 7 }
{
    let mut known = 0;
    let mut right = true;
    for e in 0..7u32 {
        if let Some(bytes) = d.symbol(e) {
            known |= 1 << e;
            right = right && bytes == &WORD[e as usize..e as usize + 1];
        }
    }
    (known, right)
}

fn set_of(positions: &[u32]) -> u32 {
    let mut set = 0;
    for e in positions {
        if *e < 7 {
            set |= 1 << *e;
        }
    }
    set
}

fn check(rt: &impl Abort, d: &Peeler, e: u32, before: u32, arrived: u32)
    requires n { d.now.matrix.n ≡ 7 }
    requires position { e < 7 }
{
    let closure = closure_of(arrived);
    assert!(rt; known_of(d) == (closure, true));
    assert!(rt; set_of(d.fresh()) == closure & !closure_of(before) & !(1 << e));
    assert!(rt; d.known_count() == closure.count_ones());
    assert!(rt; d.arrived_count() == arrived.count_ones());
    assert!(rt; d.has_all_source() == (closure & 0b111 == 0b111));
    assert!(rt; !d.clashed());
}

// The positions of the set arrive in the order 0, step, 2 * step ..
fn check_order(rt: &impl Abort, alloc: Global, set: u32, step: u32) -> Result<(), NoMemory>
    requires { step < 7 }
{
    let mut d = decoder(alloc)?;
    let mut arrived = 0;
    for i in 0..7u32 {
        let e = i * step % 7;
        if set >> e & 1 == 1 {
            let before = arrived;
            arrived |= 1 << e;
            let _ = take(&mut d, e, WORD[e as usize]);
            check(rt, &d, e, before, arrived);
        }
    }
    Ok(())
}

#[test]
fn each_set_of_positions_is_peeled_to_its_closure(rt: HostRuntime) -> Result<(), Fail> {
    for set in 0..128 {
        check_order(&rt, rt.alloc(), set, 1)?;
        check_order(&rt, rt.alloc(), set, 3)?;
        check_order(&rt, rt.alloc(), set, 6)?;
    }
    Ok(())
}

#[test]
fn a_repeat_says_whether_its_bytes_are_kept(rt: HostRuntime) -> Result<(), Fail> {
    let mut d = decoder(rt.alloc())?;
    assert!(rt; take(&mut d, 0, 1) == Arrival::Fresh);
    assert!(rt; take(&mut d, 0, 1) == Arrival::Repeat { same: true });
    assert!(rt; !d.clashed());
    assert!(rt; take(&mut d, 0, 9) == Arrival::Repeat { same: false });
    assert!(rt; d.clashed());
    assert!(rt; known_of(&d) == (1, true));
    assert!(rt; d.arrived_count() == 1);
    Ok(())
}

// Columns 0 and 1 give 3, and 1 and 3 give 4. What was rebuilt arrives then.
#[test]
fn what_was_rebuilt_arrives_as_a_repeat(rt: HostRuntime) -> Result<(), Fail> {
    let mut d = decoder(rt.alloc())?;
    let _ = take(&mut d, 0, 1);
    let _ = take(&mut d, 1, 2);
    assert!(rt; d.fresh() == [3, 4].as_slice());
    assert!(rt; d.arrived_count() == 2);
    assert!(rt; take(&mut d, 4, 1) == Arrival::Repeat { same: true });
    assert!(rt; d.fresh().is_empty());
    assert!(rt; d.arrived_count() == 3);
    assert!(rt; d.known_count() == 4);
    assert!(rt; !d.has_all_source());
    assert!(rt; !d.clashed());
    Ok(())
}

#[test]
fn a_row_that_does_not_sum_to_zero_is_a_contradiction(rt: HostRuntime) -> Result<(), Fail> {
    let mut d = decoder(rt.alloc())?;
    assert!(rt; take(&mut d, 0, 1) == Arrival::Fresh);
    assert!(rt; take(&mut d, 4, 9) == Arrival::Fresh);
    assert!(rt; !d.clashed());
    assert!(rt; take(&mut d, 1, 2) == Arrival::Fresh);
    assert!(rt; d.clashed());
    assert!(rt; take(&mut d, 2, 4) == Arrival::Fresh);
    assert!(rt; d.clashed());
    Ok(())
}

// Row 0 gives symbol 3 as the sum of symbols 0 and 1, each byte of it.
fn check_sum(rt: &impl Abort, alloc: Global, len: u32) -> Result<(), NoMemory>
    requires some { 1 ≤ len }
    requires most { len ≤ 65535 }
{
    let halves = vec![in alloc; 0x0fu8; len as usize]?;
    let ones = vec![in alloc; 0xffu8; len as usize]?;
    let sum = vec![in alloc; 0xf0u8; len as usize]?;
    let mut d = decoder_of(alloc, len)?;
    let _ = take_bytes(&mut d, 0, &halves);
    let _ = take_bytes(&mut d, 1, &ones);
    assert!(rt; d.symbol(3) == Some(sum.as_slice()));
    Ok(())
}

#[test]
fn each_byte_of_a_symbol_is_rebuilt(rt: HostRuntime) -> Result<(), Fail> {
    check_sum(&rt, rt.alloc(), 16)?;
    check_sum(&rt, rt.alloc(), 33)?;
    Ok(())
}
