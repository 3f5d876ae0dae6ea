ghost use Rattle.std.specs.Prelude.{◌≡◌, ◌≢◌, ◌≤◌, ◌<◌, ◌+◌, ℕ, [], length, IfOk};
ghost use Rattle.gauss.specs.Filling.{equation_at};

use fec_base::NoMemory;
use gauss::{Answer, Equations, Reduced, Reduction, Values, reduce, solve};
use std::alloc::Global;
use std::test::Fail;

fn byte_of(number: u32) -> u8 {
    (number % 256) as u8
}

// Makes equation r, which has no unknown, that of the unknowns from `first` to before `end`.
fn put_equation(eqs: &mut Equations, r: u32, first: u32, end: u32, sum: &[u8])
    requires equation { r < length eqs.old.equations }
    requires end { end ≤ eqs.old.unknowns }
    requires empty { (equation_at eqs.old r).unknowns ≡ [] }
    requires len { length sum.now ≡ eqs.old.len }
    ensures unknowns { eqs.new.unknowns ≡ eqs.old.unknowns }
    ensures len { eqs.new.len ≡ eqs.old.len }
    ensures count { length eqs.new.equations ≡ length eqs.old.equations }
    ensures others { (j : ℕ) → j ≢ r → equation_at eqs.new j ≡ equation_at eqs.old j }
{
    for unknown in first..end {
        eqs.add_column(r, unknown);
    }
    eqs.set_sum(r, sum);
}

// So many equations in u unknowns of one byte. Of the first `rows` of them, number i is of the
// unknowns from i to before i + width, with the sum i where the width is 1, and else zero.
fn band(
    alloc: Global,
    unknowns: u32,
    equations: u32,
    rows: u32,
    width: u32,
) -> Result<Equations, NoMemory>
    requires unknowns { unknowns ≤ 65536 }
    requires equations { equations ≤ 65536 }
    requires rows { rows ≤ equations }
    requires width { rows + width ≤ unknowns + 1 }
    ensures unknowns { IfOk result (λ eqs. eqs.unknowns ≡ unknowns) }
    ensures len { IfOk result (λ eqs. eqs.len ≡ 1) }
    ensures count { IfOk result (λ eqs. length eqs.equations ≡ equations) }
    ensures empty { (j : ℕ) → rows ≤ j → IfOk result (λ eqs. (equation_at eqs j).unknowns ≡ []) }
{
    let mut eqs = Equations::new(alloc, unknowns, equations, 1)?;
    for i in 0..rows {
        let sum = if width == 1 { byte_of(i) } else { 0 };
        put_equation(&mut eqs, i, i, i + width, &[sum]);
    }
    Ok(eqs)
}

// Whether the equations give each unknown its own number.
fn gives_numbers(alloc: Global, eqs: Equations, unknowns: u32) -> Result<bool, NoMemory>
    requires { eqs.unknowns ≡ unknowns }
{
    match solve(alloc, eqs)? {
        Answer::One(values) => Ok(are_numbers(&values, unknowns)),
        _ => Ok(false),
    }
}

// Whether value i is i, for all of them.
fn are_numbers(values: &Values, unknowns: u32) -> bool
    requires { length values.now ≡ unknowns }
{
    for i in 0..unknowns {
        if values.symbol(i) != [byte_of(i)].as_slice() {
            return false;
        }
    }
    true
}

// Whether the answer is the null set of the unknowns from `first` to before `end`.
fn is_null_from(answer: &Answer, first: u32, end: u32) -> bool {
    match answer {
        Answer::Free(set) => set.positions().iter().copied().eq(first..end),
        _ => false,
    }
}

const SIZES: [u32; 6] = [1, 63, 64, 65, 128, 129];

#[test]
fn an_equation_for_each_unknown_gives_it(rt: HostRuntime) -> Result<(), Fail> {
    for u in SIZES {
        let eqs = band(rt.alloc(), u, u, u, 1)?;
        assert!(rt; gives_numbers(rt.alloc(), eqs, u)?);
    }
    Ok(())
}

#[test]
fn an_unknown_without_an_equation_is_free(rt: HostRuntime) -> Result<(), Fail> {
    for u in SIZES {
        let answer = solve(rt.alloc(), band(rt.alloc(), u, u - 1, u - 1, 1)?)?;
        assert!(rt; is_null_from(&answer, u - 1, u));
        let answer = solve(rt.alloc(), band(rt.alloc(), u, 0, 0, 1)?)?;
        assert!(rt; is_null_from(&answer, 0, 1));
    }
    Ok(())
}

#[test]
fn neighbours_that_are_equal_are_free_together(rt: HostRuntime) -> Result<(), Fail> {
    for u in SIZES {
        let answer = solve(rt.alloc(), band(rt.alloc(), u, u - 1, u - 1, 2)?)?;
        assert!(rt; is_null_from(&answer, 0, u));
    }
    Ok(())
}

// The sum of the bytes of the numbers below u.
fn sum_below(u: u32) -> u8 {
    let mut sum = 0;
    for i in 0..u {
        sum ^= byte_of(i);
    }
    sum
}

#[test]
fn an_equation_too_many_agrees(rt: HostRuntime) -> Result<(), Fail> {
    for u in SIZES {
        let mut eqs = band(rt.alloc(), u, u + 1, u, 1)?;
        put_equation(&mut eqs, u, 0, u, &[sum_below(u)]);
        assert!(rt; gives_numbers(rt.alloc(), eqs, u)?);
    }
    Ok(())
}

// An equation for each unknown, and another sum for unknown 0.
fn contradiction(alloc: Global, u: u32) -> Result<Equations, NoMemory>
    requires some { 1 ≤ u }
    requires few { u ≤ 65535 }
{
    let mut eqs = band(alloc, u, u + 1, u, 1)?;
    put_equation(&mut eqs, u, 0, 1, &[1]);
    Ok(eqs)
}

#[test]
fn an_equation_too_many_clashes(rt: HostRuntime) -> Result<(), Fail> {
    for u in SIZES {
        let answer = solve(rt.alloc(), contradiction(rt.alloc(), u)?)?;
        assert!(rt; matches!(answer, Answer::Clash));
    }
    Ok(())
}

// Unknown 0 is 7 in each byte, and the sum of both unknowns is 1.
fn pair(alloc: Global, len: u32) -> Result<Equations, NoMemory>
    requires some { 1 ≤ len }
    requires most { len ≤ 65535 }
    ensures { IfOk result (λ eqs. eqs.unknowns ≡ 2) }
{
    let mut eqs = Equations::new(alloc, 2, 2, len)?;
    let sum = vec![in alloc; 7u8; len as usize]?;
    put_equation(&mut eqs, 0, 0, 1, &sum);
    let sum = vec![in alloc; 1u8; len as usize]?;
    put_equation(&mut eqs, 1, 0, 2, &sum);
    Ok(eqs)
}

// Whether the symbol is so many of this byte.
fn is_filled(symbol: &[u8], byte: u8, len: u32) -> bool {
    for b in symbol {
        if *b != byte {
            return false;
        }
    }
    symbol.len() == len as usize
}

// Whether the pair of equations gives 7 in each byte of unknown 0, and 6 in each of unknown 1.
fn gives_pair(alloc: Global, len: u32) -> Result<bool, NoMemory>
    requires some { 1 ≤ len }
    requires most { len ≤ 65535 }
{
    match solve(alloc, pair(alloc, len)?)? {
        Answer::One(values) => {
            Ok(is_filled(values.symbol(0), 7, len) && is_filled(values.symbol(1), 6, len))
        }
        _ => Ok(false),
    }
}

#[test]
fn symbols_longer_than_a_tile_are_solved(rt: HostRuntime) -> Result<(), Fail> {
    for len in [1, 511, 512, 513, 1_030] {
        assert!(rt; gives_pair(rt.alloc(), len)?);
    }
    Ok(())
}

// Whether unknown c is in the first of two null sets where the last unknown isn't 0, 3, 6 .. behind
// it, and in the second where it isn't 1, 4, 7 .. behind it.
fn is_of_threes(form: &Reduced, unknowns: u32) -> bool
    requires { length form.now.symbols ≡ unknowns }
{
    if form.sets() != 2 {
        return false;
    }
    for c in 0..unknowns {
        let behind = (unknowns - 1 - c) % 3;
        if form.holds(0, c) == (behind == 0) || form.holds(1, c) == (behind == 1) {
            return false;
        }
        let first = if behind == 0 { 1 } else { 0 };
        if form.first_with(c) != Some(first) || form.symbol(c).is_some() {
            return false;
        }
    }
    true
}

// Whether null set i is that of the unknowns that it holds.
fn is_listed(alloc: Global, form: &Reduced, i: u32, unknowns: u32) -> Result<bool, NoMemory>
    requires set { i < length form.now.sets }
    requires unknowns { length form.now.symbols ≡ unknowns }
{
    let set = form.null_set(alloc, i)?;
    for c in 0..unknowns {
        if set.positions().contains(&c) != form.holds(i, c) {
            return Ok(false);
        }
    }
    Ok(true)
}

// Whether the equations have the null sets that three neighbours that sum to zero have.
fn has_threes(alloc: Global, eqs: Equations, unknowns: u32) -> Result<bool, NoMemory>
    requires { eqs.unknowns ≡ unknowns }
{
    let Reduction::Reduced(form) = reduce(alloc, eqs)? else {
        return Ok(false);
    };
    if !is_of_threes(&form, unknowns) {
        return Ok(false);
    }
    for i in 0..form.sets() {
        if !is_listed(alloc, &form, i, unknowns)? {
            return Ok(false);
        }
    }
    Ok(true)
}

#[test]
fn three_neighbours_that_sum_to_zero_leave_two_null_sets(rt: HostRuntime) -> Result<(), Fail> {
    for u in [6, 64, 66, 129] {
        let eqs = band(rt.alloc(), u, u - 2, u - 2, 3)?;
        assert!(rt; has_threes(rt.alloc(), eqs, u)?);
    }
    Ok(())
}

// Whether each unknown below the last one is its own number, and the last one is open.
fn is_open_at_the_end(form: &Reduced, unknowns: u32) -> bool
    requires { length form.now.symbols ≡ unknowns }
{
    if form.sets() != 1 {
        return false;
    }
    for c in 0..unknowns {
        if form.holds(0, c) != (c == unknowns - 1) {
            return false;
        }
        match form.symbol(c) {
            Some(symbol) => {
                if c == unknowns - 1 || symbol != [byte_of(c)].as_slice() {
                    return false;
                }
            }
            None => {
                if c < unknowns - 1 {
                    return false;
                }
            }
        }
    }
    true
}

// Whether the equations give each unknown but the last one.
fn gives_all_but_one(alloc: Global, eqs: Equations, unknowns: u32) -> Result<bool, NoMemory>
    requires { eqs.unknowns ≡ unknowns }
{
    match reduce(alloc, eqs)? {
        Reduction::Clash => Ok(false),
        Reduction::Reduced(form) => Ok(is_open_at_the_end(&form, unknowns)),
    }
}

#[test]
fn unknowns_with_an_equation_are_fixed_beside_one_without(rt: HostRuntime) -> Result<(), Fail> {
    for u in SIZES {
        let eqs = band(rt.alloc(), u, u - 1, u - 1, 1)?;
        assert!(rt; gives_all_but_one(rt.alloc(), eqs, u)?);
    }
    Ok(())
}

#[test]
fn a_contradiction_has_no_reduced_form(rt: HostRuntime) -> Result<(), Fail> {
    for u in SIZES {
        let reduction = reduce(rt.alloc(), contradiction(rt.alloc(), u)?)?;
        assert!(rt; matches!(reduction, Reduction::Clash));
    }
    Ok(())
}
