ghost use Rattle.std.specs.Prelude.{◌≡◌, IfOk};
ghost use Rattle.std.specs.List.Sorted.{IsStrictlyIncreasing};

use crate::codes::staircase;
use crate::null_words::rises;
use clash_proof::{ClashProof, Evidence, RowSet, find, holds};
use fec_base::NoMemory;
use std::alloc::Global;
use std::test::Fail;

// Positions and bytes of the codeword 01 02 04 05 03 04 07, the last of them changed to 06.
const LAST_CHANGED: [(u32, u8); 4] = [(3, 5), (4, 3), (5, 4), (6, 6)];

// What the arrivals prove against the code of three source and seven encoding symbols.
fn found(alloc: Global, arrivals: &[(u32, u8)]) -> Result<Option<ClashProof>, NoMemory> {
    let code = staircase(alloc)?;
    let ev = evidence(alloc, arrivals)?;
    find(alloc, &code, &ev)
}

fn are_rows(found: &Option<ClashProof>, rows: &[u32]) -> bool {
    match found {
        Some(ClashProof::Rows(set)) => set.rows() == rows,
        _ => false,
    }
}

#[test]
fn finds_the_first_rows_that_contradict(rt: HostRuntime) -> Result<(), Fail> {
    let cases: [(&[(u32, u8)], &[u32]); 2] = [
        (&LAST_CHANGED, &[0, 1, 3]),
        (&[(3, 5), (4, 3), (0, 1), (1, 3)], &[0, 1]),
    ];
    for (arrivals, rows) in cases {
        assert!(rt; are_rows(&found(rt.alloc(), arrivals)?, rows));
    }
    Ok(())
}

#[test]
fn finds_a_repeat_that_differs(rt: HostRuntime) -> Result<(), Fail> {
    match found(rt.alloc(), &[(3, 5), (3, 6)])? {
        Some(ClashProof::Repeat { first, second }) => assert!(rt; first == 0 && second == 1),
        _ => panic!(rt; "no repeat is found"),
    }
    Ok(())
}

#[test]
fn finds_nothing_where_a_codeword_fits(rt: HostRuntime) -> Result<(), Fail> {
    assert!(rt; found(rt.alloc(), &[(3, 5), (4, 3), (5, 4), (6, 7)])?.is_none());
    Ok(())
}

// Whether the rows contradict what arrived where the last symbol is changed.
fn contradict(alloc: Global, rows: &[u32]) -> Result<bool, NoMemory>
    requires { IsStrictlyIncreasing rows.now }
{
    let code = staircase(alloc)?;
    let ev = evidence(alloc, &LAST_CHANGED)?;
    let set = RowSet::new(alloc, rows)?;
    Ok(holds(&code, &ev, &ClashProof::Rows(set)))
}

#[test]
fn checks_row_sets(rt: HostRuntime) -> Result<(), Fail> {
    let cases: [(&[u32], bool); 3] = [(&[0, 1, 3], true), (&[0, 1], false), (&[2], false)];
    for (rows, expected) in cases {
        assert!(rt; rises(rows));
        assert!(rt; contradict(rt.alloc(), rows)? == expected);
    }
    Ok(())
}

// The evidence of these arrivals, in their order. Each is a position and a byte.
fn evidence(alloc: Global, arrivals: &[(u32, u8)]) -> Result<Evidence, NoMemory>
    ensures { IfOk result (λ ev. ev.n ≡ 7) }
{
    let mut ev = Evidence::new(alloc, 7, 1)?;
    for i in 0..arrivals.len() {
        let (position, byte) = arrivals[i];
        if position < 7 {
            ev.add(i as u64, position, &[byte]);
        }
    }
    Ok(ev)
}
