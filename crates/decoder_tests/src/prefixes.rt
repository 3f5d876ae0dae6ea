ghost use Rattle.std.specs.Prelude.{◌<◌, IsTrue, All};

use crate::codes::staircase;
use fec_threshold::least_prefix;
use std::test::Fail;

#[test]
fn least_prefixes_of_a_small_code(rt: HostRuntime) -> Result<(), Fail> {
    let code = staircase(rt.alloc())?;
    // An order, and how many of its positions determine the block.
    let cases: [(&[u32], Option<u32>); 6] = [
        (&[3, 3, 4, 4, 5], Some(5)),
        (&[], None),
        (&[0, 1, 2, 3, 4, 5, 6], Some(3)),
        (&[3, 4, 5, 6], Some(3)),
        (&[6], None),
        (&[5, 4, 2, 0, 1, 6, 3], Some(4)),
    ];
    for (order, expected) in cases {
        assert!(rt; order.len() <= 7);
        assert!(rt; are_positions(order));
        assert!(rt; least_prefix(rt.alloc(), &code, order)? == expected);
    }
    Ok(())
}

// Whether each item is one of seven positions.
fn are_positions(order: &[u32]) -> bool
    ensures { IsTrue result → All (λ position. position < 7) order.now }
{
    for position in order {
        if *position >= 7 {
            return false;
        }
    }
    true
}
