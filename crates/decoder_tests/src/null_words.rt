ghost use Rattle.std.specs.Prelude.{◌<◌, ◌-◌, IsTrue};
ghost use Rattle.std.specs.List.Sorted.{IsStrictlyIncreasing};

use crate::codes::staircase;
use null_witness::{NullWord, check};
use std::test::Fail;

// Whether the items rise.
pub(crate) fn rises(items: &[u32]) -> bool
    ensures { IsTrue result → IsStrictlyIncreasing items.now }
{
    for i in 1..items.len() {
        if items[i - 1] >= items[i] {
            return false;
        }
    }
    true
}

#[test]
fn null_words_of_a_small_code(rt: HostRuntime) -> Result<(), Fail> {
    let code = staircase(rt.alloc())?;
    // The position that arrived, a word, and whether it is a null word of that.
    let cases: [(usize, &[u32], bool); 9] = [
        (3, &[0, 2, 4, 5], true),
        (6, &[0, 1, 3], true),
        (4, &[0, 1, 2, 5, 6], true),
        (4, &[0, 2, 4, 5], false),
        (3, &[], false),
        (3, &[0], false),
        (3, &[0, 1], false),
        (6, &[0, 1, 3, 7], false),
        (0, &[0, 1, 3], false),
    ];
    for (position, columns, expected) in cases {
        let mut arrived = [false; 7];
        if let Some(flag) = arrived.get_mut(position) {
            *flag = true;
        }
        assert!(rt; rises(columns));
        let word = NullWord::new(rt.alloc(), columns)?;
        assert!(rt; word.positions() == columns);
        assert!(rt; check(&code, &arrived, &word) == expected);
    }
    Ok(())
}
