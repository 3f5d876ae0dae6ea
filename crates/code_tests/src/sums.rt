ghost use Rattle.std.specs.Prelude.{◌≡◌, length};

use std::test::Fail;
use xor_lanes::{add_columns, is_zero, xor_into};

const LENGTHS: [usize; 9] = [0, 1, 31, 32, 33, 63, 64, 65, 65535];

// At each length beside those of lanes every byte is summed: the last one, and none behind it.
#[test]
fn each_byte_is_summed(rt: HostRuntime) -> Result<(), Fail> {
    for len in LENGTHS {
        let mut sum = vec![in rt.alloc(); 0x5au8; len]?;
        let ones = vec![in rt.alloc(); 0xffu8; len]?;
        xor_into(&mut sum, &ones);
        assert!(rt; sum.iter().all(|byte| *byte == 0xa5));
    }
    Ok(())
}

// One byte that isn't zero is seen, also where it is the last one behind the lanes.
#[test]
fn the_last_byte_is_tested(rt: HostRuntime) -> Result<(), Fail> {
    for len in LENGTHS {
        let mut symbol = vec![in rt.alloc(); 0u8; len]?;
        assert!(rt; is_zero(&symbol));
        if let Some(last) = symbol.last_mut() {
            *last = 1;
            assert!(rt; !is_zero(&symbol));
        }
    }
    Ok(())
}

fn add_the_others(all: &mut [u8])
    requires { length all.old ≡ 288 }
{
    add_columns(all, 1, &[0, 2, 2], 96);
}

// Three symbols of a tile and a lane each: 1 becomes its sum with 0, and with 2 twice, which
// cancels out.
#[test]
fn columns_are_summed_over_tiles_and_a_lane(rt: HostRuntime) -> Result<(), Fail> {
    let mut all = vec![in rt.alloc(); 0x0fu8; 288]?;
    for i in 0..96usize {
        all[96 + i] = 0xff;
        all[192 + i] = 0x33;
    }
    add_the_others(&mut all);
    for i in 0..288usize {
        let want = if i < 96 {
            0x0f
        } else if i < 192 {
            0xf0
        } else {
            0x33
        };
        assert!(rt; all.get(i) == Some(&want));
    }
    Ok(())
}
