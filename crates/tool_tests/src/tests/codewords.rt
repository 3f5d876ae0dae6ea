// The symbols of small blocks, and what encode and decode do at the limit of draws.
use super::{GRID, THREE_OF_SEVEN, check, run_over};
use std::alloc::Global;
use std::process::Abort;
use std::test::Fail;
use tool_base::Status;

// The packet file that the words make of the input has one block whose symbols are these bytes, and
// decodes to the input again.
fn check_word(
    rt: &impl Abort,
    alloc: Global,
    words: &[&str],
    input: &[u8],
    word: &[u8],
) -> Result<(), Fail> {
    let left = run_over(alloc, words, input)?;
    assert!(rt; left.status == Status::Done);
    let file = left.output.bytes();
    assert!(rt; has_symbols(file, word));
    let decoded = run_over(alloc, &["decode"], file)?;
    assert!(rt; decoded.status == Status::Done);
    assert!(rt; decoded.output.bytes() == input);
    Ok(())
}

// Whether the file has these symbols, of one byte each, in their order behind its header.
fn has_symbols(file: &[u8], word: &[u8]) -> bool {
    if word.len() > 100 || file.len() != 26 + 5 * word.len() {
        return false;
    }
    for (esi, symbol) in word.iter().enumerate() {
        if file[29 + 5 * esi] as usize != esi || file[30 + 5 * esi] != *symbol {
            return false;
        }
    }
    true
}

#[test]
fn small_codewords(rt: HostRuntime) -> Result<(), Fail> {
    let [encode, symbol, block, max_n] = THREE_OF_SEVEN;
    let triangle = [encode, "--codec=triangle", symbol, block, max_n];
    let full = [encode, symbol, "--block=4", max_n];
    let single = [encode, symbol, "--block=1", "--max-n=5"];
    let cases: [(&[&str], &[u8], &[u8]); 4] = [
        (&triangle, &[1, 2, 4], &[1, 2, 4, 5, 3, 1, 7]),
        (&full, &[1, 2, 4, 8], &[1, 2, 4, 8, 0x0f, 0, 0x0f]),
        (&single, &[5], &[5, 5, 0, 5, 0]),
        (&GRID, &[1, 2, 4], &[1, 2, 4, 7, 1, 2, 4]),
    ];
    for (words, input, word) in cases {
        check_word(&rt, rt.alloc(), words, input, word)?;
    }
    Ok(())
}

#[test]
fn the_codec_stands_in_the_header(rt: HostRuntime) -> Result<(), Fail> {
    let [encode, symbol, block, max_n] = THREE_OF_SEVEN;
    for (codec, number) in [("staircase", 3u8), ("triangle", 4)] {
        let words = [encode, symbol, block, max_n, "--codec", codec];
        let left = run_over(rt.alloc(), &words, &[1, 2, 4])?;
        assert!(rt; left.output.bytes().get(5) == Some(&number));
    }
    Ok(())
}

// The code of three and seven by this codec takes more than the few draws, and no more than the
// others, when it is encoded and when it is decoded.
fn check_draws(
    rt: &impl Abort,
    alloc: Global,
    codec: &'static str,
    few: &'static str,
    enough: &'static str,
) -> Result<(), Fail> {
    let [encode, symbol, block, max_n] = THREE_OF_SEVEN;
    let fault = "fault: draws block 0\n";
    let words = [
        encode, symbol, block, max_n, "--codec", codec, "--draws", few,
    ];
    check(rt, alloc, &words, &[1, 2, 4], Status::Draws, &[], fault)?;
    let words = [
        encode, symbol, block, max_n, "--codec", codec, "--draws", enough,
    ];
    let left = run_over(alloc, &words, &[1, 2, 4])?;
    let file = left.output.bytes();
    let words = ["decode", "--draws", few];
    check(rt, alloc, &words, file, Status::Draws, &[], fault)?;
    let peeled = "block 0 peeled\npackets 7\n";
    let words = ["decode", "--draws", enough];
    check(rt, alloc, &words, file, Status::Done, &[1, 2, 4], peeled)
}

#[test]
fn a_draw_less_than_a_code_takes_is_refused(rt: HostRuntime) -> Result<(), Fail> {
    check_draws(&rt, rt.alloc(), "staircase", "11", "12")?;
    check_draws(&rt, rt.alloc(), "triangle", "13", "14")?;
    Ok(())
}
