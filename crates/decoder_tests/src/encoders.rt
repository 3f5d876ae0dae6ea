ghost use Rattle.std.specs.Prelude.{◌≡◌, ◌≤◌, ◌*◌, length};

use crate::codes::{code_of, staircase};
use fec_base::NoMemory;
use fec_session::encode_block;
use sparse_rows::Code;
use std::alloc::Global;
use std::test::Fail;

// Whether the source has this codeword: its symbols, one after the other.
fn is_codeword(
    alloc: Global,
    code: &Code,
    source: &[u8],
    len: u32,
    word: &[&[u8]],
) -> Result<bool, NoMemory>
    requires some { 1 ≤ len }
    requires most { len ≤ 65535 }
    requires source { length source.now ≡ code.now.k * len }
    requires word { length word.now ≡ code.now.n }
{
    let coded = encode_block(alloc, code, source, len)?;
    for e in 0..code.n() {
        if coded.symbol(e) != word[e as usize] {
            return Ok(false);
        }
    }
    Ok(true)
}

#[test]
fn a_row_sums_repair_symbols_before_its_own(rt: HostRuntime) -> Result<(), Fail> {
    let code = staircase(rt.alloc())?;
    let word: [&[u8]; 7] = [&[1], &[2], &[4], &[5], &[3], &[4], &[7]];
    assert!(rt; is_codeword(rt.alloc(), &code, &[1, 2, 4], 1, &word)?);
    Ok(())
}

#[test]
fn a_symbol_has_many_bytes(rt: HostRuntime) -> Result<(), Fail> {
    let code = code_of(rt.alloc(), 2, 3, &[(0, 0), (0, 1), (0, 2)])?;
    let word: [&[u8]; 3] = [&[1, 2], &[4, 8], &[5, 10]];
    assert!(rt; is_codeword(rt.alloc(), &code, &[1, 2, 4, 8], 2, &word)?);
    Ok(())
}

#[test]
fn without_rows_the_codeword_is_the_source(rt: HostRuntime) -> Result<(), Fail> {
    let code = code_of(rt.alloc(), 1, 1, &[])?;
    let word: [&[u8]; 1] = [b"0123456789"];
    assert!(rt; is_codeword(rt.alloc(), &code, b"0123456789", 10, &word)?);
    Ok(())
}
