// The codes of a file's blocks.
ghost use Rattle.std.specs.Prelude.{◌≡◌, ◌<◌, ◌≤◌, ◌↔◌, IsTrue, IfOk, IfErr, Some, length, vec_len};
ghost use Rattle.std.specs.Prelude.{Contains};
ghost use Rattle.sparse_rows.specs.Matrix.{IsCode};
ghost use Rattle.packet_file.specs.Header.{source_counts};
ghost use Rattle.packet_file.specs.Packets.{block_symbols};
ghost use Rattle.object_file.specs.BuiltCodes.{AreBlockCodes, AreCodes, HasSize, RefusesCode};
ghost use Rattle.object_file.specs.BuiltCodes.{RefusesCodes};
ghost use Rattle.object_file.specs.Codes.{count_at, header_matrix};

use fec_base::NoMemory;
use packet_file::Header;
use sparse_rows::Code;
use std::alloc::Global;
use tool_base::{BuildRefusal, Refusal, block_code};

/// The codes of the file's blocks, one for each number of source symbols that a block has: there
/// are at most two. `Draws` names the first block whose code takes more draws than there may be.
pub fn build_codes(alloc: Global, header: &Header, draws: Option<u32>) -> Result<Vec<Code>, Refusal>
    ensures codes { IfOk result (λ codes. AreCodes header.now draws codes.items) }
    ensures refusal { IfErr result (RefusesCodes header.now draws) }
{
    let mut codes = Vec::with_capacity(alloc, 2)?;
    for block in 0..header.plan().count() {
        if !has_code(&codes, header.source_count(block)) {
            codes.push(build_code(alloc, header, block, draws)?)?;
        }
    }
    Ok(codes)
}

/// The code of each of the file's blocks, in order. `Draws` names the first block whose code takes
/// more draws than there may be.
pub fn block_codes(alloc: Global, header: &Header, draws: Option<u32>) -> Result<Vec<Code>, Refusal>
    ensures codes { IfOk result (λ codes. AreBlockCodes header.now draws codes.items) }
    ensures few { IfOk result (λ codes. vec_len codes ≤ 4096) }
    ensures refusal { IfErr result (RefusesCodes header.now draws) }
{
    let sizes = build_codes(alloc, header, draws)?;
    let mut codes = Vec::with_capacity(alloc, header.plan().count() as usize)?;
    for block in 0..header.plan().count() {
        codes.push(copy_code(alloc, header, &sizes, block)?)?;
    }
    Ok(codes)
}

// A copy of the code, of those of a file's blocks, that a block has.
fn copy_code(alloc: Global, header: &Header, codes: &[Code], block: u32) -> Result<Code, NoMemory>
    requires block { block < length (source_counts header.now) }
    requires code { HasSize codes.now (count_at header.now block) }
    ensures matrix { IfOk result (Contains codes.now) }
    ensures size { IfOk result (λ code. code.k ≡ count_at header.now block) }
{
    Ok(find_code(codes, header.source_count(block)).copy(alloc)?)
}

// The code of a block.
fn build_code(
    alloc: Global,
    header: &Header,
    block: u32,
    draws: Option<u32>,
) -> Result<Code, Refusal>
    requires { block < length (source_counts header.now) }
    ensures code { IfOk result (λ code. header_matrix header.now draws (count_at header.now block)
        ≡ Some code) }
    ensures source { IfOk result (λ code. code.k ≡ count_at header.now block) }
    ensures symbols { IfOk result (λ code. code.n ≡ block_symbols header.now block) }
    ensures shape { IfOk result IsCode }
    ensures refusal { IfErr result (RefusesCode header.now draws block) }
{
    match block_code(alloc, header, block, draws) {
        Ok(built) => {
            let code = built.code;
            // It is the calls that tell that the matrix has the shape of a code's.
            prove!(code.k() <= code.n());
            Ok(code)
        }
        Err(BuildRefusal::DrawLimit) => Err(Refusal::Draws(block)),
        Err(BuildRefusal::NoMemory) => Err(Refusal::Memory),
    }
}

// Whether one of the codes has k source symbols.
fn has_code(codes: &[Code], k: u32) -> bool
    ensures { IsTrue result ↔ HasSize codes.now k }
{
    codes.iter().any(|code| code.k() == k)
}

/// The code, of those of a file's blocks, that has k source symbols.
pub fn find_code(codes: &[Code], k: u32) -> &Code
    requires { HasSize codes.now k }
    ensures size { result.now.k ≡ k }
    ensures among { Contains codes.now result.now }
{
    for code in codes {
        if code.k() == k {
            return code;
        }
    }
    unreachable!()
}
