// Objects of several source blocks.
use super::{check, run_over};
use std::alloc::Global;
use std::process::Abort;
use std::test::Fail;
use tool_base::Status;

const THREE_BLOCKS: [&str; 4] = ["encode", "--symbol=100", "--block=4", "--max-n=6"];

// An object of so many bytes.
fn counted(alloc: Global, len: u32) -> Result<Vec<u8>, Fail> {
    let mut object = Vec::new(alloc);
    for i in 0..len {
        object.push((i % 251) as u8)?;
    }
    Ok(object)
}

#[test]
fn an_object_of_three_blocks(rt: HostRuntime) -> Result<(), Fail> {
    let alloc = rt.alloc();
    let object = counted(alloc, 1000)?;
    let left = run_over(alloc, &THREE_BLOCKS, &object)?;
    assert!(rt; left.status == Status::Done);
    assert!(rt; left.report.bytes() == b"blocks 3\npackets 14\n".as_slice());
    let file = left.output.bytes();
    assert!(rt; file.len() == 1482);
    // Six packets of the first block, and four of each other one.
    assert!(rt; &file[546..550] == [0, 0, 0, 5].as_slice());
    assert!(rt; &file[650..654] == [0, 0x10, 0, 0].as_slice());
    assert!(rt; &file[1378..1382] == [0, 0x20, 0, 3].as_slice());
    let peeled = "block 0 peeled\nblock 1 peeled\nblock 2 peeled\npackets 14\n";
    check(&rt, alloc, &["decode"], file, Status::Done, &object, peeled)?;
    Ok(())
}

// A packet file with packets of 104 bytes, the last one first, without those from one to another.
fn turned(alloc: Global, file: &[u8], from: usize, to: usize) -> Result<Vec<u8>, Fail> {
    let mut mixed = Vec::new(alloc);
    for (i, byte) in file.iter().enumerate() {
        if i < 26 {
            mixed.push(*byte)?;
        }
    }
    for packet in 0..14 {
        let place = 13 - packet;
        let start = 26 + place * 104;
        if (place < from || to <= place) && start + 104 <= file.len() {
            mixed.extend_from_slice(&file[start..start + 104])?;
        }
    }
    Ok(mixed)
}

// Of a file of the object without two source symbols of its second block all else is salvaged.
fn check_saved(rt: &impl Abort, alloc: Global, object: &[u8], file: &[u8]) -> Result<(), Fail> {
    let mut saved = Vec::from_slice(alloc, object)?;
    for (i, byte) in saved.iter_mut().enumerate() {
        if 400 <= i && i < 600 {
            *byte = 0;
        }
    }
    let report = "block 0 whole\nblock 1 partial 1 of 3\nsymbol 0 through 0 1\n\
        symbol 1 through 0 1\nblock 2 whole\npackets 12\n";
    let partial = Status::Undetermined;
    check(rt, alloc, &["salvage"], file, partial, &saved, report)
}

#[test]
fn one_block_of_three_is_undetermined(rt: HostRuntime) -> Result<(), Fail> {
    let alloc = rt.alloc();
    let object = counted(alloc, 1000)?;
    let left = run_over(alloc, &THREE_BLOCKS, &object)?;
    // Two source symbols of the second block are lost.
    let file = turned(alloc, left.output.bytes(), 6, 8)?;
    let open = "block 0 peeled\nblock 1 undetermined 0 1\nblock 2 peeled\npackets 12\n";
    check(
        &rt,
        alloc,
        &["decode"],
        &file,
        Status::Undetermined,
        &[],
        open,
    )?;
    check_saved(&rt, alloc, &object, &file)?;
    let header = turned(alloc, left.output.bytes(), 0, 14)?;
    let open = "block 0 undetermined 0 1\nblock 1 undetermined 0 1\n\
        block 2 undetermined 0 1\npackets 0\n";
    check(
        &rt,
        alloc,
        &["decode"],
        &header,
        Status::Undetermined,
        &[],
        open,
    )?;
    let file = turned(alloc, left.output.bytes(), 14, 14)?;
    let peeled = "block 0 peeled\nblock 1 peeled\nblock 2 peeled\npackets 14\n";
    check(
        &rt,
        alloc,
        &["decode"],
        &file,
        Status::Done,
        &object,
        peeled,
    )?;
    Ok(())
}
