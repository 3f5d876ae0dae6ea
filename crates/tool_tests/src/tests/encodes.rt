// Objects of one symbol, and sizes that alone would pass a limit.
use super::{Outside, ample, check, check_left, run_in, run_over};
use std::alloc::Global;
use std::process::Abort;
use std::test::Fail;
use tool_base::Status;

// The file of an object of one symbol, by the defaults: its header and one packet.
fn file_of_ten(rt: &impl Abort, alloc: Global) -> Result<Vec<u8>, Fail> {
    let left = run_over(alloc, &["encode"], b"0123456789")?;
    assert!(rt; left.status == Status::Done);
    assert!(rt; left.report.bytes() == b"blocks 1\npackets 1\n".as_slice());
    Ok(Vec::from_slice(alloc, left.output.bytes())?)
}

#[test]
fn an_object_of_one_symbol_has_no_repair_symbol(rt: HostRuntime) -> Result<(), Fail> {
    let file = file_of_ten(&rt, rt.alloc())?;
    assert!(rt; file.len() == 1054);
    assert!(rt; &file[30..40] == b"0123456789".as_slice());
    assert!(rt; file[40..].iter().all(|byte| *byte == 0));
    let peeled = "block 0 peeled\npackets 1\n";
    check(
        &rt,
        rt.alloc(),
        &["decode"],
        &file,
        Status::Done,
        b"0123456789",
        peeled,
    )
}

#[test]
fn an_object_that_does_not_fit_is_cut(rt: HostRuntime) -> Result<(), Fail> {
    let file = file_of_ten(&rt, rt.alloc())?;
    let outside = Outside {
        output: 5,
        ..ample(70)
    };
    let left = run_in(rt.alloc(), &["decode"], &file, outside)?;
    check_left(&rt, &left, Status::WriteFault, b"01234", b"fault: write\n");
    Ok(())
}

#[test]
fn sizes_of_a_block_matter_where_there_is_one(rt: HostRuntime) -> Result<(), Fail> {
    let large = ["encode", "--symbol=65535", "--block=65536", "--max-n=65536"];
    let left = run_over(rt.alloc(), &large, &[])?;
    assert!(rt; left.status == Status::Done);
    assert!(rt; left.output.bytes().len() == 26);
    Ok(())
}
