// Packet files by their digests, which a second implementation computed from the definitions alone:
// seeds other than 1, N1 other than 3, and each code.
use super::{Outside, ample, run_in};
use sha2::{Digest, Sha256};
use std::alloc::Global;
use std::process::Abort;
use std::test::Fail;
use tool_base::Status;

// The words, the length of the object, the SHA-256 of its packet file, and the report.
type Case = (&'static [&'static str], u32, [u8; 32], &'static str);

const CASES: [Case; 5] = [
    (
        &["encode", "--symbol=3", "--block=8", "--n1=5", "--seed=77"],
        100,
        *b"\xab\xf9\x66\xca\xd9\xdf\x7a\x11\xcc\xbf\x53\x03\xb4\xbf\xc9\xb9\
            \xca\xbe\x71\x10\xa2\xa7\x6a\x1a\x3b\xde\xc2\x79\x9e\x8c\xff\x81",
        "blocks 5\npackets 49\n",
    ),
    (
        &[
            "encode",
            "--codec=triangle",
            "--symbol=16",
            "--block=40",
            "--n1=4",
            "--seed=2147483646",
            "--max-n=100",
        ],
        5_000,
        *b"\xdb\x6c\x54\xc5\x76\x3e\x60\xd2\xdc\x40\xca\x44\x4f\xdf\xac\x6f\
            \x0e\x67\xc8\x95\xaf\xe1\xdc\x64\x84\xa5\x21\xdc\x8c\x85\x52\xeb",
        "blocks 8\npackets 779\n",
    ),
    (
        &[
            "encode",
            "--codec=2d",
            "--symbol=33",
            "--block=50",
            "--width=7",
        ],
        9_001,
        *b"\x04\x1f\x06\xce\x23\x1c\xa2\x6e\x68\xd2\x95\x7e\x23\x96\xb9\x62\
            \x19\xe4\x53\x26\xa2\xbb\x33\x58\x25\x08\x7a\xb1\xbb\x08\x2b\x62",
        "blocks 6\npackets 357\n",
    ),
    (
        &[
            "encode",
            "--symbol=1",
            "--block=300",
            "--n1=10",
            "--seed=5",
            "--max-n=333",
        ],
        2_000,
        *b"\x10\x34\x32\xe5\x08\xc5\x26\x12\x2d\x66\x93\x43\x40\x71\x3d\x6b\
            \x61\xc4\xbd\x48\x88\xef\xc9\x67\xca\xf8\x6d\x73\xd7\x47\x28\x98",
        "blocks 7\npackets 2217\n",
    ),
    (
        &[
            "encode",
            "--codec=triangle",
            "--symbol=1024",
            "--block=12",
            "--n1=7",
            "--seed=1000003",
        ],
        65_537,
        *b"\x34\xce\x37\x5a\xb6\x24\x80\x71\x0a\xca\xdf\x62\x12\x63\x98\x19\
            \x51\x8d\xb7\xf5\x1c\xdf\xf8\x81\x6d\x33\xe3\x8b\x15\x6a\x70\xc1",
        "blocks 6\npackets 95\n",
    ),
];

// The object: byte i is the last byte of 7 i + i / 256.
fn object(alloc: Global, len: u32) -> Result<Vec<u8>, Fail> {
    let mut bytes = Vec::with_capacity(alloc, len as usize)?;
    for i in 0..len {
        bytes.push(((i % 256 * 7 + i / 256) % 256) as u8)?;
    }
    Ok(bytes)
}

fn check_digest(rt: &impl Abort, alloc: Global, case: &Case) -> Result<(), Fail> {
    let outside = Outside {
        output: 100_000,
        ..ample(65_536)
    };
    let left = run_in(alloc, case.0, &object(alloc, case.1)?, outside)?;
    assert!(rt; left.status == Status::Done);
    assert!(rt; left.report.bytes() == case.3.as_bytes());
    assert!(rt; Sha256::digest(left.output.bytes()) == case.2);
    Ok(())
}

#[test]
fn packet_files_have_the_digests_of_a_second_implementation(rt: HostRuntime) -> Result<(), Fail> {
    for case in CASES {
        check_digest(&rt, rt.alloc(), &case)?;
    }
    Ok(())
}
