use fec_base::{MemSink, NoMemory, Words, WriteFailed};
use loss_patterns::LossKind;
use oti_fields::Codec;
use std::alloc::Global;
use std::process::Abort;
use std::test::Fail;
use tool_base::{
    BuildRefusal, Command, Shape, Status, codec_word, put_number, put_text, read_words, shape_code,
};

// What the words ask for.
fn read(alloc: Global, words: &[&str]) -> Result<Option<Command>, NoMemory> {
    let mut list = Words::new(alloc);
    for word in words {
        list.push(*word)?;
    }
    read_words(alloc, &list)
}

// All of these words are usage.
fn check_usage(rt: &impl Abort, alloc: Global, cases: &[&[&str]]) -> Result<(), Fail> {
    for words in cases {
        assert!(rt; read(alloc, *words)? == None);
    }
    Ok(())
}

const STAIRCASE: Shape = Shape {
    codec: Codec::Staircase,
    n1: 3,
    seed: 1,
    width: 10,
    draws: None,
};

// An `encode` whose options that aren't named here have their defaults.
const fn encode(shape: Shape, block: u32, max_n: u32) -> Option<Command> {
    Some(Command::Encode {
        shape,
        symbol: 1024,
        block,
        max_n,
        format: 1,
    })
}

#[test]
fn encode_has_defaults(rt: HostRuntime) -> Result<(), Fail> {
    let wanted = encode(STAIRCASE, 1000, 1500);
    assert!(rt; read(rt.alloc(), &["encode"])? == wanted);
    Ok(())
}

#[test]
fn decode_has_defaults(rt: HostRuntime) -> Result<(), Fail> {
    let wanted = Command::Decode {
        draws: None,
        early: false,
        packets: 16_777_216,
    };
    assert!(rt; read(rt.alloc(), &["decode"])? == Some(wanted));
    Ok(())
}

#[test]
fn lose_and_show_have_defaults(rt: HostRuntime) -> Result<(), Fail> {
    let lose = Command::Lose {
        loss: LossKind::None,
        seed: 1,
        packets: 16_777_216,
    };
    let show = Command::Show {
        packets: 16_777_216,
    };
    assert!(rt; read(rt.alloc(), &["lose"])? == Some(lose));
    assert!(rt; read(rt.alloc(), &["show"])? == Some(show));
    Ok(())
}

#[test]
fn each_option_of_a_pass_is_read(rt: HostRuntime) -> Result<(), Fail> {
    let lose = Command::Lose {
        loss: LossKind::Burst(0, 1000),
        seed: 2_147_483_646,
        packets: 0,
    };
    let words = [
        "lose",
        "--seed=2147483646",
        "--loss",
        "burst:0:1000",
        "--packets=0",
    ];
    assert!(rt; read(rt.alloc(), words.as_slice())? == Some(lose));
    let show = Command::Show { packets: 7 };
    assert!(rt; read(rt.alloc(), &["show", "--packets=7"])? == Some(show));
    let upgrade = Command::Upgrade { packets: 7 };
    assert!(rt; read(rt.alloc(), &["upgrade", "--packets=7"])? == Some(upgrade));
    Ok(())
}

#[test]
fn each_option_is_read(rt: HostRuntime) -> Result<(), Fail> {
    let words = [
        "encode",
        "--codec=triangle",
        "--symbol=65535",
        "--n1=10",
        "--seed=2147483646",
        "--block=1",
        "--max-n=65536",
        "--draws=4294967295",
        "--format=2",
    ];
    let shape = Shape {
        codec: Codec::Triangle,
        n1: 10,
        seed: 2_147_483_646,
        width: 10,
        draws: Some(u32::MAX),
    };
    let wanted = Command::Encode {
        shape,
        symbol: 65_535,
        block: 1,
        max_n: 65_536,
        format: 2,
    };
    assert!(rt; read(rt.alloc(), words.as_slice())? == Some(wanted));
    Ok(())
}

#[test]
fn items_in_two_words_are_those_in_one(rt: HostRuntime) -> Result<(), Fail> {
    let wanted = Command::Decode {
        draws: Some(0),
        early: true,
        packets: 0,
    };
    let joined = ["decode", "--early=yes", "--draws=0", "--packets=0"];
    let apart = ["decode", "--packets", "0", "--early", "yes", "--draws", "0"];
    assert!(rt; read(rt.alloc(), joined.as_slice())? == Some(wanted));
    assert!(rt; read(rt.alloc(), apart.as_slice())? == Some(wanted));
    Ok(())
}

#[test]
fn half_as_many_again_by_default_and_at_most_65536(rt: HostRuntime) -> Result<(), Fail> {
    let alloc = rt.alloc();
    let cases = [
        ("--block=1", 1, 1),
        ("--block=3", 3, 4),
        ("--block=43690", 43_690, 65_535),
        ("--block=65536", 65_536, 65_536),
    ];
    for (word, block, max_n) in cases {
        assert!(rt; read(alloc, &["encode", word])? == encode(STAIRCASE, block, max_n));
    }
    Ok(())
}

#[test]
fn a_grid_has_the_size_of_its_width_and_block(rt: HostRuntime) -> Result<(), Fail> {
    let cases = [
        ("--codec=2d", Codec::Parity2d, 10),
        ("--codec=2d-corner", Codec::Corner2d, 11),
    ];
    for (word, codec, max_n) in cases {
        let words = ["encode", word, "--width=3", "--block=5", "--symbol=1"];
        let wanted = Command::Encode {
            shape: Shape {
                codec,
                width: 3,
                ..STAIRCASE
            },
            symbol: 1,
            block: 5,
            max_n,
            format: 1,
        };
        assert!(rt; read(rt.alloc(), words.as_slice())? == Some(wanted));
    }
    check_usage(
        &rt,
        rt.alloc(),
        &[
            &["encode", "--codec=2d", "--block=65536"],
            // A grid of 65,536 symbols, which has no room for a corner.
            &[
                "encode",
                "--codec=2d-corner",
                "--width=254",
                "--block=65025",
            ],
        ],
    )
}

// A `perf` of the defaults but for the code and the numbers of symbols.
const fn perf(shape: Shape, k: u32, n: u32) -> Option<Command> {
    Some(Command::Perf {
        shape,
        symbol: 16,
        k,
        n,
        loss: LossKind::None,
        random: true,
        runs: 1,
        run_seed: 1,
        threshold: false,
    })
}

#[test]
fn perf_has_defaults(rt: HostRuntime) -> Result<(), Fail> {
    let alloc = rt.alloc();
    assert!(rt; read(alloc, &["perf"])? == perf(STAIRCASE, 1000, 1500));
    assert!(rt; read(alloc, &["perf", "--k=3"])? == perf(STAIRCASE, 3, 4));
    assert!(rt; read(alloc, &["perf", "--k=3", "--threshold=no"])? == perf(STAIRCASE, 3, 4));
    let words = ["perf", "--k", "65536", "--order=random"];
    assert!(rt; read(alloc, words.as_slice())? == perf(STAIRCASE, 65_536, 65_536));
    Ok(())
}

#[test]
fn each_option_of_perf_is_read(rt: HostRuntime) -> Result<(), Fail> {
    let words = [
        "perf",
        "--codec=triangle",
        "--symbol=65535",
        "--n1=10",
        "--seed=2147483646",
        "--draws=0",
        "--k=1",
        "--n=65536",
        "--loss=burst:5:1000",
        "--order=sent",
        "--runs=1000",
        "--run-seed=2147483646",
        "--threshold=yes",
    ];
    let shape = Shape {
        codec: Codec::Triangle,
        n1: 10,
        seed: 2_147_483_646,
        width: 10,
        draws: Some(0),
    };
    let wanted = Command::Perf {
        shape,
        symbol: 65_535,
        k: 1,
        n: 65_536,
        loss: LossKind::Burst(5, 1000),
        random: false,
        runs: 1000,
        run_seed: 2_147_483_646,
        threshold: true,
    };
    assert!(rt; read(rt.alloc(), words.as_slice())? == Some(wanted));
    Ok(())
}

#[test]
fn a_grid_of_perf_has_the_size_of_its_width_and_k(rt: HostRuntime) -> Result<(), Fail> {
    let words = ["perf", "--codec=2d", "--width=3", "--k=5"];
    let shape = Shape {
        codec: Codec::Parity2d,
        width: 3,
        ..STAIRCASE
    };
    assert!(rt; read(rt.alloc(), words.as_slice())? == perf(shape, 5, 10));
    let words = ["perf", "--codec=2d-corner", "--width=3", "--k=5"];
    let shape = Shape {
        codec: Codec::Corner2d,
        ..shape
    };
    assert!(rt; read(rt.alloc(), words.as_slice())? == perf(shape, 5, 11));
    check_usage(
        &rt,
        rt.alloc(),
        &[
            &["perf", "--codec=2d", "--k=65536"],
            &["perf", "--codec=2d", "--n=10"],
            &["perf", "--codec=2d", "--n1=3"],
            &["perf", "--codec=2d", "--seed=1"],
            &["perf", "--codec=2d", "--draws=1"],
            &["perf", "--codec=2d-corner", "--n=11"],
        ],
    )
}

#[test]
fn values_that_perf_does_not_take_are_usage(rt: HostRuntime) -> Result<(), Fail> {
    check_usage(
        &rt,
        rt.alloc(),
        &[
            &["perf", "--order=other"],
            &["perf", "--order="],
            &["perf", "--runs=0"],
            &["perf", "--runs=1001"],
            &["perf", "--k=0"],
            &["perf", "--k=65537"],
            &["perf", "--k=3", "--n=2"],
            &["perf", "--n=65537"],
            &["perf", "--run-seed=0"],
            &["perf", "--run-seed=2147483647"],
            &["perf", "--width=3"],
            &["perf", "--loss=all"],
            &["perf", "--symbol=0"],
            &["perf", "--symbol=65536"],
            &["perf", "--max-n=10"],
            &["perf", "--packets=1"],
            &["encode", "--runs=1"],
        ],
    )
}

#[test]
fn words_that_are_no_command_are_usage(rt: HostRuntime) -> Result<(), Fail> {
    check_usage(
        &rt,
        rt.alloc(),
        &[
            &[],
            &["pack"],
            &["--help"],
            &["--"],
            &["decode", "--"],
            &["decode", "--early", "--"],
            &["decode", "x"],
            &["decode", "-x"],
            &["decode", "help"],
            &["decode", "--help"],
            &["decode", "--version"],
            &["decode", "--early"],
        ],
    )
}

#[test]
fn options_that_are_not_the_commands_are_usage(rt: HostRuntime) -> Result<(), Fail> {
    check_usage(
        &rt,
        rt.alloc(),
        &[
            &["encode", "--sym=1"],
            &["encode", "--early=yes"],
            &["encode", "--seed=1", "--seed=1"],
            &["encode", "--seed=1", "--seed", "1"],
            &["encode", "--width=3"],
            &["encode", "--codec=2d", "--n1=3"],
            &["encode", "--codec=2d", "--max-n=10"],
            &["encode", "--codec=2d-corner", "--n1=3"],
            &["encode", "--codec=2d-corner", "--max-n=11"],
            &["lose", "--draws=1"],
            &["lose", "--threshold=yes"],
            &["lose", "--loss=none", "--loss=none"],
            &["show", "--loss=none"],
            &["show", "--seed=1"],
            &["upgrade", "--format=2"],
        ],
    )
}

#[test]
fn values_out_of_their_ranges_are_usage(rt: HostRuntime) -> Result<(), Fail> {
    check_usage(
        &rt,
        rt.alloc(),
        &[
            &["encode", "--symbol=0"],
            &["encode", "--symbol=65536"],
            &["encode", "--max-n=2", "--block=3"],
            &["encode", "--format=0"],
            &["encode", "--format=3"],
            &["decode", "--packets=16777217"],
            &["decode", "--draws=4294967296"],
            &["decode", "--early=no "],
            &["decode", "--early="],
            &["decode", "--early", ""],
            &["decode", "--early", "--packets=3"],
            &["perf", "--threshold=true"],
            &["lose", "--loss=even:1001"],
            &["lose", "--loss="],
            &["lose", "--seed=0"],
            &["show", "--packets=16777217"],
        ],
    )
}

#[test]
fn numbers_in_other_spellings_are_usage(rt: HostRuntime) -> Result<(), Fail> {
    check_usage(
        &rt,
        rt.alloc(),
        &[
            &["encode", "--symbol=08"],
            &["encode", "--symbol=+1"],
            &["encode", "--symbol=-1"],
            &["encode", "--symbol", "-1"],
            &["encode", "--symbol=1_000"],
            &["encode", "--symbol=٣"],
            &["encode", "--symbol= 1"],
            &["encode", "--symbol=1=1"],
            &["encode", "--symbol=99999999999999999999999999"],
        ],
    )
}

#[test]
fn texts_and_numbers_go_behind_one_another(rt: HostRuntime) -> Result<(), Fail> {
    let mut sink = MemSink::new(rt.alloc(), 30, 4)?;
    assert!(rt; put_text(&mut sink, "blocks ") == Ok(()));
    assert!(rt; put_number(&mut sink, 0) == Ok(()));
    assert!(rt; put_text(&mut sink, "\n") == Ok(()));
    assert!(rt; put_number(&mut sink, u64::MAX) == Ok(()));
    assert!(rt; sink.bytes() == b"blocks 0\n18446744073709551615".as_slice());
    assert!(rt; put_number(&mut sink, 123) == Err(WriteFailed));
    assert!(rt; sink.bytes() == b"blocks 0\n184467440737095516151".as_slice());
    Ok(())
}

#[test]
fn statuses_have_their_numbers_and_texts(rt: HostRuntime) {
    let cases = [
        (Status::Done, 0, ""),
        (Status::Memory, 1, "fault: memory\n"),
        (
            Status::Usage,
            2,
            "fault: usage\nusage: eperftool COMMAND [--name=value ...]\n",
        ),
        (Status::ReadFault, 3, "fault: read\n"),
        (Status::WriteFault, 4, "fault: write\n"),
        (Status::Malformed, 5, ""),
        (Status::Draws, 6, ""),
        (Status::Limit, 7, ""),
        (Status::Undetermined, 8, ""),
        (Status::NoCodeword, 9, ""),
        (Status::WatchFault, 10, "fault: watch\n"),
    ];
    for (status, code, text) in cases {
        assert!(rt; status.code() == code);
        assert!(rt; status.fault_text() == text);
    }
}

// How many draws the code of 3 source and 7 encoding symbols takes within a limit.
fn draws_within(alloc: Global, limit: u32) -> Result<u64, BuildRefusal> {
    let shape = Shape {
        draws: Some(limit),
        ..STAIRCASE
    };
    Ok(shape_code(alloc, &shape, 3, 7)?.draws)
}

#[test]
fn a_limit_of_draws_is_kept_exactly(rt: HostRuntime) -> Result<(), Fail> {
    assert!(rt; draws_within(rt.alloc(), 11) == Err(BuildRefusal::DrawLimit));
    assert!(rt; draws_within(rt.alloc(), 12) == Ok(12));
    Ok(())
}

#[test]
fn a_shape_has_the_code_of_its_codec(rt: HostRuntime) -> Result<(), Fail> {
    let alloc = rt.alloc();
    let triangle = Shape {
        codec: Codec::Triangle,
        ..STAIRCASE
    };
    let grid = Shape {
        codec: Codec::Parity2d,
        width: 3,
        ..STAIRCASE
    };
    let built = shape_code(alloc, &STAIRCASE, 3, 7)?;
    assert!(rt; (built.code.entries(), built.draws) == (16, 12));
    let built = shape_code(alloc, &triangle, 3, 7)?;
    assert!(rt; (built.code.entries(), built.draws) == (18, 14));
    let built = shape_code(alloc, &grid, 5, 10)?;
    assert!(rt; (built.code.entries(), built.draws) == (15, 0));
    let corner = Shape {
        codec: Codec::Corner2d,
        ..grid
    };
    let built = shape_code(alloc, &corner, 5, 11)?;
    assert!(rt; (built.code.entries(), built.draws) == (21, 0));
    Ok(())
}

#[test]
fn codecs_have_their_words(rt: HostRuntime) {
    assert!(rt; codec_word(Codec::Staircase) == "staircase");
    assert!(rt; codec_word(Codec::Triangle) == "triangle");
    assert!(rt; codec_word(Codec::Parity2d) == "2d");
    assert!(rt; codec_word(Codec::Corner2d) == "2d-corner");
}
