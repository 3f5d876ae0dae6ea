// The commands and their options.
ghost use Rattle.std.specs.Prelude.{◌≡◌, IfSome, map};
ghost use Rattle.tool_base.specs.Reading.{given_of, listed};
ghost use Rattle.tool_base.specs.Commands.{decode_of, decode_options, encode_of};
ghost use Rattle.tool_base.specs.Ranges.{IsInRange};
ghost use Rattle.tool_base.specs.Commands.{encode_options, lose_of, lose_options, perf_of};
ghost use Rattle.tool_base.specs.Commands.{frame_of, frame_options, perf_options, salvage_of};
ghost use Rattle.tool_base.specs.Commands.{salvage_options, show_of, show_options, unframe_of};
ghost use Rattle.tool_base.specs.Commands.{upgrade_of, upgrade_options};

use crate::given::{
    is_random, is_yes, loss_given, number_given, number_or, shape_given, symbols_given,
};
use crate::options::OptionRow;
use crate::table::{
    BLOCK, CODEC, DRAWS, EARLY, FORMAT, FRAME_SYMBOL, K, LOSS, MAX_N, N, N1, ORDER, PACKETS,
    PERF_SYMBOL, RUN_SEED, RUNS, SEED, SYMBOL, THRESHOLD, WIDTH,
};
use clap::ArgMatches;
use loss_patterns::LossKind;
use oti_fields::Codec;

/// Which code a command is to make. Where an option is excluded by the codec, it has its default.
#[derive(Clone, Copy, Debug, PartialEq, Eq)]
pub struct Shape {
    /// The codec.
    pub codec: Codec,
    /// N1, from 3 to 10: a source symbol takes min(N1, n - k) turns at being put into a row. For a
    /// grid 3.
    pub n1: u32,
    /// The seed of the generator, from 1 to 2,147,483,646. For a grid 1.
    pub seed: u32,
    /// The width of a grid, from 1 to 65,536. For the others 10.
    pub width: u32,
    /// How many draws the code may take, if that is limited.
    pub draws: Option<u32>,
}

/// A command of the program, with its options.
#[derive(Clone, Copy, Debug, PartialEq, Eq)]
pub enum Command {
    /// Makes a packet file of an object.
    Encode {
        /// The code.
        shape: Shape,
        /// The length of a symbol in bytes, from 1 to 65,535.
        symbol: u32,
        /// The greatest number of source symbols of a block, from 1 to 65,536.
        block: u32,
        /// The greatest number of encoding symbols of a block, from `block` to 65,536.
        max_n: u32,
        /// The version of the packet file: 1 or 2.
        format: u8,
    },
    /// Makes the object of a packet file.
    Decode {
        /// How many draws the code may take, if that is limited.
        draws: Option<u32>,
        /// Whether to stop once all source symbols are known.
        early: bool,
        /// How many packets may be read, at most 16,777,216.
        packets: u32,
    },
    /// Writes a packet file without the packets that are lost.
    Lose {
        /// Which packets are lost.
        loss: LossKind,
        /// The seed of the draws, from 1 to 2,147,483,646.
        seed: u32,
        /// How many packets may be read, at most 16,777,216.
        packets: u32,
    },
    /// Writes a line for the header of a packet file, and one for each packet.
    Show {
        /// How many packets may be read, at most 16,777,216.
        packets: u32,
    },
    /// Writes a packet file in version 2.
    Upgrade {
        /// How many packets may be read, at most 16,777,216.
        packets: u32,
    },
    /// Sends a block that is made from a number, with losses, and decodes what arrives.
    Perf {
        /// The code.
        shape: Shape,
        /// The length of a symbol in bytes, from 1 to 65,535.
        symbol: u32,
        /// The number of source symbols, from 1 to 65,536.
        k: u32,
        /// The number of encoding symbols, from `k` to 65,536.
        n: u32,
        /// Which packets are lost.
        loss: LossKind,
        /// Whether packets are sent in a random order; else in that of their numbers.
        random: bool,
        /// The number of runs, from 1 to 1000.
        runs: u32,
        /// The seed of all draws but the code's, from 1 to 2,147,483,646.
        run_seed: u32,
        /// Whether each run tells how many of the symbols that arrive determine the block.
        threshold: bool,
    },
    /// Makes a frame of each datagram of a stream.
    Frame {
        /// The length of a frame in bytes, from 3 to 65,535.
        symbol: u32,
    },
    /// Makes a stream of the datagrams of frames.
    Unframe {
        /// The length of a frame in bytes, from 3 to 65,535.
        symbol: u32,
    },
    /// Makes of a packet file what its packets determine of the object.
    Salvage {
        /// How many draws the code may take, if that is limited.
        draws: Option<u32>,
        /// How many packets may be read, at most 16,777,216.
        packets: u32,
    },
}

// The options of `encode`.
pub fn encode_options() -> [OptionRow; 9]
    ensures { map listed result ≡ encode_options }
{
    [
        CODEC,
        SYMBOL.row(),
        N1.row(),
        SEED.row(),
        WIDTH.row(),
        BLOCK.row(),
        MAX_N.row(),
        DRAWS.row(),
        FORMAT.row(),
    ]
}

// The `encode` that is given. None where the codec excludes an option that is given, or where there
// are fewer encoding symbols than source symbols or too many.
pub fn read_encode(given: &ArgMatches) -> Option<Command>
    ensures value { result ≡ encode_of (given_of given.now) }
    ensures in_range { IfSome result IsInRange }
{
    let shape = shape_given(given, &MAX_N)?;
    let block = number_or(given, &BLOCK);
    let max_n = symbols_given(given, &MAX_N, &shape, block)?;
    Some(Command::Encode {
        shape,
        symbol: number_or(given, &SYMBOL),
        block,
        max_n,
        format: number_or(given, &FORMAT) as u8,
    })
}

// The options of `decode`.
pub fn decode_options() -> [OptionRow; 3]
    ensures { map listed result ≡ decode_options }
{
    [DRAWS.row(), EARLY, PACKETS.row()]
}

// The `decode` that is given.
pub fn read_decode(given: &ArgMatches) -> Command
    ensures value { result ≡ decode_of (given_of given.now) }
    ensures in_range { IsInRange result }
{
    Command::Decode {
        draws: number_given(given, &DRAWS),
        early: is_yes(given, &EARLY),
        packets: number_or(given, &PACKETS),
    }
}

// The options of `lose`.
pub fn lose_options() -> [OptionRow; 3]
    ensures { map listed result ≡ lose_options }
{
    [LOSS, SEED.row(), PACKETS.row()]
}

// The `lose` that is given.
pub fn read_lose(given: &ArgMatches) -> Command
    ensures value { result ≡ lose_of (given_of given.now) }
    ensures in_range { IsInRange result }
{
    Command::Lose {
        loss: loss_given(given),
        seed: number_or(given, &SEED),
        packets: number_or(given, &PACKETS),
    }
}

// The options of `show`.
pub fn show_options() -> [OptionRow; 1]
    ensures { map listed result ≡ show_options }
{
    [PACKETS.row()]
}

// The `show` that is given.
pub fn read_show(given: &ArgMatches) -> Command
    ensures value { result ≡ show_of (given_of given.now) }
    ensures in_range { IsInRange result }
{
    Command::Show {
        packets: number_or(given, &PACKETS),
    }
}

// The options of `upgrade`.
pub fn upgrade_options() -> [OptionRow; 1]
    ensures { map listed result ≡ upgrade_options }
{
    [PACKETS.row()]
}

// The `upgrade` that is given.
pub fn read_upgrade(given: &ArgMatches) -> Command
    ensures value { result ≡ upgrade_of (given_of given.now) }
    ensures in_range { IsInRange result }
{
    Command::Upgrade {
        packets: number_or(given, &PACKETS),
    }
}

// The options of `perf`.
pub fn perf_options() -> [OptionRow; 13]
    ensures { map listed result ≡ perf_options }
{
    [
        CODEC,
        PERF_SYMBOL.row(),
        N1.row(),
        SEED.row(),
        WIDTH.row(),
        DRAWS.row(),
        K.row(),
        N.row(),
        LOSS,
        ORDER,
        RUNS.row(),
        RUN_SEED.row(),
        THRESHOLD,
    ]
}

// The `perf` that is given. None where the codec excludes an option that is given, or where there
// are fewer encoding symbols than source symbols or too many.
pub fn read_perf(given: &ArgMatches) -> Option<Command>
    ensures value { result ≡ perf_of (given_of given.now) }
    ensures in_range { IfSome result IsInRange }
{
    let shape = shape_given(given, &N)?;
    let k = number_or(given, &K);
    let n = symbols_given(given, &N, &shape, k)?;
    Some(Command::Perf {
        shape,
        symbol: number_or(given, &PERF_SYMBOL),
        k,
        n,
        loss: loss_given(given),
        random: is_random(given),
        runs: number_or(given, &RUNS),
        run_seed: number_or(given, &RUN_SEED),
        threshold: is_yes(given, &THRESHOLD),
    })
}

// The options of `frame` and of `unframe`.
pub fn frame_options() -> [OptionRow; 1]
    ensures { map listed result ≡ frame_options }
{
    [FRAME_SYMBOL.row()]
}

// The `frame` that is given.
pub fn read_frame(given: &ArgMatches) -> Command
    ensures value { result ≡ frame_of (given_of given.now) }
    ensures in_range { IsInRange result }
{
    Command::Frame {
        symbol: number_or(given, &FRAME_SYMBOL),
    }
}

// The `unframe` that is given.
pub fn read_unframe(given: &ArgMatches) -> Command
    ensures value { result ≡ unframe_of (given_of given.now) }
    ensures in_range { IsInRange result }
{
    Command::Unframe {
        symbol: number_or(given, &FRAME_SYMBOL),
    }
}

// The options of `salvage`.
pub fn salvage_options() -> [OptionRow; 2]
    ensures { map listed result ≡ salvage_options }
{
    [DRAWS.row(), PACKETS.row()]
}

// The `salvage` that is given.
pub fn read_salvage(given: &ArgMatches) -> Command
    ensures value { result ≡ salvage_of (given_of given.now) }
    ensures in_range { IsInRange result }
{
    Command::Salvage {
        draws: number_given(given, &DRAWS),
        packets: number_or(given, &PACKETS),
    }
}
