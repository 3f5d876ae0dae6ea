// The options of the commands, each once: the words are tested and read by these values alone.
use crate::options::{NumberRow, OptionRow, RangeRow, ValueKind};

// The codec.
pub const CODEC: OptionRow = OptionRow {
    name: "codec",
    values: ValueKind::CodecWord,
};

// How many turns a source symbol takes at being put into a row, if there are so many rows.
pub const N1: NumberRow = NumberRow {
    range: RangeRow {
        name: "n1",
        low: 3,
        high: 10,
    },
    default: 3,
};

// The seed of a code, or of the draws of `lose`.
pub const SEED: NumberRow = NumberRow {
    range: RangeRow {
        name: "seed",
        low: 1,
        high: 2_147_483_646,
    },
    default: 1,
};

// The width of a grid.
pub const WIDTH: NumberRow = NumberRow {
    range: RangeRow {
        name: "width",
        low: 1,
        high: 65_536,
    },
    default: 10,
};

// How many draws a code may take.
pub const DRAWS: RangeRow = RangeRow {
    name: "draws",
    low: 0,
    high: 4_294_967_295,
};

// The length of a symbol in bytes, for `encode`.
pub const SYMBOL: NumberRow = NumberRow {
    range: RangeRow {
        name: "symbol",
        low: 1,
        high: 65_535,
    },
    default: 1024,
};

// The length of a symbol in bytes, for `perf`.
pub const PERF_SYMBOL: NumberRow = NumberRow {
    range: RangeRow {
        name: "symbol",
        low: 1,
        high: 65_535,
    },
    default: 16,
};

// The length of a symbol in bytes, for `frame` and `unframe`.
pub const FRAME_SYMBOL: NumberRow = NumberRow {
    range: RangeRow {
        name: "symbol",
        low: 3,
        high: 65_535,
    },
    default: 1024,
};

// The greatest number of source symbols of a block.
pub const BLOCK: NumberRow = NumberRow {
    range: RangeRow {
        name: "block",
        low: 1,
        high: 65_536,
    },
    default: 1000,
};

// The greatest number of encoding symbols of a block.
pub const MAX_N: RangeRow = RangeRow {
    name: "max-n",
    low: 1,
    high: 65_536,
};

// The number of source symbols.
pub const K: NumberRow = NumberRow {
    range: RangeRow {
        name: "k",
        low: 1,
        high: 65_536,
    },
    default: 1000,
};

// The number of encoding symbols.
pub const N: RangeRow = RangeRow {
    name: "n",
    low: 1,
    high: 65_536,
};

// Whether to stop early.
pub const EARLY: OptionRow = OptionRow {
    name: "early",
    values: ValueKind::YesOrNo,
};

// The version of the packet file that `encode` makes.
pub const FORMAT: NumberRow = NumberRow {
    range: RangeRow {
        name: "format",
        low: 1,
        high: 2,
    },
    default: 1,
};

// How many packets may be read.
pub const PACKETS: NumberRow = NumberRow {
    range: RangeRow {
        name: "packets",
        low: 0,
        high: 16_777_216,
    },
    default: 16_777_216,
};

// The loss.
pub const LOSS: OptionRow = OptionRow {
    name: "loss",
    values: ValueKind::LossText,
};

// The order of sending.
pub const ORDER: OptionRow = OptionRow {
    name: "order",
    values: ValueKind::OrderWord,
};

// The number of runs.
pub const RUNS: NumberRow = NumberRow {
    range: RangeRow {
        name: "runs",
        low: 1,
        high: 1000,
    },
    default: 1,
};

// The seed of all that `perf` draws.
pub const RUN_SEED: NumberRow = NumberRow {
    range: RangeRow {
        name: "run-seed",
        low: 1,
        high: 2_147_483_646,
    },
    default: 1,
};

// Whether each run tells how many of the symbols that arrive determine the block.
pub const THRESHOLD: OptionRow = OptionRow {
    name: "threshold",
    values: ValueKind::YesOrNo,
};
