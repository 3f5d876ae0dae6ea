// The values that are given, or the defaults, once the table has let them pass.
ghost use Rattle.std.specs.Prelude.{◌≡◌, ◌≤◌, ◌∷◌, [], IfSome};
ghost use Rattle.oti_fields.specs.Grids.{grid_size};
ghost use Rattle.loss_patterns.specs.Ranges.{IsLoss};
ghost use Rattle.tool_base.specs.Reading.{given_of, listed, numbered_option, ranged};
ghost use Rattle.tool_base.specs.Ranges.{IsShapeInRange};
ghost use Rattle.tool_base.specs.Given.{codec_given, gives_any, gives_excluded, is_random};
ghost use Rattle.tool_base.specs.Given.{is_yes, loss_given, number_given, number_or, shape_of};
ghost use Rattle.tool_base.specs.Given.{symbols_given, symbols_wanted};

use crate::Shape;
use crate::options::{NumberRow, OptionRow, RangeRow, read_codec};
use crate::table::{CODEC, DRAWS, LOSS, N1, ORDER, SEED, WIDTH};
use clap::ArgMatches;
use loss_patterns::{LossKind, read_loss, read_number};
use oti_fields::Codec;

// The number that is given, where it is one of the option's.
pub fn number_given(given: &ArgMatches, option: &RangeRow) -> Option<u32>
    ensures value { result ≡ number_given (ranged option.now) (given_of given.now) }
    ensures low { IfSome result (λ n. option.now.low ≤ n) }
    ensures high { IfSome result (λ n. n ≤ option.now.high) }
{
    match given.get_str(option.name) {
        Some(text) => read_number(text.as_bytes(), option.low, option.high),
        None => None,
    }
}

// The number that is given, or the default.
pub fn number_or(given: &ArgMatches, option: &NumberRow) -> u32
    requires low { option.now.range.low ≤ option.now.default }
    requires high { option.now.default ≤ option.now.range.high }
    ensures value { result ≡ number_or (numbered_option option.now) (given_of given.now) }
    ensures low { option.now.range.low ≤ result }
    ensures high { result ≤ option.now.range.high }
{
    match number_given(given, &option.range) {
        Some(number) => number,
        None => option.default,
    }
}

// Whether `yes` is given.
pub fn is_yes(given: &ArgMatches, option: &OptionRow) -> bool
    ensures { result ≡ is_yes (listed option.now) (given_of given.now) }
{
    match given.get_str(option.name) {
        Some(text) => text == "yes",
        None => false,
    }
}

// Whether the order is random: it is unless `sent` is given.
pub fn is_random(given: &ArgMatches) -> bool
    ensures { result ≡ is_random (given_of given.now) }
{
    match given.get_str(ORDER.name) {
        Some(text) => text == "random",
        None => true,
    }
}

// The codec that is given, or the staircase.
fn codec_given(given: &ArgMatches) -> Codec
    ensures { result ≡ codec_given (given_of given.now) }
{
    match given.get_str(CODEC.name) {
        Some(text) => match read_codec(text) {
            Some(codec) => codec,
            None => Codec::Staircase,
        },
        None => Codec::Staircase,
    }
}

// The loss that is given, or that of no packet.
pub fn loss_given(given: &ArgMatches) -> LossKind
    ensures value { result ≡ loss_given (given_of given.now) }
    ensures in_range { IsLoss result }
{
    match given.get_str(LOSS.name) {
        Some(text) => match read_loss(text) {
            Some(loss) => loss,
            None => LossKind::None,
        },
        None => LossKind::None,
    }
}

// Whether the option is given.
fn gives(given: &ArgMatches, name: &str) -> bool
    ensures { result ≡ gives_any (name.now ∷ []) (given_of given.now) }
{
    given.get_str(name).is_some()
}

// Whether an option is given that the codec excludes. `most` is that of the number of encoding
// symbols.
fn gives_excluded(given: &ArgMatches, most: &RangeRow) -> bool
    ensures { result ≡ gives_excluded (ranged most.now) (given_of given.now) }
{
    if codec_given(given).is_grid() {
        gives(given, N1.range.name)
            || gives(given, SEED.range.name)
            || gives(given, most.name)
            || gives(given, DRAWS.name)
    } else {
        gives(given, WIDTH.range.name)
    }
}

// The code that is given. None where its codec excludes an option that is given.
pub fn shape_given(given: &ArgMatches, most: &RangeRow) -> Option<Shape>
    ensures value { result ≡ shape_of (ranged most.now) (given_of given.now) }
    ensures in_range { IfSome result IsShapeInRange }
{
    if gives_excluded(given, most) {
        return None;
    }
    Some(Shape {
        codec: codec_given(given),
        n1: number_or(given, &N1),
        seed: number_or(given, &SEED),
        width: number_or(given, &WIDTH),
        draws: number_given(given, &DRAWS),
    })
}

// The number of encoding symbols of k source symbols: what the grid makes of them, or what is given
// for `most`, or by default half as many again. None where it isn't from k to 65,536.
pub fn symbols_given(given: &ArgMatches, most: &RangeRow, shape: &Shape, k: u32) -> Option<u32>
    requires wide { 1 ≤ shape.now.width }
    requires some { 1 ≤ k }
    requires few { k ≤ 65536 }
    ensures value { result ≡ symbols_given (ranged most.now) shape.now k (given_of given.now) }
    ensures least { IfSome result (λ n. k ≤ n) }
    ensures most { IfSome result (λ n. n ≤ 65536) }
    ensures grid { IfSome result
        (λ n. IfSome (grid_size shape.now.codec k shape.now.width) (λ size. n ≡ size)) }
{
    let n = symbols_wanted(given, most, shape, k);
    if k as u64 <= n && n <= 65_536 {
        Some(n as u32)
    } else {
        None
    }
}

// The number of encoding symbols of k source symbols, whatever it is.
fn symbols_wanted(given: &ArgMatches, most: &RangeRow, shape: &Shape, k: u32) -> u64
    requires wide { 1 ≤ shape.now.width }
    requires some { 1 ≤ k }
    requires few { k ≤ 65536 }
    ensures value { result ≡ symbols_wanted (ranged most.now) shape.now k (given_of given.now) }
    ensures grid { IfSome (grid_size shape.now.codec k shape.now.width) (λ size. result ≡ size) }
{
    if let Some(n) = shape.codec.grid_size(k, shape.width) {
        return n;
    }
    match number_given(given, most) {
        Some(n) => n as u64,
        None => (3 * k as u64 / 2).min(65_536),
    }
}
