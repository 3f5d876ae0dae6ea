// The options that words give, found by clap and tested by a table.
ghost use Rattle.std.specs.Prelude.{◌≡◌, ◌<◌, IfOk, Option, Some, drop, length, map, option_map};
ghost use Rattle.std.specs.Prelude.{true};
ghost use Rattle.std.specs.List.{list_all, list_any};
ghost use Rattle.std.specs.Option.{option_map_or};
ghost use Rattle.tool_base.specs.Reading.{is_dashes};
ghost use Rattle.tool_base.specs.Options.{codec_of, codec_word, is_value, options_given};
ghost use Rattle.tool_base.specs.Options.{takes_number, takes_range};
ghost use Rattle.tool_base.specs.Reading.{Matches, given_of, listed, numbered_option, ranged};

use clap::error::ErrorKind;
use clap::{Arg, ArgAction, ArgMatches, Command};
use fec_base::NoMemory;
use loss_patterns::{read_loss, read_number};
use oti_fields::Codec;
use std::alloc::Global;

// Which values an option takes.
#[derive(Clone, Copy, Debug, PartialEq, Eq)]
pub enum ValueKind {
    // A number from the first to the second.
    Number(u32, u32),
    // `yes` or `no`.
    YesOrNo,
    // The word of a codec.
    CodecWord,
    // The text of a loss.
    LossText,
    // `sent` or `random`.
    OrderWord,
}

impl ValueKind {
    // Whether the text is one of the values.
    pub fn has(self, text: &str) -> bool
        ensures { result ≡ is_value self text.now }
    {
        match self {
            ValueKind::Number(low, high) => read_number(text.as_bytes(), low, high).is_some(),
            ValueKind::YesOrNo => text == "yes" || text == "no",
            ValueKind::CodecWord => read_codec(text).is_some(),
            ValueKind::LossText => read_loss(text).is_some(),
            ValueKind::OrderWord => text == "sent" || text == "random",
        }
    }
}

/// The word of a codec, as the words of a command have it.
pub fn codec_word(codec: Codec) -> &'static str
    ensures value { result.now ≡ codec_word codec }
    ensures read { codec_of result.now ≡ Some codec }
{
    match codec {
        Codec::Staircase => "staircase",
        Codec::Triangle => "triangle",
        Codec::Parity2d => "2d",
        Codec::Corner2d => "2d-corner",
    }
}

// The codec of a word.
pub fn read_codec(text: &str) -> Option<Codec>
    ensures { result ≡ codec_of text.now }
{
    if text == "staircase" {
        return Some(Codec::Staircase);
    }
    if text == "triangle" {
        return Some(Codec::Triangle);
    }
    if text == "2d" {
        return Some(Codec::Parity2d);
    }
    if text == "2d-corner" {
        return Some(Codec::Corner2d);
    }
    None
}

// A row of a table of options: the name of an option, and the values that it takes.
#[derive(Clone, Copy, Debug)]
pub struct OptionRow {
    pub name: &'static str,
    pub values: ValueKind,
}

// An option whose values are the numbers from `low` to `high`.
#[derive(Clone, Copy, Debug)]
pub struct RangeRow {
    pub name: &'static str,
    pub low: u32,
    pub high: u32,
}

impl RangeRow {
    // The row of a table that takes these numbers.
    pub fn row(&self) -> OptionRow
        ensures { listed result ≡ takes_range (ranged self.now) }
    {
        OptionRow {
            name: self.name,
            values: ValueKind::Number(self.low, self.high),
        }
    }
}

// Such an option, and the number that stands for it where none is given.
#[derive(Clone, Copy, Debug)]
pub struct NumberRow {
    pub range: RangeRow,
    pub default: u32,
}

impl NumberRow {
    // The row of a table that takes the numbers of the range.
    pub fn row(&self) -> OptionRow
        ensures { listed result ≡ takes_number (numbered_option self.now) }
    {
        self.range.row()
    }
}

// The matches of what the words after the first give of these options. None where they are no items
// of them, where an option comes twice, or where a value is none of its option's.
pub fn read_options<'a>(
    alloc: Global,
    options: &[OptionRow],
    words: &'a [&'a str],
) -> Result<Option<ArgMatches<'a>>, NoMemory>
    requires { 0 < length words.now }
    ensures { IfOk result (λ found. option_map given_of found
        ≡ options_given (map listed options.now) (drop 1 (map (λ w. w.now) words.entry.now))) }
{
    match find_options(alloc, options, words)? {
        Some(matches) => {
            if values_fit(options, &matches) {
                Ok(Some(matches))
            } else {
                Ok(None)
            }
        }
        None => Ok(None),
    }
}

// What clap finds of the options in the words after the first, whatever the values are. To clap
// `--` ends the options, and here no word may be it.
fn find_options<'a>(
    alloc: Global,
    options: &[OptionRow],
    words: &'a [&'a str],
) -> Result<Option<ArgMatches<'a>>, NoMemory>
    requires { 0 < length words.now }
    ensures { IfOk result
        (Matches (map (λ o. o.name.now) options.now) (drop 1 (map (λ w. w.now) words.entry.now))) }
{
    if has_dashes(&words[1..]) {
        return Ok(None);
    }
    let mut command = Command::new(alloc, "eperftool").disable_help_flag(true);
    for option in options {
        let arg = Arg::new(alloc, option.name)
            .long(option.name)
            .action(ArgAction::Set);
        command = command.arg(arg)?;
    }
    match command.try_get_matches_from(words) {
        Ok(matches) => Ok(Some(matches)),
        Err(error) => {
            if error.kind() == ErrorKind::OutOfMemory {
                return Err(NoMemory);
            }
            Ok(None)
        }
    }
}

// Whether a word is `--`.
fn has_dashes(words: &[&str]) -> bool
    ensures { result ≡ list_any (λ w. is_dashes w.now) words.now }
{
    words.iter().any(|word| *word == "--")
}

// Whether the value that is given for each option, if any, is one of its values.
fn values_fit(options: &[OptionRow], matches: &ArgMatches) -> bool
    ensures { result
        ≡ list_all (λ o. option_map_or (is_value o.values) (given_of matches.now o.name.now) true)
        options.now }
{
    options.iter().all(|option| value_fits(option, matches))
}

// Whether the value that is given for the option, if any, is one of its values.
fn value_fits(option: &OptionRow, matches: &ArgMatches) -> bool
    ensures { result
        ≡ option_map_or (is_value option.now.values) (given_of matches.now option.now.name.now)
        true }
{
    match matches.get_str(option.name) {
        Some(text) => option.values.has(text),
        None => true,
    }
}
