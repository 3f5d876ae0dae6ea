// What the words of a command line ask for.
ghost use Rattle.std.specs.Prelude.{◌≡◌, ◌<◌, IfOk, IfSome, drop, length, map};
ghost use Rattle.tool_base.specs.Commands.{command_after, command_of, command_word_of};
ghost use Rattle.tool_base.specs.Ranges.{IsInRange};

use crate::Command;
use crate::command::{
    decode_options, encode_options, frame_options, lose_options, perf_options, read_decode,
    read_encode, read_frame, read_lose, read_perf, read_salvage, read_show, read_unframe,
    read_upgrade, salvage_options, show_options, upgrade_options,
};
use crate::options::read_options;
use fec_base::{NoMemory, Words};
use std::alloc::Global;

/// The command that the words ask for, with its options: the word of the command, and then items,
/// each `--name=value` or `--name` and `value` in two words, no option twice. `Ok(None)` is usage:
/// the words ask for nothing. What is read is in its ranges.
pub fn read_words(alloc: Global, words: &Words) -> Result<Option<Command>, NoMemory>
    ensures value { IfOk result (λ found. found ≡ command_of words.now) }
    ensures in_range { IfOk result (λ found. IfSome found IsInRange) }
{
    let texts = texts_of(alloc, words)?;
    read_texts(alloc, texts.as_slice())
}

// The texts of the words, in order.
fn texts_of(alloc: Global, words: &Words) -> Result<Vec<&str>, NoMemory>
    ensures { IfOk result (λ texts. map (λ w. w.now) texts.items ≡ words.now) }
{
    let mut texts = Vec::new(alloc);
    for i in 0..words.count() {
        texts.push(words.word(i))?;
    }
    Ok(texts)
}

// The command that the texts ask for.
fn read_texts(alloc: Global, words: &[&str]) -> Result<Option<Command>, NoMemory>
    ensures value { IfOk result (λ found. found ≡ command_of (map (λ w. w.now) words.now)) }
    ensures in_range { IfOk result (λ found. IfSome found IsInRange) }
{
    if words.is_empty() {
        return Ok(None);
    }
    match read_command_word(words[0]) {
        Some(word) => read_after(alloc, word, words),
        None => Ok(None),
    }
}

// The first word of a command.
#[derive(Clone, Copy, Debug, PartialEq, Eq)]
enum CommandWord {
    Encode,
    Decode,
    Lose,
    Show,
    Upgrade,
    Perf,
    Frame,
    Unframe,
    Salvage,
}

// The command that the word names.
fn read_command_word(word: &str) -> Option<CommandWord>
    ensures { result ≡ command_word_of word.now }
{
    if word == "encode" {
        return Some(CommandWord::Encode);
    }
    if word == "decode" {
        return Some(CommandWord::Decode);
    }
    if word == "lose" {
        return Some(CommandWord::Lose);
    }
    if word == "show" {
        return Some(CommandWord::Show);
    }
    if word == "upgrade" {
        return Some(CommandWord::Upgrade);
    }
    if word == "perf" {
        return Some(CommandWord::Perf);
    }
    if word == "frame" {
        return Some(CommandWord::Frame);
    }
    if word == "unframe" {
        return Some(CommandWord::Unframe);
    }
    if word == "salvage" {
        return Some(CommandWord::Salvage);
    }
    None
}

// The command of this word, by the words after it.
fn read_after(alloc: Global, word: CommandWord, words: &[&str]) -> Result<Option<Command>, NoMemory>
    requires { 0 < length words.now }
    ensures value { IfOk result (λ found. found
        ≡ command_after (drop 1 (map (λ w. w.now) words.now)) word) }
    ensures in_range { IfOk result (λ found. IfSome found IsInRange) }
{
    match word {
        CommandWord::Encode => match read_options(alloc, &encode_options(), words)? {
            Some(given) => Ok(read_encode(&given)),
            None => Ok(None),
        },
        CommandWord::Decode => match read_options(alloc, &decode_options(), words)? {
            Some(given) => Ok(Some(read_decode(&given))),
            None => Ok(None),
        },
        CommandWord::Lose => match read_options(alloc, &lose_options(), words)? {
            Some(given) => Ok(Some(read_lose(&given))),
            None => Ok(None),
        },
        CommandWord::Show => match read_options(alloc, &show_options(), words)? {
            Some(given) => Ok(Some(read_show(&given))),
            None => Ok(None),
        },
        CommandWord::Upgrade => match read_options(alloc, &upgrade_options(), words)? {
            Some(given) => Ok(Some(read_upgrade(&given))),
            None => Ok(None),
        },
        CommandWord::Perf => match read_options(alloc, &perf_options(), words)? {
            Some(given) => Ok(read_perf(&given)),
            None => Ok(None),
        },
        CommandWord::Frame => match read_options(alloc, &frame_options(), words)? {
            Some(given) => Ok(Some(read_frame(&given))),
            None => Ok(None),
        },
        CommandWord::Unframe => match read_options(alloc, &frame_options(), words)? {
            Some(given) => Ok(Some(read_unframe(&given))),
            None => Ok(None),
        },
        CommandWord::Salvage => match read_options(alloc, &salvage_options(), words)? {
            Some(given) => Ok(Some(read_salvage(&given))),
            None => Ok(None),
        },
    }
}
