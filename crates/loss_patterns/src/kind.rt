// The losses, and the texts that name them.
ghost use Rattle.std.specs.Prelude.{◌≡◌, IfSome};
ghost use Rattle.std.specs.List.{before_first, after_first};
ghost use Rattle.loss_patterns.specs.Kinds.{burst_of, is_colon, loss_named, loss_of};
ghost use Rattle.loss_patterns.specs.Ranges.{IsLoss};

use crate::read_number;

// The greatest number of packets that a loss of the first ones takes.
const MAX_FIRST: u32 = 16_777_216;

// A chance of one, in thousandths.
const THOUSAND: u32 = 1000;

/// Which packets of a sequence are lost. Chances are thousandths, from 0 to 1000.
#[derive(Clone, Copy, Debug, PartialEq, Eq)]
pub enum LossKind {
    /// None.
    None,
    /// So many packets, the first ones: 0 to 16,777,216.
    First(u32),
    /// Each packet alike, with this chance.
    Even(u32),
    /// Packets in bursts, by Gilbert's channel of two states. In the good state it turns bad with
    /// the first chance, and in the bad one it turns good with the second. It begins good, may turn
    /// before each packet, the first included, and keeps the packets that find it good.
    Burst(u32, u32),
}

/// The loss that the text names: `none`, `first:X`, `even:P` or `burst:P:Q`, with X from 0 to
/// 16,777,216, and P and Q from 0 to 1000. Numbers are decimal digits without a sign, and without a
/// leading zero but in `0` itself. Any other text names none.
pub fn read_loss(text: &str) -> Option<LossKind>
    ensures value { result ≡ loss_of text.now }
    ensures in_range { IfSome result IsLoss }
{
    if text == "none" {
        return Some(LossKind::None);
    }
    let (name, numbers) = split_at_colon(text);
    read_named(name, numbers)
}

// The loss of this name with these numbers.
fn read_named(name: &str, numbers: &str) -> Option<LossKind>
    ensures value { result ≡ loss_named name.now numbers.now }
    ensures in_range { IfSome result IsLoss }
{
    if name == "first" {
        let lost = read_number(numbers.as_bytes(), 0, MAX_FIRST)?;
        return Some(LossKind::First(lost));
    }
    if name == "even" {
        let chance = read_number(numbers.as_bytes(), 0, THOUSAND)?;
        return Some(LossKind::Even(chance));
    }
    if name == "burst" {
        return read_burst(numbers);
    }
    None
}

// The loss in bursts with these two numbers.
fn read_burst(numbers: &str) -> Option<LossKind>
    ensures value { result ≡ burst_of numbers.now }
    ensures in_range { IfSome result IsLoss }
{
    let (first, second) = split_at_colon(numbers);
    let begins = read_number(first.as_bytes(), 0, THOUSAND)?;
    let ends = read_number(second.as_bytes(), 0, THOUSAND)?;
    Some(LossKind::Burst(begins, ends))
}

// The parts of the text before its first colon and after it. Without a colon they are all of it,
// and nothing, which is no number.
fn split_at_colon(text: &str) -> (&str, &str)
    ensures before { result.0.now ≡ before_first is_colon text.now }
    ensures after { result.1.now ≡ after_first is_colon text.now }
{
    match text.split_once(':') {
        Some(parts) => parts,
        None => (text, ""),
    }
}
