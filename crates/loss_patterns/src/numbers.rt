// Numbers as the command line writes them.
ghost use Rattle.std.specs.Prelude.{◌≡◌, ◌≤◌, IfSome};
ghost use Rattle.std.specs.List.{list_all};
ghost use Rattle.std.specs.Char.{is_ascii_digit};
ghost use Rattle.loss_patterns.specs.Numbers.{is_numeral, number_in};

/// The number that the text writes, where it is one from `low` to `high`: decimal digits without a
/// sign, and without a leading zero but in `0` itself. Any other text gives none.
pub fn read_number(text: &[u8], low: u32, high: u32) -> Option<u32>
    ensures value { result ≡ number_in low high text.now }
    ensures low { IfSome result (λ n. low ≤ n) }
    ensures high { IfSome result (λ n. n ≤ high) }
{
    if !is_numeral(text) {
        return None;
    }
    let mut number: u64 = 0;
    for digit in text {
        number = number * 10 + (*digit - b'0') as u64;
        // It only grows, and would outgrow any type.
        if number > high as u64 {
            return None;
        }
    }
    let number = number as u32;
    if number < low {
        return None;
    }
    Some(number)
}

// Whether the text is decimal digits, without a sign, and without a leading zero but in `0` itself.
fn is_numeral(text: &[u8]) -> bool
    ensures { result ≡ is_numeral text.now }
{
    if text.is_empty() {
        return false;
    }
    if text[0] == b'0' && text.len() != 1 {
        return false;
    }
    are_digits(text)
}

// Whether each byte is a decimal digit.
fn are_digits(text: &[u8]) -> bool
    ensures { result ≡ list_all is_ascii_digit text.now }
{
    for digit in text {
        if !digit.is_ascii_digit() {
            return false;
        }
    }
    true
}
