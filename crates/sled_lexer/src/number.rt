// Numbers: how long one is, and which number it writes.

ghost use Rattle.std.specs.Prelude.{◌≡◌, ◌<◌, ◌≤◌, length, true, None, if◌then◌else◌};
ghost use Rattle.std.specs.Str.Parse.{digits_value};
ghost use Rattle.std.specs.Char.{digit_value};
ghost use Rattle.std.specs.List.{list_all};
ghost use Rattle.sled_lexer.specs.Spelled as meaning;
ghost use Rattle.sled_lexer.specs.Cut as spec;

use crate::Kind;
use crate::piece::{Set, Stop, is_in, run};
use sled_base::MAX_NUMBER;

/// Whether a hexadecimal Number stands at the front.
#[tactic(auto, unfolding(crate::specs::Cut::begins_hex))]
fn begins_hex(text: &[u8]) -> bool
    ensures value { result ≡ spec.begins_hex text.now }
    ensures within { result ≡ true → 2 < length text.now }
{
    text.len() > 2 && text.starts_with(b"0x") && text[2].is_ascii_hexdigit()
}

/// How long the longest Number at the front is.
#[tactic(auto, unfolding(crate::specs::Cut::number_len))]
fn number_len(text: &[u8]) -> usize
    ensures value { result ≡ spec.number_len text.now }
    ensures within { result ≤ length text.now }
{
    if begins_hex(text) {
        2 + run(Set::Hex, &text[2..])
    } else {
        run(Set::Digit, text)
    }
}

/// The value of a digit, or 36 for a byte that is none.
fn digit(b: u8) -> u64
    ensures value { result ≡ digit_value b }
    ensures small { result ≤ 36 }
{
    char::from(b).to_digit(36).map_or(36, u64::from)
}

/// The value of the digits, if it is not above the greatest Number.
fn digits_value(base: u64, digits: &[u8]) -> Option<u32>
    requires low { 1 ≤ base }
    requires high { base ≤ 16 }
    ensures { result ≡ meaning.within_limit (digits_value base digits.now) }
{
    let mut value = 0;
    for d in digits {
        value = value * base + digit(*d);
        if value > u64::from(MAX_NUMBER) {
            return None;
        }
    }
    Some(value as u32)
}

/// The number that the bytes of a Number write, in decimal or behind `0x` in hexadecimal digits: None exactly where it is above
/// 4,294,967,295.
#[tactic(auto, unfolding(crate::specs::Spelled::number_value))]
pub fn number_in_range(number: &[u8]) -> Option<u32>
    ensures { result ≡ meaning.within_limit (meaning.number_value number.now) }
{
    match number.strip_prefix(b"0x") {
        Some(digits) => digits_value(16, digits),
        None => digits_value(10, number),
    }
}

/// The Number at the front of a text that begins with a digit.
#[tactic(auto, unfolding(crate::specs::Cut::number_cut))]
pub fn cut(text: &[u8]) -> Result<(Kind, usize), Stop>
    ensures { result ≡ spec.number_cut text.now }
{
    let len = number_len(text);
    match number_in_range(&text[..len]) {
        Some(_) => Ok((Kind::Number, len)),
        None => Err(Stop::NumberTooBig),
    }
}

/// The number that a Number writes: in hexadecimal digits behind `0x`, and else in decimal digits.
///
/// It is at most 4,294,967,295, as it is for each Number that `lex` finds.
pub fn number_value(spelling: &[u8]) -> u32
    requires { meaning.number_value spelling.now ≤ MAX_NUMBER }
    ensures { result ≡ meaning.number_value spelling.now }
{
    number_in_range(spelling).unwrap()
}

/// The number of a text that is spelled as a Number: None exactly where it is not, or the number is above 4,294,967,295.
pub fn parse_number(text: &[u8]) -> Option<u32>
    ensures { result ≡ (if meaning.is_number text.now then meaning.within_limit (meaning.number_value text.now) else None) }
{
    if !is_number(text) {
        return None;
    }
    number_in_range(text)
}

fn is_number(text: &[u8]) -> bool
    ensures { result ≡ meaning.is_number text.now }
{
    if is_run(Set::Digit, text) {
        return true;
    }
    match text.strip_prefix(b"0x") {
        Some(digits) => is_run(Set::Hex, digits),
        None => false,
    }
}

/// Whether there is a byte, and each is of the set.
fn is_run(set: Set, text: &[u8]) -> bool
    ensures { result ≡ meaning.is_run (spec.is_in set) text.now }
{
    let Some((first, rest)) = text.split_first() else {
        return false;
    };
    if !is_in(set, *first) {
        return false;
    }
    all_in(set, rest)
}

fn all_in(set: Set, text: &[u8]) -> bool
    ensures { result ≡ list_all (spec.is_in set) text.now }
{
    text.iter().all(|b| is_in(set, *b))
}
