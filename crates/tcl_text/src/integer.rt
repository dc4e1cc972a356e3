ghost use Rattle.std.specs.Prelude.{◌≡◌, ◌+◌, ◌*◌, ◌^◌, ◌<◌, ◌≤◌, ◌↔◌, ℤ, IfOk, IsErr, SomeIff};
ghost use Rattle.std.specs.Char as chars;
ghost use Rattle.std.specs.Fmt.{signed_decimal};
ghost use Rattle.std.specs.Result.{result_ok};
ghost use Rattle.tcl_text.specs.Readings as readings;

use crate::fault::NotInteger;
use crate::number::{NUMBER_DIGITS, NumberText};
use crate::text::Text;
use crate::white_space::{is_blank, skip_white};
use itoa::Buffer;
use std::alloc::{AllocError, Global};

impl Text {
    /// The integer that the text spells, as Tcl's expr(n) reads one: an optional sign, then decimal digits, `0x`, `0o` or `0b`
    /// with digits, or octal digits after a leading 0, with white space around. `NotInteger` (1) for any other text, and where
    /// signed 64 bits don't hold the number. It takes one pass and no memory.
    pub fn integer(&self) -> Result<i64, NotInteger>
        ensures read { (n : ℤ) → (result ≡ Ok n) ↔ readings.IsInteger self.now n }
        ensures refused { IsErr result ↔ ((n : ℤ) → ¬ (readings.IsInteger self.now n)) }
        ensures exact { result_ok result ≡ readings.integer_of self.now }
    {
        integer_of_text(self).ok_or(NotInteger)
    }

    /// The decimal text of an integer, which is short enough to take no memory.
    pub fn from_integer(alloc: Global, number: i64) -> Result<Text, AllocError>
        ensures { IfOk result (λ text. text ≡ signed_decimal number) }
    {
        let mut buffer = Buffer::new();
        let digits = buffer.format(number);
        if digits.len() <= NUMBER_DIGITS {
            return Ok(Text::of_number(NumberText::new(number, digits)));
        }
        Text::of_short(alloc, digits)
    }
}

/// The integer that a text spells, if any.
pub fn integer_of_text(text: &Text) -> Option<i64>
    ensures { result ≡ readings.integer_of text.now }
{
    match text.number() {
        Some(number) => Some(number),
        None => integer_in(text.as_str().as_bytes()),
    }
}

/// The integer that the bytes spell, if any.
#[tactic(auto, using(crate::proofs::IntegerLemmas::signed_reading), unfolding(crate::specs::Readings::integer_of))]
pub fn integer_in(text: &[u8]) -> Option<i64>
    ensures { result ≡ readings.integer_of text.now }
{
    let rest = skip_white(text);
    let (first, others) = rest.split_first()?;
    match *first {
        b'-' => with_sign(true, numeral_of(others)),
        b'+' => with_sign(false, numeral_of(others)),
        _ => with_sign(false, numeral_of(rest)),
    }
}

/// The value of a digit or letter, from 0 to 35, and 36 for another byte.
#[inline]
pub fn digit_value(byte: u8) -> u8
    ensures { result ≡ chars.digit_value byte }
{
    match byte {
        b'0'..=b'9' => byte - b'0',
        b'A'..=b'Z' => byte - b'A' + 10,
        b'a'..=b'z' => byte - b'a' + 10,
        _ => 36,
    }
}

/// The base that a letter behind a leading 0 names.
pub fn base_named(letter: u8) -> Option<u8>
    ensures { result ≡ readings.base_named letter }
{
    match letter {
        b'x' | b'X' => Some(16),
        b'o' | b'O' => Some(8),
        b'b' | b'B' => Some(2),
        _ => None,
    }
}

/// The number with its sign, where it fits.
fn with_sign(negative: bool, number: Option<u64>) -> Option<i64>
    ensures { result ≡ readings.signed_option negative number }
{
    let number = number?;
    if number < 1 << 63 {
        let number = number as i64;
        Some(if negative { -number } else { number })
    } else if negative && number == 1 << 63 {
        Some(i64::MIN)
    } else {
        None
    }
}

/// The number that a numeral spells, where it is below 2^64.
fn numeral_of(text: &[u8]) -> Option<u64>
    ensures { result ≡ readings.below (2 ^ 64) (readings.numeral_of text.now) }
{
    match text {
        [b'0', others @ ..] => zero_numeral(others),
        _ => number_in(10, text),
    }
}

fn zero_numeral(text: &[u8]) -> Option<u64>
    ensures { result ≡ readings.below (2 ^ 64) (readings.zero_numeral text.now) }
{
    match text {
        [] => Some(0),
        [letter, digits @ ..] => match base_named(*letter) {
            Some(base) => number_in(u64::from(base), digits),
            None => number_from(8, 0, text),
        },
    }
}

/// The number that one digit or more spell.
fn number_in(base: u64, digits: &[u8]) -> Option<u64>
    requires { base ≤ 16 }
    ensures { result ≡ readings.below (2 ^ 64) (readings.number_in base digits.now) }
{
    let (first, others) = digits.split_first()?;
    let digit = u64::from(digit_value(*first));
    if digit < base {
        number_from(base, digit, others)
    } else {
        None
    }
}

/// The number with one more digit, where it is below 2^64.
#[inline]
fn with_digit(base: u64, number: u64, digit: u64) -> Option<u64>
    ensures { SomeIff result (number * base + digit < 2 ^ 64) (number * base + digit) }
{
    number.checked_mul(base)?.checked_add(digit)
}

/// The number whose digits so far spell `number`, and whose other digits the text has.
fn number_from(base: u64, mut number: u64, digits: &[u8]) -> Option<u64>
    requires { base ≤ 16 }
    ensures { result ≡ readings.below (2 ^ 64) (readings.number_from base number digits.now) }
{
    let mut rest = digits;
    while let [first, others @ ..] = rest {
        let digit = u64::from(digit_value(*first));
        if base <= digit {
            return if is_blank(rest) { Some(number) } else { None };
        }
        number = with_digit(base, number, digit)?;
        rest = others;
    }
    Some(number)
}
