ghost use Rattle.std.specs.Prelude.{◌≡◌, ◌+◌, ◌*◌, ◌^◌, ◌<◌, ◌≤◌, length};
ghost use Rattle.std.specs.Char as chars;
ghost use Rattle.tcl_text.specs.Backslash as backslash;
ghost use Rattle.tcl_text.specs.Escaped.{digits_seen, escape_seen};

use crate::integer::digit_value;

/// What a backslash and the bytes behind it stand for.
#[derive(Clone, Copy)]
pub enum Meaning {
    /// The byte, which may be one of several of its character.
    Byte(u8),
    /// The character, whole.
    Character(char),
}

/// What a backslash stands for, and how many bytes behind it it takes.
#[derive(Clone, Copy)]
pub struct Escape {
    pub meaning: Meaning,
    pub length: usize,
}

/// The number that digits spell, and how many there are.
#[derive(Clone, Copy)]
struct Digits {
    value: u32,
    count: usize,
}

/// What a backslash before these bytes stands for, by the rules of Tcl(n). Digits stop before the number passes the greatest of
/// their form, as 10FFFF behind `U`; half of a surrogate pair gives U+FFFD. A backslash before no byte stands for itself.
#[tactic(auto, unfolding(crate::specs::Backslash::escape))]
pub fn escape_behind(behind: &[u8]) -> Escape
    ensures exact { escape_seen result ≡ backslash.escape behind.now }
    ensures within { result.length ≤ length behind.now }
{
    let Some((first, others)) = behind.split_first() else {
        return Escape {
            meaning: Meaning::Byte(b'\\'),
            length: 0,
        };
    };
    match *first {
        b'\n' => Escape {
            meaning: Meaning::Byte(b' '),
            length: blanks(others) + 1,
        },
        b'0'..=b'7' => numbered(*first, 0, leading_digits(8, 0xFF, 3, behind)),
        b'x' => numbered(b'x', 1, leading_digits(16, 0xFF, 2, others)),
        b'u' => numbered(b'u', 1, leading_digits(16, 0xFFFF, 4, others)),
        b'U' => numbered(b'U', 1, leading_digits(16, 0x10_FFFF, 8, others)),
        letter => Escape {
            meaning: Meaning::Byte(named(letter)),
            length: 1,
        },
    }
}

/// How many blanks and tabs stand in front.
fn blanks(text: &[u8]) -> usize
    ensures count { result ≡ backslash.blanks text.now }
    ensures within { result ≤ length text.now }
{
    for (count, byte) in text.iter().enumerate() {
        if *byte != b' ' && *byte != b'\t' {
            return count;
        }
    }
    text.len()
}

/// Whether a backslash before this byte takes no other, whatever stands behind it.
#[inline]
pub fn is_alone(byte: u8) -> bool
    ensures { result ≡ backslash.is_alone byte }
{
    !(byte == b'\n'
        || (b'0' <= byte && byte <= b'7')
        || byte == b'x'
        || byte == b'u'
        || byte == b'U')
}

/// The control character that a letter names, or the byte itself.
#[inline]
pub fn named(letter: u8) -> u8
    ensures { result ≡ backslash.named letter }
{
    match letter {
        b'a' => 7,
        b'b' => 8,
        b'f' => 12,
        b'n' => 10,
        b'r' => 13,
        b't' => 9,
        b'v' => 11,
        other => other,
    }
}

/// The digits in front: at most `most` of them, and none with which the number would pass the bound.
#[tactic(auto, using(crate::proofs::BackslashLemmas::digit_steps))]
fn leading_digits(base: u32, bound: u32, most: usize, text: &[u8]) -> Digits
    requires base { base ≤ 16 }
    requires bound { bound < 2 ^ 24 }
    ensures value { digits_seen result ≡ backslash.digits_from base bound most 0 text.now }
    ensures bounded { result.value ≤ bound }
    ensures within { result.count ≤ length text.now }
{
    let mut value = 0;
    let mut rest = text;
    let mut left = most;
    while left > 0 {
        let Some((first, others)) = rest.split_first() else {
            break;
        };
        let digit = u32::from(digit_value(*first));
        if base <= digit || bound < value * base + digit {
            break;
        }
        value = value * base + digit;
        rest = others;
        left -= 1;
    }
    Digits {
        value,
        count: most - left,
    }
}

/// The character that digits give, or where there are none the letter before them.
fn numbered(letter: u8, before: usize, digits: Digits) -> Escape
    requires value { digits.value ≤ 0x10FFFF }
    requires room { before + digits.count < 2 ^ 64 }
    ensures { escape_seen result ≡ backslash.numbered letter before (digits_seen digits) }
{
    if digits.count == 0 {
        return Escape {
            meaning: Meaning::Byte(letter),
            length: 1,
        };
    }
    Escape {
        meaning: Meaning::Character(char::from_u32(digits.value).unwrap_or('\u{FFFD}')),
        length: before + digits.count,
    }
}
