//! Lines and words of a section.

ghost use Rattle.std.specs.Prelude.{◌≡◌, ◌<◌, ◌∷◌, length, map, IfOk};
ghost use Rattle.panels.specs.Words.{after, before_last, behind, front, has_word, lines_of, lines_with, number_at, value_behind, word};

use memchr::{memchr, memrchr};
use std::alloc::{AllocError, Global};

/// What stands before the first such byte; all where there is none.
pub(crate) fn front(text: &[u8], byte: u8) -> &[u8]
    ensures { result.now ≡ front byte text.now }
{
    match memchr(byte, text) {
        Some(at) => &text[..at],
        None => text,
    }
}

/// What stands behind the first such byte; nothing where there is none.
pub(crate) fn behind(text: &[u8], byte: u8) -> &[u8]
    ensures { result.now ≡ behind byte text.now }
{
    match memchr(byte, text) {
        Some(at) => &text[at + 1..],
        None => &text[text.len()..],
    }
}

/// What stands before the last such byte; all where there is none.
pub(crate) fn before_last(text: &[u8], byte: u8) -> &[u8]
    ensures { result.now ≡ before_last byte text.now }
{
    match memrchr(byte, text) {
        Some(at) => &text[..at],
        None => text,
    }
}

/// What stands behind so many words.
pub(crate) fn after(line: &[u8], count: usize) -> &[u8]
    ensures { result.now ≡ after count line.now }
{
    let mut rest = line;
    'words: for _skipped in 0..count {
        rest = behind(rest, b' ');
    }
    rest
}

/// The word of this number, from 0 on.
pub(crate) fn word(line: &[u8], number: usize) -> &[u8]
    ensures { result.now ≡ word number line.now }
{
    front(after(line, number), b' ')
}

/// The value of digits, up to the largest of 64 bits.
fn value(digits: &[u8]) -> u64
    ensures { result ≡ value_behind 0 digits.now }
{
    let mut number = 0u64;
    for digit in digits {
        number = number
            .saturating_mul(10)
            .saturating_add(u64::from(digit.saturating_sub(b'0')));
    }
    number
}

/// The number that a word spells; words are counted from 0 on.
pub(crate) fn number_at(line: &[u8], number: usize) -> u64
    ensures { result ≡ number_at number line.now }
{
    value(word(line, number))
}

/// Whether a line begins with a word.
pub(crate) fn has_word(line: &[u8], first: &[u8]) -> bool
    ensures { result ≡ has_word first.now line.now }
{
    front(line, b' ') == first
}

/// The first line without its LF, and what stands behind it.
pub(crate) fn cut_line(text: &[u8]) -> (&[u8], &[u8])
    requires { 0 < length text.now }
    ensures lines { lines_of text.now ≡ result.0.now ∷ lines_of result.1.now }
    ensures shorter { length result.1.now < length text.now }
{
    match memchr(b'\n', text) {
        Some(at) => (&text[..at], &text[at + 1..]),
        None => (text, &text[text.len()..]),
    }
}

/// The lines of a text that begin with a word.
pub(crate) fn lines_with<'a>(
    alloc: Global,
    text: &'a [u8],
    first: &[u8],
) -> Result<Vec<&'a [u8]>, AllocError>
    ensures { IfOk result (λ lines. map (λ line. line.now) lines.items ≡ lines_with first.now text.now) }
{
    let mut lines = Vec::new(alloc);
    let mut rest = text;
    while !rest.is_empty() {
        let (line, others) = cut_line(rest);
        rest = others;
        if has_word(line, first) {
            lines.push(line)?;
        }
    }
    Ok(lines)
}
