//! What was read of scripts and of expressions, kept by their texts, so that what runs again isn't read again.
ghost use Rattle.std.specs.Prelude.{◌≡◌, ◌+◌, ◌<◌, ◌≤◌, length, IfOk, IsOk, IfSome, OnOk};
ghost use Rattle.tcl_table.specs.Limits.{most_kept};
ghost use Rattle.tcl_table.specs.Source.{script_of};

use std::alloc::{AllocError, Global};
use tcl_expr::Expr;
use tcl_text::Text;
use tcl_words::Script;

/// How many of each are kept at most.
const PLACES: usize = 256;

/// How many bytes of source what is kept of an application's scripts and expressions comes from at most, and how many what its procedures' bodies
/// are as read: reading takes up to some hundred bytes a byte where brackets stand in one another.
pub(crate) const MOST_SOURCE: usize = 131_072;

/// Keeps nothing any more.
pub(crate) fn vacate<T: Drop>(places: &mut [Option<T>]) {
    for place in places.iter_mut() {
        *place = None;
    }
}

/// Places at which nothing is kept.
pub(crate) fn vacant_places<T: Drop>(alloc: Global) -> Result<Vec<Option<T>>, AllocError> {
    let mut places = Vec::new(alloc);
    for _ in 0..PLACES {
        places.push(None)?;
    }
    Ok(places)
}

/// How many bytes a word has.
const WORD: usize = 8;

/// A number mixed with another. It may be any number: only how often texts share a place depends on it.
#[inline]
fn mixed(number: u64, word: u64) -> u64 {
    (number.rotate_left(5) ^ word).wrapping_mul(0x517c_c1b7_2722_0a95)
}

/// The bytes of the word at a place, as a number.
#[inline]
fn word_at(bytes: &[u8], at: usize) -> u64
    requires { at + 8 ≤ length bytes.now }
{
    let word = &bytes[at..at + WORD];
    u64::from_le_bytes([
        word[0], word[1], word[2], word[3], word[4], word[5], word[6], word[7],
    ])
}

/// A number by the words at both ends of bytes, two where there are as many.
fn ends_mixed(bytes: &[u8]) -> u64
    requires { 8 ≤ length bytes.now }
{
    let last = bytes.len() - WORD;
    let ends = mixed(
        mixed(bytes.len() as u64, word_at(bytes, 0)),
        word_at(bytes, last),
    );
    if last < WORD {
        return ends;
    }
    mixed(
        mixed(ends, word_at(bytes, WORD)),
        word_at(bytes, last - WORD),
    )
}

/// A number by each of a few bytes.
fn bytes_mixed(bytes: &[u8]) -> u64 {
    bytes
        .iter()
        .fold(0, |number, byte| mixed(number, u64::from(*byte)))
}

/// The place of what was read of a text: by its length and the bytes at its ends, so that a long text costs no more than a short one.
pub(crate) fn place_of(characters: &str) -> usize
    ensures { result < most_kept }
{
    let bytes = characters.as_bytes();
    let number = if bytes.len() < WORD {
        bytes_mixed(bytes)
    } else {
        ends_mixed(bytes)
    };
    (number >> 32) as usize % PLACES
}

/// The script that is kept at a place, if it is that of a text.
pub(crate) fn script_at(
    places: &[Option<Script>],
    place: usize,
    text: &Text,
) -> Result<Option<Script>, AllocError>
    ensures { IfOk result (λ kept. IfSome kept (λ script. (script ≡ text.now) × IsOk (script_of text.now))) }
{
    match places.get(place) {
        Some(Some(script)) if script.text().as_str() == text.as_str() => {
            let _commands = script.commands();
            Ok(Some(script.copy()?))
        }
        _ => Ok(None),
    }
}

/// The expression that is kept at a place, if it is that of a text, to look at.
pub(crate) fn expression_held<'a>(
    places: &'a [Option<Expr>],
    place: usize,
    text: &Text,
) -> Option<&'a Expr>
    ensures { IfSome result (λ expr. expr.now ≡ text.now) }
{
    match places.get(place) {
        Some(Some(expr)) if expr.text().as_str() == text.as_str() => Some(expr),
        _ => None,
    }
}

/// The expression that is kept at a place, if it is that of a text.
pub(crate) fn expression_at(
    places: &[Option<Expr>],
    place: usize,
    text: &Text,
) -> Result<Option<Expr>, AllocError>
    ensures { IfOk result (λ kept. IfSome kept (λ expr. expr ≡ text.now)) }
{
    match expression_held(places, place, text) {
        Some(expr) => Ok(Some(expr.copy()?)),
        None => Ok(None),
    }
}
