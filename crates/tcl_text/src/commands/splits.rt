//! The command of split(n).
ghost use Rattle.std.specs.Prelude.{◌≡◌, ◌≤◌, ◌<◌, ◌++◌, ◌∷◌, [], length, IfOk, IfSome, OnOk};
ghost use Rattle.std.specs.Option.{option_copied};
ghost use Rattle.std.specs.List.Sorted.{IsPermutation, IsSorted};
ghost use Rattle.std.specs.Ordering.{nat_cmp};
ghost use Rattle.std.specs.Str.{chars, encode_utf8_all};
ghost use Rattle.memchr.specs.Find.{IsFirstByte, is_byte};
ghost use Rattle.tcl_text.specs.Answers.{Gives};
ghost use Rattle.tcl_text.specs.ListCommands as spec;
ghost use Rattle.tcl_text.specs.ListSteps.{CutsOnce};
ghost use Rattle.tcl_text.specs.Limits.{most_bytes};

use crate::characters::split_first_char;
use crate::commands::answers::{Reply, wrong_args};
use crate::commands::items::list_answer;
use crate::text::Text;
use memchr::memchr;
use std::alloc::{AllocError, Global};

/// `split text ?chars?`: the parts of the text between the characters, or between white space; with
/// no characters at all, each character of the text.
pub fn split_words(alloc: Global, words: &[Text]) -> Reply
    ensures { Gives result (spec.split_words words.now) }
{
    match words {
        [text] => split_at_white(alloc, text.as_str()),
        [text, separators] => split_text(alloc, text.as_str(), separators.as_str()),
        _ => wrong_args(alloc, "split text ?chars?"),
    }
}

fn split_at_white(alloc: Global, text: &str) -> Reply
    requires { length text.now ≤ most_bytes }
    ensures { Gives result (spec.split_text text.now spec.white_characters) }
{
    split_text(alloc, text, " \t\n\u{b}\u{c}\r")
}

fn split_text(alloc: Global, text: &str, separators: &str) -> Reply
    requires { length text.now ≤ most_bytes }
    ensures { Gives result (spec.split_text text.now (chars separators.now)) }
{
    if text.is_empty() {
        return list_answer(alloc, &[]);
    }
    if separators.is_empty() {
        let characters = characters_of(alloc, text)?;
        return list_answer(alloc, characters.as_slice());
    }
    let set = sorted_characters(alloc, separators)?;
    let pieces = pieces_of(alloc, text, set.as_slice())?;
    list_answer(alloc, pieces.as_slice())
}

/// The characters in order, to be looked up.
fn sorted_characters(alloc: Global, text: &str) -> Result<Vec<char>, AllocError>
    ensures sorted { IfOk result (λ set. IsSorted nat_cmp set.items) }
    ensures same { IfOk result (λ set. IsPermutation (chars text.now) set.items) }
{
    let mut characters: Vec<char> = text.chars().collect(alloc)?;
    characters.sort_unstable();
    Ok(characters)
}

/// Each character as a text.
fn characters_of(alloc: Global, text: &str) -> Result<Vec<Text>, AllocError>
    requires { length text.now ≤ most_bytes }
    ensures { IfOk result (λ pieces. pieces.items ≡ spec.characters_of text.now) }
{
    let mut pieces = Vec::new(alloc);
    let mut rest = text;
    while let Some((_first, after)) = split_first_char(rest) {
        let (character, _after) = rest.split_at(rest.len() - after.len());
        pieces.push(Text::of_short(alloc, character)?)?;
        rest = after;
    }
    Ok(pieces)
}

/// The parts of the text between separators.
fn pieces_of(alloc: Global, text: &str, separators: &[char]) -> Result<Vec<Text>, AllocError>
    requires short { length text.now ≤ most_bytes }
    requires sorted { IsSorted nat_cmp separators.now }
    ensures { IfOk result (λ pieces. pieces.items ≡ spec.pieces_of text.now separators.now) }
{
    let mut pieces = Vec::new(alloc);
    let mut rest = text;
    loop {
        let (piece, after) = cut_piece(rest, separators);
        pieces.push(Text::of_short(alloc, piece)?)?;
        match after {
            Some(after) => rest = after,
            None => return Ok(pieces),
        }
    }
}

/// The text up to its first separator, and what follows that, if it has one.
fn cut_piece<'t>(text: &'t str, separators: &[char]) -> (&'t str, Option<&'t str>)
    requires { IsSorted nat_cmp separators.now }
    ensures cut { CutsOnce (spec.is_one_of separators.now) text.now result.0.now (option_copied result.1) }
    ensures short { length result.0.now ≤ length text.now }
    ensures shorter { IfSome result.1 (λ rest. length rest.now < length text.now) }
{
    if let [separator] = separators {
        if separator.is_ascii() {
            return cut_at_byte(text, *separator as u8);
        }
    }
    cut_at_character(text, separators)
}

/// The same for one separator that is a byte.
fn cut_at_byte(text: &str, separator: u8) -> (&str, Option<&str>)
    requires { separator < 128 }
    ensures cut { CutsOnce (spec.is_one_of (separator ∷ [])) text.now result.0.now (option_copied result.1) }
    ensures short { length result.0.now ≤ length text.now }
    ensures shorter { IfSome result.1 (λ rest. length rest.now < length text.now) }
{
    match find_byte(text, separator) {
        Some(place) => (&text[..place], Some(&text[place + 1..])),
        None => (text, None),
    }
}

/// The first place of the byte.
fn find_byte(text: &str, byte: u8) -> Option<usize>
    ensures { IsFirstByte (is_byte byte) text.now result }
{
    memchr(byte, text.as_bytes())
}

/// The same for any separators, by the characters one after another.
fn cut_at_character<'t>(text: &'t str, separators: &[char]) -> (&'t str, Option<&'t str>)
    requires { IsSorted nat_cmp separators.now }
    ensures cut { CutsOnce (spec.is_one_of separators.now) text.now result.0.now (option_copied result.1) }
    ensures short { length result.0.now ≤ length text.now }
    ensures shorter { IfSome result.1 (λ rest. length rest.now < length text.now) }
{
    let mut rest = text;
    while let Some((first, after)) = split_first_char(rest) {
        if is_one_of(separators, first) {
            let (piece, _from) = text.split_at(text.len() - rest.len());
            return (piece, Some(after));
        }
        rest = after;
    }
    (text, None)
}

/// Whether the character is one of the separators, by halving them.
fn is_one_of(separators: &[char], character: char) -> bool
    requires { IsSorted nat_cmp separators.now }
    ensures { result ≡ spec.is_one_of separators.now character }
{
    separators.binary_search(&character).is_ok()
}
