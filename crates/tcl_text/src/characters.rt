//! A text by its characters. Where all are ASCII, which one quick pass tells, they are counted and taken by bytes; else they are walked over.
ghost use Rattle.std.specs.Prelude.{◌≡◌, ◌≢◌, ◌<◌, ◌≤◌, [], ◌∷◌, ◌++◌, length, take, drop, MatchOption, IfSome, IfOk, IfErr, encode_utf8};
ghost use Rattle.std.specs.Str.{chars};
ghost use Rattle.memchr.specs.Find.{FindsNeedle};
ghost use Rattle.tcl_text.specs.Backslash.{is_white};
ghost use Rattle.tcl_text.specs.Characters.{behind as behind_of, front as front_of, size, with_inserted, without_characters};
ghost use Rattle.tcl_text.specs.Limits.{most_bytes};
ghost use Rattle.tcl_text.specs.StringCommands.{drop_white_end, trimmed as trimmed_of};

use crate::fault::TextFault;
use crate::text::Text;
use crate::white_space::behind_white;
use memchr::memmem;
use std::alloc::Global;

/// The first character, and what follows it.
pub fn split_first_char(text: &str) -> Option<(char, &str)>
    ensures cut { MatchOption result
        (chars text.now ≡ [])
        (λ parts. chars text.now ≡ parts.0 ∷ chars parts.1.now) }
    ensures bytes { MatchOption result
        (text.now ≡ [])
        (λ parts. text.now ≡ encode_utf8 parts.0 ++ parts.1.now) }
    ensures shorter { IfSome result (λ parts. length parts.1.now < length text.now) }
{
    let mut rest = text.chars();
    let first = rest.next()?;
    Some((first, rest.as_str()))
}

/// The last character, and what stands before it.
pub(crate) fn split_last_char(text: &str) -> Option<(&str, char)>
    ensures cut { MatchOption result
        (text.now ≡ [])
        (λ parts. text.now ≡ parts.0.now ++ encode_utf8 parts.1) }
    ensures shorter { IfSome result (λ parts. length parts.0.now < length text.now) }
{
    let mut rest = text.chars();
    let last = rest.next_back()?;
    Some((rest.as_str(), last))
}

/// The byte at which the needle first stands in the text.
pub(crate) fn find_text(text: &str, needle: &str) -> Option<usize>
    ensures { FindsNeedle text.now needle.now 0 result }
{
    memmem::find(text.as_bytes(), needle.as_bytes())
}

/// How many characters there are.
pub fn count(text: &str) -> usize
    ensures count { result ≡ size text.now }
    ensures bound { result ≤ length text.now }
{
    if text.is_ascii() {
        text.len()
    } else {
        text.chars().count()
    }
}

/// The text cut behind its first characters, or at its end where there are fewer.
pub(crate) fn split_characters(text: &str, count: usize) -> (&str, &str)
    ensures front { chars result.0.now ≡ take count (chars text.now) }
    ensures back { chars result.1.now ≡ drop count (chars text.now) }
{
    if text.is_ascii() {
        return text.split_at(count.min(text.len()));
    }
    let mut rest = text;
    for _passed in 0..count {
        match split_first_char(rest) {
            Some((_first, after)) => rest = after,
            None => break,
        }
    }
    text.split_at(text.len() - rest.len())
}

fn front(text: &str, count: usize) -> &str
    ensures { result.now ≡ front_of count text.now }
{
    split_characters(text, count).0
}

fn behind(text: &str, count: usize) -> &str
    ensures { result.now ≡ behind_of count text.now }
{
    split_characters(text, count).1
}

/// The first characters up to one place with another text and what stands behind a second place.
fn joined(
    alloc: Global,
    text: &str,
    first: usize,
    between: &str,
    last: usize,
) -> Result<Text, TextFault>
    ensures ok { IfOk result (λ made. made ≡ front_of first text.now ++ (between.now ++ behind_of last text.now)) }
    ensures short { IfOk result (λ made. length made ≤ most_bytes) }
    ensures too_long { IfErr result (λ fault. fault ≢ TextFault.NoMemory
        → most_bytes < length (front_of first text.now ++ (between.now ++ behind_of last text.now))) }
{
    let mut string = String::from_str(alloc, front(text, first))?;
    string.push_str(between)?;
    string.push_str(behind(text, last))?;
    let made = Text::from_string(alloc, string)?;
    let _characters = made.as_str();
    Ok(made)
}

impl Text {
    ghost use Rattle.std.specs.Prelude.{◌≡◌, ◌≢◌, ◌<◌, ◌≤◌, length, IfOk, IfErr};
    ghost use Rattle.tcl_text.specs.Characters.{with_inserted, without_characters};
    ghost use Rattle.tcl_text.specs.Limits.{most_bytes};

    /// The text with another behind its first `at` characters, or at its end where there are fewer. `TooLong` (4) where that passes 65,536 bytes.
    pub fn with_inserted(&self, alloc: Global, at: usize, new: &str) -> Result<Text, TextFault>
        ensures ok { IfOk result (λ text. text ≡ with_inserted at new.now self.now) }
        ensures short { IfOk result (λ text. length text ≤ most_bytes) }
        ensures too_long { IfErr result (λ fault. fault ≢ TextFault.NoMemory → most_bytes < length (with_inserted at new.now self.now)) }
    {
        joined(alloc, self.as_str(), at, new, at)
    }

    /// The text without the characters from the place `first` on and before the place `last`; the same text where `last` isn't above `first`.
    /// It answers `NoMemory` alone.
    pub fn without(&self, alloc: Global, first: usize, last: usize) -> Result<Text, TextFault>
        ensures ok { IfOk result (λ text. text ≡ without_characters first last self.now) }
        ensures short { IfOk result (λ text. length text ≤ most_bytes) }
        ensures too_long { IfErr result (λ fault. fault ≢ TextFault.NoMemory → most_bytes < length (without_characters first last self.now)) }
    {
        joined(alloc, self.as_str(), first, "", first.max(last))
    }
}

/// The text without white space at both ends.
pub(crate) fn trimmed(text: &str) -> &str
    ensures { result.now ≡ trimmed_of text.now }
{
    without_white_end(behind_white(text))
}

fn without_white_end(text: &str) -> &str
    ensures { result.now ≡ drop_white_end text.now }
{
    let mut rest = text;
    while let Some((before, last)) = split_last_char(rest) {
        if !is_white_char(last) {
            return rest;
        }
        rest = before;
    }
    rest
}

/// Whether the character is white space.
fn is_white_char(character: char) -> bool
    ensures { result ≡ is_white character }
{
    matches!(character, ' ' | '\t'..='\r')
}
