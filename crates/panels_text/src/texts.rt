//! Texts and their lines.

ghost use Rattle.std.specs.Prelude.{◌≡◌, map, IfOk, option_map};
ghost use Rattle.std.specs.Str.{IsUtf8};
ghost use Rattle.std.specs.String.{string_bytes};
ghost use Rattle.panels_text.specs.Texts.{before, behind, first_line, first_word, has_line, joined, lines_of, lines_without, text_of};

use std::alloc::{AllocError, Global};

/// A text whose bytes are UTF-8, as those of a section are; empty where they aren't.
pub fn as_text(bytes: &[u8]) -> &str
    ensures utf8 { IsUtf8 bytes.now → result.now ≡ bytes.now }
    ensures text { result.now ≡ text_of bytes.now }
{
    match std::str::from_utf8(bytes) {
        Ok(text) => text,
        Err(_) => "",
    }
}

/// What stands behind a front, where a text begins with it.
pub fn behind<'a>(text: &'a str, front: &str) -> Option<&'a str>
    ensures { option_map (λ rest. rest.now) result ≡ behind front.now text.now }
{
    text.strip_prefix(front)
}

/// What stands before an end, where a text ends with it.
pub(crate) fn before<'a>(text: &'a str, end: &str) -> Option<&'a str>
    ensures { option_map (λ rest. rest.now) result ≡ before end.now text.now }
{
    text.strip_suffix(end)
}

/// What stands before the first blank of a line; all where there is none.
pub fn first_word(line: &str) -> &str
    ensures { result.now ≡ first_word line.now }
{
    match line.split_once(' ') {
        Some((word, _)) => word,
        None => line,
    }
}

/// The first line of a text.
pub fn first_line(text: &str) -> &str
    ensures { result.now ≡ first_line text.now }
{
    match text.split_once('\n') {
        Some((line, _)) => line,
        None => text,
    }
}

/// Whether a text has a line.
fn has_line(text: &str, line: &str) -> bool
    ensures { result ≡ has_line (lines_of text.now) line.now }
{
    text.split('\n').any(|own| own == line)
}

/// The lines of a text.
pub fn lines_of<'a>(alloc: Global, text: &'a str) -> Result<Vec<&'a str>, AllocError>
    ensures { IfOk result (λ lines. map (λ line. line.now) lines.items ≡ lines_of text.now) }
{
    text.split('\n').collect(alloc)
}

/// The same of bytes.
pub(crate) fn byte_lines(alloc: Global, bytes: &[u8]) -> Result<Vec<&[u8]>, AllocError>
    ensures { IfOk result (λ lines. map (λ line. line.now) lines.items ≡ lines_of bytes.now) }
{
    bytes.split(|byte| *byte == b'\n').collect(alloc)
}

/// Texts with a separator between neighbours.
pub(crate) fn joined(alloc: Global, texts: &[&str], separator: &str) -> Result<String, AllocError>
    ensures { IfOk result (λ text. string_bytes text ≡ joined separator.now (map (λ other. other.now) texts.now)) }
{
    let mut text = String::new(alloc);
    let [first, others @ ..] = texts else {
        return Ok(text);
    };
    text.push_str(*first)?;
    for other in others {
        text.push_str(separator)?;
        text.push_str(*other)?;
    }
    Ok(text)
}

/// The lines of a text that another hasn't.
pub fn without<'a>(alloc: Global, text: &'a str, other: &str) -> Result<Vec<&'a str>, AllocError>
    ensures { IfOk result (λ lines. map (λ line. line.now) lines.items ≡ lines_without text.now other.now) }
{
    let mut lines = Vec::new(alloc);
    for line in text.split('\n') {
        if !has_line(other, line) {
            lines.push(line)?;
        }
    }
    Ok(lines)
}
