//! The rows of text that a window shows.

ghost use Rattle.std.specs.Prelude.{◌≡◌, ℕ, List, map, IfOk, encode_utf8_all};
ghost use Rattle.std.specs.Str.{chars};
ghost use Rattle.std.specs.String.{string_bytes};
ghost use Rattle.panels_text.specs.Rows.{escaped, items_in, meant_by, rows_of, unescaped};
ghost use Rattle.panels_text.specs.Texts.{lines_of};

use crate::failure::Failure;
use crate::texts::as_text;
use std::alloc::{AllocError, Global};
use tcl_text::{SplitFault, Text, TextFault};

/// The character that a letter behind a backslash stands for.
fn meant_by(letter: char) -> char
    ensures { result ≡ meant_by letter }
{
    match letter {
        'n' => '\n',
        'r' => '\r',
        's' => ' ',
        other => other,
    }
}

/// A text that a section writes: a line feed and a carriage return stand there as `\n` and `\r`, a backslash as two, and a blank of a path as `\s`.
pub fn unescaped(alloc: Global, text: &str) -> Result<String, AllocError>
    ensures text { IfOk result (λ plain. string_bytes plain ≡ encode_utf8_all (unescaped (chars text.now))) }
    ensures inverse { (characters : List ℕ) → chars text.now ≡ escaped characters → IfOk result (λ plain. string_bytes plain ≡ encode_utf8_all characters) }
{
    let mut plain = String::new(alloc);
    let mut is_escaped = false;
    for character in text.chars() {
        if is_escaped {
            plain.push(meant_by(character))?;
            is_escaped = false;
        } else if character == '\\' {
            is_escaped = true;
        } else {
            plain.push(character)?;
        }
    }
    Ok(plain)
}

/// A copy of a text's bytes.
fn row(alloc: Global, text: &str) -> Result<Vec<u8>, AllocError>
    ensures { IfOk result (λ row. row.items ≡ text.now) }
{
    Ok(Vec::from_slice(alloc, text.as_bytes())?)
}

/// Copies of texts.
fn rows(alloc: Global, texts: &[Text]) -> Result<Vec<Vec<u8>>, AllocError>
    ensures { IfOk result (λ rows. map (λ row. row.items) rows.items ≡ texts.now) }
{
    let mut rows = Vec::new(alloc);
    for text in texts {
        rows.push(row(alloc, text.as_str())?)?;
    }
    Ok(rows)
}

/// Copies of the lines of a text.
fn lines(alloc: Global, text: &str) -> Result<Vec<Vec<u8>>, AllocError>
    ensures { IfOk result (λ rows. map (λ row. row.items) rows.items ≡ lines_of text.now) }
{
    let mut rows = Vec::new(alloc);
    for line in text.split('\n') {
        rows.push(row(alloc, line)?)?;
    }
    Ok(rows)
}

/// The items of a listbox; none where the list of them passes the limit of a text.
fn items(alloc: Global, list: &str) -> Result<Vec<Vec<u8>>, Failure>
    ensures { IfOk result (λ rows. map (λ row. row.items) rows.items ≡ items_in list.now) }
{
    let text = match Text::new(alloc, list) {
        Ok(text) => text,
        Err(TextFault::TooLong) => return Ok(Vec::new(alloc)),
        Err(TextFault::NoMemory) => return Err(Failure::NoMemory),
    };
    match text.split_list(alloc) {
        Ok(found) => Ok(rows(alloc, found.as_slice())?),
        Err(SplitFault::BadList(_)) => Ok(Vec::new(alloc)),
        Err(SplitFault::NoMemory) => Err(Failure::NoMemory),
    }
}

/// The rows of a window of a class, whose value a section writes so.
pub fn rows_of(alloc: Global, class: &[u8], value: &[u8]) -> Result<Vec<Vec<u8>>, Failure>
    ensures { IfOk result (λ rows. map (λ row. row.items) rows.items ≡ rows_of class.now value.now) }
{
    let text = unescaped(alloc, as_text(value))?;
    if class == b"Listbox".as_slice() {
        return items(alloc, text.as_str());
    }
    if text.is_empty() {
        return Ok(Vec::new(alloc));
    }
    Ok(lines(alloc, text.as_str())?)
}
