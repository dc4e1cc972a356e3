//! Braces whose lines don't stand below one another.

ghost use Rattle.std.specs.Prelude.{◌≡◌, ◌++◌, drop, find, nat_lt, replicate, reverse, take, IfNone, IfOk, OnOk};
ghost use Rattle.std.specs.List.{prefix_len};
ghost use Rattle.panels_text.specs.Indents.{bare, closing, displaced, indent_of, is_blank, open_behind, opening, without_end};

use crate::texts::byte_lines;
use std::alloc::{AllocError, Global};

/// A brace that a line ends with.
#[derive(Clone, Copy)]
struct Opened {
    line: usize,
    /// How many blanks and tabs stand before that line.
    indent: usize,
}

/// How many blanks and tabs a text begins with.
fn blanks(text: &[u8]) -> usize
    ensures { result ≡ prefix_len is_blank text.now }
{
    text.iter()
        .take_while(|byte| **byte == b' ' || **byte == b'\t')
        .count()
}

/// How many closing braces it begins with.
fn closing(text: &[u8]) -> usize
    ensures { result ≡ closing text.now }
{
    text.iter().take_while(|byte| **byte == b'}').count()
}

/// How many opening braces it ends with.
fn opening(text: &[u8]) -> usize
    ensures { result ≡ opening text.now }
{
    text.iter().rev().take_while(|byte| **byte == b'{').count()
}

/// What stands behind so many bytes.
fn past(text: &[u8], count: usize) -> &[u8]
    ensures { result.now ≡ drop count text.now }
{
    match text.get(count..) {
        Some(rest) => rest,
        None => &[],
    }
}

/// A line without the white space that it ends with.
fn without_end(row: &[u8]) -> &[u8]
    ensures { result.now ≡ without_end row.now }
{
    row.trim_ascii_end()
}

/// How many blanks and tabs a line begins with.
fn indent_of(row: &[u8]) -> usize
    ensures { result ≡ indent_of row.now }
{
    blanks(without_end(row))
}

/// What stands behind them.
fn bare(row: &[u8]) -> &[u8]
    ensures { result.now ≡ bare row.now }
{
    past(without_end(row), indent_of(row))
}

/// Adds the braces that a line opens.
fn push_opened(opened: &mut Vec<Opened>, count: usize, brace: Opened) -> Result<(), AllocError>
    ensures { OnOk result (reverse opened.new.items ≡ replicate count brace ++ reverse opened.old.items) }
{
    for _number in 0..count {
        opened.push(brace)?;
    }
    Ok(())
}

/// Takes off the braces that a line of an indent closes: the first whose own line stands farther right.
fn close(opened: &mut Vec<Opened>, count: usize, indent: usize) -> Option<Opened>
    ensures found { result ≡ find (λ brace. nat_lt indent brace.indent) (take count (reverse opened.old.items)) }
    ensures left { IfNone result (reverse opened.new.items ≡ drop count (reverse opened.old.items)) }
{
    for _number in 0..count {
        let Some(brace) = opened.pop() else {
            return None;
        };
        if indent < brace.indent {
            return Some(brace);
        }
    }
    None
}

/// Goes past a line: the first brace that it closes and whose own line stands farther right.
fn pass(opened: &mut Vec<Opened>, row: &[u8], line: usize) -> Result<Option<Opened>, AllocError>
    ensures found { IfOk result (λ found. found ≡ find (λ brace. nat_lt (indent_of row.now) brace.indent) (take (closing (bare row.now)) (reverse opened.old.items))) }
    ensures left { IfOk result (λ found. IfNone found (reverse opened.new.items ≡ open_behind line row.now (reverse opened.old.items))) }
{
    let (indent, bare) = (indent_of(row), bare(row));
    match close(opened, closing(bare), indent) {
        Some(brace) => Ok(Some(brace)),
        None => {
            push_opened(opened, opening(bare), Opened { line, indent })?;
            Ok(None)
        }
    }
}

/// The line of the first brace of a script that is closed by a line which stands farther left than its own, so that it is likely another one's end. The
/// script's first line has this number.
pub(crate) fn displaced(
    alloc: Global,
    script: &[u8],
    first: usize,
) -> Result<Option<usize>, AllocError>
    ensures { IfOk result (λ found. found ≡ displaced first script.now) }
{
    let rows = byte_lines(alloc, script)?;
    let mut opened = Vec::new(alloc);
    let mut line = first;
    for row in &rows {
        let found = pass(&mut opened, *row, line)?;
        match found {
            Some(brace) => return Ok(Some(brace.line)),
            None => line = line.saturating_add(1),
        }
    }
    Ok(None)
}
