//! Whether the item in front of a list is the one that is sought. Nothing is built for that, also where backslashes stand in the item.
ghost use Rattle.std.specs.Prelude.{◌≡◌, ◌<◌, ◌≤◌, ◌++◌, ℕ, IfSome, List, Ok, false, true, length, bytes_eq, slice_index};
ghost use Rattle.tcl_text.specs.Backslash as backslash;
ghost use Rattle.tcl_text.specs.Escaped.{bytes_meant};
ghost use Rattle.tcl_text.specs.Readings as readings;
ghost use Rattle.tcl_text.specs.SearchSteps.{GoesOn, ReadsItem, Remains, TellsElement, TellsItem};
ghost use Rattle.tcl_text.specs.Splitting.{GivesBehind, IsAtEnd, begins_bare_element};

use crate::backslash::{Meaning, escape_behind, is_alone, named};
use crate::fault::{ListFault, SplitFault};
use crate::splitting::{ByteKind, braced_len, is_behind_element, kind, run_len};

/// Whether bytes are the same. The first one is mostly another.
#[tactic(auto, using(crate::proofs::ByteLemmas::same_bytes))]
#[inline]
pub fn is_same(bytes: &[u8], item: &[u8]) -> bool
    ensures { result ≡ bytes_eq bytes.now item.now }
{
    if bytes.len() != item.len() {
        return false;
    }
    if item.is_empty() {
        return true;
    }
    if bytes[0] != item[0] {
        return false;
    }
    bytes == item
}

/// What is left behind these bytes, if they stand in front.
#[inline]
fn rest_behind<'i>(rest: &'i [u8], front: &[u8]) -> Option<&'i [u8]>
    ensures { (item bytes : List ℕ) → bytes ++ rest.now ≡ item → Remains item (bytes ++ front.now) result }
{
    if rest.len() < front.len() {
        return None;
    }
    if is_same(&rest[..front.len()], front) {
        return Some(&rest[front.len()..]);
    }
    None
}

/// What is left of an item behind these bytes, if it goes on with them.
#[inline]
fn behind_bytes<'i>(left: Option<&'i [u8]>, front: &[u8]) -> Option<&'i [u8]>
    ensures { GoesOn left.entry front.now result }
{
    if front.is_empty() {
        return left;
    }
    match left {
        Some(rest) => rest_behind(rest, front),
        None => None,
    }
}

/// The same behind what a backslash stands for.
fn behind_meaning(left: Option<&[u8]>, meaning: Meaning) -> Option<&[u8]>
    ensures { GoesOn left.entry (bytes_meant meaning) result }
{
    match meaning {
        Meaning::Byte(byte) => behind_bytes(left, &[byte]),
        Meaning::Character(character) => {
            let mut buffer = [0; 4];
            behind_bytes(left, character.encode_utf8(&mut buffer).as_bytes())
        }
    }
}

/// What a backslash stands for before these bytes, if the first one alone tells.
#[inline]
fn meant_alone(behind: &[u8]) -> Option<u8>
    ensures { IfSome result (λ byte. backslash.escape behind.now ≡ backslash.one_byte byte) }
{
    if behind.is_empty() {
        return None;
    }
    if is_alone(behind[0]) {
        return Some(named(behind[0]));
    }
    None
}

/// The same behind a backslash before these bytes, and how many of them it takes.
#[inline]
fn behind_escape<'i>(left: Option<&'i [u8]>, behind: &[u8]) -> (Option<&'i [u8]>, usize)
    ensures goes_on { GoesOn left.entry (backslash.escape behind.now).meaning result.0 }
    ensures taken { result.1 ≡ (backslash.escape behind.now).length }
    ensures within { result.1 ≤ length behind.now }
{
    match meant_alone(behind) {
        Some(byte) => (behind_bytes(left, &[byte]), 1),
        None => {
            let escape = escape_behind(behind);
            (behind_meaning(left, escape.meaning), escape.length)
        }
    }
}

/// Whether nothing is left of the item.
#[inline]
fn is_whole(left: Option<&[u8]>) -> bool
    ensures { (item bytes : List ℕ) → Remains item bytes left.entry → result ≡ bytes_eq bytes item }
{
    match left {
        Some(rest) => rest.is_empty(),
        None => false,
    }
}

/// Whether an element in quotes or a bare one is the item, and how many bytes it is written in up to its end.
#[inline]
fn is_item_in(text: &[u8], quoted: bool, item: &[u8]) -> (bool, usize)
    ensures fits { result.1 ≤ length text.now }
    ensures read { ReadsItem quoted item.now text.now result.1 result.0 }
    ensures end { IsAtEnd quoted text.now result.1 }
{
    let mut left = Some(item);
    let mut at = 0;
    loop {
        let run = run_len(&text[at..], quoted);
        left = behind_bytes(left, &text[at..at + run]);
        at += run;
        if at == text.len() || text[at] != b'\\' {
            return (is_whole(left), at);
        }
        let (more, length) = behind_escape(left, &text[at + 1..]);
        left = more;
        at += length + 1;
    }
}

/// What stands behind a closing brace or quote, if an element may end there.
#[inline]
fn behind_closing(text: &[u8], at: usize) -> Option<&[u8]>
    requires inside { at < length text.now }
    ensures { GivesBehind text.now at result }
{
    let behind = &text[at + 1..];
    if is_behind_element(behind) {
        Some(behind)
    } else {
        None
    }
}

/// Whether the item in braces, from behind the opening one, is this one, and what stands behind it.
#[inline]
fn braced_is<'t>(text: &'t [u8], item: &[u8]) -> Result<(bool, &'t [u8]), SplitFault>
    ensures { TellsItem (readings.in_braces 0) item.now text.now result }
{
    let Some(length) = braced_len(text) else {
        return Err(SplitFault::BadList(ListFault::OpenBrace));
    };
    let Some(behind) = behind_closing(text, length) else {
        return Err(SplitFault::BadList(ListFault::ExtraCharacters));
    };
    Ok((is_same(&text[..length], item), behind))
}

/// The same of the item in quotes.
#[inline]
fn quoted_is<'t>(text: &'t [u8], item: &[u8]) -> Result<(bool, &'t [u8]), SplitFault>
    ensures { TellsItem readings.in_quotes item.now text.now result }
{
    let (same, length) = is_item_in(text, true, item);
    if length == text.len() {
        return Err(SplitFault::BadList(ListFault::OpenQuote));
    }
    let Some(behind) = behind_closing(text, length) else {
        return Err(SplitFault::BadList(ListFault::ExtraCharacters));
    };
    Ok((same, behind))
}

/// Whether the bare item in front is this one, and what stands behind it.
#[inline]
fn bare_is<'t>(text: &'t [u8], item: &[u8]) -> (bool, &'t [u8])
    requires some { 0 < length text.now }
    requires begins { begins_bare_element (backslash.kind_of (slice_index text.now 0)) ≡ true }
    ensures { TellsElement item.now text.now (Ok result) }
{
    let (same, length) = is_item_in(text, false, item);
    (same, &text[length..])
}

/// Whether the item in front of a list is this one, and what stands behind it.
#[inline]
pub fn front_is<'t>(text: &'t [u8], item: &[u8]) -> Result<(bool, &'t [u8]), SplitFault>
    requires some { 0 < length text.now }
    requires black { backslash.is_white (slice_index text.now 0) ≡ false }
    ensures { TellsElement item.now text.now result }
{
    match kind(text[0]) {
        ByteKind::OpenBrace => braced_is(&text[1..], item),
        ByteKind::Quote => quoted_is(&text[1..], item),
        _ => Ok(bare_is(text, item)),
    }
}
