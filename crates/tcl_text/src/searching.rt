//! Searches of a list for an item.
ghost use Rattle.std.specs.Prelude.{◌≡◌, ◌-◌, ◌<◌, ◌≤◌, ◌&&◌, ℕ, true, false, nat_lt, bytes_eq, length, slice_index};
ghost use Rattle.tcl_text.specs.Backslash as backslash;
ghost use Rattle.tcl_text.specs.Readings.{list_of};
ghost use Rattle.tcl_text.specs.SearchSteps.{Passes, PassesFront};
ghost use Rattle.tcl_text.specs.Searching.{Tells, has_item};

use crate::fault::SplitFault;
use crate::sought::front_is;
use crate::splitting::{ByteKind, kind};
use crate::text::Text;
use crate::white_space::{is_white, skip_white};
use crate::word_places::has_word;
use memchr::memchr3;
use std::alloc::Global;

/// So many bytes of a list are looked at one by one, and those behind them many at once.
const FEW_BYTES: usize = 64;

/// From how many bytes on a list is looked for among those that are kept.
const LONG_LIST: usize = 1024;

/// Whether a word of a list, if it is one, is the item.
#[inline]
fn is_item(word: &[u8], item: &[u8]) -> bool
    ensures { result ≡ (nat_lt 0 (length word.now) && bytes_eq word.now item.now) }
{
    !word.is_empty() && word == item
}

/// Behind how many bytes a list goes on with an item that isn't just plain bytes, or with its last, and whether one of those in front equals a text.
fn plain_len(text: &[u8], item: &[u8]) -> (usize, bool)
    ensures { PassesFront item.now text.now result.0 result.1 }
{
    let mut start = 0;
    let mut found = false;
    for (at, byte) in text.iter().enumerate() {
        if at == FEW_BYTES {
            let (behind, among) = searched_len(&text[start..], item);
            return (start + behind, found | among);
        }
        match kind(*byte) {
            ByteKind::White => {
                found |= is_item(&text[start..at], item);
                start = at + 1;
            }
            ByteKind::CloseBrace | ByteKind::Other => {}
            _ => return (start, found),
        }
    }
    (start, found)
}

/// The same, of many bytes.
fn searched_len(text: &[u8], item: &[u8]) -> (usize, bool)
    ensures { PassesFront item.now text.now result.0 result.1 }
{
    let plain = memchr3(b'{', b'"', b'\\', text).unwrap_or(text.len());
    let start = words_len(&text[..plain]);
    (start, has_word(&text[..start], item))
}

/// How many bytes there are up to the last white one.
fn words_len(text: &[u8]) -> usize
    ensures within { result ≤ length text.now }
    ensures white { 0 < result → backslash.is_white (slice_index text.now (result - 1)) ≡ true }
    ensures black { (at : ℕ) → result ≤ at → at < length text.now → backslash.is_white (slice_index text.now at) ≡ false }
{
    let mut end = text.len();
    while end > 0 && !is_white(text[end - 1]) {
        end -= 1;
    }
    end
}

/// Whether the bytes begin with one that stands for itself. Nothing depends on it but the time.
#[inline]
fn begins_plain(text: &[u8]) -> bool {
    match text.first() {
        Some(byte) => *byte != b'{' && *byte != b'"' && *byte != b'\\',
        None => false,
    }
}

/// What is left of a list behind white space and items of plain bytes, and whether one of these equals a text.
fn plain_front<'a>(text: &'a [u8], item: &[u8]) -> (&'a [u8], bool)
    ensures { Passes item.now text.now result.0.now result.1 }
{
    let (place, found) = plain_len(text, item);
    (&text[place..], found)
}

/// The same, where mostly items stand that aren't plain: then it is found out at once.
#[inline]
fn front_behind<'a>(text: &'a [u8], item: &[u8]) -> (&'a [u8], bool)
    ensures { Passes item.now text.now result.0.now result.1 }
{
    let rest = skip_white(text);
    if begins_plain(rest) {
        return plain_front(rest, item);
    }
    (rest, false)
}

/// The same of a whole list. A long one is searched at once; that this is done in two places also keeps it out of the code for a few bytes.
fn list_front<'a>(text: &'a [u8], item: &[u8]) -> (&'a [u8], bool)
    ensures { Passes item.now text.now result.0.now result.1 }
{
    if text.len() < FEW_BYTES {
        return plain_front(text, item);
    }
    let (place, found) = searched_len(text, item);
    (&text[place..], found)
}

/// Whether an item of the list that the bytes are equals others.
fn has_bytes(text: &[u8], item: &[u8]) -> Result<bool, SplitFault>
    ensures { Tells result (has_item item.now (list_of text.now)) }
{
    let (mut rest, mut found) = list_front(text, item);
    while !rest.is_empty() {
        let (same, behind) = front_is(rest, item)?;
        found |= same;
        let (left, among) = front_behind(behind, item);
        found |= among;
        rest = left;
    }
    Ok(found)
}

/// Whether an item of the list that the text is equals another text. It reads the list to its end, and keeps nothing of it.
pub fn is_among(text: &str, item: &str) -> Result<bool, SplitFault>
    ensures { Tells result (has_item item.now (list_of text.now)) }
{
    has_bytes(text.as_bytes(), item.as_bytes())
}

impl Text {
    /// Whether an item of the list that the text is equals another text. No item is built: it is compared where it stands, or in the list that
    /// a long text keeps. `BadList` (3) where the text is no list, also where the item stands before the fault.
    pub fn has_item(&self, alloc: Global, item: &Text) -> Result<bool, SplitFault>
        ensures { Tells result (has_item item.now (list_of self.now)) }
    {
        let text = self.as_str();
        let item = item.as_str();
        if text.len() < LONG_LIST {
            return is_among(text, item);
        }
        match self.found(alloc, item) {
            Some(found) => Ok(found),
            None => is_among(text, item),
        }
    }
}
