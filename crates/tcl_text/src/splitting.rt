ghost use Rattle.std.specs.Prelude.{◌≡◌, ◌+◌, ◌<◌, ◌≤◌, ◌++◌, ◌^◌, take, drop, length, codes, IfOk, List, ℕ, OnOk, Ok, Err, true, false, slice_index};
ghost use Rattle.tcl_text.specs.Backslash as backslash;
ghost use Rattle.tcl_text.specs.Escaped.{bytes_meant};
ghost use Rattle.tcl_text.specs.Readings as readings;
ghost use Rattle.tcl_text.specs.Splitting.{FindsBrace, GivesBehind, GivesElement, GivesItem, IsAtEnd, IsAtStop, KeepsBalance, ReadsTo, Splits, StepsInBraces, Unescapes, ends, is_behind_element, begins_bare_element, within};
ghost use Rattle.tcl_text.specs.Limits.{most_bytes};

use crate::backslash::{Meaning, escape_behind};
use crate::element::Element;
use crate::fault::{ListFault, SplitFault};
use crate::list::TextList;
use crate::text::Text;
use crate::white_space::{behind_white, is_white};
use std::alloc::{AllocError, Global};

/// What a byte is to the form of a list.
#[derive(Clone, Copy)]
pub enum ByteKind {
    White,
    OpenBrace,
    CloseBrace,
    Quote,
    Backslash,
    Other,
}

/// What the byte is to the form of a list.
#[tactic(auto, unfolding(crate::specs::Backslash::kind_of))]
#[inline]
pub fn kind(byte: u8) -> ByteKind
    ensures { result ≡ backslash.kind_of byte }
{
    match byte {
        b' ' | 9..=13 => ByteKind::White,
        b'{' => ByteKind::OpenBrace,
        b'}' => ByteKind::CloseBrace,
        b'"' => ByteKind::Quote,
        b'\\' => ByteKind::Backslash,
        _ => ByteKind::Other,
    }
}

/// One step behind an opening brace: how many bytes it takes, and how many braces are open behind it; none where the closing
/// brace stands.
#[tactic(auto, using(crate::proofs::SplittingLemmas::brace_steps, crate::proofs::BalanceLemmas::brace_balances))]
pub fn brace_step(text: &[u8], depth: usize) -> Option<(usize, usize)>
    requires some { 0 < length text.now }
    requires room { depth + 1 < 2 ^ 64 }
    ensures reads { StepsInBraces depth text.now result }
    ensures balance { KeepsBalance depth text.now result }
{
    match kind(text[0]) {
        ByteKind::Backslash => Some((escape_behind(&text[1..]).length + 1, depth)),
        ByteKind::OpenBrace => Some((1, depth + 1)),
        ByteKind::CloseBrace if depth == 0 => None,
        ByteKind::CloseBrace => Some((1, depth - 1)),
        _ => Some((1, depth)),
    }
}

/// How many bytes stand before the closing brace, if there is one.
#[tactic(auto, using(crate::proofs::SplittingLemmas::brace_steps))]
pub fn braced_len(text: &[u8]) -> Option<usize>
    ensures { FindsBrace text.now result }
{
    let mut depth = 0;
    let mut at = 0;
    while at < text.len() {
        let Some((length, next)) = brace_step(&text[at..], depth) else {
            return Some(at);
        };
        at += length;
        depth = next;
    }
    None
}

/// Whether the byte ends an element in quotes, or a bare one.
#[inline]
fn is_end(byte: u8, quoted: bool) -> bool
    ensures { result ≡ ends quoted byte }
{
    if quoted { byte == b'"' } else { is_white(byte) }
}

/// How many bytes stand before a backslash, the end of the element, or the end of the text.
#[tactic(auto, using(crate::proofs::SplittingLemmas::run_turns))]
pub fn run_len(text: &[u8], quoted: bool) -> usize
    ensures fits { result ≤ length text.now }
    ensures reads { ReadsTo (within quoted) text.now result (take result text.now) (within quoted) }
    ensures stops { IsAtStop quoted text.now result }
{
    for (at, byte) in text.iter().enumerate() {
        if *byte == b'\\' || is_end(*byte, quoted) {
            return at;
        }
    }
    text.len()
}

/// Adds what a backslash stands for.
fn push_meaning(bytes: &mut Vec<u8>, meaning: Meaning) -> Result<(), AllocError>
    ensures { OnOk result (bytes.new.items ≡ bytes.old.items ++ bytes_meant meaning) }
{
    match meaning {
        Meaning::Byte(byte) => bytes.push(byte)?,
        Meaning::Character(character) => {
            let mut buffer = [0; 4];
            bytes.extend_from_slice(character.encode_utf8(&mut buffer).as_bytes())?;
        }
    }
    Ok(())
}

/// What an element stands for, and how many bytes it is written in up to its end.
fn unescaped(alloc: Global, text: &[u8], quoted: bool) -> Result<(Vec<u8>, usize), AllocError>
    ensures read { IfOk result (λ r. Unescapes quoted text.now r.0.items r.1) }
    ensures end { IfOk result (λ r. IsAtEnd quoted text.now r.1) }
{
    let mut bytes = Vec::new(alloc);
    let mut at = 0;
    loop {
        let run = run_len(&text[at..], quoted);
        bytes.extend_from_slice(&text[at..at + run])?;
        at += run;
        if at == text.len() || text[at] != b'\\' {
            return Ok((bytes, at));
        }
        let escape = escape_behind(&text[at + 1..]);
        push_meaning(&mut bytes, escape.meaning)?;
        at += escape.length + 1;
    }
}

/// What an element in quotes or a bare one is, and how many bytes it is written in up to its end.
fn item_in(alloc: Global, text: &str, quoted: bool) -> Result<(Element<'_>, usize), AllocError>
    requires { length text.now ≤ most_bytes }
    ensures read { IfOk result (λ r. Unescapes quoted text.now r.0 r.1) }
    ensures end { IfOk result (λ r. IsAtEnd quoted text.now r.1) }
{
    let bytes = text.as_bytes();
    let run = run_len(bytes, quoted);
    if run == bytes.len() || bytes[run] != b'\\' {
        return Ok((Element::written(&text[..run]), run));
    }
    let (item, length) = unescaped(alloc, bytes, quoted)?;
    let made = Text::of_bytes(alloc, item)?;
    Ok((Element::made(made), length))
}

/// Whether an element may end before these bytes: they are none, or begin with white space.
#[inline]
pub fn is_behind_element(text: &[u8]) -> bool
    ensures { result ≡ is_behind_element text.now }
{
    match text.first() {
        Some(byte) => is_white(*byte),
        None => true,
    }
}

/// The text behind a closing brace or quote, if an element may end there.
fn behind_closing(text: &str, at: usize) -> Option<&str>
    requires inside { at < length text.now }
    requires closing { slice_index text.now at < 128 }
    ensures { GivesBehind text.now at result }
{
    let behind = &text[at + 1..];
    if is_behind_element(behind.as_bytes()) {
        Some(behind)
    } else {
        None
    }
}

/// The item that stands in braces, from behind the opening one, and the text behind it.
fn braced(text: &str) -> Result<(Element<'_>, &str), SplitFault>
    requires { length text.now ≤ most_bytes }
    ensures { GivesItem (readings.in_braces 0) text.now result }
{
    let Some(length) = braced_len(text.as_bytes()) else {
        return Err(SplitFault::BadList(ListFault::OpenBrace));
    };
    let Some(behind) = behind_closing(text, length) else {
        return Err(SplitFault::BadList(ListFault::ExtraCharacters));
    };
    Ok((Element::written(&text[..length]), behind))
}

/// The item that stands in quotes, from behind the opening one, and the text behind it.
fn quoted(alloc: Global, text: &str) -> Result<(Element<'_>, &str), SplitFault>
    requires { length text.now ≤ most_bytes }
    ensures { GivesItem readings.in_quotes text.now result }
{
    let (item, length) = item_in(alloc, text, true)?;
    if length == text.len() {
        return Err(SplitFault::BadList(ListFault::OpenQuote));
    }
    let Some(behind) = behind_closing(text, length) else {
        return Err(SplitFault::BadList(ListFault::ExtraCharacters));
    };
    Ok((item, behind))
}

/// The bare item in front, and the text behind it.
fn bare(alloc: Global, text: &str) -> Result<(Element<'_>, &str), SplitFault>
    requires some { 0 < length text.now }
    requires short { length text.now ≤ most_bytes }
    requires begins { begins_bare_element (backslash.kind_of (slice_index text.now 0)) ≡ true }
    ensures { GivesElement text.now result }
{
    let (item, length) = item_in(alloc, text, false)?;
    Ok((item, &text[length..]))
}

/// The item in front of a list where it stands, and the text behind it.
pub fn front_element(alloc: Global, text: &str) -> Result<(Element<'_>, &str), SplitFault>
    requires some { 0 < length text.now }
    requires short { length text.now ≤ most_bytes }
    requires black { backslash.is_white (slice_index text.now 0) ≡ false }
    ensures { GivesElement text.now result }
{
    match kind(text.as_bytes()[0]) {
        ByteKind::OpenBrace => braced(&text[1..]),
        ByteKind::Quote => quoted(alloc, &text[1..]),
        _ => bare(alloc, text),
    }
}

/// The item in front of a list, and the text behind it.
pub fn first_element(alloc: Global, text: &str) -> Result<(Text, &str), SplitFault>
    requires some { 0 < length text.now }
    requires short { length text.now ≤ most_bytes }
    requires black { backslash.is_white (slice_index text.now 0) ≡ false }
    ensures { GivesElement text.now result }
{
    let (element, behind) = front_element(alloc, text)?;
    let item = element.into_text(alloc)?;
    Ok((item, behind))
}

/// The items of the list that the text is.
pub fn items_of(alloc: Global, text: &str) -> Result<TextList, SplitFault>
    requires { length text.now ≤ most_bytes }
    ensures { Splits result (readings.list_of text.now) }
{
    let mut items = TextList::new(alloc);
    let mut rest = behind_white(text);
    while !rest.is_empty() {
        let (item, behind) = first_element(alloc, rest)?;
        items.push(item)?;
        rest = behind_white(behind);
    }
    Ok(items)
}

impl Text {
    /// The elements of the list that the text is, by the rules of Tcl's lindex(n): in braces, in quotes or bare, with white
    /// space between them. `BadList` (3) says which is the first fault.
    pub fn split_list(&self, alloc: Global) -> Result<TextList, SplitFault>
        ensures read { IfOk result (λ items. readings.IsList self.now items) }
        ensures only { (items : List (List ℕ)) → readings.IsList self.now items → Splits result (Ok items) }
        ensures refused { (fault : ListFault) → result ≡ Err (SplitFault.BadList fault)
            → (items : List (List ℕ)) → ¬ (readings.IsList self.now items) }

        // Which fault it is.
        ensures exact { Splits result (readings.list_of self.now) }
    {
        items_of(alloc, self.as_str())
    }
}
