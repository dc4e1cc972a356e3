//! Indices of items in a list and of characters in a text.
ghost use Rattle.std.specs.Prelude.{◌≡◌};
ghost use Rattle.tcl_text.specs.Answers.{Gives};
ghost use Rattle.tcl_text.specs.Indices as spec;

use crate::commands::answers::{Refusal, bad_index};
use crate::integer::integer_in;
use crate::text::Text;
use crate::white_space::is_white;
use std::alloc::Global;

/// A place in a row of items.
#[derive(Clone, Copy)]
pub enum Index {
    /// So many items behind the first.
    FromStart(i64),
    /// So many items before the last.
    FromEnd(u64),
}

impl Index {
    /// How many of so many items stand before the index.
    pub fn before(self, count: usize) -> usize
        ensures { result ≡ spec.before self count }
    {
        match self {
            Index::FromStart(place) => usize::try_from(place).unwrap_or(0).min(count),
            Index::FromEnd(place) => count.saturating_sub(1).saturating_sub(place as usize),
        }
    }

    /// How many of them stand up to the index and with it.
    pub fn through(self, count: usize) -> usize
        ensures { result ≡ spec.through self count }
    {
        match self {
            Index::FromStart(place) => match usize::try_from(place) {
                Ok(place) => place.saturating_add(1).min(count),
                Err(_) => 0,
            },
            Index::FromEnd(place) => count.saturating_sub(place as usize),
        }
    }

    /// How many of them stand before what is put in at the index, where `end` is behind the last.
    pub fn before_inserted(self, count: usize) -> usize
        ensures { result ≡ spec.before_inserted self count }
    {
        match self {
            Index::FromStart(place) => usize::try_from(place).unwrap_or(0).min(count),
            Index::FromEnd(place) => count.saturating_sub(place as usize),
        }
    }
}

/// The index that a word is, or the error that it is none.
#[tactic(auto, unfolding(crate::specs::Indices::index_in))]
pub fn index_in(alloc: Global, word: &Text) -> Result<Index, Refusal>
    ensures { Gives result (spec.index_in word.now) }
{
    match index_of(word.as_str().as_bytes()) {
        Some(index) => Ok(index),
        None => bad_index(alloc, word),
    }
}

#[tactic(auto, unfolding(crate::specs::Indices::index_of))]
/// The index that a text spells: an integer, `end`, or `end-` and an unsigned integer.
fn index_of(text: &[u8]) -> Option<Index>
    ensures { result ≡ spec.index_of text.now }
{
    if text == b"end".as_slice() {
        return Some(Index::FromEnd(0));
    }
    match text.strip_prefix(b"end-".as_slice()) {
        Some(places) => index_from_end(places),
        None => integer_in(text).map(Index::FromStart),
    }
}

/// The index so many places before the last, as an unsigned integer spells them.
fn index_from_end(places: &[u8]) -> Option<Index>
    ensures { result ≡ spec.index_from_end places.now }
{
    if !stands_alone(places) {
        return None;
    }
    let number = integer_in(places)?;
    Some(Index::FromEnd(u64::try_from(number).unwrap_or(0)))
}

/// Whether the text begins with a digit and doesn't end with white space.
fn stands_alone(text: &[u8]) -> bool
    ensures { result ≡ spec.stands_alone text.now }
{
    match text {
        [first, ..] => first.is_ascii_digit() && !is_white(text[text.len() - 1]),
        [] => false,
    }
}
