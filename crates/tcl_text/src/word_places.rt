//! A search for a word among others, which tries 64 places at once.
ghost use Rattle.std.specs.Prelude.{◌≡◌, ◌+◌, ◌<◌, ◌≤◌, ◌==◌, ◌↔◌, ℕ, true, false, if◌then◌else◌, length, nat_le, slice_index, IsTrue};
ghost use Rattle.std.specs.Int.{bit_at};
ghost use Rattle.tcl_text.specs.Backslash as backslash;
ghost use Rattle.tcl_text.specs.SearchSteps.{HasWord, IsWordAt};

use crate::white_space::{has_white, is_white};
use std::simd::prelude::*;

/// How many places are tried at once.
const PLACES: usize = 64;

/// So many bytes of an item are compared at all places at once, and the others only where these stand.
const FRONT_BYTES: usize = 8;

/// Whether the item is one of the words, behind each of which white space stands.
pub(crate) fn has_word(words: &[u8], item: &[u8]) -> bool
    ensures { IsTrue result ↔ HasWord words.now item.now }
{
    if item.is_empty() || words.len() <= item.len() || has_white(item) {
        return false;
    }
    if is_word(words, item, 0) {
        return true;
    }
    let end = words.len() - item.len();
    let mut from = 1;
    while from + PLACES <= end {
        if has_word_near(words, item, from) {
            return true;
        }
        from += PLACES;
    }
    has_word_behind(words, item, from)
}

/// Whether the item is a word that begins at one of the next places.
fn has_word_near(words: &[u8], item: &[u8], from: usize) -> bool
    requires some { 0 < from }
    requires fits { from + 64 + length item.now ≤ length words.now }
    ensures found { IsTrue result → (at : ℕ) × IsWordAt words.now item.now at }
    ensures none { result ≡ false → (place : ℕ) → place < 64 → IsWordAt words.now item.now (from + place) → ⊥ }
{
    let mut left = likely_places(words, item, from);
    while left != 0 {
        let place = left.trailing_zeros() as usize;
        if is_word(words, item, from + place) {
            return true;
        }
        left &= !(1 << place);
    }
    false
}

/// Whether the item is a word that begins at this place or further behind, one place after another.
fn has_word_behind(words: &[u8], item: &[u8], from: usize) -> bool
    requires fits { length item.now ≤ length words.now }
    ensures found { IsTrue result → (at : ℕ) × IsWordAt words.now item.now at }
    ensures none { result ≡ false → (at : ℕ) → from ≤ at → IsWordAt words.now item.now at → ⊥ }
{
    for at in from..words.len() - item.len() {
        if is_word(words, item, at) {
            return true;
        }
    }
    false
}

/// Whether the item is the word that begins at the place.
fn is_word(words: &[u8], item: &[u8], at: usize) -> bool
    requires { at + length item.now < length words.now }
    ensures { IsTrue result ↔ IsWordAt words.now item.now at }
{
    let end = at + item.len();
    (at == 0 || is_white(words[at - 1])) && is_white(words[end]) && &words[at..end] == item
}

/// The next places at which the item may begin as a word, a bit for each: white space stands around it, and its first bytes are the item's.
fn likely_places(words: &[u8], item: &[u8], from: usize) -> u64
    requires some { 0 < from }
    requires fits { from + 64 + length item.now ≤ length words.now }
    ensures { (place : ℕ) → place < 64 → IsWordAt words.now item.now (from + place) → bit_at result place ≡ 1 }
{
    let mut likely = white_places(&words[from - 1..]) & white_places(&words[from + item.len()..]);
    for at in 0..item.len().min(FRONT_BYTES) {
        if likely == 0 {
            return 0;
        }
        likely &= equal_places(&words[from + at..], item[at]);
    }
    likely
}

/// The first places at which white space stands.
#[inline]
fn white_places(bytes: &[u8]) -> u64
    requires { 64 ≤ length bytes.now }
    ensures { (place : ℕ) → place < 64 → bit_at result place ≡ (if backslash.is_white (slice_index bytes.now place) then 1 else 0) }
{
    equal_places(bytes, b' ') | (low_places(bytes, 13) & !low_places(bytes, 8))
}

/// The first places at which this byte stands.
#[inline]
fn equal_places(bytes: &[u8], wanted: u8) -> u64
    requires { 64 ≤ length bytes.now }
    ensures { (place : ℕ) → place < 64 → bit_at result place ≡ (if slice_index bytes.now place == wanted then 1 else 0) }
{
    u8x64::from_slice(bytes)
        .simd_eq(u8x64::splat(wanted))
        .to_bitmask()
}

/// The first places at which this byte or a lower one stands.
#[inline]
fn low_places(bytes: &[u8], highest: u8) -> u64
    requires { 64 ≤ length bytes.now }
    ensures { (place : ℕ) → place < 64 → bit_at result place ≡ (if nat_le (slice_index bytes.now place) highest then 1 else 0) }
{
    u8x64::from_slice(bytes)
        .simd_le(u8x64::splat(highest))
        .to_bitmask()
}
