//! Places of a text at which a pattern's parts may match, many tried at once.
ghost use Rattle.std.specs.Prelude.{◌≡◌, ◌<◌, ◌≤◌, ◌+◌, ◌++◌, ℕ, List, false, length, drop, get_or, slice_index};
ghost use Rattle.std.specs.Str.{chars};
ghost use Rattle.tcl_text.specs.Glob.{GlobMatches};
ghost use Rattle.tcl_text.specs.GlobSteps.{AllowsAt, AreDead, IsBehindDead, KeepsAllowed};

use crate::glob_letters::behind_dead_letters;
use crate::glob_masks::{PARTS, mark_parts};

/// How many places of an ASCII text are tried at once at first, where a match is often near, and how many later.
const FIRST_PLACES: usize = 1_024;

const PLACES: usize = 8_192;

/// How many bytes there are.
const BYTES: usize = 256;

/// Fewer than these are tried one after another.
const FEW_PLACES: usize = 8;

/// What stands in the text behind places in front at which the pattern, of so many parts up to its next `*`, doesn't match. It stops where a place may
/// live, and where few are left. Up to 64 parts cost one step for each place that is tried, and each part one for each of its members.
pub(crate) fn behind_dead<'t>(pattern: &str, parts: usize, text: &'t str) -> &'t str
    requires { (any : List ℕ) → GlobMatches (chars pattern.now) any → parts ≤ length any }
    ensures dead { IsBehindDead (chars pattern.now) (chars text.now) (chars result.now) }
    ensures shorter { length result.now ≤ length text.now }
{
    let mut rest = text;
    let mut most = FIRST_PLACES;
    loop {
        let (after, whole) = behind_window(pattern, parts, most, rest);
        if after.len() >= rest.len() {
            return rest;
        }
        rest = after;
        if !whole {
            return rest;
        }
        most = PLACES;
    }
}

/// The same of the places in the text's front of which so many are tried at once, or an eighth where a character isn't ASCII, up to the first that may
/// live, and whether none does.
fn behind_window<'t>(pattern: &str, parts: usize, most: usize, text: &'t str) -> (&'t str, bool)
    requires most { most ≤ PLACES }
    requires long { (any : List ℕ) → GlobMatches (chars pattern.now) any → parts ≤ length any }
    ensures { IsBehindDead (chars pattern.now) (chars text.now) (chars result.0.now) }
{
    let places = text.len().saturating_sub(parts).min(most);
    if places < FEW_PLACES {
        return (text, false);
    }
    let (window, _others) = text.as_bytes().split_at(parts + places);
    if !window.is_ascii() {
        return behind_dead_letters(pattern, parts, most / 8, text);
    }
    let dead = dead_places(pattern, window, places);
    (&text[dead..], dead == most)
}

/// How many of so many places at the window's front are dead, up to the first that may not be.
fn dead_places(pattern: &str, window: &[u8], places: usize) -> usize
    requires few { places ≤ PLACES }
    requires fits { places ≤ length window.now }
    ensures within { result ≤ places }
    ensures none { (place : ℕ) → place < result → (behind : List ℕ)
        → GlobMatches (chars pattern.now) (drop place (window.now ++ behind)) → ⊥ }
{
    if window.len() - places <= PARTS {
        dead_of_few_parts(pattern, window, places)
    } else {
        dead_of_many_parts(pattern, window, places)
    }
}

/// The same by one look at each byte, up to the first place that lives.
fn dead_of_few_parts(pattern: &str, window: &[u8], places: usize) -> usize
    requires fits { places ≤ length window.now }
    ensures within { result ≤ places }
    ensures none { (place : ℕ) → place < result → (behind : List ℕ)
        → GlobMatches (chars pattern.now) (drop place (window.now ++ behind)) → ⊥ }
{
    let mut masks = [0; BYTES];
    let most = PARTS.min(window.len() - places);
    let (count, _after) = mark_parts(pattern, most, &mut masks, &[], &mut []);
    if count == 0 {
        return 0;
    }
    first_allowed(&masks, count, window).min(places)
}

/// A place before which none has each of so many parts allow its byte, which the masks tell: the first that has, or the last at which they fit. From
/// byte to byte, each bit tells whether the parts up to its own allow what stands up to there.
fn first_allowed(masks: &[u64; BYTES], parts: usize, bytes: &[u8]) -> usize
    requires some { 0 < parts }
    requires few { parts ≤ PARTS }
    requires fits { parts ≤ length bytes.now }
    ensures { (place : ℕ) → place < result → AllowsAt (λ at. slice_index masks.now (slice_index bytes.now at)) parts place → ⊥ }
{
    let mut allowed = 0;
    for at in 0..bytes.len() {
        allowed = (allowed << 1 | 1) & masks[bytes[at] as usize];
        if allowed >> (parts - 1) & 1 == 1 {
            return (at + 1).saturating_sub(parts);
        }
    }
    bytes.len() - parts
}

/// The same pass by pass over all places.
fn dead_of_many_parts(pattern: &str, window: &[u8], places: usize) -> usize
    requires few { places ≤ PLACES }
    requires fits { places ≤ length window.now }
    ensures within { result ≤ places }
    ensures none { (place : ℕ) → place < result → (behind : List ℕ)
        → GlobMatches (chars pattern.now) (drop place (window.now ++ behind)) → ⊥ }
{
    let mut all = [true; PLACES];
    let alive = &mut all[..places];
    keep_matching(pattern, window, alive);
    dead_front(alive)
}

/// How many are dead before the first that lives.
pub(crate) fn dead_front(alive: &[bool]) -> usize
    ensures within { result ≤ length alive.now }
    ensures dead { (place : ℕ) → place < result → get_or alive.now place false ≡ false }
{
    let mut dead = 0;
    while dead < alive.len() && !alive[dead] {
        dead += 1;
    }
    dead
}

/// Keeps those of the window's first places alive at which the pattern's parts allow the bytes, as far as the window goes behind the last of them.
fn keep_matching(pattern: &str, window: &[u8], alive: &mut [bool])
    requires fits { length alive.old ≤ length window.now }
    requires dead { AreDead (chars pattern.now) window.now alive.old }
    ensures { AreDead (chars pattern.now) window.now alive.new }
{
    let parts = window.len() - alive.len();
    let mut rest = pattern;
    let mut at = 0;
    while at < parts {
        let mut masks = [0; BYTES];
        let most = PARTS.min(parts - at);
        let (count, after) = mark_parts(rest, most, &mut masks, &[], &mut []);
        if count == 0 {
            return;
        }
        let bytes = &window[at..at + alive.len() + count];
        let some = keep_allowed(&masks, count, bytes, alive);
        if !some {
            return;
        }
        rest = after;
        at += count;
    }
}

/// Keeps the places alive at which each of so many parts allows its byte, which the masks tell, and answers whether a place lives. From the last byte
/// to the first, each bit tells whether the parts from its own on allow what stands from there on.
fn keep_allowed(masks: &[u64; BYTES], parts: usize, bytes: &[u8], alive: &mut [bool]) -> bool
    requires some { 0 < parts }
    requires few { parts ≤ PARTS }
    requires fits { length bytes.now ≡ length alive.old + parts }
    ensures { KeepsAllowed (λ at. slice_index masks.now (slice_index bytes.now at)) parts alive.old alive.new }
{
    let last = 1 << (parts - 1);
    let mut allowed = 0;
    let mut some = false;
    for at in (0..bytes.len()).rev() {
        allowed = (allowed >> 1 | last) & masks[bytes[at] as usize];
        if at < alive.len() {
            let lives = alive[at] & (allowed % 2 == 1);
            alive[at] = lives;
            some |= lives;
        }
    }
    some
}
