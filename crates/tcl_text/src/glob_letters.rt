//! Places of a text that isn't ASCII at which a pattern's parts may match, many tried at once.
ghost use Rattle.std.specs.Prelude.{◌≡◌, ◌<◌, ◌≤◌, ◌+◌, ◌++◌, ℕ, List, nat_lt, if◌then◌else◌, IsTrue, IfSome, length, drop, slice_index};
ghost use Rattle.std.specs.Str.{chars};
ghost use Rattle.tcl_text.specs.Glob.{GlobMatches};
ghost use Rattle.tcl_text.specs.GlobSteps.{AreDeadIn, IsBehindDead, KeepsAllowed, KeepsMatching, Spans, mask_at};

use crate::characters::{count, split_characters, split_first_char};
use crate::glob_masks::{PARTS, mark_parts};
use crate::glob_places::dead_front;

/// How many places are tried at once at most.
const PLACES: usize = 1_024;

/// So many characters are looked at at once at most.
const LETTERS: usize = PLACES + PARTS;

/// How many characters have a mask in a table: those of one and of two bytes.
const LOW: usize = 2_048;

/// Fewer places than these are tried one after another.
const FEW_PLACES: usize = 64;

/// What stands in the text behind places in front, of which so many are tried at once, at which the pattern, of so many parts up to its next `*`, doesn't
/// match, and nothing where too few characters are left. It stops where one may live. Tells too whether none does.
pub(crate) fn behind_dead_letters<'t>(
    pattern: &str,
    parts: usize,
    most: usize,
    text: &'t str,
) -> (&'t str, bool)
    requires most { most ≤ PLACES }
    requires long { (any : List ℕ) → GlobMatches (chars pattern.now) any → parts ≤ length any }
    ensures { IsBehindDead (chars pattern.now) (chars text.now) (chars result.0.now) }
{
    let size = count(text);
    if size < parts {
        return ("", false);
    }
    let places = most.min(size - parts);
    if places < FEW_PLACES {
        return (text, false);
    }
    let mut all = [true; PLACES];
    let alive = &mut all[..places];
    keep_matching(pattern, parts, text, alive);
    let dead = dead_front(alive);
    let (_front, behind) = split_characters(text, dead);
    (behind, dead == most)
}

/// Keeps those of the text's first places alive at which the pattern's parts, so many, match.
fn keep_matching(pattern: &str, parts: usize, text: &str, alive: &mut [bool])
    requires few { length alive.old ≤ PLACES }
    requires dead { AreDeadIn (chars pattern.now) (chars text.now) alive.old }
    ensures { AreDeadIn (chars pattern.now) (chars text.now) alive.new }
{
    let mut rest = pattern;
    let mut behind = text;
    let mut at = 0;
    while at < parts {
        let most = PARTS.min(parts - at);
        let mut room = ['\0'; LETTERS];
        let letters = &mut room[..alive.len() + most];
        if !fill(behind, letters) {
            return;
        }
        match keep_next(rest, most, letters, alive) {
            Some((passed, after)) => {
                rest = after;
                behind = skip(behind, passed);
                at += passed;
            }
            None => return,
        }
    }
}

/// Fills the letters with the text's first characters, if it has so many.
fn fill(text: &str, letters: &mut [char]) -> bool
    ensures { IsTrue result → letters.new ++ drop (length letters.new) (chars text.now) ≡ chars text.now }
{
    let mut rest = text;
    for at in 0..letters.len() {
        match split_first_char(rest) {
            Some((first, after)) => {
                letters[at] = first;
                rest = after;
            }
            None => return false,
        }
    }
    true
}

/// What stands in the text behind so many characters.
fn skip(text: &str, count: usize) -> &str
    ensures { chars result.now ≡ drop count (chars text.now) }
{
    let mut rest = text;
    for _passed in 0..count {
        match split_first_char(rest) {
            Some((_first, after)) => rest = after,
            None => return rest,
        }
    }
    rest
}

/// Keeps the places alive at which the pattern's first parts, so many at most, allow the letters. Answers how many these parts are, and what follows
/// them; none where no place lives, or the pattern has no part in front.
fn keep_next<'p>(
    pattern: &'p str,
    most: usize,
    letters: &[char],
    alive: &mut [bool],
) -> Option<(usize, &'p str)>
    requires few { most ≤ PARTS }
    requires fits { length letters.now ≡ length alive.old + most }
    requires room { length letters.now ≤ LETTERS }
    ensures some { IfSome result (λ next. 0 < next.0) }
    ensures few { IfSome result (λ next. next.0 ≤ most) }
    ensures spans { IfSome result (λ next. Spans (chars pattern.now) (chars next.1.now) next.0) }
    ensures kept { KeepsMatching (chars pattern.now) letters.now alive.old alive.new }
{
    let mut low = [0; LOW];
    let mut room = [0; LETTERS];
    let high = &mut room[..letters.len()];
    let (parts, rest) = mark_parts(pattern, most, &mut low, letters, high);
    if parts == 0 {
        return None;
    }
    let some = keep_allowed(&low, letters, high, parts, alive);
    if !some {
        return None;
    }
    Some((parts, rest))
}

/// Keeps the places alive at which each of so many parts allows its letter, which the masks tell, and answers whether a place lives. From the last letter
/// to the first, each bit tells whether the parts from its own on allow what stands from there on.
fn keep_allowed(
    low: &[u64; LOW],
    letters: &[char],
    high: &[u64],
    parts: usize,
    alive: &mut [bool],
) -> bool
    requires some { 0 < parts }
    requires few { parts ≤ PARTS }
    requires fits { length alive.old + parts ≤ length letters.now }
    requires masks { length high.now ≡ length letters.now }
    ensures { KeepsAllowed (mask_at LOW low.now letters.now high.now) parts alive.old alive.new }
{
    let last = 1 << (parts - 1);
    let mut allowed = 0;
    let mut some = false;
    for at in (0..alive.len() + parts).rev() {
        allowed = (allowed >> 1 | last) & mask_of(low, letters[at], high[at]);
        if at < alive.len() {
            let lives = alive[at] & (allowed % 2 == 1);
            alive[at] = lives;
            some |= lives;
        }
    }
    some
}

/// The letter's mask: that of the table, if it has one there.
fn mask_of(low: &[u64; LOW], letter: char, high: u64) -> u64
    ensures { result ≡ (if nat_lt letter LOW then slice_index low.now letter else high) }
{
    if (letter as usize) < LOW {
        low[letter as usize]
    } else {
        high
    }
}
