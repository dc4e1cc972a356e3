//! Masks of characters, whose bits tell which of a glob pattern's parts allow them. Each character below a number has one in a table, and of some
//! letters each that stands in none has one by its place among them.
ghost use Rattle.std.specs.Prelude.{◌≡◌, ◌<◌, ◌≤◌, ◌&&◌, ◌==◌, ◌∷◌, ℕ, List, nat_le, if◌then◌else◌, length, slice_index, IfNone, IfSome};
ghost use Rattle.std.specs.Int.{bit_at};
ghost use Rattle.std.specs.Int.RustNames.{bit_or};
ghost use Rattle.std.specs.Str.{chars};
ghost use Rattle.tcl_text.specs.Bytes.{open_bracket, question_mark};
ghost use Rattle.tcl_text.specs.Glob.{AllowsFirst, in_class};
ghost use Rattle.tcl_text.specs.GlobSteps.{Allows, HasPart, IsHigh, Marks, MarksAllowed, Spans};

use crate::characters::split_first_char;
use crate::glob::range_end;

/// How many parts are looked at in one pass over the places: a mask has a bit for each.
pub(crate) const PARTS: usize = 64;

/// Marks which of the pattern's first parts, up to so many, allow each character below `LOW`, and each of the letters that isn't below. Answers how many
/// parts these are, and what follows them.
pub(crate) fn mark_parts<'p, const LOW: usize>(
    pattern: &'p str,
    most: usize,
    low: &mut [u64; LOW],
    letters: &[char],
    high: &mut [u64],
) -> (usize, &'p str)
    requires most { most ≤ PARTS }
    requires fits { length high.old ≡ length letters.now }
    ensures few { result.0 ≤ most }
    ensures spans { Spans (chars pattern.now) (chars result.1.now) result.0 }
    ensures below { Allows (chars pattern.now) (λ letter. letter < LOW) (λ letter. letter) (slice_index low.new) result.0 }
    ensures above { Allows (chars pattern.now) (IsHigh LOW letters.now) (slice_index letters.now) (slice_index high.new) result.0 }
{
    let (count, any, rest) = mark_some(pattern, most, low, letters, high);
    mark_all(any, &mut low[..]);
    mark_all(any, high);
    (count, rest)
}

/// The same but for the parts that allow any character, whose bits it answers.
fn mark_some<'p, const LOW: usize>(
    pattern: &'p str,
    most: usize,
    low: &mut [u64; LOW],
    letters: &[char],
    high: &mut [u64],
) -> (usize, u64, &'p str)
    requires most { most ≤ PARTS }
    requires fits { length high.old ≡ length letters.now }
    ensures few { result.0 ≤ most }
    ensures spans { Spans (chars pattern.now) (chars result.2.now) result.0 }
    ensures below { Allows (chars pattern.now) (λ letter. letter < LOW) (λ letter. letter) (λ letter. bit_or (slice_index low.new letter) result.1) result.0 }
    ensures above { Allows (chars pattern.now) (IsHigh LOW letters.now) (slice_index letters.now) (λ at. bit_or (slice_index high.new at) result.1) result.0 }
{
    let mut rest = pattern;
    let mut any = 0;
    let mut count = 0;
    while count < most {
        match behind_any(rest) {
            Some(after) => {
                any |= 1 << count;
                rest = after;
                count += 1;
            }
            None => match mark_part(rest, count, low, letters, high) {
                Some(after) => {
                    rest = after;
                    count += 1;
                }
                None => break,
            },
        }
    }
    (count, any, rest)
}

/// Marks all with these bits.
fn mark_all(bits: u64, masks: &mut [u64])
    ensures { (at : ℕ) → at < length masks.old → slice_index masks.new at ≡ bit_or (slice_index masks.old at) bits }
{
    for at in 0..masks.len() {
        masks[at] |= bits;
    }
}

/// What follows a `?` in the pattern's front.
fn behind_any(pattern: &str) -> Option<&str>
    ensures found { IfSome result (λ rest. chars pattern.now ≡ question_mark ∷ chars rest.now) }
    ensures none { IfNone result ((rest : List ℕ) → chars pattern.now ≡ question_mark ∷ rest → ⊥) }
    ensures shorter { IfSome result (λ rest. length rest.now < length pattern.now) }
{
    let (first, rest) = split_first_char(pattern)?;
    (first == '?').then_some(rest)
}

/// Marks with the bit those that the pattern's first part, which is no `?`, allows. Answers what follows the part; none where the pattern has no part in front, or one
/// that has no end.
fn mark_part<'p, const LOW: usize>(
    pattern: &'p str,
    bit: usize,
    low: &mut [u64; LOW],
    letters: &[char],
    high: &mut [u64],
) -> Option<&'p str>
    requires bit { bit < PARTS }
    requires fits { length high.old ≡ length letters.now }
    requires some { (rest : List ℕ) → chars pattern.now ≡ question_mark ∷ rest → ⊥ }
    ensures part { IfSome result (λ rest. HasPart (chars pattern.now)) }
    ensures behind { IfSome result (λ rest. (character : ℕ) (other : List ℕ)
        → AllowsFirst (chars pattern.now) character other → other ≡ chars rest.now) }
    ensures below { IfSome result (λ rest. MarksAllowed (chars pattern.now) (λ letter. letter < LOW) (λ letter. letter) bit low.old low.new) }
    ensures above { IfSome result (λ rest.
        MarksAllowed (chars pattern.now) (IsHigh LOW letters.now) (slice_index letters.now) bit high.old high.new) }
    ensures low_left { IfNone result (low.new ≡ low.old) }
    ensures high_left { IfNone result (high.new ≡ high.old) }
{
    let (first, after) = split_first_char(pattern)?;
    match first {
        '\\' => {
            let (escaped, rest) = split_first_char(after)?;
            mark_range(escaped, escaped, bit, low, letters, high);
            Some(rest)
        }
        '[' => mark_class(after, bit, low, letters, high),
        '*' => None,
        _ => {
            mark_range(first, first, bit, low, letters, high);
            Some(after)
        }
    }
}

/// The same by the class whose text this is up to the first `]`.
fn mark_class<'p, const LOW: usize>(
    text: &'p str,
    bit: usize,
    low: &mut [u64; LOW],
    letters: &[char],
    high: &mut [u64],
) -> Option<&'p str>
    requires bit { bit < PARTS }
    requires fits { length high.old ≡ length letters.now }
    ensures behind { IfSome result (λ rest. (character : ℕ) (other : List ℕ)
        → AllowsFirst (open_bracket ∷ chars text.now) character other → other ≡ chars rest.now) }
    ensures below { IfSome result (λ rest.
        MarksAllowed (open_bracket ∷ chars text.now) (λ letter. letter < LOW) (λ letter. letter) bit low.old low.new) }
    ensures above { IfSome result (λ rest.
        MarksAllowed (open_bracket ∷ chars text.now) (IsHigh LOW letters.now) (slice_index letters.now) bit high.old high.new) }
    ensures low_left { IfNone result (low.new ≡ low.old) }
    ensures high_left { IfNone result (high.new ≡ high.old) }
{
    let (class, rest) = text.split_once(']')?;
    mark_members(class, bit, low, letters, high);
    Some(rest)
}

/// Marks with the bit those that the class has.
fn mark_members<const LOW: usize>(
    class: &str,
    bit: usize,
    low: &mut [u64; LOW],
    letters: &[char],
    high: &mut [u64],
)
    requires bit { bit < PARTS }
    requires fits { length high.old ≡ length letters.now }
    ensures below { Marks (λ letter. letter < LOW) (λ letter. letter) (in_class (chars class.now)) bit low.old low.new }
    ensures above { Marks (IsHigh LOW letters.now) (slice_index letters.now) (in_class (chars class.now)) bit high.old high.new }
{
    let mut rest = class;
    while let Some((first, after)) = split_first_char(rest) {
        match range_end(after) {
            Some((last, next)) => {
                mark_range(first, last, bit, low, letters, high);
                rest = next;
            }
            None => {
                mark_range(first, first, bit, low, letters, high);
                rest = after;
            }
        }
    }
}

/// Marks with the bit those from `first` to `last`.
fn mark_range<const LOW: usize>(
    first: char,
    last: char,
    bit: usize,
    low: &mut [u64; LOW],
    letters: &[char],
    high: &mut [u64],
)
    requires bit { bit < PARTS }
    requires fits { length high.old ≡ length letters.now }
    ensures below { Marks (λ letter. letter < LOW) (λ letter. letter) (λ letter. nat_le first letter && nat_le letter last) bit low.old low.new }
    ensures above { Marks (IsHigh LOW letters.now) (slice_index letters.now) (λ letter. nat_le first letter && nat_le letter last) bit high.old high.new }
{
    mark_low(first, last, bit, &mut low[..]);
    if last as usize >= LOW {
        mark_high(first, last, bit, letters, high);
    }
}

fn mark_low(first: char, last: char, bit: usize, low: &mut [u64])
    requires { bit < PARTS }
    ensures { Marks (λ letter. letter < length low.old) (λ letter. letter) (λ letter. nat_le first letter && nat_le letter last) bit low.old low.new }
{
    let end = low.len().min(last as usize + 1);
    for letter in end.min(first as usize)..end {
        low[letter] |= 1 << bit;
    }
}

fn mark_high(first: char, last: char, bit: usize, letters: &[char], high: &mut [u64])
    requires bit { bit < PARTS }
    requires fits { length high.old ≡ length letters.now }
    ensures { Marks (λ at. at < length letters.now) (slice_index letters.now) (λ letter. nat_le first letter && nat_le letter last) bit high.old high.new }
{
    for at in 0..letters.len() {
        high[at] = marked(first, last, bit, letters[at], high[at]);
    }
}

/// The mask with the bit, if the letter is from `first` to `last`.
fn marked(first: char, last: char, bit: usize, letter: char, mask: u64) -> u64
    requires { bit < PARTS }
    ensures { (place : ℕ)
        → bit_at result place ≡ (if place == bit && (nat_le first letter && nat_le letter last) then 1 else bit_at mask place) }
{
    if first <= letter && letter <= last {
        mask | 1 << bit
    } else {
        mask
    }
}
