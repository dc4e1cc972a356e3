//! Where parts of a script stand, in as little memory as a place in it needs.

ghost use Rattle.std.specs.Prelude.{◌≡◌, ◌≤◌, nat_eq};
ghost use Rattle.tcl_words.specs.Places.{place_at, stretch};
ghost use Rattle.tcl_text.specs.Limits.{most_bytes};

use std::marker::Model;
use tcl_text::MAX_BYTES;

/// A stretch of the source, from its first byte up to the byte after its last. Its places count the bytes of the script that the
/// part belongs to; in a script in brackets they count from behind the bracket.
#[derive(Drop)]
pub struct Span {
    start: u16,
    end: u16,
    /// Whether it starts, and ends, past the last byte of a text as long as may be, which is one more than 16 bits hold.
    is_start_last: bool,
    is_end_last: bool,
}

impl Model for Span {
    ghost use Rattle.tcl_words.specs.Places.{Stretch, place_at};

    ghost Value = { Stretch };

    ghost view = { λ s. record { start = place_at s.is_start_last s.start; end = place_at s.is_end_last s.end } };
}

/// The bits of a place that are kept, where it isn't the last.
fn low_bits(place: usize) -> u16
    requires { place ≤ most_bytes }
    ensures { place_at (nat_eq place most_bytes) result ≡ place }
{
    if place == MAX_BYTES { 0 } else { place as u16 }
}

/// The place of which these bits are kept.
fn place_of(is_last: bool, low_bits: u16) -> usize
    ensures { result ≡ place_at is_last low_bits }
{
    if is_last {
        MAX_BYTES
    } else {
        usize::from(low_bits)
    }
}

impl Span {
    /// The stretch from one place up to another.
    pub(crate) fn new(start: usize, end: usize) -> Span
        requires start { start ≤ most_bytes }
        requires end { end ≤ most_bytes }
        ensures { result ≡ stretch start end }
    {
        Span {
            start: low_bits(start),
            end: low_bits(end),
            is_start_last: start == MAX_BYTES,
            is_end_last: end == MAX_BYTES,
        }
    }

    /// The place of the first byte.
    pub fn start(&self) -> usize
        ensures { result ≡ self.now.start }
    {
        place_of(self.is_start_last, self.start)
    }

    /// The place past the last byte.
    pub fn end(&self) -> usize
        ensures { result ≡ self.now.end }
    {
        place_of(self.is_end_last, self.end)
    }

    /// The same stretch.
    pub fn copy(&self) -> Span
        ensures { result ≡ self.now }
    {
        Span {
            start: self.start,
            end: self.end,
            is_start_last: self.is_start_last,
            is_end_last: self.is_end_last,
        }
    }
}
