//! Of which class a sequence is: an event looks only at the sequences of its own.
ghost use Rattle.std.specs.Prelude.{◌≡◌, ◌<◌, ◌^◌, Some};
ghost use Rattle.tk_virtual.specs.Classes.{key_number, detail_number, class_number, sequence_class};

use tk_base::Keysym;
use tk_sequences::{Detail, EventType, Sequence};

/// The class of all virtual events.
pub const VIRTUAL_CLASS: u64 = 0;

/// The class of a sequence, by its last pattern.
pub fn sequence_class(sequence: &Sequence) -> u64
    ensures { result ≡ sequence_class sequence.now }
{
    match sequence {
        Sequence::Virtual(_) => VIRTUAL_CLASS,
        Sequence::Physical(patterns) => match patterns.as_slice().last() {
            Some(pattern) => class_number(pattern.kind, pattern.detail),
            None => VIRTUAL_CLASS,
        },
    }
}

/// The class of the sequences whose last pattern has a type and a detail.
pub fn class_number(kind: EventType, detail: Option<Detail>) -> u64
    ensures { result ≡ class_number kind detail }
{
    u64::from(kind.number()) * 1024 + detail_number(detail)
}

fn detail_number(detail: Option<Detail>) -> u64
    ensures value { result ≡ detail_number detail }
    ensures bound { result < 2 ^ 32 }
{
    match detail {
        Some(detail) => some_number(detail),
        None => 0,
    }
}

fn some_number(detail: Detail) -> u64
    ensures value { result ≡ detail_number (Some detail) }
    ensures bound { result < 2 ^ 32 }
{
    match detail {
        Detail::Key(key) => key_number(key),
        Detail::Button(button) => 256 + u64::from(button),
    }
}

fn key_number(key: Keysym) -> u64
    ensures value { result ≡ key_number key }
    ensures bound { result < 2 ^ 32 }
{
    match key.character() {
        Some(character) => 512 + u64::from(character as u32),
        None => 1,
    }
}
