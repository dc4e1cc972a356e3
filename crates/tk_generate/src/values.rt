//! What the values of options are read as.
ghost use Rattle.std.specs.Prelude.{◌≡◌, ◌≤◌, IfSome, Some};
ghost use Rattle.tcl_text.specs.Answers.{Gives};
ghost use Rattle.tcl_text.specs.Readings.{integer_of};
ghost use Rattle.tk_generate.specs.Values as spec;

use crate::given::When;
use crate::refusals::{or_bad_value, sequence_refused};
use std::alloc::Global;
use tcl_text::Text;
use tcl_text::answers::Refusal;
use tk_base::Keysym;
use tk_sequences::SequenceFault;

/// When an event comes, by its word.
fn when_named(word: &str) -> Option<When>
    ensures { result ≡ spec.when_named word.now }
{
    match word {
        "now" => Some(When::Now),
        "tail" => Some(When::Tail),
        "head" => Some(When::Head),
        _ => None,
    }
}

/// The value of `-when`.
pub fn when_in(alloc: Global, option: &Text, value: &Text) -> Result<When, Refusal>
    ensures { Gives result (spec.when_in option.now value.now) }
{
    or_bad_value(alloc, option, value, when_named(value.as_str()))
}

/// The integer that a value spells, if it spells one.
fn integer_in(value: &Text) -> Option<i64>
    ensures { result ≡ integer_of value.now }
{
    value.integer().ok()
}

/// The integer, where 32 bits hold it.
fn coordinate(number: Option<i64>) -> Option<i32>
    ensures { result ≡ spec.coordinate number }
{
    i32::try_from(number?).ok()
}

/// The value of `-x` and `-y`.
pub fn coordinate_in(alloc: Global, option: &Text, value: &Text) -> Result<i32, Refusal>
    ensures { Gives result (spec.coordinate_in option.now value.now) }
{
    or_bad_value(alloc, option, value, coordinate(integer_in(value)))
}

/// The number, where it is one of these, the least and the most among them.
fn within(least: u64, most: u64, number: Option<i64>) -> Option<u64>
    ensures value { result ≡ spec.within least most number }
    ensures bound { IfSome result (λ number. number ≤ most) }
{
    match u64::try_from(number?) {
        Ok(number) if least <= number && number <= most => Some(number),
        _ => None,
    }
}

/// The number of a button.
fn button(number: Option<i64>) -> Option<u8>
    ensures { result ≡ spec.within 1 5 number }
{
    let number = within(1, 5, number)?;
    Some(number as u8)
}

/// The value of `-button`.
pub fn button_in(alloc: Global, option: &Text, value: &Text) -> Result<u8, Refusal>
    ensures { Gives result (spec.button_in option.now value.now) }
{
    or_bad_value(alloc, option, value, button(integer_in(value)))
}

/// Which modifiers and buttons are held: the sum of their bits.
fn state(number: Option<i64>) -> Option<u16>
    ensures { result ≡ spec.within 0 8191 number }
{
    let number = within(0, 8191, number)?;
    Some(number as u16)
}

/// The value of `-state`.
pub fn state_in(alloc: Global, option: &Text, value: &Text) -> Result<u16, Refusal>
    ensures { Gives result (spec.state_in option.now value.now) }
{
    or_bad_value(alloc, option, value, state(integer_in(value)))
}

/// The value of `-keysym`: the key of a name. Else the error of a bad key (30).
pub fn keysym_in(alloc: Global, value: &Text) -> Result<Keysym, Refusal>
    ensures { Gives result (spec.keysym_in value.now) }
{
    match Keysym::named(value.as_str()) {
        Some(key) => Ok(key),
        None => sequence_refused(alloc, SequenceFault::BadKeysym(value.copy()?)),
    }
}
