//! Values of a table.

ghost use Rattle.std.specs.Prelude.{◌≡◌, ◌≤◌, option_map, IfOk, IfSome};
ghost use Rattle.panels_bench.specs.Values.{Says, counted, flag_if, number_if, short, text_if, text_in};
ghost use Rattle.panels_text.specs.Tables.{value_of};

use panels_text::{Failure, Part};
use std::alloc::Global;
use tcl_text::{Text, TextFault};

/// A text, where it is there.
pub(crate) fn text_if<'a>(
    alloc: Global,
    part: &Part<'a>,
    key: &str,
) -> Result<Option<&'a str>, Failure>
    ensures { Says (option_map (λ text. text.now)) result (text_if (value_of part.now key.now)) }
{
    part.text(alloc, key)
}

/// A truth value, where it is there.
pub(crate) fn flag_if(alloc: Global, part: &Part<'_>, key: &str) -> Result<Option<bool>, Failure>
    ensures { Says (λ flag. flag) result (flag_if (value_of part.now key.now)) }
{
    part.boolean(alloc, key)
}

/// A number up to `most`, where it is there.
pub(crate) fn number_if(
    alloc: Global,
    part: &Part<'_>,
    key: &str,
    most: u64,
) -> Result<Option<u64>, Failure>
    ensures said { Says (λ number. number) result (number_if most (value_of part.now key.now)) }
    ensures most { IfOk result (λ number. IfSome number (λ number. number ≤ most)) }
{
    part.number(alloc, key, most)
}

#[tactic(auto, using(crate::proofs::ValueLemmas::text_there, crate::proofs::ValueLemmas::text_missing, crate::proofs::ValueLemmas::text_wrong))]
/// A text that has to be there: it is told as what is wanted.
pub(crate) fn text_in<'a>(
    alloc: Global,
    part: &Part<'a>,
    key: &str,
    wanted: &str,
) -> Result<&'a str, Failure>
    ensures { Says (λ text. text.now) result (text_in (value_of part.now key.now)) }
{
    match text_if(alloc, part, key)? {
        Some(text) => Ok(text),
        None => Err(part.refused(alloc, key, wanted)),
    }
}

/// A number from 1 to `most`; `first` where it isn't there.
pub(crate) fn counted(
    alloc: Global,
    part: &Part<'_>,
    key: &str,
    first: u32,
    most: u32,
) -> Result<u32, Failure>
    ensures { Says (λ number. number) result (counted first most (value_of part.now key.now)) }
{
    let said = number_if(alloc, part, key, u64::from(most))?;
    let number = said.unwrap_or(u64::from(first));
    if number == 0 {
        let wanted = format!(in alloc; "a whole number from 1 to {most}")?;
        return Err(part.refused(alloc, key, wanted.as_str()));
    }
    Ok(number as u32)
}

/// A text of a session; `key` says where it is too long.
pub(crate) fn text_of(
    alloc: Global,
    part: &Part<'_>,
    key: &str,
    text: &str,
) -> Result<Text, Failure>
    ensures ok { IfOk result (λ copy. copy ≡ text.now) }
    ensures said { Says (λ copy. copy) result (short text.now) }
{
    match Text::new(alloc, text) {
        Ok(text) => Ok(text),
        Err(TextFault::TooLong) => Err(part.fault(alloc, key, "this has more than 65536 bytes")),
        Err(TextFault::NoMemory) => Err(Failure::NoMemory),
    }
}
