//! Sums.
ghost use Rattle.std.specs.Prelude.{◌≡◌};
ghost use Rattle.tcl_text.specs.Answers.{Gives};
ghost use Rattle.tk_alias.specs.Services as spec;

use crate::kinds::listed;
use std::alloc::Global;
use tcl_text::Text;
use tcl_text::answers::{Refusal, too_large};
use tcl_text::integers::integer_of;

/// The sum of the configuration and the arguments.
pub(crate) fn sum(alloc: Global, config: &Text, args: &[Text]) -> Result<Text, Refusal>
    ensures { Gives result (spec.sum config.now args.now) }
{
    let words = listed(alloc, config, args)?;
    let total = total(alloc, words.as_slice())?;
    whole(alloc, total)
}

/// The sum of integers, however large.
fn total(alloc: Global, words: &[Text]) -> Result<i128, Refusal>
    ensures { Gives result (spec.total_of words.now) }
{
    let mut total: i128 = 0;
    for word in words {
        total += i128::from(integer_of(alloc, word)?);
    }
    Ok(total)
}

/// The integer, where 64 bits hold it.
fn whole(alloc: Global, total: i128) -> Result<Text, Refusal>
    ensures { Gives result (spec.whole total) }
{
    match i64::try_from(total) {
        Ok(number) => Ok(Text::from_integer(alloc, number)?),
        Err(_) => too_large(alloc),
    }
}
