//! Integers among the words of a command.
ghost use Rattle.tcl_text.specs.Answers.{Gives, integer_in};

use crate::commands::answers::{Refusal, not_integer};
use crate::fault::NotInteger;
use crate::text::Text;
use std::alloc::Global;

#[tactic(auto, unfolding(crate::specs::Answers::integer_in))]
/// The integer that a word is, or the error that it is none (1).
pub fn integer_of(alloc: Global, word: &Text) -> Result<i64, Refusal>
    ensures { Gives result (integer_in word.now) }
{
    match word.integer() {
        Ok(number) => Ok(number),
        Err(NotInteger) => not_integer(alloc, word),
    }
}
