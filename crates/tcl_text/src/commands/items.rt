//! Lists among the words of a command and as its answer.
ghost use Rattle.std.specs.Prelude.{◌≡◌};
ghost use Rattle.tcl_text.specs.Answers.{Gives, answers, items_in as items_of};
ghost use Rattle.tcl_text.specs.Readings.{list_form};

use crate::commands::answers::{Refusal, Reply, error, limit_reached};
use crate::fault::{SplitFault, TextFault};
use crate::list::TextList;
use crate::text::Text;
use std::alloc::Global;

/// The items of the list that a word is, or the error that it is none (3).
#[tactic(auto, using(crate::proofs::AnswerLemmas::list_faults), unfolding(crate::specs::Answers::items_in))]
pub fn items_in(alloc: Global, list: &Text) -> Result<TextList, Refusal>
    ensures { Gives result (items_of list.now) }
{
    match list.split_list(alloc) {
        Ok(items) => Ok(items),
        Err(SplitFault::BadList(fault)) => Err(error(alloc, fault.text())),
        Err(SplitFault::NoMemory) => Err(Refusal::NoMemory),
    }
}

/// The list of these items as an answer (list(n)), or the error of a value past 65,536 bytes (4).
#[tactic(auto, using(crate::proofs::AnswerLemmas::bounds))]
pub fn list_answer(alloc: Global, items: &[Text]) -> Reply
    ensures { Gives result (answers (list_form items.now)) }
{
    match Text::join_list(alloc, items) {
        Ok(list) => Ok(list),
        Err(TextFault::TooLong) => Err(limit_reached(alloc)),
        Err(TextFault::NoMemory) => Err(Refusal::NoMemory),
    }
}
