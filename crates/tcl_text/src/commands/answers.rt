//! What the steps of a command answer, and the texts of their errors.
ghost use Rattle.std.specs.Prelude.{◌≡◌, ◌++◌, IfOk, string_bytes};
ghost use Rattle.std.specs.Fmt.{decimal};
ghost use Rattle.tcl_text.specs.Answers.{Gives, IsAnswerOf, Refuses, answers, truth as truth_of, place as place_of, wrong_args as wrong_args_of, bad_option as bad_option_of, bad_index as bad_index_of, missing_value as missing_value_of, too_large as too_large_of, expected_integer};
ghost use Rattle.tcl_text.specs.Messages.{bounded, limit_text, quoted};
ghost use Rattle.tcl_text.specs.declared.commands.answers.Refusal.TheVariants as refusal;

use crate::fault::{NotInteger, TextFault};
use crate::message::{
    Answer, MISSING, VALUE_FOR, about, about_between, bad_option_text, limit, too_large_text,
    wrong_args_text,
};
use crate::text::Text;
use itoa::Buffer;
use std::alloc::{AllocError, AllocFailed, Global};

/// What a command answers from its words, or a step of it: a text, or why there is none.
pub type Reply = Result<Text, Refusal>;

/// Why a step of a command gave nothing.
#[derive(Drop)]
pub enum Refusal {
    /// The command's error, with its text.
    Error(Text),
    /// Memory was refused.
    NoMemory,
}

impl From<AllocError> for Refusal {
    ghost from_gives = { λ _ e. e ≡ refusal.NoMemory };

    fn from(_refused: AllocError) -> Refusal {
        Refusal::NoMemory
    }
}

impl<T: Drop> From<AllocFailed<T>> for Refusal {
    ghost from_gives = { λ _ e. e ≡ refusal.NoMemory };

    fn from(_refused: AllocFailed<T>) -> Refusal {
        Refusal::NoMemory
    }
}

/// What the steps of a command gave, as its answer.
pub fn answered(given: Reply) -> Result<Answer, AllocError>
    ensures { IfOk result (λ answer. IsAnswerOf given answer) }
{
    match given {
        Ok(text) => Ok(Ok(text)),
        Err(Refusal::Error(text)) => Ok(Err(text)),
        Err(Refusal::NoMemory) => Err(AllocError),
    }
}

/// An answer of these characters, or the error of a value past 65,536 bytes (4).
#[tactic(auto, using(crate::proofs::AnswerLemmas::bounds))]
pub fn text_answer(alloc: Global, characters: &str) -> Reply
    ensures { Gives result (answers characters.now) }
{
    match Text::new(alloc, characters) {
        Ok(text) => Ok(text),
        Err(TextFault::TooLong) => Err(limit_reached(alloc)),
        Err(TextFault::NoMemory) => Err(Refusal::NoMemory),
    }
}

/// An answer of the characters of a string, which it takes over, or the error of a value past 65,536 bytes (4).
#[tactic(auto, using(crate::proofs::AnswerLemmas::bounds))]
pub fn string_answer(alloc: Global, string: String) -> Reply
    ensures { Gives result (answers (string_bytes string)) }
{
    match Text::from_string(alloc, string) {
        Ok(text) => Ok(text),
        Err(TextFault::TooLong) => Err(limit_reached(alloc)),
        Err(TextFault::NoMemory) => Err(Refusal::NoMemory),
    }
}

/// A text as it is.
#[tactic(auto, using(crate::proofs::AnswerLemmas::bounds))]
pub fn copy_answer(text: &Text) -> Reply
    ensures { Gives result (answers text.now) }
{
    let _characters = text.as_str();
    Ok(text.copy()?)
}

/// A text that is given away, as it is.
#[tactic(auto, using(crate::proofs::AnswerLemmas::bounds))]
pub fn own_answer(text: Text) -> Reply
    ensures { Gives result (answers text) }
{
    let _characters = text.as_str();
    Ok(text)
}

/// A number in decimal.
pub fn decimal_answer(alloc: Global, number: usize) -> Reply
    ensures { Gives result (answers (decimal number)) }
{
    let mut buffer = Buffer::new();
    text_answer(alloc, buffer.format(number))
}

/// A place, counted from 0, in decimal, or -1 where there is none, as lsearch(n) answers.
pub fn place_answer(alloc: Global, place: Option<usize>) -> Reply
    ensures { Gives result (place_of place) }
{
    match place {
        Some(number) => decimal_answer(alloc, number),
        None => text_answer(alloc, "-1"),
    }
}

/// The answer 1 or 0.
pub fn truth_answer(alloc: Global, truth: bool) -> Reply
    ensures { Gives result (truth_of truth) }
{
    text_answer(alloc, if truth { "1" } else { "0" })
}

/// The error for a value past 65,536 bytes (4).
pub fn limit_reached(alloc: Global) -> Refusal
    ensures { Refuses result limit_text }
{
    match limit(alloc) {
        Ok(text) => Refusal::Error(text),
        Err(AllocError) => Refusal::NoMemory,
    }
}

/// An error with this text, or with the limit's (4) where the text is past 65,536 bytes.
pub fn error(alloc: Global, message: &str) -> Refusal
    ensures { Refuses result (bounded message.now) }
{
    match Text::of_message(alloc, message) {
        Ok(text) => Refusal::Error(text),
        Err(AllocError) => Refusal::NoMemory,
    }
}

/// The error for a wrong number of words: `wrong # args: should be` and the usage. It has no number.
#[tactic(auto, unfolding(crate::specs::Messages::bounded))]
pub fn wrong_args<T>(alloc: Global, usage: &str) -> Result<T, Refusal>
    ensures { Gives result (wrong_args_of usage.now) }
{
    Err(Refusal::Error(wrong_args_text(alloc, usage)?))
}

/// The error for a word in the place of a sub-command or switch that is none. It has no number.
#[tactic(auto, unfolding(crate::specs::Messages::bounded))]
pub fn bad_option<T>(alloc: Global, word: &Text) -> Result<T, Refusal>
    ensures { Gives result (bad_option_of word.now) }
{
    Err(Refusal::Error(bad_option_text(alloc, word.as_str())?))
}

/// The error for a word that is no index: no integer, `end` or `end-N` (string(n)). It has no number.
pub fn bad_index<T>(alloc: Global, word: &Text) -> Result<T, Refusal>
    ensures { Gives result (bad_index_of word.now) }
{
    Err(quoting_error(alloc, "bad index ", word.as_str()))
}

/// The error for a word that has no value behind it. It has a number only where the word is an option (23).
pub fn missing_value<T>(alloc: Global, word: &str) -> Result<T, Refusal>
    ensures { Gives result (missing_value_of word.now) }
{
    Err(error_about(alloc, VALUE_FOR, word, MISSING))
}

/// The error for an integer past 64 bits (13).
#[tactic(auto, unfolding(crate::specs::Messages::bounded))]
pub fn too_large<T>(alloc: Global) -> Result<T, Refusal>
    ensures { Gives result too_large_of }
{
    Err(Refusal::Error(too_large_text(alloc)?))
}

/// The error for a word that is no integer (1).
#[tactic(auto, unfolding(crate::specs::Messages::bounded))]
pub fn not_integer<T>(alloc: Global, word: &Text) -> Result<T, Refusal>
    ensures { Gives result (expected_integer word.now) }
{
    Err(Refusal::Error(NotInteger.text(alloc, word.as_str())?))
}

/// An error that ends with a word in quotation marks, or the limit's (4) where its text is past 65,536 bytes.
#[tactic(auto, unfolding(crate::specs::Messages::bounded))]
pub fn quoting_error(alloc: Global, message: &str, word: &str) -> Refusal
    ensures { Refuses result (bounded (message.now ++ quoted word.now)) }
{
    match about(alloc, message, word) {
        Ok(text) => Refusal::Error(text),
        Err(AllocError) => Refusal::NoMemory,
    }
}

/// An error with a word in quotation marks between what stands before and behind it, or the limit's (4) where its text is past 65,536 bytes.
#[tactic(auto, unfolding(crate::specs::Messages::bounded))]
pub fn error_about(alloc: Global, before: &str, word: &str, behind: &str) -> Refusal
    ensures { Refuses result (bounded (before.now ++ (quoted word.now ++ behind.now))) }
{
    match about_between(alloc, before, word, behind) {
        Ok(text) => Refusal::Error(text),
        Err(AllocError) => Refusal::NoMemory,
    }
}
