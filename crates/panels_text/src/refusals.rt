//! What an answer says of the words of a question.

ghost use Rattle.std.specs.Prelude.{◌≡◌, ◌≤◌, ◌<◌, false, length, nat_eq, Some, IfSome, option_map};
ghost use Rattle.std.specs.List.{starts_with};
ghost use Rattle.panels_text.specs.Refusals.{as_command, as_word, has_part, index_of, is_count, number_with, quoted, refused_as, refused_word, refuses_count, up_to_quote, word_in, words_asked};
ghost use Rattle.panels_text.specs.Words.{words_of};

use crate::questions::{ANY, Question};
use crate::texts::behind;

/// How the answers begin that quote a word which isn't there.
const QUOTING: [&str; 7] = [
    "invalid command name \"",
    "bad option \"",
    "unknown option \"",
    "ambiguous option \"",
    "bad value \"",
    "bad event type or keysym \"",
    "bad event sequence \"",
];

/// What is wrong with a question, by its answer.
#[derive(Clone, Copy, Debug, PartialEq, Eq)]
pub enum Refusal<'a> {
    /// This word isn't there, in the word of the question of this number.
    Word { word: &'a str, index: usize },
    /// There are too few or too many words.
    Count,
}

/// What stands before the first quote.
fn up_to_quote(text: &str) -> Option<&str>
    ensures { option_map (λ word. word.now) result ≡ up_to_quote text.now }
{
    match text.split_once('"') {
        Some((word, _)) => Some(word),
        None => None,
    }
}

/// Whether a text has a part.
pub fn has_part(text: &str, part: &str) -> bool
    ensures { result ≡ has_part part.now text.now }
{
    text.contains(part)
}

/// The word that an answer quotes behind the first of these beginnings that it has.
fn quoted<'a>(fronts: &[&str], answer: &'a str) -> Option<&'a str>
    ensures { option_map (λ word. word.now) result ≡ quoted (words_of fronts.now) answer.now }
{
    for front in fronts {
        if let Some(rest) = behind(answer, *front) {
            return up_to_quote(rest);
        }
    }
    None
}

/// The first word of a question that has a word in it, from one on.
fn index_of(question: &Question, first: usize, wanted: &str) -> Option<usize>
    ensures within { IfSome result (λ index. (first ≤ index) × (index < length question.now.words.items)) }
    ensures number { result ≡ number_with 0 first wanted.now (words_asked question.now) }
{
    for (index, word) in question.words.iter().enumerate() {
        if index >= first && has_part(word.as_str(), wanted) {
            return Some(index);
        }
    }
    None
}

/// Whether a text begins with another.
pub fn begins(text: &str, front: &str) -> bool
    ensures { result ≡ starts_with nat_eq text.now front.now }
{
    text.starts_with(front)
}

/// The first word of a question, a command's name, where it is that of this number.
fn as_command(word: &str, index: Option<usize>) -> Option<Refusal<'_>>
    ensures word { word_in result ≡ as_command word.now index }
    ensures count { is_count result ≡ false }
    ensures within { IfSome (index_of result) (λ number. index ≡ Some number) }
{
    match index {
        Some(0) => Some(Refusal::Word { word, index: 0 }),
        _ => None,
    }
}

/// The word of a question that has this number.
fn as_word(word: &str, index: Option<usize>) -> Option<Refusal<'_>>
    ensures word { word_in result ≡ as_word word.now index }
    ensures count { is_count result ≡ false }
    ensures within { IfSome (index_of result) (λ number. index ≡ Some number) }
{
    match index {
        Some(index) => Some(Refusal::Word { word, index }),
        None => None,
    }
}

/// Where the word that an answer quotes stands in a question.
fn refused_as<'a>(question: &Question, answer: &str, word: &'a str) -> Option<Refusal<'a>>
    ensures word { word_in result ≡ refused_as (words_asked question.now) answer.now (Some word.now) }
    ensures count { is_count result ≡ false }
    ensures within { IfSome (index_of result) (λ index. index < length question.now.words.items) }
{
    if word.is_empty() || has_part(word, ANY) {
        return None;
    }
    if begins(answer, "invalid command name ") {
        as_command(word, index_of(question, 0, word))
    } else {
        as_word(word, index_of(question, 1, word))
    }
}

/// What an answer says that a question has wrong; nothing where it says nothing of its words.
pub fn refusal_in<'a>(question: &Question, answer: &'a str) -> Option<Refusal<'a>>
    ensures count { is_count result ≡ refuses_count question.now answer.now }
    ensures within { IfSome (index_of result) (λ index. index < length question.now.words.items) }
    ensures word { word_in result ≡ refused_word question.now answer.now }
{
    if begins(answer, "wrong # args: ") {
        return if question.is_whole {
            Some(Refusal::Count)
        } else {
            None
        };
    }
    match quoted(QUOTING.as_slice(), answer) {
        Some(word) => refused_as(question, answer, word),
        None => None,
    }
}
