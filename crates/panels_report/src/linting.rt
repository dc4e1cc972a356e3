//! What isn't there of what scripts name.

ghost use Rattle.std.specs.Prelude.{◌≡◌, ◌++◌, List, map, option_map, Some, IfOk, OnOk};
ghost use Rattle.std.specs.String.{string_bytes};
ghost use Rattle.panels_report.specs.Lint.{AreInstead, AreOthers, AreOthersOf, AreTried, AreWrong, IsByLine, IsInstead, IsLinted, IsWrongBy, Told, answer_at, calls_own, first_asked, front_words, instead_words, is_refused, near_words, question_told, questions_told, refusal_words, served, serves, serving, told, unread_told};
ghost use Rattle.panels_report.specs.Trials.{answers_of};
ghost use Rattle.panels_text.specs.Refusals.{refused_word, word_in, words_asked};
ghost use Rattle.panels_text.specs.Words.{words_of};

use crate::lists::push_all;
use crate::trials::{answers_of, put};
use panels_text::{
    Question, Questions, Refusal, Unread, copied, likely, otherwise, questions_of, refusal_in,
};
use std::alloc::{AllocError, Global};
use tk_session::AppBlock;

/// What a script has wrong.
#[derive(Drop)]
pub struct Wrong {
    /// Counted from 1.
    pub line: usize,
    pub words: String,
}

/// A question with another word in the place of one that isn't there.
#[derive(Drop)]
struct Replacement<'a> {
    /// The question's number.
    number: usize,
    word: &'a str,
    question: Question,
}

/// A word with another in the place of a part of it.
fn replaced(alloc: Global, own: &str, part: &str, other: &str) -> Result<String, AllocError>
    ensures { IfOk result (λ new. IsInstead part.now other.now own.now (string_bytes new)) }
{
    match own.split_once(part) {
        Some((before, behind)) => format!(in alloc; "{before}{other}{behind}"),
        None => String::from_str(alloc, other),
    }
}

/// Words, but in that of this number another in the place of a part.
fn words_instead(
    alloc: Global,
    words: &[String],
    index: usize,
    part: &str,
    other: &str,
) -> Result<Vec<String>, AllocError>
    ensures { IfOk result (λ news. AreInstead (map string_bytes words.now) (part.now, index) other.now (map string_bytes news.items)) }
{
    let mut news = copied(alloc, words)?;
    match words.get(index) {
        Some(own) => {
            let new = replaced(alloc, own.as_str(), part, other)?;
            put(&mut news, index, new);
            Ok(news)
        }
        None => Ok(news),
    }
}

/// A question with another word in the place of a part of its word of this number.
fn instead(
    alloc: Global,
    question: &Question,
    index: usize,
    part: &str,
    other: &str,
) -> Result<Question, AllocError>
    ensures { IfOk result (λ new. AreInstead (words_asked question.now) (part.now, index) other.now (words_asked new)) }
{
    Ok(Question {
        line: question.line,
        words: words_instead(alloc, question.words.as_slice(), index, part, other)?,
        is_whole: false,
        told: String::new(alloc),
    })
}

/// A question for each of these words in the place of one that is refused.
fn tried<'a>(
    alloc: Global,
    number: usize,
    question: &Question,
    index: usize,
    part: &str,
    words: &[&'a str],
) -> Result<Vec<Replacement<'a>>, AllocError>
    ensures { IfOk result (λ found. AreTried number (words_asked question.now) (part.now, index) (words_of words.now) found.items) }
{
    let mut found = Vec::new(alloc);
    for other in words {
        found.push(Replacement {
            number,
            word: *other,
            question: instead(alloc, question, index, part, *other)?,
        })?;
    }
    Ok(found)
}

/// A question for each word that may be meant by the one that an answer refuses, in its place.
fn others_of<'a>(
    alloc: Global,
    number: usize,
    question: &Question,
    answer: &str,
    own: &'a [String],
) -> Result<Vec<Replacement<'a>>, AllocError>
    ensures { IfOk result (λ found. AreOthersOf (map string_bytes own.now) number (words_asked question.now) (refused_word question.now answer.now) found.items) }
{
    match refusal_in(question, answer) {
        Some(Refusal::Word { word, index }) => {
            let words = likely(alloc, word, own)?;
            tried(alloc, number, question, index, word, words.as_slice())
        }
        Some(Refusal::Count) => Ok(Vec::new(alloc)),
        None => Ok(Vec::new(alloc)),
    }
}

/// The answer of a number; an empty text where there is none.
fn answer_at(answers: &[String], number: usize) -> &str
    ensures { result.now ≡ answer_at (map string_bytes answers.now) number }
{
    match answers.get(number) {
        Some(answer) => answer.as_str(),
        None => "",
    }
}

/// The questions that are refused, each with words in the place of the one that isn't there.
fn replacements<'a>(
    alloc: Global,
    questions: &[Question],
    answers: &[String],
    own: &'a [String],
) -> Result<Vec<Replacement<'a>>, AllocError>
    ensures { IfOk result (λ others. AreOthers (map string_bytes own.now) (map string_bytes answers.now) 0 questions.now others.items) }
{
    let mut others = Vec::new(alloc);
    for (number, question) in questions.iter().enumerate() {
        let answer = answer_at(answers, number);
        let found = others_of(alloc, number, question, answer, own)?;
        push_all(&mut others, found)?;
    }
    Ok(others)
}

/// The answers to questions.
fn asked(alloc: Global, questions: &[Question]) -> Result<Vec<String>, AllocError>
    ensures { IfOk result (λ answers. map string_bytes answers.items ≡ answers_of (map words_asked questions.now)) }
{
    let mut asks = Vec::new(alloc);
    for question in questions {
        asks.push(question.words.as_slice())?;
    }
    answers_of(alloc, asks.as_slice())
}

/// The answers to questions with other words.
fn asked_instead(alloc: Global, others: &[Replacement<'_>]) -> Result<Vec<String>, AllocError>
    ensures { IfOk result (λ answers. map string_bytes answers.items ≡ answers_of (map (λ other. words_asked other.question) others.now)) }
{
    let mut asks = Vec::new(alloc);
    for other in others {
        asks.push(other.question.words.as_slice())?;
    }
    answers_of(alloc, asks.as_slice())
}

/// The first word of a question.
fn first_asked(question: &Question) -> &str
    ensures { result.now ≡ first_asked question.now }
{
    match question.words.as_slice().get(0) {
        Some(word) => word.as_str(),
        None => "",
    }
}

/// Whether a question calls a script's own procedure, which isn't there where it is asked.
fn calls_own(question: &Question, own: &[String]) -> bool
    ensures { result ≡ calls_own (map string_bytes own.now) question.now }
{
    let first = first_asked(question);
    for name in own {
        if name.as_str() == first {
            return true;
        }
    }
    false
}

/// Whether an answer refuses just this word of a question.
fn is_refused(question: &Question, word: &str, answer: &str) -> bool
    ensures { result ≡ is_refused word.now (refused_word question.now answer.now) }
{
    match refusal_in(question, answer) {
        Some(
            Refusal::Word {
                word: other,
                index: _,
            },
        ) => other == word,
        Some(Refusal::Count) => false,
        None => false,
    }
}

/// Whether another word may stand in a question, by its answer there.
fn serves(other: &Replacement<'_>, answer: &str, own: &[String]) -> bool
    ensures { result ≡ serves (map string_bytes own.now) other.now answer.now }
{
    calls_own(&other.question, own) || !is_refused(&other.question, other.word, answer)
}

/// The first word that may stand in the place of what a question has wrong: one that isn't refused itself.
fn serving<'a>(
    number: usize,
    others: &[Replacement<'a>],
    answers: &[String],
    own: &[String],
) -> Option<&'a str>
    ensures { option_map (λ word. word.now) result ≡ serving (map string_bytes own.now) number (map string_bytes answers.now) 0 others.now }
{
    for (place, other) in others.iter().enumerate() {
        if other.number == number && serves(other, answer_at(answers, place), own) {
            return Some(other.word);
        }
    }
    None
}

/// What is asked, and the answer.
fn front_words(alloc: Global, question: &Question, answer: &str) -> Result<String, AllocError>
    ensures { IfOk result (λ text. string_bytes text ≡ front_words question.now answer.now) }
{
    format!(in alloc; "{}: {answer}", question.told.as_str())
}

/// .. and which word may be meant.
fn near_words(alloc: Global, front: &str, near: Option<&str>) -> Result<String, AllocError>
    ensures { IfOk result (λ text. string_bytes text ≡ near_words front.now (option_map (λ word. word.now) near.entry)) }
{
    match near {
        Some(near) => format!(in alloc; "{front}; did you mean {near}?"),
        None => String::from_str(alloc, front),
    }
}

/// .. or what to do in its place.
fn instead_words(
    alloc: Global,
    front: &str,
    words: Option<&str>,
    near: Option<&str>,
) -> Result<String, AllocError>
    ensures { IfOk result (λ text. string_bytes text ≡ instead_words front.now (option_map (λ other. other.now) words.entry) (option_map (λ word. word.now) near.entry)) }
{
    match words {
        Some(words) => format!(in alloc; "{front}; {words}"),
        None => near_words(alloc, front, near),
    }
}

/// What a question has wrong, in words, with what to write in its place.
fn words_of(
    alloc: Global,
    question: &Question,
    answer: &str,
    refusal: Refusal<'_>,
    near: Option<&str>,
) -> Result<String, AllocError>
    ensures { IfOk result (λ text. string_bytes text ≡ refusal_words question.now answer.now (option_map (λ word. word.now) near.entry) (word_in (Some refusal.entry))) }
{
    let front = front_words(alloc, question, answer)?;
    match refusal {
        Refusal::Word { word, index: _ } => instead_words(
            alloc,
            front.as_str(),
            otherwise(word),
            near,
        ),
        Refusal::Count => Ok(front),
    }
}

/// Adds what an answer says that a question has wrong.
fn push_question(
    alloc: Global,
    wrong: &mut Vec<Wrong>,
    question: &Question,
    answer: &str,
    near: Option<&str>,
) -> Result<(), AllocError>
    ensures { OnOk result (map told wrong.new.items ≡ map told wrong.old.items ++ question_told question.now answer.now (option_map (λ word. word.now) near.entry) (refused_word question.now answer.now)) }
{
    match refusal_in(question, answer) {
        Some(refusal) => {
            let words = words_of(alloc, question, answer, refusal, near)?;
            Ok(wrong.push(Wrong {
                line: question.line,
                words,
            })?)
        }
        None => Ok(()),
    }
}

/// Adds what the answers say that questions have wrong.
fn push_questions(
    alloc: Global,
    wrong: &mut Vec<Wrong>,
    questions: &[Question],
    answers: &[String],
    others: &[Replacement<'_>],
    tried: &[String],
    own: &[String],
) -> Result<(), AllocError>
    ensures { OnOk result (map told wrong.new.items ≡ map told wrong.old.items ++ questions_told (map string_bytes own.now) (map string_bytes answers.now) others.now (map string_bytes tried.now) 0 questions.now) }
{
    for (number, question) in questions.iter().enumerate() {
        let near = serving(number, others, tried, own);
        push_question(alloc, wrong, question, answer_at(answers, number), near)?;
    }
    Ok(())
}

/// Asks questions, and those that are refused once more with other words, and adds what the answers say that they have wrong.
fn push_wrong(alloc: Global, wrong: &mut Vec<Wrong>, found: &Questions) -> Result<(), AllocError>
    ensures { OnOk result ((all : List Told) × AreWrong found.now all × (map told wrong.new.items ≡ map told wrong.old.items ++ all)) }
{
    let (questions, own) = (found.questions.as_slice(), found.procedures.as_slice());
    let answers = asked(alloc, questions)?;
    let others = replacements(alloc, questions, answers.as_slice(), own)?;
    let tried = asked_instead(alloc, others.as_slice())?;
    push_questions(
        alloc,
        wrong,
        questions,
        answers.as_slice(),
        others.as_slice(),
        tried.as_slice(),
        own,
    )?;
    Ok(())
}

/// Adds the scripts that can't be read.
fn push_unread(alloc: Global, wrong: &mut Vec<Wrong>, unread: &[Unread]) -> Result<(), AllocError>
    ensures { OnOk result (map told wrong.new.items ≡ map told wrong.old.items ++ map unread_told unread.now) }
{
    for script in unread {
        wrong.push(Wrong {
            line: script.line,
            words: String::from_str(alloc, script.fault.as_str())?,
        })?;
    }
    Ok(())
}

/// The same by their lines; those of one line in their order.
fn by_line(mut wrong: Vec<Wrong>) -> Result<Vec<Wrong>, AllocError>
    ensures { IfOk result (λ sorted. IsByLine wrong.items sorted.items) }
{
    wrong.sort_by_key(|wrong| wrong.line)?;
    Ok(wrong)
}

/// What a script has wrong by what it asks.
fn wrong_in(alloc: Global, found: &Questions) -> Result<Vec<Wrong>, AllocError>
    ensures { IfOk result (λ wrong. IsWrongBy found.now wrong.items) }
{
    let mut wrong = Vec::new(alloc);
    push_unread(alloc, &mut wrong, found.unread.as_slice())?;
    push_wrong(alloc, &mut wrong, found)?;
    by_line(wrong)
}

/// What a script names by literal words that isn't there, and which of its scripts can't be read, by their lines, where the program serves commands of
/// these names. An error where memory is refused.
pub fn linted(alloc: Global, script: &str, served: &[&str]) -> Result<Vec<Wrong>, AllocError>
    ensures { IfOk result (λ wrong. IsLinted (words_of served.now) script.now wrong.items) }
{
    let found: Questions = questions_of(alloc, script, served)?;
    let wrong = wrong_in(alloc, &found)?;
    Ok(wrong)
}

/// The names of the commands that the program serves a panel. An error where memory is refused.
pub fn served<'a>(alloc: Global, panel: &'a AppBlock) -> Result<Vec<&'a str>, AllocError>
    ensures { IfOk result (λ names. map (λ name. name.now) names.items ≡ served panel.now) }
{
    let mut names = Vec::new(alloc);
    for alias in panel.aliases.as_slice() {
        names.push(alias.name.as_str())?;
    }
    Ok(names)
}
