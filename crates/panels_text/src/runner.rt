//! What runs a script that another one has.

ghost use Rattle.std.specs.Prelude.{◌≡◌, None, map, option_and_then, option_map, IfOk};
ghost use Rattle.std.specs.String.{string_bytes};
ghost use Rattle.panels_text.specs.Roles.{texts_of};
ghost use Rattle.panels_text.specs.Runners.{better, has_wanted, index_of, is_body, is_wanted, or_found, runner_in, runner_of, runs, runs_at, runs_by, runs_in, told_as};
ghost use Rattle.panels_text.specs.Scripts.{said};

use crate::calls::{Call, calls_of, without_plus};
use crate::roles::word_at;
use std::alloc::{AllocError, Global};

/// Whether a word is a script, with a plus in front or none.
fn is_body(word: &Option<String>, body: &str) -> bool
    ensures { result ≡ is_body body.now (option_map string_bytes word.now) }
{
    match word {
        Some(word) => without_plus(word.as_str().as_bytes()) == body.as_bytes(),
        None => false,
    }
}

/// The number of the word of a call that is this script.
fn index_of(words: &[Option<String>], body: &str) -> Option<usize>
    ensures { result ≡ index_of 0 body.now (texts_of words.now) }
{
    for (index, word) in words.iter().enumerate() {
        if index > 0 && is_body(word, body) {
            return Some(index);
        }
    }
    None
}

/// What runs a script.
#[derive(Drop)]
pub struct Runner {
    /// The line of the command that says so, counted from 1.
    pub line: usize,
    pub words: String,
    /// Whether it is a timer or an idle script.
    pub is_timer: bool,
}

/// What a command of this name runs as the word behind another, in words.
fn told_as(
    alloc: Global,
    name: &str,
    before: &str,
    window: &str,
    sequence: &str,
    line: usize,
) -> Result<Option<String>, AllocError>
    ensures { IfOk result (λ told. option_map string_bytes told ≡ told_as name.now before.now window.now sequence.now line) }
{
    let told = if before == "-command" {
        format!(in alloc; "the -command of {window}, in line {line}")?
    } else if name == "bind" {
        format!(in alloc; "the binding {sequence} of {window}, in line {line}")?
    } else if name == "after" {
        format!(in alloc; "a timer or an idle script, made in line {line}")?
    } else {
        return Ok(None);
    };
    Ok(Some(told))
}

/// What runs a script in these words.
fn runner_by(line: usize, is_timer: bool, words: Option<String>) -> Option<Runner>
    ensures { option_map runs result ≡ runs_by line is_timer (option_map string_bytes words) }
{
    match words {
        Some(words) => Some(Runner {
            line,
            words,
            is_timer,
        }),
        None => None,
    }
}

/// What runs a script that is the word of this number of a call.
fn runner_at(alloc: Global, call: &Call, index: usize) -> Result<Option<Runner>, AllocError>
    ensures { IfOk result (λ runner. option_map runs runner ≡ runs_at (said call.now) index) }
{
    let words = call.words.as_slice();
    let name = word_at(words, 0);
    let before = word_at(words, index.saturating_sub(1));
    let (window, sequence) = (word_at(words, 1), word_at(words, 2));
    let told = told_as(alloc, name, before, window, sequence, call.line)?;
    Ok(runner_by(call.line, name == "after", told))
}

/// What runs a script that is a word of a call.
fn runner_of_word(
    alloc: Global,
    call: &Call,
    index: Option<usize>,
) -> Result<Option<Runner>, AllocError>
    ensures { IfOk result (λ runner. option_map runs runner ≡ option_and_then (runs_at (said call.now)) index) }
{
    match index {
        None => Ok(None),
        Some(index) => runner_at(alloc, call, index),
    }
}

/// What runs a script by a call.
fn runner_in(alloc: Global, call: &Call, body: &str) -> Result<Option<Runner>, AllocError>
    ensures { IfOk result (λ runner. option_map runs runner ≡ runs_in body.now (said call.now)) }
{
    runner_of_word(alloc, call, index_of(call.words.as_slice(), body))
}

/// Whether a runner is a timer, or none, as is wanted.
fn is_wanted(runner: &Runner, by_timer: bool) -> bool
    ensures { result ≡ is_wanted by_timer (runs runner.now) }
{
    if by_timer {
        runner.is_timer
    } else {
        !runner.is_timer
    }
}

fn has_wanted(runner: &Option<Runner>, by_timer: bool) -> bool
    ensures { result ≡ has_wanted by_timer (option_map runs runner.now) }
{
    match runner {
        None => false,
        Some(runner) => is_wanted(runner, by_timer),
    }
}

/// The next of two, where there is one.
fn or_found(next: Option<Runner>, found: Option<Runner>) -> Option<Runner>
    ensures { option_map runs result ≡ or_found (option_map runs next) (option_map runs found) }
{
    match next {
        None => found,
        Some(next) => Some(next),
    }
}

/// The better of two: one that is wanted stays, and another gives way to the next.
fn better(found: Option<Runner>, next: Option<Runner>, by_timer: bool) -> Option<Runner>
    ensures { option_map runs result ≡ better by_timer (option_map runs found) (option_map runs next) }
{
    if has_wanted(&found, by_timer) {
        return found;
    }
    or_found(next, found)
}

/// What runs a script among calls.
#[tactic(auto, using(crate::proofs::ScriptLemmas::runner_step))]
fn runner_among(
    alloc: Global,
    calls: &[Call],
    body: &str,
    by_timer: bool,
) -> Result<Option<Runner>, AllocError>
    ensures { IfOk result (λ found. option_map runs found ≡ runner_in body.now by_timer None (map said calls.now)) }
{
    let mut found = None;
    for call in calls {
        let next = runner_in(alloc, call, body)?;
        found = better(found, next, by_timer);
    }
    Ok(found)
}

/// What runs a script that stands in another by literal words: the binding of a sequence, a timer, or the `-command` of a window. Where several do, it is
/// a timer if `by_timer` says so, and else another. Nothing where it stands nowhere so. An error where memory is refused.
pub fn runner_of(
    alloc: Global,
    script: &str,
    body: &str,
    by_timer: bool,
) -> Result<Option<Runner>, AllocError>
    ensures { IfOk result (λ found. option_map runs found ≡ runner_of script.now body.now by_timer) }
{
    let said = calls_of(alloc, script)?;
    runner_among(alloc, said.calls.as_slice(), body, by_timer)
}
