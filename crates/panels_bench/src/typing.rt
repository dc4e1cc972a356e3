//! What is typed.

ghost use Rattle.std.specs.Prelude.{◌≡◌, ◌==◌, ◌++◌, ℕ, List, Some, None, map, reverse, IfOk, MatchResult};
ghost use Rattle.panels_bench.specs.Gestures.{chord_named, held_for, modifier, struck_by, struck_words};
ghost use Rattle.panels_bench.specs.Values.{Says, all_said};
ghost use Rattle.panels_text.specs.Tables.{IsSaid};
ghost use Rattle.panels.specs.Typing.{typed};
ghost use Rattle.std.specs.List.{slice_split};

use panels::chord;
use panels_text::{Failure, Part, serving_key};
use std::alloc::{AllocError, Global};
use tk_base::Keysym;
use tk_session::HostLine;

/// The keys that type a text. A text that no keys type is refused.
pub(crate) fn typed(alloc: Global, part: &Part<'_>, text: &str) -> Result<Vec<HostLine>, Failure>
    ensures { Says (λ lines. lines.items) result (typed text.now) }
{
    match panels::typed(alloc, text.as_bytes())? {
        Some(lines) => Ok(lines),
        None => {
            let words =
                "a character that no key types: keys type printing ASCII characters, and \\n and \\t";
            Err(part.fault(alloc, "type", words))
        }
    }
}

/// The key that is held for a modifier.
fn modifier(name: &str) -> Option<Keysym>
    ensures { result ≡ modifier name.now }
{
    match name {
        "Control" | "Ctrl" => Keysym::named("Control_L"),
        "Shift" => Keysym::named("Shift_L"),
        "Alt" => Keysym::named("Alt_L"),
        _ => None,
    }
}

/// That a word is no modifier.
fn no_modifier(alloc: Global, part: &Part<'_>, word: &str) -> Result<Failure, AllocError> {
    let words = format!(in alloc;
        "{word} isn't held with a key: there are Control, Shift and Alt"
    )?;
    Ok(part.fault(alloc, "key", words.as_str()))
}

/// Adds the key that is held for a word; none for an empty one.
fn push_held(
    alloc: Global,
    part: &Part<'_>,
    word: &str,
    held: &mut Vec<Keysym>,
) -> Result<(), Failure>
    ensures { MatchResult result (λ done. (more : List ℕ) × (held_for word.now ≡ Some more) × (held.new.items ≡ held.old.items ++ more)) (λ failure. IsSaid failure → held_for word.now ≡ None) }
{
    match modifier(word) {
        Some(key) => Ok(held.push(key)?),
        None if word.is_empty() => Ok(()),
        None => Err(no_modifier(alloc, part, word)?),
    }
}

/// The keys that are held for words.
fn held_for(alloc: Global, part: &Part<'_>, words: &[&str]) -> Result<Vec<Keysym>, Failure>
    ensures { Says (λ held. held.items) result (all_said (map (λ word. held_for word.now) words.now)) }
{
    let mut held = Vec::new(alloc);
    for word in words {
        push_held(alloc, part, *word, &mut held)?;
    }
    Ok(held)
}

/// That no key has a name, and which would serve.
fn no_key(alloc: Global, part: &Part<'_>, name: &str) -> Result<Failure, AllocError> {
    let serves = serving_key(alloc, name)?;
    let words = format!(in alloc; "there is no key {name}: {serves}")?;
    Ok(part.fault(alloc, "key", words.as_str()))
}

/// A key that is struck while others are held, by its name.
fn chord_named(
    alloc: Global,
    part: &Part<'_>,
    held: &[Keysym],
    name: &str,
) -> Result<Vec<HostLine>, Failure>
    ensures { Says (λ lines. lines.items) result (chord_named held.now name.now) }
{
    match Keysym::named(name) {
        Some(key) => Ok(chord(alloc, held, key)?),
        None => Err(no_key(alloc, part, name)?),
    }
}

/// The key that the last of words names, struck while those are held that the others name.
fn struck_words(alloc: Global, part: &Part<'_>, words: &[&str]) -> Result<Vec<HostLine>, Failure>
    ensures { Says (λ lines. lines.items) result (struck_words (reverse (map (λ word. word.now) words.now))) }
{
    let Some((name, others)) = words.split_last() else {
        return Err(part.fault(alloc, "key", "a key's name is missing"));
    };
    let held = held_for(alloc, part, others)?;
    chord_named(alloc, part, held.as_slice(), *name)
}

/// The words of a text between its dashes.
fn words_of<'a>(alloc: Global, text: &'a str) -> Result<Vec<&'a str>, AllocError>
    ensures { IfOk result (λ words. map (λ word. word.now) words.items ≡ slice_split (λ byte. byte == 45) text.now) }
{
    text.split('-').collect(alloc)
}

/// The keys of `Control-Shift-s`: those that are held, and the one that is struck meanwhile.
pub(crate) fn struck(alloc: Global, part: &Part<'_>, text: &str) -> Result<Vec<HostLine>, Failure>
    ensures { Says (λ lines. lines.items) result (struck_by text.now) }
{
    let words = words_of(alloc, text)?;
    struck_words(alloc, part, words.as_slice())
}
