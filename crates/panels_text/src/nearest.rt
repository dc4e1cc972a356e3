//! Words, and those that may have been meant.

ghost use Rattle.std.specs.Prelude.{◌≡◌, false, true, IfOk, IfSome, MatchOption, option_map};
ghost use Rattle.std.specs.String.{string_bytes};
ghost use Rattle.panels_text.specs.Words.{IsKnown, Serves, distance, is_known, is_near, nearest, serving, words_of};

use crate::texts::joined;
use std::alloc::{AllocError, Global};
use strsim::levenshtein;

#[tactic(auto, unfolding(crate::specs::Words::distance))]
/// How many letters are changed to make a word of another, where it is at most two in three of the first.
pub(crate) fn distance_within(
    alloc: Global,
    word: &str,
    candidate: &str,
) -> Result<Option<usize>, AllocError>
    ensures { IfOk result (λ found. MatchOption found (is_near word.now candidate.now ≡ false) (λ number. (is_near word.now candidate.now ≡ true) × (number ≡ distance word.now candidate.now))) }
{
    let most = (word.len() / 3).saturating_mul(2);
    let distance = levenshtein(alloc, word, candidate)?;
    Ok(if distance <= most {
        Some(distance)
    } else {
        None
    })
}

/// The word of a list that is nearest to another, where at most two letters in three are changed for it.
pub(crate) fn nearest<'a>(
    alloc: Global,
    word: &str,
    known: &[&'a str],
) -> Result<Option<&'a str>, AllocError>
    ensures known { IfOk result (λ found. IfSome found (λ near. IsKnown near.now known.now)) }
    ensures nearest { IfOk result (λ found. option_map (λ near. near.now) found ≡ nearest word.now (words_of known.now)) }
{
    let mut least = usize::MAX;
    let mut found = None;
    for candidate in known {
        if let Some(distance) = distance_within(alloc, word, *candidate)? {
            if distance < least {
                least = distance;
                found = Some(*candidate);
            }
        }
    }
    Ok(found)
}

/// What would serve in place of a word: the nearest of a list, or all of them.
pub fn serving(alloc: Global, word: &str, known: &[&str]) -> Result<String, AllocError>
    ensures serves { IfOk result (λ text. Serves known.now (string_bytes text)) }
    ensures words { IfOk result (λ text. string_bytes text ≡ serving word.now (words_of known.now)) }
{
    let found = nearest(alloc, word, known)?;
    match found {
        Some(near) => format!(in alloc; "did you mean {near}?"),
        None => {
            let list = joined(alloc, known, ", ")?;
            format!(in alloc; "there are {list}")
        }
    }
}

/// Whether a word is in a list.
pub(crate) fn is_known(word: &str, known: &[&str]) -> bool
    ensures { result ≡ is_known word.now known.now }
{
    known.iter().any(|other| *other == word)
}

/// A word and the words behind its blank.
pub(crate) fn next<'a>(words: &'a str) -> (&'a str, &'a str) {
    match words.split_once(' ') {
        Some(parts) => parts,
        None => (words, ""),
    }
}
