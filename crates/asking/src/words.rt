//! The words of questions.

use anyhow::{Context, Result};
use std::alloc::{AllocError, Global};
use std::num::ParseIntError;
use std::str::FromStr;

/// The first word of a question, and what stands behind it and a blank.
pub fn first_word(question: &str) -> (&str, &str) {
    question.split_once(' ').unwrap_or((question, ""))
}

/// The words of a question, with this character between two.
pub fn words_of<'a>(
    alloc: Global,
    question: &'a str,
    between: char,
) -> Result<Vec<&'a str>, AllocError> {
    question.split(between).collect(alloc)
}

/// A word that is to be a number.
pub fn number<N: FromStr<Err = ParseIntError>>(word: &str) -> Result<N> {
    word.parse().context("a word that is no number")
}

/// A word as it is meant: the text of `*N*TEXT` N times, or the word itself.
pub fn repeated(alloc: Global, word: &str) -> Result<String> {
    let Some((count, text)) = word.strip_prefix('*').and_then(|rest| rest.split_once('*')) else {
        return Ok(String::from_str(alloc, word)?);
    };
    let count: u32 = number(count)?;
    let mut all = String::new(alloc);
    for _ in 0..count {
        all.push_str(text)?;
    }
    Ok(all)
}
