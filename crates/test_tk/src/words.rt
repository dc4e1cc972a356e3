//! The words of questions, as texts.
use anyhow::Result;
use asking::{repeated, words_of};
use std::alloc::Global;
use tcl_text::{Text, TextList};

/// A word, as the text that it means.
pub fn word_of(alloc: Global, word: &str) -> Result<Text> {
    Ok(Text::new(alloc, repeated(alloc, word)?.as_str())?)
}

/// Words, as the texts that they mean.
pub fn texts_of(alloc: Global, words: &[&str]) -> Result<TextList> {
    let mut texts = TextList::new(alloc);
    for word in words {
        texts.push(word_of(alloc, word)?)?;
    }
    Ok(texts)
}

/// The texts of words that have bars between; none where nothing stands there.
pub fn barred_texts(alloc: Global, words: &str) -> Result<TextList> {
    if words.is_empty() {
        return Ok(TextList::new(alloc));
    }
    texts_of(alloc, words_of(alloc, words, '|')?.as_slice())
}
