//! The questions of `texts`: what texts are read as, and made of, by their calls.
//!
//! `integer TEXT`, `boolean TEXT` and `split TEXT` are answered what the text is, and of a list the items with bars between; `join WORD|WORD|..` the
//! list form of the words; `number N` the text of an integer, and its copy behind a bar; `new TEXT` how many bytes the text has. What is refused is
//! answered `!` and its number. A text or a word `*N*TEXT` is TEXT N times.
use anyhow::{Result, bail};
use asking::{first_word, number, push_barred, refused, repeated, result_of, words_of};
use std::alloc::Global;
use tcl_text::{Text, TextFault, TextList};

fn text_of(alloc: Global, word: &str) -> Result<Text, TextFault> {
    let Ok(characters) = repeated(alloc, word) else {
        return Err(TextFault::NoMemory);
    };
    Text::from_string(alloc, characters)
}

fn made(alloc: Global, word: &str) -> Result<String> {
    match text_of(alloc, word) {
        Ok(text) => Ok(format!(in alloc; "={}", text.as_str().len())?),
        Err(fault) => refused(alloc, fault.number()),
    }
}

fn barred(alloc: Global, texts: &[Text]) -> Result<String> {
    let mut told = String::from_str(alloc, "=")?;
    for (place, text) in texts.iter().enumerate() {
        push_barred(&mut told, place, text.as_str())?;
    }
    Ok(told)
}

fn split(alloc: Global, text: &Text) -> Result<String> {
    match text.split_list(alloc) {
        Ok(items) => barred(alloc, items.as_slice()),
        Err(fault) => refused(alloc, fault.number()),
    }
}

fn joined(alloc: Global, words: &str) -> Result<String> {
    let mut items = TextList::new(alloc);
    for word in words_of(alloc, words, '|')? {
        items.push(text_of(alloc, word)?)?;
    }
    match Text::join_list(alloc, items.as_slice()) {
        Ok(text) => result_of(alloc, text.as_str()),
        Err(fault) => refused(alloc, fault.number()),
    }
}

fn written(alloc: Global, number: i64) -> Result<String> {
    let text = Text::from_integer(alloc, number)?;
    barred(alloc, &[text.copy()?, text])
}

/// What a question is answered.
pub fn answer(alloc: Global, question: &str) -> Result<String> {
    match first_word(question) {
        ("new", text) => made(alloc, text),
        ("integer", text) => match text_of(alloc, text)?.integer() {
            Ok(number) => Ok(format!(in alloc; "={number}")?),
            Err(fault) => refused(alloc, Some(fault.number())),
        },
        ("boolean", text) => match text_of(alloc, text)?.boolean() {
            Ok(value) => result_of(alloc, if value { "1" } else { "0" }),
            Err(fault) => refused(alloc, Some(fault.number())),
        },
        ("split", text) => split(alloc, &text_of(alloc, text)?),
        ("join", words) => joined(alloc, words),
        ("number", word) => written(alloc, number(word)?),
        _ => bail!("no such question"),
    }
}
