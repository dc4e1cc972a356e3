//! The questions of `commands`: what the commands on texts and variables answer.
//!
//! A question `LEVEL WORD|WORD|..` calls a command at level 0, or at 1 or 2, as a procedure does that was called at the level below. It is answered
//! `=` and the command's result, or `!` and its error. A word `@NAME` is the text that the variable of that name holds, and not a text that is read anew.
use anyhow::{Result, bail};
use asking::{error_of, first_word, number, result_of, words_of};
use std::alloc::{AllocError, Global};
use tcl_commands::{info_exists, upvar_command, variable_command};
use tcl_text::{Text, TextList};
use tcl_vars::Scopes;

/// A command's result, or its error; none where no command has the name.
type Answer = Option<Result<Text, Text>>;

/// The global frame, and those of two procedures.
#[derive(Drop)]
pub struct Frames {
    scopes: Scopes,
}

/// The text that a variable holds.
fn held(alloc: Global, scopes: &mut Scopes, level: usize, name: &str) -> Result<Text> {
    let words = [Text::new(alloc, "set")?, Text::new(alloc, name)?];
    match variable_answer(alloc, scopes, level, &words)? {
        Some(Ok(text)) => Ok(text),
        _ => bail!("no such variable"),
    }
}

fn texts_of(alloc: Global, scopes: &mut Scopes, level: usize, words: &[&str]) -> Result<TextList> {
    let mut texts = TextList::new(alloc);
    for word in words {
        let text = match word.strip_prefix('@') {
            Some(name) => held(alloc, scopes, level, name)?,
            None => Text::new(alloc, word)?,
        };
        texts.push(text)?;
    }
    Ok(texts)
}

/// What a command on variables answers at a level.
fn variable_answer(
    alloc: Global,
    scopes: &mut Scopes,
    level: usize,
    words: &[Text],
) -> Result<Answer, AllocError> {
    if scopes.levels() <= level {
        return Ok(None);
    }
    match words {
        [name, pairs @ ..] if name.as_str() == "upvar" && 0 < level => {
            Ok(Some(upvar_command(alloc, scopes, level, level - 1, pairs)?))
        }
        [name, _exists, names @ ..] if name.as_str() == "info" => {
            Ok(Some(info_exists(alloc, scopes, level, names)?))
        }
        _ => variable_command(alloc, scopes, level, words),
    }
}

/// What a command answers at a level.
fn answer_of(
    alloc: Global,
    scopes: &mut Scopes,
    level: usize,
    words: &[Text],
) -> Result<Answer, AllocError> {
    match Text::text_command(alloc, words)? {
        Some(answer) => Ok(Some(answer)),
        None => variable_answer(alloc, scopes, level, words),
    }
}

/// An answer as a table has it.
fn told(alloc: Global, answer: &Answer) -> Result<String> {
    match answer {
        Some(Ok(text)) => result_of(alloc, text.as_str()),
        Some(Err(message)) => error_of(alloc, message.as_str()),
        None => bail!("no such command"),
    }
}

impl Frames {
    pub fn new(alloc: Global) -> Result<Frames> {
        let mut scopes = Scopes::new(alloc)?;
        scopes.push_frame()?;
        scopes.push_frame()?;
        Ok(Frames { scopes })
    }

    /// What a question is answered.
    pub fn answer(&mut self, alloc: Global, question: &str) -> Result<String> {
        let (level, words) = first_word(question);
        let level = number(level)?;
        let words = words_of(alloc, words, '|')?;
        let words = texts_of(alloc, &mut self.scopes, level, words.as_slice())?;
        let answer = answer_of(alloc, &mut self.scopes, level, words.as_slice())?;
        told(alloc, &answer)
    }
}
