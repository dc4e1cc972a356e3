//! The questions of `scripts`: what scripts are.
//!
//! A question `commands SCRIPT` is answered `=` and the script's commands, each as its words with a bar between two, and a U+001E (`␞`) between two
//! commands; `-` where there is none; or `!` and its fault. In words a variable stands as its name in angles, and a bracket as the words of its last
//! command. A question `fronts SCRIPT` is answered `~` and a mark for each number of bytes short of the whole, which says what so many bytes are.

use anyhow::{Result, bail};
use asking::{error_of, first_word, number, text_in};
use std::alloc::Global;
use std::rt::Files;
use tcl_text::Text;
use tcl_words::{Command, ParseFault, Piece, Script, Word, parse};

/// How many brackets and indices within one another are shown.
const MAX_DEPTH: u32 = 50;

/// Adds the words of a bracket's last command, with blanks between them: what a command gives that gives its words.
#[cycle(shown)]
fn push_bracket(text: &mut String, alloc: Global, depth: u32, script: &Script) -> Result<()> {
    let Some(command) = script.commands().last() else {
        return Ok(());
    };
    text.push('[')?;
    for (place, word) in words_of(alloc, depth, command)?.iter().enumerate() {
        if place > 0 {
            text.push(' ')?;
        }
        text.push_str(word.as_str())?;
    }
    text.push(']')?;
    Ok(())
}

/// Adds a piece's value.
#[cycle(shown)]
fn push_piece(text: &mut String, alloc: Global, depth: u32, piece: &Piece) -> Result<()> {
    if depth == 0 {
        bail!("a script within too many others");
    }
    match piece {
        Piece::Literal(literal) => text.push_str(literal.as_str())?,
        Piece::Variable(name) => {
            text.push('<')?;
            text.push_str(name.as_str())?;
            text.push('>')?;
        }
        Piece::Element(name, index) => {
            text.push('<')?;
            text.push_str(name.as_str())?;
            text.push('(')?;
            push_pieces(text, alloc, depth - 1, index.pieces())?;
            text.push_str(")>")?;
        }
        Piece::Bracket(script) => push_bracket(text, alloc, depth - 1, script)?,
    }
    Ok(())
}

/// Adds the values of pieces.
#[cycle(shown)]
fn push_pieces(text: &mut String, alloc: Global, depth: u32, pieces: &[Piece]) -> Result<()> {
    for piece in pieces {
        push_piece(text, alloc, depth, piece)?;
    }
    Ok(())
}

/// Adds a word's value, or each element of it.
#[cycle(shown)]
fn push_word(words: &mut Vec<Text>, alloc: Global, depth: u32, word: &Word) -> Result<()> {
    let mut text = String::new(alloc);
    push_pieces(&mut text, alloc, depth, word.pieces())?;
    let value = Text::new(alloc, text.as_str())?;
    if !word.expand() {
        words.push(value)?;
        return Ok(());
    }
    for element in value.split_list(alloc)?.into_vec() {
        words.push(element)?;
    }
    Ok(())
}

/// The words with which a command is called.
#[cycle(shown)]
fn words_of(alloc: Global, depth: u32, command: &Command) -> Result<Vec<Text>> {
    let mut words = Vec::new(alloc);
    for word in command.words() {
        push_word(&mut words, alloc, depth, word)?;
    }
    Ok(words)
}

/// A script's commands, but for those that no word is left of.
fn told_commands(alloc: Global, script: &Script) -> Result<String> {
    let mut told = String::new(alloc);
    for command in script.commands() {
        for (place, word) in words_of(alloc, MAX_DEPTH, command)?.iter().enumerate() {
            let before = match place {
                0 if told.is_empty() => "=",
                0 => "\u{1e}",
                _ => "|",
            };
            told.push_str(before)?;
            told.push_str(word.as_str())?;
        }
    }
    if told.is_empty() {
        told.push_str("-")?;
    }
    Ok(told)
}

/// The mark of a text that is no script for this reason.
fn mark_of(fault: ParseFault) -> Result<char> {
    Ok(match fault {
        ParseFault::TooLong => '-',
        ParseFault::MissingBrace => '{',
        ParseFault::MissingBracket => '[',
        ParseFault::MissingQuote => '"',
        ParseFault::MissingParen => '(',
        ParseFault::ExtraAfterBrace => '}',
        ParseFault::ExtraAfterQuote => '\'',
        ParseFault::NoMemory => return Err(fault.into()),
    })
}

/// A mark for each number of bytes short of the whole.
fn fronts_told(alloc: Global, source: &str) -> Result<String> {
    let mut marks = String::from_str(alloc, "~")?;
    for length in 0..source.len() {
        marks.push(match parse(alloc, &source.as_bytes()[..length]) {
            Ok(_) => '.',
            Err(fault) => mark_of(fault)?,
        })?;
    }
    Ok(marks)
}

/// What a text is as a script.
fn commands_told(alloc: Global, source: &str) -> Result<String> {
    match parse(alloc, source.as_bytes()) {
        Ok(script) => told_commands(alloc, &script),
        Err(ParseFault::NoMemory) => Err(ParseFault::NoMemory.into()),
        Err(fault) => error_of(alloc, fault.text()),
    }
}

/// What a question is answered.
pub fn answer(alloc: Global, question: &str) -> Result<String> {
    match first_word(question) {
        ("commands", script) => commands_told(alloc, script),
        ("fronts", script) => fronts_told(alloc, script),
        _ => bail!("no such question"),
    }
}

/// Reads a script so many times.
pub fn repeat(rt: &(impl Files + Print + AllocGlobal), count: &str, path: &str) -> Result<()> {
    let count: u32 = number(count)?;
    let source = text_in(rt, path)?;
    let mut commands = 0usize;
    for _ in 0..count {
        commands = parse(rt.alloc(), source.as_bytes())?.commands().len();
    }
    println!(rt; "{commands} commands")?;
    Ok(())
}
