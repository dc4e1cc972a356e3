//! The questions of `bindings`: which binding wins.
//!
//! The questions are `bind OWNER TAG SEQUENCE SCRIPT`, `unbind OWNER TAG SEQUENCE`, `unbindall OWNER TAG`, `script OWNER TAG SEQUENCE` and
//! `sequences OWNER TAG`; `virtual NAME SEQUENCE`, which adds a sequence to a virtual event; `push EVENT`; `matches SEQUENCE EVENT`;
//! `winner OWNER TAG EVENT`. An event is `TYPE WINDOW MOMENT STATE DETAIL X Y`, the detail a key or a button or `-`, the place from the application's
//! corner; or `<<NAME>> WINDOW`. Each is answered `=` and what it tells, `-` where it tells that there is none.
pub mod read;

use crate::bindings::read::{event_of, sequence_of};
use crate::words::word_of;
use anyhow::{Result, bail};
use asking::{first_word, number, result_of, words_of};
use std::alloc::Global;
use tcl_text::Text;
use tk_patterns::{BindFault, BindTable, History, VirtualPairs};

/// What the questions have made so far.
pub struct State {
    bindings: BindTable,
    history: History,
    virtuals: VirtualPairs,
}

/// What it is answered that a script is bound.
pub fn bind(
    alloc: Global,
    bindings: &mut BindTable,
    owner: usize,
    tag: &str,
    sequence: &str,
    script: &str,
) -> Result<String> {
    let tag = Text::new(alloc, tag)?;
    let sequence = sequence_of(alloc, sequence)?;
    let script = word_of(alloc, script)?;
    match bindings.bind(owner, tag, sequence, script) {
        Ok(()) => result_of(alloc, ""),
        Err(BindFault::Full) => result_of(alloc, "31"),
        Err(BindFault::NoMemory) => bail!("out of memory"),
    }
}

/// A script, or that there is none.
fn script_told(alloc: Global, script: Option<&Text>) -> Result<String> {
    match script {
        Some(script) => result_of(alloc, script.as_str()),
        None => result_of(alloc, "-"),
    }
}

fn sequences(alloc: Global, bindings: &BindTable, owner: usize, tag: &str) -> Result<String> {
    let mut list = String::from_str(alloc, "=")?;
    for sequence in bindings.sequences(owner, tag)?.as_slice() {
        list.push_str(sequence.canonical(alloc)?.as_str())?;
    }
    Ok(list)
}

fn matched(alloc: Global, history: &History, words: &[&str]) -> Result<String> {
    let [sequence, event @ ..] = words else {
        bail!("no sequence");
    };
    let sequence = sequence_of(alloc, sequence)?;
    let event = event_of(alloc, event)?;
    let answer = if history.matches(&sequence, &event) {
        "1"
    } else {
        "0"
    };
    result_of(alloc, answer)
}

/// What a call on the bindings of a tag answers.
fn tag_answer(
    alloc: Global,
    bindings: &mut BindTable,
    what: &str,
    owner: usize,
    tag: &str,
) -> Result<String> {
    match what {
        "unbindall" => {
            bindings.unbind_all(owner, tag);
            result_of(alloc, "")
        }
        "sequences" => sequences(alloc, bindings, owner, tag),
        _ => bail!("no such question"),
    }
}

/// What a call on a tag's binding of a sequence answers.
fn sequence_answer(
    alloc: Global,
    bindings: &mut BindTable,
    what: &str,
    owner: usize,
    tag: &str,
    sequence: &str,
) -> Result<String> {
    let sequence = sequence_of(alloc, sequence)?;
    match what {
        "unbind" => {
            bindings.unbind(owner, tag, &sequence);
            result_of(alloc, "")
        }
        "script" => script_told(alloc, bindings.script(owner, tag, &sequence)),
        _ => bail!("no such question"),
    }
}

/// What a call on bindings answers.
fn binding_answer(
    alloc: Global,
    bindings: &mut BindTable,
    what: &str,
    words: &[&str],
) -> Result<String> {
    let [owner, tag, words @ ..] = words else {
        bail!("no tag");
    };
    let owner = number(owner)?;
    match words {
        [] => tag_answer(alloc, bindings, what, owner, tag),
        [sequence] => sequence_answer(alloc, bindings, what, owner, tag, sequence),
        [sequence, script] => bind(alloc, bindings, owner, tag, sequence, script),
        _ => bail!("no such question"),
    }
}

impl State {
    pub fn new(alloc: Global) -> Result<State> {
        Ok(State {
            bindings: BindTable::new(alloc),
            history: History::new(alloc)?,
            virtuals: VirtualPairs::new(alloc),
        })
    }

    fn add_virtual(&mut self, alloc: Global, words: &[&str]) -> Result<String> {
        let [name, sequence] = words else {
            bail!("no pair");
        };
        let name = Text::new(alloc, name)?;
        let sequence = Text::new(alloc, sequence)?;
        match self.virtuals.add(alloc, &name, &sequence) {
            Ok(()) => result_of(alloc, ""),
            Err(_) => bail!("a pair that was refused"),
        }
    }

    fn push(&mut self, alloc: Global, event: &[&str]) -> Result<String> {
        self.history.push(event_of(alloc, event)?);
        result_of(alloc, "")
    }

    fn winner(&self, alloc: Global, words: &[&str]) -> Result<String> {
        let [owner, tag, event @ ..] = words else {
            bail!("no tag");
        };
        let event = event_of(alloc, event)?;
        let winner = self
            .bindings
            .winner(number(owner)?, tag, &event, &self.history, &self.virtuals)?;
        script_told(alloc, winner.as_ref())
    }

    /// What a question is answered.
    pub fn answer(&mut self, alloc: Global, question: &str) -> Result<String> {
        let (what, words) = first_word(question);
        let words = words_of(alloc, words, ' ')?;
        let words = words.as_slice();
        match what {
            "virtual" => self.add_virtual(alloc, words),
            "push" => self.push(alloc, words),
            "matches" => matched(alloc, &self.history, words),
            "winner" => self.winner(alloc, words),
            _ => binding_answer(alloc, &mut self.bindings, what, words),
        }
    }
}

/// By hand: a proof sees one call where it is dropped, and not its parts.
impl Drop for State {
    fn drop(self) {
        let State {
            bindings: _,
            history: _,
            virtuals: _,
        } = self;
    }
}
