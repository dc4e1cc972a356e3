//! The questions of `timers`: calls of what keeps timers.
//!
//! A question `MOMENT OWNER CALL` is a call for an application, by its number, at a moment: `after|WORD|..` is the command, and `count`, `full`,
//! `next`, `round`, `take`, `due|ID`, `cancel|ID` are the calls of those names; `first` is when the first timer of all is due, and `fill` lists as
//! many timers as there may be. It is answered `=` and a text, or `!` and an error.
use crate::words::texts_of;
use anyhow::{Result, bail};
use asking::{error_of, first_word, number, result_of, words_of};
use std::alloc::Global;
use tcl_text::Text;
use tk_after::{Timers, after_command};
use tk_base::MAX_MOMENT;

/// The timers of all applications.
pub struct Kept {
    timers: Timers,
}

/// The answer of the command `after` with these words.
fn after(
    alloc: Global,
    timers: &mut Timers,
    owner: usize,
    moment: u64,
    words: &[&str],
) -> Result<String> {
    if moment > MAX_MOMENT {
        bail!("a moment past the last");
    }
    let words = texts_of(alloc, words)?;
    match after_command(alloc, timers, owner, moment, words.as_slice())? {
        Ok(text) => result_of(alloc, text.as_str()),
        Err(text) => error_of(alloc, text.as_str()),
    }
}

fn optional(alloc: Global, moment: Option<u64>) -> Result<String> {
    match moment {
        Some(moment) => Ok(format!(in alloc; "={moment}")?),
        None => result_of(alloc, "none"),
    }
}

/// The numbers of a round.
fn round(alloc: Global, timers: &Timers, owner: usize) -> Result<String> {
    let mut told = String::from_str(alloc, "=")?;
    for id in timers.idle_round(owner)? {
        let number = format!(in alloc; "{id} ")?;
        told.push_str(number.as_str())?;
    }
    Ok(told)
}

/// The timer that is taken out as due.
fn take(alloc: Global, timers: &mut Timers, owner: usize, moment: u64) -> Result<String> {
    match timers.take_due(owner, moment) {
        Some((id, script)) => Ok(format!(in alloc; "={id} {}", script.as_str())?),
        None => result_of(alloc, "none"),
    }
}

/// When the entry of a number is due.
fn due(alloc: Global, timers: &Timers, owner: usize, id: u64) -> Result<String> {
    match timers.entry(owner, id) {
        Some(entry) => match entry.due {
            Some(due) => Ok(format!(in alloc; "={due}")?),
            None => result_of(alloc, "idle"),
        },
        None => result_of(alloc, "none"),
    }
}

/// The script that leaves the table.
fn cancel(alloc: Global, timers: &mut Timers, owner: usize, id: u64) -> Result<String> {
    match timers.cancel(owner, id) {
        Some(script) => result_of(alloc, script.as_str()),
        None => result_of(alloc, "none"),
    }
}

/// Lists timers until no more may be listed; answers how many.
fn fill(alloc: Global, timers: &mut Timers, owner: usize, moment: u64) -> Result<String> {
    let mut count = 0u64;
    for _ in 0..1000u64 {
        if timers.is_full(owner) {
            break;
        }
        let _id = timers.add(owner, moment, Text::new(alloc, "x")?)?;
        count = count.saturating_add(1);
    }
    Ok(format!(in alloc; "={count}")?)
}

/// What a call of one word answers.
fn told(
    alloc: Global,
    timers: &mut Timers,
    owner: usize,
    moment: u64,
    call: &str,
) -> Result<String> {
    match call {
        "count" => Ok(format!(in alloc; "={}", timers.count(owner))?),
        "full" => result_of(
            alloc,
            if timers.is_full(owner) {
                "true"
            } else {
                "false"
            },
        ),
        "next" => optional(alloc, timers.next_due_of(owner)),
        "first" => optional(alloc, timers.next_due()),
        "round" => round(alloc, timers, owner),
        "take" => take(alloc, timers, owner, moment),
        "fill" => fill(alloc, timers, owner, moment),
        _ => bail!("no such call"),
    }
}

/// What a call for an entry answers.
fn told_of(
    alloc: Global,
    timers: &mut Timers,
    owner: usize,
    call: &str,
    id: u64,
) -> Result<String> {
    match call {
        "due" => due(alloc, timers, owner, id),
        "cancel" => cancel(alloc, timers, owner, id),
        _ => bail!("no such call"),
    }
}

/// What a call answers.
fn answer_of(
    alloc: Global,
    timers: &mut Timers,
    owner: usize,
    moment: u64,
    words: &[&str],
) -> Result<String> {
    match words {
        ["after", words @ ..] => after(alloc, timers, owner, moment, words),
        [call] => told(alloc, timers, owner, moment, call),
        [call, id] => told_of(alloc, timers, owner, call, number(id)?),
        _ => bail!("no such call"),
    }
}

impl Kept {
    pub fn new(alloc: Global) -> Kept {
        Kept {
            timers: Timers::new(alloc),
        }
    }

    /// What a question is answered.
    pub fn answer(&mut self, alloc: Global, question: &str) -> Result<String> {
        let (moment, rest) = first_word(question);
        let (owner, call) = first_word(rest);
        let words = words_of(alloc, call, '|')?;
        answer_of(
            alloc,
            &mut self.timers,
            number(owner)?,
            number(moment)?,
            words.as_slice(),
        )
    }
}

/// By hand: a proof sees one call where it is dropped, and not its parts.
impl Drop for Kept {
    fn drop(self) {
        let Kept { timers: _ } = self;
    }
}
