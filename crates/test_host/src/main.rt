//! Asks hosts and the parts of them for the answers in tables, and tells of each that isn't the one in its table (`asking` says what stands in one). A
//! table's name says what its questions are put to; the modules say what they mean.
//!
//! Behind a word `play` it plays stored sessions (`plays.rt`): `test_host TABLE .. [play [--once] SESSION ..]`.
#![tactic(auto)]

mod calls;
mod example;
mod faults;
mod lines;
mod looks;
mod plays;
mod refusing;
mod routes;
mod stream;
mod streams;

use crate::plays::play_sessions;
use crate::routes::Routes;
use crate::streams::Streams;
use anyhow::{Result, bail};
use asking::{Fixture, arguments, ask_tables};
use std::alloc::Global;

/// What the questions of a table are put to.
#[derive(Drop)]
enum Part {
    Calls,
    Embedding,
    Faults,
    Refusing,
    Routes(Routes),
    Streams(Streams),
}

impl Fixture for Part {
    fn new(alloc: Global, table: &str) -> Result<Part> {
        match table {
            "calls" | "inspection" => Ok(Part::Calls),
            "embedding" => Ok(Part::Embedding),
            "faults" => Ok(Part::Faults),
            "refusing" => Ok(Part::Refusing),
            "routes" => Ok(Part::Routes(Routes::new())),
            "streams" => Ok(Part::Streams(Streams::new(alloc))),
            _ => bail!("no such table"),
        }
    }

    fn answer(&mut self, alloc: Global, question: &str) -> Result<String> {
        match self {
            Part::Calls => calls::answer(alloc, question),
            Part::Embedding => example::answer(alloc, question),
            Part::Faults => faults::answer(alloc, question),
            Part::Refusing => refusing::answer(alloc, question),
            Part::Routes(routes) => routes.answer(alloc, question),
            Part::Streams(streams) => streams.answer(alloc, question),
        }
    }
}

/// The tables that are named before a word `play`, and that word with the sessions behind it.
fn tables_and_sessions(words: &[String]) -> (&[String], &[String]) {
    for (place, word) in words.iter().enumerate() {
        if word.as_str() == "play" {
            return (&words[..place], &words[place..]);
        }
    }
    (words, &[])
}

fn main(rt: HostRuntime) -> Result<()> {
    let words = arguments(&rt)?;
    let (tables, sessions) = tables_and_sessions(words.as_slice());
    ask_tables::<Part, _>(&rt, tables)?;
    match sessions {
        [_play, once, names @ ..] if once.as_str() == "--once" => play_sessions(&rt, names, true),
        [_play, names @ ..] => play_sessions(&rt, names, false),
        [] => Ok(()),
    }
}
