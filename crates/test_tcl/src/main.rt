//! Asks the parts of Tcl for the answers in tables, and tells of each that isn't the one in its table (`asking` says what stands in one). The folder
//! of a table says what its questions are put to; the modules say what they mean.
//!
//! `repeat COUNT FILE` reads the script in a file so many times instead.
#![tactic(auto)]

mod commands;
mod expressions;
mod faults;
mod kept;
mod panel;
mod runner;
mod runs;
mod scopes;
mod scripts;
mod slices;
mod texts;

use crate::commands::Frames;
use crate::kept::Kept;
use crate::scopes::Store;
use anyhow::{Result, bail};
use asking::{Fixture, arguments, ask_tables};
use std::alloc::Global;

/// What the questions of a table are put to.
#[derive(Drop)]
enum Part {
    Commands(Frames),
    Expressions,
    Faults,
    Kept(Kept),
    Runs,
    Scopes(Store),
    Scripts,
    Slices,
    Texts,
}

impl Fixture for Part {
    fn new(alloc: Global, table: &str) -> Result<Part> {
        let (folder, _name) = table.split_once('/').unwrap_or((table, ""));
        match folder {
            "commands" => Ok(Part::Commands(Frames::new(alloc)?)),
            "expressions" => Ok(Part::Expressions),
            "faults" => Ok(Part::Faults),
            "kept" => Ok(Part::Kept(Kept::new(alloc)?)),
            "runs" => Ok(Part::Runs),
            "scopes" => Ok(Part::Scopes(Store::new(alloc)?)),
            "scripts" => Ok(Part::Scripts),
            "slices" => Ok(Part::Slices),
            "texts" => Ok(Part::Texts),
            _ => bail!("no such table"),
        }
    }

    fn answer(&mut self, alloc: Global, question: &str) -> Result<String> {
        match self {
            Part::Commands(frames) => frames.answer(alloc, question),
            Part::Expressions => expressions::answer(alloc, question),
            Part::Faults => faults::answer(alloc, question),
            Part::Kept(kept) => kept.answer(alloc, question),
            Part::Runs => runs::answer(alloc, question),
            Part::Scopes(store) => store.answer(alloc, question),
            Part::Scripts => scripts::answer(alloc, question),
            Part::Slices => slices::answer(alloc, question),
            Part::Texts => texts::answer(alloc, question),
        }
    }
}

fn main(rt: HostRuntime) -> Result<()> {
    match arguments(&rt)?.as_slice() {
        [mode, count, path] if mode.as_str() == "repeat" => {
            scripts::repeat(&rt, count.as_str(), path.as_str())
        }
        names => ask_tables::<Part, _>(&rt, names),
    }
}
