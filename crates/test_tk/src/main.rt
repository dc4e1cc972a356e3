//! Asks the parts of Tk, each by itself, for the answers in tables, and tells of each that isn't the one in its table (`asking` says what stands in
//! one). A table's name, or its folder, says what its questions are put to; the modules say what they mean.
#![tactic(auto)]

mod bindings;
mod counting;
mod dispatch;
mod faults;
mod options;
mod sequences;
mod services;
mod timers;
mod virtuals;
mod widgets;
mod windows;
mod words;

use crate::bindings::State;
use crate::dispatch::Dispatch;
use crate::options::Options;
use crate::services::Caller;
use crate::timers::Kept;
use crate::virtuals::Virtuals;
use crate::widgets::Widgets;
use crate::windows::{Screen, first_part};
use anyhow::{Result, bail};
use asking::{Fixture, arguments, ask_tables};
use std::alloc::Global;

/// What the questions of a table are put to.
#[derive(Drop)]
enum Part {
    Bindings(State),
    Dispatch(Dispatch),
    Faults,
    Options(Options),
    Sequences,
    Services(Caller),
    Timers(Kept),
    Virtuals(Virtuals),
    Widgets(Widgets),
    Windows(Screen),
}

impl Fixture for Part {
    fn new(alloc: Global, table: &str) -> Result<Part> {
        let (part, name) = first_part(table);
        match part {
            "bindings" => Ok(Part::Bindings(State::new(alloc)?)),
            "dispatch" => Ok(Part::Dispatch(Dispatch::new(alloc)?)),
            "faults" => Ok(Part::Faults),
            "options" => Ok(Part::Options(Options::new(alloc)?)),
            "sequences" => Ok(Part::Sequences),
            "services" => Ok(Part::Services(Caller::new())),
            "timers" => Ok(Part::Timers(Kept::new(alloc))),
            "virtuals" => Ok(Part::Virtuals(Virtuals::new(alloc))),
            "widgets" => Ok(Part::Widgets(Widgets::new(alloc)?)),
            "windows" => Ok(Part::Windows(Screen::new(alloc, name)?)),
            _ => bail!("no such table"),
        }
    }

    fn answer(&mut self, alloc: Global, question: &str) -> Result<String> {
        match self {
            Part::Bindings(state) => state.answer(alloc, question),
            Part::Dispatch(dispatch) => dispatch.answer(alloc, question),
            Part::Faults => faults::answer(alloc, question),
            Part::Options(options) => options.answer(alloc, question),
            Part::Sequences => sequences::answer(alloc, question),
            Part::Services(caller) => caller.answer(alloc, question),
            Part::Timers(kept) => kept.answer(alloc, question),
            Part::Virtuals(virtuals) => virtuals.answer(alloc, question),
            Part::Widgets(widgets) => widgets.answer(alloc, question),
            Part::Windows(screen) => screen.answer(alloc, question),
        }
    }
}

fn main(rt: HostRuntime) -> Result<()> {
    ask_tables::<Part, _>(&rt, arguments(&rt)?.as_slice())
}
