//! What calls have a host do.
ghost use Rattle.tkhost_c.specs.Calls.{On};
ghost use Rattle.tkhost_c.specs.Doing.{Does};

use crate::kept::Kept;
use crate::place::Place;
use crate::refusal::{Refusal, number_for};
use crate::taking::{put, take};
use std::alloc::Global;
use tk_host::HostLine;

/// What a call has the host of a handle do: run applications, or take a line.
#[derive(Clone, Copy)]
pub(crate) enum Deed<'a> {
    Start,
    Advance(u64),
    End(u64),
    Line(u64, HostLine),
    /// A key of this name goes down.
    Keydown(u64, &'a [u8]),
    Keyup(u64, &'a [u8]),
    /// A line of a session.
    Text(&'a [u8]),
}

impl Kept {
    fn does(&mut self, deed: &Deed<'_>) -> Result<(), Refusal>
        ensures { Does deed.now self.old self.new result }
    {
        match deed {
            Deed::Start => self.start(),
            Deed::Advance(moment) => self.advance(*moment),
            Deed::End(moment) => self.end(*moment),
            Deed::Line(moment, line) => self.line(*moment, *line),
            Deed::Keydown(moment, name) => self.keydown(*moment, name),
            Deed::Keyup(moment, name) => self.keyup(*moment, name),
            Deed::Text(line) => self.text_line(line),
        }
    }
}

/// Has the host of a handle do it: the number of what is answered.
pub(crate) fn done(alloc: Global, host: &mut Place, deed: &Deed<'_>) -> u32
    ensures { On host.old.kept host.new.kept result (Does deed.now) }
{
    match take(host, alloc) {
        Some(mut kept) => {
            let answer = kept.does(deed);
            put(host, kept);
            number_for(answer)
        }
        None => number_for(Err(Refusal::NoHost)),
    }
}
