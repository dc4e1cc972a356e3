//! What a handle keeps.
use crate::refusal::{Refusal, answered_as};
use std::alloc::{AllocError, Global};
use std::marker::Model;
use tk_host::{Aliases, Host, HostFault, HostLine};
use tk_session::AppBlock;
use tkhost::Served;

/// A host, its applications as far as lines name them, and the aliases that the next one gets.
pub struct Kept {
    pub(crate) host: Host<Served>,
    pub(crate) apps: Vec<AppBlock>,
    pub(crate) waiting: Aliases<Served>,
    /// Whether `start` was called and not refused with a number.
    pub(crate) has_begun: bool,
}

impl Model for Kept {
    ghost use Rattle.std.specs.Prelude.{◌≡◌};
    ghost use Rattle.tkhost_c.specs.Keeps.{Keeps, is_begun};

    ghost Value = { Keeps };

    ghost view = { λ k. record { host = k.host; apps = k.apps.items; waiting = k.waiting } };

    ghost invariant = { λ k. k.has_begun ≡ is_begun k.host.held.phase };
}

impl Kept {
    ghost use Rattle.std.specs.Prelude.{◌≡◌, ◌≤◌, IfOk};
    ghost use Rattle.tkhost_c.specs.Calls.{Advances, Ends, Starts, TakesLine, fresh};

    /// A host without applications.
    pub(crate) fn new(alloc: Global, slice: u64) -> Result<Kept, AllocError>
        requires { 1 ≤ slice }
        ensures { IfOk result (λ kept. kept ≡ fresh slice) }
    {
        Ok(Kept {
            host: Host::new(alloc, slice)?,
            apps: Vec::new(alloc),
            waiting: Aliases::new(alloc),
            has_begun: false,
        })
    }

    pub(crate) fn start(&mut self) -> Result<(), Refusal>
        ensures { Starts self.old self.new result }
    {
        match self.host.start() {
            Ok(()) => {
                self.has_begun = true;
                Ok(())
            }
            Err(HostFault::NoMemory) => {
                self.has_begun = true;
                Err(Refusal::NoMemory)
            }
            Err(HostFault::Refused(fault)) => Err(Refusal::Fault(fault)),
        }
    }

    pub(crate) fn line(&mut self, moment: u64, line: HostLine) -> Result<(), Refusal>
        ensures { TakesLine moment line self.old self.new result }
    {
        if !self.has_begun {
            return Err(Refusal::NotStarted);
        }
        answered_as(self.host.line(moment, line))
    }

    pub(crate) fn advance(&mut self, moment: u64) -> Result<(), Refusal>
        ensures { Advances moment self.old self.new result }
    {
        if !self.has_begun {
            return Err(Refusal::NotStarted);
        }
        answered_as(self.host.advance_to(moment))
    }

    pub(crate) fn end(&mut self, moment: u64) -> Result<(), Refusal>
        ensures { Ends moment self.old self.new result }
    {
        if !self.has_begun {
            return Err(Refusal::NotStarted);
        }
        answered_as(self.host.end(moment))
    }
}

/// By hand: a proof sees one call where it is dropped, and not its parts.
impl Drop for Kept {
    fn drop(self) {
        let Kept {
            host: _,
            apps: _,
            waiting: _,
            has_begun: _,
        } = self;
    }
}
