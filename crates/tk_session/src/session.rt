ghost use Rattle.std.specs.Prelude.{◌≡◌, ◌≤◌};

use crate::listing::Listing;
use std::marker::Model;
use tcl_text::Text;
use tk_alias::Service;
use tk_base::{Budget, Rect};
use tk_route::HostLine;

/// A command of an application that a service of the program answers (interp(n), alias).
#[derive(Drop)]
pub struct AliasLine {
    /// The name of the command.
    pub name: Text,
    pub service: Service,
}

/// What the lines of an application say before its script.
#[derive(Drop)]
pub(crate) struct Head {
    pub(crate) name: Text,
    pub(crate) rect: Rect,
    pub(crate) budget: Budget,
    pub(crate) aliases: Listing<AliasLine>,
}

/// An application of a session.
pub struct AppBlock {
    pub name: Text,
    /// Its place on the screen, in pixels.
    pub rect: Rect,
    pub budget: Budget,
    pub aliases: Listing<AliasLine>,
    /// What it runs at moment 0.
    pub script: Text,
}

/// What happens at the screen or the keyboard, and when.
#[derive(Clone, Copy, Debug, PartialEq, Eq)]
pub struct EventLine {
    /// In milliseconds.
    pub moment: u64,
    /// With the slots of applications, from 0 on, in place of their names.
    pub line: HostLine,
}

/// What a session says: its applications, which may stand side by side, what happens, and the moment at which it ends.
pub struct Session {
    apps: Listing<AppBlock>,
    events: Listing<EventLine>,
    end: u64,
}

impl Model for Session {
    ghost use Rattle.tk_session.specs.Session.{Plan, IsAllowed};

    ghost Value = { Plan };

    ghost view = { λ s. record { apps = s.apps; events = s.events; end = s.end } };

    ghost invariant = { λ s. IsAllowed (record { apps = s.apps; events = s.events; end = s.end }) };
}

impl Session {
    ghost use Rattle.std.specs.Prelude.{[]};
    ghost use Rattle.tk_session.specs.Session.{IsAllowed, AreAllowed, MayHappen, moment_at};
    ghost use Rattle.tk_base.specs.Limits.{last_moment};

    /// What may stand in a session.
    pub(crate) fn new(apps: Listing<AppBlock>, events: Listing<EventLine>, end: u64) -> Session
        requires { IsAllowed (record { apps = apps; events = events; end = end }) }
        ensures { result ≡ record { apps = apps; events = events; end = end } }
    {
        Session { apps, events, end }
    }

    /// The applications in their order.
    pub fn apps(&self) -> &[AppBlock]
        ensures apps { result.now ≡ self.now.apps }
        ensures allowed { AreAllowed [] self.now.apps }
    {
        self.apps.as_slice()
    }

    /// What happens, in the order of the lines, which is that of their moments.
    pub fn events(&self) -> &[EventLine]
        ensures events { result.now ≡ self.now.events }
        ensures allowed { MayHappen self.now.apps [] self.now.events }
    {
        self.events.as_slice()
    }

    /// The moment of the end, in milliseconds.
    pub fn end(&self) -> u64
        ensures end { result ≡ self.now.end }
        ensures last { moment_at self.now.events ≤ self.now.end }
        ensures range { result ≤ last_moment }
    {
        self.end
    }
}

/// By hand: a proof sees one call where it is dropped, and not its parts.
impl Drop for AppBlock {
    fn drop(self) {
        let AppBlock {
            name: _,
            rect: _,
            budget: _,
            aliases: _,
            script: _,
        } = self;
    }
}

/// By hand: a proof sees one call where it is dropped, and not its parts.
impl Drop for Session {
    fn drop(self) {
        let Session {
            apps: _,
            events: _,
            end: _,
        } = self;
    }
}
