//! Lines of keys and lines of sessions.
ghost use Rattle.std.specs.Prelude.{◌≡◌};
ghost use Rattle.tkhost_c.specs.Calls.{key_named_by};

use crate::kept::Kept;
use crate::refusal::Refusal;
use tk_host::{HostLine, Keysym, LineFault};
use tk_session::{read_end, read_event};

/// The key of this name, if there is one.
pub(crate) fn keysym(name: &[u8]) -> Option<Keysym>
    ensures { result ≡ key_named_by name.now }
{
    match std::str::from_utf8(name) {
        Ok(name) => Keysym::named(name),
        Err(_) => None,
    }
}

impl Kept {
    ghost use Rattle.tk_route.specs.declared.line.HostLine.TheVariants.{Keydown, Keyup};
    ghost use Rattle.tkhost_c.specs.Calls.{TakesKey, TakesText, key_named_by};

    pub(crate) fn keydown(&mut self, moment: u64, name: &[u8]) -> Result<(), Refusal>
        ensures { TakesKey Keydown moment (key_named_by name.now) self.old self.new result }
    {
        match keysym(name) {
            Some(key) => self.line(moment, HostLine::Keydown(key)),
            None => Err(Refusal::Fault(LineFault::BadLine)),
        }
    }

    pub(crate) fn keyup(&mut self, moment: u64, name: &[u8]) -> Result<(), Refusal>
        ensures { TakesKey Keyup moment (key_named_by name.now) self.old self.new result }
    {
        match keysym(name) {
            Some(key) => self.line(moment, HostLine::Keyup(key)),
            None => Err(Refusal::Fault(LineFault::BadLine)),
        }
    }

    /// A line of a session, of an event or of the end.
    pub(crate) fn text_line(&mut self, line: &[u8]) -> Result<(), Refusal>
        ensures { TakesText line.now self.old self.new result }
    {
        if let Some(event) = read_event(self.apps.as_slice(), line) {
            return self.line(event.moment, event.line);
        }
        match read_end(line) {
            Some(moment) => self.end(moment),
            None => Err(Refusal::Fault(LineFault::BadLine)),
        }
    }
}
