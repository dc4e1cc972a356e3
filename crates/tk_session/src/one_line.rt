//! The reading of one line of the screen or the keyboard, where no session stands around it.
ghost use Rattle.std.specs.Prelude.{◌≡◌, ℕ, IfSome, Some};
ghost use Rattle.tk_session.specs.declared.session.EventLine.{EventLine as Event};
ghost use Rattle.tk_session.specs.OneLine.{IsLineOfEvent};
ghost use Rattle.tk_session.specs.Session.{IsEndLine};

use crate::event_line::event_line;
use crate::line::end_line;
use crate::session::{AppBlock, EventLine};
use crate::stage::Format;

/// What a line of a session of format 2 says that stands behind `events` and isn't its end, without its LF; names are those of these applications, and one
/// that none has is the slot past the last. Nothing where the line hasn't that form (36). What the lines before it refuse isn't looked at.
///
/// It takes time in proportion to the line and to the names, and no memory.
pub fn read_event(apps: &[AppBlock], line: &[u8]) -> Option<EventLine>
    ensures said { IfSome result (λ event. IsLineOfEvent apps.now line.now event) }
    ensures all { (event : Event) → IsLineOfEvent apps.now line.now event → result ≡ Some event }
{
    event_line(Format::Second, apps, line)
}

/// The moment of an end line, without its LF. Nothing where the line hasn't that form (36).
pub fn read_end(line: &[u8]) -> Option<u64>
    ensures said { IfSome result (λ moment. IsEndLine line.now moment) }
    ensures all { (moment : ℕ) → IsEndLine line.now moment → result ≡ Some moment }
{
    end_line(line)
}
