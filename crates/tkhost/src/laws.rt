//! What a session comes to. The functions do nothing: their contracts are the laws.
ghost use Rattle.tkhost.specs.Bounds.{SessionWithin};
ghost use Rattle.tkhost.specs.FirstFormat.{FirstFormatSections};
ghost use Rattle.tk_app.specs.Commands.{Update};
ghost use Rattle.tk_app.specs.Dispatch.{Action};
ghost use Rattle.tkhost.specs.Play.{SameBytes};
ghost use Rattle.tkhost.specs.Ranges.{SessionComesWhole, SessionInRange};

use tk_host::AliasMeaning;

/// The bytes of an application in the output rest on its own name, size, script, budget and aliases, on the events that are routed to it, and on
/// the moment of the end: two sessions that agree on these give it the same bytes.
pub fn same_bytes<M: AliasMeaning>()
    ensures { (update : Update) (settle : Action) → SameBytes M.answer update settle }
{}

/// A session takes at most the sum of the totals of its applications and of the steps that events grant them.
pub fn session_within<M: AliasMeaning>()
    ensures { SessionWithin M.answer }
{}

/// A session of the first format is what it was before there was a second one: its sections are those of applications to which events grant nothing,
/// and no rectangle moves.
pub fn first_format_sections<M: AliasMeaning>()
    ensures { FirstFormatSections M.answer }
{}

/// What an accepted session routes to an application is in range: buttons, places and sizes. So each event tells its places and its button, whatever they are:
/// no range of a field of an event leaves one out.
pub fn session_in_range<M: AliasMeaning>()
    ensures events { SessionInRange }
    ensures whole { SessionComesWhole M.answer }
{}
