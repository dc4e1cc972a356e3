//! Laws of matching, as contracts of functions that do nothing.
ghost use Rattle.std.specs.Prelude.{◌↔◌, IsTrue, List};
ghost use Rattle.tk_patterns.specs.Matches.{Matches, matches};
ghost use Rattle.tk_sequences.specs.declared.event.Event.{Event};
ghost use Rattle.tk_sequences.specs.declared.sequence.Sequence.{Sequence};

/// The test of every choice of places, on which the winner of bindings stands, is the relation: a sequence matches an event after a history of any
/// length exactly where places can be chosen for its patterns among the events before (bind(n)).
pub fn matches_is_match()
    ensures { (sequence : Sequence) (event : Event) (history : List Event) → IsTrue (matches sequence event history) ↔ Matches sequence event history }
{}
