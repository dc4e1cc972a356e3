ghost use Rattle.std.specs.Prelude.{◌≡◌, ◌≤◌, ◌<◌, ◌↔◌, [], length, take, drop, option_map, IfSome, IfOk, IsTrue};
ghost use Rattle.tk_patterns.specs.History.{entered};
ghost use Rattle.tk_patterns.specs.Matches.{Matches, earlier_at, is_near_enough, matches};
ghost use Rattle.tk_patterns.specs.Copies.{all_copies};
ghost use Rattle.tk_patterns.specs.Walk.{walk_matches, walk_ends_at, walk, nearest};
ghost use Rattle.tk_sequences.specs.Patterns.{ArePatterns};

use crate::copies::{PatternCopy, copy_at, count_of};
use crate::fitting::{are_near, fits, may_stand_between};
use circular_buffer::HeapCircularBuffer;
use std::alloc::{AllocError, Global};
use std::marker::Model;
use tk_sequences::{Event, Pattern, Sequence};

/// How many events a history keeps.
const MAX_EVENTS: usize = 32;

/// The last 32 events of keys and buttons of an application.
pub struct History {
    events: HeapCircularBuffer<Event>,
}

impl Model for History {
    ghost use Rattle.std.specs.Prelude.{◌≡◌, List};
    ghost use Rattle.tk_sequences.specs.declared.event.Event.{Event};

    ghost Value = { List Event };

    ghost view = { λ h. h.events.items };

    ghost invariant = { λ h. h.events.capacity ≡ 32 };
}

impl History {
    /// No events, with room for all that it will keep.
    pub fn new(alloc: Global) -> Result<History, AllocError>
        ensures { IfOk result (λ history. history ≡ []) }
    {
        Ok(History {
            events: HeapCircularBuffer::with_capacity(alloc, MAX_EVENTS)?,
        })
    }

    /// Keeps an event of a key or a button, and forgets the oldest where there are 32. Other events are not kept. It takes no memory.
    pub fn push(&mut self, event: Event)
        ensures { self.new ≡ entered event self.old }
    {
        if event.kind.is_input() {
            self.events.push_back(event);
        }
    }

    /// Whether a sequence matches an event, which isn't kept yet, after those that are: the last pattern fits the event, and the others have
    /// their events before it in the same window, with nothing between but releases and presses of modifier keys that don't fit. The events of
    /// one Double, Triple or Quadruple are at most 500 milliseconds and, for buttons, 5 pixels apart (bind(n)). A virtual event matches
    /// nothing here. It takes no memory.
    pub fn matches(&self, sequence: &Sequence, event: &Event) -> bool
        ensures relation { IsTrue result ↔ Matches sequence.now event.now self.now }
        ensures test { result ≡ matches sequence.now event.now self.now }
    {
        self.walk_back(sequence, event)
    }

    /// The same, told by a walk back from the event.
    fn walk_back(&self, sequence: &Sequence, event: &Event) -> bool
        ensures { result ≡ walk_matches sequence.now event.now self.now }
    {
        match sequence {
            Sequence::Physical(patterns) => ends_at(&self.events, patterns.as_slice(), event),
            Sequence::Virtual(_) => false,
        }
    }
}

/// Whether the newest event that the patterns ask for is this one, and the others come before it.
fn ends_at(events: &HeapCircularBuffer<Event>, patterns: &[Pattern], event: &Event) -> bool
    requires { ArePatterns patterns.now }
    ensures { result ≡ walk_ends_at (all_copies patterns.now) (earlier_at event.now.number events.now.items) event.now }
{
    match copy_at(patterns, 0) {
        Some(copy) => fits(&copy.pattern, event) && have_places(events, patterns, event),
        None => false,
    }
}

/// Whether the events that the patterns ask for before this one are there.
fn have_places(events: &HeapCircularBuffer<Event>, patterns: &[Pattern], event: &Event) -> bool
    requires { ArePatterns patterns.now }
    ensures { result ≡ walk (drop 1 (all_copies patterns.now)) (earlier_at event.now.number events.now.items) event.now }
{
    let mut end = events.len();
    let mut later = event;
    for place in 1..count_of(patterns) {
        let Some(copy) = copy_at(patterns, place) else {
            return true;
        };
        let Some((found, here)) = nearest(events, &copy.pattern, event.number, end) else {
            return false;
        };
        if !is_near_enough(copy, here, later) {
            return false;
        }
        end = found;
        later = here;
    }
    true
}

/// Whether an event is near enough to the later one, if both are for one Double, Triple or Quadruple.
fn is_near_enough(copy: PatternCopy, here: &Event, later: &Event) -> bool
    ensures { result ≡ is_near_enough copy here.now later.now }
{
    !copy.again || are_near(copy.pattern.kind, here, later)
}

/// The nearest event of a window that a pattern fits, among those before a place, and where it is; none where an event stands before it that
/// may not stand between.
fn nearest<'a>(
    events: &'a HeapCircularBuffer<Event>,
    pattern: &Pattern,
    number: u64,
    end: usize,
) -> Option<(usize, &'a Event)>
    requires { end ≤ length events.now.items }
    ensures found { option_map (λ found. (found.1.now, earlier_at number (take found.0 events.now.items))) result
        ≡ nearest pattern.now (earlier_at number (take end events.now.items)) }
    ensures place { IfSome result (λ found. found.0 < end) }
{
    let mut place = end;
    while place > 0 {
        place -= 1;
        let event = events.get(place)?;
        if event.number == number {
            if fits(pattern, event) {
                return Some((place, event));
            }
            if !may_stand_between(event) {
                return None;
            }
        }
    }
    None
}

/// By hand: a proof sees one call where it is dropped, and not its parts.
impl Drop for History {
    fn drop(self) {
        let History { events: _ } = self;
    }
}
