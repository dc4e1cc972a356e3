//! An event of a long queue, in 16 bytes where it shares with others what it has in common with them.
ghost use Rattle.std.specs.Prelude.{◌≡◌, pos, Some, IfOk, IfSome};
ghost use Rattle.tk_dispatch.specs.Queued.{event_of, with_place};

use std::alloc::AllocError;
use std::marker::Model;
use std::rc::Rc;
use tk_sequences::Event;

/// Where a window lies and how large it is, in pixels.
#[derive(Clone, Copy)]
pub(crate) struct Place {
    x: u16,
    y: u16,
    width: u16,
    height: u16,
}

/// What events share: all of an event, or all but its place.
#[derive(Drop)]
pub(crate) struct Common {
    pub(crate) event: Event,
    /// Whether the events have places, which stand apart.
    pub(crate) is_placed: bool,
}

/// An event that waits.
#[derive(Drop)]
pub(crate) struct QueuedEvent {
    common: Rc<Common>,
    place: Place,
}

impl Model for QueuedEvent {
    ghost use Rattle.tk_dispatch.specs.Queued.{event_of};
    ghost use Rattle.tk_sequences.specs.declared.event.Event.{Event};

    ghost Value = { Event };

    ghost view = { λ q. event_of q.common.value q.place };
}

/// No place, of an event that has none apart.
const NOWHERE: Place = Place {
    x: 0,
    y: 0,
    width: 0,
    height: 0,
};

impl QueuedEvent {
    /// The event that shares this, and has this place if it has any.
    pub(crate) fn sharing(common: Rc<Common>, place: Place) -> QueuedEvent
        ensures { result ≡ event_of common.value place }
    {
        QueuedEvent { common, place }
    }

    /// The event. It takes no memory; it is refused only where the count of a shared text is full.
    pub(crate) fn event(&self) -> Result<Event, AllocError>
        ensures { IfOk result (λ event. event ≡ self.now) }
    {
        let common = self.common.as_ref();
        let event = common.event.copy()?;
        if common.is_placed {
            return Ok(at(self.place, event));
        }
        Ok(event)
    }
}

/// The event with a place.
fn at(place: Place, mut event: Event) -> Event
    ensures { result ≡ with_place place event }
{
    event.x = Some(i32::from(place.x));
    event.y = Some(i32::from(place.y));
    event.width = Some(u32::from(place.width));
    event.height = Some(u32::from(place.height));
    event
}

/// A place in pixels, where 16 bits hold it.
fn small(place: Option<i32>) -> Option<u16>
    ensures { IfSome result (λ small. place ≡ Some (pos small)) }
{
    match u16::try_from(place?) {
        Ok(small) => Some(small),
        Err(_) => None,
    }
}

/// A size in pixels, where 16 bits hold it.
fn small_size(size: Option<u32>) -> Option<u16>
    ensures { IfSome result (λ taken. size ≡ Some taken) }
{
    match u16::try_from(size?) {
        Ok(size) => Some(size),
        Err(_) => None,
    }
}

/// The event's place, where it has one of small numbers.
fn place_of(event: &Event) -> Option<Place>
    ensures { IfSome result (λ place. event.now ≡ with_place place event.now) }
{
    Some(Place {
        x: small(event.x)?,
        y: small(event.y)?,
        width: small_size(event.width)?,
        height: small_size(event.height)?,
    })
}

/// The event without its place.
fn without_place(mut event: Event) -> Event
    ensures { (place : Place) → with_place place result ≡ with_place place event }
{
    event.x = None;
    event.y = None;
    event.width = None;
    event.height = None;
    event
}

/// What others may share of the event, and its place.
pub(crate) fn split(event: Event) -> (Common, Place)
    ensures { event_of result.0 result.1 ≡ event }
{
    match place_of(&event) {
        Some(place) => {
            let common = Common {
                event: without_place(event),
                is_placed: true,
            };
            (common, place)
        }
        None => {
            let common = Common {
                event,
                is_placed: false,
            };
            (common, NOWHERE)
        }
    }
}
