//! What a line gives, and to whom.
ghost use Rattle.std.specs.Prelude.{◌≡◌, ◌++◌};
ghost use Rattle.std.specs.Option.{option_to_list};
ghost use Rattle.tk_base.specs.declared.local_event.LocalKind.TheVariants.{Position, Press, Release};
ghost use Rattle.tk_route.specs.Routes.{to, to_place};
ghost use Rattle.tk_route.specs.Answers.{deliveries};

use crate::place::Place;
use tk_base::{LocalEvent, LocalKind};

/// An event, and the slot of the application that gets it.
#[derive(Clone, Copy, Debug, PartialEq, Eq)]
pub struct Delivery {
    pub slot: usize,
    pub event: LocalEvent,
}

/// What a line gives: at most two events, in the order in which they come.
#[derive(Clone, Copy, Debug, PartialEq, Eq)]
pub enum Routed {
    Nobody,
    One(Delivery),
    Two(Delivery, Delivery),
}

/// What all events of a line share: its moment, and the state before it.
#[derive(Clone, Copy)]
pub(crate) struct Stamp {
    pub(crate) moment: u64,
    pub(crate) state: u16,
}

impl Stamp {
    ghost use Rattle.std.specs.Prelude.{◌≡◌};
    ghost use Rattle.tk_route.specs.Routes.{delivery};

    fn delivery(self, slot: usize, kind: LocalKind) -> Delivery
        ensures { result ≡ delivery self slot kind }
    {
        let event = LocalEvent {
            moment: self.moment,
            state: self.state,
            kind,
        };
        Delivery { slot, event }
    }
}

/// An event for an application, if there is one.
pub(crate) fn to(stamp: Stamp, slot: Option<usize>, kind: LocalKind) -> Option<Delivery>
    ensures { option_to_list result ≡ to stamp slot kind }
{
    match slot {
        Some(slot) => Some(stamp.delivery(slot, kind)),
        None => None,
    }
}

/// The pointer's place for an application, if there is one.
pub(crate) fn position(stamp: Stamp, place: Option<Place>) -> Option<Delivery>
    ensures { option_to_list result ≡ to_place stamp place Position }
{
    match place {
        Some(Place { slot, x, y }) => Some(stamp.delivery(slot, LocalKind::Position { x, y })),
        None => None,
    }
}

/// A press for an application, if there is one.
pub(crate) fn press(stamp: Stamp, place: Option<Place>, button: u32) -> Option<Delivery>
    ensures { option_to_list result ≡ to_place stamp place (Press button) }
{
    match place {
        Some(Place { slot, x, y }) => Some(stamp.delivery(slot, LocalKind::Press { button, x, y })),
        None => None,
    }
}

/// A release for an application, if there is one.
pub(crate) fn release(stamp: Stamp, place: Option<Place>, button: u32) -> Option<Delivery>
    ensures { option_to_list result ≡ to_place stamp place (Release button) }
{
    match place {
        Some(Place { slot, x, y }) => Some(stamp.delivery(
            slot,
            LocalKind::Release { button, x, y },
        )),
        None => None,
    }
}

/// What may come first, and what may come after it.
pub(crate) fn both(first: Option<Delivery>, second: Option<Delivery>) -> Routed
    ensures { deliveries result ≡ option_to_list first ++ option_to_list second }
{
    match (first, second) {
        (None, None) => Routed::Nobody,
        (Some(only), None) | (None, Some(only)) => Routed::One(only),
        (Some(first), Some(second)) => Routed::Two(first, second),
    }
}
