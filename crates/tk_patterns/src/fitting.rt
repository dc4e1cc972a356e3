//! Which events a pattern is for, one by one.
ghost use Rattle.std.specs.Prelude.{◌≡◌};
ghost use Rattle.tk_patterns.specs.Fits.{same_type, has_type, has_detail, is_about, has_modifiers, fits, is_release, is_key_press, is_modifier_key, may_stand_between, is_near_on_axis, is_near_in_place, are_near};

use tk_base::Keysym;
use tk_sequences::{Detail, Event, EventKind, EventType, Modifiers, Pattern};

/// Whether an event is of the pattern's type, of its detail if it has one, and has all its modifiers in its state.
pub fn fits(pattern: &Pattern, event: &Event) -> bool
    ensures { result ≡ fits pattern.now event.now }
{
    has_type(pattern.kind, &event.kind)
        && has_detail(pattern.detail, event)
        && has_modifiers(pattern.modifiers, event)
}

fn has_type(kind: EventType, event: &EventKind) -> bool
    ensures { result ≡ has_type kind event.now }
{
    match event {
        EventKind::Physical(other) => same_type(kind, *other),
        EventKind::Virtual(_) => false,
    }
}

fn same_type(kind: EventType, other: EventType) -> bool
    ensures { result ≡ same_type kind other }
{
    kind == other
}

fn has_detail(detail: Option<Detail>, event: &Event) -> bool
    ensures { result ≡ has_detail detail event.now }
{
    match detail {
        None => true,
        Some(detail) => is_about(detail, event),
    }
}

/// Whether the event is about this key or button.
fn is_about(detail: Detail, event: &Event) -> bool
    ensures { result ≡ is_about detail event.now }
{
    match detail {
        Detail::Key(key) => event.key == Some(key),
        Detail::Button(button) => event.button == Some(button),
    }
}

fn has_modifiers(modifiers: Modifiers, event: &Event) -> bool
    ensures { result ≡ has_modifiers modifiers event.now }
{
    modifiers.are_held_in(event.state.unwrap_or(0))
}

/// Whether an event may stand between two that a sequence asks for.
pub(crate) fn may_stand_between(event: &Event) -> bool
    ensures { result ≡ may_stand_between event.now }
{
    is_release(&event.kind) || (is_key_press(&event.kind) && is_modifier_key(event.key))
}

fn is_release(kind: &EventKind) -> bool
    ensures { result ≡ is_release kind.now }
{
    match kind {
        EventKind::Physical(kind) => matches!(
            kind,
            EventType::KeyRelease | EventType::ButtonRelease
        ),
        EventKind::Virtual(_) => false,
    }
}

fn is_key_press(kind: &EventKind) -> bool
    ensures { result ≡ is_key_press kind.now }
{
    match kind {
        EventKind::Physical(kind) => matches!(kind, EventType::Key),
        EventKind::Virtual(_) => false,
    }
}

fn is_modifier_key(key: Option<Keysym>) -> bool
    ensures { result ≡ is_modifier_key key }
{
    match key {
        Some(key) => key.is_modifier(),
        None => false,
    }
}

/// How far apart two events of a Double, Triple or Quadruple are at most, in milliseconds.
const MOST_TIME: u64 = 500;

/// How far apart those of buttons are at most in each axis, in pixels.
const MOST_PIXELS: u64 = 5;

/// Whether two events of one Double, Triple or Quadruple are near enough.
pub(crate) fn are_near(kind: EventType, event: &Event, later: &Event) -> bool
    ensures { result ≡ are_near kind event.now later.now }
{
    event.moment.abs_diff(later.moment) <= MOST_TIME
        && (!kind.is_button() || is_near_in_place(event, later))
}

fn is_near_in_place(event: &Event, later: &Event) -> bool
    ensures { result ≡ is_near_in_place event.now later.now }
{
    is_near_on_axis(event.root_x, later.root_x) && is_near_on_axis(event.root_y, later.root_y)
}

fn is_near_on_axis(place: Option<i64>, other: Option<i64>) -> bool
    ensures { result ≡ is_near_on_axis place other }
{
    match (place, other) {
        (Some(place), Some(other)) => place.abs_diff(other) <= MOST_PIXELS,
        (Some(_), None) | (None, _) => false,
    }
}
