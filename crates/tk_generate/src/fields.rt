//! The fields of generated events (bind(n), BINDING SCRIPTS AND SUBSTITUTIONS).
ghost use Rattle.std.specs.Prelude.{◌≡◌, ◌<◌, ◌^◌, Some};
ghost use Rattle.tcl_text.specs.Answers.{Gives};
ghost use Rattle.tk_generate.specs.Fields as spec;

use std::alloc::Global;
use tcl_text::Text;
use tcl_text::answers::{Refusal, error};
use tk_base::Keysym;
use tk_sequences::{Detail, EventType, Modifier, Modifiers, Pattern};

/// Whether the pointer makes events of this type.
pub fn is_of_pointer(kind: EventType) -> bool
    ensures { result ≡ spec.is_of_pointer kind }
{
    matches!(
        kind,
        EventType::Button
            | EventType::ButtonRelease
            | EventType::Motion
            | EventType::Enter
            | EventType::Leave
    )
}

/// Whether events of this type tell a place where they are given one.
fn may_have_place(kind: EventType) -> bool
    ensures { result ≡ spec.may_have_place kind }
{
    kind.is_key() || matches!(kind, EventType::Configure)
}

/// Whether the place is told from the window's own corner, and not from its parent's.
fn is_inside(kind: EventType) -> bool
    ensures { result ≡ spec.is_inside kind }
{
    !matches!(kind, EventType::Configure)
}

/// Whether events of this type tell which modifiers and buttons are held.
fn has_state(kind: EventType) -> bool
    ensures { result ≡ spec.has_state kind }
{
    is_of_pointer(kind) || kind.is_key()
}

/// The detail: what is given, where events of this type have one.
pub fn detail_for(kind: EventType, given: Option<Text>) -> Option<Text>
    ensures { result ≡ spec.detail_for kind given }
{
    if has_detail(kind) { given } else { None }
}

/// Whether events of this type have a detail.
fn has_detail(kind: EventType) -> bool
    ensures { result ≡ spec.has_detail kind }
{
    matches!(kind, EventType::Enter | EventType::Leave)
}

/// The state in which these modifiers are held, and nothing else.
fn state_of(modifiers: Modifiers) -> u16
    ensures { result ≡ spec.state_of modifiers }
{
    if modifiers.bits() == 0 {
        return 0;
    }
    let mut state = 0;
    for modifier in Modifier::ALL {
        state += held_bit(modifiers, modifier);
    }
    state
}

/// The bit of a modifier in a state, where it is among these; else 0.
fn held_bit(modifiers: Modifiers, modifier: Modifier) -> u16
    ensures { result ≡ spec.held_bit modifiers modifier }
{
    if modifiers.has(modifier) {
        modifier.bit()
    } else {
        0
    }
}

/// The state: the one given, else that of the pattern's modifiers.
pub fn state_for(pattern: &Pattern, given: Option<u16>) -> Option<u16>
    ensures { result ≡ spec.state_for pattern.now given }
{
    if has_state(pattern.kind) {
        Some(given.unwrap_or(state_of(pattern.modifiers)))
    } else {
        None
    }
}

/// A place along one axis: in events of the pointer 0 unless it is given, in others only where they may have one.
pub fn place_for(kind: EventType, given: Option<i32>) -> Option<i32>
    ensures { result ≡ spec.place_for kind given }
{
    if is_of_pointer(kind) {
        Some(given.unwrap_or(0))
    } else if may_have_place(kind) {
        given
    } else {
        None
    }
}

/// The same from the corner of the application's rectangle.
pub fn root_for(kind: EventType, given: Option<i32>, corner: u64) -> Option<i64>
    requires { corner < 2 ^ 41 }
    ensures { result ≡ spec.root_for kind given corner }
{
    if is_inside(kind) {
        from_corner(place_for(kind, given), corner)
    } else {
        None
    }
}

/// A place in a window, from the corner of the application's rectangle.
pub fn from_corner(place: Option<i32>, corner: u64) -> Option<i64>
    requires { corner < 2 ^ 41 }
    ensures { result ≡ spec.from_corner place corner }
{
    match place {
        Some(place) => Some(i64::from(place) + corner as i64),
        None => None,
    }
}

/// The key of a pattern's detail.
fn key_in(detail: Option<Detail>) -> Option<Keysym>
    ensures { result ≡ spec.key_in detail }
{
    match detail {
        Some(detail) => key_of(detail),
        None => None,
    }
}

/// The key of a detail.
fn key_of(detail: Detail) -> Option<Keysym>
    ensures { result ≡ spec.key_in (Some detail) }
{
    match detail {
        Detail::Key(key) => Some(key),
        Detail::Button(_) => None,
    }
}

/// The button of a detail.
fn button_in(detail: Option<Detail>) -> Option<u8>
    ensures { result ≡ spec.button_in detail }
{
    match detail {
        Some(Detail::Button(button)) => Some(button),
        _ => None,
    }
}

/// The key: the one given, else the pattern's detail. An error where an event of a key has none; it has no number.
pub fn key_for(
    alloc: Global,
    pattern: &Pattern,
    given: Option<Keysym>,
) -> Result<Option<Keysym>, Refusal>
    ensures { Gives result (spec.key_for pattern.now given) }
{
    if !pattern.kind.is_key() {
        return Ok(None);
    }
    match given.or(key_in(pattern.detail)) {
        Some(key) => Ok(Some(key)),
        None => Err(error(alloc, "no keysym given")),
    }
}

/// The button: the one given, else the pattern's detail. An error where an event of a button has none; it has no number.
pub fn button_for(
    alloc: Global,
    pattern: &Pattern,
    given: Option<u8>,
) -> Result<Option<u8>, Refusal>
    ensures { Gives result (spec.button_for pattern.now given) }
{
    if !pattern.kind.is_button() {
        return Ok(None);
    }
    match given.or(button_in(pattern.detail)) {
        Some(button) => Ok(Some(button)),
        None => Err(error(alloc, "no button given")),
    }
}
