//! The events that lines make for windows.
ghost use Rattle.std.specs.Prelude.{◌≡◌, ◌<◌, ◌^◌, IfOk, Some};
ghost use Rattle.tk_inputs.specs.Events as spec;
ghost use Rattle.tk_inputs.specs.Crossings.{detail_name};

use crate::{CrossingDetail, CrossingKind, PointerKind};
use std::alloc::{AllocError, Global};
use tcl_text::Text;
use tk_base::Keysym;
use tk_sequences::{Event, EventKind, EventType};
use tk_tree::{Corner, Window};

/// What a line of the pointer says to an application.
#[derive(Clone, Copy)]
pub struct PointerLine {
    /// In milliseconds.
    pub moment: u64,
    /// The modifiers and buttons that were held before the line, as `%s` tells them.
    pub state: u16,
    /// The point, in pixels from the corner of the application's rectangle; it may lie outside.
    pub x: i32,
    pub y: i32,
}

/// An event of a window, with no fields.
pub fn plain_event(kind: EventType, window: &Window, moment: u64) -> Result<Event, AllocError>
    ensures { IfOk result (λ event. event ≡ spec.plain_event kind window.now moment) }
{
    Ok(Event::new(
        EventKind::Physical(kind),
        window.number,
        window.path.copy()?,
        moment,
    ))
}

/// A key is pressed or released, with the focus in a window.
pub fn key_event(
    kind: EventType,
    key: Keysym,
    window: &Window,
    moment: u64,
    state: u16,
) -> Result<Event, AllocError>
    ensures { IfOk result (λ event. event ≡ spec.key_event kind key window.now moment state) }
{
    let mut event = plain_event(kind, window, moment)?;
    event.state = Some(state);
    event.key = Some(key);
    Ok(event)
}

/// What the pointer does in a window whose corner is here.
pub fn pointer_event(
    alloc: Global,
    line: PointerLine,
    kind: PointerKind,
    window: &Window,
    corner: Corner,
) -> Result<Event, AllocError>
    requires { (corner.x < 2 ^ 41) × (corner.y < 2 ^ 41) }
    ensures { IfOk result (λ event. event ≡ spec.pointer_event line kind window.now corner) }
{
    let mut event = plain_event(type_of(kind), window, line.moment)?;
    event.state = Some(line.state);
    event.x = place_in(line.x, corner.x);
    event.y = place_in(line.y, corner.y);
    event.root_x = Some(i64::from(line.x));
    event.root_y = Some(i64::from(line.y));
    event.button = button_of(kind);
    event.detail = detail_of(alloc, kind)?;
    Ok(event)
}

/// A place along one axis, from a window's corner; none where 32 bits don't hold it.
fn place_in(place: i32, corner: u64) -> Option<i32>
    requires { corner < 2 ^ 41 }
    ensures { result ≡ spec.place_in place corner }
{
    in_32_bits(i64::from(place) - corner as i64)
}

/// The number, where 32 bits hold it.
fn in_32_bits(number: i64) -> Option<i32>
    ensures { result ≡ spec.in_32_bits number }
{
    i32::try_from(number).ok()
}

/// The type of what the pointer does.
fn type_of(kind: PointerKind) -> EventType
    ensures { result ≡ spec.type_of kind }
{
    match kind {
        PointerKind::Crossing(crossing, _) => crossing_type(crossing),
        PointerKind::Motion => EventType::Motion,
        PointerKind::Press(_) => EventType::Button,
        PointerKind::Release(_) => EventType::ButtonRelease,
    }
}

fn crossing_type(crossing: CrossingKind) -> EventType
    ensures { result ≡ spec.crossing_type crossing }
{
    match crossing {
        CrossingKind::Enter => EventType::Enter,
        CrossingKind::Leave => EventType::Leave,
    }
}

/// The button that is pressed or released.
fn button_of(kind: PointerKind) -> Option<u8>
    ensures { result ≡ spec.button_of kind }
{
    match kind {
        PointerKind::Press(button) => button_in(button),
        PointerKind::Release(button) => button_in(button),
        _ => None,
    }
}

/// A button; there are none but 1 to 5.
fn button_in(button: u32) -> Option<u8>
    ensures { result ≡ spec.button_in button }
{
    if button <= 5 {
        Some(button as u8)
    } else {
        None
    }
}

/// The detail of a crossing, as `%d` tells it.
fn detail_of(alloc: Global, kind: PointerKind) -> Result<Option<Text>, AllocError>
    ensures { IfOk result (λ detail. detail ≡ spec.detail_of kind) }
{
    match kind {
        PointerKind::Crossing(_, detail) => Ok(Some(detail_text(alloc, detail)?)),
        _ => Ok(None),
    }
}

fn detail_text(alloc: Global, detail: CrossingDetail) -> Result<Text, AllocError>
    ensures { IfOk result (λ text. text ≡ detail_name detail) }
{
    match Text::new(alloc, detail.name()) {
        Ok(text) => Ok(text),
        Err(_) => Err(AllocError),
    }
}
