//! What a line of the screen or the keyboard says.
ghost use Rattle.std.specs.Prelude.{◌≡◌, position};
ghost use Rattle.tk_session.specs.Names.{is_named, slot_of};
ghost use Rattle.tk_session.specs.Reading.{app_of, button_of, event_line_of, event_of, focus_of, key_of, move_of, placed_of};

use crate::line::{cut, last_rect, leading_number, name, number, utf8};
use crate::session::{AppBlock, EventLine};
use crate::stage::Format;
use tk_base::{Keysym, MAX_MOMENT, MAX_PLACE};
use tk_route::HostLine;

/// The largest coordinate of the pointer.
const MAX_POINT: u64 = MAX_PLACE as u64;

/// The place of the application of this name.
fn place_of(name: &str, apps: &[AppBlock]) -> Option<usize>
    ensures { result ≡ position (is_named name.now) apps.now }
{
    apps.iter().position(|app| app.name.as_str() == name)
}

/// The slot of the application of this name, or the one past the last.
fn slot_of(name: &str, apps: &[AppBlock]) -> usize
    ensures { result ≡ slot_of name.now apps.now }
{
    match place_of(name, apps) {
        Some(slot) => slot,
        None => apps.len(),
    }
}

fn app(apps: &[AppBlock], field: &[u8]) -> Option<usize>
    ensures { result ≡ app_of apps.now field.now }
{
    let name = name(field)?;
    Some(slot_of(name, apps))
}

#[tactic(auto, unfolding(crate::specs::Reading::move_of))]
fn pointer_move(fields: &[u8]) -> Option<HostLine>
    ensures { result ≡ move_of fields.now }
{
    let (x, rest) = leading_number(fields, 0, MAX_POINT)?;
    let y = number(rest, 0, MAX_POINT)?;
    Some(HostLine::Move {
        x: x as u32,
        y: y as u32,
    })
}

fn button(field: &[u8]) -> Option<u32>
    ensures { result ≡ button_of field.now }
{
    let button = number(field, 1, 5)?;
    Some(button as u32)
}

fn key(field: &[u8]) -> Option<Keysym>
    ensures { result ≡ key_of field.now }
{
    let name = utf8(field)?;
    Keysym::named(name)
}

#[tactic(auto, unfolding(crate::specs::Reading::focus_of))]
fn focus(apps: &[AppBlock], field: &[u8]) -> Option<HostLine>
    ensures { result ≡ focus_of apps.now field.now }
{
    if field == b"-".as_slice() {
        return Some(HostLine::Focus(None));
    }
    let slot = app(apps, field)?;
    Some(HostLine::Focus(Some(slot)))
}

#[tactic(auto, unfolding(crate::specs::Reading::placed_of))]
fn placed(format: Format, apps: &[AppBlock], fields: &[u8]) -> Option<HostLine>
    ensures { result ≡ placed_of format apps.now fields.now }
{
    match format {
        Format::First => None,
        Format::Second => {
            let (field, rest) = cut(fields, b' ')?;
            let slot = app(apps, field)?;
            let rect = last_rect(rest)?;
            Some(HostLine::Rect { slot, rect })
        }
    }
}

/// Reads the word of an event and the fields behind it.
#[tactic(auto, unfolding(crate::specs::Reading::event_of))]
fn event(format: Format, apps: &[AppBlock], word: &[u8], fields: &[u8]) -> Option<HostLine>
    ensures { result ≡ event_of format apps.now word.now fields.now }
{
    if word == b"move".as_slice() {
        pointer_move(fields)
    } else if word == b"press".as_slice() {
        button(fields).map(HostLine::Press)
    } else if word == b"release".as_slice() {
        button(fields).map(HostLine::Release)
    } else if word == b"keydown".as_slice() {
        key(fields).map(HostLine::Keydown)
    } else if word == b"keyup".as_slice() {
        key(fields).map(HostLine::Keyup)
    } else if word == b"focus".as_slice() {
        focus(apps, fields)
    } else if word == b"rect".as_slice() {
        placed(format, apps, fields)
    } else {
        None
    }
}

/// Reads `MOMENT move X Y` and the other lines of this kind.
#[tactic(auto, unfolding(crate::specs::Reading::event_line_of))]
pub(crate) fn event_line(format: Format, apps: &[AppBlock], line: &[u8]) -> Option<EventLine>
    ensures { result ≡ event_line_of format apps.now line.now }
{
    let (moment, rest) = leading_number(line, 0, MAX_MOMENT)?;
    let (word, fields) = cut(rest, b' ')?;
    let line = event(format, apps, word, fields)?;
    Some(EventLine { moment, line })
}
