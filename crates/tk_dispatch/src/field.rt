//! The fields of events as scripts see them.
ghost use Rattle.std.specs.Prelude.{◌≡◌, ◌≢◌, ◌<◌, ◌++◌, ◌∷◌, [], length, IfErr, OnOk};
ghost use Rattle.tk_dispatch.specs.Percent.{field_named, field_shown, number_of_kind, replacement};
ghost use Rattle.tcl_text.specs.Limits.{most_bytes};

use crate::numbers::{from_i32, from_u8, from_u16, from_u32};
use crate::push::{
    push_decimal, push_element, push_key, push_number, push_place, push_text, push_typed,
};
use std::alloc::Global;
use tcl_text::{Text, TextFault};
use tk_sequences::{Event, EventKind};

/// What `%` and a character may stand for.
#[derive(Clone, Copy)]
pub enum Field {
    Path,
    TypeNumber,
    Moment,
    State,
    X,
    Y,
    RootX,
    RootY,
    Button,
    Key,
    KeyText,
    Width,
    Height,
    Detail,
}

/// The field that a character stands for.
fn field_named(character: u8) -> Option<Field>
    ensures { result ≡ field_named character }
{
    match character {
        b'W' => Some(Field::Path),
        b'T' => Some(Field::TypeNumber),
        b't' => Some(Field::Moment),
        b's' => Some(Field::State),
        b'x' => Some(Field::X),
        b'y' => Some(Field::Y),
        b'X' => Some(Field::RootX),
        b'Y' => Some(Field::RootY),
        b'b' => Some(Field::Button),
        b'K' => Some(Field::Key),
        b'A' => Some(Field::KeyText),
        b'w' => Some(Field::Width),
        b'h' => Some(Field::Height),
        b'd' => Some(Field::Detail),
        _ => None,
    }
}

/// The number of an event's type.
fn number_of(kind: &EventKind) -> Option<u64>
    ensures { result ≡ number_of_kind kind.now }
{
    match kind {
        EventKind::Physical(kind) => Some(u64::from(kind.number())),
        EventKind::Virtual(_) => None,
    }
}

/// Adds a field, or what stands for one that is lacking.
fn push_field(alloc: Global, text: &mut Text, event: &Event, field: Field) -> Result<(), TextFault>
    ensures ok { OnOk result (text.new ≡ text.old ++ field_shown event.now field) }
    ensures too_long { IfErr result (λ fault. fault ≢ TextFault.NoMemory → most_bytes < length (text.old ++ field_shown event.now field)) }
{
    match field {
        Field::Path => push_element(alloc, text, &event.path),
        Field::TypeNumber => push_number(alloc, text, number_of(&event.kind)),
        Field::Moment => push_decimal(alloc, text, event.moment),
        Field::State => push_number(alloc, text, from_u16(event.state)),
        Field::X => push_place(alloc, text, from_i32(event.x)),
        Field::Y => push_place(alloc, text, from_i32(event.y)),
        Field::RootX => push_place(alloc, text, event.root_x),
        Field::RootY => push_place(alloc, text, event.root_y),
        Field::Button => push_number(alloc, text, from_u8(event.button)),
        Field::Key => push_key(alloc, text, event.key),
        Field::KeyText => push_typed(alloc, text, event.key),
        Field::Width => push_number(alloc, text, from_u32(event.width)),
        Field::Height => push_number(alloc, text, from_u32(event.height)),
        Field::Detail => push_text(alloc, text, &event.detail),
    }
}

/// Adds an ASCII character.
fn push_character(alloc: Global, text: &mut Text, character: u8) -> Result<(), TextFault>
    requires { character < 128 }
    ensures ok { OnOk result (text.new ≡ text.old ++ character ∷ []) }
    ensures too_long { IfErr result (λ fault. fault ≢ TextFault.NoMemory → most_bytes < length (text.old ++ character ∷ [])) }
{
    let mut buffer = [0; 4];
    text.push_str(alloc, char::from(character).encode_utf8(&mut buffer))
}

/// Adds what `%` and an ASCII character stand for.
#[tactic(auto, unfolding(crate::specs::Percent::replacement))]
pub fn push_replacement(
    alloc: Global,
    text: &mut Text,
    event: &Event,
    character: u8,
) -> Result<(), TextFault>
    requires { character < 128 }
    ensures ok { OnOk result (text.new ≡ text.old ++ replacement event.now character) }
    ensures too_long { IfErr result (λ fault. fault ≢ TextFault.NoMemory → most_bytes < length (text.old ++ replacement event.now character)) }
{
    match field_named(character) {
        Some(field) => push_field(alloc, text, event, field),
        None => push_character(alloc, text, character),
    }
}
