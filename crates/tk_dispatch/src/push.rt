//! Adds to a text what a field is.
ghost use Rattle.std.specs.Prelude.{◌≡◌, ◌≢◌, ◌<◌, ◌++◌, length, IfOk, IfErr, OnOk, option_map};
ghost use Rattle.std.specs.Fmt.{decimal, signed_decimal};
ghost use Rattle.tk_base.specs.Names.{name_of};
ghost use Rattle.tk_dispatch.specs.Percent.{element, key_text, number_shown, place_shown, text_shown};
ghost use Rattle.tcl_text.specs.Limits.{most_bytes};

use itoa::Buffer;
use std::alloc::{AllocError, Global};
use tcl_text::message::short_text;
use tcl_text::{Text, TextFault};
use tk_base::Keysym;

/// Adds a text as an element of a list.
pub fn push_element(alloc: Global, text: &mut Text, item: &Text) -> Result<(), TextFault>
    ensures ok { OnOk result (text.new ≡ text.old ++ element item.now) }
    ensures too_long { IfErr result (λ fault. fault ≢ TextFault.NoMemory → most_bytes < length (text.old ++ element item.now)) }
{
    match item.list_element(alloc) {
        Ok(element) => text.push_str(alloc, element.as_str()),
        Err(fault) => Err(fault),
    }
}

/// Adds a text as an element of a list, or what stands for one that is lacking.
pub fn push_text(alloc: Global, text: &mut Text, item: &Option<Text>) -> Result<(), TextFault>
    ensures ok { OnOk result (text.new ≡ text.old ++ text_shown item.now) }
    ensures too_long { IfErr result (λ fault. fault ≢ TextFault.NoMemory → most_bytes < length (text.old ++ text_shown item.now)) }
{
    match item {
        Some(item) => push_element(alloc, text, item),
        None => text.push_str(alloc, "??"),
    }
}

/// Adds a number in decimal.
pub fn push_decimal(alloc: Global, text: &mut Text, number: u64) -> Result<(), TextFault>
    ensures ok { OnOk result (text.new ≡ text.old ++ decimal number) }
    ensures too_long { IfErr result (λ fault. fault ≢ TextFault.NoMemory → most_bytes < length (text.old ++ decimal number)) }
{
    let mut buffer = Buffer::new();
    text.push_str(alloc, buffer.format(number))
}

/// Adds a number in decimal, or what stands for one that is lacking.
pub fn push_number(alloc: Global, text: &mut Text, number: Option<u64>) -> Result<(), TextFault>
    ensures ok { OnOk result (text.new ≡ text.old ++ number_shown number) }
    ensures too_long { IfErr result (λ fault. fault ≢ TextFault.NoMemory → most_bytes < length (text.old ++ number_shown number)) }
{
    match number {
        Some(number) => push_decimal(alloc, text, number),
        None => text.push_str(alloc, "??"),
    }
}

/// Adds a signed number in decimal.
fn push_signed(alloc: Global, text: &mut Text, number: i64) -> Result<(), TextFault>
    ensures ok { OnOk result (text.new ≡ text.old ++ signed_decimal number) }
    ensures too_long { IfErr result (λ fault. fault ≢ TextFault.NoMemory → most_bytes < length (text.old ++ signed_decimal number)) }
{
    let mut buffer = Buffer::new();
    text.push_str(alloc, buffer.format(number))
}

/// Adds a number of pixels in decimal, or what stands for one that is lacking.
pub fn push_place(alloc: Global, text: &mut Text, place: Option<i64>) -> Result<(), TextFault>
    ensures ok { OnOk result (text.new ≡ text.old ++ place_shown place) }
    ensures too_long { IfErr result (λ fault. fault ≢ TextFault.NoMemory → most_bytes < length (text.old ++ place_shown place)) }
{
    match place {
        Some(place) => push_signed(alloc, text, place),
        None => text.push_str(alloc, "??"),
    }
}

/// The name of a key, if there is one.
fn name_of(alloc: Global, key: Option<Keysym>) -> Result<Option<Text>, AllocError>
    ensures { IfOk result (λ name. name ≡ option_map name_of key) }
{
    match key {
        Some(key) => Ok(Some(short_text(alloc, key.name())?)),
        None => Ok(None),
    }
}

/// What a key types.
fn typed_by(alloc: Global, key: Keysym) -> Result<Text, AllocError>
    ensures { IfOk result (λ text. text ≡ key_text key) }
{
    match key.character() {
        Some(character) => {
            let mut buffer = [0; 4];
            short_text(alloc, character.encode_utf8(&mut buffer))
        }
        None => Ok(Text::empty()),
    }
}

/// What a key types, if there is one.
fn typed(alloc: Global, key: Option<Keysym>) -> Result<Option<Text>, AllocError>
    ensures { IfOk result (λ text. text ≡ option_map key_text key) }
{
    match key {
        Some(key) => Ok(Some(typed_by(alloc, key)?)),
        None => Ok(None),
    }
}

/// Adds a key's name, or what stands for it.
pub fn push_key(alloc: Global, text: &mut Text, key: Option<Keysym>) -> Result<(), TextFault>
    ensures ok { OnOk result (text.new ≡ text.old ++ text_shown (option_map name_of key)) }
    ensures too_long { IfErr result (λ fault. fault ≢ TextFault.NoMemory → most_bytes < length (text.old ++ text_shown (option_map name_of key))) }
{
    let name = name_of(alloc, key)?;
    push_text(alloc, text, &name)
}

/// Adds what a key types, or what stands for it.
pub fn push_typed(alloc: Global, text: &mut Text, key: Option<Keysym>) -> Result<(), TextFault>
    ensures ok { OnOk result (text.new ≡ text.old ++ text_shown (option_map key_text key)) }
    ensures too_long { IfErr result (λ fault. fault ≢ TextFault.NoMemory → most_bytes < length (text.old ++ text_shown (option_map key_text key))) }
{
    let typed = typed(alloc, key)?;
    push_text(alloc, text, &typed)
}
