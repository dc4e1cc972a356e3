//! Keys by their names, and by those that other systems give them.

ghost use Rattle.std.specs.Prelude.{◌≡◌, IfOk, option_map};
ghost use Rattle.std.specs.Str.{chars};
ghost use Rattle.std.specs.String.{string_bytes};
ghost use Rattle.panels_text.specs.Keys.{OtherwiseTold, here_for, key_words, only_one, serving_key};
ghost use Rattle.tk_base.specs.Names.{key_of_character};

use crate::nearest::serving;
use std::alloc::{AllocError, Global};
use tk_base::Keysym;

/// Names of keys that are easily missed.
const NAMES: [&str; 34] = [
    "Return",
    "Tab",
    "BackSpace",
    "Escape",
    "Delete",
    "Left",
    "Right",
    "Up",
    "Down",
    "Home",
    "End",
    "Prior",
    "Next",
    "Insert",
    "F1",
    "F2",
    "F3",
    "F4",
    "F5",
    "F6",
    "F7",
    "F8",
    "F9",
    "F10",
    "F11",
    "F12",
    "space",
    "comma",
    "minus",
    "period",
    "slash",
    "asterisk",
    "plus",
    "Caps_Lock",
];

/// The name that a key has here, by one that another system gives it.
pub(crate) fn here_for(name: &str) -> Option<&'static str>
    ensures { option_map (λ here. here.now) result ≡ here_for name.now }
{
    match name {
        "Enter" | "KP_Enter" => Some("Return"),
        "Esc" => Some("Escape"),
        "Del" => Some("Delete"),
        "PageUp" | "Page_Up" => Some("Prior"),
        "PageDown" | "Page_Down" => Some("Next"),
        _ => None,
    }
}

/// The character of a text that is one.
fn only_character(text: &str) -> Option<char>
    ensures { result ≡ only_one (chars text.now) }
{
    let mut only = None;
    let mut is_first = true;
    for character in text.chars() {
        only = if is_first { Some(character) } else { None };
        is_first = false;
    }
    only
}

/// What is said of a name that is one character: the name of the key that types it.
fn key_words(alloc: Global, character: char) -> Result<String, AllocError>
    ensures { IfOk result (λ text. string_bytes text ≡ key_words (key_of_character character)) }
{
    match Keysym::of_character(character) {
        Some(key) => format!(in alloc; "the name of this key is {}", key.name()),
        None => String::from_str(
            alloc,
            "keys type printing ASCII characters alone, and some have names, as Return and space",
        ),
    }
}

/// What serves in place of a name that no key has. An error where memory is refused.
pub fn serving_key(alloc: Global, name: &str) -> Result<String, AllocError>
    ensures told { IfOk result (λ text. OtherwiseTold (here_for name.now) (string_bytes text)) }
    ensures words { IfOk result (λ text. string_bytes text ≡ serving_key name.now) }
{
    if let Some(here) = here_for(name) {
        return format!(in alloc; "did you mean {here}?");
    }
    match only_character(name) {
        Some(character) => key_words(alloc, character),
        None => serving(alloc, name, NAMES.as_slice()),
    }
}
