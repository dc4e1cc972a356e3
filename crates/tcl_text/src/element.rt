//! An item where it stands in a list.
ghost use Rattle.std.specs.Prelude.{◌≡◌, ◌≤◌, length, IfOk};
ghost use Rattle.tcl_text.specs.Limits.{most_bytes};

use crate::text::Text;
use std::alloc::{AllocError, Global};
use std::marker::Model;

/// How the characters of an item are held.
#[derive(Drop)]
enum Held<'a> {
    /// As they are written in the list.
    Written(&'a str),
    /// Made of what its backslashes stand for.
    Made(Text),
}

/// An item where it stands in a list. It is copied only where a backslash stands in it.
pub struct Element<'a> {
    held: Held<'a>,
}

impl<'a> Model for Element<'a> {
    ghost use Rattle.std.specs.Prelude.{ℕ, List, ◌≤◌, length};
    ghost use Rattle.tcl_text.specs.Element.{held_bytes};
    ghost use Rattle.tcl_text.specs.Limits.{most_bytes};

    ghost Value = { List ℕ };

    ghost view = { λ e. held_bytes e.held };

    ghost invariant = { λ e. length (held_bytes e.held) ≤ most_bytes };
}

impl<'a> Element<'a> {
    /// These characters of a list.
    #[inline]
    pub fn written(characters: &'a str) -> Element<'a>
        requires { length characters.now ≤ most_bytes }
        ensures { result ≡ characters.now }
    {
        Element {
            held: Held::Written(characters),
        }
    }

    /// A text that was made of what stands in a list.
    pub fn made(text: Text) -> Element<'a>
        ensures { result ≡ text }
    {
        let _characters = text.as_str();
        Element {
            held: Held::Made(text),
        }
    }

    /// The characters.
    #[inline]
    pub fn as_str(&self) -> &str
        ensures { result.now ≡ self.now }
    {
        match &self.held {
            Held::Written(characters) => characters,
            Held::Made(text) => text.as_str(),
        }
    }

    /// A text of its own.
    pub fn into_text(self, alloc: Global) -> Result<Text, AllocError>
        ensures { IfOk result (λ text. text ≡ self.entry) }
    {
        let Element { held } = self;
        match held {
            Held::Written(characters) => Text::of_short(alloc, characters),
            Held::Made(text) => Ok(text),
        }
    }
}

/// By hand: a proof sees one call where it is dropped, and not its parts.
impl Drop for Element<'_> {
    fn drop(self) {
        let Element { held: _ } = self;
    }
}
