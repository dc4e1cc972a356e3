ghost use Rattle.std.specs.Char.{IsAsciiAlphanumeric};
ghost use Rattle.std.specs.Prelude.{◌≡◌, ◌∷◌, []};
ghost use Rattle.tk_base.specs.Names.{key_named};

use crate::names::{NAMES, line_at, place_of};
use std::marker::Model;

/// A key of the keyboard (keysyms(n)).
#[derive(Clone, Copy, Debug, PartialEq, Eq, Hash)]
pub struct Keysym {
    index: u8,
}

impl Model for Keysym {
    ghost use Rattle.std.specs.Prelude.{ℕ, ◌<◌};

    ghost Value = { ℕ };

    ghost view = { λ k. k.index };

    ghost invariant = { λ k. k.index < 128 };

    ghost inverse = { λ index. record { index = index } };
}

impl Keysym {
    ghost use Rattle.std.specs.Prelude.{◌≡◌};
    ghost use Rattle.tk_base.specs.Names.{name_of, key_named, key_of_character, character_of, is_modifier};

    pub const SHIFT_L: Keysym = Keysym { index: 121 };

    pub const SHIFT_R: Keysym = Keysym { index: 122 };

    pub const CONTROL_L: Keysym = Keysym { index: 123 };

    pub const CONTROL_R: Keysym = Keysym { index: 124 };

    pub const ALT_L: Keysym = Keysym { index: 125 };

    pub const ALT_R: Keysym = Keysym { index: 126 };

    pub const CAPS_LOCK: Keysym = Keysym { index: 127 };

    #[tactic(auto, using(crate::proofs::NamesLemmas::length_all_names, crate::proofs::NamesLemmas::table_names), unfolding(crate::specs::Table::key_names))]
    /// The key of this name, if there is one.
    pub fn named(name: &str) -> Option<Keysym>
        ensures { result ≡ key_named name.now }
    {
        if let [byte] = name.as_bytes()
            && byte.is_ascii_alphanumeric()
        {
            return key_of_sign(*byte);
        }
        match place_of(NAMES, name) {
            Some(place) => Some(Keysym { index: place as u8 }),
            None => None,
        }
    }

    /// Its name.
    #[tactic(auto, using(crate::proofs::NamesLemmas::table_names), unfolding(crate::specs::Table::key_names))]
    pub fn name(self) -> &'static str
        ensures { result.now ≡ name_of self }
    {
        line_at(NAMES, self.index as usize).unwrap_or("")
    }

    /// The key that types a printing ASCII character, the blank among them; no other character has one.
    pub fn of_character(character: char) -> Option<Keysym>
        ensures { result ≡ key_of_character character }
    {
        match character {
            ' '..='~' => Some(Keysym {
                index: (character as u32 - 32) as u8,
            }),
            _ => None,
        }
    }

    /// The character that the key types, if it types one.
    pub fn character(self) -> Option<char>
        ensures { result ≡ character_of self }
    {
        match self.index {
            0..=94 => Some(char::from(self.index + 32)),
            95 => Some('\r'),
            96 => Some('\t'),
            97 => Some('\u{8}'),
            98 => Some('\u{1b}'),
            99 => Some('\u{7f}'),
            _ => None,
        }
    }

    /// Whether it is held while others are pressed, or changes what they mean: a shift, control or alt key, or the lock of capitals.
    #[tactic(auto, using(crate::proofs::NamesLemmas::modifiers_last))]
    pub fn is_modifier(self) -> bool
        ensures { result ≡ is_modifier self }
    {
        self.index >= 121
    }
}

/// The key of a letter or a digit, which is its own name: it stands in the list where its character does.
#[tactic(auto, using(crate::proofs::NamesLemmas::of_sign))]
fn key_of_sign(byte: u8) -> Option<Keysym>
    requires { IsAsciiAlphanumeric byte }
    ensures { result ≡ key_named (byte ∷ []) }
{
    Keysym::of_character(char::from(byte))
}
