ghost use Rattle.std.specs.Prelude.{◌≡◌, ◌≢◌, ◌==◌, ◌&&◌, not, bit_and, bit_or};
ghost use Rattle.tk_sequences.specs.Modifiers.{modifier_name, modifier_named, modifier_bit, has_modifier, all_held, contains_more};

use std::marker::Model;

/// What is held while something else happens (bind(n), MODIFIERS): modifier keys and mouse buttons. `Alt` is `Mod1`.
#[derive(Clone, Copy, Debug, PartialEq, Eq)]
pub enum Modifier {
    Control,
    Shift,
    Lock,
    Mod1,
    Mod2,
    Mod3,
    Mod4,
    Mod5,
    B1,
    B2,
    B3,
    B4,
    B5,
}

impl Modifier {
    /// All modifiers, in the order in which canonical sequences have them.
    pub const ALL: [Modifier; 13] = [
        Modifier::Control,
        Modifier::Shift,
        Modifier::Lock,
        Modifier::Mod1,
        Modifier::Mod2,
        Modifier::Mod3,
        Modifier::Mod4,
        Modifier::Mod5,
        Modifier::B1,
        Modifier::B2,
        Modifier::B3,
        Modifier::B4,
        Modifier::B5,
    ];

    /// The name that stands in canonical sequences.
    pub fn name(self) -> &'static str
        ensures { result.now ≡ modifier_name self }
    {
        match self {
            Modifier::Control => "Control",
            Modifier::Shift => "Shift",
            Modifier::Lock => "Lock",
            Modifier::Mod1 => "Mod1",
            Modifier::Mod2 => "Mod2",
            Modifier::Mod3 => "Mod3",
            Modifier::Mod4 => "Mod4",
            Modifier::Mod5 => "Mod5",
            Modifier::B1 => "B1",
            Modifier::B2 => "B2",
            Modifier::B3 => "B3",
            Modifier::B4 => "B4",
            Modifier::B5 => "B5",
        }
    }

    /// The modifier that a word names, if it names one: `Alt` and `M1` are `Mod1`, `Button1` is `B1`.
    pub fn named(word: &str) -> Option<Modifier>
        ensures { result ≡ modifier_named word.now }
    {
        match word {
            "Control" => Some(Modifier::Control),
            "Shift" => Some(Modifier::Shift),
            "Lock" => Some(Modifier::Lock),
            "Mod1" | "M1" | "Alt" => Some(Modifier::Mod1),
            "Mod2" | "M2" => Some(Modifier::Mod2),
            "Mod3" | "M3" => Some(Modifier::Mod3),
            "Mod4" | "M4" => Some(Modifier::Mod4),
            "Mod5" | "M5" => Some(Modifier::Mod5),
            "B1" | "Button1" => Some(Modifier::B1),
            "B2" | "Button2" => Some(Modifier::B2),
            "B3" | "Button3" => Some(Modifier::B3),
            "B4" | "Button4" => Some(Modifier::B4),
            "B5" | "Button5" => Some(Modifier::B5),
            _ => None,
        }
    }

    /// Its bit in an event's state, as `%s` tells it.
    pub fn bit(self) -> u16
        ensures { result ≡ modifier_bit self }
    {
        match self {
            Modifier::Shift => 1,
            Modifier::Lock => 2,
            Modifier::Control => 4,
            Modifier::Mod1 => 8,
            Modifier::Mod2 => 16,
            Modifier::Mod3 => 32,
            Modifier::Mod4 => 64,
            Modifier::Mod5 => 128,
            Modifier::B1 => 256,
            Modifier::B2 => 512,
            Modifier::B3 => 1024,
            Modifier::B4 => 2048,
            Modifier::B5 => 4096,
        }
    }
}

/// A set of modifiers, which contracts see as the sum of their bits in an event's state.
#[derive(Clone, Copy, Debug, PartialEq, Eq, Hash)]
pub struct Modifiers {
    bits: u16,
}

impl Model for Modifiers {
    ghost use Rattle.std.specs.Prelude.{ℕ};

    ghost Value = { ℕ };

    ghost view = { λ m. m.bits };

    ghost inverse = { λ bits. record { bits = bits } };
}

impl Modifiers {
    /// None of them.
    pub const NONE: Modifiers = Modifiers { bits: 0 };

    /// These and one more.
    pub fn with(self, modifier: Modifier) -> Modifiers
        ensures { result ≡ bit_or self (modifier_bit modifier) }
    {
        Modifiers {
            bits: self.bits | modifier.bit(),
        }
    }

    /// Their bits, as those of a state.
    pub fn bits(self) -> u16
        ensures { result ≡ self }
    {
        self.bits
    }

    /// Whether it is among them.
    pub fn has(self, modifier: Modifier) -> bool
        ensures { result ≡ has_modifier self modifier }
    {
        self.bits & modifier.bit() != 0
    }

    /// Whether all of them are held in a state, as `%s` tells it.
    pub fn are_held_in(self, state: u16) -> bool
        ensures { result ≡ all_held self state }
    {
        state & self.bits == self.bits
    }

    /// Whether it has all the others and more.
    pub fn contains_more_than(self, other: Modifiers) -> bool
        ensures { result ≡ contains_more self other }
    {
        other.are_held_in(self.bits) && self.bits != other.bits
    }
}
