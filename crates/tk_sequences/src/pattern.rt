ghost use Rattle.std.specs.Prelude.{◌≡◌, ◌≤◌, IfOk};
ghost use Rattle.std.specs.Option.{option_copied};
ghost use Rattle.tk_sequences.specs.Patterns.{times_of, repetition_name, repetition_named};

use crate::detail::Detail;
use crate::event_type::EventType;
use crate::modifier::Modifiers;
use std::alloc::{AllocError, Global};
use std::marker::Model;

/// How often an event comes, near in time and place (bind(n), MODIFIERS).
#[derive(Clone, Copy, Debug, PartialEq, Eq, Hash)]
pub enum Repetition {
    Single,
    Double,
    Triple,
    Quadruple,
}

impl Repetition {
    /// How many events it stands for.
    pub fn times(self) -> usize
        ensures value { result ≡ times_of self }
        ensures bound { result ≤ 4 }
    {
        match self {
            Repetition::Single => 1,
            Repetition::Double => 2,
            Repetition::Triple => 3,
            Repetition::Quadruple => 4,
        }
    }

    /// The word for it; none for a single event.
    pub fn name(self) -> Option<&'static str>
        ensures { option_copied result ≡ repetition_name self }
    {
        match self {
            Repetition::Single => None,
            Repetition::Double => Some("Double"),
            Repetition::Triple => Some("Triple"),
            Repetition::Quadruple => Some("Quadruple"),
        }
    }

    /// The repetition that a word names, if it names one.
    pub fn named(word: &str) -> Option<Repetition>
        ensures { result ≡ repetition_named word.now }
    {
        match word {
            "Double" => Some(Repetition::Double),
            "Triple" => Some(Repetition::Triple),
            "Quadruple" => Some(Repetition::Quadruple),
            _ => None,
        }
    }
}

/// One event, or several alike, as a sequence asks for it (bind(n), EVENT PATTERNS).
#[derive(Clone, Copy, Debug, PartialEq, Eq, Hash)]
pub struct Pattern {
    /// What has to be held, maybe with more.
    pub modifiers: Modifiers,
    pub times: Repetition,
    pub kind: EventType,
    /// The only key or button that it is for; none where it is for all.
    pub detail: Option<Detail>,
}

/// One or more patterns, in the order of their events. Together they stand for at most 32 events.
pub struct Patterns {
    list: Vec<Pattern>,
}

impl Model for Patterns {
    ghost use Rattle.std.specs.Prelude.{List};
    ghost use Rattle.tk_sequences.specs.declared.pattern.Pattern.{Pattern};

    ghost Value = { List Pattern };

    ghost use Rattle.tk_sequences.specs.Patterns.{ArePatterns};

    ghost view = { λ p. p.list.items };

    ghost invariant = { λ p. ArePatterns p.list.items };
}

impl Patterns {
    ghost use Rattle.tk_sequences.specs.Patterns.{ArePatterns};

    /// These patterns.
    pub(crate) fn of(list: Vec<Pattern>) -> Patterns
        requires { ArePatterns list.items }
        ensures { result ≡ list.items }
    {
        Patterns { list }
    }

    /// The patterns, the first one first.
    pub fn as_slice(&self) -> &[Pattern]
        ensures list { result.now ≡ self.now }
        ensures kept { ArePatterns self.now }
    {
        self.list.as_slice()
    }

    /// The same patterns.
    pub fn copy(&self, alloc: Global) -> Result<Patterns, AllocError>
        ensures { IfOk result (λ patterns. patterns ≡ self.now) }
    {
        Ok(Patterns {
            list: self.list.as_slice().to_vec(alloc)?,
        })
    }
}

/// By hand: a proof sees one call where it is dropped, and not its parts.
impl Drop for Patterns {
    fn drop(self) {
        let Patterns { list: _ } = self;
    }
}
