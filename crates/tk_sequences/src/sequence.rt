ghost use Rattle.std.specs.Prelude.{◌≡◌, ◌≢◌, ◌≤◌, IfOk, IfErr, Ok, Err, None};
ghost use Rattle.tk_sequences.specs.Patterns.{count_of, most_events};
ghost use Rattle.tk_sequences.specs.Reading.{begins_with_bracket, has_brackets, named_or_physical, read_sequence, some_patterns};
ghost use Rattle.tk_sequences.specs.Writing.{canonical};

use crate::fault::SequenceFault;
use crate::pattern::{Pattern, Patterns};
use crate::reading::patterns_of;
use crate::virtual_name::VirtualName;
use crate::written::patterns_written;
use std::alloc::{AllocError, Global};
use tcl_text::Text;
use tcl_text::message::short_text;

/// What a binding waits for (bind(n), EVENT PATTERNS).
#[derive(Drop)]
pub enum Sequence {
    /// A virtual event, written `<<name>>`.
    Virtual(VirtualName),
    /// Events one after another.
    Physical(Patterns),
}

impl Sequence {
    /// The sequence that a text is (bind(n), EVENT PATTERNS). `BadSequence` (29) with the text where it is none, and `BadKeysym` (30)
    /// with the word where, from the left, the first fault is a word in the place of a type or a key that is neither.
    #[tactic(auto, unfolding(crate::specs::Reading::read_sequence))]
    pub fn parse(alloc: Global, text: &Text) -> Result<Sequence, SequenceFault>
        ensures ok { IfOk result (λ sequence. read_sequence text.now ≡ Ok sequence) }
        ensures refused { IfErr result (λ fault. fault ≢ SequenceFault.NoMemory → read_sequence text.now ≡ Err fault) }
    {
        match VirtualName::parse(alloc, text)? {
            Some(name) => Ok(Sequence::Virtual(name)),
            None => unbracketed(alloc, text),
        }
    }

    /// The sequence as `bind` tells it (bind(n)): without blanks, with the modifiers in one order and types and details by their names.
    #[tactic(auto, unfolding(crate::specs::Writing::canonical))]
    pub fn canonical(&self, alloc: Global) -> Result<Text, AllocError>
        ensures { IfOk result (λ text. text ≡ canonical self.now) }
    {
        match self {
            Sequence::Virtual(name) => name.canonical(alloc),
            Sequence::Physical(patterns) => {
                let text = patterns_written(alloc, patterns)?;
                short_text(alloc, text.as_str())
            }
        }
    }

    /// The same sequence.
    pub fn copy(&self, alloc: Global) -> Result<Sequence, AllocError>
        ensures { IfOk result (λ sequence. sequence ≡ self.now) }
    {
        match self {
            Sequence::Virtual(name) => Ok(Sequence::Virtual(name.copy()?)),
            Sequence::Physical(patterns) => Ok(Sequence::Physical(patterns.copy(alloc)?)),
        }
    }
}

/// Whether the text begins with `<`.
fn begins_with_bracket(text: &[u8]) -> bool
    ensures { result ≡ begins_with_bracket text.now }
{
    matches!(text, [b'<', ..])
}

/// Whether `<<` stands somewhere in the text.
fn has_brackets(text: &[u8]) -> bool
    ensures { result ≡ has_brackets text.now }
{
    let mut rest = text;
    while let [first, behind @ ..] = rest {
        if *first == b'<' && begins_with_bracket(behind) {
            return true;
        }
        rest = behind;
    }
    false
}

/// The sequence that a text is which is no virtual event.
#[tactic(auto, unfolding(crate::specs::Reading::physical))]
fn unbracketed(alloc: Global, text: &Text) -> Result<Sequence, SequenceFault>
    ensures ok { IfOk result (λ sequence. named_or_physical text.now None ≡ Ok sequence) }
    ensures refused { IfErr result (λ fault. fault ≢ SequenceFault.NoMemory → named_or_physical text.now None ≡ Err fault) }
{
    if has_brackets(text.as_str().as_bytes()) {
        return Err(SequenceFault::BadSequence(text.copy()?));
    }
    match patterns_of(alloc, text) {
        Ok(patterns) => some_patterns(text, patterns),
        Err(fault) => Err(fault),
    }
}

/// The sequence of these patterns, unless they are none.
fn some_patterns(text: &Text, patterns: Vec<Pattern>) -> Result<Sequence, SequenceFault>
    requires { count_of patterns.items ≤ most_events }
    ensures ok { IfOk result (λ sequence. some_patterns text.now patterns.items ≡ Ok sequence) }
    ensures refused { IfErr result (λ fault. fault ≢ SequenceFault.NoMemory → some_patterns text.now patterns.items ≡ Err fault) }
{
    if patterns.is_empty() {
        return Err(SequenceFault::BadSequence(text.copy()?));
    }
    Ok(Sequence::Physical(Patterns::of(patterns)))
}
