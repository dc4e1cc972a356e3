//! Which event a pattern names.
ghost use Rattle.std.specs.Prelude.{◌≡◌, []};
ghost use Rattle.tcl_text.specs.Answers.{Gives};
ghost use Rattle.tk_generate.specs.Asked.{asked_in, is_for_keys, one_pattern};
ghost use Rattle.tk_sequences.specs.Words.{is_single};

use crate::refusals::sequence_refused;
use std::alloc::Global;
use tcl_text::Text;
use tcl_text::answers::Refusal;
use tk_sequences::{Pattern, Repetition, Sequence, SequenceFault, VirtualName};

/// The event that is to be made.
#[derive(Drop)]
pub enum EventRequest {
    /// One that matches this pattern.
    Physical(Pattern),
    Virtual(VirtualName),
}

impl EventRequest {
    /// Whether a key is pressed or released.
    pub fn is_for_keys(&self) -> bool
        ensures { result ≡ is_for_keys self.now }
    {
        match self {
            EventRequest::Physical(pattern) => pattern.kind.is_key(),
            EventRequest::Virtual(_) => false,
        }
    }
}

/// The event that a text names: a virtual event, or one pattern without `Double`, `Triple` and `Quadruple`. Else the error of a bad sequence
/// (29), or of a bad type or key (30).
#[tactic(auto, unfolding(crate::specs::Asked::asked_in))]
pub fn asked_in(alloc: Global, text: &Text) -> Result<EventRequest, Refusal>
    ensures { Gives result (asked_in text.now) }
{
    match Sequence::parse(alloc, text) {
        Ok(Sequence::Virtual(name)) => Ok(EventRequest::Virtual(name)),
        Ok(Sequence::Physical(patterns)) => one_pattern(alloc, text, patterns.as_slice()),
        Err(SequenceFault::NoMemory) => Err(Refusal::NoMemory),
        Err(fault) => sequence_refused(alloc, fault),
    }
}

/// The pattern, if it is only one and comes once.
fn one_pattern(alloc: Global, text: &Text, patterns: &[Pattern]) -> Result<EventRequest, Refusal>
    ensures { Gives result (one_pattern text.now patterns.now) }
{
    match patterns {
        [pattern] if is_single(pattern.times) => Ok(EventRequest::Physical(*pattern)),
        _ => bad_sequence(alloc, text),
    }
}

/// Whether the event comes once.
fn is_single(times: Repetition) -> bool
    ensures { result ≡ is_single times }
{
    matches!(times, Repetition::Single)
}

/// The error of a text that is no such pattern (29).
fn bad_sequence(alloc: Global, text: &Text) -> Result<EventRequest, Refusal>
    ensures { Gives result (one_pattern text.now []) }
{
    sequence_refused(alloc, SequenceFault::BadSequence(text.copy()?))
}
