//! Why a text is no event sequence, and the texts that say so.
ghost use Rattle.std.specs.Prelude.{◌≡◌, IfOk, string_bytes};
ghost use Rattle.tcl_text.specs.Answers.{bounded};
ghost use Rattle.tk_sequences.specs.FaultTexts.{fault_number, fault_text};

use std::alloc::{AllocError, AllocFailed, Global};
use std::fmt::{self, Debug, Formatter, Write};
use tcl_text::Text;
use tcl_text::message::with_quoted;
use thiserror::Error;

/// Why a text is no event sequence, with what its message quotes.
#[derive(Drop, Error)]
pub enum SequenceFault {
    /// The text is no sequence (29); it is quoted whole.
    #[error("bad event sequence")]
    BadSequence(Text),
    /// A word where a type or a key is wanted is neither (30); it is quoted alone.
    #[error("bad event type or keysym")]
    BadKeysym(Text),
    /// Memory was refused.
    #[error("out of memory")]
    NoMemory,
}

impl SequenceFault {
    /// Its number; none where memory was refused.
    pub fn number(&self) -> Option<u32>
        ensures { result ≡ fault_number self.now }
    {
        match self {
            SequenceFault::BadSequence(_) => Some(29),
            SequenceFault::BadKeysym(_) => Some(30),
            SequenceFault::NoMemory => None,
        }
    }

    /// The text of the error, or the limit's (4) where it would pass 65,536 bytes.
    pub fn message(&self, alloc: Global) -> Result<Text, AllocError>
        ensures { IfOk result (λ text. text ≡ bounded (fault_text self.now)) }
    {
        let message = self.written(alloc)?;
        Text::of_message(alloc, message.as_str())
    }

    /// The text of the error, however long.
    #[tactic(auto, unfolding(crate::specs::FaultTexts::fault_text))]
    fn written(&self, alloc: Global) -> Result<String, AllocError>
        ensures { IfOk result (λ string. string_bytes string ≡ fault_text self.now) }
    {
        match self {
            SequenceFault::BadSequence(text) => with_quoted(
                alloc,
                "bad event sequence ",
                text.as_str(),
            ),
            SequenceFault::BadKeysym(word) => with_quoted(
                alloc,
                "bad event type or keysym ",
                word.as_str(),
            ),
            SequenceFault::NoMemory => String::from_str(alloc, "out of memory"),
        }
    }
}

impl Debug for SequenceFault {
    fn fmt<W: Write>(&self, formatter: &mut Formatter<W>) -> Result<(), fmt::Error> {
        formatter.write_str("SequenceFault")
    }
}

impl From<AllocError> for SequenceFault {
    ghost use Rattle.tk_sequences.specs.declared.fault.SequenceFault.{SequenceFault};

    ghost from_gives = { λ _ e. e ≡ SequenceFault.NoMemory };

    fn from(_refused: AllocError) -> SequenceFault {
        SequenceFault::NoMemory
    }
}

impl<T: Drop> From<AllocFailed<T>> for SequenceFault {
    ghost use Rattle.tk_sequences.specs.declared.fault.SequenceFault.{SequenceFault};

    ghost from_gives = { λ _ e. e ≡ SequenceFault.NoMemory };

    fn from(_refused: AllocFailed<T>) -> SequenceFault {
        SequenceFault::NoMemory
    }
}
