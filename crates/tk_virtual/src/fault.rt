//! Why pairs of a name and a sequence are refused, and the texts that say so.
ghost use Rattle.std.specs.Prelude.{◌≡◌, IfOk, string_bytes};
ghost use Rattle.tcl_text.specs.Answers.{bounded};
ghost use Rattle.tk_virtual.specs.FaultTexts.{fault_number, fault_text};

use std::alloc::{AllocError, AllocFailed, Global};
use std::fmt::{self, Debug, Formatter, Write};
use tcl_text::Text;
use tcl_text::message::{quoting, with_quoted};
use thiserror::Error;
use tk_sequences::SequenceFault;

/// Why pairs are not added or taken out, with what the message quotes.
#[derive(Drop, Error)]
pub enum VirtualFault {
    /// The word is no name in `<<` and `>>` (33).
    #[error("virtual event is badly formed")]
    BadName(Text),
    /// The text is no sequence (29); it is quoted whole.
    #[error("bad event sequence")]
    BadSequence(Text),
    /// A word where a type or a key is wanted is neither (30); it is quoted alone.
    #[error("bad event type or keysym")]
    BadKeysym(Text),
    /// The sequence is a virtual event (32).
    #[error("virtual event not allowed in definition of another virtual event")]
    VirtualInVirtual,
    /// The application has 4,096 pairs (31).
    #[error("limit reached: virtual")]
    Full,
    /// Memory was refused.
    #[error("out of memory")]
    NoMemory,
}

impl VirtualFault {
    /// Its number; none where memory was refused.
    pub fn number(&self) -> Option<u32>
        ensures { result ≡ fault_number self.now }
    {
        match self {
            VirtualFault::BadName(_) => Some(33),
            VirtualFault::BadSequence(_) => Some(29),
            VirtualFault::BadKeysym(_) => Some(30),
            VirtualFault::VirtualInVirtual => Some(32),
            VirtualFault::Full => Some(31),
            VirtualFault::NoMemory => None,
        }
    }

    /// The text of the error, or the limit's (4) where it would pass 65,536 bytes.
    pub fn message(&self, alloc: Global) -> Result<Text, AllocError>
        ensures { IfOk result (λ text. text ≡ bounded (fault_text self.now)) }
    {
        let message = self.written(alloc)?;
        Text::of_message(alloc, message.as_str())
    }

    /// The text of the error, however long.
    #[tactic(auto, unfolding(crate::specs::FaultTexts::fault_text))]
    fn written(&self, alloc: Global) -> Result<String, AllocError>
        ensures { IfOk result (λ string. string_bytes string ≡ fault_text self.now) }
    {
        match self {
            VirtualFault::BadName(name) => quoting(
                alloc,
                "virtual event ",
                name.as_str(),
                " is badly formed",
            ),
            VirtualFault::BadSequence(text) => with_quoted(
                alloc,
                "bad event sequence ",
                text.as_str(),
            ),
            VirtualFault::BadKeysym(word) => with_quoted(
                alloc,
                "bad event type or keysym ",
                word.as_str(),
            ),
            VirtualFault::VirtualInVirtual => String::from_str(
                alloc,
                "virtual event not allowed in definition of another virtual event",
            ),
            VirtualFault::Full => String::from_str(alloc, "limit reached: virtual"),
            VirtualFault::NoMemory => String::from_str(alloc, "out of memory"),
        }
    }
}

impl VirtualFault {
    ghost use Rattle.tk_virtual.specs.Virtual.{fault_of};

    /// The same refusal of a sequence.
    pub(crate) fn of(fault: SequenceFault) -> VirtualFault
        ensures { result ≡ fault_of fault }
    {
        match fault {
            SequenceFault::BadSequence(text) => VirtualFault::BadSequence(text),
            SequenceFault::BadKeysym(word) => VirtualFault::BadKeysym(word),
            SequenceFault::NoMemory => VirtualFault::NoMemory,
        }
    }
}

impl Debug for VirtualFault {
    fn fmt<W: Write>(&self, formatter: &mut Formatter<W>) -> Result<(), fmt::Error> {
        formatter.write_str("VirtualFault")
    }
}

impl From<AllocError> for VirtualFault {
    ghost use Rattle.tk_virtual.specs.declared.fault.VirtualFault.{VirtualFault};

    ghost from_gives = { λ _ e. e ≡ VirtualFault.NoMemory };

    fn from(_refused: AllocError) -> VirtualFault {
        VirtualFault::NoMemory
    }
}

impl<T: Drop> From<AllocFailed<T>> for VirtualFault {
    ghost use Rattle.tk_virtual.specs.declared.fault.VirtualFault.{VirtualFault};

    ghost from_gives = { λ _ e. e ≡ VirtualFault.NoMemory };

    fn from(_refused: AllocFailed<T>) -> VirtualFault {
        VirtualFault::NoMemory
    }
}
