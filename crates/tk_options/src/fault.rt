//! Why options are refused, and the texts that say so.
ghost use Rattle.std.specs.Prelude.{◌≡◌, IfOk, string_bytes};
ghost use Rattle.tcl_text.specs.Answers.{bounded};
ghost use Rattle.tk_options.specs.FaultTexts.{bad_value_text, fault_number, fault_text};

use std::alloc::{AllocError, AllocFailed, Global};
use std::fmt::{self, Debug, Formatter, Write};
use tcl_text::Text;
use tcl_text::message::{MISSING, VALUE_FOR, push_quoted, quoting, with_quoted};
use thiserror::Error;

/// Why options are not set or told, with the words at fault as they were given.
#[derive(Drop, Error)]
pub enum OptionFault {
    /// No option has this name, nor does any begin with it (20).
    #[error("unknown option")]
    UnknownOption(Text),
    /// Several options begin with these characters (21).
    #[error("ambiguous option")]
    Ambiguous(Text),
    /// The option doesn't take the value (22).
    #[error("bad value for option")]
    BadValue { value: Text, option: Text },
    /// No value stands behind the option (23).
    #[error("value missing")]
    NoValue(Text),
    /// Memory was refused.
    #[error("out of memory")]
    NoMemory,
}

impl OptionFault {
    /// Its number; none where memory was refused.
    pub fn number(&self) -> Option<u32>
        ensures { result ≡ fault_number self.now }
    {
        match self {
            OptionFault::UnknownOption(_) => Some(20),
            OptionFault::Ambiguous(_) => Some(21),
            OptionFault::BadValue {
                value: _,
                option: _,
            } => Some(22),
            OptionFault::NoValue(_) => Some(23),
            OptionFault::NoMemory => None,
        }
    }

    /// The text of the error, or the limit's (4) where it would pass 65,536 bytes.
    pub fn message(&self, alloc: Global) -> Result<Text, AllocError>
        ensures { IfOk result (λ text. text ≡ bounded (fault_text self.now)) }
    {
        let message = self.written(alloc)?;
        Text::of_message(alloc, message.as_str())
    }

    /// The text of the error, however long.
    #[tactic(auto, unfolding(crate::specs::FaultTexts::fault_text))]
    fn written(&self, alloc: Global) -> Result<String, AllocError>
        ensures { IfOk result (λ string. string_bytes string ≡ fault_text self.now) }
    {
        match self {
            OptionFault::UnknownOption(word) => with_quoted(
                alloc,
                "unknown option ",
                word.as_str(),
            ),
            OptionFault::Ambiguous(word) => with_quoted(alloc, "ambiguous option ", word.as_str()),
            OptionFault::BadValue { value, option } => bad_value(alloc, value, option),
            OptionFault::NoValue(word) => quoting(alloc, VALUE_FOR, word.as_str(), MISSING),
            OptionFault::NoMemory => String::from_str(alloc, "out of memory"),
        }
    }
}

/// The text for a value that an option doesn't take.
fn bad_value(alloc: Global, value: &Text, option: &Text) -> Result<String, AllocError>
    ensures { IfOk result (λ string. string_bytes string ≡ bad_value_text value.now option.now) }
{
    let mut message = quoting(alloc, "bad value ", value.as_str(), " for option ")?;
    push_quoted(&mut message, option.as_str())?;
    Ok(message)
}

impl Debug for OptionFault {
    fn fmt<W: Write>(&self, formatter: &mut Formatter<W>) -> Result<(), fmt::Error> {
        formatter.write_str("OptionFault")
    }
}

impl From<AllocError> for OptionFault {
    ghost use Rattle.tk_options.specs.declared.fault.OptionFault.{OptionFault};

    ghost from_gives = { λ _ e. e ≡ OptionFault.NoMemory };

    fn from(_refused: AllocError) -> OptionFault {
        OptionFault::NoMemory
    }
}

impl<T: Drop> From<AllocFailed<T>> for OptionFault {
    ghost use Rattle.tk_options.specs.declared.fault.OptionFault.{OptionFault};

    ghost from_gives = { λ _ e. e ≡ OptionFault.NoMemory };

    fn from(_refused: AllocFailed<T>) -> OptionFault {
        OptionFault::NoMemory
    }
}
