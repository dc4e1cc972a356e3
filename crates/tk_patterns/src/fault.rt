ghost use Rattle.std.specs.Prelude.{◌≡◌, IfOk};
ghost use Rattle.tk_patterns.specs.FaultTexts.{fault_number, fault_text};

use std::alloc::{AllocError, Global};
use std::fmt::{self, Display, Formatter, Write};
use tcl_text::Text;
use thiserror::Error;

/// Why a sequence was not bound.
#[derive(Clone, Copy, Debug, PartialEq, Eq, Drop, Error)]
pub enum BindFault {
    /// The application has 4,096 bindings (31).
    Full,
    /// Memory was refused.
    NoMemory,
}

impl BindFault {
    /// Its number; none where memory was refused.
    pub fn number(self) -> Option<u32>
        ensures { result ≡ fault_number self }
    {
        match self {
            BindFault::Full => Some(31),
            BindFault::NoMemory => None,
        }
    }

    /// The text of the error.
    pub fn message(self, alloc: Global) -> Result<Text, AllocError>
        ensures { IfOk result (λ text. text ≡ fault_text self) }
    {
        match Text::new(alloc, self.text()) {
            Ok(text) => Ok(text),
            Err(_) => Err(AllocError),
        }
    }

    fn text(self) -> &'static str
        ensures { result.now ≡ fault_text self }
    {
        match self {
            BindFault::Full => "limit reached: bindings",
            BindFault::NoMemory => "out of memory",
        }
    }
}

impl Display for BindFault {
    fn fmt<W: Write>(&self, formatter: &mut Formatter<W>) -> fmt::Result {
        formatter.write_str(self.text())
    }
}

impl From<AllocError> for BindFault {
    ghost use Rattle.std.specs.Prelude.{◌≡◌};
    ghost use Rattle.tk_patterns.specs.declared.fault.BindFault.TheVariants.{NoMemory};

    ghost from_gives = { λ _ e. e ≡ NoMemory };

    fn from(_refused: AllocError) -> BindFault {
        BindFault::NoMemory
    }
}
