//! What keeps a command from being done.

ghost use Rattle.panels_text.specs.Places.{IsFault, fault_text};

use std::alloc::{AllocError, AllocFailed, Global};
use std::io;
use tcl_text::Text;

/// Why a command isn't done.
#[derive(Drop)]
pub enum Failure {
    /// What is wrong, in words.
    Said(String),
    /// Memory was refused to the panel of this name.
    Unserved(Text),
    /// Memory was refused.
    NoMemory,
    /// A stream failed.
    Stream,
}

impl From<AllocError> for Failure {
    ghost use Rattle.std.specs.Prelude.{◌≡◌};
    ghost use Rattle.panels_text.specs.declared.failure.Failure.{Failure};

    ghost from_gives = { λ _ failure. failure ≡ Failure.NoMemory };

    fn from(_refused: AllocError) -> Failure {
        Failure::NoMemory
    }
}

impl<T: Drop> From<AllocFailed<T>> for Failure {
    ghost use Rattle.std.specs.Prelude.{◌≡◌};
    ghost use Rattle.panels_text.specs.declared.failure.Failure.{Failure};

    ghost from_gives = { λ _ failure. failure ≡ Failure.NoMemory };

    fn from(_refused: AllocFailed<T>) -> Failure {
        Failure::NoMemory
    }
}

impl From<io::Error> for Failure {
    fn from(_refused: io::Error) -> Failure {
        Failure::Stream
    }
}

/// What is wrong in a line of a file, counted from 1; 0 where no line says it.
pub fn fault(alloc: Global, file: &str, line: usize, words: &str) -> Failure
    ensures { IsFault (fault_text file.now line words.now) result }
{
    let text = if line == 0 {
        format!(in alloc; "{file}: {words}")
    } else {
        format!(in alloc; "{file}:{line}: {words}")
    };
    match text {
        Ok(text) => Failure::Said(text),
        Err(_) => Failure::NoMemory,
    }
}
