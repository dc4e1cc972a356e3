ghost use Rattle.std.specs.Prelude.{◌≡◌};
ghost use Rattle.tk_tree.specs.FaultNumbers.{fault_number};

use std::alloc::AllocError;
use thiserror::Error;

/// Why a window was not made.
#[derive(Clone, Copy, Debug, PartialEq, Eq, Drop, Error)]
pub enum WindowFault {
    /// The path is none, or names a parent that isn't there (24).
    #[error("bad window path name")]
    BadPath,
    /// The window's own name begins with A to Z (26).
    #[error("window name starts with an upper-case letter")]
    BadName,
    /// The parent is being destroyed (27).
    #[error("can't create window: parent has been destroyed")]
    Dying,
    /// A window has this path already (25).
    #[error("window name already exists in parent")]
    Exists,
    /// The application has 512 windows, or the last number was given (28).
    #[error("limit reached: windows")]
    Full,
    /// Memory was refused.
    #[error("out of memory")]
    NoMemory,
}

impl WindowFault {
    /// Its number; none where memory was refused.
    pub fn number(self) -> Option<u32>
        ensures { result ≡ fault_number self }
    {
        match self {
            WindowFault::BadPath => Some(24),
            WindowFault::Exists => Some(25),
            WindowFault::BadName => Some(26),
            WindowFault::Dying => Some(27),
            WindowFault::Full => Some(28),
            WindowFault::NoMemory => None,
        }
    }
}

impl From<AllocError> for WindowFault {
    ghost use Rattle.tk_tree.specs.declared.fault.WindowFault.{WindowFault};

    ghost from_gives = { λ _ e. e ≡ WindowFault.NoMemory };

    fn from(_refused: AllocError) -> WindowFault {
        WindowFault::NoMemory
    }
}
