//! Why lines, and the calls that do what lines say, are refused.
ghost use Rattle.std.specs.Prelude.{◌≡◌};

use std::alloc::{AllocError, AllocFailed};
use thiserror::Error;

/// Why a line of a session, or the call of a host that does what such a line says, was refused.
#[derive(Clone, Copy, Debug, PartialEq, Eq, Drop, Error)]
pub enum LineFault {
    /// The rectangle of an application shares a pixel with that of one before (34).
    #[error("rectangle overlaps another")]
    Overlap,
    /// The moment is before the one that was reached (35).
    #[error("moment before the last")]
    TimeBack,
    /// The line hasn't the form that is wanted in its place, or a value lies outside its range (36).
    #[error("bad line")]
    BadLine,
    /// No application has this name, or this slot (37).
    #[error("no such application")]
    NoApp,
    /// Sixteen applications are there already (38).
    #[error("too many applications")]
    TooManyApps,
    /// An application before has this name, or an alias of the same application (39).
    #[error("name is taken")]
    NameTaken,
    /// The applications have been started (40).
    #[error("already started")]
    Started,
    /// The end has been reached (41).
    #[error("already ended")]
    Ended,
    /// Memory was refused to a call that ran applications (42).
    #[error("broken by want of memory")]
    Broken,
    /// The new rectangle shares a pixel with that which another application has then (43).
    #[error("rectangle overlaps that of another application")]
    RectOverlap,
}

impl LineFault {
    ghost use Rattle.std.specs.Prelude.{◌≡◌};
    ghost use Rattle.tk_route.specs.Fault.{number_of};

    /// Its number, which the program tells of a session's first fault.
    pub fn number(self) -> u8
        ensures { result ≡ number_of self }
    {
        match self {
            LineFault::Overlap => 34,
            LineFault::TimeBack => 35,
            LineFault::BadLine => 36,
            LineFault::NoApp => 37,
            LineFault::TooManyApps => 38,
            LineFault::NameTaken => 39,
            LineFault::Started => 40,
            LineFault::Ended => 41,
            LineFault::Broken => 42,
            LineFault::RectOverlap => 43,
        }
    }
}

/// Why a call failed that may be refused and that takes memory.
#[derive(Clone, Copy, Debug, PartialEq, Eq, Drop, Error)]
pub enum HostFault {
    /// What it asks for is refused.
    #[error("{0}")]
    Refused(LineFault),
    /// Memory was refused.
    #[error("out of memory")]
    NoMemory,
}

impl HostFault {
    ghost use Rattle.std.specs.Prelude.{◌≡◌};
    ghost use Rattle.tk_route.specs.Fault.{number_if_refused};

    /// Its number; want of memory has none.
    pub fn number(self) -> Option<u8>
        ensures { result ≡ number_if_refused self }
    {
        match self {
            HostFault::Refused(fault) => Some(fault.number()),
            HostFault::NoMemory => None,
        }
    }
}

impl From<LineFault> for HostFault {
    ghost use Rattle.std.specs.Prelude.{◌≡◌};
    ghost use Rattle.tk_route.specs.declared.fault.HostFault.TheVariants.{Refused};

    ghost from_gives = { λ fault e. e ≡ Refused fault };

    fn from(fault: LineFault) -> HostFault {
        HostFault::Refused(fault)
    }
}

impl From<AllocError> for HostFault {
    ghost use Rattle.tk_route.specs.declared.fault.HostFault.{HostFault};

    ghost from_gives = { λ _ e. e ≡ HostFault.NoMemory };

    fn from(_refused: AllocError) -> HostFault {
        HostFault::NoMemory
    }
}

impl<T: Drop> From<AllocFailed<T>> for HostFault {
    ghost use Rattle.tk_route.specs.declared.fault.HostFault.{HostFault};

    ghost from_gives = { λ _ e. e ≡ HostFault.NoMemory };

    fn from(_refused: AllocFailed<T>) -> HostFault {
        HostFault::NoMemory
    }
}
