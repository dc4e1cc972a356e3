//! Why calls are refused, as numbers.
ghost use Rattle.std.specs.Prelude.{◌≡◌};
ghost use Rattle.tkhost_c.specs.Numbers.{number_for, number_of, words_of};
ghost use Rattle.tkhost_c.specs.Refused.{answered_as};

use std::alloc::{AllocError, AllocFailed};
use tk_host::{HostFault, LineFault};

/// Why a call of the library was refused.
#[derive(Clone, Copy, Debug, PartialEq, Eq, Drop)]
pub enum Refusal {
    /// What a session or a host's call is refused for (34 to 43).
    Fault(LineFault),
    /// Memory was refused (64).
    NoMemory,
    /// The handle has no host: none was made, or it was freed (65).
    NoHost,
    /// The handle has a host (66).
    HasHost,
    /// The buffer is shorter than what is to be told (67).
    TooSmall,
    /// The host hasn't started (68).
    NotStarted,
}

impl From<HostFault> for Refusal {
    ghost use Rattle.std.specs.Prelude.{◌≡◌};
    ghost use Rattle.tkhost_c.specs.Refused.{refusal_of};

    ghost from_gives = { λ fault e. e ≡ refusal_of fault };

    fn from(fault: HostFault) -> Refusal {
        match fault {
            HostFault::Refused(fault) => Refusal::Fault(fault),
            HostFault::NoMemory => Refusal::NoMemory,
        }
    }
}

impl From<LineFault> for Refusal {
    ghost use Rattle.std.specs.Prelude.{◌≡◌};
    ghost use Rattle.tkhost_c.specs.declared.refusal.Refusal.TheVariants.{Fault};

    ghost from_gives = { λ fault e. e ≡ Fault fault };

    fn from(fault: LineFault) -> Refusal {
        Refusal::Fault(fault)
    }
}

impl From<AllocError> for Refusal {
    ghost use Rattle.tkhost_c.specs.declared.refusal.Refusal.{Refusal};

    ghost from_gives = { λ _ e. e ≡ Refusal.NoMemory };

    fn from(_refused: AllocError) -> Refusal {
        Refusal::NoMemory
    }
}

impl<T: Drop> From<AllocFailed<T>> for Refusal {
    ghost use Rattle.tkhost_c.specs.declared.refusal.Refusal.{Refusal};

    ghost from_gives = { λ _ e. e ≡ Refusal.NoMemory };

    fn from(_refused: AllocFailed<T>) -> Refusal {
        Refusal::NoMemory
    }
}

impl Refusal {
    /// Its number.
    pub fn number(self) -> u32
        ensures { result ≡ number_of self }
    {
        match self {
            Refusal::Fault(fault) => u32::from(fault.number()),
            Refusal::NoMemory => 64,
            Refusal::NoHost => 65,
            Refusal::HasHost => 66,
            Refusal::TooSmall => 67,
            Refusal::NotStarted => 68,
        }
    }
}

/// What a host's call answered, for a program in C.
pub fn answered_as(answer: Result<(), HostFault>) -> Result<(), Refusal>
    ensures { result ≡ answered_as answer }
{
    match answer {
        Ok(()) => Ok(()),
        Err(fault) => Err(Refusal::from(fault)),
    }
}

/// The number of an answer, 0 where nothing was refused.
pub fn number_for(answer: Result<(), Refusal>) -> u32
    ensures { result ≡ number_for answer }
{
    match answer {
        Ok(()) => 0,
        Err(refusal) => refusal.number(),
    }
}

/// What a number says, in words.
pub fn words_of(number: u32) -> &'static [u8]
    ensures { result.now ≡ words_of number }
{
    match number {
        0 => b"done",
        34 => b"rectangle overlaps another",
        35 => b"moment before the last",
        36 => b"bad line, or value outside its range",
        37 => b"no such application",
        38 => b"too many applications",
        39 => b"name is taken",
        40 => b"already started",
        41 => b"already ended",
        42 => b"broken by want of memory",
        43 => b"rectangle overlaps that of another application",
        64 => b"out of memory",
        65 => b"no host",
        66 => b"there is a host already",
        67 => b"buffer too small",
        68 => b"not started",
        _ => b"no such number",
    }
}
