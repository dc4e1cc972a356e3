use thiserror::Error;
use tk_route::LineFault;

/// Why a session was not read.
#[derive(Clone, Copy, Debug, PartialEq, Eq, Drop, Error)]
pub enum SessionFault {
    /// The first faulty line, counted from 1, and what is wrong with it.
    #[error("{fault} at line {line}")]
    Refused { fault: LineFault, line: usize },
    /// Memory was refused.
    #[error("out of memory")]
    NoMemory,
}
