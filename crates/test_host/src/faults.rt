//! The questions of `faults`: what faults show where a program prints them.
//!
//! A question `TYPE FAULT` is answered `=` and the text that the fault shows.
use anyhow::{Result, bail};
use asking::{first_word, shown};
use std::alloc::Global;
use tk_route::{HostFault, LineFault};
use tk_session::WritingFault;
use tkhost::{InputFault, PlayFault, SessionFault, WriteFault};

/// The fault of a number.
fn line_fault(number: &str) -> Result<LineFault> {
    match number {
        "34" => Ok(LineFault::Overlap),
        "35" => Ok(LineFault::TimeBack),
        "36" => Ok(LineFault::BadLine),
        "37" => Ok(LineFault::NoApp),
        "38" => Ok(LineFault::TooManyApps),
        "39" => Ok(LineFault::NameTaken),
        "40" => Ok(LineFault::Started),
        "41" => Ok(LineFault::Ended),
        "42" => Ok(LineFault::Broken),
        "43" => Ok(LineFault::RectOverlap),
        _ => bail!("no such fault"),
    }
}

/// What streams and sessions are refused for.
fn of_session(alloc: Global, fault: &str) -> Result<String> {
    match fault {
        "read" => shown(alloc, InputFault::Read),
        "read-memory" => shown(alloc, InputFault::NoMemory),
        "write" => shown(alloc, WriteFault),
        "play" => shown(alloc, PlayFault::Write),
        "play-memory" => shown(alloc, PlayFault::NoMemory),
        "memory" => shown(alloc, SessionFault::NoMemory),
        number => shown(
            alloc,
            SessionFault::Refused {
                fault: line_fault(number)?,
                line: 7,
            },
        ),
    }
}

/// What a session that is to be written is refused for.
fn of_writing(alloc: Global, fault: &str) -> Result<String> {
    match fault {
        "unlike" => shown(alloc, WritingFault::Unlike),
        "memory" => shown(alloc, WritingFault::NoMemory),
        number => shown(
            alloc,
            WritingFault::Refused {
                fault: line_fault(number)?,
                line: 7,
            },
        ),
    }
}

/// What a question is answered.
pub fn answer(alloc: Global, question: &str) -> Result<String> {
    match first_word(question) {
        ("line", number) => shown(alloc, line_fault(number)?),
        ("host", "memory") => shown(alloc, HostFault::NoMemory),
        ("host", number) => shown(alloc, HostFault::Refused(line_fault(number)?)),
        ("session", fault) => of_session(alloc, fault),
        ("writing", fault) => of_writing(alloc, fault),
        _ => bail!("no such question"),
    }
}
