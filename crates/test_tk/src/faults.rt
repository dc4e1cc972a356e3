//! The questions of `faults`: what faults show where a program prints them.
//!
//! A question `TYPE FAULT` is answered `=` and the text that the fault shows, which is none of those that a script is told.
use anyhow::{Result, bail};
use asking::{first_word, shown};
use std::alloc::Global;
use tcl_text::Text;
use tk_options::OptionFault;
use tk_patterns::BindFault;
use tk_sequences::SequenceFault;
use tk_tree::WindowFault;
use tk_virtual::VirtualFault;

/// What options are refused for.
fn of_option(alloc: Global, fault: &str) -> Result<String> {
    match fault {
        "unknown" => shown(alloc, OptionFault::UnknownOption(Text::empty())),
        "ambiguous" => shown(alloc, OptionFault::Ambiguous(Text::empty())),
        "value" => shown(
            alloc,
            OptionFault::BadValue {
                value: Text::empty(),
                option: Text::empty(),
            },
        ),
        "missing" => shown(alloc, OptionFault::NoValue(Text::empty())),
        "memory" => shown(alloc, OptionFault::NoMemory),
        _ => bail!("no such fault"),
    }
}

/// What sequences and bindings are refused for.
fn of_binding(alloc: Global, fault: &str) -> Result<String> {
    match fault {
        "sequence" => shown(alloc, SequenceFault::BadSequence(Text::empty())),
        "keysym" => shown(alloc, SequenceFault::BadKeysym(Text::empty())),
        "sequence-memory" => shown(alloc, SequenceFault::NoMemory),
        "full" => shown(alloc, BindFault::Full),
        "memory" => shown(alloc, BindFault::NoMemory),
        _ => bail!("no such fault"),
    }
}

/// What virtual events are refused for.
fn of_virtual(alloc: Global, fault: &str) -> Result<String> {
    match fault {
        "name" => shown(alloc, VirtualFault::BadName(Text::empty())),
        "sequence" => shown(alloc, VirtualFault::BadSequence(Text::empty())),
        "keysym" => shown(alloc, VirtualFault::BadKeysym(Text::empty())),
        "virtual" => shown(alloc, VirtualFault::VirtualInVirtual),
        "full" => shown(alloc, VirtualFault::Full),
        "memory" => shown(alloc, VirtualFault::NoMemory),
        _ => bail!("no such fault"),
    }
}

/// What windows are refused for.
fn of_window(alloc: Global, fault: &str) -> Result<String> {
    match fault {
        "path" => shown(alloc, WindowFault::BadPath),
        "name" => shown(alloc, WindowFault::BadName),
        "dying" => shown(alloc, WindowFault::Dying),
        "taken" => shown(alloc, WindowFault::Exists),
        "full" => shown(alloc, WindowFault::Full),
        "memory" => shown(alloc, WindowFault::NoMemory),
        _ => bail!("no such fault"),
    }
}

/// What a question is answered.
pub fn answer(alloc: Global, question: &str) -> Result<String> {
    match first_word(question) {
        ("option", fault) => of_option(alloc, fault),
        ("binding", fault) => of_binding(alloc, fault),
        ("virtual", fault) => of_virtual(alloc, fault),
        ("window", fault) => of_window(alloc, fault),
        _ => bail!("no such question"),
    }
}
