//! The commands that the bindings of the classes Button, Entry and Listbox run, `tk::ButtonEnter` and so on: what keys and the pointer do to widgets
//! (button(n), entry(n), listbox(n)).
#![tactic(auto)]

mod buttons;
mod changes;
mod commands;
mod entries;
mod listboxes;
mod outcome;
mod requests;
mod table;
mod targets;

pub use commands::class_command_done;
pub use outcome::ClassOutcome;
pub use table::{ClassCommand, class_command_named};
