//! The commands of an application on what it has in the tables, by their names and the words behind them.
#![tactic(auto)]

mod binding;
mod calls;
mod class;
mod commands;
mod dispatch;
pub mod job_laws;
mod jobs;
mod moment;
mod outcome;
mod path;
mod screen;

pub use calls::{call, parsed};
pub use commands::panel_command;
pub use jobs::{begin, ended, look, settling, start};
pub use outcome::{Begun, CommandOutcome};
