//! The command `pack` (pack(n)): how windows are packed in their parents, in what order, and what is told of that.
#![tactic(auto)]

mod configure;
mod errors;
mod info;
mod options;
mod pack;
mod places;
mod scene;
mod settings;
mod targets;
mod values;

pub use pack::pack_command;
