//! The commands on windows: `frame`, `label`, `button`, `entry` and `listbox` make them, `path ..` is a window's own command, and `winfo` and
//! `wm title` tell of them.
#![tactic(auto)]

mod answers;
mod commands;
mod create;
mod path;
mod refusals;
mod winfo;
mod winfo_told;
mod wm;

pub use commands::{WindowCommand, window_command_done, window_command_named};
pub use create::create_command;
pub use path::path_command;
pub use winfo::winfo_command;
pub use wm::wm_command;
