//! The commands that bind scripts to events: bind(n), bindtags(n) and event(n) without `generate`, each on the own parts of the tables that it
//! needs.
#![tactic(auto)]

mod answers;
mod bind;
mod bindtags;
mod event;

pub use bind::bind_command;
pub use bindtags::bindtags_command;
pub use event::{event_add, event_command, event_delete, event_info};
