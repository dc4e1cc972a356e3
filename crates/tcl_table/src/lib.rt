//! What the names of commands call, the levels that scripts see, scripts that are read once, two texts of errors, and notes of where errors came from.
#![tactic(auto)]

mod builtin;
mod cache;
mod cache_laws;
mod command;
mod kept;
mod levels;
mod procedure;
mod source;
pub mod texts;
mod trail;

pub use builtin::Builtin;
pub use cache::ScriptCache;
pub use cache_laws::{last_asked_for_is_kept, no_text_twice};
pub use command::{Command, CommandTable, first_commands, is_dotted, plain_name};
pub use levels::Levels;
pub use procedure::Procedure;
pub use source::Source;
pub use trail::{CommandPlace, ErrorNote};
