//! The commands that read and write variables alone, and how the words of `if`, `switch`, `foreach` and `proc` are cut (if(n), switch(n), foreach(n),
//! proc(n)). What a script did wrong is the inner `Err`, the text of its error.
#![tactic(auto)]

mod arrays;
mod branches;
mod commands;
mod groups;
pub mod laws;
mod links;
mod listing;
mod names;
mod parameters;
mod texts;
mod unset;
mod values;

pub use branches::{Branch, Branches, Choices, if_choices, switch_arms};
pub use commands::{
    VariableCommand, call_variable_command, call_with_one, call_with_two, info_exists,
    upvar_command, variable_command,
};
pub use groups::{Group, Groups, foreach_groups, has_body};
pub use links::UPVAR_USAGE;
pub use listing::Listing;
pub use names::{Names, NamesForm};
pub use parameters::{Parameter, Parameters, parameters_in};
pub use texts::cannot_set;
