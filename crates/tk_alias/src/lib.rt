//! Commands of an application that the program around its host serves (interp(n), alias).
#![tactic(auto)]

mod alias;
mod closure;
mod code;
mod kinds;
mod names;
mod reply;
mod service;
mod summing;

pub use alias::{Alias, AliasMeaning, AliasService, Aliases};
pub use closure::{Closure, NoAlias};
pub use code::AliasCode;
pub use names::{MAX_ALIASES, MAX_COMMAND_NAME, is_command_name};
pub use reply::AliasReply;
pub use service::{Service, ServiceKind};
