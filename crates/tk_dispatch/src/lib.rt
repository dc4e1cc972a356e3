//! Which scripts an event runs (bind(n), bindtags(n)): one for each binding tag of its window, chosen and substituted before the first of them
//! runs. And the histories of all applications.
#![tactic(auto)]

mod commons;
mod dispatch;
mod field;
mod histories;
mod made;
mod numbers;
mod own;
mod page;
mod pages;
mod push;
mod queue;
mod queued;
mod substitution;
mod tag;

pub use dispatch::{scripts_for, scripts_for_tags};
pub use histories::Histories;
pub use queue::EventQueue;
pub use substitution::substitute;
pub use tag::is_live;
