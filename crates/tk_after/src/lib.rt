//! Timers and idle scripts of Tcl applications (after(n)), each application's apart from the others'. Moments and delays are milliseconds.
#![tactic(auto)]

mod after;
mod answers;
mod index;
mod keys;
mod scripts;
mod timers;
mod waiting;

pub use after::after_command;
pub use timers::Timers;
pub use waiting::WaitingScript;
