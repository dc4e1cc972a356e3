//! The host as a library for programs in C: each export calls one public call of `tk_host`, `tkhost` or `tk_session` on what a handle keeps.
#![tactic(auto)]

mod adding;
mod adds;
mod doing;
mod handles;
mod kept;
mod keys;
mod lines;
mod loose;
mod place;
mod playing;
mod refusal;
mod running;
mod taking;
mod telling;
mod texts;
