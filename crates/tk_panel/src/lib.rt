//! What applications have in one set of tables, and what each does next: the scripts of an event, timers that are due, layout, idle scripts, and windows
//! that are destroyed (after(n), bind(n), destroy(n), update(n)).
#![tactic(auto)]

mod adding;
mod changes;
mod choice;
mod class_laws;
mod classes;
mod clock;
mod commands;
mod delivery;
mod destroy;
mod job;
mod looking;
mod numbers;
mod report;
mod scripts;
mod settle;
mod starting;
mod tables;
mod transcript;

pub use adding::add;
pub use changes::lay_out;
pub use choice::choose;
pub use class_laws::classes_bind_sequences;
pub use classes::{bind_classes, unbind_classes};
pub use clock::Clock;
pub use commands::{after_command, clock_command, puts_command};
pub use delivery::deliver;
pub use job::{Home, Job, Rest};
pub use looking::next;
pub use numbers::Numbers;
pub use report::write;
pub use scripts::Scripts;
pub use settle::is_closed;
pub use starting::start;
pub use tables::Tables;
pub use transcript::{Line, Stream, Transcripts};
