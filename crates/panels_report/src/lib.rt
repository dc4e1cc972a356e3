//! What is told of benches that were played, of scripts, and of the lines of a session that comes line by line.
#![tactic(auto)]

mod answering;
mod blocks;
mod cases;
mod ends;
mod expecting;
mod failing;
mod idle;
mod isolating;
mod linting;
mod lists;
mod playing;
mod trials;

pub use answering::{Reply, answered};
pub use blocks::{Blocks, Taken};
pub use cases::cases_of;
pub use expecting::is_as_expected;
pub use idle::push_idle;
pub use isolating::disturbances;
pub use linting::{Wrong, linted, served};
pub use playing::{not_played, play_bench, unserved};
