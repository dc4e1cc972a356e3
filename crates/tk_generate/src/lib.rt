//! The words of `event generate` (event(n)), to the event that they make.
#![tactic(auto)]

mod asked;
mod fields;
mod generate;
mod given;
mod refusals;
mod values;

pub use generate::{Generated, generate_command};
pub use given::When;
