//! The commands that run scripts, or that change how they run: what each does with its words, the variables and the commands.
#![tactic(auto)]

mod assign;
mod choices;
mod code;
mod context;
mod control;
mod define;
mod expression;
mod loops;
mod plan;
mod procedure;
mod usages;
mod variables;

pub use choices::switch_plan;
pub use code::{Code, ReturnCode, STRAY_BREAK, STRAY_CONTINUE};
pub use context::Context;
pub use control::{Call, End, call_command, caught, info_plan, leaving_plan};
pub use expression::{Expression, integer_of, truth};
pub use loops::{Loop, Looping, Test, Verdict, items_tested};
pub use plan::Plan;
