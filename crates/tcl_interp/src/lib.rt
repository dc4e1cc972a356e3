//! A Tcl interpreter on a stack of its own, which can stop after any number of steps.
#![tactic(auto)]

mod calls;
mod chosen;
mod element_laws;
mod expressions;
mod interp;
mod items;
mod job;
mod job_laws;
mod jobs;
mod leaving_laws;
mod loop_laws;
mod machine;
mod moves;
mod onward;
mod openings;
mod reach;
mod script_laws;
mod seen;
mod simple;
mod slices;
mod steps;
mod stopped;
mod tasks;
mod turns;
mod whole;
mod words;

pub use element_laws::elements_are_read;
pub use interp::{Interp, SliceEnd};
pub use job::{Looked, Started, Task};
pub use job_laws::{ends_looked, goes_on, steps_fall, unrolls};
pub use jobs::{Acted, Jobs, act_for, look_at, resume};
pub use leaving_laws::{scripts_leave, tasks_leave};
pub use loop_laws::{loops_go_on, scripts_take_no_steps_back};
pub use script_laws::{scripts_agree, scripts_agree_where};
pub use tasks::{Act, Tasks};
pub use tcl_control::{Code, ReturnCode};
pub use tcl_table::{CommandPlace, ErrorNote, ScriptCache};
