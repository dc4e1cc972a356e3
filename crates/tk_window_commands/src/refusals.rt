//! The errors of commands on windows.
ghost use Rattle.std.specs.Prelude.{◌≡◌, ◌++◌, codes};
ghost use Rattle.tcl_text.specs.Answers.{Gives, Refuses, bounded, quoted};
ghost use Rattle.tk_window_commands.specs.Answers as spec;
ghost use Rattle.tk_window_commands.specs.Create.{name_in, refusal_text};

use std::alloc::Global;
use tcl_text::Text;
use tcl_text::answers::{Refusal, error, error_about, quoting_error};
use tk_tree::{WindowFault, parent_and_name};

/// The error for a path under which no window can be made (24 to 28).
#[tactic(auto, unfolding(crate::specs::Create::refusal_text))]
pub fn path_refused(alloc: Global, path: &Text, fault: WindowFault) -> Refusal
    ensures { Refuses result (bounded (refusal_text path.now fault)) }
{
    match fault {
        WindowFault::BadPath => quoting_error(alloc, "bad window path name ", path.as_str()),
        WindowFault::BadName => quoting_error(
            alloc,
            "window name starts with an upper-case letter: ",
            name_in(path.as_str()),
        ),
        WindowFault::Dying => error(alloc, "can't create window: parent has been destroyed"),
        WindowFault::Exists => name_taken(alloc, name_in(path.as_str())),
        WindowFault::Full => error(alloc, "limit reached: windows"),
        WindowFault::NoMemory => Refusal::NoMemory,
    }
}

/// The name of a window below its parent, from its path.
pub fn name_in(path: &str) -> &str
    ensures { result.now ≡ name_in path.now }
{
    match parent_and_name(path) {
        Some((_, name)) => name,
        None => "",
    }
}

/// The error for a name that a sibling has (25).
fn name_taken(alloc: Global, name: &str) -> Refusal
    ensures { Refuses result (bounded (codes "window name " ++ (quoted name.now ++ codes " already exists in parent"))) }
{
    error_about(alloc, "window name ", name, " already exists in parent")
}
