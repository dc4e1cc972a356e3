//! The error for what is no path of a window.
ghost use Rattle.tcl_text.specs.Answers.{Gives};
ghost use Rattle.tk_tree.specs.Path.{bad_path as bad_path_of};

use std::alloc::Global;
use tcl_text::Text;
use tcl_text::answers::{Refusal, quoting_error};

/// The error for a path that no window has (24).
pub fn bad_path<T>(alloc: Global, path: &Text) -> Result<T, Refusal>
    ensures { Gives result (bad_path_of path.now) }
{
    Err(quoting_error(alloc, "bad window path name ", path.as_str()))
}
