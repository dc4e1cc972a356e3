//! The errors of commands on variables.
ghost use Rattle.std.specs.Prelude.{◌≡◌, [], Ok};
ghost use Rattle.tcl_text.specs.Answers.{Gives};
ghost use Rattle.tcl_commands.specs.Texts as spec;

use std::alloc::Global;
use tcl_text::Text;
use tcl_text::answers::Refusal;
use tcl_vars::{ReadFault, SetFault};

/// Why a variable can't be read (15 to 18), as its script is told of it. A text past 65,536 bytes is that of the limit (4).
#[tactic(auto, unfolding(tcl_text::specs::Messages::bounded))]
pub fn cannot_read<T>(alloc: Global, name: &str, fault: ReadFault) -> Result<T, Refusal>
    ensures { Gives result (spec.cannot_read name.now fault) }
{
    Err(Refusal::Error(fault.text(alloc, name)?))
}

/// Why a variable can't be set (17 to 19), as its script is told of it. A text past 65,536 bytes is that of the limit (4).
#[tactic(auto, unfolding(tcl_text::specs::Messages::bounded))]
pub fn cannot_set<T>(alloc: Global, name: &str, fault: SetFault) -> Result<T, Refusal>
    ensures { Gives result (spec.cannot_set name.now fault) }
{
    match fault {
        SetFault::NoMemory => Err(Refusal::NoMemory),
        _ => Err(Refusal::Error(fault.text(alloc, name)?)),
    }
}
