//! The texts of errors, as scripts are told of them. In place of one past 65,536 bytes stands that of the limit (4).
ghost use Rattle.std.specs.Prelude.{◌≡◌, IfOk};
ghost use Rattle.tcl_table.specs.Texts.{cannot_read_text, unknown_command};
ghost use Rattle.tcl_vars.specs.Texts.{element_name};

use std::alloc::{AllocError, Global};
use tcl_text::Text;
use tcl_text::message::about;
use tcl_vars::{ReadFault, element_name};

/// Why an element can't be read, as its script is told of it (15 to 18). It is named `name(index)`.
pub fn cannot_read_element(
    alloc: Global,
    name: &Text,
    index: &Text,
    fault: ReadFault,
) -> Result<Text, AllocError>
    ensures { IfOk result (λ text. text ≡ cannot_read_text (element_name name.now index.now) fault) }
{
    let element = element_name(alloc, name.as_str(), index.as_str())?;
    fault.text(alloc, element.as_str())
}

/// The error that no command has this name.
pub fn unknown_command(alloc: Global, name: &str) -> Result<Text, AllocError>
    ensures { IfOk result (λ message. message ≡ unknown_command name.now) }
{
    about(alloc, "invalid command name ", name)
}
