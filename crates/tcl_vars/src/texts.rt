//! What a script is told of variables.
ghost use Rattle.std.specs.Prelude.{◌≡◌, IfOk, string_bytes};
ghost use Rattle.tcl_vars.specs.Texts as spec;

use std::alloc::{AllocError, Global};

/// An element as it is named.
pub fn element_name(alloc: Global, name: &str, index: &str) -> Result<String, AllocError>
    ensures { IfOk result (λ string. string_bytes string ≡ spec.element_name name.now index.now) }
{
    let mut string = String::from_str(alloc, name)?;
    string.push_str("(")?;
    string.push_str(index)?;
    string.push_str(")")?;
    Ok(string)
}
