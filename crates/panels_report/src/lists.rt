//! Lists behind lists.

ghost use Rattle.std.specs.Prelude.{◌≡◌, ◌++◌, OnOk};

use std::alloc::AllocError;

/// Puts a list behind another.
pub(crate) fn push_all<T: Drop>(list: &mut Vec<T>, others: Vec<T>) -> Result<(), AllocError>
    ensures { OnOk result (list.new.items ≡ list.old.items ++ others.items) }
{
    for other in others {
        list.push(other)?;
    }
    Ok(())
}
