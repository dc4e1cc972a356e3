//! What the walks over a tree share.
ghost use Rattle.std.specs.Prelude.{◌≡◌, ◌++◌, OnOk, reverse};

use std::alloc::AllocError;

/// Puts numbers behind a list, the last of them first.
pub fn push_reversed(list: &mut Vec<u64>, numbers: &[u64]) -> Result<(), AllocError>
    ensures { OnOk result (list.new.items ≡ list.old.items ++ reverse numbers.now) }
{
    let mut rest = numbers;
    while let Some((last, before)) = rest.split_last() {
        list.push(*last)?;
        rest = before;
    }
    Ok(())
}
