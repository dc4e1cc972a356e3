//! The lines of what an application has waiting.
ghost use Rattle.std.specs.Prelude.{◌≡◌, [], ◌++◌, OnOk};
ghost use Rattle.std.specs.Option.{option_copied, option_map_or};
ghost use Rattle.tk_after.specs.Shared.{own_of};
ghost use Rattle.tk_screen.specs.Timers.{entry_line, kind_fields, name_field, timer_lines};

use crate::fields::{push_escaped, push_field, push_number};
use std::alloc::AllocError;
use tk_after::{Timers, WaitingScript};

/// Adds the name of a timer or an idle script after a blank.
fn push_name(out: &mut Vec<u8>, id: u64) -> Result<(), AllocError>
    ensures { OnOk result (out.new.items ≡ out.old.items ++ name_field id) }
{
    out.extend_from_slice(b" after#")?;
    push_number(out, id)
}

/// Adds what a line tells of a timer or an idle script beside its script.
fn push_kind(out: &mut Vec<u8>, due: Option<u64>, id: u64) -> Result<(), AllocError>
    ensures { OnOk result (out.new.items ≡ out.old.items ++ kind_fields due id) }
{
    match due {
        Some(due) => {
            out.extend_from_slice(b"timer")?;
            push_name(out, id)?;
            push_field(out, due)
        }
        None => {
            out.extend_from_slice(b"idle")?;
            push_name(out, id)
        }
    }
}

/// Adds the line of a timer or an idle script.
fn push_entry(out: &mut Vec<u8>, entry: &WaitingScript) -> Result<(), AllocError>
    ensures { OnOk result (out.new.items ≡ out.old.items ++ entry_line entry.now) }
{
    push_kind(out, entry.due, entry.id)?;
    out.push(b' ')?;
    push_escaped(out, entry.script.as_str().as_bytes())?;
    Ok(out.push(b'\n')?)
}

/// Adds the line of what is listed, if anything.
fn push_listed(out: &mut Vec<u8>, entry: Option<&WaitingScript>) -> Result<(), AllocError>
    ensures { OnOk result (out.new.items ≡ out.old.items ++ option_map_or entry_line (option_copied entry.entry) []) }
{
    match entry {
        Some(entry) => push_entry(out, entry),
        None => Ok(()),
    }
}

/// Adds the lines of what an application has waiting, in the order of the numbers.
pub fn push_timers(out: &mut Vec<u8>, timers: &Timers, owner: usize) -> Result<(), AllocError>
    ensures { OnOk result (out.new.items ≡ out.old.items ++ timer_lines (own_of owner timers.now).entries) }
{
    let ids = timers.info(owner)?;
    for id in ids.as_slice() {
        push_listed(out, timers.entry(owner, *id))?;
    }
    Ok(())
}
