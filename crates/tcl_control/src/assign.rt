ghost use Rattle.std.specs.Prelude.{◌≡◌, ◌<◌, length, drop, map, None, IfOk, OnOk, Ok};
ghost use Rattle.tcl_vars.specs.Store.{with_variable};
ghost use Rattle.tcl_commands.specs.Groups.{advanced};
ghost use Rattle.tcl_control.specs.Assign.{done, on_set, first_item, assigned, groups_assigned};

use std::alloc::{AllocError, Global};
use tcl_commands::{Group, NamesForm};
use tcl_text::{ListItems, Text};
use tcl_vars::{Scopes, SetFault};

/// Sets a variable of a level, or gives the error's text.
pub fn set_one(
    alloc: Global,
    scopes: &mut Scopes,
    frame: usize,
    name: &Text,
    value: Text,
) -> Result<Option<Text>, AllocError>
    requires { frame < length scopes.old }
    ensures set { IfOk result (λ refused. record { store = scopes.new; refused = refused }
        ≡ on_set name.now scopes.old done (with_variable scopes.old frame name.now value)) }
    ensures levels { length scopes.new ≡ length scopes.old }
{
    match scopes.set(frame, name, value) {
        Ok(()) => Ok(None),
        Err(SetFault::NoMemory) => Err(AllocError),
        Err(fault) => Ok(Some(fault.text(alloc, name.as_str())?)),
    }
}

/// The first item that is left, taken, or the empty text.
#[tactic(auto, using(crate::proofs::AssignLemmas::first_taken))]
fn next_value(alloc: Global, items: &mut ListItems) -> Result<Text, AllocError>
    ensures value { IfOk result (λ value. value ≡ first_item items.old) }
    ensures left { OnOk result (items.new ≡ drop 1 items.old) }
{
    match items.take_first(alloc)? {
        Some(item) => Ok(item),
        None => Ok(Text::empty()),
    }
}

/// Gives names the items that are left, and takes these.
fn assign_names(
    alloc: Global,
    scopes: &mut Scopes,
    frame: usize,
    names: &[Text],
    items: &mut ListItems,
) -> Result<Option<Text>, AllocError>
    requires { frame < length scopes.old }
    ensures set { IfOk result (λ refused. record { store = scopes.new; refused = refused } ≡ assigned frame names.now items.old scopes.old) }
    ensures left { IfOk result (λ refused. refused ≡ None → items.new ≡ drop (length names.now) items.old) }
    ensures levels { length scopes.new ≡ length scopes.old }
{
    for name in names {
        let value = next_value(alloc, items)?;
        if let Some(text) = set_one(alloc, scopes, frame, name, value)? {
            return Ok(Some(text));
        }
    }
    Ok(None)
}

/// Gives names that are read from their list the items that are left, and takes these.
fn assign_read(
    alloc: Global,
    scopes: &mut Scopes,
    frame: usize,
    names: ListItems,
    items: &mut ListItems,
) -> Result<Option<Text>, AllocError>
    requires { frame < length scopes.old }
    ensures set { IfOk result (λ refused. record { store = scopes.new; refused = refused } ≡ assigned frame names items.old scopes.old) }
    ensures left { IfOk result (λ refused. refused ≡ None → items.new ≡ drop (length names) items.old) }
    ensures levels { length scopes.new ≡ length scopes.old }
{
    let mut rest = names;
    while let Some(name) = rest.take_first(alloc)? {
        let value = next_value(alloc, items)?;
        if let Some(text) = set_one(alloc, scopes, frame, &name, value)? {
            return Ok(Some(text));
        }
    }
    Ok(None)
}

/// Gives the names of a group the items of an iteration, and takes these.
fn assign_group(
    alloc: Global,
    scopes: &mut Scopes,
    frame: usize,
    group: &mut Group,
) -> Result<Option<Text>, AllocError>
    requires { frame < length scopes.old }
    ensures set { IfOk result (λ refused. record { store = scopes.new; refused = refused }
        ≡ assigned frame group.old.names group.old.items scopes.old) }
    ensures left { IfOk result (λ refused. refused ≡ None → group.new ≡ advanced group.old) }
    ensures levels { length scopes.new ≡ length scopes.old }
{
    match group.names.form() {
        NamesForm::Few(names) => {
            assign_names(alloc, scopes, frame, names.as_slice(), &mut group.items)
        }
        NamesForm::Many(names) => {
            assign_read(alloc, scopes, frame, names.copy()?, &mut group.items)
        }
    }
}

/// Gives the names of groups the items of an iteration, and takes these. Where a name can't be set, or memory is refused, the groups
/// in front are taken already, and the one at hand in part: they are of no more use.
pub fn assign_groups(
    alloc: Global,
    scopes: &mut Scopes,
    frame: usize,
    groups: &mut [Group],
) -> Result<Option<Text>, AllocError>
    requires { frame < length scopes.old }
    ensures set { IfOk result (λ refused. record { store = scopes.new; refused = refused } ≡ groups_assigned frame groups.old scopes.old) }
    ensures left { IfOk result (λ refused. refused ≡ None → groups.new ≡ map advanced groups.old) }
    ensures levels { length scopes.new ≡ length scopes.old }
{
    for group in groups.iter_mut() {
        if let Some(text) = assign_group(alloc, scopes, frame, group)? {
            return Ok(Some(text));
        }
    }
    Ok(None)
}
