//! The names of the commands that an application's panel serves, beside the paths of its windows.
ghost use Rattle.std.specs.Prelude.{◌≡◌, ◌∷◌, [], ◌++◌, ℕ, List, IfOk, OnOk, map};
ghost use Rattle.std.specs.Borrow.{Bor};
ghost use Rattle.tk_app.specs.Names.{binding_names, class_names, command_names, command_of, moment_names, plain_names, window_names};

use std::alloc::{AllocError, Global};
use tcl_text::Text;
use tcl_text::message::short_text;
use tk_base::Kind;
use tk_options::{KINDS, row_of};

/// Those that an application's scripts call beside the kinds of widgets: of lines and time, of events and their bindings, of all windows.
const BESIDE_KINDS: [&str; 12] = [
    "after", "clock", "puts", "update", "bind", "bindtags", "event", "focus", "destroy", "pack",
    "winfo", "wm",
];

/// Those that the bindings of the widgets' classes call: of Button, Entry and Listbox.
const CLASS: [&str; 14] = [
    "tk::ButtonDown",
    "tk::ButtonEnter",
    "tk::ButtonInvoke",
    "tk::ButtonLeave",
    "tk::ButtonUp",
    "tk::EntryBackspace",
    "tk::EntryDelete",
    "tk::EntryDown",
    "tk::EntryInsert",
    "tk::EntryMove",
    "tk::ListboxDown",
    "tk::ListboxDrag",
    "tk::ListboxMove",
    "tk::ListboxSpace",
];

fn beside_kinds() -> &'static [&'static str]
    ensures { map (λ (name : Bor (List ℕ)). name.now) result.now ≡ moment_names ++ (binding_names ++ window_names) }
{
    BESIDE_KINDS.as_slice()
}

fn class_names() -> &'static [&'static str]
    ensures { map (λ (name : Bor (List ℕ)). name.now) result.now ≡ class_names }
{
    CLASS.as_slice()
}

/// Adds a name.
fn push_name(alloc: Global, names: &mut Vec<Text>, name: &str) -> Result<(), AllocError>
    ensures { OnOk result (names.new.items ≡ names.old.items ++ name.now ∷ []) }
{
    Ok(names.push(short_text(alloc, name)?)?)
}

/// Adds names.
fn push_names(alloc: Global, names: &mut Vec<Text>, more: &[&str]) -> Result<(), AllocError>
    ensures { OnOk result (names.new.items ≡ names.old.items ++ map (λ (name : Bor (List ℕ)). name.now) more.now) }
{
    for name in more {
        push_name(alloc, names, name)?;
    }
    Ok(())
}

/// Adds those that make widgets of some kinds.
fn push_kinds(alloc: Global, names: &mut Vec<Text>, kinds: &[Kind]) -> Result<(), AllocError>
    ensures { OnOk result (names.new.items ≡ names.old.items ++ map command_of kinds.now) }
{
    for kind in kinds {
        push_name(alloc, names, row_of(*kind).command)?;
    }
    Ok(())
}

/// Adds those that an application's scripts call.
fn push_plain(alloc: Global, names: &mut Vec<Text>) -> Result<(), AllocError>
    ensures { OnOk result (names.new.items ≡ names.old.items ++ plain_names) }
{
    push_names(alloc, names, beside_kinds())?;
    push_kinds(alloc, names, KINDS)
}

/// Adds those that the bindings of the widgets' classes call.
fn push_class(alloc: Global, names: &mut Vec<Text>) -> Result<(), AllocError>
    ensures { OnOk result (names.new.items ≡ names.old.items ++ class_names) }
{
    push_names(alloc, names, class_names())
}

/// The names.
pub fn panel_names(alloc: Global) -> Result<Vec<Text>, AllocError>
    ensures { IfOk result (λ names. names.items ≡ command_names) }
{
    let mut names = Vec::new(alloc);
    push_plain(alloc, &mut names)?;
    push_class(alloc, &mut names)?;
    Ok(names)
}
