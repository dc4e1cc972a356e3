//! The lines of an application's windows.
ghost use Rattle.std.specs.Prelude.{◌≡◌, ◌++◌, IfOk, OnOk};
ghost use Rattle.tk_screen.specs.Shared.{own_of};
ghost use Rattle.tk_screen.specs.Shapes.{value_of};
ghost use Rattle.tk_screen.specs.Tree.{class_name, line_at, place_fields, tree_lines, value_field, window_line};
ghost use Rattle.tk_tree.specs.Shared.{own_of as tree_of};

use crate::fields::{push_escaped, push_field, push_path};
use crate::order::pre_order;
use crate::{Screen, value};
use std::alloc::{AllocError, Global};
use tcl_text::Text;
use tcl_vars::Scopes;
use tk_base::Win;
use tk_tree::{Window, Windows};

/// The class of a window, as `winfo class` tells it (winfo(n)).
fn class_name(window: &Window) -> &str
    ensures { result.now ≡ class_name window.now }
{
    match window.path.as_str() {
        "." => "Tk",
        _ => window.kind.class(),
    }
}

/// Adds what a window shows, after a blank; nothing where it shows nothing.
fn push_value(out: &mut Vec<u8>, value: Option<Text>) -> Result<(), AllocError>
    ensures { OnOk result (out.new.items ≡ out.old.items ++ value_field value) }
{
    match value {
        Some(value) => {
            out.push(b' ')?;
            push_escaped(out, value.as_str().as_bytes())
        }
        None => Ok(()),
    }
}

/// Adds where a window was laid out, and whether it is mapped.
fn push_place(out: &mut Vec<u8>, window: &Window) -> Result<(), AllocError>
    ensures { OnOk result (out.new.items ≡ out.old.items ++ place_fields window.now) }
{
    push_field(out, u64::from(window.rectangle.x))?;
    push_field(out, u64::from(window.rectangle.y))?;
    push_field(out, u64::from(window.rectangle.width))?;
    push_field(out, u64::from(window.rectangle.height))?;
    push_field(out, u64::from(window.mapped))
}

/// Adds the line of a window of an application.
fn push_window(
    alloc: Global,
    out: &mut Vec<u8>,
    screen: &Screen,
    scopes: &Scopes,
    slot: usize,
    window: &Window,
) -> Result<(), AllocError>
    ensures { OnOk result (out.new.items ≡ out.old.items ++ window_line (own_of slot screen.now) scopes.now window.now) }
{
    let shown = value(
        alloc,
        screen,
        scopes,
        Win {
            owner: slot,
            number: window.number,
        },
    )?;
    out.extend_from_slice(b"win ")?;
    push_path(out, window.path.as_str().as_bytes())?;
    out.push(b' ')?;
    out.extend_from_slice(class_name(window).as_bytes())?;
    push_place(out, window)?;
    push_value(out, shown)?;
    Ok(out.push(b'\n')?)
}

/// Adds the line of the window with a number, if it is there.
fn push_at(
    alloc: Global,
    out: &mut Vec<u8>,
    screen: &Screen,
    scopes: &Scopes,
    slot: usize,
    number: u64,
) -> Result<(), AllocError>
    ensures { OnOk result (out.new.items ≡ out.old.items ++ line_at (own_of slot screen.now) scopes.now number) }
{
    let win = Win {
        owner: slot,
        number,
    };
    match screen.windows.window(win) {
        Some(window) => push_window(alloc, out, screen, scopes, slot, window),
        None => Ok(()),
    }
}

/// Adds the lines of an application's windows, with the texts that variables have now.
pub fn push_tree(
    alloc: Global,
    out: &mut Vec<u8>,
    screen: &Screen,
    scopes: &Scopes,
    slot: usize,
) -> Result<(), AllocError>
    ensures { OnOk result (out.new.items ≡ out.old.items ++ tree_lines (own_of slot screen.now) scopes.now) }
{
    let numbers = pre_order(alloc, &screen.windows, slot)?;
    for number in numbers.as_slice() {
        push_at(alloc, out, screen, scopes, slot, *number)?;
    }
    Ok(())
}
