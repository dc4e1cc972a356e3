//! Changes of widgets, with the variables that they ask for.
ghost use Rattle.std.specs.Prelude.{◌≡◌, IfOk, OnOk};
ghost use Rattle.std.specs.Option.{option_copied};
ghost use Rattle.tcl_commands.specs.Refusals.{Steps};
ghost use Rattle.tcl_vars.specs.Store.{variable_in};
ghost use Rattle.tk_screen.specs.Changes.{changed, is_absent, wrote, wrote_one};
ghost use Rattle.tk_screen.specs.Shared.{own_of, LeavesOthers};

use crate::screen::Screen;
use std::alloc::{AllocError, Global};
use tcl_commands::cannot_set;
use tcl_text::Text;
use tcl_text::answers::Refusal;
use tcl_vars::{ReadFault, Scopes, SetFault};
use tk_base::Win;
use tk_widgets::{VariableWrite, WidgetAct, WidgetChange};

/// Makes a change that the widget of a window was asked for, once the variable that it asks for is set, and answers what its command tells
/// then: the error of `set` where the variable can't be set, and nothing is changed. None where the window has no widget.
#[tactic(auto, unfolding(crate::specs::Changes::changed))]
pub fn change_widget(
    alloc: Global,
    screen: &mut Screen,
    scopes: &mut Scopes,
    win: Win,
    change: WidgetChange,
) -> Result<Option<WidgetAct>, AllocError>
    ensures own { IfOk result (λ act. record { own = own_of win.owner screen.new; store = scopes.new; act = act }
        ≡ changed win.number change (own_of win.owner screen.old) scopes.old) }
    ensures others { LeavesOthers win.owner screen.old screen.new }
{
    let Some(widget) = screen.widgets.get(win) else {
        return Ok(None);
    };
    let write = widget.variable_write(alloc, &change)?;
    match write_variable(alloc, scopes, write) {
        Ok(()) => screen.widgets.make(alloc, win, change),
        Err(Refusal::Error(text)) => Ok(Some(WidgetAct::Fault(text))),
        Err(Refusal::NoMemory) => Err(AllocError),
    }
}

/// Sets the global variable that a change of a widget asks for, if it asks for one; refused as by `set` (set(n)).
pub fn write_variable(
    alloc: Global,
    scopes: &mut Scopes,
    write: Option<VariableWrite>,
) -> Result<(), Refusal>
    ensures { Steps result scopes.old scopes.new (wrote write scopes.old) }
{
    match write {
        None => Ok(()),
        Some(write) => write_one(alloc, scopes, write),
    }
}

#[tactic(auto, unfolding(crate::specs::Changes::wrote_one))]
fn write_one(alloc: Global, scopes: &mut Scopes, write: VariableWrite) -> Result<(), Refusal>
    ensures { Steps result scopes.old scopes.new (wrote_one write scopes.old) }
{
    let VariableWrite {
        name,
        text,
        absent_only,
    } = write;
    let _frames = scopes.levels();
    if absent_only && !is_absent(scopes, &name) {
        return Ok(());
    }
    match scopes.set(0, &name, text) {
        Ok(()) => Ok(()),
        Err(SetFault::NoMemory) => Err(Refusal::NoMemory),
        Err(fault) => cannot_set(alloc, name.as_str(), fault),
    }
}

/// Whether there is no such global variable, or no such element of an array.
fn is_absent(scopes: &Scopes, name: &Text) -> bool
    ensures { result ≡ is_absent (variable_in scopes.now 0 name.now) }
{
    let _frames = scopes.levels();
    match scopes.get(0, name) {
        Ok(_) => false,
        Err(ReadFault::NoVariable | ReadFault::NoElement) => true,
        Err(ReadFault::IsArray | ReadFault::NotArray) => false,
    }
}
