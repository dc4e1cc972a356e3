//! What the pointer and keys do to buttons (button(n)).
ghost use Rattle.std.specs.Prelude.{◌≡◌, IfOk, OnOk, codes};
ghost use Rattle.std.specs.Option.{option_copied};
ghost use Rattle.tk_class_commands.specs.Buttons as spec;
ghost use Rattle.tk_inputs.specs.Shared as inputs_of;
ghost use Rattle.tk_screen.specs.Shared.{LeavesOthers, own_of};

use crate::changes::make;
use crate::outcome::{ClassOutcome, nothing};
use std::alloc::{AllocError, Global};
use tcl_text::{Text, TextList};
use tk_base::Win;
use tk_inputs::Inputs;
use tk_options::{OptionFault, Settings};
use tk_screen::Screen;
use tk_widgets::{Widget, WidgetAct, WidgetChange};

/// What is done to a button.
#[derive(Clone, Copy)]
pub enum ButtonRequest {
    /// The pointer comes over it.
    Enter,
    /// The pointer leaves it.
    Leave,
    /// It is pressed.
    Press,
    /// It is let go.
    Release,
    /// It is invoked by a key.
    Invoke,
}

/// Does it.
#[tactic(auto, unfolding(crate::specs::Buttons::act))]
pub fn act(
    alloc: Global,
    screen: &mut Screen,
    inputs: &mut Inputs,
    win: Win,
    request: ButtonRequest,
) -> Result<ClassOutcome, AllocError>
    ensures own { IfOk result (λ outcome. spec.told (own_of win.owner screen.new) (inputs_of.own_of win.owner inputs.new) outcome
        ≡ spec.act request win.number (own_of win.owner screen.old) (inputs_of.own_of win.owner inputs.old)) }
    ensures screen { LeavesOthers win.owner screen.old screen.new }
    ensures inputs { inputs_of.LeavesOthers win.owner inputs.old inputs.new }
{
    match request {
        ButtonRequest::Enter => enter(alloc, screen, inputs, win),
        ButtonRequest::Leave => leave(alloc, screen, inputs, win),
        ButtonRequest::Press => press(alloc, screen, inputs, win),
        ButtonRequest::Release => release(alloc, screen, inputs, win),
        ButtonRequest::Invoke => invoke(alloc, screen, win),
    }
}

/// The pointer comes over a button: it is sunken again if it is pressed.
fn enter(
    alloc: Global,
    screen: &mut Screen,
    inputs: &mut Inputs,
    win: Win,
) -> Result<ClassOutcome, AllocError>
    ensures own { IfOk result (λ outcome. spec.told (own_of win.owner screen.new) (inputs_of.own_of win.owner inputs.new) outcome
        ≡ spec.pointer_entered win.number (own_of win.owner screen.old) (inputs_of.own_of win.owner inputs.old)) }
    ensures screen { LeavesOthers win.owner screen.old screen.new }
    ensures inputs { inputs_of.LeavesOthers win.owner inputs.old inputs.new }
{
    if is_pressed(inputs, win) {
        sink(alloc, screen, win)?;
    }
    inputs.enter(win.owner, win.number)?;
    Ok(nothing())
}

/// The pointer leaves a button: it has the relief that it had before it was pressed.
fn leave(
    alloc: Global,
    screen: &mut Screen,
    inputs: &mut Inputs,
    win: Win,
) -> Result<ClassOutcome, AllocError>
    ensures own { IfOk result (λ outcome. spec.told (own_of win.owner screen.new) (inputs_of.own_of win.owner inputs.new) outcome
        ≡ spec.pointer_left win.number (own_of win.owner screen.old) (inputs_of.own_of win.owner inputs.old)) }
    ensures screen { LeavesOthers win.owner screen.old screen.new }
    ensures inputs { inputs_of.LeavesOthers win.owner inputs.old inputs.new }
{
    if is_pressed(inputs, win) {
        restore(alloc, screen, inputs, win)?;
    }
    inputs.leave(win.owner, win.number)?;
    Ok(nothing())
}

/// A button is pressed, unless it is disabled: it is sunken, and its relief is kept.
fn press(
    alloc: Global,
    screen: &mut Screen,
    inputs: &mut Inputs,
    win: Win,
) -> Result<ClassOutcome, AllocError>
    ensures own { IfOk result (λ outcome. spec.told (own_of win.owner screen.new) (inputs_of.own_of win.owner inputs.new) outcome
        ≡ spec.pressed win.number (own_of win.owner screen.old) (inputs_of.own_of win.owner inputs.old)) }
    ensures screen { LeavesOthers win.owner screen.old screen.new }
    ensures inputs { inputs_of.LeavesOthers win.owner inputs.old inputs.new }
{
    if let Some(relief) = relief_to_keep(alloc, screen, win)? {
        sink(alloc, screen, win)?;
        inputs.press(win.owner, win.number, relief)?;
    }
    Ok(nothing())
}

/// A button is let go, if it is pressed: it has its relief again, and is invoked where the pointer is over it.
fn release(
    alloc: Global,
    screen: &mut Screen,
    inputs: &mut Inputs,
    win: Win,
) -> Result<ClassOutcome, AllocError>
    ensures own { IfOk result (λ outcome. spec.told (own_of win.owner screen.new) (inputs_of.own_of win.owner inputs.new) outcome
        ≡ spec.let_go win.number (own_of win.owner screen.old) (inputs_of.own_of win.owner inputs.old)) }
    ensures screen { LeavesOthers win.owner screen.old screen.new }
    ensures inputs { inputs_of.LeavesOthers win.owner inputs.old inputs.new }
{
    if !is_pressed(inputs, win) {
        return Ok(nothing());
    }
    restore(alloc, screen, inputs, win)?;
    inputs.release(win.owner)?;
    if is_over(inputs, win) {
        return invoke(alloc, screen, win);
    }
    Ok(nothing())
}

/// What `invoke` of a button does: nothing where it is disabled, and else it runs its command.
fn invoke(alloc: Global, screen: &Screen, win: Win) -> Result<ClassOutcome, AllocError>
    ensures { IfOk result (λ outcome. outcome ≡ spec.invoked_at win.number (own_of win.owner screen.now)) }
{
    let Some(widget) = screen.widget(win) else {
        return Ok(nothing());
    };
    match widget.invoked() {
        Some(script) => Ok(ClassOutcome::Acts(WidgetAct::Script(script.copy()?))),
        None => Ok(nothing()),
    }
}

/// Whether the button is pressed.
fn is_pressed(inputs: &Inputs, win: Win) -> bool
    ensures { result ≡ spec.is_it win.number (inputs_of.own_of win.owner inputs.now).pressed }
{
    is_it(win.number, inputs.pressed(win.owner))
}

/// Whether the pointer is over the button.
fn is_over(inputs: &Inputs, win: Win) -> bool
    ensures { result ≡ spec.is_it win.number (inputs_of.own_of win.owner inputs.now).over }
{
    is_it(win.number, inputs.over(win.owner))
}

/// Whether it is the button that is kept.
fn is_it(number: u64, kept: Option<u64>) -> bool
    ensures { result ≡ spec.is_it number kept }
{
    match kept {
        Some(other) => other == number,
        None => false,
    }
}

/// The relief of a button that can be pressed.
fn relief_to_keep(alloc: Global, screen: &Screen, win: Win) -> Result<Option<Text>, AllocError>
    ensures { IfOk result (λ relief. relief ≡ spec.relief_to_keep win.number (own_of win.owner screen.now)) }
{
    match screen.widget(win) {
        Some(button) => {
            if button.is_disabled() {
                return Ok(None);
            }
            Ok(Some(button.relief(alloc)?))
        }
        None => Ok(None),
    }
}

/// Makes the relief of a button sunken.
fn sink(alloc: Global, screen: &mut Screen, win: Win) -> Result<(), AllocError>
    ensures own { OnOk result (own_of win.owner screen.new ≡ spec.with_relief win.number (codes "sunken") (own_of win.owner screen.old)) }
    ensures others { LeavesOthers win.owner screen.old screen.new }
{
    put_relief(alloc, screen, win, Text::of_short(alloc, "sunken")?)
}

/// Gives a button the relief again that it had when it was pressed.
fn restore(alloc: Global, screen: &mut Screen, inputs: &Inputs, win: Win) -> Result<(), AllocError>
    ensures own { OnOk result (own_of win.owner screen.new
        ≡ spec.restored win.number (inputs_of.own_of win.owner inputs.now).relief (own_of win.owner screen.old)) }
    ensures others { LeavesOthers win.owner screen.old screen.new }
{
    if let Some(relief) = inputs.relief(win.owner) {
        put_relief(alloc, screen, win, relief.copy()?)?;
    }
    Ok(())
}

/// Gives a button a relief, as `configure -relief RELIEF` does.
fn put_relief(alloc: Global, screen: &mut Screen, win: Win, relief: Text) -> Result<(), AllocError>
    ensures own { OnOk result (own_of win.owner screen.new ≡ spec.with_relief win.number relief (own_of win.owner screen.old)) }
    ensures others { LeavesOthers win.owner screen.old screen.new }
{
    let Some(widget) = screen.widget(win) else {
        return Ok(());
    };
    match relief_settings(alloc, widget, relief)? {
        Some(all) => make(alloc, screen, win, WidgetChange::Configure(all)),
        None => Ok(()),
    }
}

/// What sets a widget's relief, if it takes that.
#[tactic(auto, unfolding(crate::specs::Buttons::relief_settings))]
fn relief_settings(
    alloc: Global,
    widget: &Widget,
    relief: Text,
) -> Result<Option<Settings>, AllocError>
    ensures { IfOk result (λ all. all ≡ spec.relief_settings relief widget.now) }
{
    let mut words = TextList::new(alloc);
    words.push(Text::of_short(alloc, "-relief")?)?;
    words.push(relief)?;
    match widget.options.settings(alloc, words.as_slice()) {
        Ok(all) => Ok(Some(all)),
        Err(OptionFault::NoMemory) => Err(AllocError),
        Err(_) => Ok(None),
    }
}
