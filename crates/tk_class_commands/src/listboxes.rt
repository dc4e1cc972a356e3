//! The commands of the class Listbox (listbox(n)).
ghost use Rattle.std.specs.Prelude.{◌≡◌, IfOk, OnOk};
ghost use Rattle.tk_class_commands.specs.Listboxes as spec;
ghost use Rattle.tk_inputs.specs.Shared.{arrivals_of};
ghost use Rattle.tk_inputs.specs.Shared as inputs_of;
ghost use Rattle.tk_dispatch.specs.Queue as queue_of;
ghost use Rattle.tk_screen.specs.Shared.{LeavesOthers, own_of};
ghost use Rattle.tk_widgets.specs.ListboxKeys.{place_after, row_of};

use crate::changes::make;
use crate::outcome::{ClassOutcome, nothing};
use std::alloc::{AllocError, Global};
use tk_base::Win;
use tk_dispatch::EventQueue;
use tk_inputs::{Inputs, set_focus};
use tk_options::OptionName;
use tk_screen::Screen;
use tk_widgets::{Choice, Listbox, Parts, RowStep, Widget, WidgetChange};

/// What a command asks of a listbox. Heights are in pixels, from the upper edge.
#[derive(Clone, Copy, Debug, PartialEq, Eq)]
pub enum ListboxRequest {
    Press(i64),
    Drag(i64),
    Step(RowStep),
    Choose,
}

/// What is to be done to a listbox.
#[derive(Clone, Copy)]
pub struct Effect {
    /// The place of the item that becomes active.
    pub active: usize,
    /// How it is selected; none where it isn't.
    pub choice: Option<Choice>,
}

/// What is done to a listbox. A press that does something gives it the keys.
#[tactic(auto, unfolding(crate::specs::Listboxes::listbox_asked))]
pub fn listbox_asked(
    alloc: Global,
    screen: &mut Screen,
    inputs: &mut Inputs,
    queue: &mut EventQueue,
    win: Win,
    moment: u64,
    request: ListboxRequest,
) -> Result<ClassOutcome, AllocError>
    ensures own { IfOk result (λ outcome. spec.told (own_of win.owner screen.new) (arrivals_of win.owner inputs.new queue.new) outcome
        ≡ spec.listbox_asked win.number moment request (own_of win.owner screen.old) (arrivals_of win.owner inputs.old queue.old)) }
    ensures screen { LeavesOthers win.owner screen.old screen.new }
    ensures inputs { inputs_of.LeavesOthers win.owner inputs.old inputs.new }
    ensures queue { queue_of.LeavesOthers win.owner queue.old queue.new }
{
    let Some(effect) = effect_at(screen, win, request) else {
        return Ok(nothing());
    };
    if is_press(request) {
        set_focus(&screen.windows, inputs, queue, win, moment)?;
    }
    take_effect(alloc, screen, win, effect)?;
    Ok(outcome_of(win.number, effect))
}

/// The item becomes active, and is selected if it is to be.
fn take_effect(
    alloc: Global,
    screen: &mut Screen,
    win: Win,
    effect: Effect,
) -> Result<(), AllocError>
    ensures own { OnOk result (own_of win.owner screen.new ≡ spec.with_effect win.number effect (own_of win.owner screen.old)) }
    ensures others { LeavesOthers win.owner screen.old screen.new }
{
    make(alloc, screen, win, WidgetChange::Activate(effect.active))?;
    match effect.choice {
        Some(choice) => make(alloc, screen, win, WidgetChange::Select(choice)),
        None => Ok(()),
    }
}

/// A selection that was made or toggled is to be told.
fn outcome_of(number: u64, effect: Effect) -> ClassOutcome
    ensures { result ≡ spec.outcome_of number effect.choice }
{
    match effect.choice {
        Some(_) => ClassOutcome::Selects(number),
        None => nothing(),
    }
}

/// What is to be done to the listbox of a window; none where nothing is.
fn effect_at(screen: &Screen, win: Win, request: ListboxRequest) -> Option<Effect>
    ensures { result ≡ spec.effect_at win.number request (own_of win.owner screen.now) }
{
    let widget = screen.widget(win)?;
    match &widget.parts {
        Parts::Listbox(listbox) => effect_on(widget, listbox, request),
        _ => None,
    }
}

fn effect_on(widget: &Widget, listbox: &Listbox, request: ListboxRequest) -> Option<Effect>
    ensures { result ≡ spec.effect_on request widget.now.options listbox.now }
{
    match request {
        ListboxRequest::Press(y) => pressed(widget, listbox, y),
        ListboxRequest::Drag(y) => dragged(widget, listbox, y),
        ListboxRequest::Step(step) => stepped(widget, listbox, step),
        ListboxRequest::Choose => active_selected(widget, listbox),
    }
}

/// The place of the item at a height, inside the border.
fn row_of(widget: &Widget, listbox: &Listbox, y: i64) -> usize
    ensures { result ≡ row_of y widget.now.options listbox.now }
{
    listbox.row(y, widget.options.amount(OptionName::BorderWidth))
}

/// A press at a height: the item there, unless there is none.
fn pressed(widget: &Widget, listbox: &Listbox, y: i64) -> Option<Effect>
    ensures { result ≡ spec.pressed y widget.now.options listbox.now }
{
    if listbox.size() == 0 {
        return None;
    }
    let row = row_of(widget, listbox, y);
    Some(Effect {
        active: row,
        choice: Some(choice_of(widget, row)),
    })
}

/// The pointer dragged to a height, in the mode `browse`: the item there, where it isn't the active one.
fn dragged(widget: &Widget, listbox: &Listbox, y: i64) -> Option<Effect>
    ensures { result ≡ spec.dragged y widget.now.options listbox.now }
{
    let row = row_of(widget, listbox, y);
    if !widget.is_browse() || row == listbox.active() {
        return None;
    }
    Some(Effect {
        active: row,
        choice: Some(Choice::Alone { place: row }),
    })
}

/// A step from the active item, where there is another; in the mode `browse` it is the selection.
fn stepped(widget: &Widget, listbox: &Listbox, step: RowStep) -> Option<Effect>
    ensures { result ≡ spec.stepped step widget.now.options listbox.now }
{
    let place = place_after(listbox, step);
    if place == listbox.active() {
        return None;
    }
    let choice = if widget.is_browse() {
        Some(Choice::Alone { place })
    } else {
        None
    };
    Some(Effect {
        active: place,
        choice,
    })
}

/// The active item, unless there is none.
fn active_selected(widget: &Widget, listbox: &Listbox) -> Option<Effect>
    ensures { result ≡ spec.active_selected widget.now.options listbox.now }
{
    if listbox.size() == 0 {
        return None;
    }
    let active = listbox.active();
    Some(Effect {
        active,
        choice: Some(choice_of(widget, active)),
    })
}

/// How an item is selected: in the mode `multiple` it is toggled, else it is the selection.
fn choice_of(widget: &Widget, place: usize) -> Choice
    ensures { result ≡ spec.choice_of place widget.now.options }
{
    if widget.is_multiple() {
        Choice::Toggle { place }
    } else {
        Choice::Alone { place }
    }
}

/// The place a step further, or that of the active item where there is none.
fn place_after(listbox: &Listbox, step: RowStep) -> usize
    ensures { result ≡ place_after step listbox.now }
{
    let last = listbox.size().saturating_sub(1);
    match step {
        RowStep::Up => listbox.active().saturating_sub(1),
        RowStep::Down => listbox.active().saturating_add(1).min(last),
    }
}

fn is_press(request: ListboxRequest) -> bool
    ensures { result ≡ spec.is_press request }
{
    matches!(request, ListboxRequest::Press(_))
}
