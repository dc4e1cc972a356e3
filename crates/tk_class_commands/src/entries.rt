//! What keys and the pointer do to entries (entry(n)).
ghost use Rattle.std.specs.Prelude.{◌≡◌, IfOk, OnOk};
ghost use Rattle.std.specs.Option.{option_copied};
ghost use Rattle.tk_class_commands.specs.Entries as spec;
ghost use Rattle.tk_class_commands.specs.Outcomes.{done};
ghost use Rattle.tk_inputs.specs.Shared.{arrivals_of};
ghost use Rattle.tk_inputs.specs.Shared as inputs_of;
ghost use Rattle.tk_dispatch.specs.Queue as queue_of;
ghost use Rattle.tk_screen.specs.Shared.{LeavesOthers, own_of};
ghost use Rattle.tk_widgets.specs.Classes.{columns_to};

use crate::changes::make;
use crate::outcome::{ClassOutcome, nothing, outcome_of};
use std::alloc::{AllocError, Global};
use tcl_text::Text;
use tcl_vars::Scopes;
use tk_base::Win;
use tk_dispatch::EventQueue;
use tk_inputs::{Inputs, set_focus};
use tk_options::{OptionName, OptionTable};
use tk_screen::{Screen, change_widget, variable_text};
use tk_widgets::{Entry, EntryEdit, Move, Parts, Widget, WidgetChange, WidgetRequest};

/// The width of a column, in pixels.
const COLUMN: usize = 8;

/// What a command asks of an entry.
#[derive(Drop)]
pub enum EntryRequest {
    /// An edit by a key.
    Edit(EntryEdit),
    /// The cursor goes by a key.
    Move(Move),
    /// The entry is pressed, so many pixels from its left edge.
    Point(i64),
}

/// How a cursor goes.
#[derive(Clone, Copy)]
pub enum CursorMove {
    /// By a key.
    By(Move),
    /// To the pointer, so many pixels from the left edge.
    To(i64),
}

/// What is done to an entry, at a moment in milliseconds.
pub fn entry_asked(
    alloc: Global,
    screen: &mut Screen,
    inputs: &mut Inputs,
    queue: &mut EventQueue,
    scopes: &mut Scopes,
    win: Win,
    moment: u64,
    request: EntryRequest,
) -> Result<ClassOutcome, AllocError>
    ensures own { IfOk result (λ outcome. done (own_of win.owner screen.new) (arrivals_of win.owner inputs.new queue.new) scopes.new outcome
        ≡ spec.entry_asked win.number moment request (own_of win.owner screen.old) (arrivals_of win.owner inputs.old queue.old) scopes.old) }
    ensures screen { LeavesOthers win.owner screen.old screen.new }
    ensures inputs { inputs_of.LeavesOthers win.owner inputs.old inputs.new }
    ensures queue { queue_of.LeavesOthers win.owner queue.old queue.new }
{
    match request {
        EntryRequest::Edit(key) => edit(alloc, screen, scopes, win, key),
        EntryRequest::Move(way) => {
            move_cursor(alloc, screen, scopes, win, CursorMove::By(way))?;
            Ok(nothing())
        }
        EntryRequest::Point(x) => point(alloc, screen, inputs, queue, scopes, win, moment, x),
    }
}

/// An edit by a key, with the variable that the entry shows.
fn edit(
    alloc: Global,
    screen: &mut Screen,
    scopes: &mut Scopes,
    win: Win,
    key: EntryEdit,
) -> Result<ClassOutcome, AllocError>
    ensures own { IfOk result (λ outcome. spec.told (own_of win.owner screen.new) scopes.new outcome
        ≡ spec.edited win.number key (own_of win.owner screen.old) scopes.old) }
    ensures others { LeavesOthers win.owner screen.old screen.new }
{
    let Some(widget) = screen.widget(win) else {
        return Ok(nothing());
    };
    match widget.ask_edit(alloc, variable_text(widget, scopes), &key)? {
        WidgetRequest::Done(act) => Ok(outcome_of(Some(act))),
        WidgetRequest::Wants(change) => {
            let act = change_widget(alloc, screen, scopes, win, change)?;
            Ok(outcome_of(act))
        }
    }
}

/// Puts the cursor of an entry behind so many characters.
fn put_cursor(
    alloc: Global,
    screen: &mut Screen,
    win: Win,
    at: Option<usize>,
) -> Result<(), AllocError>
    ensures own { OnOk result (own_of win.owner screen.new ≡ spec.with_cursor win.number at (own_of win.owner screen.old)) }
    ensures others { LeavesOthers win.owner screen.old screen.new }
{
    match at {
        Some(at) => make(alloc, screen, win, WidgetChange::PutCursor(at)),
        None => Ok(()),
    }
}

/// Behind how many characters the cursor comes; nowhere where the widget is no entry.
fn place_of(widget: &Widget, scopes: &Scopes, how: CursorMove) -> Result<Option<usize>, AllocError>
    ensures { IfOk result (λ at. at ≡ spec.place_of how scopes.now widget.now) }
{
    match &widget.parts {
        Parts::Entry(entry) => {
            let at = place_in(&widget.options, entry, variable_text(widget, scopes), how)?;
            Ok(Some(at))
        }
        _ => Ok(None),
    }
}

/// Behind how many characters the cursor of an entry comes that shows this text of a variable.
fn place_in(
    options: &OptionTable,
    entry: &Entry,
    variable: Option<&Text>,
    how: CursorMove,
) -> Result<usize, AllocError>
    ensures { IfOk result (λ at. at ≡ spec.place_in how (option_copied variable.entry) options.now entry.now) }
{
    let mut moved = copy_of(entry)?;
    match how {
        CursorMove::By(way) => moved.move_cursor(variable, way),
        CursorMove::To(x) => {
            let room = columns_to(x, options.amount(OptionName::BorderWidth));
            moved.point(variable, room);
        }
    }
    Ok(moved.cursor)
}

/// How many columns stand to the left of so many pixels, inside a border.
fn columns_to(x: i64, border: u32) -> usize
    ensures { result ≡ columns_to x border }
{
    usize::try_from(x)
        .unwrap_or(0)
        .saturating_sub(border as usize)
        / COLUMN
}

/// A copy of an entry.
fn copy_of(entry: &Entry) -> Result<Entry, AllocError>
    ensures { IfOk result (λ copy. copy ≡ entry.now) }
{
    Ok(Entry {
        text: entry.text.copy()?,
        cursor: entry.cursor,
    })
}

/// The cursor of an entry goes by a key or to the pointer.
fn move_cursor(
    alloc: Global,
    screen: &mut Screen,
    scopes: &Scopes,
    win: Win,
    how: CursorMove,
) -> Result<(), AllocError>
    ensures own { OnOk result (own_of win.owner screen.new ≡ spec.moved_at win.number how (own_of win.owner screen.old) scopes.now) }
    ensures others { LeavesOthers win.owner screen.old screen.new }
{
    let Some(widget) = screen.widget(win) else {
        return Ok(());
    };
    let at = place_of(widget, scopes, how)?;
    put_cursor(alloc, screen, win, at)
}

/// An entry is pressed, unless it is disabled: it gets the keys, and its cursor goes to the pointer.
fn point(
    alloc: Global,
    screen: &mut Screen,
    inputs: &mut Inputs,
    queue: &mut EventQueue,
    scopes: &Scopes,
    win: Win,
    moment: u64,
    x: i64,
) -> Result<ClassOutcome, AllocError>
    ensures own { IfOk result (λ outcome. done (own_of win.owner screen.new) (arrivals_of win.owner inputs.new queue.new) scopes.now outcome
        ≡ spec.pointed win.number moment x (own_of win.owner screen.old) (arrivals_of win.owner inputs.old queue.old) scopes.now) }
    ensures screen { LeavesOthers win.owner screen.old screen.new }
    ensures inputs { inputs_of.LeavesOthers win.owner inputs.old inputs.new }
    ensures queue { queue_of.LeavesOthers win.owner queue.old queue.new }
{
    if is_disabled(screen, win) {
        return Ok(nothing());
    }
    set_focus(&screen.windows, inputs, queue, win, moment)?;
    move_cursor(alloc, screen, scopes, win, CursorMove::To(x))?;
    Ok(nothing())
}

/// Whether it is an entry that takes no part in anything.
fn is_disabled(screen: &Screen, win: Win) -> bool
    ensures { result ≡ spec.is_disabled_at win.number (own_of win.owner screen.now) }
{
    match screen.widget(win) {
        Some(entry) => entry.is_disabled(),
        None => false,
    }
}
