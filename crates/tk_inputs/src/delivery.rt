//! What lines give an application.
ghost use Rattle.std.specs.Prelude.{◌≡◌, ◌++◌, true, false, IfOk, OnOk};
ghost use Rattle.std.specs.List.{flat_map};
ghost use Rattle.tk_inputs.specs.Deliver as spec;
ghost use Rattle.tk_inputs.specs.Shared as inputs_of;
ghost use Rattle.tk_inputs.specs.Shared.{arrivals_of};
ghost use Rattle.tk_dispatch.specs.Queue as queue_of;
ghost use Rattle.tk_tree.specs.Shared as tree_of;

use crate::PointerEvent;
use crate::events::{PointerLine, key_event, plain_event, pointer_event};
use crate::inputs::Inputs;
use std::alloc::{AllocError, Global};
use tk_base::{Keysym, LocalEvent, LocalKind, Win};
use tk_dispatch::EventQueue;
use tk_sequences::EventType;
use tk_tree::Windows;

/// What a line of the session gives an application: the events that it queues, at once, with the windows as they are then. The keys go to the
/// focus window, and so does what is told of the host's focus; positions, presses and releases go to windows as `tk_inputs` has it, where a
/// point outside of the main window is in no window. A new size queues nothing here: who calls this sets it.
///
/// After want of memory the application may have got some of the events.
#[tactic(auto, unfolding(crate::specs::Deliver::arrived))]
pub fn deliver(
    alloc: Global,
    windows: &Windows,
    inputs: &mut Inputs,
    queue: &mut EventQueue,
    slot: usize,
    event: LocalEvent,
) -> Result<(), AllocError>
    ensures own { OnOk result (arrivals_of slot inputs.new queue.new
        ≡ spec.arrived event (tree_of.own_of slot windows.now) (arrivals_of slot inputs.old queue.old)) }
    ensures inputs { inputs_of.LeavesOthers slot inputs.old inputs.new }
    ensures queue { queue_of.LeavesOthers slot queue.old queue.new }
{
    let LocalEvent {
        moment,
        state,
        kind,
    } = event;
    match kind {
        LocalKind::Position { x, y } => {
            let line = PointerLine {
                moment,
                state,
                x,
                y,
            };
            move_pointer(alloc, windows, inputs, queue, slot, line)
        }
        LocalKind::Press { button, x, y } => {
            let line = PointerLine {
                moment,
                state,
                x,
                y,
            };
            press_button(alloc, windows, inputs, queue, slot, button, line)
        }
        LocalKind::Release { button, x, y } => {
            let line = PointerLine {
                moment,
                state,
                x,
                y,
            };
            release_button(alloc, windows, inputs, queue, slot, button, line)
        }
        LocalKind::FocusIn => { take_focus(windows, inputs, queue, slot, true, moment) }
        LocalKind::FocusOut => { take_focus(windows, inputs, queue, slot, false, moment) }
        LocalKind::Size { .. } => Ok(()),
        LocalKind::Keydown(key) => {
            let line = KeyLine { moment, state, key };
            queue_key(
                windows,
                queue,
                slot,
                inputs.focus(slot),
                EventType::Key,
                line,
            )
        }
        LocalKind::Keyup(key) => {
            let line = KeyLine { moment, state, key };
            queue_key(
                windows,
                queue,
                slot,
                inputs.focus(slot),
                EventType::KeyRelease,
                line,
            )
        }
    }
}

/// What a line of the keyboard says to an application.
#[derive(Clone, Copy)]
pub struct KeyLine {
    /// In milliseconds.
    pub moment: u64,
    /// The modifiers and buttons that were held before the line, as `%s` tells them.
    pub state: u16,
    pub key: Keysym,
}

/// Queues the event of a key for a window, if it is there.
fn queue_key(
    windows: &Windows,
    queue: &mut EventQueue,
    slot: usize,
    number: u64,
    kind: EventType,
    line: KeyLine,
) -> Result<(), AllocError>
    ensures own { OnOk result (queue_of.own_of slot queue.new
        ≡ queue_of.own_of slot queue.old ++ spec.key_events kind line number (tree_of.own_of slot windows.now)) }
    ensures others { queue_of.LeavesOthers slot queue.old queue.new }
{
    let win = Win {
        owner: slot,
        number,
    };
    match windows.window(win) {
        Some(window) => {
            let event = key_event(kind, line.key, window, line.moment, line.state)?;
            queue.push_tail(slot, event)
        }
        None => Ok(()),
    }
}

/// Queues an event without fields for a window, if it is there.
pub fn queue_plain(
    windows: &Windows,
    queue: &mut EventQueue,
    slot: usize,
    number: u64,
    kind: EventType,
    moment: u64,
) -> Result<(), AllocError>
    ensures own { OnOk result (queue_of.own_of slot queue.new
        ≡ queue_of.own_of slot queue.old ++ spec.plain_events kind moment number (tree_of.own_of slot windows.now)) }
    ensures others { queue_of.LeavesOthers slot queue.old queue.new }
{
    let win = Win {
        owner: slot,
        number,
    };
    match windows.window(win) {
        Some(window) => {
            let event = plain_event(kind, window, moment)?;
            queue.push_tail(slot, event)
        }
        None => Ok(()),
    }
}

/// The application gets the host's focus, or loses it.
fn take_focus(
    windows: &Windows,
    inputs: &mut Inputs,
    queue: &mut EventQueue,
    slot: usize,
    has_focus: bool,
    moment: u64,
) -> Result<(), AllocError>
    ensures own { OnOk result (arrivals_of slot inputs.new queue.new
        ≡ spec.focus_taken has_focus moment (tree_of.own_of slot windows.now) (arrivals_of slot inputs.old queue.old)) }
    ensures inputs { inputs_of.LeavesOthers slot inputs.old inputs.new }
    ensures queue { queue_of.LeavesOthers slot queue.old queue.new }
{
    let kind = if has_focus {
        EventType::FocusIn
    } else {
        EventType::FocusOut
    };
    queue_plain(windows, queue, slot, inputs.focus(slot), kind, moment)?;
    inputs.set_has_focus(slot, has_focus)
}

/// The way to a window; nothing where there is none.
fn way_of(
    alloc: Global,
    windows: &Windows,
    slot: usize,
    window: Option<u64>,
) -> Result<Vec<u64>, AllocError>
    ensures { IfOk result (λ way. way.items ≡ spec.way_of window (tree_of.own_of slot windows.now)) }
{
    match window {
        Some(number) => windows.way_to(Win {
            owner: slot,
            number,
        }),
        None => Ok(Vec::new(alloc)),
    }
}

/// The way to the window under a point.
fn way_under(
    alloc: Global,
    windows: &Windows,
    slot: usize,
    x: i32,
    y: i32,
) -> Result<Vec<u64>, AllocError>
    ensures { IfOk result (λ way. way.items ≡ spec.way_under x y (tree_of.own_of slot windows.now)) }
{
    if x < 0 || y < 0 {
        Ok(Vec::new(alloc))
    } else {
        windows.way_at(slot, x as u32, y as u32)
    }
}

/// The pointer is at a point.
fn move_pointer(
    alloc: Global,
    windows: &Windows,
    inputs: &mut Inputs,
    queue: &mut EventQueue,
    slot: usize,
    line: PointerLine,
) -> Result<(), AllocError>
    ensures own { OnOk result (arrivals_of slot inputs.new queue.new
        ≡ spec.moved_by line (tree_of.own_of slot windows.now) (arrivals_of slot inputs.old queue.old)) }
    ensures inputs { inputs_of.LeavesOthers slot inputs.old inputs.new }
    ensures queue { queue_of.LeavesOthers slot queue.old queue.new }
{
    let mut pointer = inputs.pointer(slot);
    let way = way_of(alloc, windows, slot, pointer.window)?;
    let under = way_under(alloc, windows, slot, line.x, line.y)?;
    let told = pointer.moved(alloc, way.as_slice(), under.as_slice())?;
    queue_told(alloc, windows, queue, slot, line, told.as_slice())?;
    inputs.set_pointer(slot, pointer)
}

/// A button is pressed at a point.
fn press_button(
    alloc: Global,
    windows: &Windows,
    inputs: &mut Inputs,
    queue: &mut EventQueue,
    slot: usize,
    button: u32,
    line: PointerLine,
) -> Result<(), AllocError>
    ensures own { OnOk result (arrivals_of slot inputs.new queue.new
        ≡ spec.pressed_by button line (tree_of.own_of slot windows.now) (arrivals_of slot inputs.old queue.old)) }
    ensures inputs { inputs_of.LeavesOthers slot inputs.old inputs.new }
    ensures queue { queue_of.LeavesOthers slot queue.old queue.new }
{
    let mut pointer = inputs.pointer(slot);
    let way = way_of(alloc, windows, slot, pointer.window)?;
    let under = way_under(alloc, windows, slot, line.x, line.y)?;
    let told = pointer.pressed(alloc, button, way.as_slice(), under.as_slice())?;
    queue_told(alloc, windows, queue, slot, line, told.as_slice())?;
    inputs.set_pointer(slot, pointer)
}

/// A button is released at a point.
fn release_button(
    alloc: Global,
    windows: &Windows,
    inputs: &mut Inputs,
    queue: &mut EventQueue,
    slot: usize,
    button: u32,
    line: PointerLine,
) -> Result<(), AllocError>
    ensures own { OnOk result (arrivals_of slot inputs.new queue.new
        ≡ spec.released_by button line (tree_of.own_of slot windows.now) (arrivals_of slot inputs.old queue.old)) }
    ensures inputs { inputs_of.LeavesOthers slot inputs.old inputs.new }
    ensures queue { queue_of.LeavesOthers slot queue.old queue.new }
{
    let mut pointer = inputs.pointer(slot);
    let way = way_of(alloc, windows, slot, pointer.window)?;
    let under = way_under(alloc, windows, slot, line.x, line.y)?;
    let told = pointer.released(alloc, button, way.as_slice(), under.as_slice())?;
    queue_told(alloc, windows, queue, slot, line, told.as_slice())?;
    inputs.set_pointer(slot, pointer)
}

/// Queues what windows are told of the pointer, in this order.
fn queue_told(
    alloc: Global,
    windows: &Windows,
    queue: &mut EventQueue,
    slot: usize,
    line: PointerLine,
    told: &[PointerEvent],
) -> Result<(), AllocError>
    ensures own { OnOk result (queue_of.own_of slot queue.new
        ≡ queue_of.own_of slot queue.old ++ flat_map (spec.told_events line (tree_of.own_of slot windows.now)) told.now) }
    ensures others { queue_of.LeavesOthers slot queue.old queue.new }
{
    for event in told {
        queue_one(alloc, windows, queue, slot, line, *event)?;
    }
    Ok(())
}

/// Queues what a window is told of the pointer, if it is there.
fn queue_one(
    alloc: Global,
    windows: &Windows,
    queue: &mut EventQueue,
    slot: usize,
    line: PointerLine,
    told: PointerEvent,
) -> Result<(), AllocError>
    ensures own { OnOk result (queue_of.own_of slot queue.new
        ≡ queue_of.own_of slot queue.old ++ spec.told_events line (tree_of.own_of slot windows.now) told) }
    ensures others { queue_of.LeavesOthers slot queue.old queue.new }
{
    let win = Win {
        owner: slot,
        number: told.window,
    };
    match windows.window(win) {
        Some(window) => {
            let event = pointer_event(alloc, line, told.kind, window, windows.corner(win))?;
            queue.push_tail(slot, event)
        }
        None => Ok(()),
    }
}
