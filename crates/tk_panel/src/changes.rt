//! Layout, and the events that it queues (pack(n), bind(n)).
ghost use Rattle.std.specs.Prelude.{◌≡◌, OnOk, IfOk};
ghost use Rattle.tk_panel.specs.Changes.{configure_event, event_of, laid_out, number_of, in_pixels, window_event, with_event_of, with_events_of};
ghost use Rattle.tk_panel.specs.Shared.{LeavesOthers, panel_of};

use crate::tables::Tables;
use std::alloc::AllocError;
use tcl_vars::Scopes;
use tk_base::{Rect, Win};
use tk_packer::PlaceChange;
use tk_sequences::{Event, EventKind, EventType};
use tk_tree::Window;

/// An event of a window, without fields.
fn window_event(kind: EventType, window: &Window, moment: u64) -> Result<Event, AllocError>
    ensures { IfOk result (λ event. event ≡ window_event kind window.now moment) }
{
    let path = window.path.copy()?;
    Ok(Event::new(EventKind::Physical(kind), window.number, path, moment))
}

fn in_pixels(x: u32) -> Option<i32>
    ensures { result ≡ in_pixels x }
{
    match i32::try_from(x) {
        Ok(x) => Some(x),
        Err(_) => None,
    }
}

/// The event of a window that has another rectangle.
fn configure_event(window: &Window, rect: Rect, moment: u64) -> Result<Event, AllocError>
    ensures { IfOk result (λ event. event ≡ configure_event window.now rect moment) }
{
    let mut event = window_event(EventType::Configure, window, moment)?;
    event.x = in_pixels(rect.x);
    event.y = in_pixels(rect.y);
    event.width = Some(rect.width);
    event.height = Some(rect.height);
    Ok(event)
}

/// The event of what became of a window.
fn event_of(change: PlaceChange, window: &Window, moment: u64) -> Result<Event, AllocError>
    ensures { IfOk result (λ event. event ≡ event_of change window.now moment) }
{
    match change {
        PlaceChange::Unmap(_) => window_event(EventType::Unmap, window, moment),
        PlaceChange::Configure(_, rect) => configure_event(window, rect, moment),
        PlaceChange::Map(_) => window_event(EventType::Map, window, moment),
    }
}

fn number_of(change: PlaceChange) -> u64
    ensures { result ≡ number_of change }
{
    match change {
        PlaceChange::Unmap(number) | PlaceChange::Configure(number, _) | PlaceChange::Map(number) =>
            number,
    }
}

/// Queues the event of a change.
fn queue_change(tables: &mut Tables, slot: usize, change: PlaceChange) -> Result<(), AllocError>
    ensures own { OnOk result (panel_of slot tables.new ≡ with_event_of change (panel_of slot tables.old)) }
    ensures others { LeavesOthers slot tables.old tables.new }
{
    let win = Win {
        owner: slot,
        number: number_of(change),
    };
    match tables.screen.shown().windows.window(win) {
        None => Ok(()),
        Some(window) => {
            let event = event_of(change, window, tables.clock.moment())?;
            tables.queue.push_tail(slot, event)
        }
    }
}

/// Queues the events of changes, in their order.
#[tactic(auto, unfolding(crate::specs::Changes::with_events_of))]
fn queue_changes(
    tables: &mut Tables,
    slot: usize,
    changes: &[PlaceChange],
) -> Result<(), AllocError>
    ensures own { OnOk result (panel_of slot tables.new ≡ with_events_of changes.now (panel_of slot tables.old)) }
    ensures others { LeavesOthers slot tables.old tables.new }
{
    let mut rest = changes;
    while let Some((change, later)) = rest.split_first() {
        queue_change(tables, slot, *change)?;
        rest = later;
    }
    Ok(())
}

/// Lays out the windows of an application, and queues what that changes.
#[tactic(auto, unfolding(crate::specs::Changes::laid_out))]
pub fn lay_out(tables: &mut Tables, slot: usize, scopes: &Scopes) -> Result<(), AllocError>
    ensures own { OnOk result (panel_of slot tables.new ≡ laid_out scopes.now (panel_of slot tables.old)) }
    ensures others { LeavesOthers slot tables.old tables.new }
{
    let changes = tables.screen.lay_out(tables.alloc, slot, scopes)?;
    queue_changes(tables, slot, changes.as_slice())
}
