//! What lines of the session give an application.
ghost use Rattle.std.specs.Prelude.{◌≡◌, OnOk};
ghost use Rattle.tk_panel.specs.Deliver.{delivered_panel, with_rectangle};
ghost use Rattle.tk_panel.specs.Shared.{LeavesOthers, panel_of};

use crate::tables::Tables;
use std::alloc::AllocError;
use tk_base::{LocalEvent, LocalKind};

/// What a line gives an application: the events that it queues, at once, and the size of its rectangle. The event's moment is its own; the keys and
/// the pointer are as `tk_inputs` has them.
#[tactic(auto, unfolding(crate::specs::Deliver::delivered_panel))]
pub fn deliver(tables: &mut Tables, slot: usize, event: LocalEvent) -> Result<(), AllocError>
    ensures own { OnOk result (panel_of slot tables.new ≡ delivered_panel event (panel_of slot tables.old)) }
    ensures others { LeavesOthers slot tables.old tables.new }
{
    let kind = event.kind;
    tk_inputs::deliver(
        tables.alloc,
        &tables.screen.shown().windows,
        &mut tables.inputs,
        &mut tables.queue,
        slot,
        event,
    )?;
    set_rectangle(tables, slot, kind);
    Ok(())
}

/// The rectangle has another size, if this says so.
fn set_rectangle(tables: &mut Tables, slot: usize, kind: LocalKind)
    ensures own { panel_of slot tables.new ≡ with_rectangle kind (panel_of slot tables.old) }
    ensures others { LeavesOthers slot tables.old tables.new }
{
    if let LocalKind::Size { width, height } = kind {
        tables.screen.set_size(slot, (width, height));
    }
}
