//! Events that commands dispatch at once, or queue.
ghost use Rattle.std.specs.Prelude.{◌≡◌, IfOk, codes};
ghost use Rattle.tk_panel.specs.Shared.{LeavesOthers, panel_of};
ghost use Rattle.tk_commands.specs.Dispatch as spec;
ghost use Rattle.tk_commands.specs.Outcomes.{told};
ghost use Rattle.tk_tree.specs.Own.{window_at};
ghost use Rattle.tk_tree.specs.Shared as windows_of;

use crate::outcome::{Begun, CommandOutcome};
use std::alloc::{AllocError, Global};
use tcl_text::Text;
use tcl_text::message::short_text;
use tk_base::Win;
use tk_generate::{Generated, When, generate_command};
use tk_panel::Tables;
use tk_sequences::{Event, EventKind, VirtualName};
use tk_tree::Windows;
use tk_widgets::WidgetAct;

/// `event generate` (event(n)), with the words behind `generate`.
#[tactic(auto, unfolding(crate::specs::Dispatch::generate_told))]
pub fn generate(
    tables: &mut Tables,
    slot: usize,
    words: &[Text],
) -> Result<CommandOutcome, AllocError>
    ensures own { IfOk result (λ outcome. told (panel_of slot tables.new) outcome ≡ spec.generate_told words.now (panel_of slot tables.old)) }
    ensures others { LeavesOthers slot tables.old tables.new }
{
    let answer = generate_command(
        tables.alloc,
        &tables.screen.shown().windows,
        slot,
        tables.inputs.focus(slot),
        tables.queue.count(slot),
        tables.clock.moment(),
        words,
    )?;
    match answer {
        Ok(generated) => arrive(tables, slot, generated),
        Err(text) => Ok(CommandOutcome::Acts(WidgetAct::Fault(text))),
    }
}

/// A generated event comes at once, or waits behind all others or before them.
fn arrive(
    tables: &mut Tables,
    slot: usize,
    generated: Generated,
) -> Result<CommandOutcome, AllocError>
    ensures own { IfOk result (λ outcome. told (panel_of slot tables.new) outcome
        ≡ spec.generated_by_when generated.when generated.event (panel_of slot tables.old)) }
    ensures others { LeavesOthers slot tables.old tables.new }
{
    let Generated { event, when } = generated;
    let nothing = WidgetAct::Answer(Text::empty());
    match when {
        When::Now => Ok(CommandOutcome::Begins(Begun::Dispatches(event))),
        When::Tail => {
            tables.queue.push_tail(slot, event)?;
            Ok(CommandOutcome::Acts(nothing))
        }
        When::Head => {
            tables.queue.push_head(slot, event)?;
            Ok(CommandOutcome::Acts(nothing))
        }
    }
}

/// `<<ListboxSelect>>` comes at once to the listbox with a number (listbox(n)).
pub fn dispatch_selection(
    tables: &Tables,
    slot: usize,
    number: u64,
) -> Result<CommandOutcome, AllocError>
    ensures { IfOk result (λ outcome. told (panel_of slot tables.now) outcome ≡ spec.selection_told number (panel_of slot tables.now)) }
{
    let moment = tables.clock.moment();
    match selection_event(
        tables.alloc,
        &tables.screen.shown().windows,
        slot,
        number,
        moment,
    )? {
        Some(event) => Ok(CommandOutcome::Begins(Begun::Dispatches(event))),
        None => Ok(CommandOutcome::Acts(WidgetAct::Answer(Text::empty()))),
    }
}

/// The event `<<ListboxSelect>>` of a window, if it is there.
fn selection_event(
    alloc: Global,
    windows: &Windows,
    slot: usize,
    number: u64,
    moment: u64,
) -> Result<Option<Event>, AllocError>
    ensures { IfOk result (λ event. event ≡ spec.selection_of moment (window_at number (windows_of.own_of slot windows.now))) }
{
    let Some(window) = windows.window(Win {
        owner: slot,
        number,
    }) else {
        return Ok(None);
    };
    let kind = EventKind::Virtual(selection_name(alloc)?);
    Ok(Some(Event::new(kind, window.number, window.path.copy()?, moment)))
}

/// The name of the event of a listbox that has another selection.
#[tactic(auto, unfolding(tk_sequences::specs::Words::name_in))]
fn selection_name(alloc: Global) -> Result<VirtualName, AllocError>
    ensures { IfOk result (λ name. name ≡ codes "ListboxSelect") }
{
    let text = short_text(alloc, "<<ListboxSelect>>")?;
    match VirtualName::parse(alloc, &text)? {
        Some(name) => Ok(name),
        None => Err(AllocError),
    }
}
