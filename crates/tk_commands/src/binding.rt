//! The commands `bind`, `bindtags`, `event` and `focus`.
ghost use Rattle.std.specs.Prelude.{◌≡◌, IfOk};
ghost use Rattle.tk_panel.specs.Shared.{LeavesOthers, panel_of};
ghost use Rattle.tk_commands.specs.Binding as spec;
ghost use Rattle.tk_commands.specs.Outcomes.{told};
ghost use Rattle.tk_screen.specs.Shared as screens;

use crate::dispatch::generate;
use crate::outcome::{CommandOutcome, answering};
use std::alloc::{AllocError, Global};
use tcl_text::Text;
use tcl_text::message::Answer;
use tk_panel::Tables;
use tk_screen::MarkedScreen;

/// A command on what events do.
#[derive(Clone, Copy, Debug, PartialEq, Eq)]
pub enum BindingCommand {
    Bind,
    Bindtags,
    Event,
    Focus,
}

/// The one of a name.
#[tactic(auto, unfolding(crate::specs::Binding::binding_command_named))]
pub fn binding_command_named(name: &str) -> Option<BindingCommand>
    ensures { result ≡ spec.binding_command_named name.now }
{
    match name {
        "bind" => Some(BindingCommand::Bind),
        "bindtags" => Some(BindingCommand::Bindtags),
        "event" => Some(BindingCommand::Event),
        "focus" => Some(BindingCommand::Focus),
        _ => None,
    }
}

/// What one does, from the words behind its name.
#[tactic(auto, unfolding(crate::specs::Binding::binding_command_done))]
pub fn binding_command_done(
    tables: &mut Tables,
    slot: usize,
    command: BindingCommand,
    words: &[Text],
) -> Result<CommandOutcome, AllocError>
    ensures own { IfOk result (λ outcome. told (panel_of slot tables.new) outcome
        ≡ spec.binding_command_done command words.now (panel_of slot tables.old)) }
    ensures others { LeavesOthers slot tables.old tables.new }
{
    match command {
        BindingCommand::Bind => {
            let answer = bind(tables, slot, words)?;
            Ok(answering(answer))
        }
        BindingCommand::Bindtags => {
            let answer = bindtags(tables.alloc, &mut tables.screen, slot, words)?;
            Ok(answering(answer))
        }
        BindingCommand::Event => event(tables, slot, words),
        BindingCommand::Focus => {
            let answer = focus(tables, slot, words)?;
            Ok(answering(answer))
        }
    }
}

/// The command `bind` (bind(n)).
fn bind(tables: &mut Tables, slot: usize, words: &[Text]) -> Result<Answer, AllocError>
    ensures own { IfOk result (λ answer. (panel_of slot tables.new, answer) ≡ spec.bind_told words.now (panel_of slot tables.old)) }
    ensures others { LeavesOthers slot tables.old tables.new }
{
    tk_bind_commands::bind_command(
        tables.alloc,
        &tables.screen.shown().windows,
        &mut tables.bindings,
        slot,
        words,
    )
}

/// The command `bindtags` (bindtags(n)).
#[tactic(auto, using(tk_screen::proofs::KeptMarks::kept))]
fn bindtags(
    alloc: Global,
    marked: &mut MarkedScreen,
    slot: usize,
    words: &[Text],
) -> Result<Answer, AllocError>
    ensures own { IfOk result (λ answer. (screens.own_of slot marked.new, answer) ≡ spec.tags_told words.now (screens.own_of slot marked.old)) }
    ensures others { screens.LeavesOthers slot marked.old marked.new }
{
    marked.marks.forget(slot);
    tk_bind_commands::bindtags_command(alloc, &mut marked.screen.windows, slot, words)
}

/// The command `event` (event(n)).
#[tactic(auto, unfolding(crate::specs::Binding::event_told))]
fn event(tables: &mut Tables, slot: usize, words: &[Text]) -> Result<CommandOutcome, AllocError>
    ensures own { IfOk result (λ outcome. told (panel_of slot tables.new) outcome ≡ spec.event_told words.now (panel_of slot tables.old)) }
    ensures others { LeavesOthers slot tables.old tables.new }
{
    if let [name, rest @ ..] = words
        && name.as_str() == "generate"
    {
        return generate(tables, slot, rest);
    }
    let answer = virtual_event(tables, slot, words)?;
    Ok(answering(answer))
}

/// The forms of `event` but `generate`.
fn virtual_event(tables: &mut Tables, slot: usize, words: &[Text]) -> Result<Answer, AllocError>
    ensures own { IfOk result (λ answer. (panel_of slot tables.new, answer) ≡ spec.virtual_told words.now (panel_of slot tables.old)) }
    ensures others { LeavesOthers slot tables.old tables.new }
{
    tk_bind_commands::event_command(tables.alloc, &mut tables.virtuals, slot, words)
}

/// The command `focus` (focus(n)), at the moment.
fn focus(tables: &mut Tables, slot: usize, words: &[Text]) -> Result<Answer, AllocError>
    ensures own { IfOk result (λ answer. (panel_of slot tables.new, answer) ≡ spec.focus_told words.now (panel_of slot tables.old)) }
    ensures others { LeavesOthers slot tables.old tables.new }
{
    let moment = tables.clock.moment();
    tk_inputs::focus_command(
        tables.alloc,
        &tables.screen.shown().windows,
        &mut tables.inputs,
        &mut tables.queue,
        slot,
        moment,
        words,
    )
}
