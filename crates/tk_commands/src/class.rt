//! The commands that class bindings run.
ghost use Rattle.std.specs.Prelude.{◌≡◌, IfOk};
ghost use Rattle.tk_class_commands.specs.Commands as class_of;
ghost use Rattle.tk_class_commands.specs.Named.{IsNumbered};
ghost use Rattle.tk_class_commands.specs.Outcomes as outcomes_of;
ghost use Rattle.tk_inputs.specs.Shared.{arrivals_of};
ghost use Rattle.tk_inputs.specs.Shared as inputs_of;
ghost use Rattle.tk_panel.specs.Shared.{LeavesOthers, panel_of};
ghost use Rattle.tk_commands.specs.Class as spec;
ghost use Rattle.tk_commands.specs.Outcomes.{done, told};
ghost use Rattle.tk_dispatch.specs.Queue as queue_of;
ghost use Rattle.tk_screen.specs.Shared as screens;
ghost use Rattle.tk_tree.specs.Shared as trees;

use crate::dispatch::dispatch_selection;
use crate::outcome::CommandOutcome;
use crate::path::number_of;
use std::alloc::{AllocError, Global};
use tcl_text::Text;
use tcl_vars::Scopes;
use tk_class_commands::{ClassCommand, ClassOutcome};
use tk_dispatch::EventQueue;
use tk_inputs::Inputs;
use tk_panel::Tables;
use tk_screen::MarkedScreen;
use tk_tree::Windows;

/// What one does, from the words behind its name, at the moment.
#[tactic(auto, unfolding(crate::specs::Class::class_told))]
pub fn class_command_done(
    tables: &mut Tables,
    slot: usize,
    scopes: &mut Scopes,
    command: &ClassCommand,
    words: &[Text],
) -> Result<CommandOutcome, AllocError>
    ensures own { IfOk result (λ outcome. done (panel_of slot tables.new) scopes.new outcome
        ≡ spec.class_told command.now words.now (panel_of slot tables.old) scopes.old) }
    ensures others { LeavesOthers slot tables.old tables.new }
{
    let outcome = class_command(tables, slot, scopes, command, words)?;
    outcome_for(tables, slot, outcome)
}

/// The same, but that a selection that was made isn't told yet.
fn class_command(
    tables: &mut Tables,
    slot: usize,
    scopes: &mut Scopes,
    command: &ClassCommand,
    words: &[Text],
) -> Result<ClassOutcome, AllocError>
    ensures own { IfOk result (λ outcome. spec.class_done (panel_of slot tables.new) scopes.new outcome
        ≡ spec.class_command command.now words.now (panel_of slot tables.old) scopes.old) }
    ensures others { LeavesOthers slot tables.old tables.new }
{
    let moment = tables.clock.moment();
    shown_command(
        tables.alloc,
        &mut tables.screen,
        &mut tables.inputs,
        &mut tables.queue,
        scopes,
        slot,
        moment,
        command,
        words,
    )
}

/// The same, on the screen with marks.
#[tactic(auto, using(tk_screen::proofs::KeptMarks::kept))]
fn shown_command(
    alloc: Global,
    marked: &mut MarkedScreen,
    inputs: &mut Inputs,
    queue: &mut EventQueue,
    scopes: &mut Scopes,
    slot: usize,
    moment: u64,
    command: &ClassCommand,
    words: &[Text],
) -> Result<ClassOutcome, AllocError>
    ensures own { IfOk result (λ outcome. outcomes_of.done (screens.own_of slot marked.new) (arrivals_of slot inputs.new queue.new) scopes.new outcome
        ≡ class_of.class_command_done command.now words.now moment (screens.own_of slot marked.old) (arrivals_of slot inputs.old queue.old) scopes.old) }
    ensures screen { screens.LeavesOthers slot marked.old marked.new }
    ensures inputs { inputs_of.LeavesOthers slot inputs.old inputs.new }
    ensures queue { queue_of.LeavesOthers slot queue.old queue.new }
{
    let number = number_for(&marked.screen.windows, slot, words);
    match tk_class_commands::class_command_done(
        alloc,
        &mut marked.screen,
        inputs,
        queue,
        scopes,
        slot,
        moment,
        command,
        words,
    ) {
        Ok(outcome) => {
            marked.marks.touch(slot, number);
            Ok(outcome)
        }
        Err(refused) => {
            marked.marks.forget(slot);
            Err(refused)
        }
    }
}

/// The number of the window whose path the first word is, if it is there.
fn number_for(windows: &Windows, slot: usize, words: &[Text]) -> u64
    ensures { IsNumbered result words.now (trees.own_of slot windows.now) }
{
    let Some((path, _)) = words.split_first() else {
        return 0;
    };
    number_of(windows, slot, path)
}

/// What comes of a command for a class: a selection that was made is told at once.
fn outcome_for(
    tables: &Tables,
    slot: usize,
    outcome: ClassOutcome,
) -> Result<CommandOutcome, AllocError>
    ensures { IfOk result (λ outcome'. told (panel_of slot tables.now) outcome' ≡ spec.outcome_for outcome (panel_of slot tables.now)) }
{
    match outcome {
        ClassOutcome::Acts(act) => Ok(CommandOutcome::Acts(act)),
        ClassOutcome::Selects(number) => dispatch_selection(tables, slot, number),
    }
}
