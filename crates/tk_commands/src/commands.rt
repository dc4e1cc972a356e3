//! Commands by their names.
ghost use Rattle.std.specs.Prelude.{◌≡◌, IfOk};
ghost use Rattle.tk_pack_commands.specs.Targets.{begins_path};
ghost use Rattle.tk_panel.specs.Shared.{LeavesOthers, panel_of};
ghost use Rattle.tk_commands.specs.Commands as spec;

use crate::binding::{BindingCommand, binding_command_done, binding_command_named};
use crate::class::class_command_done;
use crate::moment::{MomentCommand, moment_command_done, moment_command_named};
use crate::outcome::CommandOutcome;
use crate::path::path_command;
use crate::screen::{ScreenCommand, screen_command_done, screen_command_named};
use std::alloc::AllocError;
use tcl_text::Text;
use tcl_vars::Scopes;
use tk_class_commands::{ClassCommand, class_command_named};
use tk_panel::Tables;

/// A command, by what it acts on.
#[derive(Drop)]
pub enum TkCommand {
    Moment(MomentCommand),
    Binding(BindingCommand),
    Screen(ScreenCommand),
    Class(ClassCommand),
}

/// The command of a name.
#[tactic(auto, unfolding(crate::specs::Commands::command_named))]
fn command_named(name: &str) -> Option<TkCommand>
    ensures { result ≡ spec.command_named name.now }
{
    if let Some(command) = screen_command_named(name) {
        return Some(TkCommand::Screen(command));
    }
    if let Some(command) = moment_command_named(name) {
        return Some(TkCommand::Moment(command));
    }
    if let Some(command) = binding_command_named(name) {
        return Some(TkCommand::Binding(command));
    }
    match class_command_named(name) {
        Some(command) => Some(TkCommand::Class(command)),
        None => None,
    }
}

/// What a command does, from the words behind its name.
#[tactic(auto, unfolding(crate::specs::Commands::command_done))]
fn command_done(
    tables: &mut Tables,
    slot: usize,
    scopes: &mut Scopes,
    command: TkCommand,
    words: &[Text],
) -> Result<CommandOutcome, AllocError>
    ensures own { IfOk result (λ outcome. record { panel = panel_of slot tables.new; store = scopes.new; outcome = outcome }
        ≡ spec.command_done command words.now (panel_of slot tables.old) scopes.old) }
    ensures others { LeavesOthers slot tables.old tables.new }
{
    match command {
        TkCommand::Moment(command) => moment_command_done(tables, slot, command, words),
        TkCommand::Binding(command) => binding_command_done(tables, slot, command, words),
        TkCommand::Screen(command) => screen_command_done(tables, slot, scopes, command, words),
        TkCommand::Class(command) => class_command_done(tables, slot, scopes, &command, words),
    }
}

/// A command of an application, from its words, its name first. What is still to run is in its outcome. A command that is refused before it has
/// come to a script changes nothing.
pub fn panel_command(
    tables: &mut Tables,
    slot: usize,
    scopes: &mut Scopes,
    words: &[Text],
) -> Result<CommandOutcome, AllocError>
    ensures own { IfOk result (λ outcome. record { panel = panel_of slot tables.new; store = scopes.new; outcome = outcome }
        ≡ spec.panel_command words.now (panel_of slot tables.old) scopes.old) }
    ensures others { LeavesOthers slot tables.old tables.new }
{
    let Some((name, words)) = words.split_first() else {
        return Ok(CommandOutcome::Unknown);
    };
    if begins_path(name.as_str()) {
        return path_command(tables, slot, scopes, name, words);
    }
    match command_named(name.as_str()) {
        Some(command) => command_done(tables, slot, scopes, command, words),
        None => Ok(CommandOutcome::Unknown),
    }
}

/// Whether a name is a window's path.
fn begins_path(name: &str) -> bool
    ensures { result ≡ begins_path name.now }
{
    matches!(name.as_bytes(), [b'.', ..])
}
