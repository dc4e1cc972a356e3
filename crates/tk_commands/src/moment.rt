//! The commands `puts`, `after`, `clock`, `update` and `destroy`.
ghost use Rattle.std.specs.Prelude.{◌≡◌, IfOk};
ghost use Rattle.tk_panel.specs.Shared.{LeavesOthers, panel_of};
ghost use Rattle.tk_commands.specs.Moment as spec;
ghost use Rattle.tk_commands.specs.Outcomes.{told};

use crate::outcome::{Begun, CommandOutcome, answering};
use std::alloc::{AllocError, Global};
use tcl_text::Text;
use tcl_text::answers::{answered, bad_option, wrong_args};
use tk_panel::{Scripts, Tables, after_command, clock_command, puts_command};

/// A command on what an application writes and what it does at a moment.
#[derive(Clone, Copy, Debug, PartialEq, Eq)]
pub enum MomentCommand {
    Puts,
    After,
    Clock,
    Update,
    Destroy,
}

/// The one of a name.
#[tactic(auto, unfolding(crate::specs::Moment::moment_command_named))]
pub fn moment_command_named(name: &str) -> Option<MomentCommand>
    ensures { result ≡ spec.moment_command_named name.now }
{
    match name {
        "puts" => Some(MomentCommand::Puts),
        "after" => Some(MomentCommand::After),
        "clock" => Some(MomentCommand::Clock),
        "update" => Some(MomentCommand::Update),
        "destroy" => Some(MomentCommand::Destroy),
        _ => None,
    }
}

/// What one does, from the words behind its name.
#[tactic(auto, unfolding(crate::specs::Moment::moment_command_done))]
pub fn moment_command_done(
    tables: &mut Tables,
    slot: usize,
    command: MomentCommand,
    words: &[Text],
) -> Result<CommandOutcome, AllocError>
    ensures own { IfOk result (λ outcome. told (panel_of slot tables.new) outcome
        ≡ spec.moment_command_done command words.now (panel_of slot tables.old)) }
    ensures others { LeavesOthers slot tables.old tables.new }
{
    match command {
        MomentCommand::Puts => {
            let answer = puts_command(tables, slot, words)?;
            Ok(answering(answer))
        }
        MomentCommand::After => {
            let answer = after_command(tables, slot, words)?;
            Ok(answering(answer))
        }
        MomentCommand::Clock => {
            let answer = clock_command(tables.alloc, tables.clock.moment(), words)?;
            Ok(answering(answer))
        }
        MomentCommand::Update => update(tables.alloc, words),
        MomentCommand::Destroy => {
            let paths = copied(tables.alloc, words)?;
            Ok(CommandOutcome::Begins(Begun::Destroys(paths)))
        }
    }
}

/// The command `update` (update(n)): what is to be done at the moment, or `update idletasks`.
#[tactic(auto, unfolding(crate::specs::Moment::update_words))]
fn update(alloc: Global, words: &[Text]) -> Result<CommandOutcome, AllocError>
    ensures { IfOk result (λ outcome. outcome ≡ spec.update_words words.now) }
{
    let Some((option, words)) = words.split_first() else {
        return Ok(CommandOutcome::Begins(Begun::Updates));
    };
    match option.as_str() {
        "idletasks" => update_idle(alloc, words),
        _ => Ok(answering(answered(bad_option(alloc, option))?)),
    }
}

/// `update idletasks`, with the words behind both.
fn update_idle(alloc: Global, words: &[Text]) -> Result<CommandOutcome, AllocError>
    ensures { IfOk result (λ outcome. outcome ≡ spec.idle_words words.now) }
{
    if words.is_empty() {
        return Ok(CommandOutcome::Begins(Begun::UpdatesIdleTasks));
    }
    Ok(answering(answered(wrong_args(alloc, "update ?idletasks?"))?))
}

/// Copies of words, which the command outlives.
fn copied(alloc: Global, words: &[Text]) -> Result<Scripts, AllocError>
    ensures { IfOk result (λ copies. copies ≡ words.now) }
{
    let mut copies = Vec::with_capacity(alloc, words.len())?;
    for word in words {
        copies.push(word.copy()?)?;
    }
    Ok(Scripts::of(copies))
}
