//! The commands on windows: those that make them, `winfo`, `wm` and `pack`.
ghost use Rattle.std.specs.Prelude.{◌≡◌, false, IfOk};
ghost use Rattle.tk_panel.specs.Shared.{LeavesOthers, panel_of};
ghost use Rattle.tk_commands.specs.Outcomes.{done};
ghost use Rattle.tk_commands.specs.Screen as spec;
ghost use Rattle.tk_screen.specs.Shared as screens;
ghost use Rattle.tk_window_commands.specs.Commands as windows_of;

use crate::outcome::{CommandOutcome, answering};
use std::alloc::{AllocError, Global};
use tcl_text::Text;
use tcl_text::message::Answer;
use tcl_vars::Scopes;
use tk_panel::Tables;
use tk_screen::{MarkedScreen, Screen};
use tk_window_commands::{WindowCommand, window_command_done, window_command_named, winfo_command};

/// A command on what is on the screen.
#[derive(Clone, Copy, Debug, PartialEq, Eq)]
pub enum ScreenCommand {
    Window(WindowCommand),
    Pack,
}

/// The one of a name.
#[tactic(auto, unfolding(crate::specs::Screen::screen_command_named))]
pub fn screen_command_named(name: &str) -> Option<ScreenCommand>
    ensures { result ≡ spec.screen_command_named name.now }
{
    if name == "pack" {
        return Some(ScreenCommand::Pack);
    }
    match window_command_named(name) {
        Some(command) => Some(ScreenCommand::Window(command)),
        None => None,
    }
}

/// What one does, from the words behind its name.
#[tactic(auto, unfolding(crate::specs::Screen::screen_command_done))]
pub fn screen_command_done(
    tables: &mut Tables,
    slot: usize,
    scopes: &mut Scopes,
    command: ScreenCommand,
    words: &[Text],
) -> Result<CommandOutcome, AllocError>
    ensures own { IfOk result (λ outcome. done (panel_of slot tables.new) scopes.new outcome
        ≡ spec.screen_command_done command words.now (panel_of slot tables.old) scopes.old) }
    ensures others { LeavesOthers slot tables.old tables.new }
{
    match command {
        ScreenCommand::Window(command) => {
            let answer = window_command(
                tables.alloc,
                &mut tables.screen,
                scopes,
                slot,
                command,
                words,
            )?;
            Ok(answering(answer))
        }
        ScreenCommand::Pack => {
            let answer = pack(tables.alloc, &mut tables.screen, slot, words)?;
            Ok(answering(answer))
        }
    }
}

/// A command that makes a window, or `winfo` or `wm`; `winfo` changes nothing.
#[tactic(auto, unfolding(tk_window_commands::specs::Commands::window_command_done))]
fn window_command(
    alloc: Global,
    marked: &mut MarkedScreen,
    scopes: &mut Scopes,
    slot: usize,
    command: WindowCommand,
    words: &[Text],
) -> Result<Answer, AllocError>
    ensures own { IfOk result (λ answer. record { own = screens.own_of slot marked.new; store = scopes.new; answer = answer }
        ≡ windows_of.window_command_done command words.now (screens.own_of slot marked.old) scopes.old) }
    ensures others { screens.LeavesOthers slot marked.old marked.new }
{
    match command {
        WindowCommand::Winfo => winfo_command(alloc, marked.shown(), scopes, slot, words),
        WindowCommand::Make(_) | WindowCommand::Wm => {
            changing_command(alloc, marked, scopes, slot, command, words)
        }
    }
}

/// One that may change something.
#[tactic(auto, using(tk_screen::proofs::KeptMarks::kept))]
fn changing_command(
    alloc: Global,
    marked: &mut MarkedScreen,
    scopes: &mut Scopes,
    slot: usize,
    command: WindowCommand,
    words: &[Text],
) -> Result<Answer, AllocError>
    ensures own { IfOk result (λ answer. record { own = screens.own_of slot marked.new; store = scopes.new; answer = answer }
        ≡ windows_of.window_command_done command words.now (screens.own_of slot marked.old) scopes.old) }
    ensures others { screens.LeavesOthers slot marked.old marked.new }
{
    marked.marks.forget(slot);
    window_command_done(alloc, &mut marked.screen, scopes, slot, command, words)
}

/// The command `pack` (pack(n)).
fn pack(
    alloc: Global,
    marked: &mut MarkedScreen,
    slot: usize,
    words: &[Text],
) -> Result<Answer, AllocError>
    ensures own { IfOk result (λ answer. (screens.own_of slot marked.new, answer) ≡ spec.pack_told words.now (screens.own_of slot marked.old)) }
    ensures others { screens.LeavesOthers slot marked.old marked.new }
{
    if asks_propagation(words) {
        pack_propagate(alloc, marked, slot, words)
    } else {
        pack_otherwise(alloc, marked, slot, words)
    }
}

/// Whether the words are those of `pack propagate`.
fn asks_propagation(words: &[Text]) -> bool
    ensures { result ≡ spec.asks_propagation words.now }
{
    let Some((word, _)) = words.split_first() else {
        return false;
    };
    word.as_str() == "propagate"
}

/// `pack propagate`, by which a window may come to ask for another size.
#[tactic(auto, using(tk_screen::proofs::KeptMarks::kept))]
fn pack_propagate(
    alloc: Global,
    marked: &mut MarkedScreen,
    slot: usize,
    words: &[Text],
) -> Result<Answer, AllocError>
    ensures own { IfOk result (λ answer. (screens.own_of slot marked.new, answer) ≡ spec.pack_told words.now (screens.own_of slot marked.old)) }
    ensures others { screens.LeavesOthers slot marked.old marked.new }
{
    marked.marks.forget(slot);
    pack_windows(alloc, &mut marked.screen, slot, words)
}

/// The other forms, by which other windows may be packed, or packed otherwise, and nothing else changes.
#[tactic(auto, using(tk_screen::proofs::KeptMarks::kept))]
fn pack_otherwise(
    alloc: Global,
    marked: &mut MarkedScreen,
    slot: usize,
    words: &[Text],
) -> Result<Answer, AllocError>
    requires { spec.asks_propagation words.now ≡ false }
    ensures own { IfOk result (λ answer. (screens.own_of slot marked.new, answer) ≡ spec.pack_told words.now (screens.own_of slot marked.old)) }
    ensures others { screens.LeavesOthers slot marked.old marked.new }
{
    match pack_windows(alloc, &mut marked.screen, slot, words) {
        Ok(answer) => {
            marked.marks.repack(slot);
            Ok(answer)
        }
        Err(refused) => {
            marked.marks.forget(slot);
            Err(refused)
        }
    }
}

fn pack_windows(
    alloc: Global,
    screen: &mut Screen,
    slot: usize,
    words: &[Text],
) -> Result<Answer, AllocError>
    ensures own { IfOk result (λ answer. (screens.own_of slot screen.new, answer) ≡ spec.pack_told words.now (screens.own_of slot screen.old)) }
    ensures others { screens.LeavesOthers slot screen.old screen.new }
{
    tk_pack_commands::pack_command(alloc, &screen.windows, &mut screen.packs, slot, words)
}
