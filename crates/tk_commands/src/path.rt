//! The commands of windows.
ghost use Rattle.std.specs.Prelude.{◌≡◌, IfOk, IfSome};
ghost use Rattle.tk_panel.specs.Shared.{LeavesOthers, panel_of};
ghost use Rattle.tk_commands.specs.Outcomes.{done};
ghost use Rattle.tk_commands.specs.Path as spec;
ghost use Rattle.tk_screen.specs.Shared as screens;
ghost use Rattle.tk_tree.specs.Own.{at_path};
ghost use Rattle.tk_tree.specs.Shared as trees;
ghost use Rattle.tk_window_commands.specs.Path as path_of;

use crate::outcome::CommandOutcome;
use std::alloc::{AllocError, Global};
use tcl_text::Text;
use tcl_vars::Scopes;
use tk_panel::Tables;
use tk_screen::MarkedScreen;
use tk_tree::Windows;
use tk_widgets::WidgetAct;

/// A window's own command, `path ..`, from its path and the words behind it; there is none where the path names no window.
pub fn path_command(
    tables: &mut Tables,
    slot: usize,
    scopes: &mut Scopes,
    path: &Text,
    words: &[Text],
) -> Result<CommandOutcome, AllocError>
    ensures own { IfOk result (λ outcome. done (panel_of slot tables.new) scopes.new outcome
        ≡ spec.path_told path.now words.now (panel_of slot tables.old) scopes.old) }
    ensures others { LeavesOthers slot tables.old tables.new }
{
    let act = act_of(tables.alloc, &mut tables.screen, scopes, slot, path, words)?;
    Ok(outcome_of(act))
}

/// What the window's widget tells.
#[tactic(auto, using(tk_screen::proofs::KeptMarks::kept))]
fn act_of(
    alloc: Global,
    marked: &mut MarkedScreen,
    scopes: &mut Scopes,
    slot: usize,
    path: &Text,
    words: &[Text],
) -> Result<Option<WidgetAct>, AllocError>
    ensures own { IfOk result (λ act. record { own = screens.own_of slot marked.new; store = scopes.new; act = act }
        ≡ path_of.path_words path.now words.now (screens.own_of slot marked.old) scopes.old) }
    ensures others { screens.LeavesOthers slot marked.old marked.new }
{
    let number = number_of(&marked.screen.windows, slot, path);
    match tk_window_commands::path_command(alloc, &mut marked.screen, scopes, slot, path, words) {
        Ok(act) => {
            marked.marks.touch(slot, number);
            Ok(act)
        }
        Err(refused) => {
            marked.marks.forget(slot);
            Err(refused)
        }
    }
}

/// The number of the window with a path, if it is there.
#[tactic(auto, using(crate::proofs::PathTouch::number_found))]
pub fn number_of(windows: &Windows, slot: usize, path: &Text) -> u64
    ensures { IfSome (at_path path.now (trees.own_of slot windows.now)) (λ window. result ≡ window.number) }
{
    match windows.find(slot, path.as_str()) {
        Some(win) => win.number,
        None => 0,
    }
}

/// What comes of it.
fn outcome_of(act: Option<WidgetAct>) -> CommandOutcome
    ensures { result ≡ spec.outcome_of act }
{
    match act {
        Some(act) => CommandOutcome::Acts(act),
        None => CommandOutcome::Unknown,
    }
}
