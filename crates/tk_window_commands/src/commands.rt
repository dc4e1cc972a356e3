//! The commands on windows by their names.
ghost use Rattle.std.specs.Prelude.{◌≡◌, IfOk};
ghost use Rattle.tk_screen.specs.Shared.{own_of, LeavesOthers};
ghost use Rattle.tk_window_commands.specs.Commands as spec;

use crate::create::create_command;
use crate::winfo::winfo_command;
use crate::wm::wm_command;
use std::alloc::{AllocError, Global};
use tcl_text::Text;
use tcl_text::message::Answer;
use tcl_vars::Scopes;
use tk_base::Kind;
use tk_options::kind_named;
use tk_screen::Screen;

/// A command on windows.
#[derive(Clone, Copy, Debug, PartialEq, Eq)]
pub enum WindowCommand {
    /// `frame`, `label`, `button`, `entry`, `listbox`: makes a window.
    Make(Kind),
    /// `winfo`.
    Winfo,
    /// `wm`.
    Wm,
}

/// The command on windows of a name.
#[tactic(auto, unfolding(crate::specs::Commands::window_command_named))]
pub fn window_command_named(name: &str) -> Option<WindowCommand>
    ensures { result ≡ spec.window_command_named name.now }
{
    match name {
        "winfo" => Some(WindowCommand::Winfo),
        "wm" => Some(WindowCommand::Wm),
        _ => kind_named(name).map(WindowCommand::Make),
    }
}

/// What a command on windows does, from the words behind its name: its result, or the text of its error. A command that is refused changes
/// nothing.
#[tactic(auto, unfolding(crate::specs::Commands::window_command_done))]
pub fn window_command_done(
    alloc: Global,
    screen: &mut Screen,
    scopes: &mut Scopes,
    slot: usize,
    command: WindowCommand,
    words: &[Text],
) -> Result<Answer, AllocError>
    ensures own { IfOk result (λ answer. record { own = own_of slot screen.new; store = scopes.new; answer = answer }
        ≡ spec.window_command_done command words.now (own_of slot screen.old) scopes.old) }
    ensures others { LeavesOthers slot screen.old screen.new }
{
    match command {
        WindowCommand::Make(kind) => create_command(alloc, screen, scopes, slot, kind, words),
        WindowCommand::Winfo => winfo_command(alloc, screen, scopes, slot, words),
        WindowCommand::Wm => wm_command(alloc, screen, slot, words),
    }
}
