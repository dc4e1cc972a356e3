//! The commands of windows.
ghost use Rattle.std.specs.Prelude.{◌≡◌, IfOk};
ghost use Rattle.tk_screen.specs.Shared.{own_of, LeavesOthers};
ghost use Rattle.tk_window_commands.specs.Path as spec;

use crate::answers::window_at_path;
use std::alloc::{AllocError, Global};
use tcl_text::Text;
use tcl_vars::Scopes;
use tk_base::Win;
use tk_screen::{Screen, change_widget, variable_text};
use tk_widgets::{WidgetAct, WidgetRequest};

/// A window's own command: `cget` and `configure` of all, `invoke` of button(n), the sub-commands of entry(n) and listbox(n), from the words
/// behind its path. None, and nothing is done, where the path names no window, so that there is no command of this name. A script that is answered
/// is to be run at global level, and its result is the command's.
#[tactic(auto, unfolding(crate::specs::Path::path_words))]
pub fn path_command(
    alloc: Global,
    screen: &mut Screen,
    scopes: &mut Scopes,
    slot: usize,
    path: &Text,
    words: &[Text],
) -> Result<Option<WidgetAct>, AllocError>
    ensures own { IfOk result (λ act. record { own = own_of slot screen.new; store = scopes.new; act = act }
        ≡ spec.path_words path.now words.now (own_of slot screen.old) scopes.old) }
    ensures others { LeavesOthers slot screen.old screen.new }
{
    let Some(window) = window_at_path(&screen.windows, slot, path) else {
        return Ok(None);
    };
    let win = Win {
        owner: slot,
        number: window.number,
    };
    let Some(widget) = screen.widget(win) else {
        return Ok(None);
    };
    match widget.ask(alloc, variable_text(widget, scopes), words)? {
        WidgetRequest::Done(act) => Ok(Some(act)),
        WidgetRequest::Wants(change) => change_widget(alloc, screen, scopes, win, change),
    }
}
