//! What the commands on windows answer.
ghost use Rattle.std.specs.Prelude.{◌≡◌, [], Some, IfOk, IfSome};
ghost use Rattle.std.specs.Option.{option_copied};
ghost use Rattle.tk_tree.specs.Own.{at_path, window_at};
ghost use Rattle.tk_tree.specs.Shared.{own_of as tree_of};

use std::alloc::{AllocError, Global};
use tcl_text::Text;
use tcl_text::answers::Refusal;
use tcl_text::message::Answer;
use tk_base::Win;
use tk_tree::{Window, Windows};

/// The window of a path; none where the application has none of it. It takes no memory.
pub fn window_at_path<'a>(windows: &'a Windows, slot: usize, path: &Text) -> Option<&'a Window>
    ensures window { option_copied result ≡ at_path path.now (tree_of slot windows.now) }
    ensures there { IfSome result (λ window. window_at window.now.number (tree_of slot windows.now) ≡ Some window.now) }
{
    let win = windows.find(slot, path.as_str())?;
    windows.window(Win {
        owner: slot,
        number: win.number,
    })
}
