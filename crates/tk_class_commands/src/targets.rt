//! The words of the commands, and their errors.
ghost use Rattle.std.specs.Prelude.{◌≡◌, Some};
ghost use Rattle.std.specs.Option.{option_copied};
ghost use Rattle.tcl_text.specs.Answers.{Gives, integer_in as integer_of};
ghost use Rattle.tk_class_commands.specs.Targets as spec;
ghost use Rattle.tk_screen.specs.Shared.{own_of};
ghost use Rattle.tk_tree.specs.Own.{at_path};
ghost use Rattle.tk_tree.specs.Shared.{own_of as tree_of};

use std::alloc::Global;
use tcl_text::Text;
use tcl_text::answers::{Refusal, not_integer, quoting_error};
use tk_base::{Kind, Win};
use tk_screen::Screen;
use tk_tree::{Window, Windows, bad_path};

/// The number of the window of a path, which has to be of the class of a kind of widgets (24).
#[tactic(auto, unfolding(crate::specs::Targets::number_of))]
pub fn number_of(
    alloc: Global,
    screen: &Screen,
    slot: usize,
    kind: Kind,
    path: &Text,
) -> Result<u64, Refusal>
    ensures { Gives result (spec.number_of kind path.now (own_of slot screen.now)) }
{
    match window_of(&screen.windows, slot, path) {
        Some(window) => number_in(alloc, kind, path, window),
        None => bad_path(alloc, path),
    }
}

/// The window of a path; none where the application has none of it.
fn window_of<'a>(windows: &'a Windows, slot: usize, path: &Text) -> Option<&'a Window>
    ensures { option_copied result ≡ at_path path.now (tree_of slot windows.now) }
{
    let win = windows.find(slot, path.as_str())?;
    windows.window(Win {
        owner: slot,
        number: win.number,
    })
}

/// The number of a window, which has to be of the class.
fn number_in(alloc: Global, kind: Kind, path: &Text, window: &Window) -> Result<u64, Refusal>
    ensures { Gives result (spec.number_in kind path.now (Some window.now)) }
{
    if window.kind.class() == kind.class() {
        Ok(window.number)
    } else {
        bad_path(alloc, path)
    }
}

/// The integer that a word is (1).
#[tactic(auto, unfolding(tcl_text::specs::Answers::integer_in))]
pub fn integer_in(alloc: Global, word: &Text) -> Result<i64, Refusal>
    ensures { Gives result (integer_of word.now) }
{
    match word.integer() {
        Ok(number) => Ok(number),
        Err(_) => not_integer(alloc, word),
    }
}
