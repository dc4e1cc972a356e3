ghost use Rattle.std.specs.Prelude.{◌≡◌};
ghost use Rattle.tk_tree.specs.Changing.{changed};

use crate::window::Window;
use tcl_text::TextList;
use tk_base::Rect;

/// What a window becomes.
#[derive(Drop)]
pub enum WindowChange {
    /// It is being destroyed.
    Dying,
    /// It has these binding tags.
    Tags(TextList),
    /// It stands at a rectangle, mapped or not.
    Place(Rect, bool),
}

/// Changes a window.
pub fn change_window(window: &mut Window, change: WindowChange)
    ensures { window.new ≡ changed change window.old }
{
    match change {
        WindowChange::Dying => window.dying = true,
        WindowChange::Tags(tags) => window.tags = tags,
        WindowChange::Place(place, mapped) => {
            window.rectangle = place;
            window.mapped = mapped;
        }
    }
}
