//! Changes of widgets that have to do with no variable.
ghost use Rattle.std.specs.Prelude.{◌≡◌, OnOk};
ghost use Rattle.tk_class_commands.specs.Changes.{with_change};
ghost use Rattle.tk_screen.specs.Shared.{LeavesOthers, own_of};

use std::alloc::{AllocError, Global};
use tk_base::Win;
use tk_screen::Screen;
use tk_widgets::WidgetChange;

/// Makes a change of a window's widget; nothing where it has none.
pub fn make(
    alloc: Global,
    screen: &mut Screen,
    win: Win,
    change: WidgetChange,
) -> Result<(), AllocError>
    ensures own { OnOk result (own_of win.owner screen.new ≡ with_change win.number change (own_of win.owner screen.old)) }
    ensures others { LeavesOthers win.owner screen.old screen.new }
{
    screen.widgets.make(alloc, win, change)?;
    Ok(())
}
