ghost use Rattle.std.specs.Prelude.{◌≡◌, IsSome};
ghost use Rattle.tk_screen.specs.Placing.{with_mapped, with_rect, with_changed, with_changes, IsThere, AreThere};
ghost use Rattle.tk_tree.specs.Own.{window_at};
ghost use Rattle.tk_tree.specs.Shared.{own_of, LeavesOthers};

use tk_base::{Rect, Win};
use tk_packer::PlaceChange;
use tk_tree::Windows;

/// Writes into the windows of an application what a layout changes: a window that is configured has the rectangle, and one that is mapped or
/// unmapped keeps it. It takes no memory.
pub fn write_changes(windows: &mut Windows, owner: usize, changes: &[PlaceChange])
    requires { AreThere changes.now (own_of owner windows.old) }
    ensures own { own_of owner windows.new ≡ with_changes changes.now (own_of owner windows.old) }
    ensures others { LeavesOthers owner windows.old windows.new }
{
    let mut rest = changes;
    while let Some((change, later)) = rest.split_first() {
        write_change(windows, owner, *change);
        rest = later;
    }
}

fn write_change(windows: &mut Windows, owner: usize, change: PlaceChange)
    requires { IsThere change (own_of owner windows.old) }
    ensures own { own_of owner windows.new ≡ with_changed change (own_of owner windows.old) }
    ensures others { LeavesOthers owner windows.old windows.new }
{
    match change {
        PlaceChange::Unmap(number) => set_mapped(windows, Win { owner, number }, false),
        PlaceChange::Configure(number, place) => set_rect(windows, Win { owner, number }, place),
        PlaceChange::Map(number) => set_mapped(windows, Win { owner, number }, true),
    }
}

fn set_mapped(windows: &mut Windows, win: Win, mapped: bool)
    requires { IsSome (window_at win.number (own_of win.owner windows.old)) }
    ensures own { own_of win.owner windows.new ≡ with_mapped win.number mapped (own_of win.owner windows.old) }
    ensures others { LeavesOthers win.owner windows.old windows.new }
{
    let (place, _) = windows.place(win);
    windows.set_place(win, place, mapped);
}

fn set_rect(windows: &mut Windows, win: Win, place: Rect)
    requires { IsSome (window_at win.number (own_of win.owner windows.old)) }
    ensures own { own_of win.owner windows.new ≡ with_rect win.number place (own_of win.owner windows.old) }
    ensures others { LeavesOthers win.owner windows.old windows.new }
{
    let (_, mapped) = windows.place(win);
    windows.set_place(win, place, mapped);
}
