//! Windows that are looked at again, since they may look otherwise than when they were laid out.
ghost use Rattle.std.specs.Prelude.{◌≡◌, ℕ, false, true, OnOk};
ghost use Rattle.std.specs.BTreeSet.{contains};
ghost use Rattle.std.specs.Ordering.{nat_cmp};
ghost use Rattle.tk_screen.specs.Reads.{PutsRead, StillHolds, holds, read_at};
ghost use Rattle.tk_screen.specs.Seen.{IsSeen, with_seen};
ghost use Rattle.tk_screen.specs.Shapes.{shape_at};
ghost use Rattle.tk_screen.specs.Shared.{own_of};

use crate::reads::{TextRead, holds};
use crate::screen::Screen;
use crate::seen::put_read;
use crate::shapes::shape_by;
use indexmap::IndexMap;
use std::alloc::AllocError;
use std::collections::BTreeSet;
use tcl_vars::Scopes;
use tk_base::Win;
use tk_packer::{KeptLayout, Shape};

/// Adds the windows that show variables which have other texts than they had.
pub fn add_changed(
    touched: &mut BTreeSet<u64>,
    reads: &IndexMap<u64, TextRead>,
    scopes: &Scopes,
) -> Result<(), AllocError>
    ensures { OnOk result ((number : ℕ) → contains nat_cmp touched.new number ≡ false
        → (contains nat_cmp touched.old number ≡ false) × StillHolds scopes.now reads.now.entries number) }
{
    for index in 0..reads.len() {
        let (number, read) = reads.get_index(index).unwrap();
        add_if_changed(touched, *number, read, scopes)?;
    }
    Ok(())
}

/// Adds a window if the variable that it shows has another text than it had.
#[tactic(auto, using(crate::proofs::Looking::pushed))]
fn add_if_changed(
    touched: &mut BTreeSet<u64>,
    number: u64,
    read: &TextRead,
    scopes: &Scopes,
) -> Result<(), AllocError>
    ensures more { OnOk result ((other : ℕ) → contains nat_cmp touched.new other ≡ false → contains nat_cmp touched.old other ≡ false) }
    ensures tested { OnOk result (contains nat_cmp touched.new number ≡ false → holds scopes.now read.now ≡ true) }
{
    if holds(read, scopes) {
        return Ok(());
    }
    touched.insert(number)?;
    Ok(())
}

/// Looks at a window.
fn look_at(
    screen: &Screen,
    slot: usize,
    scopes: &Scopes,
    number: u64,
    layout: &mut KeptLayout,
    reads: &mut IndexMap<u64, TextRead>,
) -> Result<(), AllocError>
    ensures shape { OnOk result (layout.new
        ≡ record layout.old { shapes = with_seen (shape_at (own_of slot screen.now) scopes.now number) layout.old.shapes }) }
    ensures read { OnOk result (PutsRead number (read_at (own_of slot screen.now) scopes.now number) reads.old.entries reads.new.entries) }
{
    let win = Win {
        owner: slot,
        number,
    };
    let widget = screen.widgets.kept(win);
    set_seen(layout, shape_by(screen, scopes, win, widget))?;
    put_read(reads, scopes, number, widget)
}

/// A window looks so from now on, if there is one.
fn set_seen(layout: &mut KeptLayout, seen: Option<Shape>) -> Result<(), AllocError>
    ensures { OnOk result (layout.new ≡ record layout.old { shapes = with_seen seen layout.old.shapes }) }
{
    match seen {
        Some(shape) => layout.set_shape(shape),
        None => Ok(()),
    }
}

/// Looks at all windows that were touched, of which none is left then.
pub fn look_at_all(
    screen: &Screen,
    slot: usize,
    scopes: &Scopes,
    touched: &mut BTreeSet<u64>,
    layout: &mut KeptLayout,
    reads: &mut IndexMap<u64, TextRead>,
) -> Result<(), AllocError>
    requires { IsSeen (own_of slot screen.now) (own_of slot screen.now).packs.packs scopes.now (contains nat_cmp touched.old) reads.old.entries layout.old }
    ensures seen { OnOk result (IsSeen (own_of slot screen.now) (own_of slot screen.now).packs.packs scopes.now (contains nat_cmp touched.new) reads.new.entries layout.new) }
    ensures none { OnOk result ((number : ℕ) → contains nat_cmp touched.new number ≡ false) }
{
    while let Some(number) = touched.pop_first() {
        look_at(screen, slot, scopes, number, layout, reads)?;
    }
    Ok(())
}
