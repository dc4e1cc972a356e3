//! Applications that are added.
ghost use Rattle.std.specs.Prelude.{◌≡◌, OnErr, OnOk, codes};
ghost use Rattle.tk_panel.specs.Fresh.{fresh, nothing};
ghost use Rattle.tk_panel.specs.Shared.{LeavesOthers, panel_of};
ghost use Rattle.tk_base.specs.declared.kind.Kind.TheVariants.{Frame};
ghost use Rattle.tk_screen.specs.Own as windowing;
ghost use Rattle.tk_screen.specs.Shared as screens;
ghost use Rattle.tk_widgets.specs.Sizes.{new_widget};

use crate::tables::Tables;
use crate::{bind_classes, unbind_classes};
use std::alloc::{AllocError, Global};
use tcl_text::Text;
use tcl_text::message::short_text;
use tk_base::Kind;
use tk_screen::{MarkedScreen, Screen, Toplevel};
use tk_widgets::Widget;

/// Adds an application of a name that had nothing, with a rectangle of a size in pixels: its main window `.`, whose title is the name, and the bindings
/// of the classes of widgets. After want of memory it has nothing still.
#[tactic(auto, unfolding(crate::specs::Fresh::fresh))]
pub fn add(
    tables: &mut Tables,
    slot: usize,
    name: &Text,
    size: (u32, u32),
) -> Result<(), AllocError>
    requires { panel_of slot tables.old ≡ nothing tables.old.clock }
    ensures own { OnOk result (panel_of slot tables.new ≡ fresh name.now size tables.old.clock) }
    ensures others { LeavesOthers slot tables.old tables.new }
    ensures err { OnErr result (panel_of slot tables.new ≡ panel_of slot tables.old) }
{
    bind_classes(tables.alloc, &mut tables.bindings, slot)?;
    match show(tables.alloc, &mut tables.screen, slot, name, size) {
        Ok(()) => Ok(()),
        Err(refused) => {
            unbind_classes(&mut tables.bindings, slot);
            Err(refused)
        }
    }
}

/// An application of which nothing is on the screen is shown.
#[tactic(auto, using(tk_screen::proofs::KeptMarks::kept))]
fn show(
    alloc: Global,
    marked: &mut MarkedScreen,
    slot: usize,
    name: &Text,
    size: (u32, u32),
) -> Result<(), AllocError>
    requires { screens.own_of slot marked.old ≡ windowing.nothing }
    ensures own { OnOk result (screens.own_of slot marked.new ≡ windowing.added name.now size) }
    ensures others { screens.LeavesOthers slot marked.old marked.new }
    ensures err { OnErr result (screens.own_of slot marked.new ≡ screens.own_of slot marked.old) }
{
    marked.marks.forget(slot);
    show_main(alloc, &mut marked.screen, slot, name, size)
}

/// The main window of an application of which nothing is on the screen, with its rectangle and its title.
fn show_main(
    alloc: Global,
    screen: &mut Screen,
    slot: usize,
    name: &Text,
    size: (u32, u32),
) -> Result<(), AllocError>
    requires { screens.own_of slot screen.old ≡ windowing.nothing }
    ensures own { OnOk result (screens.own_of slot screen.new ≡ windowing.added name.now size) }
    ensures others { screens.LeavesOthers slot screen.old screen.new }
    ensures err { OnErr result (screens.own_of slot screen.new ≡ screens.own_of slot screen.old) }
{
    let toplevel = Toplevel {
        name: name.copy()?,
        title: name.copy()?,
        size,
    };
    screen.toplevels.insert(slot, toplevel)?;
    match make_main(alloc, screen, slot) {
        Ok(()) => Ok(()),
        Err(refused) => {
            screen.toplevels.remove(&slot);
            Err(refused)
        }
    }
}

/// The window `.` of an application that has none.
fn make_main(alloc: Global, screen: &mut Screen, slot: usize) -> Result<(), AllocError>
    requires { (screens.own_of slot screen.old).tree ≡ windowing.no_windows }
    ensures own { OnOk result (screens.own_of slot screen.new ≡ windowing.with_made (codes ".") Frame (new_widget Frame) (screens.own_of slot screen.old)) }
    ensures others { screens.LeavesOthers slot screen.old screen.new }
    ensures err { OnErr result (screens.own_of slot screen.new ≡ screens.own_of slot screen.old) }
{
    let main = short_text(alloc, ".")?;
    let widget = Widget::new(alloc, Kind::Frame)?;
    match screen.create(slot, &main, Kind::Frame, widget) {
        Ok(_) => Ok(()),
        Err(_) => Err(AllocError),
    }
}
