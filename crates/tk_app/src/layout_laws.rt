//! Laws of layouts. The functions do nothing: their contracts are the laws.
ghost use Rattle.tk_app.specs.InOrder.{ItemsKeepOrder, LiesInOrder, ScriptsKeepOrder, StaysInOrder};
ghost use Rattle.tk_app.specs.Near.{CornersNear, ItemsKeepNear, NearStays, ScriptsKeepNear};
ghost use Rattle.tk_app.specs.Places.{LiesByMasters};
ghost use Rattle.tk_app.specs.Told.{LaysOutWhole, TellsWhole};

use tk_alias::AliasMeaning;

/// Where each window stands once, before those that are packed in it, and is packed once at most, the layout from nothing is this: a window asks for
/// the room of what is packed in it, or for what its widget asks for; the main window fills the application's rectangle, one that is packed lies where
/// the arrangement of its master's room has it, and any other isn't mapped (pack(n)).
pub fn lies_by_masters()
    ensures { LiesByMasters }
{}

/// So the layout of an application is. What it has packed is packed in parents, each window once; then its windows stand so. Scripts leave it so,
/// whatever they do, and so does each item of what is to be done at a moment; and so it is in an application from its beginning on, as long as it runs.
pub fn lies_in_order<M: AliasMeaning>()
    ensures layout { LiesInOrder }
    ensures scripts { ScriptsKeepOrder }
    ensures items { ItemsKeepOrder }
    ensures stays { StaysInOrder M.answer }
{}

/// The windows of an application lie near one another: each ends within 32,767 pixels of its parent's corner, and so within some 16,800,000 of the
/// application's. Scripts leave it so, whatever they do, and so does each item of what is to be done at a moment; and so it is in an application from its
/// beginning on, as long as it runs, where its size and the events that it is given are in range.
pub fn lies_near<M: AliasMeaning>()
    ensures scripts { ScriptsKeepNear }
    ensures items { ItemsKeepNear }
    ensures stays { NearStays M.answer }
    ensures corners { CornersNear }
{}

/// So what the pointer does in a window, and what a layout changes, is told with its places and its button, whatever they are: no range of a field of an
/// event leaves one out (bind(n), `%x`, `%y`, `%b`).
pub fn tells_whole()
    ensures pointer { TellsWhole }
    ensures layout { LaysOutWhole }
{}
