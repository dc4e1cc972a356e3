//! What the layout has to know of windows.
ghost use Rattle.std.specs.Prelude.{◌≡◌, IfOk};
ghost use Rattle.std.specs.Option.{option_copied};
ghost use Rattle.tk_packer.specs.Shared.{own_of as packs_of};
ghost use Rattle.tk_screen.specs.Shared.{own_of};
ghost use Rattle.tk_screen.specs.Shapes.{is_frame, shape_by, shape_of, value_of, variable_text};
ghost use Rattle.tk_tree.specs.Own.{window_at};
ghost use Rattle.tk_tree.specs.Shared.{own_of as tree_of};

use crate::kept::KeptWidget;
use crate::screen::Screen;
use std::alloc::{AllocError, Global};
use tcl_text::Text;
use tcl_vars::Scopes;
use tk_base::{Kind, Win};
use tk_options::OptionName;
use tk_packer::{PackTable, Shape};
use tk_tree::{Window, Windows};
use tk_widgets::Widget;

/// The text of the global variable that `-textvariable` of a widget names, where there is one that can be read. It takes no memory.
pub fn variable_text<'a>(widget: &Widget, scopes: &'a Scopes) -> Option<&'a Text>
    ensures { option_copied result ≡ variable_text widget.now scopes.now }
{
    let _frames = scopes.levels();
    let name = widget.variable()?;
    match scopes.get(0, name) {
        Ok(text) => Some(text),
        Err(_) => None,
    }
}

/// A window of an application, if it is there and has a widget.
pub fn shape_by(
    screen: &Screen,
    scopes: &Scopes,
    win: Win,
    widget: Option<&KeptWidget>,
) -> Option<Shape>
    ensures { result ≡ shape_by (packs_of win.owner screen.now.packs) scopes.now
        (window_at win.number (tree_of win.owner screen.now.windows)) (option_copied widget.entry) }
{
    let window = screen.windows.window(win)?;
    let widget = widget?;
    Some(shape_of(&screen.packs, win.owner, scopes, window, widget))
}

/// A window with its widget.
#[tactic(auto, unfolding(crate::specs::Shapes::shape_of))]
fn shape_of(
    packs: &PackTable,
    slot: usize,
    scopes: &Scopes,
    window: &Window,
    widget: &KeptWidget,
) -> Shape
    ensures { result ≡ shape_of (packs_of slot packs.now) scopes.now window.now widget.now }
{
    let number = window.number;
    let (width, height) = widget.requested_size(scopes);
    Shape {
        number,
        width,
        height,
        border: widget.widget().options.amount(OptionName::BorderWidth),
        propagates: is_frame(window.kind)
            && packs.propagates(Win {
                owner: slot,
                number,
            }),
        rectangle: window.rectangle,
        mapped: window.mapped,
    }
}

/// Whether what is packed in a widget of a kind may decide what it asks for.
fn is_frame(kind: Kind) -> bool
    ensures { result ≡ is_frame kind }
{
    match kind {
        Kind::Frame => true,
        Kind::Label | Kind::Button | Kind::Entry | Kind::Listbox => false,
    }
}

/// What a window shows, as the section of its application tells it: the text of a label, a button or an entry, or the list of a listbox's items,
/// with the texts that variables have now; none for a frame, and where the window isn't there.
pub fn value(
    alloc: Global,
    screen: &Screen,
    scopes: &Scopes,
    win: Win,
) -> Result<Option<Text>, AllocError>
    ensures { IfOk result (λ value. value ≡ value_of (own_of win.owner screen.now) scopes.now win.number) }
{
    let Some(widget) = screen.widgets.get(win) else {
        return Ok(None);
    };
    widget.value(alloc, variable_text(widget, scopes))
}
