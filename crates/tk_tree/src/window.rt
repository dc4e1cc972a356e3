ghost use Rattle.std.specs.Prelude.{◌≡◌, ◌<◌, ◌^◌, IfOk};
ghost use Rattle.tk_tree.specs.Change.{tags_or_default};
ghost use Rattle.tk_tree.specs.Ways.{has_point};
ghost use Rattle.tk_tree.specs.Window.{default_tags, new_window};

use std::alloc::{AllocError, Global};
use tcl_text::message::short_text;
use tcl_text::{Text, TextList};
use tk_base::{Kind, Rect};

/// A window of an application.
#[derive(Drop)]
pub struct Window {
    /// Its number, which no other window of the application has had or will have.
    pub number: u64,
    /// Its path name, as `.a.b`.
    pub path: Text,
    pub kind: Kind,
    /// The number of the window that it is a child of; none for the main window.
    pub parent: Option<u64>,
    /// Its binding tags, in the order in which they are tried (bindtags(n)).
    pub tags: TextList,
    /// Where it was laid out, in pixels; 1 by 1 at 0 0 at first.
    pub rectangle: Rect,
    /// Whether it is mapped.
    pub mapped: bool,
    /// Whether it is being destroyed.
    pub dying: bool,
}

/// A window that hasn't been laid out.
pub fn new_window(
    alloc: Global,
    number: u64,
    path: &Text,
    kind: Kind,
    parent: Option<u64>,
) -> Result<Window, AllocError>
    ensures { IfOk result (λ window. window ≡ new_window number path.now kind parent) }
{
    Ok(Window {
        number,
        path: path.copy()?,
        kind,
        parent,
        tags: default_tags(alloc, path, kind)?,
        rectangle: Rect {
            x: 0,
            y: 0,
            width: 1,
            height: 1,
        },
        mapped: false,
        dying: false,
    })
}

/// Whether a mapped window has a point, which is told from its parent's corner.
pub fn has_point(window: &Window, x: u32, y: u32) -> bool
    ensures { result ≡ has_point x y window.now }
{
    let rectangle = window.rectangle;
    window.mapped
        && rectangle.x <= x
        && u64::from(x) < u64::from(rectangle.x) + u64::from(rectangle.width)
        && rectangle.y <= y
        && u64::from(y) < u64::from(rectangle.y) + u64::from(rectangle.height)
}

/// How far across and down a window lies in its parent, in pixels.
pub fn offset(window: &Window) -> (u64, u64)
    ensures across { result.0 ≡ window.now.rectangle.x }
    ensures down { result.1 ≡ window.now.rectangle.y }
    ensures small { (result.0 < 2 ^ 32) × (result.1 < 2 ^ 32) }
{
    let x = window.rectangle.x;
    let y = window.rectangle.y;
    (u64::from(x), u64::from(y))
}

/// The tags of a window for which none were set: its path, its class, `.` and `all`, and for the main window `.`, `Tk` and `all`.
#[tactic(auto, unfolding(crate::specs::Window::default_tags))]
pub fn default_tags(alloc: Global, path: &Text, kind: Kind) -> Result<TextList, AllocError>
    ensures { IfOk result (λ tags. tags ≡ default_tags path.now kind) }
{
    let mut tags = TextList::with_capacity(alloc, 4)?;
    if path.as_str() == "." {
        tags.push(short_text(alloc, ".")?)?;
        tags.push(short_text(alloc, "Tk")?)?;
    } else {
        tags.push(path.copy()?)?;
        tags.push(short_text(alloc, kind.class())?)?;
        tags.push(short_text(alloc, ".")?)?;
    }
    tags.push(short_text(alloc, "all")?)?;
    Ok(tags)
}

/// These tags, or the default of the window where there are none.
pub fn tags_for(alloc: Global, window: &Window, tags: &[Text]) -> Result<TextList, AllocError>
    ensures { IfOk result (λ list. list ≡ tags_or_default tags.now window.now) }
{
    match tags {
        [] => default_tags(alloc, &window.path, window.kind),
        [_, ..] => copies(alloc, tags),
    }
}

/// Copies of texts.
fn copies(alloc: Global, texts: &[Text]) -> Result<TextList, AllocError>
    ensures { IfOk result (λ list. list ≡ texts.now) }
{
    let mut list = TextList::with_capacity(alloc, texts.len())?;
    for text in texts {
        list.push(text.copy()?)?;
    }
    Ok(list)
}
