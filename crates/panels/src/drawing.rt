//! A picture of panels, as SVG.

ghost use Rattle.std.specs.Prelude.{◌≡◌, ◌++◌, ◌∷◌, option_map, IfOk, OnOk};
ghost use Rattle.std.specs.Fmt.{decimal};
ghost use Rattle.panels.specs.Picture.{attribute, box, content, corner, edge, edges, escape_of, escaped, escaped_byte, first_row, is_centered, is_hidden, panel_body, panel_class, panel_place, panel_text, panel_title, panels_text, picture, pointer_text, row_left, row_text, rows_text, start, view_box, window_ground, window_look, window_open, window_part, window_shown, window_text, windows_text};

use crate::shape::Shape;
use itoa::Buffer;
use std::alloc::{AllocError, Global};
use tk_base::Rect;

/// A window, and the rows of text in it.
#[derive(Drop)]
pub struct DrawnWindow {
    pub shape: Shape,
    pub rows: Vec<Vec<u8>>,
    /// Words behind its class, by which a style may tell it: a blank stands before each.
    pub marks: Vec<u8>,
    /// A style of its own.
    pub style: Vec<u8>,
}

/// A panel.
#[derive(Drop)]
pub struct DrawnPanel {
    /// What is said of it where a pointer rests on it.
    pub title: Vec<u8>,
    pub rect: Rect,
    pub has_keys: bool,
    pub windows: Vec<DrawnWindow>,
}

/// A screen.
#[derive(Drop)]
pub struct Scene {
    /// In pixels.
    pub width: u64,
    /// In pixels.
    pub height: u64,
    pub panels: Vec<DrawnPanel>,
    /// Where the pointer is, if it has come somewhere.
    pub pointer: Option<(u64, u64)>,
}

/// Adds a number.
fn push_number(text: &mut Vec<u8>, number: u64) -> Result<(), AllocError>
    ensures { OnOk result (text.new.items ≡ text.old.items ++ decimal number) }
{
    text.extend_from_slice(Buffer::new().format(number).as_bytes())
}

/// Adds a number and its name.
fn push_attribute(text: &mut Vec<u8>, name: &[u8], number: u64) -> Result<(), AllocError>
    ensures { OnOk result (text.new.items ≡ text.old.items ++ attribute name.now number) }
{
    text.push(b' ')?;
    text.extend_from_slice(name)?;
    text.extend_from_slice(b"=\"")?;
    push_number(text, number)?;
    Ok(text.push(b'"')?)
}

/// Adds a place and a size.
fn push_box(text: &mut Vec<u8>, x: u64, y: u64, width: u64, height: u64) -> Result<(), AllocError>
    ensures { OnOk result (text.new.items ≡ text.old.items ++ box x y width height) }
{
    push_attribute(text, b"x", x)?;
    push_attribute(text, b"y", y)?;
    push_attribute(text, b"width", width)?;
    push_attribute(text, b"height", height)
}

/// What stands for a byte that a text of XML hasn't as it is; a control character's is the replacement character.
fn escape_of(byte: u8) -> Option<&'static [u8]>
    ensures { option_map (λ escape. escape.now) result ≡ escape_of byte }
{
    match byte {
        b'&' => Some(b"&amp;"),
        b'<' => Some(b"&lt;"),
        b'>' => Some(b"&gt;"),
        b'"' => Some(b"&quot;"),
        0..=31 => Some(b"\xef\xbf\xbd"),
        _ => None,
    }
}

/// Adds a byte of a text.
fn push_byte(text: &mut Vec<u8>, byte: u8) -> Result<(), AllocError>
    ensures { OnOk result (text.new.items ≡ text.old.items ++ escaped_byte byte) }
{
    match escape_of(byte) {
        Some(escape) => text.extend_from_slice(escape),
        None => Ok(text.push(byte)?),
    }
}

/// Adds a text.
fn push_escaped(text: &mut Vec<u8>, words: &[u8]) -> Result<(), AllocError>
    ensures { OnOk result (text.new.items ≡ text.old.items ++ escaped words.now) }
{
    for byte in words {
        push_byte(text, *byte)?;
    }
    Ok(())
}

/// Whether a window's text stands in its middle.
fn is_centered(class: &[u8]) -> bool
    ensures { result ≡ is_centered class.now }
{
    class == b"Label".as_slice() || class == b"Button".as_slice()
}

/// From where the rows of a window are placed across.
fn row_left(shape: &Shape) -> u64
    ensures { result ≡ row_left shape.now }
{
    if is_centered(shape.class.as_slice()) {
        shape.x.saturating_add(shape.width / 2)
    } else {
        shape.x.saturating_add(2)
    }
}

/// Where the first of so many rows of a window stands: a row is 16 pixels high, and its letters stand 12 below its upper edge.
fn first_row(shape: &Shape, count: u64) -> u64
    ensures { result ≡ first_row shape.now count }
{
    if shape.class.as_slice() == b"Listbox".as_slice() {
        shape.y.saturating_add(13)
    } else {
        let middle = shape.y.saturating_add(shape.height / 2);
        middle
            .saturating_add(12)
            .saturating_sub(count.saturating_mul(8))
    }
}

/// Adds a row of text.
fn push_row(text: &mut Vec<u8>, x: u64, y: u64, row: &[u8]) -> Result<(), AllocError>
    ensures { OnOk result (text.new.items ≡ text.old.items ++ row_text x y row.now) }
{
    text.extend_from_slice(b"<text")?;
    push_attribute(text, b"x", x)?;
    push_attribute(text, b"y", y)?;
    text.push(b'>')?;
    push_escaped(text, row)?;
    text.extend_from_slice(b"</text>")
}

/// Adds rows of text, one below another.
fn push_rows(text: &mut Vec<u8>, x: u64, y: u64, rows: &[Vec<u8>]) -> Result<(), AllocError>
    ensures { OnOk result (text.new.items ≡ text.old.items ++ rows_text x y rows.now) }
{
    let mut y = y;
    for row in rows {
        push_row(text, x, y, row.as_slice())?;
        y = y.saturating_add(16);
    }
    Ok(())
}

/// Adds a letter of a path and a number.
fn push_step(text: &mut Vec<u8>, step: u8, number: u64) -> Result<(), AllocError>
    ensures { OnOk result (text.new.items ≡ text.old.items ++ step ∷ decimal number) }
{
    text.push(step)?;
    push_number(text, number)
}

/// Where a step up, or else one to the right, comes to.
fn corner(step: u8, shape: &Shape) -> u64
    ensures { result ≡ corner step shape.now }
{
    if step == b'V' {
        shape.y
    } else {
        shape.x.saturating_add(shape.width)
    }
}

/// Adds the beginning of a path, at the lower left corner of a window.
fn push_start(text: &mut Vec<u8>, class: &[u8], shape: &Shape) -> Result<(), AllocError>
    ensures { OnOk result (text.new.items ≡ text.old.items ++ start class.now shape.now) }
{
    text.extend_from_slice(b"<path class=\"")?;
    text.extend_from_slice(class)?;
    text.extend_from_slice(b"\" d=\"M")?;
    push_number(text, shape.x)?;
    push_step(text, b' ', shape.y.saturating_add(shape.height))
}

/// Adds two edges of a window: from its lower left corner by way of another to its upper right one.
fn push_edge(
    text: &mut Vec<u8>,
    class: &[u8],
    shape: &Shape,
    first: u8,
    second: u8,
) -> Result<(), AllocError>
    ensures { OnOk result (text.new.items ≡ text.old.items ++ edge class.now first second shape.now) }
{
    push_start(text, class, shape)?;
    push_step(text, first, corner(first, shape))?;
    push_step(text, second, corner(second, shape))?;
    text.extend_from_slice(b"\"/>")
}

/// Adds the part of its panel that is shown of a window.
fn push_part(text: &mut Vec<u8>, shape: &Shape) -> Result<(), AllocError>
    ensures { OnOk result (text.new.items ≡ text.old.items ++ window_part shape.now) }
{
    let width = shape.right.saturating_sub(shape.left);
    let height = shape.bottom.saturating_sub(shape.top);
    text.extend_from_slice(b"<svg")?;
    push_box(text, shape.left, shape.top, width, height)
}

/// Adds how a window looks: its class, and its own style.
fn push_look(text: &mut Vec<u8>, window: &DrawnWindow) -> Result<(), AllocError>
    ensures { OnOk result (text.new.items ≡ text.old.items ++ window_look window.now) }
{
    text.extend_from_slice(b" class=\"")?;
    push_escaped(text, window.shape.class.as_slice())?;
    push_escaped(text, window.marks.as_slice())?;
    text.extend_from_slice(b"\" style=\"")?;
    push_escaped(text, window.style.as_slice())?;
    Ok(text.push(b'"')?)
}

/// Adds the beginning of a window's picture, which is what is shown of it.
fn push_open(text: &mut Vec<u8>, window: &DrawnWindow) -> Result<(), AllocError>
    ensures { OnOk result (text.new.items ≡ text.old.items ++ window_open window.now) }
{
    push_part(text, &window.shape)?;
    push_look(text, window)
}

/// Adds the part of the panel that a window's picture views.
fn push_view(text: &mut Vec<u8>, shape: &Shape) -> Result<(), AllocError>
    ensures { OnOk result (text.new.items ≡ text.old.items ++ view_box shape.now) }
{
    text.extend_from_slice(b" viewBox=\"")?;
    push_number(text, shape.left)?;
    push_step(text, b' ', shape.top)?;
    push_step(text, b' ', shape.right.saturating_sub(shape.left))?;
    push_step(text, b' ', shape.bottom.saturating_sub(shape.top))?;
    text.extend_from_slice(b"\">")
}

/// Adds what a window is, and its whole place.
fn push_ground(text: &mut Vec<u8>, shape: &Shape) -> Result<(), AllocError>
    ensures { OnOk result (text.new.items ≡ text.old.items ++ window_ground shape.now) }
{
    text.extend_from_slice(b"<title>")?;
    push_escaped(text, shape.path.as_slice())?;
    text.extend_from_slice(b"</title><rect")?;
    push_box(text, shape.x, shape.y, shape.width, shape.height)?;
    text.extend_from_slice(b"/>")
}

/// Whether nothing is shown of a window.
fn is_hidden(shape: &Shape) -> bool
    ensures { result ≡ is_hidden shape.now }
{
    shape.right <= shape.left || shape.bottom <= shape.top
}

/// Adds the edges of a window: the left and the upper one, and the lower and the right one.
fn push_edges(text: &mut Vec<u8>, shape: &Shape) -> Result<(), AllocError>
    ensures { OnOk result (text.new.items ≡ text.old.items ++ edges shape.now) }
{
    push_edge(text, b"upper", shape, b'V', b'H')?;
    push_edge(text, b"lower", shape, b'H', b'V')
}

/// Adds the rows of a window, and the end of its picture.
fn push_content(text: &mut Vec<u8>, window: &DrawnWindow) -> Result<(), AllocError>
    ensures { OnOk result (text.new.items ≡ text.old.items ++ content window.now) }
{
    let rows = window.rows.as_slice();
    let shape = &window.shape;
    push_rows(
        text,
        row_left(shape),
        first_row(shape, rows.len() as u64),
        rows,
    )?;
    text.extend_from_slice(b"</svg>\n")
}

/// Adds a window of which something is shown.
fn push_shown(text: &mut Vec<u8>, window: &DrawnWindow) -> Result<(), AllocError>
    ensures { OnOk result (text.new.items ≡ text.old.items ++ window_shown window.now) }
{
    let shape = &window.shape;
    push_open(text, window)?;
    push_view(text, shape)?;
    push_ground(text, shape)?;
    push_edges(text, shape)?;
    push_content(text, window)?;
    Ok(())
}

/// Adds a window.
fn push_window(text: &mut Vec<u8>, window: &DrawnWindow) -> Result<(), AllocError>
    ensures { OnOk result (text.new.items ≡ text.old.items ++ window_text window.now) }
{
    if is_hidden(&window.shape) {
        return Ok(());
    }
    push_shown(text, window)
}

/// Adds windows, each above those before it.
fn push_windows(text: &mut Vec<u8>, windows: &[DrawnWindow]) -> Result<(), AllocError>
    ensures { OnOk result (text.new.items ≡ text.old.items ++ windows_text windows.now) }
{
    for window in windows {
        push_window(text, window)?;
    }
    Ok(())
}

/// Adds the class of a panel, and what stands in front of its title.
fn push_class(text: &mut Vec<u8>, has_keys: bool) -> Result<(), AllocError>
    ensures { OnOk result (text.new.items ≡ text.old.items ++ panel_class has_keys) }
{
    if has_keys {
        text.extend_from_slice(b" class=\"panel keys\"><title>")
    } else {
        text.extend_from_slice(b" class=\"panel\"><title>")
    }
}

/// Adds the beginning of a panel's picture, at its place on the screen.
fn push_place(text: &mut Vec<u8>, rect: Rect) -> Result<(), AllocError>
    ensures { OnOk result (text.new.items ≡ text.old.items ++ panel_place rect) }
{
    let (x, y) = (u64::from(rect.x), u64::from(rect.y));
    text.extend_from_slice(b"<svg")?;
    push_box(text, x, y, u64::from(rect.width), u64::from(rect.height))
}

/// Adds the title of a panel.
fn push_title(text: &mut Vec<u8>, panel: &DrawnPanel) -> Result<(), AllocError>
    ensures { OnOk result (text.new.items ≡ text.old.items ++ panel_title panel.now) }
{
    push_class(text, panel.has_keys)?;
    push_escaped(text, panel.title.as_slice())?;
    text.extend_from_slice(b"</title>\n")
}

/// Adds the windows of a panel, its edge, and the end of its picture.
fn push_body(text: &mut Vec<u8>, panel: &DrawnPanel) -> Result<(), AllocError>
    ensures { OnOk result (text.new.items ≡ text.old.items ++ panel_body panel.now) }
{
    push_windows(text, panel.windows.as_slice())?;
    text.extend_from_slice(b"<rect class=\"edge\" width=\"100%\" height=\"100%\"/></svg>\n")
}

/// Adds a panel.
fn push_panel(text: &mut Vec<u8>, panel: &DrawnPanel) -> Result<(), AllocError>
    ensures { OnOk result (text.new.items ≡ text.old.items ++ panel_text panel.now) }
{
    push_place(text, panel.rect)?;
    push_title(text, panel)?;
    push_body(text, panel)?;
    Ok(())
}

fn push_panels(text: &mut Vec<u8>, panels: &[DrawnPanel]) -> Result<(), AllocError>
    ensures { OnOk result (text.new.items ≡ text.old.items ++ panels_text panels.now) }
{
    for panel in panels {
        push_panel(text, panel)?;
    }
    Ok(())
}

/// Adds the pointer.
fn push_pointer(text: &mut Vec<u8>, pointer: Option<(u64, u64)>) -> Result<(), AllocError>
    ensures { OnOk result (text.new.items ≡ text.old.items ++ pointer_text pointer) }
{
    let Some((x, y)) = pointer else {
        return Ok(());
    };
    text.extend_from_slice(b"<svg class=\"pointer\"")?;
    push_box(text, x, y, 12, 20)?;
    text.extend_from_slice(
        b"><title>the pointer</title><path d=\"M1 1V16L5 13L8 19L10 18L7 12H12z\"/></svg>\n",
    )
}

/// A screen as SVG: a nested picture for each panel in its rectangle, and in that one for each window of which something is shown, whose view is that
/// part of the panel. `front` stands in front of all. An error where memory is refused.
pub fn picture(alloc: Global, scene: &Scene, front: &[u8]) -> Result<Vec<u8>, AllocError>
    ensures { IfOk result (λ text. text.items ≡ picture scene.now front.now) }
{
    let mut text = Vec::from_slice(alloc, b"<svg xmlns=\"http://www.w3.org/2000/svg\"")?;
    push_attribute(&mut text, b"width", scene.width)?;
    push_attribute(&mut text, b"height", scene.height)?;
    text.push(b'>')?;
    text.extend_from_slice(front)?;
    push_panels(&mut text, scene.panels.as_slice())?;
    push_pointer(&mut text, scene.pointer)?;
    text.extend_from_slice(b"</svg>\n")?;
    Ok(text)
}
