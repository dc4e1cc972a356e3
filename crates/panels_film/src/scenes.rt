//! Screens to be drawn.

ghost use Rattle.std.specs.Prelude.{◌≡◌, map, IfOk};
ghost use Rattle.panels.specs.Gestures.{has_keys};
ghost use Rattle.panels.specs.Shapes.{shapes_of};
ghost use Rattle.panels_film.specs.Scenes.{IsScene, drawn, panel_in, panels_from, placed, pointer_at};

use crate::film::Frame;
use crate::heads::{head, section_in};
use crate::looks::WindowLook;
use crate::moments::first_of;
use crate::screens::{extent_of, screen_after};
use panels::{DrawnPanel, DrawnWindow, Scene, Screen, Shape, Spot, shapes};
use panels_text::{as_text, name_at, rows_of};
use std::alloc::{AllocError, Global};
use tk_base::Rect;
use tk_session::{AppBlock, EventLine};

/// What stands in front of the panels of a picture: how windows of each class look.
pub const STYLE: &str = "\
<style>
.panel > rect { fill: none; stroke: #8a8a8a }
.keys > rect { stroke: #1a5fb4; stroke-width: 4 }
.Tk, .Frame, .Label, .Button { fill: #d9d9d9; color: #000000 }
.Entry, .Listbox { fill: #ffffff; color: #000000 }
.panel path { fill: none; stroke: none; stroke-width: var(--edge, 4px) }
.raised > .upper, .ridge > .upper, .sunken > .lower, .groove > .lower { stroke: #f6f6f6 }
.raised > .lower, .ridge > .lower, .sunken > .upper, .groove > .upper { stroke: #7a7a7a }
.solid > path { stroke: #000000 }
.focused > rect { stroke: #1a5fb4; stroke-width: 4; stroke-dasharray: 3 2 }
.panel text { font: 13px 'DejaVu Sans Mono', monospace; fill: currentColor; white-space: pre }
.disabled { color: #7a7a7a !important }
.Label > text, .Button > text { text-anchor: middle }
.pointer path { fill: #000000; stroke: #ffffff }
</style>
";

/// The rows of text that a window shows. An error where memory is refused.
fn rows(alloc: Global, shape: &Shape) -> Result<Vec<Vec<u8>>, AllocError> {
    match rows_of(alloc, shape.class.as_slice(), shape.value.as_slice()) {
        Ok(rows) => Ok(rows),
        Err(_) => Err(AllocError),
    }
}

/// A window that looks like this, where it is told how.
fn window(alloc: Global, shape: Shape, look: Option<&WindowLook>) -> Result<DrawnWindow, AllocError>
    ensures { IfOk result (λ window. window.shape ≡ shape) }
{
    let rows = rows(alloc, &shape)?;
    let (marks, style) = match look {
        Some(look) => (look.marks.as_str(), look.style.as_str()),
        None => ("", ""),
    };
    Ok(DrawnWindow {
        shape,
        rows,
        marks: Vec::from_slice(alloc, marks.as_bytes())?,
        style: Vec::from_slice(alloc, style.as_bytes())?,
    })
}

/// The windows of a section, which look like this.
fn windows(
    alloc: Global,
    section: &[u8],
    looks: &[WindowLook],
) -> Result<Vec<DrawnWindow>, AllocError>
    ensures { IfOk result (λ windows. map drawn windows.items ≡ shapes_of section.now) }
{
    let mut windows = Vec::new(alloc);
    let mut number = 0usize;
    for shape in shapes(alloc, section)? {
        windows.push(window(alloc, shape, looks.get(number))?)?;
        number = number.saturating_add(1);
    }
    Ok(windows)
}

/// The name of a panel, and its state.
fn title(alloc: Global, name: &str, section: &[u8]) -> Result<Vec<u8>, AllocError> {
    let head = head(as_text(section));
    let state = head.split(' ').nth(1).unwrap_or("");
    let text = format!(in alloc; "{name}: {state}")?;
    Ok(Vec::from_slice(alloc, text.as_str().as_bytes())?)
}

/// How the windows of the panel in a slot look, where it is told.
fn looks_in(looks: &[Vec<WindowLook>], slot: usize) -> &[WindowLook] {
    match looks.get(slot) {
        Some(looks) => looks.as_slice(),
        None => &[],
    }
}

/// The panel in a slot, in its rectangle.
fn panel(
    alloc: Global,
    name: &str,
    rect: Rect,
    has_keys: bool,
    frame: &Frame,
    slot: usize,
) -> Result<DrawnPanel, AllocError>
    ensures { IfOk result (λ panel. placed panel ≡ panel_in frame.now.sections.items slot rect has_keys) }
{
    let section = section_in(frame.sections.as_slice(), slot);
    let looks = looks_in(frame.looks.as_slice(), slot);
    Ok(DrawnPanel {
        title: title(alloc, name, section)?,
        rect,
        has_keys,
        windows: windows(alloc, section, looks)?,
    })
}

/// The panels in these rectangles, one of which has the keyboard.
fn drawn_panels(
    alloc: Global,
    panels: &[AppBlock],
    screen: &Screen,
    frame: &Frame,
) -> Result<Vec<DrawnPanel>, AllocError>
    ensures { IfOk result (λ drawn. map placed drawn.items ≡ panels_from screen.now.keys frame.now.sections.items 0 screen.now.rects.items) }
{
    let mut drawn = Vec::new(alloc);
    for (slot, rect) in screen.rects.iter().enumerate() {
        let name = name_at(panels, slot);
        let has_keys = has_keys(screen.keys, slot);
        drawn.push(panel(alloc, name, *rect, has_keys, frame, slot)?)?;
    }
    Ok(drawn)
}

/// Whether the panel in a slot has the keyboard.
fn has_keys(keys: Option<usize>, slot: usize) -> bool
    ensures { result ≡ has_keys slot keys }
{
    match keys {
        Some(other) => other == slot,
        None => false,
    }
}

/// Where the pointer is.
fn pointer_at(pointer: Option<Spot>) -> Option<(u64, u64)>
    ensures { result ≡ pointer_at pointer }
{
    match pointer {
        Some(spot) => Some((u64::from(spot.x), u64::from(spot.y))),
        None => None,
    }
}

/// The screen of panels at a moment, to which these lines of a session lead and the frame belongs. An error where memory is refused.
pub fn scene(
    alloc: Global,
    panels: &[AppBlock],
    events: &[EventLine],
    frame: &Frame,
) -> Result<Scene, AllocError>
    ensures { IfOk result (IsScene panels.now events.now frame.now) }
{
    let screen = screen_after(alloc, panels, first_of(events, frame.count))?;
    let extent = extent_of(panels, events);
    Ok(Scene {
        width: extent.width,
        height: extent.height,
        panels: drawn_panels(alloc, panels, &screen, frame)?,
        pointer: pointer_at(screen.pointer),
    })
}
