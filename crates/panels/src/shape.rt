//! The windows of a panel, to be drawn.

ghost use Rattle.std.specs.Prelude.{◌≡◌, map, IfOk};
ghost use Rattle.panels.specs.Shapes.{pane_at, shape_in, shapes_from, shapes_of, shown};

use crate::pane::{Pane, SCREEN, panes_of};
use crate::words::{after, lines_with, number_at, word};
use std::alloc::{AllocError, Global};

/// A window to be drawn. Places are in pixels, from the upper left corner of its panel.
#[derive(Drop)]
pub struct Shape {
    /// Its path, as a section writes it.
    pub path: Vec<u8>,
    pub class: Vec<u8>,
    /// What it shows, as a section writes it.
    pub value: Vec<u8>,
    pub x: u64,
    pub y: u64,
    pub width: u64,
    pub height: u64,
    /// The left edge of what is shown of it.
    pub left: u64,
    /// The upper edge of that.
    pub top: u64,
    /// Its right edge, which isn't shown any more: where it isn't behind `left`, nothing is shown.
    pub right: u64,
    /// Its lower edge, likewise.
    pub bottom: u64,
}

/// The window that a line tells, where it has this pane.
fn shape_in(alloc: Global, line: &[u8], pane: &Pane) -> Result<Shape, AllocError>
    ensures { IfOk result (λ shape. shown shape ≡ shape_in line.now pane.now) }
{
    Ok(Shape {
        path: Vec::from_slice(alloc, word(line, 1))?,
        class: Vec::from_slice(alloc, word(line, 2))?,
        value: Vec::from_slice(alloc, after(line, 8))?,
        x: pane.x,
        y: pane.y,
        width: number_at(line, 5),
        height: number_at(line, 6),
        left: pane.left,
        top: pane.top,
        right: pane.right,
        bottom: pane.bottom,
    })
}

/// The pane of the window of this number.
fn pane_at(panes: &[Pane], index: usize) -> Pane
    ensures { result ≡ pane_at panes.now index }
{
    panes.get(index).copied().unwrap_or(SCREEN)
}

/// The windows that lines tell, with these panes.
fn shapes_in(alloc: Global, lines: &[&[u8]], panes: &[Pane]) -> Result<Vec<Shape>, AllocError>
    ensures { IfOk result (λ shapes. map shown shapes.items ≡ shapes_from panes.now 0 (map (λ line. line.now) lines.now)) }
{
    let mut shapes = Vec::new(alloc);
    for (index, line) in lines.iter().enumerate() {
        shapes.push(shape_in(alloc, *line, &pane_at(panes, index))?)?;
    }
    Ok(shapes)
}

/// The windows that a section tells, in its order, with their places: each in its parent's, where the tree has it. An error where memory is refused.
pub fn shapes(alloc: Global, section: &[u8]) -> Result<Vec<Shape>, AllocError>
    ensures { IfOk result (λ shapes. map shown shapes.items ≡ shapes_of section.now) }
{
    let lines = lines_with(alloc, section, b"win")?;
    let panes = panes_of(alloc, lines.as_slice())?;
    shapes_in(alloc, lines.as_slice(), panes.as_slice())
}
