//! What a person sees of windows, and where a press reaches one of them.

ghost use Rattle.std.specs.Prelude.{◌≡◌, ℕ, List, true, false, map, drop, All, IfOk, OnOk, IfNone, position};
ghost use Rattle.std.specs.Borrow.{Bor};
ghost use Rattle.std.specs.Str.{bytes_eq};
ghost use Rattle.panels.specs.Words.{word};
ghost use Rattle.panels.specs.Panes.{aimed, has_point, index_of, landing_at, middle_of, pane_below, pane_in, panes_of, parent_of, parent_pane, point_in};

use crate::bench::Target;
use crate::words::{before_last, number_at, word};
use std::alloc::{AllocError, Global};

/// A pixel, from the upper left corner of a panel.
#[derive(Clone, Copy)]
pub(crate) struct Point {
    pub x: u64,
    pub y: u64,
}

/// The place of a window from the upper left corner of its panel, and the part of it that its ancestors show, without its right and lower edges:
/// of a window that isn't shown there is none.
#[derive(Clone, Copy)]
pub(crate) struct Pane {
    pub x: u64,
    pub y: u64,
    pub left: u64,
    pub top: u64,
    pub right: u64,
    pub bottom: u64,
}

/// Why a gesture hits nothing.
#[derive(Clone, Copy, Debug, PartialEq, Eq)]
pub enum Miss {
    /// Its window isn't there.
    NoWindow,
    /// The point lies in no part of the window that is shown.
    Hidden,
    /// A window above it has the point: the one of this number among those behind it in the section, from 0 on.
    Covered(usize),
    /// No panel has the keyboard.
    NoKeyboard,
}

/// Where a gesture lands.
#[derive(Clone, Copy)]
pub(crate) enum Landing {
    At(Point),
    Missed(Miss),
}

/// All that a panel shows at most.
pub(crate) const SCREEN: Pane = Pane {
    x: 0,
    y: 0,
    left: 0,
    top: 0,
    right: 65_536,
    bottom: 65_536,
};

/// Whether a point lies in what is shown of a window.
fn has_point(pane: &Pane, x: u64, y: u64) -> bool
    ensures { result ≡ has_point x y pane.now }
{
    pane.left <= x && x < pane.right && pane.top <= y && y < pane.bottom
}

/// What is shown of a window of its parent's pane: its place in the parent and its size.
fn pane_below(is_mapped: bool, x: u64, y: u64, width: u64, height: u64, parent: &Pane) -> Pane
    ensures { result ≡ pane_below is_mapped x y width height parent.now }
{
    let x = parent.x.saturating_add(x);
    let y = parent.y.saturating_add(y);
    let left = parent.left.max(x);
    let right = if is_mapped {
        parent.right.min(x.saturating_add(width))
    } else {
        left
    };
    Pane {
        x,
        y,
        left,
        top: parent.top.max(y),
        right,
        bottom: parent.bottom.min(y.saturating_add(height)),
    }
}

/// The pane of the window that a line tells.
fn pane_in(line: &[u8], parent: &Pane) -> Pane
    ensures { result ≡ pane_in line.now parent.now }
{
    pane_below(
        word(line, 7) == b"1".as_slice(),
        number_at(line, 3),
        number_at(line, 4),
        number_at(line, 5),
        number_at(line, 6),
        parent,
    )
}

/// The first line that tells a window of a path.
fn first_line(lines: &[&[u8]], path: &[u8]) -> Option<usize>
    ensures { result ≡ position (λ (line : Bor (List ℕ)). bytes_eq (word 1 line.now) path.now) lines.now }
{
    lines.iter().position(|line| word(*line, 1) == path)
}

/// The number of the line that tells a window, by its path.
pub(crate) fn index_of(lines: &[&[u8]], path: &[u8]) -> Option<usize>
    ensures { result ≡ index_of path.now (map (λ line. line.now) lines.now) }
{
    first_line(lines, path)
}

/// The path of a window's parent; of the main window its own.
fn parent_of(path: &[u8]) -> &[u8]
    ensures { result.now ≡ parent_of path.now }
{
    let front = before_last(path, b'.');
    if front.is_empty() { b"." } else { front }
}

/// The pane of a window's parent, which stands before it.
fn parent_pane(lines: &[&[u8]], panes: &[Pane], path: &[u8]) -> Pane
    ensures { result ≡ parent_pane (map (λ line. line.now) lines.now) panes.now path.now }
{
    match index_of(lines, parent_of(path)) {
        None => SCREEN,
        Some(index) => panes.get(index).copied().unwrap_or(SCREEN),
    }
}

/// The panes of windows, each of which stands behind its parent.
pub(crate) fn panes_of(alloc: Global, lines: &[&[u8]]) -> Result<Vec<Pane>, AllocError>
    ensures { IfOk result (λ panes. panes.items ≡ panes_of (map (λ line. line.now) lines.now)) }
{
    let mut panes: Vec<Pane> = Vec::new(alloc);
    for line in lines {
        let parent = parent_pane(lines, panes.as_slice(), word(*line, 1));
        panes.push(pane_in(*line, &parent))?;
    }
    Ok(panes)
}

/// The middle of a window of this size at the place of a pane.
fn middle(pane: &Pane, width: u64, height: u64) -> Point
    ensures { result ≡ middle_of width height pane.now }
{
    Point {
        x: pane.x.saturating_add(width / 2),
        y: pane.y.saturating_add(height / 2),
    }
}

/// The point of a target in its panel, where its window has this pane and this line.
fn point_in(target: &Target, pane: &Pane, line: &[u8]) -> Point
    ensures { result ≡ point_in target.now pane.now line.now }
{
    let middle = middle(pane, number_at(line, 5), number_at(line, 6));
    Point {
        x: match target.x {
            Some(x) => pane.x.saturating_add(x),
            None => middle.x,
        },
        y: match target.y {
            Some(y) => pane.y.saturating_add(y),
            None => middle.y,
        },
    }
}

/// The first of the windows that have a point.
fn covering(above: &[Pane], x: u64, y: u64) -> Option<usize>
    ensures place { result ≡ position (has_point x y) above.now }
    ensures free { IfNone result (All (λ other. has_point x y other ≡ false) above.now) }
{
    above.iter().position(|other| has_point(other, x, y))
}

/// Whether a press at a point reaches a window: the point lies in what is shown of it, and in no window above it. Those are all behind it in the
/// order of a section, in which a parent stands before its children and the window that was made last is the highest of its siblings.
fn aim(pane: &Pane, above: &[Pane], point: Point) -> Landing
    ensures { result ≡ aimed point pane.now above.now }
{
    if !has_point(pane, point.x, point.y) {
        return Landing::Missed(Miss::Hidden);
    }
    match covering(above, point.x, point.y) {
        Some(place) => Landing::Missed(Miss::Covered(place)),
        None => Landing::At(point),
    }
}

/// Where a gesture lands among the windows that these lines tell.
pub(crate) fn landing_at(
    alloc: Global,
    target: &Target,
    lines: &[&[u8]],
) -> Result<Landing, AllocError>
    ensures { IfOk result (λ landing. landing ≡ landing_at target.now (map (λ line. line.now) lines.now)) }
{
    let Some(index) = index_of(lines, target.window.as_str().as_bytes()) else {
        return Ok(Landing::Missed(Miss::NoWindow));
    };
    let panes = panes_of(alloc, lines)?;
    let (Some(line), [pane, above @ ..]) = (lines.get(index), behind_index(panes.as_slice(), index))
    else {
        return Ok(Landing::Missed(Miss::NoWindow));
    };
    Ok(aim(pane, above, point_in(target, pane, *line)))
}

/// The panes from this one on.
fn behind_index(panes: &[Pane], index: usize) -> &[Pane]
    ensures { result.now ≡ drop index panes.now }
{
    panes.get(index..).unwrap_or(&[])
}
