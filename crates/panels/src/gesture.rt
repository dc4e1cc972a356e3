//! What a person does, as lines of a session.

ghost use Rattle.std.specs.Prelude.{◌≡◌, ◌≤◌, ◌+◌, ◌++◌, min, IfOk, OnOk};
ghost use Rattle.panels.specs.Gestures.{focusing, moved, nearer, outcome_at, outcome_of, passing, placed, pointed, rect_at, told_by, touched, way_to};
ghost use Rattle.panels.specs.Panes.{windows_in};

use crate::bench::{Gesture, Pointing, Touch};
use crate::pane::{Landing, Miss, Point, landing_at};
use crate::screen::{Screen, Spot};
use crate::words::lines_with;
use std::alloc::{AllocError, Global};
use tk_base::Rect;
use tk_session::HostLine;

/// What becomes of a gesture.
#[derive(Drop)]
pub(crate) enum Outcome {
    Lines(Vec<HostLine>),
    Missed(Miss),
}

/// The rectangle of a slot that no panel has.
const NOWHERE: Rect = Rect {
    x: 0,
    y: 0,
    width: 1,
    height: 1,
};

/// The rectangle of the panel in a slot.
fn rect_at(rects: &[Rect], slot: usize) -> Rect
    ensures { result ≡ rect_at rects.now slot }
{
    rects.get(slot).copied().unwrap_or(NOWHERE)
}

/// A place on the screen: no farther than the pointer goes.
fn place(corner: u32, inside: u64) -> u32
    ensures { result ≡ min (corner + inside) 65535 }
{
    u64::from(corner).saturating_add(inside).min(65_535) as u32
}

/// A point of a panel on the screen.
fn placed(rect: Rect, point: Point) -> Spot
    ensures { result ≡ placed rect point }
{
    Spot {
        x: place(rect.x, point.x),
        y: place(rect.y, point.y),
    }
}

/// The line that moves the pointer to a place.
fn moved(spot: Spot) -> HostLine
    ensures { result ≡ moved spot }
{
    HostLine::Move {
        x: spot.x,
        y: spot.y,
    }
}

/// Where a move comes from one place on the way to another, where so many are left with it.
fn nearer(from: u32, to: u32, left: u32) -> u32
    requires { 1 ≤ left }
    ensures { result ≡ nearer from to left }
{
    if from <= to {
        from + (to - from) / left
    } else {
        from - (from - to) / left
    }
}

/// Adds the moves from one place to another but the last, where there are so many with it.
fn push_passing(
    lines: &mut Vec<HostLine>,
    from: Spot,
    to: Spot,
    moves: u32,
) -> Result<(), AllocError>
    ensures { OnOk result (lines.new.items ≡ lines.old.items ++ passing from to moves) }
{
    let mut spot = from;
    let mut left = moves;
    while left > 1 {
        spot = Spot {
            x: nearer(spot.x, to.x, left),
            y: nearer(spot.y, to.y, left),
        };
        lines.push(moved(spot))?;
        left -= 1;
    }
    Ok(())
}

/// Adds the moves that bring the pointer to a place, from where it is.
fn push_way(
    lines: &mut Vec<HostLine>,
    pointer: Option<Spot>,
    to: Spot,
    moves: u32,
) -> Result<(), AllocError>
    ensures { OnOk result (lines.new.items ≡ lines.old.items ++ way_to to moves pointer) }
{
    if let Some(from) = pointer {
        push_passing(lines, from, to, moves)?;
    }
    Ok(lines.push(moved(to))?)
}

/// What a button does at a place that the pointer has come to.
fn push_touch(lines: &mut Vec<HostLine>, touch: Touch, button: u32) -> Result<(), AllocError>
    ensures { OnOk result (lines.new.items ≡ lines.old.items ++ touched touch button) }
{
    match touch {
        Touch::Move => Ok(()),
        Touch::Press => Ok(lines.push(HostLine::Press(button))?),
        Touch::Release => Ok(lines.push(HostLine::Release(button))?),
        Touch::Click => {
            lines.push(HostLine::Press(button))?;
            Ok(lines.push(HostLine::Release(button))?)
        }
        Touch::DoubleClick => {
            lines.push(HostLine::Press(button))?;
            lines.push(HostLine::Release(button))?;
            lines.push(HostLine::Press(button))?;
            Ok(lines.push(HostLine::Release(button))?)
        }
    }
}

/// Gives a panel the keyboard, where it is to have it and hasn't.
fn push_focus(
    lines: &mut Vec<HostLine>,
    takes_keys: bool,
    slot: usize,
    keys: Option<usize>,
) -> Result<(), AllocError>
    ensures { OnOk result (lines.new.items ≡ lines.old.items ++ focusing takes_keys slot keys) }
{
    if takes_keys && keys != Some(slot) {
        lines.push(HostLine::Focus(Some(slot)))?;
    }
    Ok(())
}

/// The lines of what the pointer does at a point of its panel.
fn pointed(
    alloc: Global,
    pointing: &Pointing,
    screen: &Screen,
    point: Point,
) -> Result<Vec<HostLine>, AllocError>
    ensures { IfOk result (λ lines. lines.items ≡ pointed pointing.now screen.now.rects.items screen.now.keys screen.now.pointer point) }
{
    let slot = pointing.target.slot;
    let mut lines = Vec::new(alloc);
    let spot = placed(rect_at(screen.rects.as_slice(), slot), point);
    push_way(&mut lines, screen.pointer, spot, pointing.moves)?;
    push_focus(&mut lines, pointing.takes_keys, slot, screen.keys)?;
    push_touch(&mut lines, pointing.touch, pointing.button)?;
    Ok(lines)
}

/// What becomes of what the pointer does, where its panel has this section.
fn pointer_outcome(
    alloc: Global,
    pointing: &Pointing,
    screen: &Screen,
    section: &[u8],
) -> Result<Outcome, AllocError>
    ensures { IfOk result (λ outcome. told_by outcome ≡ outcome_at pointing.now screen.now.rects.items screen.now.keys screen.now.pointer (windows_in section.now)) }
{
    let windows = lines_with(alloc, section, b"win")?;
    match landing_at(alloc, &pointing.target, windows.as_slice())? {
        Landing::At(point) => Ok(Outcome::Lines(pointed(alloc, pointing, screen, point)?)),
        Landing::Missed(miss) => Ok(Outcome::Missed(miss)),
    }
}

/// What becomes of a gesture, where the panel that it is for has this section.
pub(crate) fn outcome_of(
    alloc: Global,
    gesture: &Gesture,
    screen: &Screen,
    section: &[u8],
) -> Result<Outcome, AllocError>
    ensures { IfOk result (λ outcome. told_by outcome ≡ outcome_of gesture.now screen.now.rects.items screen.now.keys screen.now.pointer section.now) }
{
    match gesture {
        Gesture::Pointer(pointing) => pointer_outcome(alloc, pointing, screen, section),
        Gesture::Keys(lines) => match screen.keys {
            Some(_) => Ok(Outcome::Lines(Vec::from_slice(alloc, lines.as_slice())?)),
            None => Ok(Outcome::Missed(Miss::NoKeyboard)),
        },
        Gesture::Lines(lines) => Ok(Outcome::Lines(Vec::from_slice(alloc, lines.as_slice())?)),
    }
}
