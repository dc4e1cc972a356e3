ghost use Rattle.std.specs.Prelude.{◌≡◌, ◌↔◌, IsTrue, MatchResult};
ghost use Rattle.tk_route.specs.Refusals.{IsFirst, NoneApplies, Refuses, covers, faults_beside, line_faults, names_nobody};
ghost use Rattle.tk_route.specs.Screen.{IsOnScreen};

use crate::fault::LineFault;
use crate::rects::shares_with_another;
use tk_base::{Keysym, MAX_MOMENT, MAX_PIXELS, MAX_PLACE, Rect};

/// A line of a session: what happens at the screen and the keyboard. Places and sizes are in pixels, places from the screen's upper left
/// corner. Applications are told by their slots, from 0 on.
#[derive(Clone, Copy, Debug, PartialEq, Eq)]
pub enum HostLine {
    /// The pointer moves to here: from 0 to 65,535 in each axis.
    Move { x: u32, y: u32 },
    /// A button, from 1 to 5, is pressed.
    Press(u32),
    /// A button, from 1 to 5, is released.
    Release(u32),
    Keydown(Keysym),
    Keyup(Keysym),
    /// The keys go to this application from now on, or to none.
    Focus(Option<usize>),
    /// The application's rectangle is this one from now on: its corner from 0 to 32,767 in each axis, its width and height from 1 to 32,767.
    Rect { slot: usize, rect: Rect },
}

impl HostLine {
    ghost use Rattle.tk_route.specs.Refusals.{IsInRange};

    /// Whether its numbers lie in the ranges of a session.
    pub fn is_in_range(&self) -> bool
        ensures { IsTrue result ↔ IsInRange self.now }
    {
        match *self {
            HostLine::Move { x, y } => x <= MAX_PLACE && y <= MAX_PLACE,
            HostLine::Press(button) | HostLine::Release(button) => 1 <= button && button <= 5,
            HostLine::Keydown(_) | HostLine::Keyup(_) | HostLine::Focus(_) => true,
            HostLine::Rect { slot: _, rect } => is_on_screen(rect),
        }
    }
}

/// Whether the rectangle's numbers lie in the ranges of a session.
pub(crate) fn is_on_screen(rect: Rect) -> bool
    ensures { IsTrue result ↔ IsOnScreen rect }
{
    rect.x <= MAX_PIXELS
        && rect.y <= MAX_PIXELS
        && 1 <= rect.width
        && rect.width <= MAX_PIXELS
        && 1 <= rect.height
        && rect.height <= MAX_PIXELS
}

/// Why a line can't come at a moment, in milliseconds, if it can't, where another moment is reached and the applications have these rectangles,
/// by slot: `BadLine` (36) outside the ranges of a session, a moment past 10^12 too, and then what `test_beside` tells.
pub fn test_line(
    rects: &[Rect],
    reached: u64,
    moment: u64,
    line: &HostLine,
) -> Result<(), LineFault>
    ensures { MatchResult result
        (λ _. NoneApplies (Refuses rects.now reached moment line.now) line_faults)
        (IsFirst (Refuses rects.now reached moment line.now) line_faults) }
{
    if moment > MAX_MOMENT || !line.is_in_range() {
        return Err(LineFault::BadLine);
    }
    test_beside(rects, reached, moment, line)
}

/// Why a line in the ranges of a session can't come at a moment, if it can't: in this order `TimeBack` (35), `NoApp` (37) and `RectOverlap` (43).
pub fn test_beside(
    rects: &[Rect],
    reached: u64,
    moment: u64,
    line: &HostLine,
) -> Result<(), LineFault>
    ensures { MatchResult result
        (λ _. NoneApplies (Refuses rects.now reached moment line.now) faults_beside)
        (IsFirst (Refuses rects.now reached moment line.now) faults_beside) }
{
    if moment < reached {
        return Err(LineFault::TimeBack);
    }
    if names_nobody(rects, line) {
        return Err(LineFault::NoApp);
    }
    if covers(rects, line) {
        return Err(LineFault::RectOverlap);
    }
    Ok(())
}

/// Whether the line names a slot that has no application.
fn names_nobody(rects: &[Rect], line: &HostLine) -> bool
    ensures { result ≡ names_nobody rects.now line.now }
{
    match *line {
        HostLine::Focus(Some(slot)) | HostLine::Rect { slot, rect: _ } => rects.len() <= slot,
        _ => false,
    }
}

/// Whether the line's rectangle shares a pixel with another's.
fn covers(rects: &[Rect], line: &HostLine) -> bool
    ensures { result ≡ covers rects.now line.now }
{
    match *line {
        HostLine::Rect { slot, rect } => shares_with_another(rects, slot, rect),
        _ => false,
    }
}
