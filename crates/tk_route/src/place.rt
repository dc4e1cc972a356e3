//! Places of the pointer, and the rectangles that they lie in.
ghost use Rattle.std.specs.Prelude.{◌≡◌, ◌≤◌, ◌-ℤ◌, pos};
ghost use Rattle.tk_base.specs.Rect.{last_place};
ghost use Rattle.tk_route.specs.Screen.{BeginsOnScreen, holds, is_within, slot_at};
ghost use Rattle.tk_route.specs.Values.{local, under};

use tk_base::Rect;

/// A place of the pointer, in pixels from the screen's upper left corner.
#[derive(Clone, Copy, Debug, PartialEq, Eq)]
pub struct Point {
    pub x: u16,
    pub y: u16,
}

/// A place as an application is told it, in pixels from the upper left corner of its rectangle.
#[derive(Clone, Copy)]
pub(crate) struct Place {
    pub(crate) slot: usize,
    pub(crate) x: i32,
    pub(crate) y: i32,
}

/// Whether a span holds a place.
fn is_within(start: u32, length: u32, place: u16) -> bool
    ensures { result ≡ is_within start length place }
{
    let end = u64::from(start) + u64::from(length);
    start <= u32::from(place) && u64::from(place) < end
}

/// Whether a rectangle holds a point.
fn holds(rect: &Rect, point: Point) -> bool
    ensures { result ≡ holds rect.now point }
{
    is_within(rect.x, rect.width, point.x) && is_within(rect.y, rect.height, point.y)
}

/// The slot of the rectangle at a point.
fn slot_at(rects: &[Rect], point: Point) -> Option<usize>
    ensures slot { result ≡ slot_at rects.now point }
    ensures near { BeginsOnScreen rects.now result }
{
    rects.iter().position(|rect| holds(rect, point))
}

/// The slot of the application under the pointer.
pub(crate) fn under(rects: &[Rect], pointer: Option<Point>) -> Option<usize>
    ensures slot { result ≡ under rects.now pointer }
    ensures near { BeginsOnScreen rects.now result }
{
    match pointer {
        Some(point) => slot_at(rects, point),
        None => None,
    }
}

/// How far a place is from where a rectangle begins, in one axis.
fn along(place: u16, start: u32) -> i32
    requires { start ≤ last_place }
    ensures { result ≡ pos place -ℤ pos start }
{
    i32::from(place) - start as i32
}

/// Where the pointer is for an application; none where there is no application or no pointer yet.
pub(crate) fn local(rects: &[Rect], pointer: Option<Point>, slot: Option<usize>) -> Option<Place>
    requires { BeginsOnScreen rects.now slot }
    ensures { result ≡ local rects.now pointer slot }
{
    let (Some(slot), Some(point)) = (slot, pointer) else {
        return None;
    };
    let rect = rects.get(slot)?;
    Some(Place {
        slot,
        x: along(point.x, rect.x),
        y: along(point.y, rect.y),
    })
}
