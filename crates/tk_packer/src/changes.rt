//! What a layout changes.
ghost use Rattle.std.specs.Prelude.{◌≡◌, ◌++◌, ◌↔◌, IsTrue, IfOk, OnOk};
ghost use Rattle.tk_packer.specs.Changes.{is_same_rect, changes_at, changes_of};

use crate::shape::Shape;
use std::alloc::{AllocError, Global};
use tk_base::Rect;

/// What becomes of a window of an application, named by its number. Each is an event of its window (bind(n)).
#[derive(Clone, Copy, Debug, PartialEq, Eq)]
pub enum PlaceChange {
    /// It is mapped no longer.
    Unmap(u64),
    /// It has this rectangle, in pixels, from its parent's upper left corner.
    Configure(u64, Rect),
    /// It is mapped.
    Map(u64),
}

/// The changes from where windows were to where they lie, in the order of the windows.
pub fn changes_of(
    alloc: Global,
    shapes: &[Shape],
    places: &[Option<Rect>],
) -> Result<Vec<PlaceChange>, AllocError>
    ensures { IfOk result (λ changes. changes.items ≡ changes_of shapes.now places.now) }
{
    let mut changes = Vec::new(alloc);
    for index in 0..shapes.len().min(places.len()) {
        tell(&mut changes, &shapes[index], places[index])?;
    }
    Ok(changes)
}

/// Puts behind a list what becomes of a window that gets this place.
pub fn tell(
    changes: &mut Vec<PlaceChange>,
    shape: &Shape,
    place: Option<Rect>,
) -> Result<(), AllocError>
    ensures { OnOk result (changes.new.items ≡ changes.old.items ++ changes_at shape.now place) }
{
    match place {
        None => {
            if shape.mapped {
                changes.push(PlaceChange::Unmap(shape.number))?;
            }
        }
        Some(rect) => {
            if !is_same_rect(shape.rectangle, rect) {
                changes.push(PlaceChange::Configure(shape.number, rect))?;
            }
            if !shape.mapped {
                changes.push(PlaceChange::Map(shape.number))?;
            }
        }
    }
    Ok(())
}

fn is_same_rect(one: Rect, other: Rect) -> bool
    ensures { result ≡ is_same_rect one other }
{
    one.x == other.x && one.y == other.y && one.width == other.width && one.height == other.height
}
