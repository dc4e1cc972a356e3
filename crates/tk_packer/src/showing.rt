//! What is told of windows that lie elsewhere than they were shown.
ghost use Rattle.std.specs.Prelude.{◌≡◌, ◌⊎◌, ◌++◌, ◌<◌, ◌≤◌, ℕ, true, length, None, Some, map, set, IfOk, OnOk, MatchOption, slice_get};
ghost use Rattle.std.specs.BTreeSet.{contains};
ghost use Rattle.std.specs.Ordering.{nat_cmp};
ghost use Rattle.tk_packer.specs.Changes.{changes_of, laid, laid_out_shapes};
ghost use Rattle.tk_packer.specs.Standing.{IsStanding, standing_of};

use crate::changes::{PlaceChange, tell};
use crate::rearranging::first_of;
use crate::shape::Shape;
use crate::standing::KeptWindows;
use std::alloc::{AllocError, Global};
use tk_base::Rect;

/// A window that was laid out at a place.
fn laid(shape: Shape, place: Option<Rect>) -> Shape
    ensures { result ≡ laid shape place }
{
    match place {
        None => Shape {
            mapped: false,
            ..shape
        },
        Some(rectangle) => Shape {
            rectangle,
            mapped: true,
            ..shape
        },
    }
}

/// A window, as it was shown last, and where it lies.
fn window_at(windows: &KeptWindows, place: usize) -> Option<(Shape, Option<Rect>)>
    ensures { MatchOption result ((slice_get windows.now.shapes.items place ≡ None) ⊎ (slice_get windows.now.places.items place ≡ None))
        (λ window. (slice_get windows.now.shapes.items place ≡ Some window.0) × (slice_get windows.now.places.items place ≡ Some window.1)) }
{
    let shape = windows.shapes.get(place)?;
    let own = windows.places.get(place)?;
    Some((*shape, *own))
}

pub fn set_shape(shapes: &mut Vec<Shape>, place: usize, shape: Shape)
    ensures { shapes.new.items ≡ set shapes.old.items place shape }
{
    if place < shapes.len() {
        shapes[place] = shape;
    }
}

/// Tells what becomes of the first window that may lie elsewhere; it is shown where it lies from now on.
fn tell_window(
    changes: &mut Vec<PlaceChange>,
    windows: &mut KeptWindows,
    place: usize,
) -> Result<(), AllocError>
    requires standing { IsStanding (standing_of windows.old) }
    requires first { (q : ℕ) → contains nat_cmp windows.old.moved q ≡ true → place ≤ q }
    requires marked { contains nat_cmp windows.old.moved place ≡ true }
    ensures standing { IsStanding (standing_of windows.new) }
    ensures parts { standing_of windows.new ≡ record (standing_of windows.old) { shapes = windows.new.shapes.items; moved = contains nat_cmp windows.new.moved } }
    ensures told { OnOk result (changes.new.items ++ changes_of windows.new.shapes.items windows.old.places.items
        ≡ changes.old.items ++ changes_of windows.old.shapes.items windows.old.places.items) }
    ensures laid { laid_out_shapes windows.new.shapes.items windows.old.places.items ≡ laid_out_shapes windows.old.shapes.items windows.old.places.items }
    ensures numbers { map (λ shape. shape.number) windows.new.shapes.items ≡ map (λ shape. shape.number) windows.old.shapes.items }
    ensures fewer { OnOk result (length windows.new.moved.keys < length windows.old.moved.keys) }
{
    let Some((shape, own)) = window_at(windows, place) else {
        windows.moved.remove(&place);
        return Ok(());
    };
    tell(changes, &shape, own)?;
    set_shape(&mut windows.shapes, place, laid(shape, own));
    windows.moved.remove(&place);
    Ok(())
}

/// Tells what becomes of all windows that lie elsewhere than they were shown, in their order, and shows them there.
pub fn tell_all(alloc: Global, windows: &mut KeptWindows) -> Result<Vec<PlaceChange>, AllocError>
    requires { IsStanding (standing_of windows.old) }
    ensures standing { IsStanding (standing_of windows.new) }
    ensures parts { standing_of windows.new ≡ record (standing_of windows.old) { shapes = windows.new.shapes.items; moved = contains nat_cmp windows.new.moved } }
    ensures numbers { map (λ shape. shape.number) windows.new.shapes.items ≡ map (λ shape. shape.number) windows.old.shapes.items }
    ensures changes { IfOk result (λ changes. changes.items ≡ changes_of windows.old.shapes.items windows.old.places.items) }
    ensures laid { OnOk result (windows.new.shapes.items ≡ laid_out_shapes windows.old.shapes.items windows.old.places.items) }
{
    let mut changes = Vec::new(alloc);
    while let Some(place) = first_of(&windows.moved) {
        tell_window(&mut changes, windows, place)?;
    }
    Ok(changes)
}
