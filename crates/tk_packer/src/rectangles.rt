//! Where windows lie.
ghost use Rattle.std.specs.Prelude.{◌≡◌, ℕ, ◌+◌, ◌^◌, ◌<◌, IfOk, OnOk, Ok, nat_eq, All};
ghost use Rattle.std.specs.Map.{lookup};
ghost use Rattle.tk_packer.specs.Groups.{slaves_in};
ghost use Rattle.tk_packer.specs.Arrangements.{Fits};
ghost use Rattle.tk_packer.specs.Layout.{cavity_of, counted_outside, with_place, give, given_after, placed, whole_of, first_place};

use crate::arrangements::Arrangements;
use crate::asked::requests_of;
use crate::groups::slaves_in;
use crate::shape::Shape;
use crate::{PackTable, Packed};
use std::alloc::{AllocError, Global};
use std::collections::HashMap;
use tk_base::Rect;

/// The rectangles of windows, each of which stands before its slaves; none for one that isn't mapped. The first fills the application's rectangle.
pub fn places_of(
    alloc: Global,
    size: (u32, u32),
    packs: &PackTable,
    owner: usize,
    sizes: &HashMap<u64, (u32, u32)>,
    arrangements: &mut Arrangements,
    shapes: &[Shape],
) -> Result<Vec<Option<Rect>>, AllocError>
    ensures { IfOk result (λ places. places.items
        ≡ placed (slaves_in owner packs.now) sizes.now.entries (first_place size shapes.now) shapes.now) }
{
    let mut given = first_place(alloc, size, shapes)?;
    let mut places = Vec::with_capacity(alloc, shapes.len())?;
    for shape in shapes {
        let place = given.get(&shape.number).copied();
        places.push(place)?;
        give_slaves(
            alloc,
            packs,
            owner,
            sizes,
            arrangements,
            shape,
            place,
            &mut given,
        )?;
    }
    Ok(places)
}

fn first_place(
    alloc: Global,
    size: (u32, u32),
    shapes: &[Shape],
) -> Result<HashMap<u64, Rect>, AllocError>
    ensures { IfOk result (λ given. (number : ℕ) → lookup (nat_eq number) given.entries
        ≡ lookup (nat_eq number) (first_place size shapes.now)) }
{
    let mut given = HashMap::new(alloc);
    if let Some(main) = shapes.first() {
        let whole = Rect {
            x: 0,
            y: 0,
            width: size.0,
            height: size.1,
        };
        given.insert(main.number, whole)?;
    }
    Ok(given)
}

/// Gives the slaves of a window at a place what they get: nothing where it isn't mapped.
#[tactic(auto, unfolding(crate::specs::Layout::given_after))]
fn give_slaves(
    alloc: Global,
    packs: &PackTable,
    owner: usize,
    sizes: &HashMap<u64, (u32, u32)>,
    arrangements: &mut Arrangements,
    shape: &Shape,
    place: Option<Rect>,
    given: &mut HashMap<u64, Rect>,
) -> Result<(), AllocError>
    ensures { OnOk result ((number : ℕ) → lookup (nat_eq number) given.new.entries
        ≡ lookup (nat_eq number) (given_after (slaves_in owner packs.now) sizes.now.entries shape.now place given.old.entries)) }
{
    match place {
        None => Ok(()),
        Some(rect) => arrange_slaves(alloc, packs, owner, sizes, arrangements, shape, rect, given),
    }
}

/// Gives the slaves of a window that is mapped their rectangles inside its border.
fn arrange_slaves(
    alloc: Global,
    packs: &PackTable,
    owner: usize,
    sizes: &HashMap<u64, (u32, u32)>,
    arrangements: &mut Arrangements,
    shape: &Shape,
    rect: Rect,
    given: &mut HashMap<u64, Rect>,
) -> Result<(), AllocError>
    ensures { OnOk result ((number : ℕ) → lookup (nat_eq number) given.new.entries
        ≡ lookup (nat_eq number) (given_after (slaves_in owner packs.now) sizes.now.entries shape.now (Some rect) given.old.entries)) }
{
    let slaves = slaves_in(packs, owner, shape.number);
    if slaves.is_empty() {
        return Ok(());
    }
    let requests = requests_of(alloc, sizes, slaves)?;
    arrangements.arrange(
        shape.number,
        cavity_of(rect, shape.border),
        requests.as_slice(),
    )?;
    give(
        given,
        shape.border,
        slaves,
        arrangements.places(shape.number),
    )
}

/// The room inside a border.
pub fn cavity_of(rect: Rect, border: u32) -> (u32, u32)
    ensures { result ≡ cavity_of rect border }
{
    (
        rect.width.saturating_sub(border).saturating_sub(border),
        rect.height.saturating_sub(border).saturating_sub(border),
    )
}

/// Gives slaves their rectangles.
fn give(
    given: &mut HashMap<u64, Rect>,
    border: u32,
    slaves: &[Packed],
    places: &[Option<Rect>],
) -> Result<(), AllocError>
    requires { All (Fits border) places.now }
    ensures { OnOk result ((number : ℕ) → lookup (nat_eq number) given.new.entries
        ≡ lookup (nat_eq number) (give border slaves.now places.now given.old.entries)) }
{
    for index in 0..slaves.len().min(places.len()) {
        give_one(given, border, slaves[index].number, places[index])?;
    }
    Ok(())
}

fn give_one(
    given: &mut HashMap<u64, Rect>,
    border: u32,
    number: u64,
    place: Option<Rect>,
) -> Result<(), AllocError>
    requires { Fits border place }
    ensures { OnOk result ((other : ℕ) → lookup (nat_eq other) given.new.entries
        ≡ lookup (nat_eq other) (with_place border number place given.old.entries)) }
{
    if let Some(rect) = place {
        given.insert(number, counted_outside(border, rect))?;
    }
    Ok(())
}

pub fn counted_outside(border: u32, rect: Rect) -> Rect
    requires { (rect.x + border < 2 ^ 32) × (rect.y + border < 2 ^ 32) }
    ensures { result ≡ counted_outside border rect }
{
    Rect {
        x: rect.x + border,
        y: rect.y + border,
        ..rect
    }
}
