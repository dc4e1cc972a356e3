//! A layout that is kept, made of the windows of an application and what is packed in them.
ghost use Rattle.std.specs.Prelude.{◌≡◌, ◌≤◌, ◌<◌, ℕ, true, [], List, Option, None, Some, map, set, IfOk, OnOk, IfSome, length, slice_get, nat_eq};
ghost use Rattle.std.specs.BTreeSet.{contains};
ghost use Rattle.std.specs.Map.{lookup};
ghost use Rattle.std.specs.Ordering.{nat_cmp};
ghost use Rattle.tk_base.specs.declared.rect.Rect.{Rect};
ghost use Rattle.tk_packer.specs.Asked.{own_size};
ghost use Rattle.tk_packer.specs.Groups.{slaves_in};
ghost use Rattle.tk_packer.specs.Standing.{AreApart, IsIndex, IsPackedAs, IsStanding, first_at, packed_of, standing_of};
ghost use Rattle.tk_packer.specs.declared.shape.Shape.{Shape};
ghost use Rattle.tk_packer.specs.declared.standing.Slave.{Slave};
ghost use Rattle.tk_packer.specs.declared.standing.Slot.{Slot};

use crate::asked::size_asked;
use crate::groups::slaves_in;
use crate::shape::Shape;
use crate::standing::{KeptWindows, Slave, Slaves, Slot};
use crate::{PackTable, Packed};
use std::alloc::{AllocError, Global};
use std::collections::{BTreeSet, HashMap};
use tk_base::Rect;

/// The places of windows by their numbers; none where two have one number.
pub fn index_of(alloc: Global, shapes: &[Shape]) -> Result<Option<HashMap<u64, usize>>, AllocError>
    ensures { IfOk result (λ index. IfSome index (λ found. IsIndex found.entries shapes.now)) }
{
    let mut index = HashMap::new(alloc);
    for place in 0..shapes.len() {
        if index.insert(shapes[place].number, place)?.is_some() {
            return Ok(None);
        }
    }
    Ok(Some(index))
}

/// What windows ask for in which none is packed.
#[tactic(auto, unfolding(crate::specs::Asked::size_asked))]
fn own_sizes(alloc: Global, shapes: &[Shape]) -> Result<Vec<(u32, u32)>, AllocError>
    ensures { IfOk result (λ sizes. sizes.items ≡ map own_size shapes.now) }
{
    let mut sizes = Vec::with_capacity(alloc, shapes.len())?;
    for shape in shapes {
        sizes.push(size_asked(shape, &[]))?;
    }
    Ok(sizes)
}

/// The place of the window at a place where none is packed in another: the main window, the first, fills the rectangle.
fn first_place(size: (u32, u32), place: usize) -> Option<Rect>
    ensures { result ≡ first_at size place }
{
    if place > 0 {
        return None;
    }
    Some(Rect {
        x: 0,
        y: 0,
        width: size.0,
        height: size.1,
    })
}

fn first_places(
    alloc: Global,
    size: (u32, u32),
    count: usize,
) -> Result<Vec<Option<Rect>>, AllocError>
    ensures length { IfOk result (λ places. length places.items ≡ count) }
    ensures places { IfOk result (λ places. (q : ℕ) (own : Option Rect) → slice_get places.items q ≡ Some own → own ≡ first_at size q) }
{
    let mut places = Vec::with_capacity(alloc, count)?;
    for place in 0..count {
        places.push(first_place(size, place))?;
    }
    Ok(places)
}

/// No window is packed in another.
fn no_slots(alloc: Global, count: usize) -> Result<Vec<Option<Slot>>, AllocError>
    ensures length { IfOk result (λ slots. length slots.items ≡ count) }
    ensures none { IfOk result (λ slots. (q : ℕ) (slot : Option Slot) → slice_get slots.items q ≡ Some slot → slot ≡ None) }
{
    let mut slots = Vec::with_capacity(alloc, count)?;
    for _place in 0..count {
        slots.push(None)?;
    }
    Ok(slots)
}

/// None has slaves.
fn no_slaves(alloc: Global, count: usize) -> Result<Vec<Slaves>, AllocError>
    ensures length { IfOk result (λ slaves. length slaves.items ≡ count) }
    ensures none { IfOk result (λ slaves. (q : ℕ) (list : List Slave) → slice_get slaves.items q ≡ Some list → list ≡ []) }
{
    let mut slaves = Vec::with_capacity(alloc, count)?;
    for _place in 0..count {
        slaves.push(Slaves::of(Vec::new(alloc)))?;
    }
    Ok(slaves)
}

/// All places.
fn all_places(alloc: Global, count: usize) -> Result<BTreeSet<usize>, AllocError>
    ensures { IfOk result (λ places. (q : ℕ) → q < count → contains nat_cmp places q ≡ true) }
{
    let mut places = BTreeSet::new(alloc);
    for place in 0..count {
        places.insert(place)?;
    }
    Ok(places)
}

/// Windows of which none is packed in another, each of which is still to be shown.
fn alone(alloc: Global, size: (u32, u32), shapes: Vec<Shape>) -> Result<KeptWindows, AllocError>
    requires { AreApart shapes.items }
    ensures standing { IfOk result (λ windows. IsStanding (standing_of windows)) }
    ensures size { IfOk result (λ windows. windows.size ≡ size) }
    ensures shapes { IfOk result (λ windows. windows.shapes.items ≡ shapes.items) }
    ensures slaves { IfOk result (λ windows. (q : ℕ) (list : List Slave) → slice_get windows.slaves.items q ≡ Some list → list ≡ []) }
{
    let count = shapes.len();
    let asked = own_sizes(alloc, shapes.as_slice())?;
    let places = first_places(alloc, size, count)?;
    let slots = no_slots(alloc, count)?;
    let slaves = no_slaves(alloc, count)?;
    let moved = all_places(alloc, count)?;
    Ok(KeptWindows {
        size,
        shapes,
        asked,
        places,
        slots,
        slaves,
        resize: BTreeSet::new(alloc),
        rearrange: BTreeSet::new(alloc),
        moved,
    })
}

/// The place of a window that can be packed in the one at a place: one behind it that is packed nowhere.
fn free_place(
    windows: &KeptWindows,
    index: &HashMap<u64, usize>,
    master: usize,
    number: u64,
) -> Option<usize>
    ensures { IfSome result (λ place. (lookup (nat_eq number) index.now.entries ≡ Some place) × ((master < place) × (slice_get windows.now.slots.items place ≡ Some None))) }
{
    let place = *index.get(&number)?;
    match windows.slots.get(place) {
        Some(None) if master < place => Some(place),
        _ => None,
    }
}

fn set_slot(slots: &mut Vec<Option<Slot>>, place: usize, slot: Slot)
    ensures { slots.new.items ≡ set slots.old.items place (Some slot) }
{
    if place < slots.len() {
        slots[place] = Some(slot);
    }
}

pub fn set_slaves(slaves: &mut Vec<Slaves>, place: usize, list: Vec<Slave>)
    ensures { slaves.new.items ≡ set slaves.old.items place list.items }
{
    if place < slaves.len() {
        slaves[place] = Slaves::of(list);
    }
}

/// The size of a window and the places of its slaves are still to be looked at.
pub fn mark(windows: &mut KeptWindows, place: usize) -> Result<(), AllocError>
    requires standing { IsStanding (standing_of windows.old) }
    requires within { place < length windows.old.shapes.items }
    ensures standing { IsStanding (standing_of windows.new) }
    ensures parts { standing_of windows.new
        ≡ record (standing_of windows.old) { resize = contains nat_cmp windows.new.resize; rearrange = contains nat_cmp windows.new.rearrange } }
    ensures resize { OnOk result (contains nat_cmp windows.new.resize place ≡ true) }
    ensures rearrange { OnOk result (contains nat_cmp windows.new.rearrange place ≡ true) }
{
    windows.resize.insert(place)?;
    windows.rearrange.insert(place)?;
    Ok(())
}

/// All of a window is still to be looked at: its size, the places of its slaves, and where it is shown.
pub fn mark_window(windows: &mut KeptWindows, place: usize) -> Result<(), AllocError>
    requires standing { IsStanding (standing_of windows.old) }
    requires within { place < length windows.old.shapes.items }
    ensures standing { IsStanding (standing_of windows.new) }
    ensures parts { standing_of windows.new ≡ record (standing_of windows.old) {
      resize = contains nat_cmp windows.new.resize;
      rearrange = contains nat_cmp windows.new.rearrange;
      moved = contains nat_cmp windows.new.moved;
    } }
    ensures resize { OnOk result (contains nat_cmp windows.new.resize place ≡ true) }
    ensures rearrange { OnOk result (contains nat_cmp windows.new.rearrange place ≡ true) }
    ensures moved { OnOk result (contains nat_cmp windows.new.moved place ≡ true) }
{
    mark(windows, place)?;
    windows.moved.insert(place)?;
    Ok(())
}

/// Packs windows in one in which none is packed, and answers whether each could be.
pub fn add_slaves(
    alloc: Global,
    windows: &mut KeptWindows,
    index: &HashMap<u64, usize>,
    master: usize,
    packed: &[Packed],
) -> Result<bool, AllocError>
    requires standing { IsStanding (standing_of windows.old) }
    requires index { IsIndex index.now.entries windows.old.shapes.items }
    requires none { slice_get windows.old.slaves.items master ≡ Some [] }
    ensures standing { IfOk result (λ fits. fits ≡ true → IsStanding (standing_of windows.new)) }
    ensures size { windows.new.size ≡ windows.old.size }
    ensures shapes { windows.new.shapes.items ≡ windows.old.shapes.items }
    ensures slaves { IfOk result (λ fits. fits ≡ true → (list : List Slave) × ((windows.new.slaves.items ≡ set windows.old.slaves.items master list) × (packed_of list ≡ packed.now))) }
{
    if packed.is_empty() {
        return Ok(true);
    }
    mark(windows, master)?;
    let mut list = Vec::with_capacity(alloc, packed.len())?;
    for slave in packed {
        let Some(position) = free_place(windows, index, master, slave.number) else {
            return Ok(false);
        };
        let place = list.len();
        list.push(Slave {
            packed: *slave,
            position,
        })?;
        set_slot(&mut windows.slots, position, Slot { master, place });
    }
    set_slaves(&mut windows.slaves, master, list);
    Ok(true)
}

/// What is packed in the window at a place.
pub fn slaves_at<'a>(
    windows: &KeptWindows,
    packs: &'a PackTable,
    owner: usize,
    place: usize,
) -> &'a [Packed]
    ensures { (shape : Shape) → slice_get windows.now.shapes.items place ≡ Some shape → result.now ≡ slaves_in owner packs.now shape.number }
{
    match windows.shapes.get(place) {
        Some(shape) => slaves_in(packs, owner, shape.number),
        None => &[],
    }
}

/// Packs in each window what is packed in it, and answers whether all could be.
fn add_all(
    alloc: Global,
    windows: &mut KeptWindows,
    index: &HashMap<u64, usize>,
    packs: &PackTable,
    owner: usize,
) -> Result<bool, AllocError>
    requires standing { IsStanding (standing_of windows.old) }
    requires index { IsIndex index.now.entries windows.old.shapes.items }
    requires none { (q : ℕ) (list : List Slave) → slice_get windows.old.slaves.items q ≡ Some list → list ≡ [] }
    ensures standing { IfOk result (λ fits. fits ≡ true → IsStanding (standing_of windows.new)) }
    ensures size { windows.new.size ≡ windows.old.size }
    ensures shapes { windows.new.shapes.items ≡ windows.old.shapes.items }
    ensures packs { IfOk result (λ fits. fits ≡ true → IsPackedAs (slaves_in owner packs.now) windows.new.shapes.items windows.new.slaves.items) }
{
    for place in 0..windows.shapes.len() {
        let slaves = slaves_at(windows, packs, owner, place);
        if !add_slaves(alloc, windows, index, place, slaves)? {
            return Ok(false);
        }
    }
    Ok(true)
}

/// The windows of an application as they stand, and their places by their numbers; none where two windows have one number, where one is packed twice, or
/// where one stands before its master.
pub fn build(
    alloc: Global,
    size: (u32, u32),
    packs: &PackTable,
    owner: usize,
    shapes: Vec<Shape>,
) -> Result<Option<(KeptWindows, HashMap<u64, usize>)>, AllocError>
    ensures standing { IfOk result (λ built. IfSome built (λ both. IsStanding (standing_of both.0))) }
    ensures index { IfOk result (λ built. IfSome built (λ both. IsIndex both.1.entries both.0.shapes.items)) }
    ensures inputs { IfOk result (λ built. IfSome built (λ both. (both.0.size ≡ size) × ((both.0.shapes.items ≡ shapes.items)
        × IsPackedAs (slaves_in owner packs.now) shapes.items both.0.slaves.items))) }
{
    let Some(index) = index_of(alloc, shapes.as_slice())? else {
        return Ok(None);
    };
    let mut windows = alone(alloc, size, shapes)?;
    if add_all(alloc, &mut windows, &index, packs, owner)? {
        Ok(Some((windows, index)))
    } else {
        Ok(None)
    }
}
