//! Another packing of the windows in a layout that is kept: those masters alone are looked at in which something else is packed.
ghost use Rattle.std.specs.Prelude.{◌≡◌, ◌+◌, ◌<◌, true, [], List, None, Some, set, IfOk, OnOk, length, slice_get};
ghost use Rattle.std.specs.BTreeSet.{Updates, contains};
ghost use Rattle.std.specs.Ordering.{nat_cmp};
ghost use Rattle.tk_packer.specs.Groups.{slaves_by, slaves_in};
ghost use Rattle.tk_packer.specs.Standing.{ArePackedBut, IsIndex, IsPackedAs, IsStanding, StandsWith, packed_of, standing_of};
ghost use Rattle.tk_packer.specs.declared.shape.Shape.{Shape};
ghost use Rattle.tk_packer.specs.declared.standing.Slave.{Slave};

use crate::building::{add_slaves, mark, set_slaves};
use crate::own::OwnPacks;
use crate::rearranging::{position_of, set_place};
use crate::same::is_same_packed;
use crate::standing::{KeptWindows, Slave, Slot};
use crate::{PackTable, Packed};
use std::alloc::{AllocError, Global};
use std::collections::{BTreeSet, HashMap};

/// Whether slaves are packed so; where they aren't it may answer either.
fn are_packed(slaves: &[Slave], packed: &[Packed]) -> bool
    ensures { result ≡ true → packed_of slaves.now ≡ packed.now }
{
    if slaves.len() != packed.len() {
        return false;
    }
    for (index, slave) in slaves.iter().enumerate() {
        if !is_same_packed(&slave.packed, &packed[index]) {
            return false;
        }
    }
    true
}

/// Whether these are packed in the window at a place.
fn has_packed(windows: &KeptWindows, place: usize, packed: &[Packed]) -> bool
    ensures { result ≡ true → (list : List Slave) → slice_get windows.now.slaves.items place ≡ Some list → packed_of list ≡ packed.now }
{
    match windows.slaves.get(place) {
        Some(slaves) => are_packed(slaves.as_slice(), packed),
        None => false,
    }
}

/// How many windows are packed in the one at a place.
fn count_at(windows: &KeptWindows, place: usize) -> usize
    ensures { (list : List Slave) → slice_get windows.now.slaves.items place ≡ Some list → result ≡ length list }
{
    match windows.slaves.get(place) {
        Some(slaves) => slaves.as_slice().len(),
        None => 0,
    }
}

fn clear_slot(slots: &mut Vec<Option<Slot>>, place: usize)
    ensures { slots.new.items ≡ set slots.old.items place None }
{
    if place < slots.len() {
        slots[place] = None;
    }
}

/// The window at a place is packed nowhere, and so lies nowhere.
fn unpack(windows: &mut KeptWindows, place: usize) -> Result<(), AllocError>
    ensures parts { standing_of windows.new ≡ record (standing_of windows.old) {
      places = windows.new.places.items;
      slots = windows.new.slots.items;
      rearrange = contains nat_cmp windows.new.rearrange;
      moved = contains nat_cmp windows.new.moved;
    } }
    ensures slots { OnOk result (windows.new.slots.items ≡ set windows.old.slots.items place None) }
    ensures places { OnOk result (windows.new.places.items ≡ set windows.old.places.items place None) }
    ensures rearrange { OnOk result (Updates nat_cmp windows.old.rearrange windows.new.rearrange place true) }
    ensures moved { OnOk result (Updates nat_cmp windows.old.moved windows.new.moved place true) }
{
    windows.rearrange.insert(place)?;
    windows.moved.insert(place)?;
    clear_slot(&mut windows.slots, place);
    set_place(&mut windows.places, place, None);
    Ok(())
}

/// The last of the first so many slaves of a window, of which one more was packed, is packed no longer.
fn unpack_last(windows: &mut KeptWindows, master: usize, left: usize) -> Result<(), AllocError>
    requires standing { StandsWith master (left + 1) (standing_of windows.old) }
    requires resize { contains nat_cmp windows.old.resize master ≡ true }
    requires rearrange { contains nat_cmp windows.old.rearrange master ≡ true }
    ensures standing { OnOk result (StandsWith master left (standing_of windows.new)) }
    ensures parts { standing_of windows.new ≡ record (standing_of windows.old) {
      places = windows.new.places.items;
      slots = windows.new.slots.items;
      rearrange = contains nat_cmp windows.new.rearrange;
      moved = contains nat_cmp windows.new.moved;
    } }
    ensures rearrange { OnOk result (contains nat_cmp windows.new.rearrange master ≡ true) }
{
    let Some(position) = position_of(windows, master, left) else {
        return Ok(());
    };
    unpack(windows, position)?;
    Ok(())
}

/// Nothing is packed in a window any longer.
fn empty(alloc: Global, windows: &mut KeptWindows, master: usize) -> Result<(), AllocError>
    requires standing { IsStanding (standing_of windows.old) }
    requires within { master < length windows.old.shapes.items }
    ensures standing { OnOk result (IsStanding (standing_of windows.new)) }
    ensures size { windows.new.size ≡ windows.old.size }
    ensures shapes { windows.new.shapes.items ≡ windows.old.shapes.items }
    ensures slaves { OnOk result (windows.new.slaves.items ≡ set windows.old.slaves.items master []) }
{
    mark(windows, master)?;
    let mut left = count_at(windows, master);
    while left > 0 {
        left -= 1;
        unpack_last(windows, master, left)?;
    }
    set_slaves(&mut windows.slaves, master, Vec::new(alloc));
    Ok(())
}

/// What is packed in the window at a place.
fn slaves_here<'a>(windows: &KeptWindows, own: &'a OwnPacks, place: usize) -> &'a [Packed]
    ensures { (shape : Shape) → slice_get windows.now.shapes.items place ≡ Some shape → result.now ≡ slaves_by own.now shape.number }
{
    match windows.shapes.get(place) {
        Some(shape) => own.slaves(shape.number),
        None => &[],
    }
}

/// Empties the window at a place if something else is packed in it than an application has, and notes that.
fn empty_if_other(
    alloc: Global,
    windows: &mut KeptWindows,
    own: &OwnPacks,
    place: usize,
    emptied: &mut BTreeSet<usize>,
) -> Result<(), AllocError>
    requires standing { IsStanding (standing_of windows.old) }
    requires within { place < length windows.old.shapes.items }
    requires packs { ArePackedBut (contains nat_cmp emptied.old) (slaves_by own.now) place windows.old.shapes.items windows.old.slaves.items }
    ensures standing { OnOk result (IsStanding (standing_of windows.new)) }
    ensures size { windows.new.size ≡ windows.old.size }
    ensures shapes { windows.new.shapes.items ≡ windows.old.shapes.items }
    ensures packs { OnOk result (ArePackedBut (contains nat_cmp emptied.new) (slaves_by own.now) (place + 1) windows.new.shapes.items windows.new.slaves.items) }
{
    let packed = slaves_here(windows, own, place);
    if has_packed(windows, place, packed) {
        return Ok(());
    }
    empty(alloc, windows, place)?;
    emptied.insert(place)?;
    Ok(())
}

/// Empties those windows in which something else is packed than an application has, and answers which these are.
fn empty_others(
    alloc: Global,
    windows: &mut KeptWindows,
    own: &OwnPacks,
) -> Result<BTreeSet<usize>, AllocError>
    requires { IsStanding (standing_of windows.old) }
    ensures standing { OnOk result (IsStanding (standing_of windows.new)) }
    ensures size { windows.new.size ≡ windows.old.size }
    ensures shapes { windows.new.shapes.items ≡ windows.old.shapes.items }
    ensures packs { IfOk result (λ emptied. ArePackedBut (contains nat_cmp emptied) (slaves_by own.now) (length windows.new.shapes.items) windows.new.shapes.items
        windows.new.slaves.items) }
{
    let mut emptied = BTreeSet::new(alloc);
    for place in 0..windows.shapes.len() {
        empty_if_other(alloc, windows, own, place, &mut emptied)?;
    }
    Ok(emptied)
}

/// Packs in the windows that were emptied what an application has, and answers whether all could be.
fn fill_all(
    alloc: Global,
    windows: &mut KeptWindows,
    index: &HashMap<u64, usize>,
    own: &OwnPacks,
    emptied: &mut BTreeSet<usize>,
) -> Result<bool, AllocError>
    requires standing { IsStanding (standing_of windows.old) }
    requires index { IsIndex index.now.entries windows.old.shapes.items }
    requires packs { ArePackedBut (contains nat_cmp emptied.old) (slaves_by own.now) (length windows.old.shapes.items) windows.old.shapes.items windows.old.slaves.items }
    ensures standing { IfOk result (λ fits. fits ≡ true → IsStanding (standing_of windows.new)) }
    ensures size { windows.new.size ≡ windows.old.size }
    ensures shapes { windows.new.shapes.items ≡ windows.old.shapes.items }
    ensures packs { IfOk result (λ fits. fits ≡ true → IsPackedAs (slaves_by own.now) windows.new.shapes.items windows.new.slaves.items) }
{
    while let Some(place) = emptied.pop_first() {
        let slaves = slaves_here(windows, own, place);
        if !add_slaves(alloc, windows, index, place, slaves)? {
            return Ok(false);
        }
    }
    Ok(true)
}

/// In each window is packed what a table says; answers whether all could be. What didn't change stays as it is kept.
pub fn repack(
    alloc: Global,
    windows: &mut KeptWindows,
    index: &HashMap<u64, usize>,
    packs: &PackTable,
    owner: usize,
) -> Result<bool, AllocError>
    requires standing { IsStanding (standing_of windows.old) }
    requires index { IsIndex index.now.entries windows.old.shapes.items }
    ensures standing { IfOk result (λ fits. fits ≡ true → IsStanding (standing_of windows.new)) }
    ensures size { windows.new.size ≡ windows.old.size }
    ensures shapes { windows.new.shapes.items ≡ windows.old.shapes.items }
    ensures packs { IfOk result (λ fits. fits ≡ true → IsPackedAs (slaves_in owner packs.now) windows.new.shapes.items windows.new.slaves.items) }
{
    let nothing = OwnPacks::new(alloc);
    let own = packs.own_or(owner, &nothing);
    let mut emptied = empty_others(alloc, windows, own)?;
    let fits = fill_all(alloc, windows, index, own, &mut emptied)?;
    Ok(fits)
}
