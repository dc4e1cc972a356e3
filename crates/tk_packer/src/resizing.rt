//! What windows ask for, found anew where it may be another size than what is kept.
ghost use Rattle.std.specs.Prelude.{◌≡◌, ◌≢◌, ◌⊎◌, ◌<◌, ◌≤◌, ℕ, true, false, List, None, Some, set, IfOk, IfSome, OnOk, MatchOption, slice_get};
ghost use Rattle.std.specs.BTreeSet.{contains};
ghost use Rattle.std.specs.Ordering.{nat_cmp};
ghost use Rattle.tk_packer.specs.declared.standing.Slot.{Slot};
ghost use Rattle.tk_packer.specs.Standing.{IsSizeNow, IsStanding, LiesAlike, MasterWaits, SameInputs, asks, sized_at, standing_of};

use crate::Request;
use crate::asked::size_asked;
use crate::spread::lies_alike;
use crate::standing::{KeptWindows, Slave, Slot};
use std::alloc::{AllocError, Global};
use std::collections::BTreeSet;

/// The requests of slaves, each with the size that it asks for.
pub fn asks(
    alloc: Global,
    asked: &[(u32, u32)],
    slaves: &[Slave],
) -> Result<Vec<Request>, AllocError>
    ensures { IfOk result (λ requests. requests.items ≡ asks asked.now slaves.now) }
{
    let mut requests = Vec::with_capacity(alloc, slaves.len())?;
    for slave in slaves {
        requests.push(sized_at(asked, slave))?;
    }
    Ok(requests)
}

fn sized_at(asked: &[(u32, u32)], slave: &Slave) -> Request
    ensures { result ≡ sized_at asked.now slave.now }
{
    match asked.get(slave.position) {
        Some(size) => Request {
            width: size.0,
            height: size.1,
            ..slave.packed.request
        },
        None => slave.packed.request,
    }
}

/// What the window at a place has to ask for.
fn size_now(alloc: Global, windows: &KeptWindows, place: usize) -> Result<(u32, u32), AllocError>
    ensures { IfOk result (IsSizeNow (standing_of windows.now) place) }
{
    let Some(shape) = windows.shapes.get(place) else {
        return Ok((1, 1));
    };
    let Some(slaves) = windows.slaves.get(place) else {
        return Ok((1, 1));
    };
    let requests = asks(alloc, windows.asked.as_slice(), slaves.as_slice())?;
    Ok(size_asked(shape, requests.as_slice()))
}

/// Whether a window asks for a size.
fn asks_for(asked: &[(u32, u32)], place: usize, size: (u32, u32)) -> bool
    ensures { result ≡ true → slice_get asked.now place ≡ Some size }
{
    match asked.get(place) {
        Some(other) => other.0 == size.0 && other.1 == size.1,
        None => false,
    }
}

/// A window asks for a size.
fn put_size(asked: &mut Vec<(u32, u32)>, place: usize, size: (u32, u32))
    ensures { asked.new.items ≡ set asked.old.items place size }
{
    if place < asked.len() {
        asked[place] = size;
    }
}

/// The places of a master's slaves are still to be looked at, but where they lie as they did once the one at a place asks for a size.
fn mark_places(
    windows: &mut KeptWindows,
    slot: Slot,
    place: usize,
    size: (u32, u32),
) -> Result<(), AllocError>
    ensures parts { standing_of windows.new ≡ record (standing_of windows.old) { rearrange = contains nat_cmp windows.new.rearrange } }
    ensures waits { OnOk result ((contains nat_cmp windows.new.rearrange slot.master ≡ true) ⊎ LiesAlike (standing_of windows.new) slot place size) }
    ensures more { (q : ℕ) → contains nat_cmp windows.old.rearrange q ≡ true → contains nat_cmp windows.new.rearrange q ≡ true }
    ensures only { (q : ℕ) → contains nat_cmp windows.new.rearrange q ≡ true → (q ≡ slot.master) ⊎ (contains nat_cmp windows.old.rearrange q ≡ true) }
{
    if lies_alike(windows, slot, place, size) {
        return Ok(());
    }
    windows.rearrange.insert(slot.master)?;
    Ok(())
}

/// Where the window at a place is packed.
fn slot_at(windows: &KeptWindows, place: usize) -> Option<Slot>
    ensures found { (slot : Slot) → slice_get windows.now.slots.items place ≡ Some (Some slot) → result ≡ Some slot }
    ensures there { IfSome result (λ slot. slice_get windows.now.slots.items place ≡ Some (Some slot)) }
{
    match windows.slots.get(place) {
        Some(slot) => *slot,
        None => None,
    }
}

/// The size of a window is still to be looked at, unless it is the main window, the first: what that asks for decides nothing.
fn mark_size(resize: &mut BTreeSet<usize>, place: usize) -> Result<(), AllocError>
    ensures here { OnOk result (0 < place → contains nat_cmp resize.new place ≡ true) }
    ensures more { (q : ℕ) → contains nat_cmp resize.old q ≡ true → contains nat_cmp resize.new q ≡ true }
    ensures only { (q : ℕ) → contains nat_cmp resize.new q ≡ true → (q ≡ place) ⊎ (contains nat_cmp resize.old q ≡ true) }
{
    if place == 0 {
        return Ok(());
    }
    resize.insert(place)?;
    Ok(())
}

/// The size of a window's master is still to be looked at, and the places of the master's slaves, if that the window asks for a size may move one of them.
fn mark_slot(
    windows: &mut KeptWindows,
    slot: Slot,
    place: usize,
    size: (u32, u32),
) -> Result<(), AllocError>
    requires standing { IsStanding (standing_of windows.old) }
    requires slot { slice_get windows.old.slots.items place ≡ Some (Some slot) }
    ensures standing { IsStanding (standing_of windows.new) }
    ensures parts { standing_of windows.new
        ≡ record (standing_of windows.old) { resize = contains nat_cmp windows.new.resize; rearrange = contains nat_cmp windows.new.rearrange } }
    ensures waits { OnOk result (MasterWaits (standing_of windows.new) place size) }
    ensures more { (q : ℕ) → contains nat_cmp windows.old.resize q ≡ true → contains nat_cmp windows.new.resize q ≡ true }
    ensures only { (q : ℕ) → contains nat_cmp windows.new.resize q ≡ true → (q < place) ⊎ (contains nat_cmp windows.old.resize q ≡ true) }
{
    mark_size(&mut windows.resize, slot.master)?;
    mark_places(windows, slot, place, size)?;
    Ok(())
}

/// The same of a window that may be packed nowhere.
fn mark_master(windows: &mut KeptWindows, place: usize, size: (u32, u32)) -> Result<(), AllocError>
    requires { IsStanding (standing_of windows.old) }
    ensures standing { IsStanding (standing_of windows.new) }
    ensures parts { standing_of windows.new
        ≡ record (standing_of windows.old) { resize = contains nat_cmp windows.new.resize; rearrange = contains nat_cmp windows.new.rearrange } }
    ensures waits { OnOk result (MasterWaits (standing_of windows.new) place size) }
    ensures more { (q : ℕ) → contains nat_cmp windows.old.resize q ≡ true → contains nat_cmp windows.new.resize q ≡ true }
    ensures only { (q : ℕ) → contains nat_cmp windows.new.resize q ≡ true → (q < place) ⊎ (contains nat_cmp windows.old.resize q ≡ true) }
{
    match slot_at(windows, place) {
        Some(slot) => mark_slot(windows, slot, place, size),
        None => Ok(()),
    }
}

/// A window asks for a size from now on, and needn't be looked at for that. Where it is another than before, its master has to be.
fn note_size(windows: &mut KeptWindows, place: usize, size: (u32, u32)) -> Result<(), AllocError>
    requires standing { IsStanding (standing_of windows.old) }
    requires marked { contains nat_cmp windows.old.resize place ≡ true }
    requires size { IsSizeNow (standing_of windows.old) place size }
    ensures standing { IsStanding (standing_of windows.new) }
    ensures same { SameInputs (standing_of windows.old) (standing_of windows.new) }
    ensures less { OnOk result ((q : ℕ) → contains nat_cmp windows.new.resize q ≡ true
        → (q < place) ⊎ ((q ≢ place) × (contains nat_cmp windows.old.resize q ≡ true))) }
{
    if asks_for(windows.asked.as_slice(), place, size) {
        windows.resize.remove(&place);
        return Ok(());
    }
    mark_master(windows, place, size)?;
    put_size(&mut windows.asked, place, size);
    windows.resize.remove(&place);
    Ok(())
}

/// The last of some places.
fn last_of(places: &BTreeSet<usize>) -> Option<usize>
    ensures { MatchOption result ((q : ℕ) → contains nat_cmp places.now q ≡ false)
        (λ last. (contains nat_cmp places.now last ≡ true) × ((q : ℕ) → contains nat_cmp places.now q ≡ true → q ≤ last)) }
{
    match places.last() {
        Some(last) => Some(*last),
        None => None,
    }
}

/// Finds anew what those windows ask for whose size is still to be looked at, and all whose size that changes: slaves first, since each stands behind
/// its master.
pub fn resize_all(alloc: Global, windows: &mut KeptWindows) -> Result<(), AllocError>
    requires { IsStanding (standing_of windows.old) }
    ensures standing { IsStanding (standing_of windows.new) }
    ensures same { SameInputs (standing_of windows.old) (standing_of windows.new) }
    ensures done { OnOk result ((q : ℕ) → contains nat_cmp windows.new.resize q ≡ false) }
{
    while let Some(place) = last_of(&windows.resize) {
        let size = size_now(alloc, windows, place)?;
        note_size(windows, place, size)?;
    }
    Ok(())
}
