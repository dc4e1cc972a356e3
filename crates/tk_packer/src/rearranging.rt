//! Where the slaves of windows lie, found anew where it may be elsewhere than what is kept.
ghost use Rattle.std.specs.Prelude.{◌≡◌, ◌≢◌, ◌⊎◌, ◌<◌, ◌≤◌, ℕ, true, false, length, List, None, Some, map, option_map, set, All, IfOk, OnOk, OnErr, MatchOption, slice_get};
ghost use Rattle.std.specs.BTreeSet.{contains};
ghost use Rattle.std.specs.Option.{option_map_or};
ghost use Rattle.std.specs.Ordering.{nat_cmp};
ghost use Rattle.tk_packer.specs.Arrangements.{Fits};
ghost use Rattle.tk_packer.specs.Layout.{counted_outside};
ghost use Rattle.tk_packer.specs.Standing.{ArePlacesNow, IsStanding, IsToBePlaced, SameInputs, SameRoom, places_for, standing_of};
ghost use Rattle.tk_packer.specs.declared.standing.Slave.{Slave};

use crate::rectangles::{cavity_of, counted_outside};
use crate::resizing::asks;
use crate::shape::Shape;
use crate::standing::KeptWindows;
use crate::{Request, arrange};
use std::alloc::{AllocError, Global};
use std::collections::BTreeSet;
use tk_base::Rect;

/// No window of so many is mapped.
fn nowhere(alloc: Global, requests: &[Request]) -> Result<Vec<Option<Rect>>, AllocError>
    ensures { IfOk result (λ places. places.items ≡ map (λ request. None) requests.now) }
{
    let mut places = Vec::with_capacity(alloc, requests.len())?;
    for _index in 0..requests.len() {
        places.push(None)?;
    }
    Ok(places)
}

fn outside(border: u32, place: Option<Rect>) -> Option<Rect>
    requires { Fits border place }
    ensures { result ≡ option_map (counted_outside border) place }
{
    match place {
        Some(rect) => Some(counted_outside(border, rect)),
        None => None,
    }
}

/// Rectangles that count from the inside of a border, counted from the outside.
fn all_outside(
    alloc: Global,
    border: u32,
    places: &[Option<Rect>],
) -> Result<Vec<Option<Rect>>, AllocError>
    requires { All (Fits border) places.now }
    ensures { IfOk result (λ all. all.items ≡ map (option_map (counted_outside border)) places.now) }
{
    let mut all = Vec::with_capacity(alloc, places.len())?;
    for index in 0..places.len() {
        all.push(outside(border, places[index]))?;
    }
    Ok(all)
}

/// Where the slaves of a window lie: nowhere where it isn't mapped itself.
fn places_for(
    alloc: Global,
    shape: &Shape,
    requests: &[Request],
    place: Option<Rect>,
) -> Result<Vec<Option<Rect>>, AllocError>
    ensures { IfOk result (λ places. places.items ≡ places_for shape.now requests.now place) }
{
    match place {
        None => nowhere(alloc, requests),
        Some(rect) => {
            let inside = arrange(alloc, cavity_of(rect, shape.border), requests)?;
            all_outside(alloc, shape.border, inside.as_slice())
        }
    }
}

/// Where the slaves of the window at a place have to lie.
fn places_now(
    alloc: Global,
    windows: &KeptWindows,
    place: usize,
) -> Result<Vec<Option<Rect>>, AllocError>
    ensures { IfOk result (λ places. ArePlacesNow (standing_of windows.now) place places.items) }
{
    let Some(shape) = windows.shapes.get(place) else {
        return Ok(Vec::new(alloc));
    };
    let Some(slaves) = windows.slaves.get(place) else {
        return Ok(Vec::new(alloc));
    };
    let Some(own) = windows.places.get(place) else {
        return Ok(Vec::new(alloc));
    };
    let requests = asks(alloc, windows.asked.as_slice(), slaves.as_slice())?;
    places_for(alloc, shape, requests.as_slice(), *own)
}

fn is_same_place(one: Option<Rect>, other: Option<Rect>) -> bool
    ensures { result ≡ true → one ≡ other }
{
    match (one, other) {
        (Some(one), Some(other)) => one == other,
        (None, None) => true,
        _ => false,
    }
}

/// Whether slaves lie in one room as in the other.
fn is_same_room(one: Option<Rect>, other: Option<Rect>) -> bool
    ensures { result ≡ true → SameRoom one other }
{
    match (one, other) {
        (Some(one), Some(other)) => one.width == other.width && one.height == other.height,
        (None, None) => true,
        _ => false,
    }
}

/// The slaves of a window that has another room are still to be looked at.
fn mark_room(
    rearrange: &mut BTreeSet<usize>,
    place: usize,
    old: Option<Rect>,
    new: Option<Rect>,
) -> Result<(), AllocError>
    ensures room { OnOk result (contains nat_cmp rearrange.new place ≡ false → SameRoom old new) }
    ensures more { (q : ℕ) → contains nat_cmp rearrange.old q ≡ true → contains nat_cmp rearrange.new q ≡ true }
    ensures only { (q : ℕ) → contains nat_cmp rearrange.new q ≡ true → (q ≡ place) ⊎ (contains nat_cmp rearrange.old q ≡ true) }
{
    if is_same_room(old, new) {
        return Ok(());
    }
    rearrange.insert(place)?;
    Ok(())
}

pub fn set_place(places: &mut Vec<Option<Rect>>, position: usize, place: Option<Rect>)
    ensures { places.new.items ≡ set places.old.items position place }
{
    if position < places.len() {
        places[position] = place;
    }
}

/// A slave lies at a place from now on.
fn put_place(
    windows: &mut KeptWindows,
    position: usize,
    place: Option<Rect>,
) -> Result<(), AllocError>
    requires standing { IsStanding (standing_of windows.old) }
    requires slave { IsToBePlaced (standing_of windows.old) position }
    ensures standing { IsStanding (standing_of windows.new) }
    ensures parts { standing_of windows.new ≡ record (standing_of windows.old) {
      places = windows.new.places.items;
      rearrange = contains nat_cmp windows.new.rearrange;
      moved = contains nat_cmp windows.new.moved;
    } }
    ensures placed { OnOk result (windows.new.places.items ≡ set windows.old.places.items position place) }
    ensures err { OnErr result (windows.new.places.items ≡ windows.old.places.items) }
    ensures more { (q : ℕ) → contains nat_cmp windows.old.rearrange q ≡ true → contains nat_cmp windows.new.rearrange q ≡ true }
    ensures only { (q : ℕ) → contains nat_cmp windows.new.rearrange q ≡ true → (q ≡ position) ⊎ (contains nat_cmp windows.old.rearrange q ≡ true) }
{
    let Some(old) = windows.places.get(position).copied() else {
        return Ok(());
    };
    if is_same_place(old, place) {
        return Ok(());
    }
    windows.moved.insert(position)?;
    mark_room(&mut windows.rearrange, position, old, place)?;
    set_place(&mut windows.places, position, place);
    Ok(())
}

/// The place of a slave among the windows, by its place among its master's slaves.
pub fn position_of(windows: &KeptWindows, master: usize, place: usize) -> Option<usize>
    ensures { MatchOption result
        ((list : List Slave) (slave : Slave) → slice_get windows.now.slaves.items master ≡ Some list → slice_get list place ≢ Some slave)
        (λ position. (list : List Slave) × ((slave : Slave) × ((slice_get windows.now.slaves.items master ≡ Some list)
        × ((slice_get list place ≡ Some slave) × (slave.position ≡ position))))) }
{
    let slaves = windows.slaves.get(master)?;
    let slave = slaves.as_slice().get(place)?;
    Some(slave.position)
}

/// The slaves of a window lie at places from now on.
fn put_all(
    windows: &mut KeptWindows,
    master: usize,
    places: &[Option<Rect>],
) -> Result<(), AllocError>
    requires standing { IsStanding (standing_of windows.old) }
    requires marked { contains nat_cmp windows.old.rearrange master ≡ true }
    ensures standing { IsStanding (standing_of windows.new) }
    ensures parts { standing_of windows.new ≡ record (standing_of windows.old) {
      places = windows.new.places.items;
      rearrange = contains nat_cmp windows.new.rearrange;
      moved = contains nat_cmp windows.new.moved;
    } }
    ensures own { slice_get windows.new.places.items master ≡ slice_get windows.old.places.items master }
    ensures placed { OnOk result ((k : ℕ) (list : List Slave) (slave : Slave) → k < length places.now → slice_get windows.old.slaves.items master ≡ Some list
        → slice_get list k ≡ Some slave → slice_get windows.new.places.items slave.position ≡ slice_get places.now k) }
    ensures only { (q : ℕ) → contains nat_cmp windows.new.rearrange q ≡ true → (master < q) ⊎ (contains nat_cmp windows.old.rearrange q ≡ true) }
{
    for index in 0..places.len() {
        if let Some(position) = position_of(windows, master, index) {
            put_place(windows, position, places[index])?;
        }
    }
    Ok(())
}

/// Arranges the slaves of a window anew, whose own slaves needn't be looked at then.
fn rearrange_window(
    alloc: Global,
    windows: &mut KeptWindows,
    place: usize,
) -> Result<(), AllocError>
    requires standing { IsStanding (standing_of windows.old) }
    requires marked { contains nat_cmp windows.old.rearrange place ≡ true }
    ensures standing { IsStanding (standing_of windows.new) }
    ensures parts { standing_of windows.new ≡ record (standing_of windows.old) {
      places = windows.new.places.items;
      rearrange = contains nat_cmp windows.new.rearrange;
      moved = contains nat_cmp windows.new.moved;
    } }
    ensures less { OnOk result ((q : ℕ) → contains nat_cmp windows.new.rearrange q ≡ true
        → (place < q) ⊎ ((q ≢ place) × (contains nat_cmp windows.old.rearrange q ≡ true))) }
{
    let places = places_now(alloc, windows, place)?;
    put_all(windows, place, places.as_slice())?;
    windows.rearrange.remove(&place);
    Ok(())
}

/// The first of some places.
pub fn first_of(places: &BTreeSet<usize>) -> Option<usize>
    ensures { MatchOption result ((q : ℕ) → contains nat_cmp places.now q ≡ false)
        (λ first. (contains nat_cmp places.now first ≡ true) × ((q : ℕ) → contains nat_cmp places.now q ≡ true → first ≤ q)) }
{
    match places.first() {
        Some(first) => Some(*first),
        None => None,
    }
}

/// Arranges those windows anew whose slaves' places are still to be looked at, and all whose room that changes: masters first, since each stands before
/// its slaves.
pub fn rearrange_all(alloc: Global, windows: &mut KeptWindows) -> Result<(), AllocError>
    requires { IsStanding (standing_of windows.old) }
    ensures standing { IsStanding (standing_of windows.new) }
    ensures parts { standing_of windows.new ≡ record (standing_of windows.old) {
      places = windows.new.places.items;
      rearrange = contains nat_cmp windows.new.rearrange;
      moved = contains nat_cmp windows.new.moved;
    } }
    ensures done { OnOk result ((q : ℕ) → contains nat_cmp windows.new.rearrange q ≡ false) }
{
    while let Some(place) = first_of(&windows.rearrange) {
        rearrange_window(alloc, windows, place)?;
    }
    Ok(())
}
