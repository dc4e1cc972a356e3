//! Sizes by which no slave of a window comes to lie elsewhere.
ghost use Rattle.std.specs.Prelude.{◌≡◌, ◌⊎◌, ℕ, true, Some, slice_get};
ghost use Rattle.tk_packer.specs.declared.ask.Axis.TheVariants.{Horizontal, Vertical};
ghost use Rattle.tk_packer.specs.Spread.{IsAlikeAlong, IsSpreadAt, is_spread, shares_before, takes_share};
ghost use Rattle.tk_packer.specs.Standing.{LiesAlike, standing_of};

use crate::Request;
use crate::ask::{Axis, edge_of, fills_along};
use crate::standing::{KeptWindows, Slave, Slot};

/// Whether a window's own length along an axis decides nothing there: it lies across, and fills the cavity.
fn is_spread(axis: Axis, request: &Request) -> bool
    ensures { result ≡ is_spread axis request.now }
{
    edge_of(axis, request.side).is_none() && fills_along(axis, request.fill)
}

/// Whether it may take a share of what is left along an axis.
fn takes_share(axis: Axis, request: &Request) -> bool
    ensures { result ≡ takes_share axis request.now }
{
    request.expand && edge_of(axis, request.side).is_some()
}

/// Whether one of the first slaves, so many, may.
fn shares_before(axis: Axis, slaves: &[Slave], place: usize) -> bool
    ensures { result ≡ shares_before axis slaves.now place }
{
    slaves
        .iter()
        .take(place)
        .any(|slave| takes_share(axis, &slave.packed.request))
}

/// Whether the length along an axis decides nothing of the slave at a place, nor of those before it; where it does it may answer either.
fn is_spread_at(axis: Axis, slaves: &[Slave], place: usize) -> bool
    ensures { result ≡ true → IsSpreadAt axis slaves.now place }
{
    match slaves.get(place) {
        Some(slave) => {
            is_spread(axis, &slave.packed.request) && !shares_before(axis, slaves, place)
        }
        None => false,
    }
}

/// Whether all lie alike along an axis where the slave at a place has another length.
fn is_alike_along(axis: Axis, slaves: &[Slave], place: usize, old: u32, new: u32) -> bool
    ensures { result ≡ true → IsAlikeAlong axis slaves.now place old new }
{
    old == new || is_spread_at(axis, slaves, place)
}

/// Whether all lie alike where the slave at a place has another size.
fn is_alike(slaves: &[Slave], place: usize, old: (u32, u32), new: (u32, u32)) -> bool
    ensures { result ≡ true → IsAlikeAlong Horizontal slaves.now place old.0 new.0 × IsAlikeAlong Vertical slaves.now place old.1 new.1 }
{
    is_alike_along(Axis::Horizontal, slaves, place, old.0, new.0)
        && is_alike_along(Axis::Vertical, slaves, place, old.1, new.1)
}

/// Whether all lie alike where the slave at a place, the window at another, asks for a size.
fn is_alike_with(
    slaves: &[Slave],
    place: usize,
    asked: &[(u32, u32)],
    window: usize,
    size: (u32, u32),
) -> bool
    ensures { result ≡ true → (old : ℕ × ℕ) → slice_get asked.now window ≡ Some old
        → IsAlikeAlong Horizontal slaves.now place old.0 size.0 × IsAlikeAlong Vertical slaves.now place old.1 size.1 }
{
    match asked.get(window) {
        Some(old) => is_alike(slaves, place, *old, size),
        None => false,
    }
}

/// Whether the slaves of a master lie as they did where one of them, the window at a place, asks for a size; where they don't it may answer either.
pub fn lies_alike(windows: &KeptWindows, slot: Slot, place: usize, size: (u32, u32)) -> bool
    ensures { result ≡ true → LiesAlike (standing_of windows.now) slot place size }
{
    match windows.slaves.get(slot.master) {
        Some(slaves) => is_alike_with(
            slaves.as_slice(),
            slot.place,
            windows.asked.as_slice(),
            place,
            size,
        ),
        None => false,
    }
}
