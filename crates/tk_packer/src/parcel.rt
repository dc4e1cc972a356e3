//! Parcels along one axis.
ghost use Rattle.std.specs.Prelude.{◌≡◌, ◌+◌, ◌^◌, ◌<◌, ◌≤◌, ◌∷◌, IfOk, IfSome, OnOk};
ghost use Rattle.tk_packer.specs.Ask.{ask_of};
ghost use Rattle.tk_packer.specs.Behind.{IsTallied};
ghost use Rattle.tk_packer.specs.Parcels.{share, taken, asks_of, span_packed, remaining, parcel_at, cavity_after, spare_before, length_in, span_in};

use crate::ask::{Align, Ask, Axis, Edge};
use crate::behind::{Behind, pass_first};
use crate::request::Request;
use std::alloc::{AllocError, Global};

/// A stretch of an axis, in pixels.
#[derive(Clone, Copy)]
pub struct Extent {
    pub start: u32,
    pub length: u32,
}

/// The windows behind one that expands: they are counted once, for it and all that come later.
fn counted_behind(
    alloc: Global,
    axis: Axis,
    behind: Option<Behind>,
    later: &[Request],
) -> Result<Behind, AllocError>
    requires { IfSome behind (λ b. IsTallied b (asks_of axis later.now)) }
    ensures { IfOk result (λ b. IsTallied b (asks_of axis later.now)) }
{
    match behind {
        Some(counted) => Ok(counted),
        None => Behind::of(alloc, axis, later),
    }
}

/// The share of a window that expands, from what it leaves of the cavity.
#[tactic(auto, using(crate::proofs::Tallies::tally_some, crate::proofs::Tallies::tally_within))]
fn share(
    alloc: Global,
    axis: Axis,
    free: u64,
    behind: &mut Option<Behind>,
    later: &[Request],
) -> Result<u64, AllocError>
    requires { IfSome behind.old (λ b. IsTallied b (asks_of axis later.now)) }
    ensures value { IfOk result (λ s. s ≡ share free 1 (asks_of axis later.now)) }
    ensures bound { IfOk result (λ s. s ≤ free) }
    ensures behind { OnOk result (IfSome behind.new (λ b. IsTallied b (asks_of axis later.now))) }
{
    let counted = counted_behind(alloc, axis, behind.take(), later)?;
    let share = counted.share(free);
    *behind = Some(counted);
    Ok(share)
}

/// How much of the cavity the window's parcel takes.
fn taken(
    alloc: Global,
    axis: Axis,
    cavity: u32,
    ask: &Ask,
    behind: &mut Option<Behind>,
    later: &[Request],
) -> Result<u32, AllocError>
    requires { IfSome behind.old (λ b. IsTallied b (asks_of axis later.now)) }
    ensures value { IfOk result (λ n. n ≡ taken cavity ask.now (asks_of axis later.now)) }
    ensures bound { IfOk result (λ n. n ≤ cavity) }
    ensures behind { OnOk result (IfSome behind.new (λ b. IsTallied b (asks_of axis later.now))) }
{
    let outer = ask.outer_length();
    let share = if ask.expands {
        let free = u64::from(cavity).saturating_sub(outer);
        share(alloc, axis, free, behind, later)?
    } else {
        0
    };
    Ok(u64::from(cavity).min(outer + share) as u32)
}

impl Extent {
    ghost use Rattle.tk_packer.specs.Parcels.{first_of, last_of};

    /// Its first places.
    fn first(self, length: u32) -> Extent
        ensures { result ≡ first_of self length }
    {
        Extent {
            start: self.start,
            length,
        }
    }

    /// Its last places.
    fn last(self, length: u32) -> Extent
        requires within { length ≤ self.length }
        requires end { self.start + self.length < 2 ^ 32 }
        ensures { result ≡ last_of self length }
    {
        Extent {
            start: self.start + (self.length - length),
            length,
        }
    }
}

/// The window's parcel, at an edge of the cavity.
fn parcel_at(edge: Edge, cavity: Extent, length: u32) -> Extent
    requires within { length ≤ cavity.length }
    requires end { cavity.start + cavity.length < 2 ^ 32 }
    ensures parcel { result ≡ parcel_at (Some edge) cavity length }
    ensures end { result.start + result.length ≤ cavity.start + cavity.length }
{
    match edge {
        Edge::Near => cavity.first(length),
        Edge::Far => cavity.last(length),
    }
}

/// The cavity without the window's parcel.
fn cavity_after(edge: Edge, cavity: Extent, length: u32) -> Extent
    requires within { length ≤ cavity.length }
    requires end { cavity.start + cavity.length < 2 ^ 32 }
    ensures cavity { result ≡ cavity_after (Some edge) cavity length }
    ensures end { result.start + result.length ≤ cavity.start + cavity.length }
{
    match edge {
        Edge::Near => cavity.last(cavity.length - length),
        Edge::Far => cavity.first(cavity.length - length),
    }
}

/// How much of the spare room lies before the window.
fn spare_before(align: Align, spare: u32) -> u32
    ensures value { result ≡ spare_before align spare }
    ensures bound { result ≤ spare }
{
    match align {
        Align::ToNear => 0,
        Align::Centered => spare / 2,
        Align::ToFar => spare,
    }
}

/// The window's length in the room between its pads.
fn length_in(ask: &Ask, room: u32) -> u32
    ensures value { result ≡ length_in ask.now room }
    ensures bound { result ≤ room }
{
    if ask.fills {
        room
    } else {
        ask.inner_length().min(u64::from(room)) as u32
    }
}

/// Where the window lies in its parcel; nowhere where no pixel is left for it.
fn span_in(ask: &Ask, parcel: Extent) -> Option<Extent>
    requires { parcel.start + parcel.length < 2 ^ 32 }
    ensures { result ≡ span_in ask.now parcel }
{
    let pads = u64::from(ask.before) + u64::from(ask.after);
    let room = u64::from(parcel.length).saturating_sub(pads) as u32;
    let length = length_in(ask, room);
    if length == 0 {
        return None;
    }
    let start = parcel.start + ask.before + spare_before(ask.align, room - length);
    Some(Extent { start, length })
}

/// Where a window of the cavity lies along an axis, and what of the cavity it leaves to those packed later.
#[tactic(auto, unfolding(crate::specs::Parcels::span_packed, crate::specs::Parcels::remaining))]
pub fn packed_first(
    alloc: Global,
    axis: Axis,
    cavity: Extent,
    behind: &mut Option<Behind>,
    request: &Request,
    later: &[Request],
) -> Result<(Option<Extent>, Extent), AllocError>
    requires end { cavity.start + cavity.length < 2 ^ 32 }
    requires behind { IfSome behind.old (λ b. IsTallied b (ask_of axis request.now ∷ asks_of axis later.now)) }
    ensures place { IfOk result (λ p. p.0 ≡ span_packed cavity (ask_of axis request.now) (asks_of axis later.now)) }
    ensures cavity { IfOk result (λ p. p.1 ≡ remaining cavity (ask_of axis request.now) (asks_of axis later.now)) }
    ensures end { IfOk result (λ p. p.1.start + p.1.length ≤ cavity.start + cavity.length) }
    ensures behind { OnOk result (IfSome behind.new (λ b. IsTallied b (asks_of axis later.now))) }
{
    pass_first(behind);
    let ask = Ask::of(axis, request);
    match ask.edge {
        None => Ok((span_in(&ask, cavity), cavity)),
        Some(edge) => {
            let length = taken(alloc, axis, cavity.length, &ask, behind, later)?;
            let parcel = parcel_at(edge, cavity, length);
            Ok((span_in(&ask, parcel), cavity_after(edge, cavity, length)))
        }
    }
}
