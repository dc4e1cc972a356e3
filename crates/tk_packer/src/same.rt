//! Whether requests are the same.
ghost use Rattle.std.specs.Prelude.{◌≡◌, ◌↔◌, IsTrue};

use crate::{Anchor, Fill, Packed, Pads, Request, Side};

/// Whether two lists of requests are the same.
pub fn are_same(one: &[Request], other: &[Request]) -> bool
    ensures { IsTrue result ↔ (one.now ≡ other.now) }
{
    if one.len() != other.len() {
        return false;
    }
    for (index, request) in one.iter().enumerate() {
        if !is_same(request, &other[index]) {
            return false;
        }
    }
    true
}

/// Whether a window is packed as another one.
pub fn is_same_packed(one: &Packed, other: &Packed) -> bool
    ensures { IsTrue result ↔ (one.now ≡ other.now) }
{
    one.master == other.master
        && one.number == other.number
        && is_same(&one.request, &other.request)
}

fn is_same(one: &Request, other: &Request) -> bool
    ensures { IsTrue result ↔ (one.now ≡ other.now) }
{
    one.width == other.width
        && one.height == other.height
        && one.expand == other.expand
        && one.ipadx == other.ipadx
        && one.ipady == other.ipady
        && are_same_pads(one.padx, other.padx)
        && are_same_pads(one.pady, other.pady)
        && is_same_side(one.side, other.side)
        && is_same_fill(one.fill, other.fill)
        && is_same_anchor(one.anchor, other.anchor)
}

fn are_same_pads(one: Pads, other: Pads) -> bool
    ensures { IsTrue result ↔ (one ≡ other) }
{
    one == other
}

fn is_same_side(one: Side, other: Side) -> bool
    ensures { IsTrue result ↔ (one ≡ other) }
{
    one == other
}

fn is_same_fill(one: Fill, other: Fill) -> bool
    ensures { IsTrue result ↔ (one ≡ other) }
{
    one == other
}

fn is_same_anchor(one: Anchor, other: Anchor) -> bool
    ensures { IsTrue result ↔ (one ≡ other) }
{
    one == other
}
