ghost use Rattle.std.specs.Prelude.{◌≡◌, ◌^◌, ◌<◌};
ghost use Rattle.tk_packer.specs.Ask.{edge_of, align_of, fills_along};

use crate::request::{Anchor, Fill, Request, Side};

/// One of the two axes: the layout along each is found without the other.
#[derive(Clone, Copy, PartialEq, Eq)]
pub enum Axis {
    Horizontal,
    Vertical,
}

/// An end of an axis: near is the left or the top, far the right or the bottom.
#[derive(Clone, Copy)]
pub enum Edge {
    Near,
    Far,
}

/// Where a window goes in a parcel that is longer than it.
#[derive(Clone, Copy)]
pub enum Align {
    ToNear,
    Centered,
    ToFar,
}

/// What a request asks for along one axis.
#[derive(Clone, Copy)]
pub struct Ask {
    /// The edge that it takes its parcel from; none where it goes to a side of the other axis.
    pub edge: Option<Edge>,
    pub expands: bool,
    pub size: u32,
    /// What is added to the size at both ends.
    pub ipad: u32,
    pub before: u32,
    pub after: u32,
    pub fills: bool,
    pub align: Align,
}

impl Ask {
    ghost use Rattle.tk_packer.specs.Ask.{ask_of, inner_length, outer_length};

    #[tactic(auto, unfolding(crate::specs::Ask::ask_of))]
    pub fn of(axis: Axis, request: &Request) -> Ask
        ensures { result ≡ ask_of axis request.now }
    {
        match axis {
            Axis::Horizontal => Ask {
                edge: edge_of(axis, request.side),
                expands: request.expand,
                size: request.width,
                ipad: request.ipadx,
                before: request.padx.before,
                after: request.padx.after,
                fills: fills_along(axis, request.fill),
                align: align_of(axis, request.anchor),
            },
            Axis::Vertical => Ask {
                edge: edge_of(axis, request.side),
                expands: request.expand,
                size: request.height,
                ipad: request.ipady,
                before: request.pady.before,
                after: request.pady.after,
                fills: fills_along(axis, request.fill),
                align: align_of(axis, request.anchor),
            },
        }
    }

    /// The window's own length.
    pub fn inner_length(&self) -> u64
        ensures length { result ≡ inner_length self.now }
        ensures bound { result < 2 ^ 34 }
    {
        u64::from(self.size) + 2 * u64::from(self.ipad)
    }

    /// The window's length with its pads.
    pub fn outer_length(&self) -> u64
        ensures length { result ≡ outer_length self.now }
        ensures bound { result < 2 ^ 35 }
    {
        self.inner_length() + u64::from(self.before) + u64::from(self.after)
    }
}

pub fn edge_of(axis: Axis, side: Side) -> Option<Edge>
    ensures { result ≡ edge_of axis side }
{
    match (axis, side) {
        (Axis::Horizontal, Side::Left) | (Axis::Vertical, Side::Top) => Some(Edge::Near),
        (Axis::Horizontal, Side::Right) | (Axis::Vertical, Side::Bottom) => Some(Edge::Far),
        (Axis::Horizontal, Side::Top | Side::Bottom) | (Axis::Vertical, Side::Left | Side::Right) =>
            None,
    }
}

pub fn fills_along(axis: Axis, fill: Fill) -> bool
    ensures { result ≡ fills_along axis fill }
{
    match fill {
        Fill::None => false,
        Fill::X => axis == Axis::Horizontal,
        Fill::Y => axis == Axis::Vertical,
        Fill::Both => true,
    }
}

fn align_of(axis: Axis, anchor: Anchor) -> Align
    ensures { result ≡ align_of axis anchor }
{
    match axis {
        Axis::Horizontal => match anchor {
            Anchor::Nw | Anchor::W | Anchor::Sw => Align::ToNear,
            Anchor::N | Anchor::Center | Anchor::S => Align::Centered,
            Anchor::Ne | Anchor::E | Anchor::Se => Align::ToFar,
        },
        Axis::Vertical => match anchor {
            Anchor::Nw | Anchor::N | Anchor::Ne => Align::ToNear,
            Anchor::W | Anchor::Center | Anchor::E => Align::Centered,
            Anchor::Sw | Anchor::S | Anchor::Se => Align::ToFar,
        },
    }
}
