ghost use Rattle.std.specs.Prelude.{◌≡◌};

/// The side of the cavity that a window goes to (`-side`).
#[derive(Clone, Copy, Debug, PartialEq, Eq)]
pub enum Side {
    Top,
    Bottom,
    Left,
    Right,
}

/// Where a window lies in a parcel that is larger than it (`-anchor`).
#[derive(Clone, Copy, Debug, PartialEq, Eq)]
pub enum Anchor {
    Center,
    N,
    Ne,
    E,
    Se,
    S,
    Sw,
    W,
    Nw,
}

/// Along which axes a window takes the whole of its parcel (`-fill`).
#[derive(Clone, Copy, Debug, PartialEq, Eq)]
pub enum Fill {
    None,
    X,
    Y,
    Both,
}

/// The room that stays free before and after a window in its parcel, in pixels: at its left and its right (`-padx`), or above and
/// below it (`-pady`).
#[derive(Clone, Copy, Debug, PartialEq, Eq)]
pub struct Pads {
    pub before: u32,
    pub after: u32,
}

/// A packed window: the size that it asks for, in pixels, and the options of pack(n).
#[derive(Clone, Copy, Debug, PartialEq, Eq)]
pub struct Request {
    pub width: u32,
    pub height: u32,
    pub side: Side,
    pub anchor: Anchor,
    pub fill: Fill,
    /// Whether it has a share of the room that the others leave.
    pub expand: bool,
    pub padx: Pads,
    pub pady: Pads,
    /// Added to the width at each of the two sides, in pixels.
    pub ipadx: u32,
    /// Added to the height above and below, in pixels.
    pub ipady: u32,
}

impl Request {
    ghost use Rattle.tk_packer.specs.Ask.{default_request};

    /// A window of a size with the options that `pack` gives where none is named: at the top, centered, without pads.
    pub fn new(width: u32, height: u32) -> Request
        ensures { result ≡ default_request width height }
    {
        let none = Pads {
            before: 0,
            after: 0,
        };
        Request {
            width,
            height,
            side: Side::Top,
            anchor: Anchor::Center,
            fill: Fill::None,
            expand: false,
            padx: none,
            pady: none,
            ipadx: 0,
            ipady: 0,
        }
    }
}
