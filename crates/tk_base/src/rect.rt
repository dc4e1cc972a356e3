ghost use Rattle.std.specs.Prelude.{◌↔◌, IsTrue};
ghost use Rattle.tk_base.specs.Rect.{Meet, SharePixel};

/// A rectangle, in pixels: its upper left corner, from that of the screen, and its size. It holds its left and its top edge, and not
/// the others.
#[derive(Clone, Copy, Debug, PartialEq, Eq)]
pub struct Rect {
    pub x: u32,
    pub y: u32,
    pub width: u32,
    pub height: u32,
}

impl Rect {
    /// Whether some pixel lies in both rectangles; those that only touch share none.
    pub fn overlaps(self, other: Rect) -> bool
        ensures { IsTrue result ↔ SharePixel self other }
    {
        meet(self.x, self.width, other.x, other.width)
            && meet(self.y, self.height, other.y, other.height)
    }
}

/// Whether some place lies in both spans.
fn meet(start: u32, length: u32, other_start: u32, other_length: u32) -> bool
    ensures { IsTrue result ↔ Meet start length other_start other_length }
{
    let end = u64::from(start) + u64::from(length);
    let other_end = u64::from(other_start) + u64::from(other_length);
    u64::from(start.max(other_start)) < end.min(other_end)
}
