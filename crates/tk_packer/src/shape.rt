use tk_base::Rect;

/// A window as the layout sees it.
#[derive(Clone, Copy, Debug, PartialEq, Eq)]
pub struct Shape {
    /// Its number in its application.
    pub number: u64,
    /// What the widget itself asks for, in pixels, whatever is packed in it.
    pub width: u32,
    pub height: u32,
    /// Its border, which lies inside its rectangle at all four sides, in pixels.
    pub border: u32,
    /// Whether what is packed in it decides what it asks for: a frame or the main window for which `pack propagate` wasn't unset.
    pub propagates: bool,
    /// Where it was laid out last, in pixels, from its parent's upper left corner.
    pub rectangle: Rect,
    /// Whether it is mapped.
    pub mapped: bool,
}
