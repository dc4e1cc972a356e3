//! The rectangles of the applications.
ghost use Rattle.std.specs.Prelude.{◌≡◌};
ghost use Rattle.std.specs.List.{list_any};
ghost use Rattle.tk_route.specs.Screen.{are_apart, shares_pixel, shares_with_another};

use std::marker::Model;
use tk_base::Rect;

const NOWHERE: Rect = Rect {
    x: 0,
    y: 0,
    width: 0,
    height: 0,
};

/// Rectangles by slot, at most sixteen. They stand in the value itself, so that they take no memory.
#[derive(Drop)]
pub(crate) struct Rects {
    all: [Rect; 16],
    count: usize,
}

impl Model for Rects {
    ghost use Rattle.std.specs.Prelude.{List, take, ◌≤◌};
    ghost use Rattle.tk_base.specs.declared.rect.Rect.{Rect};

    ghost Value = { List Rect };

    ghost view = { λ r. take r.count r.all };

    ghost invariant = { λ r. r.count ≤ 16 };
}

impl Rects {
    ghost use Rattle.std.specs.Prelude.{◌≡◌, ◌<◌, ◌≤◌, length, slice_set};

    pub(crate) fn new(rects: &[Rect]) -> Rects
        requires { length rects.now ≤ 16 }
        ensures { result ≡ rects.now }
    {
        let mut all = [NOWHERE; 16];
        all[..rects.len()].copy_from_slice(rects);
        Rects {
            all,
            count: rects.len(),
        }
    }

    pub(crate) fn as_slice(&self) -> &[Rect]
        ensures { result.now ≡ self.now }
    {
        &self.all[..self.count]
    }

    pub(crate) fn set(&mut self, slot: usize, rect: Rect)
        requires { slot < length self.old }
        ensures { self.new ≡ slice_set self.old slot rect }
    {
        let _ = &self.count;
        self.all[slot] = rect;
    }
}

/// Whether some pixel lies in both rectangles.
pub fn shares_pixel(rect: Rect, other: Rect) -> bool
    ensures { result ≡ shares_pixel rect other }
{
    rect.overlaps(other)
}

/// Whether no two share a pixel.
pub(crate) fn are_apart(rects: &[Rect]) -> bool
    ensures { result ≡ are_apart rects.now }
{
    for (slot, rect) in rects.iter().enumerate() {
        if shares_with_any(*rect, &rects[slot + 1..]) {
            return false;
        }
    }
    true
}

/// Whether a rectangle shares a pixel with any of these.
fn shares_with_any(rect: Rect, others: &[Rect]) -> bool
    ensures { result ≡ list_any (λ other. shares_pixel rect other) others.now }
{
    others.iter().any(|other| shares_pixel(rect, *other))
}

/// Whether a rectangle shares a pixel with that of another slot.
pub(crate) fn shares_with_another(rects: &[Rect], slot: usize, rect: Rect) -> bool
    ensures { result ≡ shares_with_another rects.now slot rect }
{
    rects.iter().enumerate().any(|(other, other_rect)| other != slot
        && shares_pixel(*other_rect, rect))
}
