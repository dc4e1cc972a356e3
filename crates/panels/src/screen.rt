//! What is known of the screen by the lines that came.

ghost use Rattle.std.specs.Prelude.{◌≡◌, IfOk};
ghost use Rattle.tk_route.specs.Lines.{focus_by, rects_by};
ghost use Rattle.tk_session.specs.Session.{rects_of};
ghost use Rattle.panels.specs.Screens.{at_first, came, known, taken};

use std::alloc::{AllocError, Global};
use tk_base::Rect;
use tk_session::{AppBlock, HostLine};

/// A place of the pointer, in pixels from the screen's upper left corner.
#[derive(Clone, Copy, Debug, PartialEq, Eq)]
pub struct Spot {
    pub x: u32,
    pub y: u32,
}

/// What is known of the screen: the panels' rectangles by their slots, which panel has the keyboard, and where the pointer is, if it has come somewhere.
#[derive(Drop)]
pub struct Screen {
    pub rects: Vec<Rect>,
    pub keys: Option<usize>,
    pub pointer: Option<Spot>,
}

/// The rectangles of panels.
fn rects_of(alloc: Global, panels: &[AppBlock]) -> Result<Vec<Rect>, AllocError>
    ensures { IfOk result (λ rects. rects.items ≡ rects_of panels.now) }
{
    let mut rects = Vec::new(alloc);
    for panel in panels {
        rects.push(panel.rect)?;
    }
    Ok(rects)
}

impl Screen {
    /// What is known before the first line. An error where memory is refused.
    pub fn new(alloc: Global, panels: &[AppBlock]) -> Result<Screen, AllocError>
        ensures { IfOk result (λ screen. known screen ≡ at_first panels.now) }
    {
        Ok(Screen {
            rects: rects_of(alloc, panels)?,
            keys: None,
            pointer: None,
        })
    }

    /// A line changes what is known.
    pub fn take(&mut self, line: HostLine)
        ensures known { known self.new ≡ taken line (known self.old) }
        ensures rects { self.new.rects.items ≡ rects_by line self.old.rects.items }
        ensures keys { self.new.keys ≡ focus_by line self.old.keys }
        ensures pointer { self.new.pointer ≡ came line self.old.pointer }
    {
        match line {
            HostLine::Move { x, y } => self.pointer = Some(Spot { x, y }),
            HostLine::Focus(slot) => self.keys = slot,
            HostLine::Rect { slot, rect } => {
                if slot < self.rects.len() {
                    self.rects[slot] = rect;
                }
            }
            HostLine::Press(_) | HostLine::Release(_) | HostLine::Keydown(_) | HostLine::Keyup(_) =>
                {}
        }
    }
}
