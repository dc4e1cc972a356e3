//! What the events so far have made of the moment and of the screen.
ghost use Rattle.std.specs.Prelude.{◌≡◌, ◌∷◌, ◌++◌, IfOk, map, take};
ghost use Rattle.tk_route.specs.Lines.{rects_by};
ghost use Rattle.tk_session.specs.Reading.{event_hindrance, moved};
ghost use Rattle.tk_session.specs.Session.{rects_of};

use crate::listing::Listing;
use crate::session::{AppBlock, EventLine};
use std::alloc::{AllocError, Global};
use tk_base::Rect;
use tk_route::{HostLine, LineFault, test_beside};

/// The moment reached, and the rectangles of the applications then, by slot.
#[derive(Drop)]
pub(crate) struct Screen {
    pub(crate) moment: u64,
    pub(crate) rects: Listing<Rect>,
}

/// The rectangles that the applications came with.
fn rects_of(alloc: Global, apps: &[AppBlock]) -> Result<Listing<Rect>, AllocError>
    ensures { IfOk result (λ rects. rects ≡ rects_of apps.now) }
{
    let mut rects = Listing::new(alloc);
    for app in apps {
        rects.push(app.rect)?;
    }
    Ok(rects)
}

impl Screen {
    /// The screen before the first event.
    pub(crate) fn new(alloc: Global, apps: &[AppBlock]) -> Result<Screen, AllocError>
        ensures { IfOk result (λ screen. screen ≡ record { moment = 0; rects = rects_of apps.now }) }
    {
        let rects = rects_of(alloc, apps)?;
        Ok(Screen { moment: 0, rects })
    }

    /// What keeps an event from coming.
    pub(crate) fn hindrance_of(&self, event: &EventLine) -> Option<LineFault>
        ensures { result ≡ event_hindrance self.now event.now }
    {
        let rects = self.rects.as_slice();
        match test_beside(rects, self.moment, event.moment, &event.line) {
            Ok(()) => None,
            Err(fault) => Some(fault),
        }
    }

    /// The screen after an event that nothing keeps from coming.
    pub(crate) fn after(self, event: &EventLine) -> Screen
        ensures { result ≡ moved self event.now }
    {
        let Screen {
            moment: _,
            mut rects,
        } = self;
        if let HostLine::Rect { slot, rect } = event.line
            && slot < rects.as_slice().len()
        {
            rects.set(slot, rect);
        }
        Screen {
            moment: event.moment,
            rects,
        }
    }
}
