//! The pages of a long queue.
ghost use Rattle.std.specs.Prelude.{◌≡◌, [], ◌∷◌, ◌++◌, OnOk, OnErr, IfOk, MatchOption};
ghost use Rattle.tk_dispatch.specs.Queued.{all_events};

use crate::commons::Commons;
use crate::page::Page;
use std::alloc::{AllocError, Global};
use std::collections::VecDeque;
use std::marker::Model;
use std::mem;
use tk_sequences::Event;

/// How many events a page has at most.
const PAGE: usize = 512;

/// Events that wait in pages, the next one first: one list that grows takes three times its room as it does.
#[derive(Drop)]
pub(crate) struct Pages {
    first: Page,
    /// Those between the first and the last one.
    between: VecDeque<Page>,
    last: Page,
    commons: Commons,
    alloc: Global,
}

impl Model for Pages {
    ghost use Rattle.std.specs.Prelude.{List};
    ghost use Rattle.tk_sequences.specs.declared.event.Event.{Event};
    ghost use Rattle.tk_dispatch.specs.Queued.{all_events};

    ghost Value = { List Event };

    ghost view = { λ p. all_events p.first p.between.items p.last };
}

impl Pages {
    /// No events. It takes no memory.
    pub(crate) fn new(alloc: Global) -> Pages
        ensures { result ≡ [] }
    {
        Pages {
            first: Page::new(alloc),
            between: VecDeque::new(alloc),
            last: Page::new(alloc),
            commons: Commons::new(alloc),
            alloc,
        }
    }

    /// Makes room on the last page.
    fn make_room(&mut self) -> Result<(), AllocError>
        ensures { self.new ≡ self.old }
    {
        if self.last.count() < PAGE {
            return Ok(());
        }
        let full = mem::replace(&mut self.last, Page::new(self.alloc));
        match self.between.push_back(full) {
            Ok(()) => Ok(()),
            Err(refused) => {
                self.last = refused.value;
                Err(AllocError)
            }
        }
    }

    /// Out of line, so that who puts an event into a short queue has no room for all this in its frame.
    #[inline(never)]
    pub(crate) fn push_tail(&mut self, event: Event) -> Result<(), AllocError>
        ensures ok { OnOk result (self.new ≡ self.old ++ event ∷ []) }
        ensures err { OnErr result (self.new ≡ self.old) }
    {
        let event = self.commons.queued(self.alloc, event)?;
        self.make_room()?;
        self.last.push_tail(event)
    }

    /// Takes out the first event; none where there is none. With the last one it forgets what events shared. It takes no memory. Out of line,
    /// as `push_tail`.
    #[inline(never)]
    pub(crate) fn pop(&mut self) -> Result<Option<Event>, AllocError>
        ensures event { IfOk result (λ popped. MatchOption popped ((self.old ≡ []) × (self.new ≡ [])) (λ event. self.old ≡ event ∷ self.new)) }
        ensures err { OnErr result (self.new ≡ self.old) }
    {
        turn_page(&mut self.first, &mut self.between, &mut self.last);
        let popped = self.first.pop()?;
        if self.first.count() == 0 && self.last.count() == 0 && !self.commons.is_empty() {
            self.commons = Commons::new(self.alloc);
        }
        Ok(popped)
    }
}

/// Brings the next page to the front where the first one has no events left.
fn turn_page(first: &mut Page, between: &mut VecDeque<Page>, last: &mut Page)
    ensures same { all_events first.new between.new.items last.new ≡ all_events first.old between.old.items last.old }
    ensures next { first.new ≡ [] → all_events first.new between.new.items last.new ≡ [] }
{
    while first.count() == 0 {
        match between.pop_front() {
            Some(page) => *first = page,
            None => {
                mem::swap(first, last);
                return;
            }
        }
    }
}
