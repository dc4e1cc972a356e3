ghost use Rattle.std.specs.Prelude.{◌≡◌, [], ◌∷◌, ◌++◌, OnOk, OnErr, IfOk, MatchOption, length};

use crate::pages::Pages;
use std::alloc::{AllocError, Global};
use std::collections::VecDeque;
use std::marker::Model;
use tk_sequences::Event;

/// From how many events on the next ones at the tail wait in pages.
const MANY: usize = 512;

/// One application's events, the next one first. The first ones stand whole: all where they are few.
#[derive(Drop)]
pub(crate) struct OwnEvents {
    whole: VecDeque<Event>,
    /// Those behind them.
    pages: Pages,
    count: usize,
}

impl Model for OwnEvents {
    ghost use Rattle.std.specs.Prelude.{◌≡◌, ◌++◌, List, length};
    ghost use Rattle.tk_sequences.specs.declared.event.Event.{Event};

    ghost Value = { List Event };

    ghost view = { λ o. o.whole.items ++ o.pages };

    ghost invariant = { λ o. o.count ≡ length (o.whole.items ++ o.pages) };
}

impl OwnEvents {
    /// No events. It takes no memory.
    pub(crate) fn new(alloc: Global) -> OwnEvents
        ensures { result ≡ [] }
    {
        OwnEvents {
            whole: VecDeque::new(alloc),
            pages: Pages::new(alloc),
            count: 0,
        }
    }

    pub(crate) fn push_tail(&mut self, event: Event) -> Result<(), AllocError>
        ensures ok { OnOk result (self.new ≡ self.old ++ event ∷ []) }
        ensures err { OnErr result (self.new ≡ self.old) }
    {
        let Some(count) = self.count.checked_add(1) else {
            return Err(AllocError);
        };
        if self.count < MANY && self.whole.len() == self.count {
            self.whole.push_back(event)?;
        } else {
            self.pages.push_tail(event)?;
        }
        self.count = count;
        Ok(())
    }

    pub(crate) fn push_head(&mut self, event: Event) -> Result<(), AllocError>
        ensures ok { OnOk result (self.new ≡ event ∷ self.old) }
        ensures err { OnErr result (self.new ≡ self.old) }
    {
        let Some(count) = self.count.checked_add(1) else {
            return Err(AllocError);
        };
        self.whole.push_front(event)?;
        self.count = count;
        Ok(())
    }

    pub(crate) fn pop(&mut self) -> Result<Option<Event>, AllocError>
        ensures event { IfOk result (λ popped. MatchOption popped ((self.old ≡ []) × (self.new ≡ [])) (λ event. self.old ≡ event ∷ self.new)) }
        ensures err { OnErr result (self.new ≡ self.old) }
    {
        if self.count == 0 {
            return Ok(None);
        }
        let first = self.whole.pop_front();
        if first.is_some() {
            self.count -= 1;
            return Ok(first);
        }
        let Some(event) = self.pages.pop()? else {
            return Ok(None);
        };
        self.count -= 1;
        Ok(Some(event))
    }

    pub(crate) fn count(&self) -> usize
        ensures { result ≡ length self.now }
    {
        self.count
    }
}
