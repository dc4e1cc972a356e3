//! A page of a long queue.
ghost use Rattle.std.specs.Prelude.{◌≡◌, [], ◌∷◌, ◌++◌, length, IfOk, OnOk, OnErr, MatchOption};

use crate::queued::QueuedEvent;
use std::alloc::{AllocError, Global};
use std::collections::VecDeque;
use std::marker::Model;
use tk_sequences::Event;

/// Events that wait, the next one first.
#[derive(Drop)]
pub(crate) struct Page {
    events: VecDeque<QueuedEvent>,
}

impl Model for Page {
    ghost use Rattle.std.specs.Prelude.{List};
    ghost use Rattle.tk_sequences.specs.declared.event.Event.{Event};

    ghost Value = { List Event };

    ghost view = { λ p. p.events.items };
}

impl Page {
    /// No events. It takes no memory.
    pub(crate) fn new(alloc: Global) -> Page
        ensures { result ≡ [] }
    {
        Page {
            events: VecDeque::new(alloc),
        }
    }

    pub(crate) fn push_tail(&mut self, event: QueuedEvent) -> Result<(), AllocError>
        ensures ok { OnOk result (self.new ≡ self.old ++ event ∷ []) }
        ensures err { OnErr result (self.new ≡ self.old) }
    {
        match self.events.push_back(event) {
            Ok(()) => Ok(()),
            Err(_) => Err(AllocError),
        }
    }

    /// Takes out the first event; none where there is none. It takes no memory.
    pub(crate) fn pop(&mut self) -> Result<Option<Event>, AllocError>
        ensures event { IfOk result (λ popped. MatchOption popped ((self.old ≡ []) × (self.new ≡ [])) (λ event. self.old ≡ event ∷ self.new)) }
        ensures err { OnErr result (self.new ≡ self.old) }
    {
        let Some(first) = self.events.front() else {
            return Ok(None);
        };
        let event = first.event()?;
        self.events.pop_front();
        Ok(Some(event))
    }

    pub(crate) fn count(&self) -> usize
        ensures { result ≡ length self.now }
    {
        self.events.len()
    }
}
