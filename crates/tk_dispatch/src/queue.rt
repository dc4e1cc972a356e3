ghost use Rattle.std.specs.Prelude.{◌≡◌, [], ◌∷◌, ◌++◌, OnOk, OnErr, IfOk, MatchOption, length};
ghost use Rattle.tk_dispatch.specs.Queue.{own_of, LeavesOthers, LeavesAll};

use crate::own::OwnEvents;
use std::alloc::{AllocError, Global};
use std::collections::HashMap;
use std::marker::Model;
use tk_sequences::Event;

/// The events that wait for applications. `owner` is an application's number everywhere; one that hasn't been named yet has none.
///
/// Events come at the tail or at the head, as `-when` of event(n) has it, and go at the head, each in constant time.
pub struct EventQueue {
    owners: HashMap<usize, OwnEvents>,
    alloc: Global,
}

impl Model for EventQueue {
    ghost use Rattle.tk_dispatch.specs.Queue.{Held};

    ghost Value = { Held };

    ghost view = { λ q. q.owners.entries };
}

impl EventQueue {
    /// No events. It takes no memory.
    pub fn new(alloc: Global) -> EventQueue
        ensures { result ≡ [] }
    {
        EventQueue {
            owners: HashMap::new(alloc),
            alloc,
        }
    }

    /// Adds an event behind all others of the application.
    pub fn push_tail(&mut self, owner: usize, event: Event) -> Result<(), AllocError>
        ensures ok { OnOk result (own_of owner self.new ≡ own_of owner self.old ++ event ∷ []) }
        ensures others { LeavesOthers owner self.old self.new }
        ensures err { OnErr result (LeavesAll self.old self.new) }
    {
        if let Some(own) = self.owners.get_mut(&owner) {
            return own.push_tail(event);
        }
        self.open(owner, event)
    }

    /// Adds an event before all others of the application.
    pub fn push_head(&mut self, owner: usize, event: Event) -> Result<(), AllocError>
        ensures ok { OnOk result (own_of owner self.new ≡ event ∷ own_of owner self.old) }
        ensures others { LeavesOthers owner self.old self.new }
        ensures err { OnErr result (LeavesAll self.old self.new) }
    {
        if let Some(own) = self.owners.get_mut(&owner) {
            return own.push_head(event);
        }
        self.open(owner, event)
    }

    /// Adds the first event of an application.
    fn open(&mut self, owner: usize, event: Event) -> Result<(), AllocError>
        requires { own_of owner self.old ≡ [] }
        ensures ok { OnOk result (own_of owner self.new ≡ event ∷ []) }
        ensures others { LeavesOthers owner self.old self.new }
        ensures err { OnErr result (LeavesAll self.old self.new) }
    {
        let mut own = OwnEvents::new(self.alloc);
        own.push_tail(event)?;
        match self.owners.insert(owner, own) {
            Ok(_) => Ok(()),
            Err(_) => Err(AllocError),
        }
    }

    /// Takes out the application's next event; none where nothing waits. It takes no memory; it is refused only where the count of a shared
    /// text is full.
    pub fn pop(&mut self, owner: usize) -> Result<Option<Event>, AllocError>
        ensures event { IfOk result (λ popped. MatchOption popped ((own_of owner self.old ≡ []) × (own_of owner self.new ≡ []))
            (λ event. own_of owner self.old ≡ event ∷ own_of owner self.new)) }
        ensures others { LeavesOthers owner self.old self.new }
        ensures err { OnErr result (LeavesAll self.old self.new) }
    {
        match self.owners.get_mut(&owner) {
            Some(own) => own.pop(),
            None => Ok(None),
        }
    }

    /// How many events wait for the application. It takes no memory.
    pub fn count(&self, owner: usize) -> usize
        ensures { result ≡ length (own_of owner self.now) }
    {
        match self.owners.get(&owner) {
            Some(own) => own.count(),
            None => 0,
        }
    }
}

/// By hand: a proof sees one call where it is dropped, and not its parts.
impl Drop for EventQueue {
    fn drop(self) {
        let EventQueue {
            owners: _,
            alloc: _,
        } = self;
    }
}
