ghost use Rattle.std.specs.Prelude.{◌≡◌, [], IfOk, OnOk, OnErr};
ghost use Rattle.tk_dispatch.specs.Histories.{own_of, LeavesOthers, LeavesAll};
ghost use Rattle.tk_patterns.specs.History.{entered};

use std::alloc::{AllocError, Global};
use std::collections::HashMap;
use std::marker::Model;
use tk_patterns::History;
use tk_sequences::Event;

/// The last events of keys and buttons of applications, each application's apart from the others'. `owner` is an application's number
/// everywhere; one that hasn't been named yet has had none.
pub struct Histories {
    owners: HashMap<usize, History>,
    none: History,
    alloc: Global,
}

impl Model for Histories {
    ghost use Rattle.std.specs.Prelude.{◌≡◌, []};
    ghost use Rattle.tk_dispatch.specs.Histories.{Held};

    ghost Value = { Held };

    ghost view = { λ h. h.owners.entries };

    ghost invariant = { λ h. h.none ≡ [] };
}

impl Histories {
    /// No events.
    pub fn new(alloc: Global) -> Result<Histories, AllocError>
        ensures { IfOk result (λ histories. histories ≡ []) }
    {
        Ok(Histories {
            owners: HashMap::new(alloc),
            none: History::new(alloc)?,
            alloc,
        })
    }

    /// An application's events. It takes no memory.
    pub fn of(&self, owner: usize) -> &History
        ensures { result.now ≡ own_of owner self.now }
    {
        match self.owners.get(&owner) {
            Some(history) => history,
            None => &self.none,
        }
    }

    /// Keeps an event of a key or a button, and of 33 forgets the oldest; other events aren't kept. It takes memory for the first event of an
    /// application alone.
    pub fn push(&mut self, owner: usize, event: Event) -> Result<(), AllocError>
        ensures ok { OnOk result (own_of owner self.new ≡ entered event (own_of owner self.old)) }
        ensures others { LeavesOthers owner self.old self.new }
        ensures err { OnErr result (LeavesAll self.old self.new) }
    {
        if !event.kind.is_input() {
            return Ok(());
        }
        if let Some(history) = self.owners.get_mut(&owner) {
            history.push(event);
            return Ok(());
        }
        let mut history = History::new(self.alloc)?;
        history.push(event);
        match self.owners.insert(owner, history) {
            Ok(_) => Ok(()),
            Err(_) => Err(AllocError),
        }
    }
}

/// By hand: a proof sees one call where it is dropped, and not its parts.
impl Drop for Histories {
    fn drop(self) {
        let Histories {
            owners: _,
            none: _,
            alloc: _,
        } = self;
    }
}
