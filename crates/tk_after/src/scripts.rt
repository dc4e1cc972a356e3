//! What waits of all applications: the timers in the order in which they are due, and the idle scripts.
ghost use Rattle.std.specs.Prelude.{◌≡◌, ◌≢◌, ℕ, false, List, [], ◌∷◌, ◌++◌, IfSome, IfNone, IsSome, OnOk, OnErr};
ghost use Rattle.std.specs.Option.{option_copied};
ghost use Rattle.tk_base.specs.Numbered.{AllBelow, IsRising, without};
ghost use Rattle.tk_after.specs.Keys.{entries_in, bag_of, taken, number_of, IsMarked};
ghost use Rattle.tk_after.specs.Timers.{entry_with, due_moments, idle_ids, IsLeastOf};
ghost use Rattle.tk_after.specs.Shared.{Held, IsNextDue};

use crate::keys::{DueKey, Name};
use crate::waiting::WaitingScript;
use std::alloc::{AllocError, Global};
use std::collections::BTreeMap;
use std::marker::Model;
use tk_base::Counter;

/// The timers of all applications in one map, the one that is due first in front, and all idle scripts in one list by application and number.
#[derive(Drop)]
pub struct TimerScripts {
    timers: BTreeMap<DueKey, WaitingScript>,
    idle: BTreeMap<Name, WaitingScript>,
}

impl Model for TimerScripts {
    ghost use Rattle.tk_after.specs.Keys.{Stored, AreKeyed};

    ghost Value = { Stored };

    ghost view = { λ s. record { timers = s.timers.entries; idle = s.idle.entries } };

    ghost invariant = { λ s. AreKeyed (record { timers = s.timers.entries; idle = s.idle.entries }) };
}

impl TimerScripts {
    /// Nothing waits. It takes no memory.
    pub fn new(alloc: Global) -> TimerScripts
        ensures { result ≡ record { timers = []; idle = [] } }
    {
        TimerScripts {
            timers: BTreeMap::new(alloc),
            idle: BTreeMap::new(alloc),
        }
    }

    /// Adds an entry whose number is above those of its application.
    pub fn insert(&mut self, owner: usize, entry: WaitingScript) -> Result<(), AllocError>
        requires { AllBelow number_of entry.id (entries_in owner self.old) }
        ensures own { OnOk result (entries_in owner self.new
            ≡ entries_in owner self.old ++ entry ∷ []) }
        ensures others { (other : ℕ)
            → other ≢ owner
            → entries_in other self.new ≡ entries_in other self.old }

        // To take it out again leaves what was.
        ensures back { OnOk result (taken owner entry.id entry.due self.new ≡ self.old) }
        ensures err { OnErr result (self.new ≡ self.old) }
    {
        let id = entry.id;
        match entry.due {
            Some(due) => {
                self.timers.insert(DueKey { due, owner, id }, entry)?;
                Ok(())
            }
            None => {
                self.idle.insert(Name { owner, id }, entry)?;
                Ok(())
            }
        }
    }

    /// The entry of a number, which is due at this moment, or an idle script where none is given.
    pub fn get(&self, owner: usize, id: u64, due: Option<u64>) -> Option<&WaitingScript>
        requires rising { IsRising number_of (entries_in owner self.now) }
        requires marked { IsMarked id due (entries_in owner self.now) }
        ensures { option_copied result ≡ entry_with id (entries_in owner self.now) }
    {
        match due {
            Some(due) => self.timers.get(&DueKey { due, owner, id }),
            None => self.idle.get(&Name { owner, id }),
        }
    }

    /// Takes the entry of a number out, which is due at this moment, or an idle script where none is given.
    pub fn take(&mut self, owner: usize, id: u64, due: Option<u64>) -> Option<WaitingScript>
        ensures exact { self.new ≡ taken owner id due self.old }
        ensures entry { IsRising number_of (entries_in owner self.old)
            → IsMarked id due (entries_in owner self.old)
            → result ≡ entry_with id (entries_in owner self.old) }
        ensures own { IsRising number_of (entries_in owner self.old)
            → IsMarked id due (entries_in owner self.old)
            → entries_in owner self.new ≡ without number_of id (entries_in owner self.old) }
        ensures others { (other : ℕ)
            → other ≢ owner
            → entries_in other self.new ≡ entries_in other self.old }
    {
        match due {
            Some(due) => self.timers.remove(&DueKey { due, owner, id }),
            None => self.idle.remove(&Name { owner, id }),
        }
    }

    /// Whether idle scripts wait in any application.
    pub fn has_idle(&self) -> bool
        ensures { result ≡ false → (owner : ℕ) → idle_ids (entries_in owner self.now) ≡ [] }
    {
        !self.idle.is_empty()
    }

    /// Under what the timer stands that is due first of all.
    pub fn first(&self) -> Option<DueKey>
        ensures { IfSome result (λ key. IsLeastOf (due_moments (entries_in key.owner self.now)) key.due) }
    {
        match self.timers.first_key_value() {
            Some((key, _)) => Some(*key),
            None => None,
        }
    }

    /// The earliest moment at which a timer is due.
    pub fn first_due(&self) -> Option<u64>
        ensures none { IfNone result ((owner : ℕ)
            → due_moments (entries_in owner self.now) ≡ []) }
        ensures least { (counters : List (ℕ × Counter))
            → IfSome result (IsNextDue (record { counters = counters; bag = bag_of self.now })) }
    {
        match self.timers.first_key_value() {
            Some((key, _)) => Some(key.due),
            None => None,
        }
    }
}
