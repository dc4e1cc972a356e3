ghost use Rattle.std.specs.Prelude.{◌≡◌, ◌≢◌, ℕ, ◌+◌, ◌^◌, ◌<◌, ◌==◌, false, [], ◌∷◌, ◌++◌, length, map, find, IfOk, IfSome, IfNone, OnOk, OnErr, Some, None, Ok, option_map};
ghost use Rattle.std.specs.Option.{option_copied, option_map_or};
ghost use Rattle.std.specs.Str.{bytes_eq};
ghost use Rattle.tk_base.specs.Numbered.{AllBelow, IsRising};
ghost use Rattle.tk_after.specs.Keys.{entries_in, marks_of, mark_of, mark_number, number_of};
ghost use Rattle.tk_after.specs.Timers.{is_full, with_entry, entry_with, without, ids, idle_ids, least, IsLeastOf, due_moments, first_due, IsFirstDue, NothingDue};
ghost use Rattle.tk_after.specs.Shared.{own_of, entries_of, IsKept, IsNextDue, LeavesOthers};
ghost use Rattle.tk_base.specs.Counters.{next_of, count_of, Counts};

use crate::index::TimerIndex;
use crate::scripts::TimerScripts;
use crate::waiting::WaitingScript;
use std::alloc::{AllocError, Global};
use std::collections::HashMap;
use std::marker::Model;
use tcl_text::Text;
use tk_base::{Counter, count_less, counter_of, set_counter};

/// How many timers and idle scripts an application has at most.
const MAX_LISTED: usize = 256;

/// The number after the last one that is given.
const NUMBERS_END: u64 = u64::MAX;

/// The timers and idle scripts of applications, each application's apart from the others' (after(n)).
///
/// `owner` is an application's number everywhere, and a moment is in milliseconds. An application that hasn't been named yet has nothing
/// waiting.
pub struct Timers {
    scripts: TimerScripts,
    index: TimerIndex,
    counters: HashMap<usize, Counter>,
}

impl Model for Timers {
    ghost use Rattle.tk_after.specs.Shared.{Held};
    ghost use Rattle.tk_after.specs.Keys.{held_by, AreKept};

    ghost Value = { Held };

    ghost view = { λ t. held_by t.scripts t.counters.entries };

    ghost invariant = { λ t. AreKept t.scripts t.index t.counters.entries };
}

impl Timers {
    ghost use Rattle.tk_after.specs.After.{entry_named, entry_meant, cancel_text};

    /// Nothing waits. It takes no memory.
    pub fn new(alloc: Global) -> Timers
        ensures { result ≡ record { counters = []; bag = [] } }
    {
        Timers {
            scripts: TimerScripts::new(alloc),
            index: TimerIndex::new(alloc),
            counters: HashMap::new(alloc),
        }
    }

    /// Whether the application may have no more: 256 are listed, or the last number, 2^64 - 2, was given.
    pub fn is_full(&self, owner: usize) -> bool
        ensures { result ≡ is_full (own_of owner self.now) }
    {
        let counter = counter_of(&self.counters, owner);
        counter.count >= MAX_LISTED || counter.next == NUMBERS_END
    }

    /// How many timers and idle scripts the application has listed.
    pub fn count(&self, owner: usize) -> usize
        ensures count { result ≡ length (entries_of owner self.now) }

        // At most 256, in the order of their numbers, each of which was given before the next one.
        ensures kept { IsKept (own_of owner self.now) }
    {
        counter_of(&self.counters, owner).count
    }

    /// Lists a timer that is due at a moment, and answers its number, from 0 on: N is `after#N` to scripts (after(n)).
    pub fn add(&mut self, owner: usize, due: u64, script: Text) -> Result<u64, AllocError>
        requires { is_full (own_of owner self.old) ≡ false }
        ensures id { IfOk result (λ id. id ≡ (own_of owner self.old).next_number) }
        ensures ok { OnOk result (own_of owner self.new
            ≡ with_entry (Some due) script (own_of owner self.old)) }
        ensures others { LeavesOthers owner self.old self.new }
        ensures err { OnErr result (self.new ≡ self.old) }
    {
        self.insert(owner, Some(due), script)
    }

    /// Lists an idle script (`after idle` of after(n)), and answers its number, which is counted with those of timers.
    pub fn idle_add(&mut self, owner: usize, script: Text) -> Result<u64, AllocError>
        requires { is_full (own_of owner self.old) ≡ false }
        ensures id { IfOk result (λ id. id ≡ (own_of owner self.old).next_number) }
        ensures ok { OnOk result (own_of owner self.new
            ≡ with_entry None script (own_of owner self.old)) }
        ensures others { LeavesOthers owner self.old self.new }
        ensures err { OnErr result (self.new ≡ self.old) }
    {
        self.insert(owner, None, script)
    }

    /// Takes out what the application has listed under a number, and gives its script; nothing where it has none such. A timer's number and
    /// an idle script's serve alike (`after cancel` of after(n)). It takes no memory.
    pub fn cancel(&mut self, owner: usize, id: u64) -> Option<Text>
        ensures script { result
            ≡ option_map (λ entry. entry.script) (entry_with id (entries_of owner self.old)) }
        ensures own { own_of owner self.new ≡ without id (own_of owner self.old) }
        ensures others { LeavesOthers owner self.old self.new }
    {
        let due = self.index.due_of(owner, id)?;
        let entry = self.scripts.take(owner, id, due)?;
        self.index.remove(owner, id);
        count_less(&mut self.counters, owner);
        let WaitingScript {
            id: _,
            due: _,
            script,
        } = entry;
        Some(script)
    }

    /// The numbers that are listed, timers' and idle scripts', in order (`after info` of after(n)).
    pub fn info(&self, owner: usize) -> Result<Vec<u64>, AllocError>
        ensures list { IfOk result (λ list. list.items ≡ ids (entries_of owner self.now)) }
        ensures kept { IsKept (own_of owner self.now) }
    {
        self.index.ids(owner)
    }

    /// The timer or idle script that is listed under a number. It takes no memory.
    pub fn entry(&self, owner: usize, id: u64) -> Option<&WaitingScript>
        ensures { option_copied result ≡ entry_with id (entries_of owner self.now) }
    {
        let due = self.index.due_of(owner, id)?;
        self.scripts.get(owner, id, due)
    }

    /// The earliest moment at which a timer of any application is due; none where no timer waits. It takes no memory.
    pub fn next_due(&self) -> Option<u64>
        ensures none { IfNone result ((owner : ℕ) → due_moments (entries_of owner self.now) ≡ []) }
        ensures least { IfSome result (IsNextDue self.now) }
    {
        self.scripts.first_due()
    }

    /// The earliest moment at which a timer of one application is due; none where none of its waits. It takes no memory.
    pub fn next_due_of(&self, owner: usize) -> Option<u64>
        ensures value { result ≡ least (due_moments (entries_of owner self.now)) }
        ensures none { IfNone result (due_moments (entries_of owner self.now) ≡ []) }
        ensures least { IfSome result (IsLeastOf (due_moments (entries_of owner self.now))) }
    {
        match self.scripts.first() {
            Some(key) if key.owner == owner => Some(key.due),
            _ => self.index.next_due(owner),
        }
    }

    /// Takes out the timer that goes first of those that the application has due by a moment, the earliest and of those the first made, and
    /// gives its number and script. It takes no memory.
    pub fn take_due(&mut self, owner: usize, moment: u64) -> Option<(u64, Text)>
        ensures taken { result
            ≡ option_map (λ entry. (entry.id, entry.script)) (first_due moment (entries_of owner self.old)) }
        ensures first { IfSome result (λ taken.
            IsFirstDue moment (entries_of owner self.old) taken.0 taken.1) }
        ensures none { IfNone result (NothingDue moment (entries_of owner self.old)) }
        ensures own { own_of owner self.new
            ≡ option_map_or (λ taken. without taken.0 (own_of owner self.old)) result (own_of owner self.old) }
        ensures others { LeavesOthers owner self.old self.new }
    {
        let id = self.first_due(owner, moment)?;
        let script = self.cancel(owner, id)?;
        Some((id, script))
    }

    /// The number of the timer that goes first of those that are due by a moment.
    fn first_due(&self, owner: usize, moment: u64) -> Option<u64>
        ensures first { result
            ≡ option_map (λ entry. entry.id) (first_due moment (entries_of owner self.now)) }
        ensures kept { IsKept (own_of owner self.now) }
    {
        let _ = &self.index;
        let due = self.next_due_of(owner)?;
        if due > moment {
            return None;
        }
        self.index.first_at(owner, due)
    }

    /// The numbers of the idle scripts that wait now, in order: one round of them (`after idle` of after(n)). None is taken out.
    pub fn idle_round(&self, owner: usize) -> Result<Vec<u64>, AllocError>
        ensures { IfOk result (λ list. list.items ≡ idle_ids (entries_of owner self.now)) }
    {
        if self.scripts.has_idle() {
            self.index.idle_ids(owner)
        } else {
            Ok(self.index.no_ids())
        }
    }

    /// The number that comes next.
    pub(crate) fn next_number(&self, owner: usize) -> u64
        ensures { result ≡ (own_of owner self.now).next_number }
    {
        counter_of(&self.counters, owner).next
    }

    /// What is listed under a name.
    pub(crate) fn entry_named(&self, owner: usize, text: &str) -> Option<&WaitingScript>
        ensures { option_copied result ≡ entry_named text.now (entries_of owner self.now) }
    {
        let id = self.index.named(owner, text)?;
        self.entry(owner, id)
    }

    /// The first that is listed with a script.
    fn entry_running(&self, owner: usize, script: &str) -> Option<&WaitingScript>
        ensures { option_copied result
            ≡ find (λ entry. bytes_eq entry.script script.now) (entries_of owner self.now) }
    {
        entry_with_script(&self.scripts, &self.index, owner, script)
    }

    /// Takes out what is listed under a name, or else the first with a script, if anything.
    pub(crate) fn cancel_meant(&mut self, owner: usize, text: &str)
        ensures own { own_of owner self.new ≡ (cancel_text (Ok text.now) (own_of owner self.old)).0 }
        ensures others { LeavesOthers owner self.old self.new }
    {
        if let Some(id) = self.id_meant(owner, text) {
            let _script = self.cancel(owner, id);
        }
    }

    fn id_meant(&self, owner: usize, text: &str) -> Option<u64>
        ensures { result
            ≡ option_map (λ entry. entry.id) (entry_meant text.now (entries_of owner self.now)) }
    {
        let entry = match self.entry_named(owner, text) {
            Some(entry) => entry,
            None => self.entry_running(owner, text)?,
        };
        Some(entry.id)
    }

    pub(crate) fn insert(
        &mut self,
        owner: usize,
        due: Option<u64>,
        script: Text,
    ) -> Result<u64, AllocError>
        requires { is_full (own_of owner self.old) ≡ false }
        ensures id { IfOk result (λ id. id ≡ (own_of owner self.old).next_number) }
        ensures ok { OnOk result (own_of owner self.new
            ≡ with_entry due script (own_of owner self.old)) }
        ensures others { LeavesOthers owner self.old self.new }
        ensures err { OnErr result (self.new ≡ self.old) }
    {
        let id = counter_of(&self.counters, owner).next;
        self.scripts
            .insert(owner, WaitingScript { id, due, script })?;
        match list_number(&mut self.index, &mut self.counters, owner, due) {
            Ok(()) => Ok(id),
            Err(refused) => {
                let _entry = self.scripts.take(owner, id, due);
                Err(refused)
            }
        }
    }
}

/// Lists an application's next number, and counts it.
fn list_number(
    index: &mut TimerIndex,
    counters: &mut HashMap<usize, Counter>,
    owner: usize,
    due: Option<u64>,
) -> Result<(), AllocError>
    requires below { AllBelow mark_number (next_of owner counters.old.entries) (marks_of owner index.old) }
    requires room { next_of owner counters.old.entries + 1 < 2 ^ 64 }
    requires few { count_of owner counters.old.entries + 1 < 2 ^ 63 }
    ensures ok { OnOk result (marks_of owner index.new
        ≡ marks_of owner index.old ++ record { id = next_of owner counters.old.entries; due = due } ∷ []) }
    ensures others { (other : ℕ) → other ≢ owner → marks_of other index.new ≡ marks_of other index.old }
    ensures counts { OnOk result (Counts owner (record { next = next_of owner counters.old.entries + 1; count = count_of owner counters.old.entries + 1 })
        counters.old.entries counters.new.entries) }
    ensures err { OnErr result (counters.new.entries ≡ counters.old.entries) }
    ensures back { OnErr result (marks_of owner index.new ≡ marks_of owner index.old) }
{
    let Counter { next, count } = counter_of(counters, owner);
    index.insert(owner, next, due)?;
    let counter = Counter {
        next: next + 1,
        count: count + 1,
    };
    match set_counter(counters, owner, counter) {
        Ok(()) => Ok(()),
        Err(refused) => {
            index.remove(owner, next);
            Err(refused)
        }
    }
}

/// The first of what an application has listed that has a script.
fn entry_with_script<'a>(
    scripts: &'a TimerScripts,
    index: &TimerIndex,
    owner: usize,
    script: &str,
) -> Option<&'a WaitingScript>
    requires rising { IsRising number_of (entries_in owner scripts.now) }
    requires listed { marks_of owner index.now ≡ map mark_of (entries_in owner scripts.now) }
    ensures { option_copied result
        ≡ find (λ entry. bytes_eq entry.script script.now) (entries_in owner scripts.now) }
{
    for (name, due) in index.own(owner) {
        let entry = scripts.get(owner, name.id, *due)?;
        if entry.has_script(script) {
            return Some(entry);
        }
    }
    None
}

/// By hand: a proof sees one call where it is dropped, and not its parts.
impl Drop for Timers {
    fn drop(self) {
        let Timers {
            scripts: _,
            index: _,
            counters: _,
        } = self;
    }
}
