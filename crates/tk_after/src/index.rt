//! What each application has listed, in the order of its numbers, and when that is due.
ghost use Rattle.std.specs.Prelude.{◌≡◌, ◌≢◌, ℕ, ◌==◌, [], ◌∷◌, ◌++◌, map, filter, find, IfOk, OnOk, OnErr, is_none, option_map};
ghost use Rattle.std.specs.List.{filter_map};
ghost use Rattle.std.specs.Option.{option_map_or};
ghost use Rattle.std.specs.Str.{bytes_eq};
ghost use Rattle.tk_base.specs.Numbered.{AllBelow, numbered, without};
ghost use Rattle.tk_after.specs.After.{name_of};
ghost use Rattle.tk_after.specs.Keys.{Mark, marks_in, marks_of, mark_number, lies_due_at};
ghost use Rattle.tk_after.specs.Timers.{lesser, least};

use crate::answers::{is_name_of, number_told};
use crate::keys::Name;
use std::alloc::{AllocError, Global};
use std::collections::BTreeMap;
use std::collections::btree_map::Range;
use std::marker::Model;

/// The numbers of all applications in one map, each with the moment at which its timer is due, if it is one.
#[derive(Drop)]
pub struct TimerIndex {
    marks: BTreeMap<Name, Option<u64>>,
    alloc: Global,
}

impl Model for TimerIndex {
    ghost use Rattle.std.specs.Prelude.{List};
    ghost use Rattle.std.specs.Prelude.{Option, ℕ};
    ghost use Rattle.tk_after.specs.declared.keys.Name.{Name as Key};
    ghost use Rattle.tk_after.specs.Keys.{AreMarks};

    ghost Value = { List (Key × Option ℕ) };

    ghost view = { λ i. i.marks.entries };

    ghost invariant = { λ i. AreMarks i.marks.entries };
}

impl TimerIndex {
    /// Nothing is listed. It takes no memory.
    pub fn new(alloc: Global) -> TimerIndex
        ensures { result ≡ [] }
    {
        TimerIndex {
            marks: BTreeMap::new(alloc),
            alloc,
        }
    }

    /// What an application has listed, in the order of numbers.
    pub fn own(&self, owner: usize) -> Range<'_, Name, Option<u64>>
        ensures { marks_in result ≡ marks_of owner self.now }
    {
        let first = Name { owner, id: 0 };
        let last = Name {
            owner,
            id: u64::MAX,
        };
        self.marks.range(first..=last)
    }

    /// When a number's timer is due, if it is one; nothing where the number isn't listed.
    pub fn due_of(&self, owner: usize, id: u64) -> Option<Option<u64>>
        ensures { result ≡ option_map (λ mark. mark.due) (numbered mark_number id (marks_of owner self.now)) }
    {
        self.marks.get(&Name { owner, id }).copied()
    }

    /// The earliest moment at which a timer of an application is due.
    pub fn next_due(&self, owner: usize) -> Option<u64>
        ensures { result ≡ least (filter_map (λ mark. mark.due) (marks_of owner self.now)) }
    {
        let mut earliest = None;
        for (_, due) in self.own(owner) {
            earliest = earlier(earliest, *due);
        }
        earliest
    }

    /// The first number whose timer is due at this very moment.
    pub fn first_at(&self, owner: usize, moment: u64) -> Option<u64>
        ensures { result ≡ option_map mark_number (find (lies_due_at moment) (marks_of owner self.now)) }
    {
        for (name, due) in self.own(owner) {
            if *due == Some(moment) {
                return Some(name.id);
            }
        }
        None
    }

    /// The number that scripts have this name for.
    pub fn named(&self, owner: usize, text: &str) -> Option<u64>
        ensures { result
            ≡ option_map mark_number (find (λ mark. bytes_eq (name_of mark.id) text.now) (marks_of owner self.now)) }
    {
        self.named_as(owner, text, number_told(text))
    }

    /// The same: of the number that is given, if that is its name.
    fn named_as(&self, owner: usize, text: &str, id: u64) -> Option<u64>
        ensures { result
            ≡ option_map mark_number (find (λ mark. bytes_eq (name_of mark.id) text.now) (marks_of owner self.now)) }
    {
        let _ = &self.marks;
        if is_name_of(text, id) {
            self.listed(owner, id)
        } else {
            self.named_among(owner, text)
        }
    }

    /// A number, if it is listed.
    fn listed(&self, owner: usize, id: u64) -> Option<u64>
        ensures { result ≡ option_map mark_number (numbered mark_number id (marks_of owner self.now)) }
    {
        match self.due_of(owner, id) {
            Some(_due) => Some(id),
            None => None,
        }
    }

    /// The number that scripts have this name for, looked for among all.
    fn named_among(&self, owner: usize, text: &str) -> Option<u64>
        ensures { result
            ≡ option_map mark_number (find (λ mark. bytes_eq (name_of mark.id) text.now) (marks_of owner self.now)) }
    {
        for (name, _) in self.own(owner) {
            if is_name_of(text, name.id) {
                return Some(name.id);
            }
        }
        None
    }

    /// The numbers in order.
    pub fn ids(&self, owner: usize) -> Result<Vec<u64>, AllocError>
        ensures { IfOk result (λ list. list.items ≡ map mark_number (marks_of owner self.now)) }
    {
        let mut list = Vec::new(self.alloc);
        for (name, _) in self.own(owner) {
            list.push(name.id)?;
        }
        Ok(list)
    }

    /// No numbers. It takes no memory.
    pub fn no_ids(&self) -> Vec<u64>
        ensures { result.items ≡ [] }
    {
        Vec::new(self.alloc)
    }

    /// The numbers of the idle scripts, in order.
    pub fn idle_ids(&self, owner: usize) -> Result<Vec<u64>, AllocError>
        ensures { IfOk result (λ list.
            list.items ≡ map mark_number (filter (λ mark. is_none mark.due) (marks_of owner self.now))) }
    {
        let mut list = Vec::new(self.alloc);
        for (name, due) in self.own(owner) {
            if due.is_none() {
                list.push(name.id)?;
            }
        }
        Ok(list)
    }

    /// Lists a number that is above those of its application.
    pub fn insert(&mut self, owner: usize, id: u64, due: Option<u64>) -> Result<(), AllocError>
        requires { AllBelow mark_number id (marks_of owner self.old) }
        ensures own { OnOk result (marks_of owner self.new
            ≡ marks_of owner self.old ++ record { id = id; due = due } ∷ []) }
        ensures others { (other : ℕ) → other ≢ owner → marks_of other self.new ≡ marks_of other self.old }
        ensures err { OnErr result (self.new ≡ self.old) }
    {
        self.marks.insert(Name { owner, id }, due)?;
        Ok(())
    }

    /// Lists a number no more.
    pub fn remove(&mut self, owner: usize, id: u64)
        ensures own { marks_of owner self.new ≡ without mark_number id (marks_of owner self.old) }
        ensures others { (other : ℕ) → other ≢ owner → marks_of other self.new ≡ marks_of other self.old }
    {
        self.marks.remove(&Name { owner, id });
    }
}

/// The earlier of two moments, of which there may be none.
fn earlier(one: Option<u64>, other: Option<u64>) -> Option<u64>
    ensures { result ≡ lesser one other }
{
    match (one, other) {
        (Some(a), Some(b)) => Some(a.min(b)),
        (one, None) => one,
        (None, other) => other,
    }
}
