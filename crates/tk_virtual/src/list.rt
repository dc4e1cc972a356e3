//! Pairs in order, found by their names.
ghost use Rattle.std.specs.Prelude.{◌≡◌, ◌≢◌, ◌-◌, ◌<◌, false, not, [], ◌∷◌, ◌++◌, length, take, filter, find, IfOk, IfErr, OnOk, OnErr};
ghost use Rattle.std.specs.List.{IsDistinct, list_any};
ghost use Rattle.std.specs.Map.{remove_entry};
ghost use Rattle.std.specs.Option.{option_to_list};
ghost use Rattle.indexmap.specs.IndexMap.{keys};
ghost use Rattle.indexmap.specs.IndexSet.{remove_key};
ghost use Rattle.tcl_text.specs.Limits.{most_bytes};
ghost use Rattle.tcl_text.specs.Readings.{list_form};
ghost use Rattle.tk_virtual.specs.First.{marking_first};
ghost use Rattle.tk_virtual.specs.Several.{is_one_of, without_these};
ghost use Rattle.tk_virtual.specs.Virtual.{has_name, is_same, without_name, without_pair, written_names};

use crate::first::first_names;
use crate::named::{file, pairs_of, take_out, take_out_name, take_out_pairs};
use crate::pair::Pair;
use indexmap::{IndexMap, IndexSet};
use std::alloc::{AllocError, Global};
use std::collections::HashMap;
use std::marker::Model;
use tcl_text::{TextFault, TextList};
use tk_sequences::VirtualName;

/// Pairs in the order in which they were added, and by hashing those of each name.
pub struct PairList {
    /// Each with whether it is the first of its name, so that names are told without comparing them.
    pairs: IndexMap<Pair, bool>,
    /// The same by their names.
    named: HashMap<String, Vec<Pair>>,
}

impl Model for PairList {
    ghost use Rattle.std.specs.Prelude.{◌≡◌, ℕ, List, filter};
    ghost use Rattle.indexmap.specs.IndexMap.{keys};
    ghost use Rattle.tk_virtual.specs.declared.pair.Pair.{Pair};
    ghost use Rattle.tk_virtual.specs.First.{marked};
    ghost use Rattle.tk_virtual.specs.Named.{listed};
    ghost use Rattle.tk_virtual.specs.Virtual.{has_name};

    ghost Value = { List Pair };

    ghost view = { λ p. keys p.pairs };

    ghost invariant = { λ p. (p.pairs.entries ≡ marked (keys p.pairs)) × ((name : List ℕ) → listed name p.named ≡ filter (has_name name) (keys p.pairs)) };
}

impl PairList {
    /// No pairs. It takes no memory.
    pub(crate) fn new(alloc: Global) -> PairList
        ensures { result ≡ [] }
    {
        PairList {
            pairs: IndexMap::new(alloc),
            named: HashMap::new(alloc),
        }
    }

    /// All of them, in order. None is there twice.
    pub fn all(&self) -> &[Pair]
        ensures pairs { result.now ≡ self.now }
        ensures once { IsDistinct is_same self.now }
    {
        self.pairs.keys().as_slice()
    }

    /// Those of a name, in order; they are found by hashing.
    pub fn named(&self, name: &VirtualName) -> &[Pair]
        ensures { result.now ≡ filter (has_name name.now) self.now }
    {
        pairs_of(&self.named, name.as_str())
    }

    /// How many there are.
    pub(crate) fn len(&self) -> usize
        ensures { result ≡ length self.now }
    {
        self.pairs.len()
    }

    /// Whether a pair is there.
    pub(crate) fn contains(&self, pair: &Pair) -> bool
        ensures { result ≡ list_any (is_same pair.now) self.now }
    {
        self.pairs.contains_key(pair)
    }

    /// Adds a pair that isn't there.
    pub(crate) fn push(&mut self, alloc: Global, pair: Pair) -> Result<(), AllocError>
        requires { list_any (is_same pair) self.old ≡ false }
        ensures ok { OnOk result (self.new ≡ self.old ++ pair ∷ []) }
        ensures err { OnErr result (self.new ≡ self.old) }
    {
        let first = pairs_of(&self.named, pair.name.as_str()).is_empty();
        self.pairs.insert(pair.copy(alloc)?, first)?;
        match file(alloc, &mut self.named, pair) {
            Ok(()) => Ok(()),
            Err(refused) => {
                self.pairs.pop();
                Err(refused)
            }
        }
    }

    /// Takes out the last pair.
    pub(crate) fn take_last(&mut self) -> Option<Pair>
        ensures last { self.old ≡ self.new ++ option_to_list result }
        ensures rest { self.new ≡ take (length self.old - 1) self.old }
    {
        let Some((pair, _first)) = self.pairs.pop() else {
            return None;
        };
        take_out(&mut self.named, &pair);
        Some(pair)
    }

    /// Takes out all pairs of a name. It takes no memory.
    pub(crate) fn delete_name(&mut self, name: &VirtualName)
        ensures { self.new ≡ without_name name.now self.old }
    {
        leave_out_name(&mut self.pairs, name.as_str());
        take_out_name(&mut self.named, name.as_str());
    }

    /// Takes out a pair, if it is there. It takes no memory.
    pub(crate) fn delete_pair(&mut self, wanted: &Pair) -> Option<Pair>
        ensures pairs { self.new ≡ without_pair wanted.now self.old }
        ensures taken { result ≡ find (is_same wanted.now) self.old }
        ensures others { self.new ≡ remove_key (is_same wanted.now) self.old }
    {
        let taken = take_pair(&mut self.pairs, wanted);
        take_out(&mut self.named, wanted);
        mark_first(&mut self.pairs, pairs_of(&self.named, wanted.name.as_str()));
        taken
    }

    /// Takes out those of some pairs of a name that are there. It takes no memory.
    pub(crate) fn delete_pairs(&mut self, name: &VirtualName, wanted: &IndexSet<Pair>)
        ensures { self.new ≡ without_these name.now wanted.now.keys self.old }
    {
        let name = name.as_str();
        leave_out_pairs(&mut self.pairs, name, wanted);
        take_out_pairs(&mut self.named, name, wanted);
        mark_first(&mut self.pairs, pairs_of(&self.named, name));
    }

    /// The names that have pairs, in their brackets, each where it first stands. `TooLong` where their list passes 65,536 bytes by its names
    /// alone; none is copied then.
    pub(crate) fn names(&self, alloc: Global) -> Result<TextList, TextFault>
        ensures ok { IfOk result (λ list. list ≡ written_names self.now) }
        ensures too_long { IfErr result (λ fault. fault ≢ TextFault.NoMemory → most_bytes < length (list_form (written_names self.now))) }
    {
        first_names(alloc, &self.pairs)
    }
}

/// Takes out a pair, if it is there.
fn take_pair(pairs: &mut IndexMap<Pair, bool>, wanted: &Pair) -> Option<Pair>
    ensures entries { pairs.new.entries ≡ remove_entry (is_same wanted.now) pairs.old.entries }
    ensures taken { result ≡ find (is_same wanted.now) (keys pairs.old) }
    ensures none { list_any (is_same wanted.now) (keys pairs.new) ≡ false }
{
    match pairs.shift_remove_entry(wanted) {
        Some((pair, _first)) => Some(pair),
        None => None,
    }
}

/// Marks the first of the pairs of a name that are left, since the one that was marked may be out.
fn mark_first(pairs: &mut IndexMap<Pair, bool>, named: &[Pair])
    ensures { pairs.new.entries ≡ marking_first named.now pairs.old.entries }
{
    let Some(pair) = named.first() else {
        return;
    };
    if let Some(first) = pairs.get_mut(pair) {
        *first = true;
    }
}

/// Leaves the pairs that haven't a name.
fn leave_out_name(pairs: &mut IndexMap<Pair, bool>, name: &str)
    ensures { pairs.new.entries ≡ filter (λ entry. not (has_name name.now entry.0)) pairs.old.entries }
{
    pairs.retain(
        |pair: &Pair, first: &mut bool| -> bool
            ensures { (result ≡ not (has_name name.entry.now pair.now)) × (first.new ≡ first.old) }
        { !pair.has_name(name) },
    );
}

/// Leaves the pairs that are none of some of a name.
fn leave_out_pairs(pairs: &mut IndexMap<Pair, bool>, name: &str, wanted: &IndexSet<Pair>)
    ensures { pairs.new.entries ≡ filter (λ entry. not (is_one_of name.now wanted.now.keys entry.0)) pairs.old.entries }
{
    pairs.retain(
        |pair: &Pair, first: &mut bool| -> bool
            ensures { (result ≡ not (is_one_of name.entry.now wanted.entry.now.keys pair.now)) × (first.new ≡ first.old) }
        { !pair.is_one_of(name, wanted) },
    );
}

/// By hand: a proof sees one call where it is dropped, and not its parts.
impl Drop for PairList {
    fn drop(self) {
        let PairList { pairs: _, named: _ } = self;
    }
}
