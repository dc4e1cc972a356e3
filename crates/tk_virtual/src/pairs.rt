//! The pairs of one application.
ghost use Rattle.std.specs.Prelude.{◌≡◌, ◌≢◌, ℕ, ◌-◌, ◌<◌, false, [], ◌∷◌, ◌++◌, length, take, map, filter, IfOk, IfErr, OnOk, OnErr, Ok, Err};
ghost use Rattle.std.specs.List.{IsDistinct, list_any};
ghost use Rattle.tcl_text.specs.Limits.{most_bytes};
ghost use Rattle.tcl_text.specs.Readings.{list_form};
ghost use Rattle.tk_sequences.specs.Writing.{canonical};
ghost use Rattle.tk_virtual.specs.Classes.{is_of_class};
ghost use Rattle.tk_virtual.specs.Several.{without_these};
ghost use Rattle.tk_virtual.specs.Virtual.{added, all_added, has_name, is_same, with_pair, without_name, without_pair, written_names, written_of};

use crate::class::sequence_class;
use crate::classes::{delete_name_in, delete_pairs_in, file_in, take_last_in, take_out_in};
use crate::fault::VirtualFault;
use crate::list::PairList;
use crate::pair::{Pair, pair_meant};
use indexmap::IndexSet;
use std::alloc::{AllocError, Global};
use std::collections::HashMap;
use std::marker::Model;
use tcl_text::{Text, TextFault, TextList};
use tk_sequences::VirtualName;

/// How many pairs an application has at most.
pub const MOST_PAIRS: usize = 4_096;

/// The virtual events of one application: pairs of a name and a sequence, in the order in which they were added (event(n)).
pub struct VirtualPairs {
    pairs: PairList,
    /// The same by their classes.
    classes: HashMap<u64, PairList>,
    /// What a class has that none is of.
    none: PairList,
}

impl Model for VirtualPairs {
    ghost use Rattle.std.specs.Prelude.{◌≡◌, ℕ, List, [], filter};
    ghost use Rattle.tk_virtual.specs.declared.pair.Pair.{Pair};
    ghost use Rattle.tk_virtual.specs.Classes.{is_of_class, listed_in};

    ghost Value = { List Pair };

    ghost view = { λ p. p.pairs };

    ghost invariant = { λ p. (p.none ≡ []) × ((class : ℕ) → listed_in class p.classes.entries ≡ filter (is_of_class class) p.pairs) };
}

impl VirtualPairs {
    /// No pairs. It takes no memory.
    pub fn new(alloc: Global) -> VirtualPairs
        ensures { result ≡ [] }
    {
        VirtualPairs {
            pairs: PairList::new(alloc),
            classes: HashMap::new(alloc),
            none: PairList::new(alloc),
        }
    }

    /// All pairs, in the order in which they were added. None is there twice.
    pub fn all(&self) -> &[Pair]
        ensures pairs { result.now ≡ self.now }
        ensures once { IsDistinct is_same self.now }
    {
        self.pairs.all()
    }

    /// The pairs of a name, in the order in which they were added; they are found by hashing.
    pub fn named(&self, name: &VirtualName) -> &[Pair]
        ensures { result.now ≡ filter (has_name name.now) self.now }
    {
        self.pairs.named(name)
    }

    /// The pairs whose sequence is of a class, in the order in which they were added; they are found by hashing.
    pub fn of_class(&self, class: u64) -> &PairList
        ensures { result.now ≡ filter (is_of_class class) self.now }
    {
        match self.classes.get(&class) {
            Some(pairs) => pairs,
            None => &self.none,
        }
    }

    /// Adds a pair of a name, in its `<<` and `>>`, and a sequence (`event add` of event(n)); one that is there is not added again.
    /// `BadName` (33), `BadSequence` (29), `BadKeysym` (30), `VirtualInVirtual` (32), and `Full` (31) where there are 4,096 others.
    #[tactic(auto, unfolding(crate::specs::Virtual::added))]
    pub fn add(&mut self, alloc: Global, name: &Text, sequence: &Text) -> Result<(), VirtualFault>
        ensures ok { OnOk result (added name.now sequence.now self.old ≡ Ok self.new) }
        ensures refused { IfErr result (λ fault. fault ≢ VirtualFault.NoMemory → added name.now sequence.now self.old ≡ Err fault) }
        ensures kept { take (length self.old) self.new ≡ self.old }
        ensures err { OnErr result (self.new ≡ self.old) }
    {
        let pair = pair_meant(alloc, name, sequence)?;
        self.insert(alloc, pair)?;
        Ok(())
    }

    /// Adds the pairs of a name and several sequences, one after another (`event add` of event(n)). Each is tested whole, as by `add`, before
    /// the next; where one is refused, none is added.
    pub fn add_all(
        &mut self,
        alloc: Global,
        name: &Text,
        sequences: &[Text],
    ) -> Result<(), VirtualFault>
        ensures ok { OnOk result (all_added name.now sequences.now self.old ≡ Ok self.new) }
        ensures refused { IfErr result (λ fault. fault ≢ VirtualFault.NoMemory → all_added name.now sequences.now self.old ≡ Err fault) }
        ensures err { OnErr result (self.new ≡ self.old) }
    {
        let before = self.pairs.len();
        match self.add_each(alloc, name, sequences) {
            Ok(()) => Ok(()),
            Err(fault) => {
                self.truncate(before);
                Err(fault)
            }
        }
    }

    /// The same, but that those before the one that is refused are added.
    fn add_each(
        &mut self,
        alloc: Global,
        name: &Text,
        sequences: &[Text],
    ) -> Result<(), VirtualFault>
        ensures ok { OnOk result (all_added name.now sequences.now self.old ≡ Ok self.new) }
        ensures refused { IfErr result (λ fault. fault ≢ VirtualFault.NoMemory → all_added name.now sequences.now self.old ≡ Err fault) }
        ensures kept { take (length self.old) self.new ≡ self.old }
    {
        for sequence in sequences {
            self.add(alloc, name, sequence)?;
        }
        Ok(())
    }

    /// Adds a pair, unless it is there.
    fn insert(&mut self, alloc: Global, pair: Pair) -> Result<(), VirtualFault>
        ensures ok { OnOk result (with_pair pair self.old ≡ Ok self.new) }
        ensures refused { IfErr result (λ fault. fault ≢ VirtualFault.NoMemory → with_pair pair self.old ≡ Err fault) }
        ensures kept { take (length self.old) self.new ≡ self.old }
        ensures err { OnErr result (self.new ≡ self.old) }
    {
        if self.pairs.contains(&pair) {
            return Ok(());
        }
        if self.pairs.len() >= MOST_PAIRS {
            return Err(VirtualFault::Full);
        }
        self.push(alloc, pair)?;
        Ok(())
    }

    /// Adds a pair that isn't there.
    fn push(&mut self, alloc: Global, pair: Pair) -> Result<(), AllocError>
        requires { list_any (is_same pair) self.old ≡ false }
        ensures ok { OnOk result (self.new ≡ self.old ++ pair ∷ []) }
        ensures err { OnErr result (self.new ≡ self.old) }
    {
        self.pairs.push(alloc, pair.copy(alloc)?)?;
        match file_in(alloc, &mut self.classes, pair) {
            Ok(()) => Ok(()),
            Err(refused) => {
                self.pairs.take_last();
                Err(refused)
            }
        }
    }

    /// Adds a copy of a pair that isn't there, the last.
    pub fn push_copy(&mut self, alloc: Global, pair: &Pair) -> Result<(), AllocError>
        requires { list_any (is_same pair.now) self.old ≡ false }
        ensures ok { OnOk result (self.new ≡ self.old ++ pair.now ∷ []) }
        ensures err { OnErr result (self.new ≡ self.old) }
    {
        let pair = pair.copy(alloc)?;
        self.push(alloc, pair)
    }

    /// Takes out the pairs behind the first so many.
    fn truncate(&mut self, count: usize)
        ensures { self.new ≡ take count self.old }
    {
        while self.pairs.len() > count {
            self.take_last();
        }
    }

    /// Takes out the last pair.
    fn take_last(&mut self)
        ensures { self.new ≡ take (length self.old - 1) self.old }
    {
        let Some(pair) = self.pairs.take_last() else {
            return;
        };
        take_last_in(&mut self.classes, sequence_class(pair.sequence.sequence()));
    }

    /// Takes out all pairs of a name (`event delete` of event(n)). It takes no memory.
    pub fn delete_name(&mut self, name: &VirtualName)
        ensures { self.new ≡ without_name name.now self.old }
    {
        delete_name_in(&mut self.classes, self.pairs.named(name), name);
        self.pairs.delete_name(name);
    }

    /// Takes out a pair, if it is there. It takes no memory.
    pub fn delete_pair(&mut self, wanted: &Pair)
        ensures { self.new ≡ without_pair wanted.now self.old }
    {
        let Some(pair) = self.pairs.delete_pair(wanted) else {
            return;
        };
        let class = sequence_class(pair.sequence.sequence());
        take_out_in(&mut self.classes, class, wanted);
    }

    /// Takes out those of some pairs of a name that are there. It takes no memory.
    pub fn delete_pairs(&mut self, name: &VirtualName, wanted: &IndexSet<Pair>)
        ensures { self.new ≡ without_these name.now wanted.now.keys self.old }
    {
        delete_pairs_in(&mut self.classes, self.pairs.named(name), name, wanted);
        self.pairs.delete_pairs(name, wanted);
    }

    /// The names that have pairs, in their brackets, each where it first stands (`event info` of event(n)). `TooLong` where their list passes
    /// 65,536 bytes by its names alone; none is copied then.
    pub fn names(&self, alloc: Global) -> Result<TextList, TextFault>
        ensures ok { IfOk result (λ list. list ≡ written_names self.now) }
        ensures too_long { IfErr result (λ fault. fault ≢ TextFault.NoMemory → most_bytes < length (list_form (written_names self.now))) }
    {
        self.pairs.names(alloc)
    }

    /// The sequences of a name in their canonical form, in the order in which they were added (`event info <<name>>` of event(n)).
    pub fn sequences_of(&self, alloc: Global, name: &VirtualName) -> Result<TextList, AllocError>
        ensures { IfOk result (λ list. list ≡ written_of name.now self.now) }
    {
        written_forms(alloc, self.named(name))
    }
}

/// The canonical forms of the sequences.
fn written_forms(alloc: Global, pairs: &[Pair]) -> Result<TextList, AllocError>
    ensures { IfOk result (λ list. list ≡ map (λ pair. canonical pair.sequence) pairs.now) }
{
    let mut list = TextList::new(alloc);
    for pair in pairs {
        list.push(pair.sequence.canonical().copy()?)?;
    }
    Ok(list)
}

/// By hand: a proof sees one call where it is dropped, and not its parts.
impl Drop for VirtualPairs {
    fn drop(self) {
        let VirtualPairs {
            pairs: _,
            classes: _,
            none: _,
        } = self;
    }
}
