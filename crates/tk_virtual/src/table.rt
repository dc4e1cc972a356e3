//! The table of all applications.
ghost use Rattle.std.specs.Prelude.{◌≡◌, ◌≢◌, ◌<◌, [], ◌∷◌, length, take, filter, IfOk, IfErr, OnOk, OnErr, Ok, Err};
ghost use Rattle.indexmap.specs.IndexSet.{insert_key};
ghost use Rattle.tcl_text.specs.Limits.{most_bytes};
ghost use Rattle.tcl_text.specs.Readings.{list_form};
ghost use Rattle.tk_sequences.specs.Words.{name_in};
ghost use Rattle.tk_virtual.specs.Several.{meant_once, without_these};
ghost use Rattle.tk_virtual.specs.Virtual.{added, all_added, all_deleted, deleted, is_same, name_or_fault, without_name, without_pair, written_names, written_of};
ghost use Rattle.tk_virtual.specs.Shared.{LeavesOthers, own_of};

use crate::fault::VirtualFault;
use crate::pair::{Pair, name_meant, pair_meant};
use crate::pairs::VirtualPairs;
use indexmap::IndexSet;
use std::alloc::{AllocError, Global};
use std::collections::HashMap;
use std::marker::Model;
use tcl_text::{Text, TextFault, TextList};
use tk_sequences::VirtualName;

/// The virtual events of all applications, each application's apart from the others': pairs of a name and a sequence, in the order in which
/// they were added (event(n)).
///
/// `owner` is an application's number everywhere. An application that hasn't been named yet has no pairs.
pub struct VirtualTable {
    owners: HashMap<usize, VirtualPairs>,
    /// What an application has that hasn't been named.
    none: VirtualPairs,
    alloc: Global,
}

impl Model for VirtualTable {
    ghost use Rattle.std.specs.Prelude.{◌≡◌, []};
    ghost use Rattle.tk_virtual.specs.Shared.{Held};

    ghost Value = { Held };

    ghost view = { λ t. t.owners.entries };

    ghost invariant = { λ t. t.none ≡ [] };
}

/// The pairs that a name and several sequences spell, each once.
fn pairs_meant(
    alloc: Global,
    name: &Text,
    sequences: &[Text],
) -> Result<IndexSet<Pair>, VirtualFault>
    ensures ok { IfOk result (λ pairs. meant_once name.now sequences.now ≡ Ok pairs.keys) }
    ensures refused { IfErr result (λ fault. fault ≢ VirtualFault.NoMemory → meant_once name.now sequences.now ≡ Err fault) }
{
    let mut pairs = IndexSet::new(alloc);
    for sequence in sequences {
        let pair = pair_meant(alloc, name, sequence)?;
        put(&mut pairs, pair)?;
    }
    Ok(pairs)
}

/// Puts a pair behind the others, unless it is there.
fn put(pairs: &mut IndexSet<Pair>, pair: Pair) -> Result<(), AllocError>
    ensures { OnOk result (pairs.new.keys ≡ insert_key is_same pairs.old.keys pair) }
{
    pairs.insert(pair)?;
    Ok(())
}

impl VirtualTable {
    /// A table in which no application has a pair. It takes no memory.
    pub fn new(alloc: Global) -> VirtualTable
        ensures { result ≡ [] }
    {
        VirtualTable {
            owners: HashMap::new(alloc),
            none: VirtualPairs::new(alloc),
            alloc,
        }
    }

    /// An application's pairs. It takes no memory.
    pub fn of(&self, owner: usize) -> &VirtualPairs
        ensures { result.now ≡ own_of owner self.now }
    {
        match self.owners.get(&owner) {
            Some(own) => own,
            None => &self.none,
        }
    }

    /// Adds a pair of a name, in its `<<` and `>>`, and a sequence (`event add` of event(n)); one that is there is not added again.
    /// `BadName` (33), `BadSequence` (29), `BadKeysym` (30), `VirtualInVirtual` (32), and `Full` (31) where the application has 4,096 others.
    pub fn add(
        &mut self,
        alloc: Global,
        owner: usize,
        name: &Text,
        sequence: &Text,
    ) -> Result<(), VirtualFault>
        ensures ok { OnOk result (added name.now sequence.now (own_of owner self.old) ≡ Ok (own_of owner self.new)) }
        ensures refused { IfErr result (λ fault. fault ≢ VirtualFault.NoMemory → added name.now sequence.now (own_of owner self.old) ≡ Err fault) }
        ensures others { LeavesOthers owner self.old self.new }
        ensures kept { take (length (own_of owner self.old)) (own_of owner self.new) ≡ own_of owner self.old }
        ensures err { OnErr result (self.new ≡ self.old) }
    {
        if let Some(own) = self.owners.get_mut(&owner) {
            return own.add(alloc, name, sequence);
        }
        let mut own = VirtualPairs::new(self.alloc);
        own.add(alloc, name, sequence)?;
        self.owners.insert(owner, own)?;
        Ok(())
    }

    /// Adds the pairs of a name and several sequences, one after another (`event add` of event(n)). Each is tested whole, as by `add`, before
    /// the next; where one is refused, none is added.
    pub fn add_all(
        &mut self,
        alloc: Global,
        owner: usize,
        name: &Text,
        sequences: &[Text],
    ) -> Result<(), VirtualFault>
        ensures ok { OnOk result (all_added name.now sequences.now (own_of owner self.old) ≡ Ok (own_of owner self.new)) }
        ensures refused { IfErr result (λ fault. fault ≢ VirtualFault.NoMemory → all_added name.now sequences.now (own_of owner self.old) ≡ Err fault) }
        ensures others { LeavesOthers owner self.old self.new }
        ensures err { OnErr result (self.new ≡ self.old) }
    {
        if let Some(own) = self.owners.get_mut(&owner) {
            return own.add_all(alloc, name, sequences);
        }
        let mut own = VirtualPairs::new(self.alloc);
        own.add_all(alloc, name, sequences)?;
        self.owners.insert(owner, own)?;
        Ok(())
    }

    /// Takes out all pairs of a name (`event delete` of event(n)). It takes no memory.
    pub fn delete_name(&mut self, owner: usize, name: &VirtualName)
        ensures own { own_of owner self.new ≡ without_name name.now (own_of owner self.old) }
        ensures others { LeavesOthers owner self.old self.new }
    {
        if let Some(own) = self.owners.get_mut(&owner) {
            own.delete_name(name);
        }
    }

    /// Takes out a pair, if it is there. It takes no memory.
    pub fn delete_pair(&mut self, owner: usize, wanted: &Pair)
        ensures own { own_of owner self.new ≡ without_pair wanted.now (own_of owner self.old) }
        ensures others { LeavesOthers owner self.old self.new }
    {
        if let Some(own) = self.owners.get_mut(&owner) {
            own.delete_pair(wanted);
        }
    }

    /// Takes out all pairs of a name, or those with some sequences (`event delete` of event(n)). `BadName` (33), and for a sequence
    /// `BadSequence` (29), `BadKeysym` (30) or `VirtualInVirtual` (32); then none is taken out.
    #[tactic(auto, unfolding(crate::specs::Virtual::deleted))]
    pub fn delete(
        &mut self,
        alloc: Global,
        owner: usize,
        name: &Text,
        sequences: &[Text],
    ) -> Result<(), VirtualFault>
        ensures ok { OnOk result (deleted name.now sequences.now (own_of owner self.old) ≡ Ok (own_of owner self.new)) }
        ensures refused { IfErr result (λ fault. fault ≢ VirtualFault.NoMemory → deleted name.now sequences.now (own_of owner self.old) ≡ Err fault) }
        ensures others { LeavesOthers owner self.old self.new }
        ensures err { OnErr result (self.new ≡ self.old) }
    {
        match sequences {
            [] => {
                let name = name_meant(alloc, name)?;
                self.delete_name(owner, &name);
                Ok(())
            }
            [sequence] => self.delete_one(alloc, owner, name, sequence),
            [_, _, ..] => self.delete_all(alloc, owner, name, sequences),
        }
    }

    /// Takes out the pair of a name and a sequence, if it is there.
    fn delete_one(
        &mut self,
        alloc: Global,
        owner: usize,
        name: &Text,
        sequence: &Text,
    ) -> Result<(), VirtualFault>
        ensures ok { OnOk result (all_deleted name.now (sequence.now ∷ []) (own_of owner self.old) ≡ Ok (own_of owner self.new)) }
        ensures refused { IfErr result (λ fault. fault ≢ VirtualFault.NoMemory → all_deleted name.now (sequence.now ∷ []) (own_of owner self.old) ≡ Err fault) }
        ensures others { LeavesOthers owner self.old self.new }
        ensures err { OnErr result (self.new ≡ self.old) }
    {
        let pair = pair_meant(alloc, name, sequence)?;
        self.delete_pair(owner, &pair);
        Ok(())
    }

    /// Takes out the pairs of a name and several sequences, those of them that are there, all at once.
    fn delete_all(
        &mut self,
        alloc: Global,
        owner: usize,
        name: &Text,
        sequences: &[Text],
    ) -> Result<(), VirtualFault>
        requires { 0 < length sequences.now }
        ensures ok { OnOk result (all_deleted name.now sequences.now (own_of owner self.old) ≡ Ok (own_of owner self.new)) }
        ensures refused { IfErr result (λ fault. fault ≢ VirtualFault.NoMemory → all_deleted name.now sequences.now (own_of owner self.old) ≡ Err fault) }
        ensures others { LeavesOthers owner self.old self.new }
        ensures err { OnErr result (self.new ≡ self.old) }
    {
        let meant = name_meant(alloc, name)?;
        let wanted = pairs_meant(alloc, name, sequences)?;
        self.delete_pairs(owner, &meant, &wanted);
        Ok(())
    }

    /// Takes out those of some pairs of a name that are there. It takes no memory.
    fn delete_pairs(&mut self, owner: usize, name: &VirtualName, wanted: &IndexSet<Pair>)
        ensures own { own_of owner self.new ≡ without_these name.now wanted.now.keys (own_of owner self.old) }
        ensures others { LeavesOthers owner self.old self.new }
    {
        if let Some(own) = self.owners.get_mut(&owner) {
            own.delete_pairs(name, wanted);
        }
    }

    /// An application's pairs, in the order in which they were added. It takes no memory.
    pub fn pairs(&self, owner: usize) -> &[Pair]
        ensures { result.now ≡ own_of owner self.now }
    {
        self.of(owner).all()
    }

    /// The names that an application has pairs of, in their brackets, each where it first stands (`event info` of event(n)). `TooLong` where
    /// their list passes 65,536 bytes by its names alone; none is copied then.
    pub fn info(&self, alloc: Global, owner: usize) -> Result<TextList, TextFault>
        ensures ok { IfOk result (λ list. list ≡ written_names (own_of owner self.now)) }
        ensures too_long { IfErr result (λ fault. fault ≢ TextFault.NoMemory → most_bytes < length (list_form (written_names (own_of owner self.now)))) }
    {
        self.of(owner).names(alloc)
    }

    /// The sequences of a name in their canonical form, in the order in which they were added (`event info <<name>>` of event(n)).
    pub fn sequences_of(
        &self,
        alloc: Global,
        owner: usize,
        name: &VirtualName,
    ) -> Result<TextList, AllocError>
        ensures { IfOk result (λ list. list ≡ written_of name.now (own_of owner self.now)) }
    {
        self.of(owner).sequences_of(alloc, name)
    }
}

/// By hand: a proof sees one call where it is dropped, and not its parts.
impl Drop for VirtualTable {
    fn drop(self) {
        let VirtualTable {
            owners: _,
            none: _,
            alloc: _,
        } = self;
    }
}
