//! Pairs by their classes: for each class those of it, in order.
ghost use Rattle.std.specs.Prelude.{◌≡◌, ◌≢◌, ℕ, ◌-◌, ◌&&◌, false, [], ◌∷◌, ◌++◌, length, take, if◌then◌else◌, OnOk, OnErr};
ghost use Rattle.std.specs.List.{list_any};
ghost use Rattle.tk_virtual.specs.Classes.{is_of_class, listed_in, sequence_class};
ghost use Rattle.tk_virtual.specs.Several.{is_left_in, without_if_left, without_these};
ghost use Rattle.tk_virtual.specs.Virtual.{is_same, without_name, without_pair};

use crate::class::sequence_class;
use crate::list::PairList;
use crate::pair::Pair;
use indexmap::IndexSet;
use std::alloc::{AllocError, Global};
use std::collections::HashMap;
use tk_sequences::VirtualName;

/// Adds a pair behind the others of its class.
pub(crate) fn file_in(
    alloc: Global,
    classes: &mut HashMap<u64, PairList>,
    pair: Pair,
) -> Result<(), AllocError>
    requires { list_any (is_same pair) (listed_in (sequence_class pair.sequence) classes.old.entries) ≡ false }
    ensures own { OnOk result (listed_in (sequence_class pair.sequence) classes.new.entries ≡ listed_in (sequence_class pair.sequence) classes.old.entries ++ pair ∷ []) }
    ensures others { (other : ℕ) → other ≢ sequence_class pair.sequence → listed_in other classes.new.entries ≡ listed_in other classes.old.entries }
    ensures err { OnErr result ((other : ℕ) → listed_in other classes.new.entries ≡ listed_in other classes.old.entries) }
{
    let class = sequence_class(pair.sequence.sequence());
    if let Some(own) = classes.get_mut(&class) {
        return own.push(alloc, pair);
    }
    let mut own = PairList::new(alloc);
    own.push(alloc, pair)?;
    classes.insert(class, own)?;
    Ok(())
}

/// Takes the last pair of a class out.
pub(crate) fn take_last_in(classes: &mut HashMap<u64, PairList>, class: u64)
    ensures own { listed_in class classes.new.entries ≡ take (length (listed_in class classes.old.entries) - 1) (listed_in class classes.old.entries) }
    ensures others { (other : ℕ) → other ≢ class → listed_in other classes.new.entries ≡ listed_in other classes.old.entries }
{
    if let Some(own) = classes.get_mut(&class) {
        own.take_last();
    }
}

/// Takes a pair out of those of a class.
pub(crate) fn take_out_in(classes: &mut HashMap<u64, PairList>, class: u64, wanted: &Pair)
    ensures own { listed_in class classes.new.entries ≡ without_pair wanted.now (listed_in class classes.old.entries) }
    ensures others { (other : ℕ) → other ≢ class → listed_in other classes.new.entries ≡ listed_in other classes.old.entries }
{
    if let Some(own) = classes.get_mut(&class) {
        own.delete_pair(wanted);
    }
}

/// Takes all pairs of a name out of a class.
fn take_out_name_in(classes: &mut HashMap<u64, PairList>, class: u64, name: &VirtualName)
    ensures own { listed_in class classes.new.entries ≡ without_name name.now (listed_in class classes.old.entries) }
    ensures others { (other : ℕ) → other ≢ class → listed_in other classes.new.entries ≡ listed_in other classes.old.entries }
{
    if let Some(own) = classes.get_mut(&class) {
        leave_out_name(own, name);
    }
}

/// Takes all pairs of a name out, if there are some.
fn leave_out_name(own: &mut PairList, name: &VirtualName)
    ensures { own.new ≡ without_name name.now own.old }
{
    if !own.named(name).is_empty() {
        own.delete_name(name);
    }
}

/// Takes all pairs of a name out of the classes that some pairs are of.
pub(crate) fn delete_name_in(
    classes: &mut HashMap<u64, PairList>,
    pairs: &[Pair],
    name: &VirtualName,
)
    ensures { (class : ℕ) → listed_in class classes.new.entries
        ≡ (if list_any (is_of_class class) pairs.now then without_name name.now (listed_in class classes.old.entries) else listed_in class classes.old.entries) }
{
    for pair in pairs {
        take_out_name_in(classes, sequence_class(pair.sequence.sequence()), name);
    }
}

/// Takes those of some pairs of a name out of the classes that these pairs of the name are of. Of each class all go with the first.
pub(crate) fn delete_pairs_in(
    classes: &mut HashMap<u64, PairList>,
    pairs: &[Pair],
    name: &VirtualName,
    wanted: &IndexSet<Pair>,
)
    ensures { (class : ℕ) → listed_in class classes.new.entries
        ≡ (if list_any (λ pair. is_of_class class pair && is_left_in name.now wanted.now.keys (listed_in class classes.old.entries) pair) pairs.now
        then without_these name.now wanted.now.keys (listed_in class classes.old.entries) else listed_in class classes.old.entries) }
{
    for pair in pairs {
        take_out_pairs_in(classes, pair, name, wanted);
    }
}

/// Takes those of some pairs of a name out of a pair's class, if the pair is one of them and still there.
fn take_out_pairs_in(
    classes: &mut HashMap<u64, PairList>,
    pair: &Pair,
    name: &VirtualName,
    wanted: &IndexSet<Pair>,
)
    ensures own { listed_in (sequence_class pair.now.sequence) classes.new.entries
        ≡ without_if_left name.now wanted.now.keys pair.now (listed_in (sequence_class pair.now.sequence) classes.old.entries) }
    ensures others { (other : ℕ) → other ≢ sequence_class pair.now.sequence → listed_in other classes.new.entries ≡ listed_in other classes.old.entries }
{
    let class = sequence_class(pair.sequence.sequence());
    if let Some(own) = classes.get_mut(&class) {
        leave_out_pairs(own, pair, name, wanted);
    }
}

fn leave_out_pairs(own: &mut PairList, pair: &Pair, name: &VirtualName, wanted: &IndexSet<Pair>)
    ensures { own.new ≡ without_if_left name.now wanted.now.keys pair.now own.old }
{
    if own.contains(pair) && pair.is_one_of(name.as_str(), wanted) {
        own.delete_pairs(name, wanted);
    }
}
