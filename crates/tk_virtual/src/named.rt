//! Pairs by their names: for each name those of it, in order.
ghost use Rattle.std.specs.Prelude.{◌≡◌, ◌≢◌, ℕ, List, [], ◌∷◌, ◌++◌, filter, OnOk, OnErr};
ghost use Rattle.tk_virtual.specs.Named.{listed};
ghost use Rattle.tk_virtual.specs.Several.{is_one_of, without_these};
ghost use Rattle.tk_virtual.specs.Virtual.{has_name, is_same, without_pair};

use crate::pair::Pair;
use indexmap::IndexSet;
use std::alloc::{AllocError, Global};
use std::collections::HashMap;

/// The pairs of a name.
pub(crate) fn pairs_of<'a>(named: &'a HashMap<String, Vec<Pair>>, name: &str) -> &'a [Pair]
    ensures { result.now ≡ listed name.now named.now }
{
    match named.get(name) {
        Some(pairs) => pairs.as_slice(),
        None => &[],
    }
}

/// Adds a pair behind the others of its name.
pub(crate) fn file(
    alloc: Global,
    named: &mut HashMap<String, Vec<Pair>>,
    pair: Pair,
) -> Result<(), AllocError>
    ensures ok { OnOk result ((name : List ℕ) → listed name named.new ≡ listed name named.old ++ filter (has_name name) (pair ∷ [])) }
    ensures err { OnErr result ((name : List ℕ) → listed name named.new ≡ listed name named.old) }
{
    if let Some(pairs) = named.get_mut(pair.name.as_str()) {
        pairs.push(pair)?;
        return Ok(());
    }
    let name = String::from_str(alloc, pair.name.as_str())?;
    let mut pairs = Vec::new(alloc);
    pairs.push(pair)?;
    named.insert(name, pairs)?;
    Ok(())
}

/// Takes a pair out of those of its name. Nothing is kept of a name that has no other.
pub(crate) fn take_out(named: &mut HashMap<String, Vec<Pair>>, wanted: &Pair)
    ensures own { listed wanted.now.name named.new ≡ without_pair wanted.now (listed wanted.now.name named.old) }
    ensures others { (other : List ℕ) → other ≢ wanted.now.name → listed other named.new ≡ listed other named.old }
{
    let name = wanted.name.as_str();
    let Some(pairs) = named.get_mut(name) else {
        return;
    };
    leave_out(pairs, wanted);
    if pairs.is_empty() {
        named.remove(name);
    }
}

/// Leaves all pairs but one.
fn leave_out(pairs: &mut Vec<Pair>, wanted: &Pair)
    ensures { pairs.new.items ≡ without_pair wanted.now pairs.old.items }
{
    pairs.retain(|pair| !pair.is_same(wanted));
}

/// Takes out all pairs of a name.
pub(crate) fn take_out_name(named: &mut HashMap<String, Vec<Pair>>, name: &str)
    ensures own { listed name.now named.new ≡ [] }
    ensures others { (other : List ℕ) → other ≢ name.now → listed other named.new ≡ listed other named.old }
{
    named.remove(name);
}

/// Takes those of some pairs of a name out. Nothing is kept of a name that has no other.
pub(crate) fn take_out_pairs(
    named: &mut HashMap<String, Vec<Pair>>,
    name: &str,
    wanted: &IndexSet<Pair>,
)
    ensures own { listed name.now named.new ≡ without_these name.now wanted.now.keys (listed name.now named.old) }
    ensures others { (other : List ℕ) → other ≢ name.now → listed other named.new ≡ listed other named.old }
{
    let Some(pairs) = named.get_mut(name) else {
        return;
    };
    leave_out_pairs(pairs, name, wanted);
    if pairs.is_empty() {
        named.remove(name);
    }
}

/// Leaves the pairs that are none of some of a name.
fn leave_out_pairs(pairs: &mut Vec<Pair>, name: &str, wanted: &IndexSet<Pair>)
    ensures { pairs.new.items ≡ without_these name.now wanted.now.keys pairs.old.items }
{
    pairs.retain(|pair| !pair.is_one_of(name, wanted));
}
