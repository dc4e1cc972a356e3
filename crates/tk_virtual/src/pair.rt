//! One pair.
ghost use Rattle.std.specs.Prelude.{◌≡◌, ◌≢◌, IfOk, IfErr, Ok, Err};
ghost use Rattle.tk_virtual.specs.Parse.{parsed};
ghost use Rattle.tk_sequences.specs.Words.{name_in};
ghost use Rattle.tk_virtual.specs.Virtual.{has_name, is_same, name_or_fault, not_virtual, pair_meant, pair_of};

use crate::fault::VirtualFault;
use crate::written::WrittenSequence;
use indexmap::IndexSet;
use std::alloc::{AllocError, Global};
use std::hash::{Hash, Hasher};
use tcl_text::Text;
use tk_sequences::{Sequence, VirtualName};

/// A virtual event and a sequence that stands for it.
pub struct Pair {
    pub name: VirtualName,
    /// A physical one.
    pub sequence: WrittenSequence,
}

/// The name that a word has in its brackets. `BadName` (33) where it has none.
pub fn name_meant(alloc: Global, word: &Text) -> Result<VirtualName, VirtualFault>
    ensures ok { IfOk result (λ name. name_or_fault word.now (name_in word.now) ≡ Ok name) }
    ensures refused { IfErr result (λ fault. fault ≢ VirtualFault.NoMemory → name_or_fault word.now (name_in word.now) ≡ Err fault) }
{
    match VirtualName::parse(alloc, word)? {
        Some(name) => Ok(name),
        None => Err(VirtualFault::BadName(word.copy()?)),
    }
}

/// The sequence that a text is, which is no virtual event.
fn sequence_meant(alloc: Global, text: &Text) -> Result<Sequence, VirtualFault>
    ensures ok { IfOk result (λ sequence. not_virtual (parsed text.now) ≡ Ok sequence) }
    ensures refused { IfErr result (λ fault. fault ≢ VirtualFault.NoMemory → not_virtual (parsed text.now) ≡ Err fault) }
{
    match Sequence::parse(alloc, text) {
        Ok(Sequence::Virtual(_)) => Err(VirtualFault::VirtualInVirtual),
        Ok(Sequence::Physical(patterns)) => Ok(Sequence::Physical(patterns)),
        Err(fault) => Err(VirtualFault::of(fault)),
    }
}

/// A pair of these.
fn pair_of(alloc: Global, name: VirtualName, sequence: Sequence) -> Result<Pair, AllocError>
    ensures { IfOk result (λ pair. pair ≡ pair_of name sequence) }
{
    let sequence = WrittenSequence::new(alloc, sequence)?;
    Ok(Pair { name, sequence })
}

/// The pair that a name and a sequence spell.
#[tactic(auto, unfolding(crate::specs::Virtual::pair_meant))]
pub fn pair_meant(alloc: Global, word: &Text, text: &Text) -> Result<Pair, VirtualFault>
    ensures ok { IfOk result (λ pair. pair_meant word.now text.now ≡ Ok pair) }
    ensures refused { IfErr result (λ fault. fault ≢ VirtualFault.NoMemory → pair_meant word.now text.now ≡ Err fault) }
{
    let name = name_meant(alloc, word)?;
    let sequence = sequence_meant(alloc, text)?;
    let pair = pair_of(alloc, name, sequence)?;
    Ok(pair)
}

impl Pair {
    ghost use Rattle.std.specs.Prelude.{◌≡◌, IfOk};
    ghost use Rattle.tk_virtual.specs.Several.{is_one_of};
    ghost use Rattle.tk_virtual.specs.Virtual.{has_name, is_same};

    /// Whether it is a pair of this name.
    pub(crate) fn has_name(&self, name: &str) -> bool
        ensures { result ≡ has_name name.now self.now }
    {
        self.name.as_str() == name
    }

    /// Whether it is one of some pairs that have a name. Most pairs have another, and aren't hashed.
    pub(crate) fn is_one_of(&self, name: &str, wanted: &IndexSet<Pair>) -> bool
        ensures { result ≡ is_one_of name.now wanted.now.keys self.now }
    {
        self.has_name(name) && wanted.contains(self)
    }

    /// Whether it has the name of another, and a sequence of the same canonical form.
    pub(crate) fn is_same(&self, wanted: &Pair) -> bool
        ensures { result ≡ is_same wanted.now self.now }
    {
        self.name.as_str() == wanted.name.as_str()
            && self.sequence.canonical().as_str() == wanted.sequence.canonical().as_str()
    }

    /// The same pair.
    pub fn copy(&self, alloc: Global) -> Result<Pair, AllocError>
        ensures { IfOk result (λ pair. pair ≡ self.now) }
    {
        Ok(Pair {
            name: self.name.copy()?,
            sequence: self.sequence.copy(alloc)?,
        })
    }
}

/// Pairs are equal where they are the same pair: one name, and sequences of one canonical form.
impl PartialEq for Pair {
    ghost use Rattle.std.specs.Prelude.{nat_eq};
    ghost use Rattle.std.specs.Cmp.Lexicographic.{pointwise};
    ghost use Rattle.std.specs.Cmp.Rules.{comparing};
    ghost use Rattle.std.specs.Ordering.{on, eq_of_both, flip_args};
    ghost use Rattle.std.proofs.Common.{rules};
    ghost use Rattle.tk_sequences.specs.Writing.{canonical};

    ghost eq = { eq_of_both (flip_args (on (λ x. x.name) (pointwise nat_eq))) (flip_args (on (λ x. canonical x.sequence) (pointwise nat_eq))) };

    ghost laws = { Prim.search (comparing, rules) };

    fn eq(&self, other: &Pair) -> bool {
        other.is_same(self)
    }
}

impl Eq for Pair {
    ghost use Rattle.std.specs.Cmp.Rules.{comparing};
    ghost use Rattle.std.proofs.Common.{rules};

    ghost laws = { Prim.search (comparing, rules) };
}

impl Hash for Pair {
    ghost use Rattle.std.specs.Prelude.{◌++◌};
    ghost use Rattle.std.specs.Cmp.{first_so, second_so};
    ghost use Rattle.std.specs.Cmp.Lexicographic.{bytes_decides};
    ghost use Rattle.std.specs.Hash as fed;
    ghost use Rattle.std.specs.Str.{bytes_eq};
    ghost use Rattle.std.proofs.Common.{sym};
    ghost use Rattle.tk_sequences.specs.Writing.{canonical};

    ghost hash_input = { λ x. fed.str x.name ++ fed.str (canonical x.sequence) };

    ghost respects_eq = { λ x y h i.
        fed.str (sym ((bytes_decides y.name x.name).0 (first_so (bytes_eq y.name x.name) (bytes_eq (canonical y.sequence) (canonical x.sequence)) h)) i)
        ++ fed.str (sym ((bytes_decides (canonical y.sequence) (canonical x.sequence)).0 (second_so (bytes_eq y.name x.name) (bytes_eq (canonical y.sequence) (canonical x.sequence)) h)) i) };

    fn hash<H: Hasher>(&self, state: &mut H) {
        self.name.as_str().hash(state);
        self.sequence.canonical().as_str().hash(state);
    }
}

/// By hand: a proof sees one call where it is dropped, and not its parts.
impl Drop for Pair {
    fn drop(self) {
        let Pair {
            name: _,
            sequence: _,
        } = self;
    }
}
