ghost use Rattle.std.specs.Prelude.{◌≡◌, ℕ, List, [], ◌∷◌, ◌++◌, ◌<◌, nat_le, false, true, Err, IfOk, OnOk, OnErr, IsOkUnless, MatchBool, length, map};
ghost use Rattle.std.specs.List.{remove};
ghost use Rattle.std.specs.Option.{option_copied};
ghost use Rattle.tk_patterns.specs.Own.{has_tag, is_of, binding_of, most_bindings, script_of, sequences_of, refuses, with_binding, without_binding, without_tag};
ghost use Rattle.tk_patterns.specs.OwnSteps.{with_script_at};
ghost use Rattle.tk_patterns.specs.Filed.{numbers_of};
ghost use Rattle.tk_patterns.specs.Filing.{filed_under};
ghost use Rattle.tk_patterns.specs.Marks.{HasNoWinner, RunsNone, has_mark, last_type};
ghost use Rattle.tk_patterns.specs.Winner.{winner};
ghost use Rattle.tk_virtual.specs.Virtual.{meanings_of};

use crate::binding::{Binding, has_tag, is_of};
use crate::fault::BindFault;
use crate::filing::filed_under;
use crate::seeking::{Wanted, place_of, script_at};
use crate::type_marks::{TypeMarks, VIRTUAL_TYPE, last_type};
use crate::winning::winner;
use crate::{Buckets, History};
use std::alloc::{AllocError, Global};
use std::marker::Model;
use tcl_text::Text;
use tk_sequences::{Event, EventKind, Sequence};
use tk_virtual::VirtualPairs;

/// How many bindings an application has at most.
const MAX_BINDINGS: usize = 4096;

/// One application's bindings, in the order of registration, and by hashing where those of a tag, a type and a detail stand, and where that of a tag
/// and a sequence does.
#[derive(Drop)]
pub(crate) struct OwnBindings {
    bindings: Vec<Binding>,
    /// The numbers that they are filed under.
    filed: Buckets,
    /// Which tags have any for which types of events.
    marks: TypeMarks,
}

impl Model for OwnBindings {
    ghost use Rattle.std.specs.Prelude.{◌≡◌, List, map, true};
    ghost use Rattle.tk_patterns.specs.Filed.{numbers_of};
    ghost use Rattle.tk_patterns.specs.Marks.{all_marked};
    ghost use Rattle.tk_patterns.specs.declared.binding.Binding.{Binding};
    ghost use Rattle.tk_patterns.specs.Filing.{filed_under};

    ghost Value = { List Binding };

    ghost view = { λ o. o.bindings.items };

    ghost invariant = { λ o. (numbers_of o.filed ≡ map filed_under o.bindings.items) × (all_marked o.marks o.bindings.items ≡ true) };
}

impl OwnBindings {
    /// No bindings. It takes no memory.
    pub(crate) fn new(alloc: Global) -> OwnBindings
        ensures { result ≡ [] }
    {
        OwnBindings {
            bindings: Vec::new(alloc),
            filed: Buckets::new(alloc),
            marks: TypeMarks::new(),
        }
    }

    /// Whether anything may be bound for a tag that an event could run.
    fn may_hold(&self, tag: &str, event: &Event) -> bool
        ensures { result ≡ false → HasNoWinner event.now self.now tag.now }
    {
        if self.marks.has(tag, VIRTUAL_TYPE) {
            return true;
        }
        match &event.kind {
            EventKind::Physical(kind) => self.marks.has(tag, u64::from(kind.number())),
            EventKind::Virtual(_) => false,
        }
    }

    /// Whether anything may be bound for one of some tags that an event could run.
    pub(crate) fn may_run(&self, tags: &[Text], event: &Event) -> bool
        ensures { result ≡ false → RunsNone tags.now event.now self.now }
    {
        let mut rest = tags;
        while let Some((tag, others)) = rest.split_first() {
            if self.may_hold(tag.as_str(), event) {
                return true;
            }
            rest = others;
        }
        false
    }

    /// The script that an event runs for a tag.
    pub(crate) fn winner<'a>(
        &'a self,
        alloc: Global,
        tag: &str,
        event: &Event,
        history: &History,
        virtuals: &'a VirtualPairs,
    ) -> Result<Option<&'a Text>, AllocError>
        ensures { IfOk result (λ script. option_copied script ≡ winner (meanings_of virtuals.now) tag.now event.now history.now self.now) }
    {
        if !self.may_hold(tag, event) {
            return Ok(None);
        }
        winner(
            alloc,
            self.bindings.as_slice(),
            &self.filed,
            tag,
            event,
            history,
            virtuals,
        )
    }

    /// Binds a script to a sequence for a tag.
    pub(crate) fn bind(
        &mut self,
        tag: Text,
        sequence: Sequence,
        script: Text,
    ) -> Result<(), BindFault>
        ensures answer { MatchBool (refuses tag sequence self.old) (result ≡ Err BindFault.Full)
            (IsOkUnless result BindFault.NoMemory) }
        ensures ok { OnOk result (self.new ≡ with_binding tag sequence script self.old) }
        ensures err { OnErr result (self.new ≡ self.old) }
    {
        let binding = Binding {
            tag,
            sequence,
            script,
        };
        match place_of(
            self.bindings.as_slice(),
            &self.filed,
            binding.tag.as_str(),
            Wanted::Sequence(&binding.sequence),
        ) {
            Some(place) => {
                let script = script_in(binding);
                set_script(&mut self.bindings, place, script);
                Ok(())
            }
            None => self.add(binding),
        }
    }

    /// Adds a binding, the last.
    fn add(&mut self, binding: Binding) -> Result<(), BindFault>
        ensures answer { MatchBool (nat_le most_bindings (length self.old)) (result ≡ Err BindFault.Full)
            (IsOkUnless result BindFault.NoMemory) }
        ensures ok { OnOk result (self.new ≡ self.old ++ binding ∷ []) }
        ensures err { OnErr result (self.new ≡ self.old) }
    {
        let numbers = filed_under(&binding);
        mark_binding(&mut self.marks, &binding);
        add(&mut self.bindings, binding)?;
        match self.filed.push(numbers) {
            Ok(()) => Ok(()),
            Err(_) => {
                self.bindings.pop();
                Err(BindFault::NoMemory)
            }
        }
    }

    /// Takes out the binding of a tag for a sequence.
    pub(crate) fn unbind(&mut self, tag: &str, sequence: &Sequence)
        ensures { self.new ≡ without_binding tag.now sequence.now self.old }
    {
        leave_out_binding(&mut self.bindings, &mut self.filed, tag, sequence);
    }

    /// Takes out all bindings of a tag.
    pub(crate) fn unbind_all(&mut self, tag: &str)
        ensures { self.new ≡ without_tag tag.now self.old }
    {
        leave_out_tag(&mut self.bindings, &mut self.filed, tag);
    }

    /// The script of a tag for a sequence.
    pub(crate) fn script(&self, tag: &str, sequence: &Sequence) -> Option<&Text>
        ensures { option_copied result ≡ script_of tag.now sequence.now self.now }
    {
        let bindings = self.bindings.as_slice();
        let place = place_of(bindings, &self.filed, tag, Wanted::Sequence(sequence));
        script_at(bindings, place)
    }

    /// The sequences of a tag, in the order of registration.
    pub(crate) fn sequences(&self, alloc: Global, tag: &str) -> Result<Vec<Sequence>, AllocError>
        ensures { IfOk result (λ list. list.items ≡ sequences_of tag.now self.now) }
    {
        sequences_of(alloc, self.bindings.as_slice(), tag)
    }
}

/// A binding's tag and the type that it ends with have their mark from now on.
fn mark_binding(marks: &mut TypeMarks, binding: &Binding)
    ensures own { has_mark marks.new binding.now.tag (last_type binding.now.sequence) ≡ true }
    ensures others { (tag : List ℕ) (type : ℕ) → has_mark marks.old tag type ≡ true → has_mark marks.new tag type ≡ true }
{
    marks.mark(binding.tag.as_str(), last_type(&binding.sequence));
}

/// The sequences of a tag's bindings.
fn sequences_of(alloc: Global, bindings: &[Binding], tag: &str) -> Result<Vec<Sequence>, AllocError>
    ensures { IfOk result (λ list. list.items ≡ sequences_of tag.now bindings.now) }
{
    let mut list = Vec::new(alloc);
    for binding in bindings {
        if !has_tag(binding, tag) {
            continue;
        }
        let sequence = binding.sequence.copy(alloc)?;
        list.push(sequence)?;
    }
    Ok(list)
}

/// The script of a binding that isn't kept.
fn script_in(binding: Binding) -> Text
    ensures { result ≡ binding.script }
{
    binding.script
}

/// Gives the binding at a place another script.
fn set_script(bindings: &mut Vec<Binding>, place: usize, script: Text)
    requires { place < length bindings.old.items }
    ensures { bindings.new.items ≡ with_script_at place script bindings.old.items }
{
    let binding = &mut bindings[place];
    binding.script = script;
}

/// Takes out the binding of a tag for a sequence, the last place first.
fn leave_out_binding(
    bindings: &mut Vec<Binding>,
    filed: &mut Buckets,
    tag: &str,
    sequence: &Sequence,
)
    requires { numbers_of filed.old ≡ map filed_under bindings.old.items }
    ensures bindings { bindings.new.items ≡ without_binding tag.now sequence.now bindings.old.items }
    ensures filed { numbers_of filed.new ≡ map filed_under bindings.new.items }
{
    let mut place = bindings.len();
    while place > 0 {
        place -= 1;
        if is_of(&bindings[place], tag, sequence) {
            take_out(bindings, filed, place);
        }
    }
}

/// Takes out all bindings of a tag, the last place first.
fn leave_out_tag(bindings: &mut Vec<Binding>, filed: &mut Buckets, tag: &str)
    requires { numbers_of filed.old ≡ map filed_under bindings.old.items }
    ensures bindings { bindings.new.items ≡ without_tag tag.now bindings.old.items }
    ensures filed { numbers_of filed.new ≡ map filed_under bindings.new.items }
{
    let mut place = bindings.len();
    while place > 0 {
        place -= 1;
        if has_tag(&bindings[place], tag) {
            take_out(bindings, filed, place);
        }
    }
}

/// Takes out the binding at a place.
fn take_out(bindings: &mut Vec<Binding>, filed: &mut Buckets, place: usize)
    requires first { place < length bindings.old.items }
    requires filed { numbers_of filed.old ≡ map filed_under bindings.old.items }
    ensures bindings { bindings.new.items ≡ remove bindings.old.items place }
    ensures filed { numbers_of filed.new ≡ map filed_under bindings.new.items }
{
    filed.remove(place);
    bindings.remove(place);
}

/// Adds a binding, the last.
fn add(bindings: &mut Vec<Binding>, binding: Binding) -> Result<(), BindFault>
    ensures answer { MatchBool (nat_le most_bindings (length bindings.old.items)) (result ≡ Err BindFault.Full)
        (IsOkUnless result BindFault.NoMemory) }
    ensures ok { OnOk result (bindings.new.items ≡ bindings.old.items ++ binding ∷ []) }
    ensures err { OnErr result (bindings.new.items ≡ bindings.old.items) }
{
    if bindings.len() >= MAX_BINDINGS {
        return Err(BindFault::Full);
    }
    match bindings.push(binding) {
        Ok(()) => Ok(()),
        Err(_) => Err(BindFault::NoMemory),
    }
}
