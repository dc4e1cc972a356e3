ghost use Rattle.std.specs.Prelude.{◌≡◌, [], false, Err, IfOk, OnOk, OnErr, IsOkUnless, MatchBool, IfSome};
ghost use Rattle.std.specs.Option.{option_copied};
ghost use Rattle.tk_patterns.specs.Marks.{RunsNone};
ghost use Rattle.tk_patterns.specs.Own.{script_of, sequences_of, refuses, with_binding, without_binding, without_tag};
ghost use Rattle.tk_patterns.specs.Shared.{own_of, LeavesOthers, LeavesAll};
ghost use Rattle.tk_patterns.specs.Winner.{winner};
ghost use Rattle.tk_virtual.specs.Virtual.{meanings_of};

use crate::History;
use crate::fault::BindFault;
use crate::own::OwnBindings;
use std::alloc::{AllocError, Global};
use std::collections::HashMap;
use std::marker::Model;
use tcl_text::Text;
use tk_sequences::{Event, Sequence};
use tk_virtual::VirtualPairs;

/// The bindings of applications, each application's apart from the others' (bind(n)).
///
/// `owner` is an application's number everywhere, and a tag is a binding tag of windows (bindtags(n)). An application that hasn't been named
/// yet has no bindings.
pub struct BindTable {
    owners: HashMap<usize, OwnBindings>,
    alloc: Global,
}

impl Model for BindTable {
    ghost use Rattle.tk_patterns.specs.Shared.{Held};

    ghost Value = { Held };

    ghost view = { λ t. t.owners.entries };
}

impl BindTable {
    /// No bindings. It takes no memory.
    pub fn new(alloc: Global) -> BindTable
        ensures { result ≡ [] }
    {
        BindTable {
            owners: HashMap::new(alloc),
            alloc,
        }
    }

    /// Binds a script to a sequence for a tag. A sequence that has one for the tag keeps its place in the order of registration, and a new one is
    /// the last. Refused is a binding more than 4,096 (31).
    pub fn bind(
        &mut self,
        owner: usize,
        tag: Text,
        sequence: Sequence,
        script: Text,
    ) -> Result<(), BindFault>
        ensures answer { MatchBool (refuses tag sequence (own_of owner self.old)) (result ≡ Err BindFault.Full)
            (IsOkUnless result BindFault.NoMemory) }
        ensures ok { OnOk result (own_of owner self.new ≡ with_binding tag sequence script (own_of owner self.old)) }
        ensures others { LeavesOthers owner self.old self.new }
        ensures err { OnErr result (LeavesAll self.old self.new) }
    {
        if let Some(own) = self.owners.get_mut(&owner) {
            return own.bind(tag, sequence, script);
        }
        let mut own = OwnBindings::new(self.alloc);
        own.bind(tag, sequence, script)?;
        match self.owners.insert(owner, own) {
            Ok(_) => Ok(()),
            Err(_) => Err(BindFault::NoMemory),
        }
    }

    /// Takes out the binding of a tag for a sequence, if there is one. It takes no memory.
    pub fn unbind(&mut self, owner: usize, tag: &str, sequence: &Sequence)
        ensures own { own_of owner self.new ≡ without_binding tag.now sequence.now (own_of owner self.old) }
        ensures others { LeavesOthers owner self.old self.new }
    {
        if let Some(own) = self.owners.get_mut(&owner) {
            own.unbind(tag, sequence);
        }
    }

    /// Takes out all bindings of a tag. It takes no memory.
    pub fn unbind_all(&mut self, owner: usize, tag: &str)
        ensures own { own_of owner self.new ≡ without_tag tag.now (own_of owner self.old) }
        ensures others { LeavesOthers owner self.old self.new }
    {
        if let Some(own) = self.owners.get_mut(&owner) {
            own.unbind_all(tag);
        }
    }

    /// The script that is bound to a sequence for a tag. It takes no memory.
    pub fn script(&self, owner: usize, tag: &str, sequence: &Sequence) -> Option<&Text>
        ensures { option_copied result ≡ script_of tag.now sequence.now (own_of owner self.now) }
    {
        self.owners.get(&owner)?.script(tag, sequence)
    }

    /// The sequences that have a script for a tag, in the order of registration.
    pub fn sequences(&self, owner: usize, tag: &str) -> Result<Vec<Sequence>, AllocError>
        ensures { IfOk result (λ list. list.items ≡ sequences_of tag.now (own_of owner self.now)) }
    {
        match self.owners.get(&owner) {
            Some(own) => own.sequences(self.alloc, tag),
            None => Ok(Vec::new(self.alloc)),
        }
    }

    /// Whether an event may run a script for one of some tags. Where it is false, it runs none, whatever events came before and whatever virtual events
    /// stand for. It takes no memory.
    pub fn may_run(&self, owner: usize, tags: &[Text], event: &Event) -> bool
        ensures { result ≡ false → RunsNone tags.now event.now (own_of owner self.now) }
    {
        match self.owners.get(&owner) {
            Some(own) => own.may_run(tags, event),
            None => false,
        }
    }

    /// The script that an event runs for a tag, of a window that the history's events may have come to before. `virtuals` are the pairs of
    /// the application's virtual events (event(n)). Of the bindings that match, a more specific one wins, and of two that are
    /// alike the one that was registered later (bind(n), MULTIPLE MATCHES).
    pub fn winner(
        &self,
        owner: usize,
        tag: &str,
        event: &Event,
        history: &History,
        virtuals: &VirtualPairs,
    ) -> Result<Option<Text>, AllocError>
        ensures { IfOk result (λ script. script
            ≡ winner (meanings_of virtuals.now) tag.now event.now history.now (own_of owner self.now)) }
    {
        match self.winning_script(owner, tag, event, history, virtuals)? {
            Some(script) => Ok(Some(script.copy()?)),
            None => Ok(None),
        }
    }

    /// The same, without a copy.
    fn winning_script<'a>(
        &'a self,
        owner: usize,
        tag: &str,
        event: &Event,
        history: &History,
        virtuals: &'a VirtualPairs,
    ) -> Result<Option<&'a Text>, AllocError>
        ensures { IfOk result (λ script. option_copied script
            ≡ winner (meanings_of virtuals.now) tag.now event.now history.now (own_of owner self.now)) }
    {
        match self.owners.get(&owner) {
            Some(own) => own.winner(self.alloc, tag, event, history, virtuals),
            None => Ok(None),
        }
    }
}

/// By hand: a proof sees one call where it is dropped, and not its parts.
impl Drop for BindTable {
    fn drop(self) {
        let BindTable {
            owners: _,
            alloc: _,
        } = self;
    }
}
