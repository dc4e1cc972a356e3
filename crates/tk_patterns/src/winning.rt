//! Which binding of a tag an event runs.
ghost use Rattle.std.specs.Prelude.{◌≡◌, ℕ, false, Some, None, map, filter, option_map, slice_get, IfOk};
ghost use Rattle.std.specs.Option.{option_copied};
ghost use Rattle.tk_patterns.specs.Filed.{numbers_of, stamps_of, HasStampAt, IsRising};
ghost use Rattle.tk_patterns.specs.Rests.{first_of, earlier};
ghost use Rattle.tk_patterns.specs.Filing.{filed_under, has_both, has_few, is_for_any, is_for_virtuals};
ghost use Rattle.tk_patterns.specs.Shown.{shown};
ghost use Rattle.tk_patterns.specs.Named.{of_matching, of_pairs};
ghost use Rattle.tk_patterns.specs.Winner.{through, of_sequence, of_binding, candidates, replaced, held_at_last, winner};
ghost use Rattle.tk_virtual.specs.Classes.{class_number, is_of_class};
ghost use Rattle.tk_virtual.specs.Virtual.{has_name, meanings_of};

use crate::binding::{Binding, has_tag};
use crate::candidate::{Contender, beats};
use crate::filing::{
    are_few, detail_of, has_both, stamps_of_any, stamps_of_button, stamps_of_key, stamps_of_names,
    stamps_of_virtuals,
};
use crate::seeking::{Wanted, place_of, script_at};
use crate::{Buckets, History, earlier, first_of, past};
use std::alloc::{AllocError, Global};
use tcl_text::Text;
use tk_sequences::{Detail, Event, EventKind, EventType, Sequence, VirtualName};
use tk_virtual::{Pair, VirtualPairs, class_number};

/// The script of the binding that wins.
pub(crate) fn winner<'a>(
    alloc: Global,
    bindings: &'a [Binding],
    filed: &Buckets,
    tag: &str,
    event: &Event,
    history: &History,
    virtuals: &'a VirtualPairs,
) -> Result<Option<&'a Text>, AllocError>
    requires { numbers_of filed.now ≡ map filed_under bindings.now }
    ensures { IfOk result (λ script. option_copied script ≡ winner (meanings_of virtuals.now) tag.now event.now history.now bindings.now) }
{
    match &event.kind {
        EventKind::Physical(kind) => {
            let holder = holder_of(alloc, bindings, filed, *kind, tag, event, history, virtuals)?;
            Ok(script_held(holder))
        }
        EventKind::Virtual(name) => {
            let place = place_of(bindings, filed, tag, Wanted::Name(name));
            Ok(script_at(bindings, place))
        }
    }
}

/// The script of who holds.
fn script_held<'a>(holder: Option<Contender<'a>>) -> Option<&'a Text>
    ensures { option_copied result ≡ option_map (λ held. held.script) (option_map shown holder.entry) }
{
    Some(holder?.script)
}

/// Who holds after all candidates of a tag. They are found where those for the event's key, for its button, for any, and for virtual events are
/// filed: of the last all are gone through where they are few, or else the names are looked up that have pairs for the event.
fn holder_of<'a>(
    alloc: Global,
    bindings: &'a [Binding],
    filed: &Buckets,
    kind: EventType,
    tag: &str,
    event: &Event,
    history: &History,
    virtuals: &'a VirtualPairs,
) -> Result<Option<Contender<'a>>, AllocError>
    requires filed { numbers_of filed.now ≡ map filed_under bindings.now }
    requires kind { event.now.kind ≡ EventKind.Physical kind }
    ensures { IfOk result (λ holder. option_map shown holder
        ≡ held_at_last None (candidates event.now history.now (meanings_of virtuals.now) tag.now bindings.now)) }
{
    let any = stamps_of_any(filed, tag, kind);
    let own = stamps_of_virtuals(filed, tag);
    if are_few(own.len(), kind, event, virtuals) {
        return Ok(holder_among(
            bindings, filed, any, own, kind, tag, event, history, virtuals,
        ));
    }
    let names = stamps_of_names(alloc, filed, tag, kind, event, virtuals)?;
    let named = names.as_slice();
    Ok(holder_among(
        bindings, filed, any, named, kind, tag, event, history, virtuals,
    ))
}

/// The same, of the bindings for any key or button and those of virtual events that are filed under these stamps. All are gone through in the order
/// of registration.
fn holder_among<'a>(
    bindings: &'a [Binding],
    filed: &Buckets,
    any: &[u64],
    named: &[u64],
    kind: EventType,
    tag: &str,
    event: &Event,
    history: &History,
    virtuals: &'a VirtualPairs,
) -> Option<Contender<'a>>
    requires filed { numbers_of filed.now ≡ map filed_under bindings.now }
    requires rising { IsRising filed.now }
    requires any { any.now ≡ stamps_of (is_for_any tag.now kind) filed.now }
    requires named { named.now ≡ stamps_of (is_for_virtuals (has_few tag.now kind event.now virtuals.now filed.now) tag.now kind event.now virtuals.now) filed.now }
    requires kind { event.now.kind ≡ EventKind.Physical kind }
    ensures { option_map shown result
        ≡ held_at_last None (candidates event.now history.now (meanings_of virtuals.now) tag.now bindings.now) }
{
    let mut any = any;
    let mut named = named;
    let mut by_key = stamps_of_key(filed, tag, kind, event.key);
    let mut by_button = stamps_of_button(filed, tag, kind, event.button);
    let mut holder = None;
    while let Some(stamp) = first_of_all(by_key, by_button, any, named) {
        let Some(binding) = binding_at(bindings, filed, stamp) else {
            return holder;
        };
        by_key = past(by_key, stamp);
        by_button = past(by_button, stamp);
        any = past(any, stamp);
        named = past(named, stamp);
        holder = after_tagged(holder, binding, tag, event, history, virtuals);
    }
    holder
}

/// The stamp of four lists that comes first.
fn first_of_all(by_key: &[u64], by_button: &[u64], any: &[u64], named: &[u64]) -> Option<u64>
    ensures { result ≡ earlier (earlier (first_of by_key.now) (first_of by_button.now)) (earlier (first_of any.now) (first_of named.now)) }
{
    earlier(
        earlier(first_of(by_key), first_of(by_button)),
        earlier(first_of(any), first_of(named)),
    )
}

/// The binding whose place has a stamp.
fn binding_at<'a>(bindings: &'a [Binding], filed: &Buckets, stamp: u64) -> Option<&'a Binding>
    ensures { (place : ℕ) → HasStampAt place stamp filed.now → option_copied result ≡ slice_get bindings.now place }
{
    bindings.get(filed.place(stamp)?)
}

/// Who holds after what a binding gives, if it has the tag.
fn after_tagged<'a>(
    holder: Option<Contender<'a>>,
    binding: &'a Binding,
    tag: &str,
    event: &Event,
    history: &History,
    virtuals: &'a VirtualPairs,
) -> Option<Contender<'a>>
    ensures { option_map shown result ≡ held_at_last (option_map shown holder.entry)
        (of_binding event.now history.now (meanings_of virtuals.now) tag.now binding.now) }
{
    if has_tag(binding, tag) {
        after_binding(holder, binding, event, history, virtuals)
    } else {
        holder
    }
}

/// Who holds after what a binding gives.
fn after_binding<'a>(
    holder: Option<Contender<'a>>,
    binding: &'a Binding,
    event: &Event,
    history: &History,
    virtuals: &'a VirtualPairs,
) -> Option<Contender<'a>>
    ensures { option_map shown result ≡ held_at_last (option_map shown holder.entry)
        (of_sequence event.now history.now (meanings_of virtuals.now) binding.now.script binding.now.sequence) }
{
    match &binding.sequence {
        Sequence::Virtual(name) => {
            after_pairs(holder, name, &binding.script, event, history, virtuals)
        }
        Sequence::Physical(patterns) => {
            if history.matches(&binding.sequence, event) {
                let next = Contender {
                    patterns,
                    name: None,
                    script: &binding.script,
                };
                Some(replaced(holder, next))
            } else {
                holder
            }
        }
    }
}

/// Who holds after the sequences of a virtual event that match.
#[tactic(auto, using(crate::proofs::WinnerLemmas::through_named))]
fn after_pairs<'a>(
    holder: Option<Contender<'a>>,
    name: &VirtualName,
    script: &'a Text,
    event: &Event,
    history: &History,
    virtuals: &'a VirtualPairs,
) -> Option<Contender<'a>>
    ensures { option_map shown result ≡ held_at_last (option_map shown holder.entry)
        (through event.now history.now name.now script.now (meanings_of virtuals.now)) }
{
    if has_both(event) {
        return after_named(holder, script, event, history, virtuals.named(name));
    }
    match &event.kind {
        EventKind::Physical(kind) => {
            after_classes(holder, *kind, name, script, event, history, virtuals)
        }
        EventKind::Virtual(_) => {
            after_named(holder, script, event, history, virtuals.named(name))
        }
    }
}

/// Who holds after the pairs of one name whose sequences match, for an event with a key or a button or neither. Those for any key or button come
/// first, since each of the others is more specific.
fn after_classes<'a>(
    holder: Option<Contender<'a>>,
    kind: EventType,
    name: &VirtualName,
    script: &'a Text,
    event: &Event,
    history: &History,
    virtuals: &'a VirtualPairs,
) -> Option<Contender<'a>>
    requires kind { event.now.kind ≡ EventKind.Physical kind }
    requires one { has_both event.now.key event.now.button ≡ false }
    ensures { option_map shown result ≡ held_at_last (option_map shown holder.entry)
        (of_pairs event.now history.now script.now (filter (has_name name.now) virtuals.now)) }
{
    let any = pairs_of(virtuals, name, kind, None);
    let holder = after_named(holder, script, event, history, any);
    match detail_of(event) {
        Some(detail) => {
            let own = pairs_of(virtuals, name, kind, Some(detail));
            after_named(holder, script, event, history, own)
        }
        None => holder,
    }
}

/// The pairs of a name whose last pattern has a type and a detail.
fn pairs_of<'a>(
    virtuals: &'a VirtualPairs,
    name: &VirtualName,
    kind: EventType,
    detail: Option<Detail>,
) -> &'a [Pair]
    ensures { result.now ≡ filter (has_name name.now) (filter (is_of_class (class_number kind detail)) virtuals.now) }
{
    virtuals.of_class(class_number(kind, detail)).named(name)
}

/// Who holds after the pairs of one name whose sequences match.
fn after_named<'a>(
    holder: Option<Contender<'a>>,
    script: &'a Text,
    event: &Event,
    history: &History,
    pairs: &'a [Pair],
) -> Option<Contender<'a>>
    ensures { option_map shown result ≡ held_at_last (option_map shown holder.entry)
        (of_pairs event.now history.now script.now pairs.now) }
{
    let mut holder = holder;
    for pair in pairs {
        holder = after_pair(holder, script, event, history, pair);
    }
    holder
}

/// Who holds after a pair, if its sequence matches.
fn after_pair<'a>(
    holder: Option<Contender<'a>>,
    script: &'a Text,
    event: &Event,
    history: &History,
    pair: &'a Pair,
) -> Option<Contender<'a>>
    ensures { option_map shown result ≡ held_at_last (option_map shown holder.entry)
        (of_matching event.now history.now script.now pair.now) }
{
    if !history.matches(pair.sequence.sequence(), event) {
        return holder;
    }
    match pair.sequence.sequence() {
        Sequence::Physical(patterns) => {
            let next = Contender {
                patterns,
                name: Some(&pair.name),
                script,
            };
            Some(replaced(holder, next))
        }
        Sequence::Virtual(_) => holder,
    }
}

/// The holder where it beats the next one, and the next one otherwise.
fn replaced<'a>(holder: Option<Contender<'a>>, next: Contender<'a>) -> Contender<'a>
    ensures { Some (shown result) ≡ replaced (option_map shown holder.entry) (shown next.entry) }
{
    match holder {
        Some(holder) if beats(&holder, &next) => holder,
        Some(_) | None => next,
    }
}
