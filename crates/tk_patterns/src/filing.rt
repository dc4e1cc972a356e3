//! Under which numbers a binding is filed, so that an event looks at few of them.
ghost use Rattle.std.specs.Prelude.{◌≡◌, fold, None, Some, IfOk, OnOk};
ghost use Rattle.std.specs.Option.{option_copied};
ghost use Rattle.tk_patterns.specs.Filed.{stamps_of, has_class, has_whole, IsRising};
ghost use Rattle.tk_patterns.specs.Filing.{mixed, filing_number, number_of, name_number, filed_under, is_for_key, is_for_button, is_for_any, is_virtual, is_for_names, are_few, pairs_of_key, pairs_of_button, pairs_of_any, detail_of, has_both, with_stamps, with_named, all_named, is_repeat, without_repeats, sequence_number, whole_number, with_detail, with_pattern};

use crate::binding::Binding;
use crate::{Buckets, Numbers};
use std::alloc::{AllocError, Global};
use std::collections::BTreeSet;
use tk_base::Keysym;
use tk_sequences::{Detail, Event, EventType, Pattern, Sequence, VirtualName};
use tk_virtual::{Pair, VirtualPairs, class_number, sequence_class};

/// What spreads the bytes of a tag over 64 bits.
const FACTOR: u64 = 1_099_511_628_211;

/// The class of all virtual events.
const VIRTUAL_CLASS: u64 = 0;

/// The numbers that a binding is filed under.
pub(crate) fn filed_under(binding: &Binding) -> Numbers
    ensures { result ≡ filed_under binding.now }
{
    Numbers {
        class: number_of(binding),
        whole: whole_number(binding),
    }
}

/// The number of a binding by its tag and its class.
fn number_of(binding: &Binding) -> u64
    ensures { result ≡ number_of binding.now }
{
    filing_number(binding.tag.as_str(), sequence_class(&binding.sequence))
}

/// The number of a tag's binding of a virtual event.
fn name_number(tag: &str, name: &VirtualName) -> u64
    ensures { result ≡ name_number tag.now name.now }
{
    filing_number(tag, filing_number(name.as_str(), 0))
}

/// The number of a binding by its tag and its whole sequence.
fn whole_number(binding: &Binding) -> u64
    ensures { result ≡ whole_number binding.now }
{
    filing_number(binding.tag.as_str(), sequence_number(&binding.sequence))
}

/// The number of a whole sequence.
fn sequence_number(sequence: &Sequence) -> u64
    ensures { result ≡ sequence_number sequence.now }
{
    match sequence {
        Sequence::Virtual(name) => filing_number(name.as_str(), 0),
        Sequence::Physical(patterns) => patterns_number(patterns.as_slice()),
    }
}

fn patterns_number(patterns: &[Pattern]) -> u64
    ensures { result ≡ fold with_pattern 0 patterns.now }
{
    let mut number = 0;
    let mut rest = patterns;
    while let Some((pattern, behind)) = rest.split_first() {
        number = with_pattern(number, *pattern);
        rest = behind;
    }
    number
}

fn with_pattern(number: u64, pattern: Pattern) -> u64
    ensures { result ≡ with_pattern number pattern }
{
    let held = mixed(number, u64::from(pattern.modifiers.bits()));
    let often = mixed(held, pattern.times.times() as u64);
    let class = class_number(pattern.kind, pattern.detail);
    with_detail(mixed(often, class), pattern.detail)
}

fn with_detail(number: u64, detail: Option<Detail>) -> u64
    ensures { result ≡ with_detail number detail }
{
    match detail {
        Some(detail) => with_some(number, detail),
        None => number,
    }
}

fn with_some(number: u64, detail: Detail) -> u64
    ensures { result ≡ with_detail number (Some detail) }
{
    match detail {
        Detail::Key(key) => with_key(number, key),
        Detail::Button(_) => number,
    }
}

/// A key that types nothing is told by its name from others of its class.
fn with_key(number: u64, key: Keysym) -> u64
    ensures { result ≡ with_detail number (Some (Detail.Key key)) }
{
    if key.character().is_some() {
        return number;
    }
    filing_number(key.name(), number)
}

/// The stamps of a tag's binding of a sequence, and of others that have its number by chance.
pub(crate) fn stamps_of_sequence<'a>(
    filed: &'a Buckets,
    tag: &str,
    sequence: &Sequence,
) -> &'a [u64]
    ensures stamps { result.now ≡ stamps_of (has_whole (filing_number tag.now (sequence_number sequence.now))) filed.now }
    ensures rising { IsRising filed.now }
{
    filed.of_whole(filing_number(tag, sequence_number(sequence)))
}

/// The stamps of a tag's binding of a virtual event, and of others that have its number by chance.
pub(crate) fn stamps_of_name<'a>(filed: &'a Buckets, tag: &str, name: &VirtualName) -> &'a [u64]
    ensures stamps { result.now ≡ stamps_of (has_whole (name_number tag.now name.now)) filed.now }
    ensures rising { IsRising filed.now }
{
    filed.of_whole(name_number(tag, name))
}

/// The stamps of a tag's bindings that are for one key.
pub(crate) fn stamps_of_key<'a>(
    filed: &'a Buckets,
    tag: &str,
    kind: EventType,
    key: Option<Keysym>,
) -> &'a [u64]
    ensures { result.now ≡ stamps_of (is_for_key tag.now kind key) filed.now }
{
    match key {
        Some(key) => stamps_of_class(filed, tag, class_number(kind, Some(Detail::Key(key)))),
        None => &[],
    }
}

/// The stamps of a tag's bindings that are for one button.
pub(crate) fn stamps_of_button<'a>(
    filed: &'a Buckets,
    tag: &str,
    kind: EventType,
    button: Option<u8>,
) -> &'a [u64]
    ensures { result.now ≡ stamps_of (is_for_button tag.now kind button) filed.now }
{
    match button {
        Some(button) => {
            stamps_of_class(filed, tag, class_number(kind, Some(Detail::Button(button))))
        }
        None => &[],
    }
}

/// The stamps of a tag's bindings that are for any key or button.
pub(crate) fn stamps_of_any<'a>(filed: &'a Buckets, tag: &str, kind: EventType) -> &'a [u64]
    ensures stamps { result.now ≡ stamps_of (is_for_any tag.now kind) filed.now }
    ensures rising { IsRising filed.now }
{
    stamps_of_class(filed, tag, class_number(kind, None))
}

/// The stamps of a tag's bindings of virtual events, and of others that have their number by chance.
pub(crate) fn stamps_of_virtuals<'a>(filed: &'a Buckets, tag: &str) -> &'a [u64]
    ensures { result.now ≡ stamps_of (is_virtual tag.now) filed.now }
{
    stamps_of_class(filed, tag, VIRTUAL_CLASS)
}

/// Whether so many are at most as many as the pairs of one of the event's classes.
pub(crate) fn are_few(count: usize, kind: EventType, event: &Event, virtuals: &VirtualPairs) -> bool
    ensures { result ≡ are_few count kind event.now virtuals.now }
{
    count <= pairs_of_key(virtuals, kind, event.key).len()
        || count <= pairs_of_button(virtuals, kind, event.button).len()
        || count <= pairs_of_any(virtuals, kind).len()
}

/// The stamps of a tag's bindings of the virtual events that have pairs of the event's classes.
pub(crate) fn stamps_of_names(
    alloc: Global,
    filed: &Buckets,
    tag: &str,
    kind: EventType,
    event: &Event,
    virtuals: &VirtualPairs,
) -> Result<Vec<u64>, AllocError>
    requires { IsRising filed.now }
    ensures { IfOk result (λ stamps. stamps.items ≡ stamps_of (is_for_names tag.now kind event.now virtuals.now) filed.now) }
{
    let mut stamps = BTreeSet::new(alloc);
    add_named(
        &mut stamps,
        filed,
        tag,
        pairs_of_key(virtuals, kind, event.key),
    )?;
    add_named(
        &mut stamps,
        filed,
        tag,
        pairs_of_button(virtuals, kind, event.button),
    )?;
    add_named(&mut stamps, filed, tag, pairs_of_any(virtuals, kind))?;
    in_order(alloc, stamps)
}

/// Adds the stamps of a tag's bindings of the virtual events that some pairs are of.
fn add_named(
    stamps: &mut BTreeSet<u64>,
    filed: &Buckets,
    tag: &str,
    pairs: &[Pair],
) -> Result<(), AllocError>
    ensures { OnOk result (stamps.new.keys ≡ all_named tag.now filed.now stamps.old.keys (without_repeats None pairs.now)) }
{
    let mut last = None;
    for pair in pairs {
        if is_repeat(last, pair) {
            continue;
        }
        add_name(stamps, filed, tag, pair)?;
        last = Some(&pair.name);
    }
    Ok(())
}

fn is_repeat(last: Option<&VirtualName>, pair: &Pair) -> bool
    ensures { result ≡ is_repeat (option_copied last.entry) pair.now }
{
    match last {
        Some(name) => pair.name.as_str() == name.as_str(),
        None => false,
    }
}

fn add_name(
    stamps: &mut BTreeSet<u64>,
    filed: &Buckets,
    tag: &str,
    pair: &Pair,
) -> Result<(), AllocError>
    ensures { OnOk result (stamps.new.keys ≡ with_named tag.now filed.now stamps.old.keys pair.now) }
{
    add_stamps(stamps, stamps_of_name(filed, tag, &pair.name))
}

fn add_stamps(stamps: &mut BTreeSet<u64>, more: &[u64]) -> Result<(), AllocError>
    ensures { OnOk result (stamps.new.keys ≡ with_stamps stamps.old.keys more.now) }
{
    let mut rest = more;
    while let Some((stamp, behind)) = rest.split_first() {
        stamps.insert(*stamp)?;
        rest = behind;
    }
    Ok(())
}

/// A set's stamps, the lowest first.
fn in_order(alloc: Global, stamps: BTreeSet<u64>) -> Result<Vec<u64>, AllocError>
    ensures { IfOk result (λ list. list.items ≡ stamps.keys) }
{
    let mut rest = stamps;
    let mut list = Vec::new(alloc);
    while let Some(stamp) = rest.pop_first() {
        list.push(stamp)?;
    }
    Ok(list)
}

/// The stamps of a tag's bindings of a class, and of those that have its number by chance.
fn stamps_of_class<'a>(filed: &'a Buckets, tag: &str, class: u64) -> &'a [u64]
    ensures stamps { result.now ≡ stamps_of (has_class (filing_number tag.now class)) filed.now }
    ensures rising { IsRising filed.now }
{
    filed.of_class(filing_number(tag, class))
}

/// The pairs of virtual events that are for one key.
fn pairs_of_key(virtuals: &VirtualPairs, kind: EventType, key: Option<Keysym>) -> &[Pair]
    ensures { result.now ≡ pairs_of_key kind key virtuals.now }
{
    match key {
        Some(key) => virtuals
            .of_class(class_number(kind, Some(Detail::Key(key))))
            .all(),
        None => &[],
    }
}

/// The pairs of virtual events that are for one button.
fn pairs_of_button(virtuals: &VirtualPairs, kind: EventType, button: Option<u8>) -> &[Pair]
    ensures { result.now ≡ pairs_of_button kind button virtuals.now }
{
    match button {
        Some(button) => virtuals
            .of_class(class_number(kind, Some(Detail::Button(button))))
            .all(),
        None => &[],
    }
}

/// The pairs of virtual events that are for any key or button.
fn pairs_of_any(virtuals: &VirtualPairs, kind: EventType) -> &[Pair]
    ensures { result.now ≡ pairs_of_any kind virtuals.now }
{
    virtuals.of_class(class_number(kind, None)).all()
}

/// The event's key, or its button.
pub(crate) fn detail_of(event: &Event) -> Option<Detail>
    ensures { result ≡ detail_of event.now.key event.now.button }
{
    match (event.key, event.button) {
        (Some(key), _) => Some(Detail::Key(key)),
        (None, Some(button)) => Some(Detail::Button(button)),
        (None, None) => None,
    }
}

/// Whether the event has a key and a button.
pub(crate) fn has_both(event: &Event) -> bool
    ensures { result ≡ has_both event.now.key event.now.button }
{
    event.key.is_some() && event.button.is_some()
}

/// The number of a tag and a class.
pub(crate) fn filing_number(tag: &str, class: u64) -> u64
    ensures { result ≡ filing_number tag.now class }
{
    let mut number = class;
    let mut rest = tag.as_bytes();
    while let Some((byte, behind)) = rest.split_first() {
        number = mixed(number, u64::from(*byte));
        rest = behind;
    }
    number
}

fn mixed(number: u64, part: u64) -> u64
    ensures { result ≡ mixed number part }
{
    number.wrapping_mul(FACTOR).wrapping_add(part)
}
