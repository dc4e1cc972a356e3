//! Reads sequences.
ghost use Rattle.std.specs.Prelude.{◌≡◌, ◌≢◌, ◌<◌, ◌≤◌, length, drop, slice_index, false, IfOk, IfErr, Ok, Err, Some, None};
ghost use Rattle.std.specs.Str.{IsCharBoundary};
ghost use Rattle.tcl_text.specs.Backslash.{is_white};
ghost use Rattle.tk_sequences.specs.Reading.{prefix_named, is_initial, may_stand_before, key_of_one, key_meant, detail_of, key_or_fault, detail_behind, typed, button_or_key, type_of_detail, untyped, headed, pattern_of, plain_pattern, patterns_from, Between, CutsOff, IsRefused, fields};
ghost use Rattle.tk_sequences.specs.Words.{button_named, is_single};
ghost use Rattle.tk_sequences.specs.Patterns.{count_of, most_events};

use crate::detail::Detail;
use crate::event_type::EventType;
use crate::fault::SequenceFault;
use crate::fields::{behind_white, first_field};
use crate::modifier::{Modifier, Modifiers};
use crate::pattern::{Pattern, Repetition};
use std::alloc::Global;
use tcl_text::Text;
use tcl_text::message::short_text;
use tk_base::Keysym;

/// What may stand in front of a type or a detail.
pub enum Prefix {
    Modifier(Modifier),
    Repetition(Repetition),
}

/// Whether such a word begins with this byte.
fn is_initial(byte: u8) -> bool
    ensures { result ≡ is_initial byte }
{
    matches!(byte, b'A'..=b'D' | b'L' | b'M' | b'Q' | b'S' | b'T')
}

/// Whether a word begins as one that may stand there, and is as short.
fn may_stand_before(word: &str) -> bool
    ensures { result ≡ may_stand_before word.now }
{
    match word.as_bytes() {
        [first, ..] => is_initial(*first) && word.len() <= 9,
        [] => false,
    }
}

/// What a word in front of a type or a detail says, if it may stand there.
#[tactic(auto, using(crate::proofs::Prefixes::none_before))]
fn prefix_named(word: &str) -> Option<Prefix>
    ensures { result ≡ prefix_named word.now }
{
    if !may_stand_before(word) {
        return None;
    }
    match Modifier::named(word) {
        Some(modifier) => Some(Prefix::Modifier(modifier)),
        None => match Repetition::named(word) {
            Some(repetition) => Some(Prefix::Repetition(repetition)),
            None => None,
        },
    }
}

/// The button that a word names.
fn button_named(word: &str) -> Option<u8>
    ensures { result ≡ button_named word.now }
{
    match word {
        "1" => Some(1),
        "2" => Some(2),
        "3" => Some(3),
        "4" => Some(4),
        "5" => Some(5),
        _ => None,
    }
}

/// The key of a character that stands for it within brackets.
fn key_of_one(word: &str) -> Option<Keysym>
    ensures { result ≡ key_of_one word.now }
{
    match word.as_bytes() {
        [b'-' | b'<' | b'>'] => None,
        [byte] => Keysym::of_character(char::from(*byte)),
        _ => None,
    }
}

/// The key that a word means, by its name or by its character.
#[tactic(auto, unfolding(crate::specs::Reading::key_meant))]
fn key_meant(word: &str) -> Option<Keysym>
    ensures { result ≡ key_meant word.now }
{
    match Keysym::named(word) {
        Some(key) => Some(key),
        None => key_of_one(word),
    }
}

/// The key that a word means. `BadKeysym` (30) with the word, where it means none.
fn key_in(alloc: Global, word: &str) -> Result<Detail, SequenceFault>
    ensures ok { IfOk result (λ detail. key_or_fault word.now (key_meant word.now) ≡ Ok detail) }
    ensures refused { IfErr result (λ fault. fault ≢ SequenceFault.NoMemory → key_or_fault word.now (key_meant word.now) ≡ Err fault) }
{
    match key_meant(word) {
        Some(key) => Ok(Detail::Key(key)),
        None => Err(SequenceFault::BadKeysym(short_text(alloc, word)?)),
    }
}

/// The detail of a type.
#[tactic(auto, unfolding(crate::specs::Reading::detail_of))]
fn detail_of(
    alloc: Global,
    whole: &Text,
    kind: EventType,
    word: &str,
) -> Result<Detail, SequenceFault>
    ensures ok { IfOk result (λ detail. detail_of whole.now kind word.now ≡ Ok detail) }
    ensures refused { IfErr result (λ fault. fault ≢ SequenceFault.NoMemory → detail_of whole.now kind word.now ≡ Err fault) }
{
    if kind.is_key() {
        return key_in(alloc, word);
    }
    if kind.is_button()
        && let Some(button) = button_named(word)
    {
        return Ok(Detail::Button(button));
    }
    Err(SequenceFault::BadSequence(whole.copy()?))
}

/// The detail behind a type, with nothing behind it.
fn detail_behind(
    alloc: Global,
    whole: &Text,
    kind: EventType,
    rest: &str,
) -> Result<Option<Detail>, SequenceFault>
    ensures ok { IfOk result (λ detail. detail_behind whole.now kind (fields rest.now) ≡ Ok detail) }
    ensures refused { IfErr result (λ fault. fault ≢ SequenceFault.NoMemory → detail_behind whole.now kind (fields rest.now) ≡ Err fault) }
{
    let Some((word, behind)) = first_field(rest) else {
        return Ok(None);
    };
    let detail = detail_of(alloc, whole, kind, word)?;
    if first_field(behind).is_some() {
        return Err(SequenceFault::BadSequence(whole.copy()?));
    }
    Ok(Some(detail))
}

/// What is held, and how often the event comes, as far as it was read.
#[derive(Clone, Copy)]
struct HeldModifiers {
    modifiers: Modifiers,
    times: Repetition,
}

/// Whether the event comes once.
fn is_single(times: Repetition) -> bool
    ensures { result ≡ is_single times }
{
    matches!(times, Repetition::Single)
}

/// A pattern with this type.
fn typed(
    alloc: Global,
    whole: &Text,
    held: HeldModifiers,
    kind: EventType,
    rest: &str,
) -> Result<Pattern, SequenceFault>
    ensures ok { IfOk result (λ pattern. typed whole.now held.modifiers held.times kind (fields rest.now) ≡ Ok pattern) }
    ensures refused { IfErr result (λ fault. fault ≢ SequenceFault.NoMemory
        → typed whole.now held.modifiers held.times kind (fields rest.now) ≡ Err fault) }
{
    if !is_single(held.times) && !kind.is_key() && !kind.is_button() {
        return Err(SequenceFault::BadSequence(whole.copy()?));
    }
    let detail = detail_behind(alloc, whole, kind, rest)?;
    Ok(Pattern {
        modifiers: held.modifiers,
        times: held.times,
        kind,
        detail,
    })
}

/// The detail that stands without a type.
fn button_or_key(alloc: Global, word: &str) -> Result<Detail, SequenceFault>
    ensures ok { IfOk result (λ detail. button_or_key word.now (button_named word.now) ≡ Ok detail) }
    ensures refused { IfErr result (λ fault. fault ≢ SequenceFault.NoMemory → button_or_key word.now (button_named word.now) ≡ Err fault) }
{
    match button_named(word) {
        Some(button) => Ok(Detail::Button(button)),
        None => key_in(alloc, word),
    }
}

/// A pattern with a detail and no type.
fn untyped(
    alloc: Global,
    whole: &Text,
    held: HeldModifiers,
    word: &str,
    rest: &str,
) -> Result<Pattern, SequenceFault>
    ensures ok { IfOk result (λ pattern. untyped whole.now held.modifiers held.times word.now (fields rest.now) ≡ Ok pattern) }
    ensures refused { IfErr result (λ fault. fault ≢ SequenceFault.NoMemory
        → untyped whole.now held.modifiers held.times word.now (fields rest.now) ≡ Err fault) }
{
    let detail = button_or_key(alloc, word)?;
    if first_field(rest).is_some() {
        return Err(SequenceFault::BadSequence(whole.copy()?));
    }
    Ok(Pattern {
        modifiers: held.modifiers,
        times: held.times,
        kind: type_of(detail),
        detail: Some(detail),
    })
}

/// The type that is meant where a detail stands alone.
fn type_of(detail: Detail) -> EventType
    ensures { result ≡ type_of_detail detail }
{
    match detail {
        Detail::Key(_) => EventType::Key,
        Detail::Button(_) => EventType::Button,
    }
}

/// A pattern whose type or detail is a word.
#[tactic(auto, unfolding(crate::specs::Reading::headed))]
fn headed(
    alloc: Global,
    whole: &Text,
    held: HeldModifiers,
    word: &str,
    rest: &str,
) -> Result<Pattern, SequenceFault>
    ensures ok { IfOk result (λ pattern. headed whole.now held.modifiers held.times word.now (fields rest.now) ≡ Ok pattern) }
    ensures refused { IfErr result (λ fault. fault ≢ SequenceFault.NoMemory
        → headed whole.now held.modifiers held.times word.now (fields rest.now) ≡ Err fault) }
{
    match EventType::named(word) {
        Some(kind) => typed(alloc, whole, held, kind, rest),
        None => untyped(alloc, whole, held, word, rest),
    }
}

/// The pattern that stands in brackets.
#[tactic(auto, unfolding(crate::specs::Reading::pattern_of))]
pub fn pattern_of(alloc: Global, whole: &Text, inner: &str) -> Result<Pattern, SequenceFault>
    ensures ok { IfOk result (λ pattern. pattern_of whole.now inner.now ≡ Ok pattern) }
    ensures refused { IfErr result (λ fault. fault ≢ SequenceFault.NoMemory → pattern_of whole.now inner.now ≡ Err fault) }
{
    let mut held = HeldModifiers {
        modifiers: Modifiers::NONE,
        times: Repetition::Single,
    };
    let mut rest = inner;
    while let Some((word, behind)) = first_field(rest) {
        match prefix_named(word) {
            Some(Prefix::Modifier(modifier)) => held.modifiers = held.modifiers.with(modifier),
            Some(Prefix::Repetition(times)) if is_single(held.times) => held.times = times,
            Some(Prefix::Repetition(_)) => return Err(SequenceFault::BadSequence(whole.copy()?)),
            None => return headed(alloc, whole, held, word, behind),
        }
        rest = behind;
    }
    Err(SequenceFault::BadSequence(whole.copy()?))
}

/// The key that a character stands for outside of brackets.
#[tactic(auto, unfolding(crate::specs::Reading::plain_pattern))]
fn plain_pattern(whole: &Text, byte: u8) -> Result<Pattern, SequenceFault>
    ensures ok { IfOk result (λ pattern. plain_pattern whole.now byte ≡ Ok pattern) }
    ensures refused { IfErr result (λ fault. fault ≢ SequenceFault.NoMemory → plain_pattern whole.now byte ≡ Err fault) }
{
    match Keysym::of_character(char::from(byte)) {
        Some(key) => Ok(Pattern {
            modifiers: Modifiers::NONE,
            times: Repetition::Single,
            kind: EventType::Key,
            detail: Some(Detail::Key(key)),
        }),
        None => Err(SequenceFault::BadSequence(whole.copy()?)),
    }
}

/// The pattern that stands in front, and how many bytes it takes.
fn first_pattern(alloc: Global, whole: &Text, text: &str) -> Result<(Pattern, usize), SequenceFault>
    requires some { 0 < length text.now }
    requires black { is_white (slice_index text.now 0) ≡ false }
    ensures ok { IfOk result (λ first. CutsOff whole.now first.0 text.now (drop first.1 text.now)) }
    ensures cut { IfOk result (λ first. (0 < first.1) × IsCharBoundary text.now first.1) }
    ensures refused { IfErr result (λ fault. fault ≢ SequenceFault.NoMemory → IsRefused whole.now text.now fault) }
{
    let first = text.as_bytes()[0];
    if first != b'<' {
        return Ok((plain_pattern(whole, first)?, 1));
    }
    match text[1..].split_once('>') {
        Some((inner, behind)) => match pattern_of(alloc, whole, inner) {
            Ok(pattern) => Ok((pattern, text.len() - behind.len())),
            Err(fault) => Err(fault),
        },
        None => Err(SequenceFault::BadSequence(whole.copy()?)),
    }
}

/// The most events that a sequence stands for.
const MOST_EVENTS: usize = 32;

/// The patterns that a text is.
pub fn patterns_of(alloc: Global, whole: &Text) -> Result<Vec<Pattern>, SequenceFault>
    ensures ok { IfOk result (λ patterns. patterns_from whole.now Between most_events whole.now ≡ Ok patterns.items) }
    ensures few { IfOk result (λ patterns. count_of patterns.items ≤ most_events) }
    ensures refused { IfErr result (λ fault. fault ≢ SequenceFault.NoMemory → patterns_from whole.now Between most_events whole.now ≡ Err fault) }
{
    let mut patterns = Vec::new(alloc);
    let mut room = MOST_EVENTS;
    let mut rest = behind_white(whole.as_str());
    while !rest.is_empty() {
        let (pattern, length) = first_pattern(alloc, whole, rest)?;
        let times = pattern.times.times();
        if room < times {
            return Err(SequenceFault::BadSequence(whole.copy()?));
        }
        room -= times;
        patterns.push(pattern)?;
        rest = behind_white(&rest[length..]);
    }
    Ok(patterns)
}
