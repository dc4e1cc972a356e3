//! Which of two matching sequences is more specific.
ghost use Rattle.std.specs.Prelude.{◌≡◌, ◌≤◌};
ghost use Rattle.std.specs.Option.{option_copied};
ghost use Rattle.tk_patterns.specs.Copies.{all_copies};
ghost use Rattle.tk_patterns.specs.Shown.{shown};
ghost use Rattle.tk_patterns.specs.Specific.{ends_with_detail, by_detail, by_length, by_held, by_modifiers, by_origin, by_name, verdict, beats};
ghost use Rattle.tk_sequences.specs.Patterns.{count_of};

use crate::same::same_patterns;
use crate::verdict::{Verdict, by_having, if_same};
use crate::{copy_at, count_of};
use tcl_text::Text;
use tk_sequences::{Modifiers, Pattern, Patterns, VirtualName};

/// A sequence that matches.
#[derive(Clone, Copy)]
pub(crate) struct Contender<'a> {
    pub(crate) patterns: &'a Patterns,
    /// The virtual event that it is bound through, if any.
    pub(crate) name: Option<&'a VirtualName>,
    pub(crate) script: &'a Text,
}

/// Whether the first of two is more specific. The first of five rules that tells them apart decides.
pub(crate) fn beats(holder: &Contender<'_>, next: &Contender<'_>) -> bool
    ensures { result ≡ beats (shown holder.now) (shown next.now) }
{
    verdict(
        holder.patterns.as_slice(),
        next.patterns.as_slice(),
        holder.name,
        next.name,
    )
    .is_more()
}

/// What the first rule says that tells them apart.
fn verdict(
    patterns: &[Pattern],
    others: &[Pattern],
    name: Option<&VirtualName>,
    other: Option<&VirtualName>,
) -> Verdict
    requires first { count_of patterns.now ≤ 32 }
    requires second { count_of others.now ≤ 32 }
    ensures { result ≡ verdict patterns.now others.now (option_copied name.entry) (option_copied other.entry) }
{
    let by_same = if_same(
        same_patterns(patterns, others),
        by_origin(name, other).or(by_name(name, other)),
    );
    let by_held = by_modifiers(patterns, others).or(by_same);
    by_detail(patterns, others).or(by_length(patterns, others).or(by_held))
}

fn ends_with_detail(patterns: &[Pattern]) -> bool
    ensures { result ≡ ends_with_detail patterns.now }
{
    match patterns.last() {
        Some(pattern) => pattern.detail.is_some(),
        None => false,
    }
}

/// The last pattern has a detail.
fn by_detail(patterns: &[Pattern], others: &[Pattern]) -> Verdict
    ensures { result ≡ by_detail patterns.now others.now }
{
    by_having(ends_with_detail(patterns), ends_with_detail(others))
}

/// The longer one.
fn by_length(patterns: &[Pattern], others: &[Pattern]) -> Verdict
    requires first { count_of patterns.now ≤ 32 }
    requires second { count_of others.now ≤ 32 }
    ensures { result ≡ by_length patterns.now others.now }
{
    let (length, other_length) = (count_of(patterns), count_of(others));
    if other_length < length {
        Verdict::More
    } else if length < other_length {
        Verdict::Less
    } else {
        Verdict::Alike
    }
}

/// From the newest event to the oldest, the one that asks for all the other's modifiers and more.
fn by_modifiers(patterns: &[Pattern], others: &[Pattern]) -> Verdict
    requires { count_of patterns.now ≤ 32 }
    ensures { result ≡ by_modifiers (all_copies patterns.now) (all_copies others.now) }
{
    for place in 0..count_of(patterns) {
        let Some(copy) = copy_at(patterns, place) else {
            return Verdict::Alike;
        };
        let Some(other) = copy_at(others, place) else {
            return Verdict::Alike;
        };
        let verdict = by_held(copy.pattern.modifiers, other.pattern.modifiers);
        if !verdict.is_alike() {
            return verdict;
        }
    }
    Verdict::Alike
}

/// The one that has all the other's modifiers and more.
fn by_held(modifiers: Modifiers, others: Modifiers) -> Verdict
    ensures { result ≡ by_held modifiers others }
{
    if modifiers.contains_more_than(others) {
        Verdict::More
    } else if others.contains_more_than(modifiers) {
        Verdict::Less
    } else {
        Verdict::Alike
    }
}

/// The one that isn't bound through a virtual event.
fn by_origin(name: Option<&VirtualName>, other: Option<&VirtualName>) -> Verdict
    ensures { result ≡ by_origin (option_copied name.entry) (option_copied other.entry) }
{
    match (name, other) {
        (None, Some(_)) => Verdict::More,
        (Some(_), None) => Verdict::Less,
        (None, None) | (Some(_), Some(_)) => Verdict::Alike,
    }
}

/// The one whose virtual event's name is less by bytes.
fn by_name(name: Option<&VirtualName>, other: Option<&VirtualName>) -> Verdict
    ensures { result ≡ by_name (option_copied name.entry) (option_copied other.entry) }
{
    match (name, other) {
        (Some(name), Some(other)) => {
            by_having(
                name.as_str() < other.as_str(),
                other.as_str() < name.as_str(),
            )
        }
        (None, _) | (Some(_), None) => Verdict::Alike,
    }
}
