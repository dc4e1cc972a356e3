//! Whether two sequences are the same.
ghost use Rattle.std.specs.Prelude.{◌≡◌};
ghost use Rattle.tk_patterns.specs.Same.{same_detail, same_pattern, same_patterns, same_sequence};

use tk_sequences::{Detail, Pattern, Sequence};

/// Whether two sequences have one canonical form.
pub(crate) fn same_sequence(sequence: &Sequence, other: &Sequence) -> bool
    ensures { result ≡ same_sequence sequence.now other.now }
{
    match (sequence, other) {
        (Sequence::Physical(patterns), Sequence::Physical(others)) => {
            same_patterns(patterns.as_slice(), others.as_slice())
        }
        (Sequence::Virtual(name), Sequence::Virtual(other)) => name.as_str() == other.as_str(),
        (Sequence::Physical(_), Sequence::Virtual(_))
        | (Sequence::Virtual(_), Sequence::Physical(_)) => false,
    }
}

/// Whether two lists have the same patterns.
pub(crate) fn same_patterns(patterns: &[Pattern], others: &[Pattern]) -> bool
    ensures { result ≡ same_patterns patterns.now others.now }
{
    let (mut rest, mut other_rest) = (patterns, others);
    while let (Some((pattern, more)), Some((other, others_more))) = (
        rest.split_first(),
        other_rest.split_first(),
    ) {
        if !same_pattern(*pattern, *other) {
            return false;
        }
        rest = more;
        other_rest = others_more;
    }
    rest.is_empty() && other_rest.is_empty()
}

fn same_pattern(pattern: Pattern, other: Pattern) -> bool
    ensures { result ≡ same_pattern pattern other }
{
    pattern.modifiers == other.modifiers
        && pattern.times.times() == other.times.times()
        && pattern.kind.number() == other.kind.number()
        && same_detail(pattern.detail, other.detail)
}

fn same_detail(detail: Option<Detail>, other: Option<Detail>) -> bool
    ensures { result ≡ same_detail detail other }
{
    match (detail, other) {
        (None, None) => true,
        (Some(detail), Some(other)) => detail == other,
        (None, Some(_)) | (Some(_), None) => false,
    }
}
