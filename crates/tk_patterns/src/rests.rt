//! Several rising lists of stamps, gone through together.
ghost use Rattle.std.specs.Prelude.{◌≡◌};
ghost use Rattle.tk_patterns.specs.Rests.{first_of, past, earlier};

/// What is left of a list once a stamp is done, which is its first or is none of it.
pub fn past(rest: &[u64], stamp: u64) -> &[u64]
    ensures { result.now ≡ past stamp rest.now }
{
    match rest.split_first() {
        Some((first, behind)) => { if *first == stamp { behind } else { rest } }
        None => rest,
    }
}

/// The first stamp of a list.
pub fn first_of(rest: &[u64]) -> Option<u64>
    ensures { result ≡ first_of rest.now }
{
    match rest.first() {
        Some(stamp) => Some(*stamp),
        None => None,
    }
}

/// The stamp of two that comes first.
pub fn earlier(stamp: Option<u64>, other: Option<u64>) -> Option<u64>
    ensures { result ≡ earlier stamp other }
{
    match (stamp, other) {
        (Some(stamp), Some(other)) => {
            if stamp <= other {
                Some(stamp)
            } else {
                Some(other)
            }
        }
        (Some(stamp), None) => Some(stamp),
        (None, other) => other,
    }
}
