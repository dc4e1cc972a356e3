ghost use Rattle.std.specs.Prelude.{◌≡◌, ◌≤◌, length, slice_get};
ghost use Rattle.tk_sequences.specs.Patterns.{count_of};
ghost use Rattle.tk_patterns.specs.Copies.{all_copies};

use tk_sequences::Pattern;

/// One of the events that patterns ask for.
#[derive(Clone, Copy, Debug, PartialEq, Eq)]
pub struct PatternCopy {
    pub pattern: Pattern,
    /// Whether the next event is to be one more of the same Double, Triple or Quadruple.
    pub again: bool,
}

/// What patterns ask for at a place, counted from the newest event, at 0.
pub fn copy_at(patterns: &[Pattern], place: usize) -> Option<PatternCopy>
    ensures { result ≡ slice_get (all_copies patterns.now) place }
{
    let mut rest = patterns;
    let mut left = place;
    while let Some((pattern, earlier)) = rest.split_last() {
        let pattern = *pattern;
        let times = pattern.times.times();
        if left < times {
            return Some(PatternCopy {
                pattern,
                again: left > 0,
            });
        }
        left -= times;
        rest = earlier;
    }
    None
}

/// How many events patterns ask for.
pub fn count_of(patterns: &[Pattern]) -> usize
    requires { count_of patterns.now ≤ 32 }
    ensures { result ≡ length (all_copies patterns.now) }
{
    let mut count = 0;
    for pattern in patterns {
        count += pattern.times.times();
    }
    count
}
