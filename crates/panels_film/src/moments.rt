//! Lines and their moments, which never go back.

ghost use Rattle.std.specs.Prelude.{◌≡◌, drop, take};
ghost use Rattle.panels_film.specs.Moments.{comes_a_line, count_until, first_later};

use tk_session::EventLine;

/// The number of the first line that is later than a moment.
fn first_later(events: &[EventLine], moment: u64) -> Option<usize>
    ensures { result ≡ first_later moment events.now }
{
    events.iter().position(|event| event.moment > moment)
}

/// How many of the lines come up to a moment.
pub fn count_until(events: &[EventLine], moment: u64) -> usize
    ensures { result ≡ count_until moment events.now }
{
    match first_later(events, moment) {
        Some(count) => count,
        None => events.len(),
    }
}

/// The first so many of the lines.
pub(crate) fn first_of(events: &[EventLine], count: usize) -> &[EventLine]
    ensures { result.now ≡ take count events.now }
{
    match events.get(..count) {
        Some(first) => first,
        None => events,
    }
}

/// The lines behind so many, up to another number of them.
pub(crate) fn between(events: &[EventLine], before: usize, behind: usize) -> &[EventLine]
    ensures { result.now ≡ drop before (take behind events.now) }
{
    let first = first_of(events, behind);
    match first.get(before..) {
        Some(rest) => rest,
        None => &[],
    }
}

/// The lines that come up to a moment.
pub fn until(events: &[EventLine], moment: u64) -> &[EventLine]
    ensures { result.now ≡ take (count_until moment events.now) events.now }
{
    first_of(events, count_until(events, moment))
}

/// Whether a line comes at a moment.
pub fn comes_a_line(events: &[EventLine], moment: u64) -> bool
    ensures { result ≡ comes_a_line moment events.now }
{
    events.iter().any(|event| event.moment == moment)
}
