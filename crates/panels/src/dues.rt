//! When something happens next.

ghost use Rattle.std.specs.Prelude.{◌≡◌, None, map, IfOk};
ghost use Rattle.panels.specs.Dues.{earlier, least_due, next_due};

use crate::words::{lines_with, number_at};
use std::alloc::{AllocError, Global};

/// The earlier of a moment and of another, where it is after the moment that was reached.
fn earlier(reached: u64, due: u64, least: Option<u64>) -> Option<u64>
    ensures { result ≡ earlier reached due least }
{
    if due <= reached {
        return least;
    }
    match least {
        None => Some(due),
        Some(other) => Some(due.min(other)),
    }
}

/// The earliest moment of lines of timers that is after the one that was reached.
fn least_due(reached: u64, timers: &[&[u8]]) -> Option<u64>
    ensures { result ≡ least_due reached None (map (λ line. line.now) timers.now) }
{
    let mut least = None;
    for timer in timers {
        least = earlier(reached, number_at(*timer, 2), least);
    }
    least
}

/// The earliest moment after the one that was reached at which a timer of a section is due. An error where memory is refused.
pub fn next_due(alloc: Global, reached: u64, section: &[u8]) -> Result<Option<u64>, AllocError>
    ensures { IfOk result (λ due. due ≡ next_due reached section.now) }
{
    let timers = lines_with(alloc, section, b"timer")?;
    Ok(least_due(reached, timers.as_slice()))
}
