//! Where in its script a panel failed, by the notes of its host.

ghost use Rattle.std.specs.Prelude.{◌≡◌};
ghost use Rattle.std.specs.Option.{option_copied};
ghost use Rattle.panels_report.specs.Failing.{raised};

use panels::{Ending, Raised, Stand};
use panels_bench::place_words;
use panels_film::comes_a_line;
use panels_text::{questions_of, unescaped};
use std::alloc::{AllocError, Global};
use tk_session::EventLine;

/// The moment of a line of a transcript.
fn moment_of(line: &str) -> u64 {
    let word = line.split(' ').nth(1).unwrap_or("");
    word.parse::<u64>().unwrap_or(0)
}

/// A script that can't be read, where an error tells that.
fn unread_words(
    alloc: Global,
    label: &str,
    script: &str,
    error: &str,
) -> Result<Option<String>, AllocError> {
    for unread in &questions_of(alloc, script, &[])?.unread {
        if unread.fault.as_str().starts_with(error) {
            let words = format!(in alloc; "{label}:{}: {}", unread.line, unread.fault.as_str())?;
            return Ok(Some(words));
        }
    }
    Ok(None)
}

/// The first of errors with a text.
fn raised<'a>(errors: &'a [Raised], text: &str) -> Option<&'a Raised>
    ensures { option_copied result ≡ raised text.now errors.now }
{
    errors.iter().find(|raised| raised.text.as_str() == text)
}

/// A panel that failed: its script, what that is told by, the lines of its session, and how it ended.
#[derive(Clone, Copy)]
pub(crate) struct Failing<'a> {
    pub script: &'a str,
    pub label: &'a str,
    pub events: &'a [EventLine],
    pub ending: &'a Ending,
}

impl<'a> Failing<'a> {
    /// Where it stood at a moment, in words.
    fn words(
        self,
        alloc: Global,
        stands: &[Stand],
        error: &str,
        moment: u64,
    ) -> Result<Option<String>, AllocError> {
        let by_timer = !comes_a_line(self.events, moment);
        place_words(alloc, self.label, self.script, stands, error, by_timer)
    }
}

/// Where the first error of a panel comes from, by its line of the transcript: it is of the first note with its text.
pub(crate) fn error_place(
    alloc: Global,
    failing: Failing<'_>,
    line: &str,
) -> Result<Option<String>, AllocError> {
    let error = line.splitn(3, ' ').nth(2).unwrap_or("");
    if let Some(words) = unread_words(alloc, failing.label, failing.script, error)? {
        return Ok(Some(words));
    }
    let text = unescaped(alloc, error)?;
    match raised(failing.ending.errors.as_slice(), text.as_str()) {
        Some(raised) => failing.words(alloc, raised.stands.as_slice(), line, moment_of(line)),
        None => Ok(None),
    }
}

/// Where a panel stood as it ran out of steps last, and at which moment.
pub(crate) fn spent_place(
    alloc: Global,
    failing: Failing<'_>,
) -> Result<Option<String>, AllocError> {
    let Some(stopped) = &failing.ending.stopped else {
        return Ok(None);
    };
    let moment = stopped.moment;
    match failing.words(alloc, stopped.stands.as_slice(), "", moment)? {
        Some(words) => {
            Ok(Some(format!(in alloc; "at {moment} ms it stood in {}", words.as_str())?))
        }
        None => Ok(None),
    }
}
