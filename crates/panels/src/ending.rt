//! How a panel ended: by the notes of its host, which no script sees.

ghost use Rattle.std.specs.Prelude.{◌≡◌, length, map, IfOk};
ghost use Rattle.std.specs.String.{string_bytes};

use std::alloc::{AllocError, Global};
use tk_host::{AliasService, CommandPlace, ErrorNote, Host};

/// A command that had begun and hadn't ended, or that was about to begin.
#[derive(Drop)]
pub struct Stand {
    /// The script in which it stands.
    pub script: String,
    /// Its first byte there.
    pub start: usize,
    /// The byte behind its last one.
    pub end: usize,
    /// Whether the script is the body of a procedure.
    pub is_in_body: bool,
}

/// An error that ended a script.
#[derive(Drop)]
pub struct Raised {
    pub text: String,
    /// The commands that it ended, the innermost first.
    pub stands: Vec<Stand>,
}

/// Where a panel ran out of steps.
#[derive(Drop)]
pub struct Stopped {
    /// In milliseconds.
    pub moment: u64,
    /// The commands in which it stood, the innermost first.
    pub stands: Vec<Stand>,
}

/// How a panel ended.
#[derive(Drop)]
pub struct Ending {
    /// The first errors that ended its scripts, in the order in which they came.
    pub errors: Vec<Raised>,
    /// Where it ran out of steps last, if it did.
    pub stopped: Option<Stopped>,
}

/// The commands at which an application stood.
fn stands_of(alloc: Global, places: &[CommandPlace]) -> Result<Vec<Stand>, AllocError> {
    let mut stands = Vec::new(alloc);
    for place in places {
        if let Some(span) = &place.span {
            stands.push(Stand {
                script: String::from_str(alloc, place.script.as_str())?,
                start: span.start(),
                end: span.end(),
                is_in_body: place.is_in_body,
            })?;
        }
    }
    Ok(stands)
}

/// The error of a note.
fn raised_by(alloc: Global, note: &ErrorNote) -> Result<Raised, AllocError>
    ensures { IfOk result (λ raised. string_bytes raised.text ≡ note.now.text) }
{
    Ok(Raised {
        text: String::from_str(alloc, note.text.as_str())?,
        stands: stands_of(alloc, note.places.as_slice())?,
    })
}

/// The errors of notes.
fn errors_of(alloc: Global, notes: &[ErrorNote]) -> Result<Vec<Raised>, AllocError>
    ensures { IfOk result (λ errors. map (λ raised. string_bytes raised.text) errors.items ≡ map (λ note. note.text) notes.now) }
{
    let mut errors = Vec::new(alloc);
    for note in notes {
        errors.push(raised_by(alloc, note)?)?;
    }
    Ok(errors)
}

/// Where the panel in a slot ran out of steps last, if it did.
fn stopped_in<M: AliasService>(
    alloc: Global,
    host: &Host<M>,
    slot: usize,
) -> Result<Option<Stopped>, AllocError> {
    let Some(moment) = host.stopped_moment(slot) else {
        return Ok(None);
    };
    let places = host.stopped_at(slot).unwrap_or(&[]);
    Ok(Some(Stopped {
        moment,
        stands: stands_of(alloc, places)?,
    }))
}

/// How the panel in a slot ended.
fn ending_of<M: AliasService>(
    alloc: Global,
    host: &Host<M>,
    slot: usize,
) -> Result<Ending, AllocError> {
    let notes = host.error_notes(slot).unwrap_or(&[]);
    Ok(Ending {
        errors: errors_of(alloc, notes)?,
        stopped: stopped_in(alloc, host, slot)?,
    })
}

/// How each of so many panels ended. An error where memory is refused.
pub(crate) fn endings_of<M: AliasService>(
    alloc: Global,
    host: &Host<M>,
    panels: usize,
) -> Result<Vec<Ending>, AllocError>
    ensures { IfOk result (λ endings. length endings.items ≡ panels) }
{
    let mut endings = Vec::new(alloc);
    for slot in 0..panels {
        endings.push(ending_of(alloc, host, slot)?)?;
    }
    Ok(endings)
}
