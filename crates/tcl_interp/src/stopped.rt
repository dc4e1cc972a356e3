//! The commands in which something stands, for people.
ghost use Rattle.std.specs.Prelude.{◌≡◌};

use crate::machine::{Frame, ScriptPlace, Wording};
use std::alloc::{AllocError, Global};
use tcl_control::Code;
use tcl_table::{CommandPlace, CommandTable};
use tcl_text::Text;

/// Whether a script that waits in the frame at an index is the body of a procedure.
fn is_body<K>(frames: &[Frame<K>], index: usize) -> bool {
    match index.checked_sub(1) {
        Some(below) => match frames.get(below) {
            Some(Frame::ForProcedure) => true,
            _ => false,
        },
        None => false,
    }
}

/// The command for which the frame at an index waits, where it waits for one.
fn place_in<K>(frames: &[Frame<K>], index: usize) -> Result<Option<CommandPlace>, AllocError> {
    match frames.get(index) {
        Some(Frame::ForCommand(place)) => {
            let before = place.next.saturating_sub(1);
            let is_in_body = is_body(frames, index);
            Ok(Some(CommandPlace::new(&place.script, before, is_in_body)?))
        }
        Some(Frame::ForPart(wording)) => {
            let place = &wording.place;
            let is_in_body = is_body(frames, index);
            Ok(Some(CommandPlace::new(&place.script, place.next, is_in_body)?))
        }
        _ => Ok(None),
    }
}

/// The commands for which frames wait, the innermost first.
pub fn places<K>(alloc: Global, frames: &[Frame<K>]) -> Result<Vec<CommandPlace>, AllocError> {
    let mut found = Vec::new(alloc);
    for outer in 0..frames.len() {
        if let Some(place) = place_in(frames, frames.len() - 1 - outer)? {
            found.push(place)?;
        }
    }
    Ok(found)
}

/// An error ends the command of a script before which this many others stand. Nothing waits for it any more.
pub fn note_error<K>(
    table: &mut CommandTable,
    frames: &[Frame<K>],
    place: &ScriptPlace,
    index: usize,
) -> Result<(), AllocError>
    ensures { table.new ≡ table.old }
{
    let is_in_body = is_body(frames, frames.len());
    table.note_place(CommandPlace::new(&place.script, index, is_in_body)?)
}

/// The command of a script before the place has ended: with an error, that is noted.
pub fn note_ended<K>(
    table: &mut CommandTable,
    frames: &[Frame<K>],
    place: &ScriptPlace,
    code: Code,
) -> Result<(), AllocError>
    ensures { table.new ≡ table.old }
{
    match code {
        Code::Error => note_error(table, frames, place, place.next.saturating_sub(1)),
        _ => Ok(()),
    }
}

/// A part of the words of a command has ended: with an error, that is noted.
pub fn note_part<K>(
    table: &mut CommandTable,
    frames: &[Frame<K>],
    wording: &Wording,
    code: Code,
) -> Result<(), AllocError>
    ensures { table.new ≡ table.old }
{
    let place = &wording.place;
    match code {
        Code::Error => note_error(table, frames, place, place.next),
        _ => Ok(()),
    }
}

/// All that ran has ended: with an error, that is noted with its text.
pub fn note_end(table: &mut CommandTable, code: Code, text: &Text) -> Result<(), AllocError>
    ensures { table.new ≡ table.old }
{
    match code {
        Code::Error => table.end_trail(text),
        _ => Ok(()),
    }
}
