//! The commands on variables, at the level of the script that calls them.
ghost use Rattle.std.specs.Prelude.{◌≡◌, ◌<◌, length, IfOk};
ghost use Rattle.tcl_control.specs.Usages.{misused_text};
ghost use Rattle.tcl_control.specs.Variables as spec;

use crate::code::Code;
use crate::control::{End, bad_level, error_end, levels_left};
use crate::usages::{Usage, misused_text};
use std::alloc::{AllocError, Global};
use tcl_commands::{VariableCommand, call_variable_command, upvar_command};
use tcl_table::Levels;
use tcl_text::Text;
use tcl_vars::Scopes;

/// How a command ends that answers this.
fn end_of(answer: Result<Text, Text>) -> End
    ensures code { result.code ≡ spec.answer_code answer }
    ensures text { result.text ≡ spec.answer_text answer }
{
    match answer {
        Ok(text) => End {
            code: Code::Normal,
            text,
        },
        Err(text) => error_end(text),
    }
}

/// A command that knows no level but its script's (set(n), unset(n), incr(n), append(n), lappend(n), array(n), global(n)).
pub fn variable_end(
    alloc: Global,
    scopes: &mut Scopes,
    levels: &Levels,
    command: VariableCommand,
    words: &[Text],
) -> Result<End, AllocError>
    ensures { IfOk result (λ end. record { store = scopes.new; code = end.code; text = end.text }
        ≡ spec.variable_ending command levels.now words.now scopes.old) }
{
    let frame = levels.here(scopes);
    let answer = call_variable_command(alloc, scopes, frame, command, words)?;
    Ok(end_of(answer))
}

/// Links names of a frame to those of the frame at another place, which must be an earlier one.
fn linked(
    alloc: Global,
    scopes: &mut Scopes,
    frame: usize,
    place: Option<usize>,
    word: &str,
    names: &[Text],
) -> Result<End, AllocError>
    requires { frame < length scopes.old }
    ensures { IfOk result (λ end. record { store = scopes.new; code = end.code; text = end.text }
        ≡ spec.linked_ending word.now names.now frame scopes.old place) }
{
    match place {
        Some(place) if place < frame => {
            let answer = upvar_command(alloc, scopes, frame, place, names)?;
            Ok(end_of(answer))
        }
        _ => Ok(error_end(bad_level(alloc, word)?)),
    }
}

/// Links names to those of the frame at the level that a word gives.
fn upvar_at(
    alloc: Global,
    scopes: &mut Scopes,
    levels: &Levels,
    word: &Text,
    names: &[Text],
) -> Result<End, AllocError>
    ensures { IfOk result (λ end. record { store = scopes.new; code = end.code; text = end.text } ≡ spec.upvar_at levels.now word.now names.now scopes.old) }
{
    let frame = levels.here(scopes);
    let place = match levels_left(alloc, levels.count(), word)? {
        Some(count) => Some(levels.place_at(scopes, count)),
        None => None,
    };
    linked(alloc, scopes, frame, place, word.as_str(), names)
}

fn upvar_misused(alloc: Global) -> Result<End, AllocError>
    ensures { IfOk result (λ end. end ≡ record { code = Code.Error; text = misused_text Usage.Upvar }) }
{
    Ok(error_end(misused_text(alloc, Usage::Upvar)?))
}

/// `upvar` (upvar(n)).
pub fn upvar_end(
    alloc: Global,
    scopes: &mut Scopes,
    levels: &Levels,
    words: &[Text],
) -> Result<End, AllocError>
    ensures { IfOk result (λ end. record { store = scopes.new; code = end.code; text = end.text } ≡ spec.upvar_ending levels.now words.now scopes.old) }
{
    let [word, names @ ..] = words else {
        return upvar_misused(alloc);
    };
    if names.is_empty() {
        return upvar_misused(alloc);
    }
    if words.len() % 2 == 0 {
        let one_up = Text::of_short(alloc, "1")?;
        upvar_at(alloc, scopes, levels, &one_up, words)
    } else {
        upvar_at(alloc, scopes, levels, word, names)
    }
}
