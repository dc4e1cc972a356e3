//! The errors of `pack`.
ghost use Rattle.std.specs.Prelude.{◌≡◌, ◌++◌, IfOk, string_bytes};
ghost use Rattle.tcl_text.specs.Answers.{Gives, quoted};
ghost use Rattle.tk_pack_commands.specs.Faults as spec;

use std::alloc::{AllocError, Global};
use tcl_text::answers::{Refusal, error, error_about, missing_value, quoting_error};
use tcl_text::message::quoting;
use tcl_text::{NotBoolean, Text};

/// The error for the main window, which is packed nowhere.
pub fn is_top_level<T>(alloc: Global) -> Result<T, Refusal>
    ensures { Gives result spec.is_top_level }
{
    Err(error(alloc, "can't pack \".\": it's a top-level window"))
}

/// The error for a window that isn't packed.
pub fn not_packed<T>(alloc: Global, path: &Text) -> Result<T, Refusal>
    ensures { Gives result (spec.not_packed path.now) }
{
    Err(error_about(alloc, "window ", path.as_str(), " isn't packed"))
}

/// The error for a window that has another parent than those that are to be packed.
pub fn not_sibling<T>(alloc: Global, path: &Text) -> Result<T, Refusal>
    ensures { Gives result (spec.not_sibling path.now) }
{
    Err(error_about(alloc, "window ", path.as_str(), " isn't a sibling"))
}

/// The error for a word that names no option (20).
pub fn unknown_option<T>(alloc: Global, name: &Text) -> Result<T, Refusal>
    ensures { Gives result (spec.unknown_option name.now) }
{
    Err(quoting_error(alloc, "unknown option ", name.as_str()))
}

/// The error for a value that an option doesn't take (22).
pub fn bad_value<T>(alloc: Global, value: &Text, name: &Text) -> Result<T, Refusal>
    ensures { Gives result (spec.bad_value value.now name.now) }
{
    match about(alloc, "bad value ", value, " for option ") {
        Ok(message) => Err(quoting_error(alloc, message.as_str(), name.as_str())),
        Err(AllocError) => Err(Refusal::NoMemory),
    }
}

/// The error for a last option without a value (23).
pub fn no_value<T>(alloc: Global, name: &Text) -> Result<T, Refusal>
    ensures { Gives result (spec.no_value name.now) }
{
    missing_value(alloc, name.as_str())
}

/// The error for a word that is no boolean (2).
#[tactic(auto, unfolding(tcl_text::specs::Messages::bounded))]
pub fn not_boolean<T>(alloc: Global, word: &Text) -> Result<T, Refusal>
    ensures { Gives result (spec.not_boolean word.now) }
{
    Err(Refusal::Error(NotBoolean.text(alloc, word.as_str())?))
}

/// A word in quotation marks with what stands before and behind it.
fn about(alloc: Global, before: &str, word: &Text, behind: &str) -> Result<String, AllocError>
    ensures { IfOk result (λ string. string_bytes string ≡ before.now ++ quoted word.now ++ behind.now) }
{
    quoting(alloc, before, word.as_str(), behind)
}
