//! The texts of errors, for commands that answer with a text or with that of an error.
ghost use Rattle.std.specs.Prelude.{◌≡◌, ◌++◌, IfOk, OnOk, string_bytes};
ghost use Rattle.tcl_text.specs.Messages.{bad_name_text, bad_option_text, limit_text, message as message_of, quoted, too_large_text, wrong_args_text};

use crate::text::Text;
use std::alloc::{AllocError, Global};

/// A command's result, or the text of its error.
pub type Answer = Result<Text, Text>;

/// A text of characters that a caller knows to be few enough; memory counts as refused where they are more than 65,536 bytes.
pub fn short_text(alloc: Global, characters: &str) -> Result<Text, AllocError>
    ensures { IfOk result (λ text. text ≡ characters.now) }
{
    match Text::new(alloc, characters) {
        Ok(text) => Ok(text),
        Err(_) => Err(AllocError),
    }
}

/// What a script is told in place of a text past 65,536 bytes (4).
pub(crate) const TOO_LONG: &str = "limit reached: value";

/// The message that stands in place of a text past 65,536 bytes (4).
pub fn limit(alloc: Global) -> Result<Text, AllocError>
    ensures { IfOk result (λ text. text ≡ limit_text) }
{
    Text::of_short(alloc, TOO_LONG)
}

/// What stands before the word in quotation marks in the text of the error for a word that has no value behind it.
pub const VALUE_FOR: &str = "value for ";

/// What stands behind it.
pub const MISSING: &str = " missing";

/// The text of the error for an integer past 64 bits (13).
pub fn too_large_text(alloc: Global) -> Result<Text, AllocError>
    ensures { IfOk result (λ text. text ≡ too_large_text) }
{
    Text::of_short(alloc, "integer value too large to represent")
}

/// The text of the error for a wrong number of words, `wrong # args: should be` and the usage; that of the limit (4) where it is past 65,536
/// bytes. The error has no number.
pub fn wrong_args_text(alloc: Global, usage: &str) -> Result<Text, AllocError>
    ensures { IfOk result (λ text. text ≡ message_of (wrong_args_text usage.now)) }
{
    about(alloc, "wrong # args: should be ", usage)
}

/// The text of the error for a word that is none of those that may stand in its place; that of the limit (4) where it is past 65,536 bytes.
/// The error has no number.
pub fn bad_option_text(alloc: Global, word: &str) -> Result<Text, AllocError>
    ensures { IfOk result (λ text. text ≡ message_of (bad_option_text word.now)) }
{
    about(alloc, "bad option ", word)
}

/// The text of the error for a name that a link or a command can't have; that of the limit (4) where it is past 65,536 bytes. It has no
/// number.
pub fn bad_name_text(alloc: Global, name: &str) -> Result<Text, AllocError>
    ensures { IfOk result (λ text. text ≡ message_of (bad_name_text name.now)) }
{
    about(alloc, "can't use name ", name)
}

/// The text of an error that ends with a word in quotation marks; that of the limit (4) where it is past 65,536 bytes.
#[tactic(auto, unfolding(crate::specs::Messages::bounded))]
pub fn about(alloc: Global, before: &str, word: &str) -> Result<Text, AllocError>
    ensures { IfOk result (λ text. text ≡ message_of (before.now ++ quoted word.now)) }
{
    let characters = with_quoted(alloc, before, word)?;
    Text::of_message(alloc, characters.as_str())
}

/// The text of an error with a word in quotation marks between what stands before and behind it; that of the limit (4) where it is past
/// 65,536 bytes.
#[tactic(auto, unfolding(crate::specs::Messages::bounded))]
pub fn about_between(
    alloc: Global,
    before: &str,
    word: &str,
    behind: &str,
) -> Result<Text, AllocError>
    ensures { IfOk result (λ text. text ≡ message_of (before.now ++ (quoted word.now ++ behind.now))) }
{
    let characters = quoting(alloc, before, word, behind)?;
    Text::of_message(alloc, characters.as_str())
}

/// The message followed by a word in quotation marks.
pub fn with_quoted(alloc: Global, message: &str, word: &str) -> Result<String, AllocError>
    ensures { IfOk result (λ string. string_bytes string ≡ message.now ++ quoted word.now) }
{
    format!(in alloc; "{message}\"{word}\"")
}

/// A word in quotation marks with what stands before and behind it.
pub fn quoting(alloc: Global, before: &str, word: &str, behind: &str) -> Result<String, AllocError>
    ensures { IfOk result (λ string. string_bytes string ≡ before.now ++ (quoted word.now ++ behind.now)) }
{
    let mut message = with_quoted(alloc, before, word)?;
    message.push_str(behind)?;
    Ok(message)
}

/// Adds a word in quotation marks.
pub fn push_quoted(message: &mut String, word: &str) -> Result<(), AllocError>
    ensures { OnOk result (string_bytes message.new ≡ string_bytes message.old ++ quoted word.now) }
{
    message.push_str("\"")?;
    message.push_str(word)?;
    message.push_str("\"")?;
    Ok(())
}
