//! The sub-commands of an entry (entry(n)), and what keys ask of it.
ghost use Rattle.std.specs.Prelude.{◌≡◌, ◌≢◌, ◌≤◌, ◌<◌, length, IfOk, IfErr, IfSome, IsSomeAnd};
ghost use Rattle.std.specs.Option.{option_copied};
ghost use Rattle.tcl_text.specs.Answers.{Gives};
ghost use Rattle.tk_widgets.specs.EntryCommands as spec;
ghost use Rattle.tcl_text.specs.Limits.{most_bytes};

use crate::Entry;
use crate::classes::has_value;
use crate::outcome::{WidgetChange, WidgetRequest, nothing, told};
use std::alloc::Global;
use tcl_text::answers::{
    Refusal, bad_index, bad_option, decimal_answer, limit_reached, wrong_args,
};
use tcl_text::{Text, TextFault};
use tk_options::{OptionName, OptionTable};

/// An edit of an entry's text. Places count characters.
#[derive(Drop)]
pub enum EntryEdit {
    /// A text is inserted at a place.
    Insert { at: usize, text: Text },
    /// The characters from a place on and before another are deleted.
    Delete { from: usize, to: usize },
    /// The text of a key is inserted at the cursor, unless it is empty or begins with a control character.
    Typed(Text),
    /// The character before the cursor is deleted, where there is one.
    Backspace,
    /// The character behind the cursor is deleted, where there is one.
    DeleteBehind,
}

/// The sub-command of a name, with the words behind it.
#[tactic(auto, unfolding(crate::specs::EntryCommands::entry_words))]
pub fn entry_words(
    alloc: Global,
    options: &OptionTable,
    entry: &Entry,
    variable: Option<&Text>,
    name: &Text,
    words: &[Text],
) -> Result<WidgetRequest, Refusal>
    ensures { Gives result (spec.entry_words name.now words.now (option_copied variable.entry) options.now entry.now) }
{
    match name.as_str() {
        "get" => entry_get(alloc, entry, variable, words),
        "insert" => entry_insert(alloc, options, entry, variable, words),
        "delete" => entry_delete(alloc, options, entry, variable, words),
        "icursor" => entry_icursor(alloc, entry, variable, words),
        "index" => entry_index(alloc, entry, variable, words),
        _ => bad_option(alloc, name),
    }
}

fn entry_get(
    alloc: Global,
    entry: &Entry,
    variable: Option<&Text>,
    words: &[Text],
) -> Result<WidgetRequest, Refusal>
    ensures { Gives result (spec.entry_get words.now (option_copied variable.entry) entry.now) }
{
    match words {
        [] => Ok(told(entry.shown(variable).copy()?)),
        _ => wrong_args(alloc, "path get"),
    }
}

fn entry_insert(
    alloc: Global,
    options: &OptionTable,
    entry: &Entry,
    variable: Option<&Text>,
    words: &[Text],
) -> Result<WidgetRequest, Refusal>
    ensures { Gives result (spec.entry_insert words.now (option_copied variable.entry) options.now entry.now) }
{
    match words {
        [index, new] => {
            let at = place_in(alloc, entry, variable, index)?;
            let text = new.copy()?;
            edit_wanted(
                alloc,
                options,
                entry,
                variable,
                &EntryEdit::Insert { at, text },
            )
        }
        _ => wrong_args(alloc, "path insert index text"),
    }
}

fn entry_delete(
    alloc: Global,
    options: &OptionTable,
    entry: &Entry,
    variable: Option<&Text>,
    words: &[Text],
) -> Result<WidgetRequest, Refusal>
    ensures { Gives result (spec.entry_delete words.now (option_copied variable.entry) options.now entry.now) }
{
    match words {
        [first] => {
            let from = place_in(alloc, entry, variable, first)?;
            let to = from + 1;
            edit_wanted(
                alloc,
                options,
                entry,
                variable,
                &EntryEdit::Delete { from, to },
            )
        }
        [first, last] => {
            let from = place_in(alloc, entry, variable, first)?;
            let to = place_in(alloc, entry, variable, last)?;
            edit_wanted(
                alloc,
                options,
                entry,
                variable,
                &EntryEdit::Delete { from, to },
            )
        }
        _ => wrong_args(alloc, "path delete first ?last?"),
    }
}

fn entry_icursor(
    alloc: Global,
    entry: &Entry,
    variable: Option<&Text>,
    words: &[Text],
) -> Result<WidgetRequest, Refusal>
    ensures { Gives result (spec.entry_icursor words.now (option_copied variable.entry) entry.now) }
{
    match words {
        [index] => {
            let at = place_in(alloc, entry, variable, index)?;
            Ok(WidgetRequest::Wants(WidgetChange::PutCursor(at)))
        }
        _ => wrong_args(alloc, "path icursor index"),
    }
}

fn entry_index(
    alloc: Global,
    entry: &Entry,
    variable: Option<&Text>,
    words: &[Text],
) -> Result<WidgetRequest, Refusal>
    ensures { Gives result (spec.entry_index words.now (option_copied variable.entry) entry.now) }
{
    match words {
        [index] => {
            let at = place_in(alloc, entry, variable, index)?;
            Ok(told(decimal_answer(alloc, at)?))
        }
        _ => wrong_args(alloc, "path index index"),
    }
}

/// How many characters stand before an index, or the error that the word is none.
#[tactic(auto, unfolding(crate::specs::EntryCommands::place_in))]
fn place_in(
    alloc: Global,
    entry: &Entry,
    variable: Option<&Text>,
    word: &Text,
) -> Result<usize, Refusal>
    ensures place { Gives result (spec.place_in word.now (option_copied variable.entry) entry.now) }
    ensures bound { IfOk result (λ at. at ≤ most_bytes) }
{
    match entry.index(variable, word) {
        Some(at) => Ok(at),
        None => bad_index(alloc, word),
    }
}

/// What an edit asks for, where the entry can be edited: its state is `normal`. The limit's error (4) where the text would pass 65,536 bytes.
#[tactic(auto, using(crate::proofs::CommandLemmas::edits))]
pub fn edit_wanted(
    alloc: Global,
    options: &OptionTable,
    entry: &Entry,
    variable: Option<&Text>,
    edit: &EntryEdit,
) -> Result<WidgetRequest, Refusal>
    ensures { Gives result (spec.edit_wanted edit.now (option_copied variable.entry) options.now entry.now) }
{
    if !has_value(options, OptionName::State, "normal") {
        return Ok(nothing());
    }
    match edited(alloc, entry, variable, edit) {
        Ok(Some(edited)) => Ok(WidgetRequest::Wants(WidgetChange::Edit(edited))),
        Ok(None) => Ok(nothing()),
        Err(TextFault::TooLong) => Err(limit_reached(alloc)),
        Err(TextFault::NoMemory) => Err(Refusal::NoMemory),
    }
}

/// What an edit makes of an entry, if it edits it. `TooLong` (4) where its text would pass 65,536 bytes.
fn edited(
    alloc: Global,
    entry: &Entry,
    variable: Option<&Text>,
    edit: &EntryEdit,
) -> Result<Option<Entry>, TextFault>
    ensures ok { IfOk result (λ edited. edited ≡ spec.edited_by edit.now (option_copied variable.entry) entry.now) }
    ensures short { IfOk result (λ edited. IfSome edited (λ entry. length entry.text ≤ most_bytes)) }
    ensures too_long { IfErr result (λ fault. fault ≢ TextFault.NoMemory
        → IsSomeAnd (spec.edited_by edit.now (option_copied variable.entry) entry.now) (λ entry. most_bytes < length entry.text)) }
{
    match edit {
        EntryEdit::Insert { at, text } => {
            Ok(Some(entry.with_inserted(alloc, variable, *at, text)?))
        }
        EntryEdit::Delete { from, to } => Ok(Some(entry.without(alloc, variable, *from, *to)?)),
        EntryEdit::Typed(text) => entry.with_typed(alloc, variable, text),
        EntryEdit::Backspace => entry.without_before(alloc, variable),
        EntryEdit::DeleteBehind => entry.without_behind(alloc, variable),
    }
}
