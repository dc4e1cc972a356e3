//! Changes of a text in place.
ghost use Rattle.std.specs.Prelude.{◌≡◌, ◌≢◌, ◌++◌, Ok, Err, IfOk, IfErr, OnOk, OnErr};
ghost use Rattle.tcl_text.specs.Edit.{edited, within_limit, with_more, written_anew};
ghost use Rattle.tcl_text.specs.Readings.{list_form, list_of};

use crate::fault::{EditFault, SplitFault, TextFault};
use crate::list::TextList;
use crate::text::Text;
use std::alloc::{AllocError, Global};

/// How a text is changed.
#[derive(Clone, Copy)]
pub enum Edit<'a> {
    /// Characters are added behind it (append(n)).
    Characters(&'a str),
    /// Items are added to the list that it is, in its one form (lappend(n)).
    Items(&'a [Text]),
}

impl Text {
    /// Changes the text. Items that are added to a text which was made as a list, and characters that are added to another, cost
    /// no more than they are long where no copy shares the text; else the change costs what the text is long. `BadList` (3) where
    /// items are added to what is no list, `TooLong` (4) where the text would pass 65,536 bytes.
    #[tactic(auto, unfolding(crate::specs::Edit::edited))]
    pub fn edit(&mut self, alloc: Global, edit: Edit<'_>) -> Result<(), EditFault>
        ensures ok { OnOk result (edited edit.entry self.old ≡ Ok self.new) }
        ensures refused { IfErr result (λ fault. fault ≢ EditFault.NoMemory → edited edit.entry self.old ≡ Err fault) }
        ensures err { OnErr result (self.new ≡ self.old) }
    {
        match edit {
            Edit::Characters(characters) => {
                push_characters(alloc, self, characters)?;
                Ok(())
            }
            Edit::Items(items) => {
                push_items(alloc, self, items)?;
                Ok(())
            }
        }
    }
}

#[tactic(auto, using(crate::proofs::EditLemmas::limits))]
fn push_characters(alloc: Global, text: &mut Text, characters: &str) -> Result<(), EditFault>
    ensures ok { OnOk result (within_limit (text.old ++ characters.now) ≡ Ok text.new) }
    ensures refused { IfErr result (λ fault. fault ≢ EditFault.NoMemory → within_limit (text.old ++ characters.now) ≡ Err fault) }
    ensures err { OnErr result (text.new ≡ text.old) }
{
    match text.push_str(alloc, characters) {
        Ok(()) => Ok(()),
        Err(TextFault::TooLong) => Err(EditFault::TooLong),
        Err(TextFault::NoMemory) => Err(EditFault::NoMemory),
    }
}

// Adds items to the list that a text is.
#[tactic(auto, using(crate::proofs::EditLemmas::limits))]
fn push_items(alloc: Global, text: &mut Text, items: &[Text]) -> Result<(), EditFault>
    ensures ok { OnOk result (written_anew (with_more items.now (list_of text.old)) ≡ Ok text.new) }
    ensures refused { IfErr result (λ fault. fault ≢ EditFault.NoMemory → written_anew (with_more items.now (list_of text.old)) ≡ Err fault) }
    ensures err { OnErr result (text.new ≡ text.old) }
{
    match text.push_items(alloc, items) {
        Ok(true) => Ok(()),
        Ok(false) => {
            *text = written_anew(alloc, text, items)?;
            Ok(())
        }
        Err(TextFault::TooLong) => Err(EditFault::TooLong),
        Err(TextFault::NoMemory) => Err(EditFault::NoMemory),
    }
}

// The list that a text is, which is read, with more items behind it.
#[tactic(auto, using(crate::proofs::EditLemmas::anew))]
fn written_anew(alloc: Global, text: &Text, items: &[Text]) -> Result<Text, EditFault>
    ensures ok { IfOk result (λ written. written_anew (with_more items.now (list_of text.now)) ≡ Ok written) }
    ensures refused { IfErr result (λ fault. fault ≢ EditFault.NoMemory → written_anew (with_more items.now (list_of text.now)) ≡ Err fault) }
{
    let all = with_more(alloc, text, items)?;
    list_text(alloc, all.as_slice())
}

// The items of the list that a text is, with more behind them.
fn with_more(alloc: Global, text: &Text, items: &[Text]) -> Result<TextList, EditFault>
    ensures ok { IfOk result (λ all. with_more items.now (list_of text.now) ≡ Ok all) }
    ensures refused { IfErr result (λ fault. fault ≢ EditFault.NoMemory → with_more items.now (list_of text.now) ≡ Err fault) }
{
    match text.split_list(alloc) {
        Ok(held) => Ok(with_copies(held, items)?),
        Err(SplitFault::BadList(fault)) => Err(EditFault::BadList(fault)),
        Err(SplitFault::NoMemory) => Err(EditFault::NoMemory),
    }
}

// These texts, and copies of more.
fn with_copies(mut texts: TextList, more: &[Text]) -> Result<TextList, AllocError>
    ensures { IfOk result (λ all. all ≡ texts ++ more.now) }
{
    for text in more {
        texts.push(text.copy()?)?;
    }
    Ok(texts)
}

// The list of these items.
#[tactic(auto, using(crate::proofs::EditLemmas::limits))]
fn list_text(alloc: Global, items: &[Text]) -> Result<Text, EditFault>
    ensures ok { IfOk result (λ text. within_limit (list_form items.now) ≡ Ok text) }
    ensures refused { IfErr result (λ fault. fault ≢ EditFault.NoMemory → within_limit (list_form items.now) ≡ Err fault) }
{
    match Text::join_list(alloc, items) {
        Ok(text) => Ok(text),
        Err(TextFault::TooLong) => Err(EditFault::TooLong),
        Err(TextFault::NoMemory) => Err(EditFault::NoMemory),
    }
}
