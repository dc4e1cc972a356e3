ghost use Rattle.std.specs.Prelude.{◌≡◌, ◌≢◌, ◌+◌, ◌<◌, ◌≤◌, length, List, ℕ, ok_or, option_map, MatchBool, MatchOption, ◌↔◌, MatchResult, Ok, Err, Some, None, false, IsOk, IsSome, IfOk, IfErr, IfSome, OnOk, OnErr};
ghost use Rattle.std.specs.Option.{option_copied};
ghost use Rattle.tcl_text.specs.Readings.{integer_of};
ghost use Rattle.tcl_vars.specs.Add.{AddsContent, IsSum};
ghost use Rattle.tcl_vars.specs.Change.{edited_by};
ghost use Rattle.tcl_vars.specs.Changing.{ChangesContent, KeepsContent};
ghost use Rattle.tcl_vars.specs.Put.{AfterContent, RefusesContent};
ghost use Rattle.tcl_vars.specs.Short.{IsShort};
ghost use Rattle.tcl_vars.specs.Store.{array_state, content_count, content_without, elements_of, holds_value, is_there, link_of, text_of};
ghost use Rattle.tcl_vars.specs.Unset.{AfterUnset, content_but};
ghost use Rattle.tcl_vars.specs.Table.{value_at, values_but, with_value, without};

use crate::table::Table;
use std::alloc::{AllocError, Global};
use tcl_text::{ChangeFault, Edit, EditFault, ReadFault, SetFault, Text, UnsetFault};

/// What a name of a frame stands for.
#[derive(Drop)]
pub enum Content {
    /// A text.
    Scalar(Text),
    /// The elements by index, in the order in which they were made.
    Array(Table<Text>),
    /// A name in the frame at an earlier level, which is followed at each use (upvar(n)).
    Link(usize, Text),
}

/// The text of a content, or of its element.
pub(crate) fn text_of<'a>(
    content: Option<&'a Content>,
    element: Option<&str>,
) -> Result<&'a Text, ReadFault>
    ensures { MatchResult result
        (λ text. text_of (option_copied content.entry) (option_copied element.entry) ≡ Ok text.now)
        (λ fault. text_of (option_copied content.entry) (option_copied element.entry) ≡ Err fault) }
{
    match (content, element) {
        (None, _) => Err(ReadFault::NoVariable),
        (Some(Content::Scalar(text)), None) => Ok(text),
        (Some(Content::Scalar(_)), Some(_)) => Err(ReadFault::NotArray),
        (Some(Content::Array(_)), None) => Err(ReadFault::IsArray),
        (Some(Content::Array(elements)), Some(index)) => {
            elements.get(index).ok_or(ReadFault::NoElement)
        }
        (Some(Content::Link(_, _)), _) => Err(ReadFault::NoVariable),
    }
}

/// The integer that a text is, if it is one.
pub(crate) fn integer_in(text: &Text) -> Option<i64>
    ensures { result ≡ integer_of text.now }
{
    text.integer().ok()
}

/// Whether there is a content, or its element.
pub(crate) fn is_there(content: Option<&Content>, element: Option<&str>) -> bool
    ensures { result ≡ is_there (option_copied content.entry) (option_copied element.entry) }
{
    match (content, element) {
        (None, _) => false,
        (Some(Content::Scalar(_)), None) => true,
        (Some(Content::Scalar(_)), Some(_)) => false,
        (Some(Content::Array(_)), None) => true,
        (Some(Content::Array(elements)), Some(index)) => elements.get(index).is_some(),
        (Some(Content::Link(_, _)), _) => false,
    }
}

/// Whether there is a content that is no link.
pub(crate) fn holds_value(content: Option<&Content>) -> bool
    ensures { result ≡ holds_value (option_copied content.entry) }
{
    match content {
        None => false,
        Some(Content::Scalar(_)) => true,
        Some(Content::Array(_)) => true,
        Some(Content::Link(_, _)) => false,
    }
}

/// Whether a content is an array; nothing where it can't become one.
pub(crate) fn array_state(content: Option<&Content>, element: Option<&str>) -> Option<bool>
    ensures state { result ≡ array_state (option_copied content.entry) (option_copied element.entry) }
    ensures absent { result ≡ Some false → option_copied content.entry ≡ None }
{
    match (content, element) {
        (None, None) => Some(false),
        (None, Some(_)) => None,
        (Some(Content::Array(_)), None) => Some(true),
        (Some(Content::Array(_)), Some(_)) => None,
        (Some(Content::Scalar(_)), _) => None,
        (Some(Content::Link(_, _)), _) => None,
    }
}

/// The elements of a content that is an array.
pub(crate) fn elements_of<'a>(
    content: Option<&'a Content>,
    element: Option<&str>,
) -> Option<&'a Table<Text>>
    ensures { option_copied result ≡ elements_of (option_copied content.entry) (option_copied element.entry) }
{
    match (content, element) {
        (None, _) => None,
        (Some(Content::Scalar(_)), _) => None,
        (Some(Content::Array(elements)), None) => Some(elements),
        (Some(Content::Array(_)), Some(_)) => None,
        (Some(Content::Link(_, _)), _) => None,
    }
}

/// The level and the name that a link gives.
pub(crate) fn link_of<'a>(content: Option<&'a Content>) -> Option<(usize, &'a str)>
    ensures link { option_map (λ link. (link.0, link.1.now)) result ≡ link_of (option_copied content.entry) }
    ensures short { IfSome result (λ link. IsShort link.1.now) }
{
    match content {
        Some(Content::Link(frame, name)) => Some((*frame, name.as_str())),
        Some(Content::Scalar(_)) => None,
        Some(Content::Array(_)) => None,
        None => None,
    }
}

/// What came of setting a text.
#[derive(Drop)]
pub(crate) enum Outcome {
    /// It is set, and there are so many variables more.
    Added(usize),
    /// Nothing is done, since the variable is a link. The text comes back.
    Linked(Text),
}

/// What came of unsetting.
pub(crate) enum Removal {
    /// The whole variable goes, which counts so many. It is still to be taken out of its frame.
    Whole(usize),
    /// An element is gone.
    Element,
    /// Nothing is done, since the variable is a link.
    Linked,
}

impl Content {
    /// How many variables it counts: one, and one more for each element.
    pub(crate) fn count(&self) -> usize
        ensures { result ≡ content_count self.now }
    {
        match self {
            Content::Scalar(_) => 1,
            Content::Array(elements) => elements.len() + 1,
            Content::Link(_, _) => 1,
        }
    }

    /// Sets the text, or that of an element, with room for so many more variables.
    pub(crate) fn put(
        &mut self,
        element: Option<&str>,
        value: Text,
        room: usize,
    ) -> Result<Outcome, SetFault>
        requires { IfSome (option_copied element) IsShort }
        ensures ok { IfOk result (λ done. AfterContent self.old (option_copied element.entry) value room done self.new) }
        ensures refused { IfErr result (λ fault. fault ≢ SetFault.NoMemory → RefusesContent self.old (option_copied element.entry) value room fault) }
        ensures err { OnErr result (self.new ≡ self.old) }
    {
        match (self, element) {
            (Content::Link(_, _), _) => Ok(Outcome::Linked(value)),
            (Content::Scalar(text), None) => {
                *text = value;
                Ok(Outcome::Added(0))
            }
            (Content::Scalar(_), Some(_)) => Err(SetFault::NotArray),
            (Content::Array(_), None) => Err(SetFault::IsArray),
            (Content::Array(elements), Some(index)) => {
                let added = put_element(elements, index, value, room)?;
                Ok(Outcome::Added(added))
            }
        }
    }

    /// Adds an amount to the integer that the text is, and gives the sum; none, and nothing is done, where there is no text, where it is no integer, or
    /// where 64 bits don't hold the sum.
    pub(crate) fn add(&mut self, alloc: Global, amount: i64) -> Result<Option<Text>, AllocError>
        ensures ok { IfOk result (λ sum. MatchOption sum (self.new ≡ self.old) (λ text. AddsContent self.old amount text self.new)) }
        ensures err { OnErr result (self.new ≡ self.old) }
    {
        match self {
            Content::Scalar(text) => {
                let Some(sum) = sum_with(alloc, text, amount)? else {
                    return Ok(None);
                };
                *text = sum.copy()?;
                Ok(Some(sum))
            }
            Content::Array(_) => Ok(None),
            Content::Link(_, _) => Ok(None),
        }
    }

    /// Changes the text, or that of an element; false, and nothing is done, where the content is a link.
    #[tactic(auto, using(crate::proofs::ChangeLemmas::contents))]
    pub(crate) fn change(
        &mut self,
        alloc: Global,
        element: Option<&str>,
        edit: Edit<'_>,
    ) -> Result<bool, ChangeFault>
        ensures ok { IfOk result (λ done. MatchBool done
            (ChangesContent self.old (option_copied element.entry) edit.entry self.new)
            ((link_of (Some self.old) ≢ None) × (self.new ≡ self.old))) }
        ensures refused { IfErr result (λ fault. fault ≢ ChangeFault.NoMemory → KeepsContent self.old (option_copied element.entry) edit.entry fault) }
        ensures err { OnErr result (self.new ≡ self.old) }
    {
        match (self, element) {
            (Content::Link(_, _), _) => Ok(false),
            (Content::Scalar(text), None) => {
                change_text(alloc, text, edit)?;
                Ok(true)
            }
            (Content::Scalar(_), Some(_)) => Err(ChangeFault::Unread(ReadFault::NotArray)),
            (Content::Array(_), None) => Err(ChangeFault::Unread(ReadFault::IsArray)),
            (Content::Array(elements), Some(index)) => {
                change_element(alloc, elements, index, edit)?;
                Ok(true)
            }
        }
    }

    /// Takes out an element, or tells how many variables go with the whole (unset(n)).
    pub(crate) fn unset(&mut self, element: Option<&str>) -> Result<Removal, UnsetFault>
        ensures ok { IfOk result (λ done. AfterUnset self.old (option_copied element.entry) done self.new) }
        ensures refused { IfErr result (λ fault. (link_of (Some self.old) ≡ None)
            × (content_without (Some self.old) (option_copied element.entry) ≡ Err fault)) }
        ensures err { OnErr result (self.new ≡ self.old) }
    {
        match (self, element) {
            (Content::Link(_, _), _) => Ok(Removal::Linked),
            (Content::Scalar(_), None) => Ok(Removal::Whole(1)),
            (Content::Scalar(_), Some(_)) => Err(UnsetFault::NotArray),
            (Content::Array(elements), None) => Ok(Removal::Whole(elements.len() + 1)),
            (Content::Array(elements), Some(index)) => {
                remove_element(elements, index)?;
                Ok(Removal::Element)
            }
        }
    }

    /// Takes out the elements whose indices match a pattern, and gives how many they were; none of what is no array.
    pub(crate) fn leave_out(&mut self, pattern: &Text) -> usize
        ensures content { self.new ≡ content_but pattern.now self.old }
        ensures counted { content_count self.new + result ≡ content_count self.old }
    {
        match self {
            Content::Scalar(_) => 0,
            Content::Array(elements) => leave_out(elements, pattern),
            Content::Link(_, _) => 0,
        }
    }
}

// Takes out the elements whose indices match a pattern, and gives how many they were.
fn leave_out(elements: &mut Table<Text>, pattern: &Text) -> usize
    ensures elements { elements.new ≡ values_but pattern.now elements.old }
    ensures counted { length elements.new + result ≡ length elements.old }
{
    let before = elements.len();
    elements.leave_out(pattern);
    before - elements.len()
}

// The sum of the integer that a text is and an amount, where 64 bits hold it.
fn sum_with(alloc: Global, text: &Text, amount: i64) -> Result<Option<Text>, AllocError>
    ensures { IfOk result (λ sum. IfSome sum (λ sum. IsSum text.now amount sum)) }
{
    let Some(number) = integer_in(text) else {
        return Ok(None);
    };
    let Some(sum) = number.checked_add(amount) else {
        return Ok(None);
    };
    let sum = Text::from_integer(alloc, sum)?;
    Ok(Some(sum))
}

// Sets an element, with room for so many more.
fn put_element(
    elements: &mut Table<Text>,
    index: &str,
    value: Text,
    room: usize,
) -> Result<usize, SetFault>
    requires { IsShort index.now }
    ensures ok { IfOk result (λ added. (elements.new ≡ with_value elements.old index.now value)
        × (length elements.new ≡ length elements.old + added) × (added ≤ room)) }
    ensures full { IfErr result (λ fault. fault ≢ SetFault.NoMemory →
        (fault ≡ SetFault.Full) × (length elements.old + room < length (with_value elements.old index.now value))) }
    ensures err { OnErr result (elements.new ≡ elements.old) }
{
    match elements.get_mut(index) {
        Some(held) => {
            *held = value;
            Ok(0)
        }
        None => {
            if room == 0 {
                return Err(SetFault::Full);
            }
            elements.insert(index, value)?;
            Ok(1)
        }
    }
}

// Changes a text.
#[tactic(auto, using(crate::proofs::ChangeLemmas::told))]
fn change_text(alloc: Global, text: &mut Text, edit: Edit<'_>) -> Result<(), ChangeFault>
    ensures ok { OnOk result (edited_by edit.entry (Ok text.old) ≡ Ok text.new) }
    ensures refused { IfErr result (λ fault. fault ≢ ChangeFault.NoMemory → edited_by edit.entry (Ok text.old) ≡ Err fault) }
    ensures err { OnErr result (text.new ≡ text.old) }
{
    match text.edit(alloc, edit) {
        Ok(()) => Ok(()),
        Err(EditFault::TooLong) => Err(ChangeFault::TooLong),
        Err(EditFault::BadList(fault)) => Err(ChangeFault::BadList(fault)),
        Err(EditFault::NoMemory) => Err(ChangeFault::NoMemory),
    }
}

// Changes an element.
fn change_element(
    alloc: Global,
    elements: &mut Table<Text>,
    index: &str,
    edit: Edit<'_>,
) -> Result<(), ChangeFault>
    ensures ok { OnOk result ((value : List ℕ)
        × (edited_by edit.entry (ok_or (value_at elements.old index.now) ReadFault.NoElement) ≡ Ok value)
        × (elements.new ≡ with_value elements.old index.now value) × (length elements.new ≡ length elements.old)) }
    ensures refused { IfErr result (λ fault. fault ≢ ChangeFault.NoMemory →
        edited_by edit.entry (ok_or (value_at elements.old index.now) ReadFault.NoElement) ≡ Err fault) }
    ensures err { OnErr result (elements.new ≡ elements.old) }
{
    match elements.get_mut(index) {
        Some(held) => {
            change_text(alloc, held, edit)?;
            Ok(())
        }
        None => Err(ChangeFault::Unread(ReadFault::NoElement)),
    }
}

// Takes an element out.
fn remove_element(elements: &mut Table<Text>, index: &str) -> Result<(), UnsetFault>
    ensures there { IsOk result ↔ IsSome (value_at elements.old index.now) }
    ensures ok { OnOk result ((elements.new ≡ without elements.old index.now) × (length elements.new + 1 ≡ length elements.old)) }
    ensures gone { OnOk result (value_at elements.new index.now ≡ None) }
    ensures absent { IfErr result (λ fault. fault ≡ UnsetFault.NoElement) }
    ensures err { OnErr result (elements.new ≡ elements.old) }
{
    let Some(_) = elements.remove(index) else {
        return Err(UnsetFault::NoElement);
    };
    Ok(())
}
