ghost use Rattle.std.specs.Prelude.{◌≡◌, ◌≢◌, ◌++◌, ◌∷◌, [], ◌<◌, ◌≤◌, take, drop, length, true, slice_index, string_bytes, IfOk, IfErr, OnOk, OnErr, not};
ghost use Rattle.std.specs.List.{list_all};
ghost use Rattle.tcl_text.specs.Backslash as backslash;
ghost use Rattle.tcl_text.specs.Limits.{most_bytes};
ghost use Rattle.tcl_text.specs.ListForm.{Joins, StopsAtSpecial, form_text};
ghost use Rattle.tcl_text.specs.Readings as readings;

use crate::fault::TextFault;
use crate::list_string::ListString;
use crate::splitting::brace_step;
use crate::text::Text;
use crate::white_space::is_white;
use std::alloc::{AllocError, Global};

/// How an item is written as an element.
#[derive(Clone, Copy)]
enum ElementForm {
    /// As `{}`, being empty.
    Empty,
    /// As it is.
    Bare,
    /// In braces.
    Braced,
    /// With backslashes, also before the `#` that it begins with.
    Comment,
    /// With backslashes.
    Backslashed,
}

/// Whether a list gives the byte a meaning, so that it can't stand in a bare element by itself.
fn is_special(byte: u8) -> bool
    ensures { result ≡ readings.is_special byte }
{
    is_white(byte) || matches!(byte, b'"' | b'$' | b';' | b'[' | b'\\' | b']' | b'{' | b'}')
}

/// How many bytes stand before the first special one.
#[tactic(auto, using(crate::proofs::ListFormLemmas::plain_runs))]
fn plain_len(item: &[u8]) -> usize
    ensures { StopsAtSpecial item.now result }
{
    for (at, byte) in item.iter().enumerate() {
        if is_special(*byte) {
            return at;
        }
    }
    item.len()
}

/// Whether each brace has its match, those behind backslashes aside.
fn is_balanced(item: &[u8]) -> bool
    ensures { result ≡ readings.are_balanced 0 (backslash.marks item.now) }
{
    let mut depth = 0;
    let mut at = 0;
    while at < item.len() {
        let Some((length, next)) = brace_step(&item[at..], depth) else {
            return false;
        };
        at += length;
        depth = next;
    }
    depth == 0
}

/// Whether a backslash stands before a newline or at the end.
fn has_joined_line(item: &[u8]) -> bool
    ensures { result ≡ readings.has_joined_line item.now }
{
    let mut rest = item;
    while let Some((first, others)) = rest.split_first() {
        if *first == b'\\' && (others.is_empty() || others[0] == b'\n') {
            return true;
        }
        rest = others;
    }
    false
}

/// Whether the item begins as a comment would.
fn begins_comment(item: &[u8]) -> bool
    ensures { result ≡ readings.begins_comment item.now }
{
    match item.first() {
        Some(byte) => *byte == b'#',
        None => false,
    }
}

/// Whether no byte is special.
fn is_plain(item: &[u8]) -> bool
    ensures { result ≡ list_all (λ c. not (readings.is_special c)) item.now }
{
    item.iter().all(|byte| !is_special(*byte))
}

/// Whether the item can stand as it is.
fn can_be_bare(item: &[u8]) -> bool
    ensures { result ≡ readings.can_be_bare item.now }
{
    !begins_comment(item) && is_plain(item)
}

/// Whether an item is written as it is.
#[tactic(auto, using(crate::proofs::ListFormLemmas::bare_form))]
pub fn stands_bare(item: &str) -> bool
    ensures { result ≡ true → readings.element_form item.now ≡ item.now }
{
    let bytes = item.as_bytes();
    !bytes.is_empty() && can_be_bare(bytes)
}

/// Whether the item can stand in braces.
fn can_be_braced(item: &[u8]) -> bool
    ensures { result ≡ readings.can_be_braced item.now }
{
    is_balanced(item) && !has_joined_line(item)
}

/// How an item is written as an element.
fn form_of(item: &[u8]) -> ElementForm
    ensures { readings.element_form item.now ≡ form_text result item.now }
{
    if item.is_empty() {
        ElementForm::Empty
    } else if can_be_bare(item) {
        ElementForm::Bare
    } else if can_be_braced(item) {
        ElementForm::Braced
    } else if begins_comment(item) {
        ElementForm::Comment
    } else {
        ElementForm::Backslashed
    }
}

/// The letter that stands for a byte behind a backslash, or the byte itself.
fn letter_of(byte: u8) -> u8
    ensures { result ≡ readings.letter_of byte }
{
    match byte {
        b'\n' => b'n',
        b'\t' => b't',
        11 => b'v',
        12 => b'f',
        b'\r' => b'r',
        other => other,
    }
}

/// Adds an item with a backslash before each special byte.
fn push_backslashed(form: &mut String, item: &str) -> Result<(), AllocError>
    ensures { OnOk result (string_bytes form.new ≡ string_bytes form.old ++ readings.with_backslashes item.now) }
{
    let mut rest = item;
    loop {
        let run = plain_len(rest.as_bytes());
        form.push_str(&rest[..run])?;
        if run == rest.len() {
            return Ok(());
        }
        form.push('\\')?;
        form.push(char::from(letter_of(rest.as_bytes()[run])))?;
        rest = &rest[run + 1..];
    }
}

/// Adds an item as it is written as an element.
pub fn push_element(form: &mut String, item: &str) -> Result<(), AllocError>
    ensures { OnOk result (string_bytes form.new ≡ string_bytes form.old ++ readings.element_form item.now) }
{
    match form_of(item.as_bytes()) {
        ElementForm::Empty => form.push_str("{}")?,
        ElementForm::Bare => form.push_str(item)?,
        ElementForm::Braced => {
            form.push('{')?;
            form.push_str(item)?;
            form.push('}')?;
        }
        ElementForm::Comment => {
            form.push('\\')?;
            push_backslashed(form, item)?;
        }
        ElementForm::Backslashed => push_backslashed(form, item)?,
    }
    Ok(())
}

impl Text {
    /// The list of these items, as Tcl's list(n) writes one: each as it is where it can stand bare, else in braces, else with
    /// backslashes, and a blank between each two. `TooLong` (4) where that passes 65,536 bytes.
    pub fn join_list(alloc: Global, items: &[Text]) -> Result<Text, TextFault>
        ensures { Joins result (readings.list_form items.now) }
    {
        let list = ListString::new(alloc, items)?;
        Ok(Text::of_list(alloc, list)?)
    }

    /// The text as an element of a list: the list of this item alone. `TooLong` (4) where that passes 65,536 bytes.
    #[tactic(auto, using(crate::proofs::ListFormLemmas::list_form_one))]
    pub fn list_element(&self, alloc: Global) -> Result<Text, TextFault>
        ensures ok { IfOk result (λ text. text ≡ readings.list_form (self.now ∷ [])) }
        ensures too_long { IfErr result (λ fault. fault ≢ TextFault.NoMemory
            → most_bytes < length (readings.list_form (self.now ∷ []))) }
    {
        let mut form = String::new(alloc);
        push_element(&mut form, self.as_str())?;
        Text::from_string(alloc, form)
    }
}
