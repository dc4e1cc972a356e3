//! The sub-commands of a listbox (listbox(n)).
ghost use Rattle.std.specs.Prelude.{◌≡◌, map, IfOk};
ghost use Rattle.std.specs.Fmt.{decimal};
ghost use Rattle.tcl_text.specs.Answers.{Gives, answers};
ghost use Rattle.tk_widgets.specs.ListboxCommands as spec;

use crate::outcome::{WidgetChange, WidgetRequest, told};
use crate::{Choice, ItemIndex, Listbox};
use itoa::Buffer;
use std::alloc::{AllocError, Global};
use tcl_text::answers::{
    Refusal, bad_index, bad_option, copy_answer, decimal_answer, text_answer, truth_answer,
    wrong_args,
};
use tcl_text::items::list_answer;
use tcl_text::{Text, TextList};

/// The items from a place on and before another.
#[derive(Clone, Copy)]
pub struct ItemRange {
    pub from: usize,
    pub to: usize,
}

/// The sub-command of a name, with the words behind it.
#[tactic(auto, unfolding(crate::specs::ListboxCommands::listbox_words))]
pub fn listbox_words(
    alloc: Global,
    listbox: &Listbox,
    name: &Text,
    words: &[Text],
) -> Result<WidgetRequest, Refusal>
    ensures { Gives result (spec.listbox_words name.now words.now listbox.now) }
{
    match name.as_str() {
        "insert" => list_insert(alloc, listbox, words),
        "delete" => list_delete(alloc, listbox, words),
        "get" => list_get(alloc, listbox, words),
        "size" => list_size(alloc, listbox, words),
        "index" => list_index(alloc, listbox, words),
        "curselection" => list_curselection(alloc, listbox, words),
        "selection" => list_selection(alloc, listbox, words),
        "activate" => list_activate(alloc, listbox, words),
        _ => bad_option(alloc, name),
    }
}

/// The index that a word is, or the error that it is none.
#[tactic(auto, unfolding(crate::specs::ListboxCommands::index_of))]
fn index_of(alloc: Global, word: &Text) -> Result<ItemIndex, Refusal>
    ensures { Gives result (spec.index_of word.now) }
{
    match ItemIndex::read(word) {
        Some(index) => Ok(index),
        None => bad_index(alloc, word),
    }
}

/// The items from one index to another, with both.
fn span_of(
    alloc: Global,
    listbox: &Listbox,
    first: &Text,
    last: &Text,
) -> Result<ItemRange, Refusal>
    ensures { Gives result (spec.span_of first.now last.now listbox.now) }
{
    let first = index_of(alloc, first)?;
    let last = index_of(alloc, last)?;
    Ok(ItemRange {
        from: first.before(listbox.size(), listbox.active()),
        to: last.through(listbox.size(), listbox.active()),
    })
}

/// The items that one index names, or two with those between them; else the usage is told.
fn range_in(
    alloc: Global,
    listbox: &Listbox,
    words: &[Text],
    usage: &str,
) -> Result<ItemRange, Refusal>
    ensures { Gives result (spec.range_in words.now usage.now listbox.now) }
{
    match words {
        [first] => span_of(alloc, listbox, first, first),
        [first, last] => span_of(alloc, listbox, first, last),
        _ => wrong_args(alloc, usage),
    }
}

/// The one index that the words are; else the usage is told.
fn index_in(alloc: Global, words: &[Text], usage: &str) -> Result<ItemIndex, Refusal>
    ensures { Gives result (spec.index_in words.now usage.now) }
{
    match words {
        [index] => index_of(alloc, index),
        _ => wrong_args(alloc, usage),
    }
}

fn list_insert(alloc: Global, listbox: &Listbox, words: &[Text]) -> Result<WidgetRequest, Refusal>
    ensures { Gives result (spec.list_insert words.now listbox.now) }
{
    match words {
        [index, items @ ..] => {
            let index = index_of(alloc, index)?;
            let items = copies(alloc, items)?;
            let at = index.before_inserted(listbox.size(), listbox.active());
            Ok(WidgetRequest::Wants(WidgetChange::InsertItems { at, items }))
        }
        [] => wrong_args(alloc, "path insert index ?text ..?"),
    }
}

/// Copies of texts.
fn copies(alloc: Global, texts: &[Text]) -> Result<TextList, AllocError>
    ensures { IfOk result (λ list. list ≡ texts.now) }
{
    let mut list = TextList::with_capacity(alloc, texts.len())?;
    for text in texts {
        list.push(text.copy()?)?;
    }
    Ok(list)
}

fn list_delete(alloc: Global, listbox: &Listbox, words: &[Text]) -> Result<WidgetRequest, Refusal>
    ensures { Gives result (spec.list_delete words.now listbox.now) }
{
    let ItemRange { from, to } = range_in(alloc, listbox, words, "path delete first ?last?")?;
    Ok(WidgetRequest::Wants(WidgetChange::DeleteItems { from, to }))
}

fn list_get(alloc: Global, listbox: &Listbox, words: &[Text]) -> Result<WidgetRequest, Refusal>
    ensures { Gives result (spec.list_get words.now listbox.now) }
{
    match words {
        [index] => {
            let ItemRange { from, to } = span_of(alloc, listbox, index, index)?;
            let texts = listbox.get(alloc, from, to)?;
            let text = first_of(alloc, texts.as_slice())?;
            Ok(told(text))
        }
        [first, last] => {
            let ItemRange { from, to } = span_of(alloc, listbox, first, last)?;
            let texts = listbox.get(alloc, from, to)?;
            let text = list_answer(alloc, texts.as_slice())?;
            Ok(told(text))
        }
        _ => wrong_args(alloc, "path get first ?last?"),
    }
}

/// The first of some texts, or the empty text.
fn first_of(alloc: Global, texts: &[Text]) -> Result<Text, Refusal>
    ensures { Gives result (answers (spec.first_of texts.now)) }
{
    match texts {
        [first, ..] => copy_answer(first),
        [] => text_answer(alloc, ""),
    }
}

fn list_size(alloc: Global, listbox: &Listbox, words: &[Text]) -> Result<WidgetRequest, Refusal>
    ensures { Gives result (spec.list_size words.now listbox.now) }
{
    match words {
        [] => {
            let text = decimal_answer(alloc, listbox.size())?;
            Ok(told(text))
        }
        _ => wrong_args(alloc, "path size"),
    }
}

fn list_index(alloc: Global, listbox: &Listbox, words: &[Text]) -> Result<WidgetRequest, Refusal>
    ensures { Gives result (spec.list_index words.now listbox.now) }
{
    let index = index_in(alloc, words, "path index index")?;
    Ok(told(number_of(alloc, listbox, index)?))
}

/// The number of an index, which isn't cut to the items.
fn number_of(alloc: Global, listbox: &Listbox, index: ItemIndex) -> Result<Text, Refusal>
    ensures { Gives result (answers (spec.number_of index listbox.now)) }
{
    match index {
        ItemIndex::Number(number) => copy_answer(&Text::from_integer(alloc, number)?),
        ItemIndex::Active => decimal_answer(alloc, listbox.active()),
        ItemIndex::End => decimal_answer(alloc, listbox.size()),
    }
}

fn list_curselection(
    alloc: Global,
    listbox: &Listbox,
    words: &[Text],
) -> Result<WidgetRequest, Refusal>
    ensures { Gives result (spec.list_curselection words.now listbox.now) }
{
    match words {
        [] => {
            let places = listbox.selection(alloc)?;
            let numbers = decimals(alloc, &places)?;
            let text = list_answer(alloc, numbers.as_slice())?;
            Ok(told(text))
        }
        _ => wrong_args(alloc, "path curselection"),
    }
}

/// Numbers in decimal.
fn decimals(alloc: Global, numbers: &[usize]) -> Result<TextList, AllocError>
    ensures { IfOk result (λ list. list ≡ map decimal numbers.now) }
{
    let mut list = TextList::with_capacity(alloc, numbers.len())?;
    for number in numbers {
        list.push(decimal_text(alloc, *number)?)?;
    }
    Ok(list)
}

/// A number in decimal.
fn decimal_text(alloc: Global, number: usize) -> Result<Text, AllocError>
    ensures { IfOk result (λ text. text ≡ decimal number) }
{
    let mut buffer = Buffer::new();
    match Text::new(alloc, buffer.format(number)) {
        Ok(text) => Ok(text),
        Err(_) => Err(AllocError),
    }
}

fn list_selection(
    alloc: Global,
    listbox: &Listbox,
    words: &[Text],
) -> Result<WidgetRequest, Refusal>
    ensures { Gives result (spec.list_selection words.now listbox.now) }
{
    match words {
        [name, words @ ..] => selection_words(alloc, listbox, name, words),
        [] => wrong_args(alloc, "path selection set|clear first ?last?"),
    }
}

/// The form of `selection` of a name, with the words behind it.
#[tactic(auto, unfolding(crate::specs::ListboxCommands::selection_words))]
fn selection_words(
    alloc: Global,
    listbox: &Listbox,
    name: &Text,
    words: &[Text],
) -> Result<WidgetRequest, Refusal>
    ensures { Gives result (spec.selection_words name.now words.now listbox.now) }
{
    match name.as_str() {
        "set" => selection_set(alloc, listbox, words),
        "clear" => selection_clear(alloc, listbox, words),
        "includes" => selection_includes(alloc, listbox, words),
        _ => bad_option(alloc, name),
    }
}

fn selection_set(alloc: Global, listbox: &Listbox, words: &[Text]) -> Result<WidgetRequest, Refusal>
    ensures { Gives result (spec.selection_set words.now listbox.now) }
{
    let ItemRange { from, to } = range_in(
        alloc,
        listbox,
        words,
        "path selection set first ?last?",
    )?;
    Ok(WidgetRequest::Wants(WidgetChange::Select(Choice::Set { from, to })))
}

fn selection_clear(
    alloc: Global,
    listbox: &Listbox,
    words: &[Text],
) -> Result<WidgetRequest, Refusal>
    ensures { Gives result (spec.selection_clear words.now listbox.now) }
{
    let ItemRange { from, to } = range_in(
        alloc,
        listbox,
        words,
        "path selection clear first ?last?",
    )?;
    Ok(WidgetRequest::Wants(WidgetChange::Select(Choice::Clear { from, to })))
}

fn selection_includes(
    alloc: Global,
    listbox: &Listbox,
    words: &[Text],
) -> Result<WidgetRequest, Refusal>
    ensures { Gives result (spec.selection_includes words.now listbox.now) }
{
    match words {
        [index] => {
            let ItemRange { from, to } = span_of(alloc, listbox, index, index)?;
            let text = truth_answer(alloc, listbox.includes(from, to))?;
            Ok(told(text))
        }
        _ => wrong_args(alloc, "path selection includes index"),
    }
}

fn list_activate(alloc: Global, listbox: &Listbox, words: &[Text]) -> Result<WidgetRequest, Refusal>
    ensures { Gives result (spec.list_activate words.now listbox.now) }
{
    let index = index_in(alloc, words, "path activate index")?;
    let place = index.before(listbox.size(), listbox.active());
    Ok(WidgetRequest::Wants(WidgetChange::Activate(place)))
}
