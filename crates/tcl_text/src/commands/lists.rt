//! The commands of list(n), llength(n), lindex(n), lrange(n), linsert(n), lreplace(n), lsearch(n)
//! and join(n).
ghost use Rattle.std.specs.Prelude.{◌≡◌, ◌+◌, ◌++◌, ◌<◌, ◌≤◌, length, position, IfOk, IfSome, IfNone, OnOk, string_bytes};
ghost use Rattle.tcl_text.specs.Answers.{Gives, answers};
ghost use Rattle.tcl_text.specs.Indices.{part};
ghost use Rattle.tcl_text.specs.Readings.{list_form};
ghost use Rattle.tcl_text.specs.ListCommands as spec;
ghost use Rattle.tcl_text.specs.Limits.{most_bytes};
ghost use Rattle.tcl_text.specs.ListSteps.{each_behind};

use crate::commands::answers::{
    Refusal, Reply, bad_option, copy_answer, decimal_answer, limit_reached, own_answer,
    place_answer, string_answer, text_answer, wrong_args,
};
use crate::commands::indices::{Index, index_in};
use crate::commands::items::{items_in, list_answer};
use crate::fault::TextFault;
use crate::lengths::longer;
use crate::list_string::ListString;
use crate::text::Text;
use std::alloc::{AllocError, Global};

/// `list ?value ..?`: the list of the words.
pub fn list_words(alloc: Global, words: &[Text]) -> Reply
    ensures { Gives result (spec.list_words words.now) }
{
    list_answer(alloc, words)
}

/// `llength list`: how many items the list has.
pub fn llength_words(alloc: Global, words: &[Text]) -> Reply
    ensures { Gives result (spec.llength_words words.now) }
{
    match words {
        [list] => {
            let count = item_count(alloc, list)?;
            decimal_answer(alloc, count)
        }
        _ => wrong_args(alloc, "llength list"),
    }
}

/// How many items the list has that a word is.
fn item_count(alloc: Global, list: &Text) -> Result<usize, Refusal>
    ensures { Gives result (spec.count_in list.now) }
{
    if let Some(kept) = list.as_list(alloc) {
        return Ok(kept.len());
    }
    let items = items_in(alloc, list)?;
    Ok(items.len())
}

/// `lindex list ?index?`: the item at the index, or the empty text where there is none. Without an
/// index it is the word itself, which need not be a list.
pub fn lindex_words(alloc: Global, words: &[Text]) -> Reply
    ensures { Gives result (spec.lindex_words words.now) }
{
    match words {
        [list] => copy_answer(list),
        [list, index] => item_of_word(alloc, list, index),
        _ => wrong_args(alloc, "lindex list ?index?"),
    }
}

/// The item at an index of the list that a word is.
fn item_of_word(alloc: Global, list: &Text, index: &Text) -> Reply
    ensures { Gives result (spec.of_items (spec.item_at index.now) list.now) }
{
    if let Some(kept) = list.as_list(alloc) {
        return item_of_kept(alloc, kept, index);
    }
    let items = items_in(alloc, list)?;
    item_of_items(alloc, items.as_slice(), index)
}

fn item_of_kept(alloc: Global, list: &ListString, index: &Text) -> Reply
    ensures { Gives result (spec.item_at index.now list.now) }
{
    let index = index_in(alloc, index)?;
    kept_item_answer(alloc, list, index)
}

/// The item of a kept list at an index, or the empty text where there is none.
fn kept_item_answer(alloc: Global, list: &ListString, index: Index) -> Reply
    ensures { Gives result (answers (spec.item_or_empty (part index index list.now))) }
{
    let count = list.len();
    let number = index.before(count);
    let end = index.through(count);
    if number < end {
        let item = list.item(alloc, number)?;
        own_answer(item)
    } else {
        text_answer(alloc, "")
    }
}

fn item_of_items(alloc: Global, items: &[Text], index: &Text) -> Reply
    ensures { Gives result (spec.item_at index.now items.now) }
{
    let index = index_in(alloc, index)?;
    match items_between(items, index, index) {
        [item, ..] => copy_answer(item),
        [] => text_answer(alloc, ""),
    }
}

/// The items from the first index to the last, as far as they are there.
fn items_between(items: &[Text], first: Index, last: Index) -> &[Text]
    ensures { result.now ≡ part first last items.now }
{
    let end = last.through(items.len());
    let start = first.before(items.len()).min(end);
    &items[start..end]
}

/// `lrange list first last`: the items from one index to another, as a list.
pub fn lrange_words(alloc: Global, words: &[Text]) -> Reply
    ensures { Gives result (spec.lrange_words words.now) }
{
    match words {
        [list, first, last] => range_of_word(alloc, list, first, last),
        _ => wrong_args(alloc, "lrange list first last"),
    }
}

/// The list of the items from one index to another of the list that a word is.
fn range_of_word(alloc: Global, list: &Text, first: &Text, last: &Text) -> Reply
    ensures { Gives result (spec.of_items (spec.range_of first.now last.now) list.now) }
{
    if let Some(kept) = list.as_list(alloc) {
        return range_of_kept(alloc, kept, first, last);
    }
    let items = items_in(alloc, list)?;
    range_of_items(alloc, items.as_slice(), first, last)
}

fn range_of_kept(alloc: Global, list: &ListString, first: &Text, last: &Text) -> Reply
    ensures { Gives result (spec.range_of first.now last.now list.now) }
{
    let first = index_in(alloc, first)?;
    let last = index_in(alloc, last)?;
    kept_range_answer(alloc, list, first, last)
}

/// The list of the items of a kept list from one index to another.
fn kept_range_answer(alloc: Global, list: &ListString, first: Index, last: Index) -> Reply
    ensures { Gives result (answers (list_form (part first last list.now))) }
{
    let count = list.len();
    let end = last.through(count);
    let begin = first.before(count);
    let start = begin.min(end);
    let part = list.part(alloc, start, end)?;
    kept_answer(alloc, part)
}

fn range_of_items(alloc: Global, items: &[Text], first: &Text, last: &Text) -> Reply
    ensures { Gives result (spec.range_of first.now last.now items.now) }
{
    let first = index_in(alloc, first)?;
    let last = index_in(alloc, last)?;
    list_answer(alloc, items_between(items, first, last))
}

/// A list that is kept, as an answer.
#[tactic(auto, using(crate::proofs::AnswerLemmas::bounds))]
fn kept_answer(alloc: Global, list: ListString) -> Reply
    ensures { Gives result (answers (list_form list)) }
{
    Ok(Text::of_list(alloc, list)?)
}

/// `linsert list index ?value ..?`: the list with the values put in before the item at the index;
/// `end` puts them behind the last.
pub fn linsert_words(alloc: Global, words: &[Text]) -> Reply
    ensures { Gives result (spec.linsert_words words.now) }
{
    match words {
        [list, index, values @ ..] => insert_into_word(alloc, list, index, values),
        _ => wrong_args(alloc, "linsert list index ?value ..?"),
    }
}

/// The list that a word is, with values put in before an index.
fn insert_into_word(alloc: Global, list: &Text, index: &Text, values: &[Text]) -> Reply
    ensures { Gives result (spec.of_items (spec.inserted index.now values.now) list.now) }
{
    if let Some(kept) = list.as_list(alloc) {
        return insert_into_kept(alloc, kept, index, values);
    }
    let items = items_in(alloc, list)?;
    insert_into_items(alloc, items.as_slice(), index, values)
}

fn insert_into_kept(alloc: Global, list: &ListString, index: &Text, values: &[Text]) -> Reply
    ensures { Gives result (spec.inserted index.now values.now list.now) }
{
    let index = index_in(alloc, index)?;
    let place = index.before_inserted(list.len());
    splice_of_kept(alloc, list, place, place, values)
}

fn insert_into_items(alloc: Global, items: &[Text], index: &Text, values: &[Text]) -> Reply
    ensures { Gives result (spec.inserted index.now values.now items.now) }
{
    let index = index_in(alloc, index)?;
    let place = index.before_inserted(items.len());
    splice_answer(alloc, items, place, place, values)
}

/// `lreplace list first last ?value ..?`: the list with the values in place of the items from one
/// index to another; with the last before the first they go before the first.
pub fn lreplace_words(alloc: Global, words: &[Text]) -> Reply
    ensures { Gives result (spec.lreplace_words words.now) }
{
    match words {
        [list, first, last, values @ ..] => replace_in_word(alloc, list, first, last, values),
        _ => wrong_args(alloc, "lreplace list first last ?value ..?"),
    }
}

/// The list that a word is, with values in place of the items from one index to another.
fn replace_in_word(alloc: Global, list: &Text, first: &Text, last: &Text, values: &[Text]) -> Reply
    ensures { Gives result (spec.of_items (spec.replaced first.now last.now values.now) list.now) }
{
    if let Some(kept) = list.as_list(alloc) {
        return replace_kept(alloc, kept, first, last, values);
    }
    let items = items_in(alloc, list)?;
    replace_items(alloc, items.as_slice(), first, last, values)
}

fn replace_kept(
    alloc: Global,
    list: &ListString,
    first: &Text,
    last: &Text,
    values: &[Text],
) -> Reply
    ensures { Gives result (spec.replaced first.now last.now values.now list.now) }
{
    let from = index_in(alloc, first)?.before(list.len());
    let to = from.max(index_in(alloc, last)?.through(list.len()));
    splice_of_kept(alloc, list, from, to, values)
}

fn replace_items(alloc: Global, items: &[Text], first: &Text, last: &Text, values: &[Text]) -> Reply
    ensures { Gives result (spec.replaced first.now last.now values.now items.now) }
{
    let from = index_in(alloc, first)?.before(items.len());
    let to = from.max(index_in(alloc, last)?.through(items.len()));
    splice_answer(alloc, items, from, to, values)
}

/// The list with the values in place of the items between two places.
#[tactic(auto, using(crate::proofs::AnswerLemmas::bounds))]
fn splice_of_kept(
    alloc: Global,
    list: &ListString,
    from: usize,
    to: usize,
    values: &[Text],
) -> Reply
    requires in_order { from ≤ to }
    requires within { to ≤ length list.now }
    ensures { Gives result (answers (list_form (spec.spliced list.now from to values.now))) }
{
    match list.spliced(alloc, from, to, values) {
        Ok(list) => kept_answer(alloc, list),
        Err(TextFault::TooLong) => Err(limit_reached(alloc)),
        Err(TextFault::NoMemory) => Err(Refusal::NoMemory),
    }
}

/// The list of the items with the values in place of those between two places.
fn splice_answer(alloc: Global, items: &[Text], from: usize, to: usize, values: &[Text]) -> Reply
    requires in_order { from ≤ to }
    requires within { to ≤ length items.now }
    ensures { Gives result (answers (list_form (spec.spliced items.now from to values.now))) }
{
    let mut spliced = Vec::new(alloc);
    push_copies(&mut spliced, &items[..from])?;
    push_copies(&mut spliced, values)?;
    push_copies(&mut spliced, &items[to..])?;
    list_answer(alloc, spliced.as_slice())
}

/// Adds copies of the texts, which share their characters.
fn push_copies(list: &mut Vec<Text>, texts: &[Text]) -> Result<(), AllocError>
    ensures { OnOk result (list.new.items ≡ list.old.items ++ texts.now) }
{
    for text in texts {
        list.push(text.copy()?)?;
    }
    Ok(())
}

/// `lsearch ?-exact|-glob? list pattern`: the place of the first item that matches, or -1.
pub fn lsearch_words(alloc: Global, words: &[Text]) -> Reply
    ensures { Gives result (spec.lsearch_words words.now) }
{
    match words {
        [list, pattern] => search_glob(alloc, list, pattern),
        [option, list, pattern] => search_by(alloc, option, list, pattern),
        _ => wrong_args(alloc, "lsearch ?-exact|-glob? list pattern"),
    }
}

/// The place of the first item that matches in the way that the option names.
#[tactic(auto, unfolding(crate::specs::ListCommands::search_by))]
fn search_by(alloc: Global, option: &Text, list: &Text, pattern: &Text) -> Reply
    ensures { Gives result (spec.search_by option.now pattern.now list.now) }
{
    match option.as_str() {
        "-exact" => search_exact(alloc, list, pattern),
        "-glob" => search_glob(alloc, list, pattern),
        _ => bad_option(alloc, option),
    }
}

fn search_exact(alloc: Global, list: &Text, pattern: &Text) -> Reply
    ensures { Gives result (spec.search_in (spec.is_exactly pattern.now) list.now) }
{
    let items = items_in(alloc, list)?;
    place_answer(alloc, place_of_equal(items.as_slice(), pattern))
}

fn search_glob(alloc: Global, list: &Text, pattern: &Text) -> Reply
    ensures { Gives result (spec.search_in (spec.is_like pattern.now) list.now) }
{
    let items = items_in(alloc, list)?;
    place_answer(alloc, place_of_match(items.as_slice(), pattern))
}

fn place_of_equal(items: &[Text], pattern: &Text) -> Option<usize>
    ensures { result ≡ position (spec.is_exactly pattern.now) items.now }
{
    items
        .iter()
        .position(|item| item.as_str() == pattern.as_str())
}

fn place_of_match(items: &[Text], pattern: &Text) -> Option<usize>
    ensures { result ≡ position (spec.is_like pattern.now) items.now }
{
    items
        .iter()
        .position(|item| Text::glob_match(pattern, item))
}

/// `join list ?text?`: the items with the text, or a blank, between each two.
pub fn join_words(alloc: Global, words: &[Text]) -> Reply
    ensures { Gives result (spec.join_words words.now) }
{
    match words {
        [list] => join_list_by(alloc, list, " "),
        [list, between] => join_list_by(alloc, list, between.as_str()),
        _ => wrong_args(alloc, "join list ?text?"),
    }
}

fn join_list_by(alloc: Global, list: &Text, between: &str) -> Reply
    ensures { Gives result (spec.join_list_by list.now between.now) }
{
    let items = items_in(alloc, list)?;
    joined_answer(alloc, between, items.as_slice())
}

/// The items with the text between each two. What is too long is refused before a byte of it is asked for.
fn joined_answer(alloc: Global, between: &str, items: &[Text]) -> Reply
    ensures { Gives result (answers (spec.joined between.now items.now)) }
{
    let Some(size) = joined_len(between, items) else {
        return Err(limit_reached(alloc));
    };
    let string = joined(alloc, size, between, items)?;
    string_answer(alloc, string)
}

/// How long the items are with the text between each two; none past 65,536 bytes.
fn joined_len(between: &str, items: &[Text]) -> Option<usize>
    ensures exact { IfSome result (λ size. size ≡ length (spec.joined between.now items.now)) }
    ensures none { IfNone result (most_bytes < length (spec.joined between.now items.now)) }
{
    match items.split_first() {
        Some((first, others)) => len_behind(first.as_str().len(), between, others),
        None => Some(0),
    }
}

/// How long a text of this length is with the items behind it, each behind another text; none past 65,536 bytes.
fn len_behind(text: usize, between: &str, items: &[Text]) -> Option<usize>
    requires { text ≤ most_bytes }
    ensures exact { IfSome result (λ size. size ≡ text + length (each_behind between.now items.now)) }
    ensures none { IfNone result (most_bytes < text + length (each_behind between.now items.now)) }
{
    let mut size = text;
    for item in items {
        size = longer(longer(size, between.len())?, item.as_str().len())?;
    }
    Some(size)
}

/// The items with the text between each two, for which so many bytes are asked for at once.
fn joined(alloc: Global, size: usize, between: &str, items: &[Text]) -> Result<String, AllocError>
    ensures { IfOk result (λ string. string_bytes string ≡ spec.joined between.now items.now) }
{
    let mut string = String::with_capacity(alloc, size)?;
    let Some((first, others)) = items.split_first() else {
        return Ok(string);
    };
    string.push_str(first.as_str())?;
    push_behind(&mut string, between, others)?;
    Ok(string)
}

/// Adds the items, each behind another text.
fn push_behind(string: &mut String, between: &str, items: &[Text]) -> Result<(), AllocError>
    ensures { OnOk result
        (string_bytes string.new ≡ string_bytes string.old ++ each_behind between.now items.now) }
{
    for item in items {
        string.push_str(between)?;
        string.push_str(item.as_str())?;
    }
    Ok(())
}
