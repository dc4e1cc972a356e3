//! The commands of array(n).
ghost use Rattle.std.specs.Prelude.{◌≡◌, ◌<◌, length, map, filter, IfOk};
ghost use Rattle.std.specs.Option.{option_copied};
ghost use Rattle.tcl_text.specs.Answers.{Gives, items_in as items_of};
ghost use Rattle.tcl_vars.specs.Store.{elements_in, pairs_of};
ghost use Rattle.tcl_vars.specs.Texts.{element_name as named};
ghost use Rattle.tcl_commands.specs.Done.{each_done, pairs};
ghost use Rattle.tcl_commands.specs.Refusals.{Does, Steps};
ghost use Rattle.tcl_commands.specs.Texts.{cannot_set};
ghost use Rattle.tcl_commands.specs.Arrays as spec;
ghost use Rattle.tcl_commands.specs.ArraySteps.{pairs_matching};

use crate::texts::cannot_set;
use crate::unset::unset_one;
use std::alloc::{AllocError, Global};
use tcl_text::answers::{
    Refusal, Reply, bad_option, decimal_answer, limit_reached, missing_value, truth_answer,
    wrong_args,
};
use tcl_text::items::{items_in, list_answer};
use tcl_text::{MAX_BYTES, Text, TextList};
use tcl_vars::{Scopes, SetFault, element_name};

/// A command of `array`.
#[derive(Clone, Copy)]
pub enum ArrayCommand {
    Exists,
    Names,
    Get,
    Set,
    Unset,
    Size,
}

/// `array option ?arg ..?`.
#[tactic(auto, using(crate::proofs::DoneLemmas::kept))]
pub fn array_words(alloc: Global, scopes: &mut Scopes, frame: usize, words: &[Text]) -> Reply
    requires { frame < length scopes.old }
    ensures does { Does result scopes.new (spec.array_words frame words.now scopes.old) }
    ensures levels { length scopes.new ≡ length scopes.old }
{
    let Some((name, words)) = words.split_first() else {
        return wrong_args(alloc, "array option ?arg ..?");
    };
    match ArrayCommand::named(name.as_str()) {
        Some(command) => command.done(alloc, scopes, frame, words),
        None => bad_option(alloc, name),
    }
}

impl ArrayCommand {
    /// The sub-command of this name.
    #[tactic(auto, unfolding(crate::specs::Arrays::array_command_named))]
    fn named(name: &str) -> Option<ArrayCommand>
        ensures { result ≡ spec.array_command_named name.now }
    {
        match name {
            "exists" => Some(ArrayCommand::Exists),
            "names" => Some(ArrayCommand::Names),
            "get" => Some(ArrayCommand::Get),
            "set" => Some(ArrayCommand::Set),
            "unset" => Some(ArrayCommand::Unset),
            "size" => Some(ArrayCommand::Size),
            _ => None,
        }
    }

    /// What a sub-command does, called with the words after its name.
    #[tactic(auto, using(crate::proofs::DoneLemmas::kept))]
    fn done(self, alloc: Global, scopes: &mut Scopes, frame: usize, words: &[Text]) -> Reply
        requires { frame < length scopes.old }
        ensures does { Does result scopes.new (spec.array_done self frame words.now scopes.old) }
        ensures levels { length scopes.new ≡ length scopes.old }
    {
        match self {
            ArrayCommand::Exists => array_exists(alloc, scopes, frame, words),
            ArrayCommand::Names => array_names(alloc, scopes, frame, words),
            ArrayCommand::Get => array_get(alloc, scopes, frame, words),
            ArrayCommand::Set => array_set(alloc, scopes, frame, words),
            ArrayCommand::Unset => array_unset(alloc, scopes, frame, words),
            ArrayCommand::Size => array_size(alloc, scopes, frame, words),
        }
    }
}

fn array_exists(alloc: Global, scopes: &Scopes, frame: usize, words: &[Text]) -> Reply
    requires { frame < length scopes.now }
    ensures { Gives result (spec.array_exists frame words.now scopes.now) }
{
    match words {
        [name] => truth_answer(alloc, scopes.has_array(frame, name)),
        _ => wrong_args(alloc, "array exists name"),
    }
}

fn array_size(alloc: Global, scopes: &Scopes, frame: usize, words: &[Text]) -> Reply
    requires { frame < length scopes.now }
    ensures { Gives result (spec.array_size frame words.now scopes.now) }
{
    match words {
        [name] => decimal_answer(alloc, scopes.array_size(frame, name)),
        _ => wrong_args(alloc, "array size name"),
    }
}

fn array_names(alloc: Global, scopes: &Scopes, frame: usize, words: &[Text]) -> Reply
    requires { frame < length scopes.now }
    ensures { Gives result (spec.array_names frame words.now scopes.now) }
{
    match words {
        [name] => {
            let names = scopes.array_names(frame, name)?;
            list_answer(alloc, names.as_slice())
        }
        [name, pattern] => {
            let names = names_wanted(alloc, scopes, frame, name, pattern)?;
            list_answer(alloc, names.as_slice())
        }
        _ => wrong_args(alloc, "array names name ?pattern?"),
    }
}

/// The indices of an array that match a pattern.
#[tactic(auto, using(crate::proofs::ArrayLemmas::names))]
fn names_wanted(
    alloc: Global,
    scopes: &Scopes,
    frame: usize,
    name: &Text,
    pattern: &Text,
) -> Result<TextList, AllocError>
    requires { frame < length scopes.now }
    ensures { IfOk result (λ names. names
        ≡ map (λ e. e.0) (spec.elements_wanted (Some pattern.now) (spec.elements_named frame name.now scopes.now))) }
{
    let names = scopes.array_names(frame, name)?;
    names_matching(alloc, pattern, names.as_slice())
}

/// The texts that match a pattern.
fn names_matching(alloc: Global, pattern: &Text, names: &[Text]) -> Result<TextList, AllocError>
    ensures { IfOk result (λ wanted. wanted ≡ filter (spec.is_wanted pattern.now) names.now) }
{
    let mut wanted = TextList::new(alloc);
    let mut rest = names;
    while let [index, others @ ..] = rest {
        if Text::glob_match(pattern, index) {
            wanted.push(index.copy()?)?;
        }
        rest = others;
    }
    Ok(wanted)
}

fn array_get(alloc: Global, scopes: &Scopes, frame: usize, words: &[Text]) -> Reply
    requires { frame < length scopes.now }
    ensures { Gives result (spec.array_get frame words.now scopes.now) }
{
    match words {
        [name] => {
            let pairs = scopes.array_pairs(frame, name)?;
            list_answer(alloc, pairs.as_slice())
        }
        [name, pattern] => {
            let pairs = pairs_wanted(alloc, scopes, frame, name, pattern)?;
            list_answer(alloc, pairs.as_slice())
        }
        _ => wrong_args(alloc, "array get name ?pattern?"),
    }
}

/// The indices of an array that match a pattern, each with its value behind it.
#[tactic(auto, using(crate::proofs::ArrayLemmas::pairs))]
fn pairs_wanted(
    alloc: Global,
    scopes: &Scopes,
    frame: usize,
    name: &Text,
    pattern: &Text,
) -> Result<TextList, AllocError>
    requires { frame < length scopes.now }
    ensures { IfOk result (λ pairs. pairs
        ≡ pairs_of (spec.elements_wanted (Some pattern.now) (spec.elements_named frame name.now scopes.now))) }
{
    let pairs = scopes.array_pairs(frame, name)?;
    pairs_matching(alloc, pattern, pairs.as_slice())
}

/// Of indices and values in turn those of which the index matches a pattern.
fn pairs_matching(alloc: Global, pattern: &Text, pairs: &[Text]) -> Result<TextList, AllocError>
    ensures { IfOk result (λ wanted. wanted ≡ pairs_matching pattern.now pairs.now) }
{
    let mut wanted = TextList::new(alloc);
    let mut rest = pairs;
    while let [index, value, others @ ..] = rest {
        if Text::glob_match(pattern, index) {
            wanted.push(index.copy()?)?;
            wanted.push(value.copy()?)?;
        }
        rest = others;
    }
    Ok(wanted)
}

fn array_unset(alloc: Global, scopes: &mut Scopes, frame: usize, words: &[Text]) -> Reply
    requires { frame < length scopes.old }
    ensures does { Does result scopes.new (spec.array_unset frame words.now scopes.old) }
    ensures levels { length scopes.new ≡ length scopes.old }
{
    match words {
        [name] => unset_array(alloc, scopes, frame, name),
        [name, pattern] => unset_elements(scopes, frame, name, pattern),
        _ => wrong_args(alloc, "array unset name ?pattern?"),
    }
}

/// Unsets a variable, if it is an array.
fn unset_array(alloc: Global, scopes: &mut Scopes, frame: usize, name: &Text) -> Reply
    requires { frame < length scopes.old }
    ensures does { Does result scopes.new
        (spec.unset_array frame name.now scopes.old (elements_in scopes.old frame name.now)) }
    ensures levels { length scopes.new ≡ length scopes.old }
{
    if scopes.has_array(frame, name) {
        unset_one(alloc, scopes, true, frame, name)?;
    }
    Ok(Text::empty())
}

/// Unsets the elements of an array that match a pattern.
fn unset_elements(scopes: &mut Scopes, frame: usize, name: &Text, pattern: &Text) -> Reply
    requires { frame < length scopes.old }
    ensures does { Does result scopes.new (spec.unset_elements frame name.now pattern.now scopes.old) }
    ensures levels { length scopes.new ≡ length scopes.old }
{
    scopes.unset_elements(frame, name, pattern)?;
    Ok(Text::empty())
}

fn array_set(alloc: Global, scopes: &mut Scopes, frame: usize, words: &[Text]) -> Reply
    requires { frame < length scopes.old }
    ensures does { Does result scopes.new (spec.array_set frame words.now scopes.old) }
    ensures levels { length scopes.new ≡ length scopes.old }
{
    match words {
        [name, list] => set_list(alloc, scopes, frame, name, list),
        _ => wrong_args(alloc, "array set name list"),
    }
}

/// Sets the elements that a list gives, keys and values in turn.
fn set_list(alloc: Global, scopes: &mut Scopes, frame: usize, name: &Text, list: &Text) -> Reply
    requires { frame < length scopes.old }
    ensures does { Does result scopes.new (spec.set_list frame name.now scopes.old (items_of list.now)) }
    ensures levels { length scopes.new ≡ length scopes.old }
{
    let items = items_in(alloc, list)?;
    match odd_key(items.as_slice()) {
        Some(key) => missing_value(alloc, key.as_str()),
        None => set_items(alloc, scopes, frame, name, items.as_slice()),
    }
}

/// The key that has no value behind it, if the items are odd.
fn odd_key(items: &[Text]) -> Option<&Text>
    ensures { option_copied result ≡ spec.odd_key items.now }
{
    let mut rest = items;
    while let [_key, _value, others @ ..] = rest {
        rest = others;
    }
    rest.first()
}

fn set_items(alloc: Global, scopes: &mut Scopes, frame: usize, name: &Text, items: &[Text]) -> Reply
    requires { frame < length scopes.old }
    ensures does { Does result scopes.new (spec.set_items frame name.now items.now scopes.old) }
    ensures levels { length scopes.new ≡ length scopes.old }
{
    if items.is_empty() {
        make_array(alloc, scopes, frame, name)?;
        return Ok(Text::empty());
    }
    if scopes.is_element(frame, name) {
        return cannot_set(alloc, name.as_str(), SetFault::NotArray);
    }
    set_each(alloc, scopes, frame, name, items)
}

/// Makes an array without elements, where there is no variable.
fn make_array(alloc: Global, scopes: &mut Scopes, frame: usize, name: &Text) -> Result<(), Refusal>
    requires { frame < length scopes.old }
    ensures steps { Steps result scopes.old scopes.new (spec.make_array frame name.now scopes.old) }
    ensures levels { length scopes.new ≡ length scopes.old }
{
    match scopes.make_array(frame, name) {
        Ok(()) => Ok(()),
        Err(SetFault::NoMemory) => Err(Refusal::NoMemory),
        Err(fault) => cannot_set(alloc, name.as_str(), fault),
    }
}

#[tactic(auto, using(crate::proofs::EachLemmas::steps))]
fn set_each(alloc: Global, scopes: &mut Scopes, frame: usize, name: &Text, items: &[Text]) -> Reply
    requires { frame < length scopes.old }
    ensures does { Does result scopes.new (each_done (spec.set_element frame name.now) (pairs items.now) scopes.old) }
    ensures levels { length scopes.new ≡ length scopes.old }
{
    let mut rest = items;
    while let [key, value, others @ ..] = rest {
        set_element(alloc, scopes, frame, name, key, value)?;
        rest = others;
    }
    Ok(Text::empty())
}

/// Sets an element. A name that would be too long can't be set.
fn set_element(
    alloc: Global,
    scopes: &mut Scopes,
    frame: usize,
    name: &Text,
    key: &Text,
    value: &Text,
) -> Result<(), Refusal>
    requires { frame < length scopes.old }
    ensures steps { Steps result scopes.old scopes.new (spec.set_element frame name.now (key.now, value.now) scopes.old) }
    ensures levels { length scopes.new ≡ length scopes.old }
{
    if name.as_str().len() + key.as_str().len() + 2 > MAX_BYTES {
        return Err(limit_reached(alloc));
    }
    match scopes.set_element(frame, name, key, value.copy()?) {
        Ok(()) => Ok(()),
        Err(SetFault::NoMemory) => Err(Refusal::NoMemory),
        Err(fault) => cannot_set_element(alloc, name.as_str(), key.as_str(), fault),
    }
}

/// Why an element can't be set.
fn cannot_set_element(alloc: Global, name: &str, key: &str, fault: SetFault) -> Result<(), Refusal>
    ensures { Gives result (cannot_set (named name.now key.now) fault) }
{
    let element = element_name(alloc, name, key)?;
    cannot_set(alloc, element.as_str(), fault)
}
