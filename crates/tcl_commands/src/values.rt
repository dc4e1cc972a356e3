//! The commands of set(n), incr(n), append(n) and lappend(n), and `info exists` of info(n).
ghost use Rattle.std.specs.Prelude.{◌≡◌, ◌<◌, ◌≤◌, ℕ, List, [], ◌∷◌, ◌++◌, length, IfOk, IfSome, MatchOption, OnErr, OnOk, Ok, Err, codes, string_bytes};
ghost use Rattle.std.specs.List.{concat};
ghost use Rattle.std.specs.Option.{option_copied};
ghost use Rattle.tcl_text.specs.Answers.{Gives, answers};
ghost use Rattle.tcl_text.specs.Limits.{most_bytes, most_in_place};
ghost use Rattle.tcl_vars.specs.Store.{variable_in, with_variable};
ghost use Rattle.tcl_commands.specs.Refusals.{Does, IfNoMemory};
ghost use Rattle.tcl_commands.specs.Edits.{edit_answer};
ghost use Rattle.tcl_commands.specs.Values as spec;

use crate::texts::{cannot_read, cannot_set};
use std::alloc::{AllocError, Global};
use tcl_text::answers::{Refusal, Reply, limit_reached, too_large, truth_answer, wrong_args};
use tcl_text::integers::integer_of;
use tcl_text::items::items_in;
use tcl_text::lengths::total;
use tcl_text::{Edit, EditFault, Text};
use tcl_vars::{ChangeFault, ReadFault, Scopes, SetFault};

/// `set name ?value?`: the variable's value, or the value that it is set to.
#[tactic(auto, using(crate::proofs::DoneLemmas::kept))]
pub fn set_words(alloc: Global, scopes: &mut Scopes, frame: usize, words: &[Text]) -> Reply
    requires { frame < length scopes.old }
    ensures does { Does result scopes.new (spec.set_words frame words.now scopes.old) }
    ensures no_memory { IfNoMemory result (scopes.new ≡ scopes.old) }
    ensures levels { length scopes.new ≡ length scopes.old }
{
    match words {
        [name] => value_of(alloc, scopes, frame, name),
        [name, value] => set_to(alloc, scopes, frame, name, value.copy()?),
        _ => wrong_args(alloc, "set name ?value?"),
    }
}

/// The value of a variable.
fn value_of(alloc: Global, scopes: &Scopes, frame: usize, name: &Text) -> Reply
    requires { frame < length scopes.now }
    ensures { Gives result (spec.value_read name.now (variable_in scopes.now frame name.now)) }
{
    match scopes.get(frame, name) {
        Ok(value) => Ok(value.copy()?),
        Err(fault) => cannot_read(alloc, name.as_str(), fault),
    }
}

/// Sets a variable to a value, which is the answer.
#[tactic(auto, using(crate::proofs::DoneLemmas::not_set))]
pub fn set_to(alloc: Global, scopes: &mut Scopes, frame: usize, name: &Text, value: Text) -> Reply
    requires { frame < length scopes.old }
    ensures does { Does result scopes.new
        (spec.value_set name.now value scopes.old (with_variable scopes.old frame name.now value)) }
    ensures no_memory { IfNoMemory result (scopes.new ≡ scopes.old) }
    ensures levels { length scopes.new ≡ length scopes.old }
{
    let answer = value.copy()?;
    match scopes.set(frame, name, value) {
        Ok(()) => Ok(answer),
        Err(SetFault::NoMemory) => Err(Refusal::NoMemory),
        Err(fault) => cannot_set(alloc, name.as_str(), fault),
    }
}

/// `incr name ?n?`: the sum of the variable and n, to which the variable is set.
#[tactic(auto, using(crate::proofs::DoneLemmas::kept))]
pub fn incr_words(alloc: Global, scopes: &mut Scopes, frame: usize, words: &[Text]) -> Reply
    requires { frame < length scopes.old }
    ensures does { Does result scopes.new (spec.incr_words frame words.now scopes.old) }
    ensures no_memory { IfNoMemory result (scopes.new ≡ scopes.old) }
    ensures levels { length scopes.new ≡ length scopes.old }
{
    match words {
        [name] => increase(alloc, scopes, frame, name, None),
        [name, amount] => increase(alloc, scopes, frame, name, Some(amount)),
        _ => wrong_args(alloc, "incr name ?n?"),
    }
}

/// Adds an amount, or 1, to a variable.
pub fn increase(
    alloc: Global,
    scopes: &mut Scopes,
    frame: usize,
    name: &Text,
    amount: Option<&Text>,
) -> Reply
    requires { frame < length scopes.old }
    ensures does { Does result scopes.new
        (spec.variable_changed frame name.now (codes "0") (spec.increased (spec.amount_in (option_copied amount.entry))) scopes.old) }
    ensures no_memory { IfNoMemory result (scopes.new ≡ scopes.old) }
    ensures levels { length scopes.new ≡ length scopes.old }
{
    match increase_there(scopes, frame, name, amount)? {
        Some(sum) => Ok(sum),
        None => increase_anew(alloc, scopes, frame, name, amount),
    }
}

/// Adds an amount, or 1, to a variable that is an integer of its own frame, and gives the sum; none, and nothing is done, for another one, for an
/// amount that is no integer, and where 64 bits don't hold the sum.
#[tactic(auto, using(crate::proofs::SumLemmas::sum_changes))]
fn increase_there(
    scopes: &mut Scopes,
    frame: usize,
    name: &Text,
    amount: Option<&Text>,
) -> Result<Option<Text>, AllocError>
    requires { frame < length scopes.old }
    ensures ok { IfOk result (λ sum. MatchOption sum (scopes.new ≡ scopes.old) (λ text. record { store = scopes.new; answer = Ok text }
        ≡ spec.variable_changed frame name.now (codes "0") (spec.increased (spec.amount_in (option_copied amount.entry))) scopes.old)) }
    ensures err { OnErr result (scopes.new ≡ scopes.old) }
    ensures levels { length scopes.new ≡ length scopes.old }
{
    let Some(number) = amount_known(amount) else {
        return Ok(None);
    };
    match scopes.add(frame, name, number)? {
        Some(sum) => Ok(Some(sum)),
        None => Ok(None),
    }
}

/// The amount that a word is, if it is one, or 1 without one.
#[tactic(auto, unfolding(tcl_text::specs::Answers::integer_in))]
fn amount_known(word: Option<&Text>) -> Option<i64>
    ensures { IfSome result (λ number. spec.amount_in (option_copied word.entry) ≡ Ok number) }
{
    match word {
        Some(word) => word.integer().ok(),
        None => Some(1),
    }
}

/// Adds an amount, or 1, to a variable, which is read and then set.
#[tactic(auto, using(crate::proofs::DoneLemmas::changes))]
fn increase_anew(
    alloc: Global,
    scopes: &mut Scopes,
    frame: usize,
    name: &Text,
    amount: Option<&Text>,
) -> Reply
    requires { frame < length scopes.old }
    ensures does { Does result scopes.new
        (spec.variable_changed frame name.now (codes "0") (spec.increased (spec.amount_in (option_copied amount.entry))) scopes.old) }
    ensures no_memory { IfNoMemory result (scopes.new ≡ scopes.old) }
    ensures levels { length scopes.new ≡ length scopes.old }
{
    let sum = increased(alloc, scopes, frame, name, amount)?;
    set_to(alloc, scopes, frame, name, sum)
}

/// The sum of a variable and an amount, or 1.
fn increased(
    alloc: Global,
    scopes: &Scopes,
    frame: usize,
    name: &Text,
    amount: Option<&Text>,
) -> Reply
    requires { frame < length scopes.now }
    ensures { Gives result
        (spec.value_changed (codes "0") name.now (spec.increased (spec.amount_in (option_copied amount.entry))) (variable_in scopes.now frame name.now)) }
{
    let value = value_or(alloc, scopes, frame, name, "0")?;
    let held = integer_of(alloc, &value)?;
    let amount = amount_in(alloc, amount)?;
    sum_of(alloc, held, amount)
}

/// The amount that a word is, or 1 without one.
fn amount_in(alloc: Global, word: Option<&Text>) -> Result<i64, Refusal>
    ensures { Gives result (spec.amount_in (option_copied word.entry)) }
{
    match word {
        Some(word) => integer_of(alloc, word),
        None => Ok(1),
    }
}

/// A sum, where it fits 64 bits.
#[tactic(auto, using(crate::proofs::SumLemmas::sums))]
fn sum_of(alloc: Global, a: i64, b: i64) -> Reply
    ensures { Gives result (spec.sum_of a b) }
{
    match a.checked_add(b) {
        Some(sum) => Ok(Text::from_integer(alloc, sum)?),
        None => too_large(alloc),
    }
}

/// The value of a variable, where one that isn't there counts as these characters.
fn value_or(alloc: Global, scopes: &Scopes, frame: usize, name: &Text, absent: &str) -> Reply
    requires level { frame < length scopes.now }
    requires short { length absent.now ≤ most_in_place }
    ensures { Gives result (spec.value_or absent.now name.now (variable_in scopes.now frame name.now)) }
{
    match scopes.get(frame, name) {
        Ok(value) => Ok(value.copy()?),
        Err(ReadFault::NoVariable) => Ok(Text::of_short(alloc, absent)?),
        Err(ReadFault::NoElement) => Ok(Text::of_short(alloc, absent)?),
        Err(fault) => cannot_read(alloc, name.as_str(), fault),
    }
}

/// `append name ?value ..?`: the variable with the values behind it, to which it is set.
#[tactic(auto, using(crate::proofs::DoneLemmas::kept))]
pub fn append_words(alloc: Global, scopes: &mut Scopes, frame: usize, words: &[Text]) -> Reply
    requires { frame < length scopes.old }
    ensures does { Does result scopes.new (spec.append_words frame words.now scopes.old) }
    ensures levels { length scopes.new ≡ length scopes.old }
{
    match words {
        [name, value] => append_one(alloc, scopes, frame, name, value),
        [name, values @ ..] => append(alloc, scopes, frame, name, values),
        [] => wrong_args(alloc, "append name ?value ..?"),
    }
}

/// Adds one value behind a variable, which needs no text of its own.
pub fn append_one(
    alloc: Global,
    scopes: &mut Scopes,
    frame: usize,
    name: &Text,
    value: &Text,
) -> Reply
    requires { frame < length scopes.old }
    ensures does { Does result scopes.new
        (spec.variable_changed frame name.now [] (λ text. answers (text ++ concat (value.now ∷ []))) scopes.old) }
    ensures levels { length scopes.new ≡ length scopes.old }
{
    change(alloc, scopes, frame, name, Edit::Characters(value.as_str()))
}

/// Adds values behind a variable.
fn append(alloc: Global, scopes: &mut Scopes, frame: usize, name: &Text, values: &[Text]) -> Reply
    requires { frame < length scopes.old }
    ensures does { Does result scopes.new
        (spec.variable_changed frame name.now [] (λ value. answers (value ++ concat values.now)) scopes.old) }
    ensures levels { length scopes.new ≡ length scopes.old }
{
    let Some(size) = total(values) else {
        return Err(beyond_limit(alloc, scopes, frame, name, values));
    };
    let mut more = String::with_capacity(alloc, size)?;
    push_all(&mut more, values)?;
    change(alloc, scopes, frame, name, Edit::Characters(more.as_str()))
}

/// Why values that are too long aren't added behind a variable: it can't be read, or the text would be too long. They aren't joined for that.
fn beyond_limit(
    alloc: Global,
    scopes: &Scopes,
    frame: usize,
    name: &Text,
    values: &[Text],
) -> Refusal
    requires level { frame < length scopes.now }
    requires long { most_bytes < length (concat values.now) }
    ensures { Gives {T = List ℕ} (Err result)
        (spec.value_changed [] name.now (λ value. answers (value ++ concat values.now)) (variable_in scopes.now frame name.now)) }
{
    match value_or(alloc, scopes, frame, name, "") {
        Ok(_value) => limit_reached(alloc),
        Err(refusal) => refusal,
    }
}

/// Changes a variable in place, where one that isn't there counts as empty.
#[tactic(auto, unfolding(tcl_text::specs::Messages::bounded))]
fn change(alloc: Global, scopes: &mut Scopes, frame: usize, name: &Text, edit: Edit<'_>) -> Reply
    requires { frame < length scopes.old }
    ensures does { Does result scopes.new (spec.variable_changed frame name.now [] (edit_answer edit.entry) scopes.old) }
    ensures levels { length scopes.new ≡ length scopes.old }
{
    match scopes.change(frame, name, edit) {
        Ok(()) => value_of(alloc, scopes, frame, name),
        Err(ChangeFault::Unread(ReadFault::NoVariable)) => {
            set_edited(alloc, scopes, frame, name, edit)
        }
        Err(ChangeFault::Unread(ReadFault::NoElement)) => {
            set_edited(alloc, scopes, frame, name, edit)
        }
        Err(ChangeFault::NoMemory) => Err(Refusal::NoMemory),
        Err(fault) => Err(Refusal::Error(fault.text(alloc, name.as_str())?)),
    }
}

/// Sets a variable to what becomes of the empty text.
#[tactic(auto, using(crate::proofs::DoneLemmas::changes))]
fn set_edited(
    alloc: Global,
    scopes: &mut Scopes,
    frame: usize,
    name: &Text,
    edit: Edit<'_>,
) -> Reply
    requires { frame < length scopes.old }
    ensures does { Does result scopes.new (spec.changed_to frame name.now scopes.old (edit_answer edit.entry [])) }
    ensures levels { length scopes.new ≡ length scopes.old }
{
    let value = edited_empty(alloc, edit)?;
    set_to(alloc, scopes, frame, name, value)
}

/// What becomes of the empty text.
#[tactic(auto, unfolding(tcl_text::specs::Messages::bounded))]
fn edited_empty(alloc: Global, edit: Edit<'_>) -> Reply
    ensures { Gives result (edit_answer edit.entry []) }
{
    let mut text = Text::empty();
    match text.edit(alloc, edit) {
        Ok(()) => Ok(text),
        Err(EditFault::NoMemory) => Err(Refusal::NoMemory),
        Err(fault) => Err(Refusal::Error(Text::of_message(alloc, fault.text())?)),
    }
}

/// Adds the characters of the texts.
#[tactic(auto, using(crate::proofs::ConcatLemmas::concats))]
fn push_all(string: &mut String, texts: &[Text]) -> Result<(), AllocError>
    ensures { OnOk result (string_bytes string.new ≡ string_bytes string.old ++ concat texts.now) }
{
    for text in texts {
        string.push_str(text.as_str())?;
    }
    Ok(())
}

/// `lappend name ?value ..?`: the list that the variable is with the values behind its items, to which it is set.
#[tactic(auto, using(crate::proofs::DoneLemmas::kept))]
pub fn lappend_words(alloc: Global, scopes: &mut Scopes, frame: usize, words: &[Text]) -> Reply
    requires { frame < length scopes.old }
    ensures does { Does result scopes.new (spec.lappend_words frame words.now scopes.old) }
    ensures levels { length scopes.new ≡ length scopes.old }
{
    match words {
        [name, values @ ..] => lappend(alloc, scopes, frame, name, values),
        [] => wrong_args(alloc, "lappend name ?value ..?"),
    }
}

/// Adds values as items to the list that a variable is.
#[tactic(auto, using(crate::proofs::DoneLemmas::changes))]
fn lappend(alloc: Global, scopes: &mut Scopes, frame: usize, name: &Text, values: &[Text]) -> Reply
    requires { frame < length scopes.old }
    ensures does { Does result scopes.new
        (spec.variable_changed frame name.now [] (spec.with_items values.now) scopes.old) }
    ensures levels { length scopes.new ≡ length scopes.old }
{
    match values {
        [] => {
            let list = list_of(alloc, scopes, frame, name)?;
            set_to(alloc, scopes, frame, name, list)
        }
        _ => change(alloc, scopes, frame, name, Edit::Items(values)),
    }
}

/// The list that a variable is, as it is written.
fn list_of(alloc: Global, scopes: &Scopes, frame: usize, name: &Text) -> Reply
    requires { frame < length scopes.now }
    ensures { Gives result
        (spec.value_changed [] name.now (spec.with_items []) (variable_in scopes.now frame name.now)) }
{
    let value = value_or(alloc, scopes, frame, name, "")?;
    let _items = items_in(alloc, &value)?;
    Ok(value)
}

/// `info exists name`: whether there is a variable or element.
pub fn exists_words(alloc: Global, scopes: &Scopes, frame: usize, words: &[Text]) -> Reply
    requires { frame < length scopes.now }
    ensures { Gives result (spec.exists_words frame words.now scopes.now) }
{
    match words {
        [name] => truth_answer(alloc, scopes.exists(frame, name)),
        _ => wrong_args(alloc, "info exists name"),
    }
}
