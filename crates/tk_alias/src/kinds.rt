//! Constants, errors, capitals and tables.
ghost use Rattle.std.specs.Prelude.{◌≡◌, ◌++◌, ◌%◌, ◌==◌, length, Ok, string_bytes};
ghost use Rattle.std.specs.List.{join_with_byte};
ghost use Rattle.std.specs.Option.{option_copied};
ghost use Rattle.tcl_text.specs.Answers.{Gives, Refuses, answers, bounded, fails};
ghost use Rattle.tk_alias.specs.Services as spec;

use std::alloc::Global;
use tcl_text::answers::{
    Refusal, copy_answer, error, limit_reached, quoting_error, string_answer, text_answer,
};
use tcl_text::{MAX_BYTES, SplitFault, Text, TextList};

/// The error of a configuration that is no list, or of a table with a key without a value. It has no number.
fn bad_configuration(alloc: Global) -> Refusal
    ensures { Refuses result (bounded spec.bad_configuration_text) }
{
    error(alloc, "bad alias configuration")
}

/// The items of the configuration.
fn items_of(alloc: Global, config: &Text) -> Result<TextList, Refusal>
    ensures { Gives result (spec.items_of config.now) }
{
    match config.split_list(alloc) {
        Ok(items) => Ok(items),
        Err(SplitFault::BadList(_)) => Err(bad_configuration(alloc)),
        Err(SplitFault::NoMemory) => Err(Refusal::NoMemory),
    }
}

/// The items, and then the arguments.
fn followed_by(mut items: TextList, args: &[Text]) -> Result<TextList, Refusal>
    ensures { Gives result (Ok (items ++ args.now)) }
{
    for arg in args {
        items.push(arg.copy()?)?;
    }
    Ok(items)
}

/// The items of the configuration, and then the arguments.
pub(crate) fn listed(alloc: Global, config: &Text, args: &[Text]) -> Result<TextList, Refusal>
    ensures { Gives result (spec.listed config.now args.now) }
{
    let items = items_of(alloc, config)?;
    followed_by(items, args)
}

/// The error with this text.
pub(crate) fn fail(alloc: Global, config: &Text) -> Result<Text, Refusal>
    ensures { Gives result (fails config.now) }
{
    Err(error(alloc, config.as_str()))
}

/// The configuration and the arguments in capitals.
pub(crate) fn upper(alloc: Global, config: &Text, args: &[Text]) -> Result<Text, Refusal>
    ensures { Gives result (spec.upper config.now args.now) }
{
    let words = listed(alloc, config, args)?;
    let text = joined(alloc, words.as_slice())?;
    let mut capitals = String::from_str(alloc, text.as_str())?;
    capitals.make_ascii_uppercase();
    string_answer(alloc, capitals)
}

/// The words with blanks between. It stops soon after the limit of a value.
fn joined(alloc: Global, words: &[Text]) -> Result<Text, Refusal>
    ensures { Gives result (answers (join_with_byte 32 words.now)) }
{
    let Some((first, others)) = words.split_first() else {
        return text_answer(alloc, "");
    };
    let mut string = String::from_str(alloc, first.as_str())?;
    for word in others {
        if string.len() > MAX_BYTES {
            return Err(limit_reached(alloc));
        }
        string.push_str(" ")?;
        string.push_str(word.as_str())?;
    }
    string_answer(alloc, string)
}

/// The configuration's keys and values in turn.
fn pairs_of(alloc: Global, config: &Text) -> Result<TextList, Refusal>
    ensures { Gives result (spec.pairs_of config.now) }
{
    let items = items_of(alloc, config)?;
    if items.len() % 2 == 0 {
        Ok(items)
    } else {
        Err(bad_configuration(alloc))
    }
}

/// The value of the argument among keys and values in turn.
fn looked_up(alloc: Global, pairs: &[Text], args: &[Text]) -> Result<Text, Refusal>
    ensures { Gives result (spec.looked_up pairs.now args.now) }
{
    match args {
        [key] => value_answer(alloc, key, pairs),
        _ => Err(error(alloc, "wrong # args")),
    }
}

/// The value of the argument in the configuration.
pub(crate) fn table(alloc: Global, config: &Text, args: &[Text]) -> Result<Text, Refusal>
    ensures { Gives result (spec.table config.now args.now) }
{
    let pairs = pairs_of(alloc, config)?;
    looked_up(alloc, pairs.as_slice(), args)
}

/// The value of the key among keys and values in turn, or the error that it has none.
fn value_answer(alloc: Global, key: &Text, items: &[Text]) -> Result<Text, Refusal>
    ensures { Gives result (spec.value_or_error key.now (spec.value_of key.now items.now)) }
{
    match value_of(key, items) {
        Some(value) => copy_answer(value),
        None => Err(quoting_error(alloc, "no such key ", key.as_str())),
    }
}

/// The first value of the key among keys and values in turn.
fn value_of<'a>(key: &Text, items: &'a [Text]) -> Option<&'a Text>
    ensures { option_copied result ≡ spec.value_of key.now items.now }
{
    let mut rest = items;
    while let [own, value, others @ ..] = rest {
        if own.as_str() == key.as_str() {
            return Some(value);
        }
        rest = others;
    }
    None
}
