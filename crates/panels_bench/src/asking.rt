//! What has to be answered of what no section tells.

ghost use Rattle.std.specs.Prelude.{◌≡◌, ◌∷◌, ◌++◌, [], List, Some, None, map, option_map, IfOk, MatchResult};
ghost use Rattle.std.specs.String.{string_bytes};
ghost use Rattle.tcl_text.specs.Readings.{list_form};
ghost use Rattle.panels.specs.Asked.{told_by};
ghost use Rattle.panels_bench.specs.Sights.{AskedSight, Sight, asked_text, inner_in, most_rows, of_members, option_said, path_in, plain_in, query, rows_in, selection_in, short_in, sight, sights_by, texts_in, value_in, variable_said, variable_wanted};
ghost use Rattle.panels_bench.specs.Values.{Says, number_if, short};
ghost use Rattle.panels_bench.specs.declared.seeing.Sought.{Sought};
ghost use Rattle.panels_text.specs.Tables.{IsSaid, value_of};
ghost use Rattle.toml.specs.View.{items_view, table_view, view};

use crate::values::{number_if, text_if, text_of};
use panels::{Answer, Look, Question};
use panels_text::{Failure, Part, in_range};
use std::alloc::{AllocError, Global};
use tcl_text::{Text, TextFault, TextList};
use toml::{Table, Value};

/// The largest number of rows of a listbox, and of characters of an entry.
const MAX_COUNT: u64 = 65_536;

/// What is asked, and the answer that is wanted.
fn asked(alloc: Global, question: Question, wanted: Answer) -> Result<Vec<Look>, AllocError>
    ensures { IfOk result (λ looks. map sight looks.items ≡ AskedSight (query question) (told_by wanted) ∷ []) }
{
    let mut looks = Vec::new(alloc);
    looks.push(Look::Asked { question, wanted })?;
    Ok(looks)
}

/// That a key is of a window, which isn't named.
fn no_window(alloc: Global, part: &Part<'_>, key: &str) -> Result<Failure, AllocError> {
    let words = format!(in alloc; "{key} is of a window: window = \".switch\" is missing")?;
    Ok(part.fault(alloc, key, words.as_str()))
}

#[tactic(auto, using(crate::proofs::ValueLemmas::text_there, crate::proofs::ValueLemmas::text_missing, crate::proofs::ValueLemmas::text_wrong))]
/// The path of the window that a key is of.
pub(crate) fn window(alloc: Global, part: &Part<'_>, key: &str) -> Result<String, Failure>
    ensures { Says string_bytes result (path_in (table_view part.now.table.now)) }
{
    match text_if(alloc, part, "window")? {
        Some(path) => Ok(String::from_str(alloc, path)?),
        None => Err(no_window(alloc, part, key)?),
    }
}

/// A text of an array.
fn text_value(alloc: Global, part: &Part<'_>, key: &str, value: &Value) -> Result<Text, Failure>
    ensures { Says (λ text. text) result (short_in (view value.now)) }
{
    match value {
        Value::String(text) => text_of(alloc, part, key, text.as_str()),
        _ => {
            let wanted = "a text, or an array of texts, as [\"Bern\", \"Biel\"]";
            Err(part.refused(alloc, key, wanted))
        }
    }
}

/// The texts that an array has.
fn texts(alloc: Global, part: &Part<'_>, key: &str, values: &[Value]) -> Result<Vec<Text>, Failure>
    ensures { Says (λ texts. texts.items) result (texts_in (items_view values.now)) }
{
    let mut texts = Vec::new(alloc);
    for value in values {
        texts.push(text_value(alloc, part, key, value)?)?;
    }
    Ok(texts)
}

/// The list of texts.
fn list(alloc: Global, part: &Part<'_>, key: &str, texts: Vec<Text>) -> Result<Text, Failure>
    ensures { Says (λ list. list) result (short (list_form texts.items)) }
{
    let texts = TextList::from_vec(texts);
    match Text::join_list(alloc, texts.as_slice()) {
        Ok(text) => Ok(text),
        Err(TextFault::TooLong) => Err(part.fault(alloc, key, "this has more than 65536 bytes")),
        Err(TextFault::NoMemory) => Err(Failure::NoMemory),
    }
}

/// The text of a window's value: a text, or the list of a listbox's items.
fn value_text(alloc: Global, part: &Part<'_>, key: &str) -> Result<Option<Text>, Failure>
    ensures { Says (λ text. text) result (value_in (value_of part.now key.now)) }
{
    match part.value(key) {
        None => Ok(None),
        Some(Value::Array(values)) => {
            let texts = texts(alloc, part, key, values.as_slice())?;
            Ok(Some(list(alloc, part, key, texts)?))
        }
        Some(value) => Ok(Some(text_value(alloc, part, key, value)?)),
    }
}

/// The value of a window.
pub(crate) fn value_at(alloc: Global, part: &Part<'_>, key: &str) -> Result<Vec<Look>, Failure>
    ensures { Says (λ looks. map sight looks.items) result (sights_by (table_view part.now.table.now) Sought.Value (value_of part.now key.now)) }
{
    let Some(text) = value_text(alloc, part, key)? else {
        return Ok(Vec::new(alloc));
    };
    let path = window(alloc, part, key)?;
    Ok(asked(alloc, Question::Value(path), Answer::Text(text))?)
}

/// The text of a value that is a text or a number.
fn plain(
    alloc: Global,
    part: &Part<'_>,
    key: &str,
    value: &Value,
    wanted: &str,
) -> Result<Text, Failure>
    ensures { Says (λ text. text) result (plain_in (view value.now)) }
{
    match value {
        Value::String(text) => text_of(alloc, part, key, text.as_str()),
        Value::Integer(number) => {
            let digits = format!(in alloc; "{number}")?;
            text_of(alloc, part, key, digits.as_str())
        }
        _ => Err(part.refused(alloc, key, wanted)),
    }
}

/// The table that a key has, if it is there.
fn inner<'a>(
    alloc: Global,
    part: &Part<'a>,
    key: &str,
    wanted: &str,
) -> Result<Option<&'a Table>, Failure>
    ensures { Says (option_map (λ table. table_view table.now)) result (inner_in (value_of part.now key.now)) }
{
    let Some(value) = part.value(key) else {
        return Ok(None);
    };
    match value {
        Value::Table(table) => Ok(Some(table)),
        _ => Err(part.refused(alloc, key, wanted)),
    }
}

/// Adds an option of a window.
fn push_option(
    alloc: Global,
    part: &Part<'_>,
    key: &str,
    name: &str,
    value: &Value,
    looks: &mut Vec<Look>,
) -> Result<(), Failure>
    ensures { MatchResult result (λ done. (more : List Sight) × (option_said (table_view part.now.table.now) name.now (view value.now) ≡ Some more) × (map sight looks.new.items ≡ map sight looks.old.items ++ more)) (λ failure. IsSaid failure → option_said (table_view part.now.table.now) name.now (view value.now) ≡ None) }
{
    let wanted = "a table of options, as { -state = \"disabled\", -width = 5 }";
    let text = plain(alloc, part, key, value, wanted)?;
    let name = text_of(alloc, part, key, name)?;
    let window = window(alloc, part, key)?;
    Ok(looks.push(Look::Asked {
        question: Question::Option { window, name },
        wanted: Answer::Text(text),
    })?)
}

/// The options of a window that a table has.
fn options(alloc: Global, part: &Part<'_>, key: &str, table: &Table) -> Result<Vec<Look>, Failure>
    ensures { Says (λ looks. map sight looks.items) result (of_members (option_said (table_view part.now.table.now)) (table_view table.now)) }
{
    let mut looks = Vec::new(alloc);
    for (name, value) in table.iter() {
        push_option(alloc, part, key, name.as_str(), value, &mut looks)?;
    }
    Ok(looks)
}

/// The options of a window.
pub(crate) fn options_at(alloc: Global, part: &Part<'_>, key: &str) -> Result<Vec<Look>, Failure>
    ensures { Says (λ looks. map sight looks.items) result (sights_by (table_view part.now.table.now) Sought.Options (value_of part.now key.now)) }
{
    let wanted = "a table of options, as { -state = \"disabled\", -width = 5 }";
    let Some(table) = inner(alloc, part, key, wanted)? else {
        return Ok(Vec::new(alloc));
    };
    options(alloc, part, key, table)
}

/// The rows that an array has.
fn rows(
    alloc: Global,
    part: &Part<'_>,
    key: &str,
    values: &[Value],
    wanted: &str,
) -> Result<Vec<usize>, Failure>
    ensures { Says (λ rows. rows.items) result (rows_in (items_view values.now)) }
{
    let mut rows = Vec::new(alloc);
    for value in values {
        match in_range(value, MAX_COUNT) {
            Some(row) => rows.push(row as usize)?,
            None => return Err(part.refused(alloc, key, wanted)),
        }
    }
    Ok(rows)
}

/// The rows of a listbox that are selected.
fn selection(alloc: Global, part: &Part<'_>, key: &str) -> Result<Option<Vec<usize>>, Failure>
    ensures { Says (option_map (λ rows. rows.items)) result (selection_in (value_of part.now key.now)) }
{
    let wanted = "rows of a listbox from 0 on, as [0, 2]";
    match part.value(key) {
        None => Ok(None),
        Some(Value::Array(values)) => {
            Ok(Some(rows(alloc, part, key, values.as_slice(), wanted)?))
        }
        Some(_) => Err(part.refused(alloc, key, wanted)),
    }
}

pub(crate) fn selection_at(alloc: Global, part: &Part<'_>, key: &str) -> Result<Vec<Look>, Failure>
    ensures { Says (λ looks. map sight looks.items) result (sights_by (table_view part.now.table.now) Sought.Selection (value_of part.now key.now)) }
{
    let Some(rows) = selection(alloc, part, key)? else {
        return Ok(Vec::new(alloc));
    };
    let path = window(alloc, part, key)?;
    Ok(asked(alloc, Question::Selection(path), Answer::Rows(rows))?)
}

/// A number of rows or characters.
fn row(alloc: Global, part: &Part<'_>, key: &str) -> Result<Option<usize>, Failure>
    ensures { Says (λ number. number) result (number_if most_rows (value_of part.now key.now)) }
{
    match number_if(alloc, part, key, MAX_COUNT)? {
        None => Ok(None),
        Some(number) => Ok(Some(number as usize)),
    }
}

/// The active row of a listbox.
pub(crate) fn active_at(alloc: Global, part: &Part<'_>, key: &str) -> Result<Vec<Look>, Failure>
    ensures { Says (λ looks. map sight looks.items) result (sights_by (table_view part.now.table.now) Sought.Active (value_of part.now key.now)) }
{
    let Some(row) = row(alloc, part, key)? else {
        return Ok(Vec::new(alloc));
    };
    let path = window(alloc, part, key)?;
    Ok(asked(alloc, Question::Active(path), Answer::Number(row))?)
}

/// The place of the cursor of an entry.
pub(crate) fn cursor_at(alloc: Global, part: &Part<'_>, key: &str) -> Result<Vec<Look>, Failure>
    ensures { Says (λ looks. map sight looks.items) result (sights_by (table_view part.now.table.now) Sought.Cursor (value_of part.now key.now)) }
{
    let Some(place) = row(alloc, part, key)? else {
        return Ok(Vec::new(alloc));
    };
    let path = window(alloc, part, key)?;
    Ok(asked(alloc, Question::Cursor(path), Answer::Number(place))?)
}

/// What is asked of a panel as a whole, and the text that is wanted.
fn asked_text(
    alloc: Global,
    part: &Part<'_>,
    key: &str,
    question: Question,
    text: &str,
) -> Result<Vec<Look>, Failure>
    ensures { Says (λ looks. map sight looks.items) result (asked_text (query question) text.now) }
{
    let wanted = text_of(alloc, part, key, text)?;
    Ok(asked(alloc, question, Answer::Text(wanted))?)
}

/// The window that gets the panel's keys.
pub(crate) fn focus_at(alloc: Global, part: &Part<'_>, key: &str) -> Result<Vec<Look>, Failure>
    ensures { Says (λ looks. map sight looks.items) result (sights_by (table_view part.now.table.now) Sought.Focus (value_of part.now key.now)) }
{
    match text_if(alloc, part, key)? {
        Some(text) => asked_text(alloc, part, key, Question::Focus, text),
        None => Ok(Vec::new(alloc)),
    }
}

pub(crate) fn title_at(alloc: Global, part: &Part<'_>, key: &str) -> Result<Vec<Look>, Failure>
    ensures { Says (λ looks. map sight looks.items) result (sights_by (table_view part.now.table.now) Sought.Title (value_of part.now key.now)) }
{
    match text_if(alloc, part, key)? {
        Some(text) => asked_text(alloc, part, key, Question::Title, text),
        None => Ok(Vec::new(alloc)),
    }
}

/// What is wanted of a variable: a text, or that there is none.
fn variable_wanted(
    alloc: Global,
    part: &Part<'_>,
    key: &str,
    value: &Value,
) -> Result<Answer, Failure>
    ensures { Says told_by result (variable_wanted (view value.now)) }
{
    if let Value::Boolean(false) = value {
        return Ok(Answer::Nothing);
    }
    let wanted =
        "a table of variables, as { lamp = \"on\", \"room(heat)\" = 5, gone = false }, where false says that there is none";
    Ok(Answer::Text(plain(alloc, part, key, value, wanted)?))
}

/// Adds a variable.
fn push_variable(
    alloc: Global,
    part: &Part<'_>,
    key: &str,
    name: &str,
    value: &Value,
    looks: &mut Vec<Look>,
) -> Result<(), Failure>
    ensures { MatchResult result (λ done. (more : List Sight) × (variable_said name.now (view value.now) ≡ Some more) × (map sight looks.new.items ≡ map sight looks.old.items ++ more)) (λ failure. IsSaid failure → variable_said name.now (view value.now) ≡ None) }
{
    let wanted = variable_wanted(alloc, part, key, value)?;
    let name = text_of(alloc, part, key, name)?;
    Ok(looks.push(Look::Asked {
        question: Question::Variable(name),
        wanted,
    })?)
}

/// The variables that a table has.
fn variables(alloc: Global, part: &Part<'_>, key: &str, table: &Table) -> Result<Vec<Look>, Failure>
    ensures { Says (λ looks. map sight looks.items) result (of_members variable_said (table_view table.now)) }
{
    let mut looks = Vec::new(alloc);
    for (name, value) in table.iter() {
        push_variable(alloc, part, key, name.as_str(), value, &mut looks)?;
    }
    Ok(looks)
}

/// The variables of a panel.
pub(crate) fn variables_at(alloc: Global, part: &Part<'_>, key: &str) -> Result<Vec<Look>, Failure>
    ensures { Says (λ looks. map sight looks.items) result (sights_by (table_view part.now.table.now) Sought.Variables (value_of part.now key.now)) }
{
    let wanted =
        "a table of variables, as { lamp = \"on\", \"room(heat)\" = 5, gone = false }, where false says that there is none";
    let Some(table) = inner(alloc, part, key, wanted)? else {
        return Ok(Vec::new(alloc));
    };
    variables(alloc, part, key, table)
}
