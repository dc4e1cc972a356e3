//! What has to be seen.

ghost use Rattle.std.specs.Prelude.{◌≡◌, ◌++◌, ◌∷◌, [], map, IfOk, OnOk};
ghost use Rattle.std.specs.String.{string_bytes};
ghost use Rattle.panels_bench.specs.Sights.{is_state, keys, looks_in, mark, of_window, place_in, place_of, shown, shows, sight, sights_at, sights_by, sights_in, sights_of_panel, sights_of_window, state_in, unless_empty, written};
ghost use Rattle.panels_bench.specs.Values.{Says, all_said};
ghost use Rattle.panels_text.specs.Tables.{value_of};
ghost use Rattle.panels_text.specs.Words.{words_of};
ghost use Rattle.toml.specs.View.{items_view, table_view};

use crate::asking::{
    active_at, cursor_at, focus_at, options_at, selection_at, title_at, value_at, variables_at,
    window,
};
use crate::sides::slot_named;
use crate::values::{flag_if, number_if, text_if};
use panels::{Fact, Look};
use panels_text::{Failure, Part, in_range};
use std::alloc::{AllocError, Global};
use tk_base::Rect;
use tk_session::AppBlock;
use toml::Value;

/// What is sought by a key.
#[derive(Clone, Copy)]
pub(crate) enum Sought {
    There,
    Text,
    Class,
    Place,
    Mapped,
    Value,
    Options,
    Selection,
    Active,
    Cursor,
    Focus,
    Title,
    Variables,
    Line,
    Errors,
    State,
    Steps,
    Timers,
}

const KEYS: [&str; 22] = [
    "time",
    "after",
    "panel",
    "window",
    "there",
    "text",
    "class",
    "place",
    "mapped",
    "value",
    "options",
    "selection",
    "active",
    "cursor",
    "focus",
    "title",
    "variables",
    "says",
    "errors",
    "state",
    "least-steps",
    "timers",
];

/// What is sought of a window, by its keys.
const OF_WINDOW: [(&str, Sought); 10] = [
    ("there", Sought::There),
    ("text", Sought::Text),
    ("class", Sought::Class),
    ("place", Sought::Place),
    ("mapped", Sought::Mapped),
    ("value", Sought::Value),
    ("options", Sought::Options),
    ("selection", Sought::Selection),
    ("active", Sought::Active),
    ("cursor", Sought::Cursor),
];

/// What is sought of a panel as a whole.
const OF_PANEL: [(&str, Sought); 8] = [
    ("focus", Sought::Focus),
    ("title", Sought::Title),
    ("variables", Sought::Variables),
    ("says", Sought::Line),
    ("errors", Sought::Errors),
    ("state", Sought::State),
    ("least-steps", Sought::Steps),
    ("timers", Sought::Timers),
];

const WINDOW_WORDS: &str =
    "a window has one of there, text, class, place, mapped, value, options, selection, active and cursor";

const PANEL_WORDS: &str =
    "a [[see]] has a window with what it shows, or one of focus, title, variables, says, errors, state, least-steps and timers";

/// The largest place and size of a window, in pixels.
const MAX_PLACE: u64 = 65_535;

/// The largest number of steps and of timers.
const MAX_COUNT: u64 = 10_000_000;

/// Adds a character as a section writes it.
fn push_mark(written: &mut String, character: char) -> Result<(), AllocError>
    ensures { OnOk result (string_bytes written.new ≡ string_bytes written.old ++ mark character) }
{
    match character {
        '\\' => Ok(written.push_str("\\\\")?),
        '\n' => Ok(written.push_str("\\n")?),
        '\r' => Ok(written.push_str("\\r")?),
        other => Ok(written.push(other)?),
    }
}

/// A text as a section writes it: a backslash, a line feed and a carriage return by two characters.
fn written(alloc: Global, text: &str) -> Result<String, AllocError>
    ensures { IfOk result (λ own. string_bytes own ≡ written text.now) }
{
    let mut own = String::new(alloc);
    for character in text.chars() {
        push_mark(&mut own, character)?;
    }
    Ok(own)
}

/// One look.
fn one(alloc: Global, look: Look) -> Result<Vec<Look>, AllocError>
    ensures { IfOk result (λ looks. map sight looks.items ≡ sight look ∷ []) }
{
    let mut looks = Vec::new(alloc);
    looks.push(look)?;
    Ok(looks)
}

/// What a window is to show.
fn shows(alloc: Global, part: &Part<'_>, key: &str, fact: Fact) -> Result<Vec<Look>, Failure>
    ensures { Says (λ looks. map sight looks.items) result (shows (table_view part.now.table.now) (shown fact)) }
{
    let path = window(alloc, part, key)?;
    Ok(one(alloc, Look::Window { path, fact })?)
}

/// Whether it is there.
fn there_at(alloc: Global, part: &Part<'_>, key: &str) -> Result<Vec<Look>, Failure>
    ensures { Says (λ looks. map sight looks.items) result (sights_by (table_view part.now.table.now) Sought.There (value_of part.now key.now)) }
{
    match flag_if(alloc, part, key)? {
        Some(wanted) => shows(alloc, part, key, Fact::There(wanted)),
        None => Ok(Vec::new(alloc)),
    }
}

fn text_at(alloc: Global, part: &Part<'_>, key: &str) -> Result<Vec<Look>, Failure>
    ensures { Says (λ looks. map sight looks.items) result (sights_by (table_view part.now.table.now) Sought.Text (value_of part.now key.now)) }
{
    match text_if(alloc, part, key)? {
        Some(text) => shows(alloc, part, key, Fact::Text(written(alloc, text)?)),
        None => Ok(Vec::new(alloc)),
    }
}

fn class_at(alloc: Global, part: &Part<'_>, key: &str) -> Result<Vec<Look>, Failure>
    ensures { Says (λ looks. map sight looks.items) result (sights_by (table_view part.now.table.now) Sought.Class (value_of part.now key.now)) }
{
    match text_if(alloc, part, key)? {
        Some(text) => shows(alloc, part, key, Fact::Class(written(alloc, text)?)),
        None => Ok(Vec::new(alloc)),
    }
}

/// The place of four numbers.
fn place_of(values: &[Value]) -> Option<Rect>
    ensures { result ≡ place_of (items_view values.now) }
{
    let [x, y, width, height] = values else {
        return None;
    };
    let (x, y) = (in_range(x, MAX_PLACE)?, in_range(y, MAX_PLACE)?);
    let width = in_range(width, MAX_PLACE)?;
    let height = in_range(height, MAX_PLACE)?;
    Some(Rect {
        x: x as u32,
        y: y as u32,
        width: width as u32,
        height: height as u32,
    })
}

/// The place of a window: left, top, width and height.
fn place(alloc: Global, part: &Part<'_>, key: &str) -> Result<Option<Rect>, Failure>
    ensures { Says (λ place. place) result (place_in (value_of part.now key.now)) }
{
    let wanted = "left, top, width and height, as [56, 16, 68, 28]";
    match part.value(key) {
        None => Ok(None),
        Some(Value::Array(values)) => match place_of(values.as_slice()) {
            Some(place) => Ok(Some(place)),
            None => Err(part.refused(alloc, key, wanted)),
        },
        Some(_) => Err(part.refused(alloc, key, wanted)),
    }
}

fn place_at(alloc: Global, part: &Part<'_>, key: &str) -> Result<Vec<Look>, Failure>
    ensures { Says (λ looks. map sight looks.items) result (sights_by (table_view part.now.table.now) Sought.Place (value_of part.now key.now)) }
{
    match place(alloc, part, key)? {
        Some(place) => shows(alloc, part, key, Fact::Place(place)),
        None => Ok(Vec::new(alloc)),
    }
}

/// Whether it is mapped.
fn mapped_at(alloc: Global, part: &Part<'_>, key: &str) -> Result<Vec<Look>, Failure>
    ensures { Says (λ looks. map sight looks.items) result (sights_by (table_view part.now.table.now) Sought.Mapped (value_of part.now key.now)) }
{
    match flag_if(alloc, part, key)? {
        Some(wanted) => shows(alloc, part, key, Fact::Mapped(wanted)),
        None => Ok(Vec::new(alloc)),
    }
}

/// A line of the transcript.
fn line_at(alloc: Global, part: &Part<'_>, key: &str) -> Result<Vec<Look>, Failure>
    ensures { Says (λ looks. map sight looks.items) result (sights_by (table_view part.now.table.now) Sought.Line (value_of part.now key.now)) }
{
    match text_if(alloc, part, key)? {
        Some(text) => Ok(one(alloc, Look::Says(written(alloc, text)?))?),
        None => Ok(Vec::new(alloc)),
    }
}

/// Whether an error stands in the transcript.
fn errors_at(alloc: Global, part: &Part<'_>, key: &str) -> Result<Vec<Look>, Failure>
    ensures { Says (λ looks. map sight looks.items) result (sights_by (table_view part.now.table.now) Sought.Errors (value_of part.now key.now)) }
{
    match flag_if(alloc, part, key)? {
        Some(wanted) => Ok(one(alloc, Look::HasError(wanted))?),
        None => Ok(Vec::new(alloc)),
    }
}

/// Whether a word is a state.
fn is_state(word: &str) -> bool
    ensures { result ≡ is_state word.now }
{
    match word {
        "running" | "exhausted" | "closed" => true,
        _ => false,
    }
}

/// The state that is wanted.
fn state(alloc: Global, part: &Part<'_>, key: &str, word: &str) -> Result<Vec<Look>, Failure>
    ensures { Says (λ looks. map sight looks.items) result (state_in word.now) }
{
    if !is_state(word) {
        return Err(part.refused(alloc, key, "running, exhausted or closed"));
    }
    let state = String::from_str(alloc, word)?;
    Ok(one(alloc, Look::State(state))?)
}

fn state_at(alloc: Global, part: &Part<'_>, key: &str) -> Result<Vec<Look>, Failure>
    ensures { Says (λ looks. map sight looks.items) result (sights_by (table_view part.now.table.now) Sought.State (value_of part.now key.now)) }
{
    match text_if(alloc, part, key)? {
        Some(word) => state(alloc, part, key, word),
        None => Ok(Vec::new(alloc)),
    }
}

/// How many steps are left at least.
fn steps_at(alloc: Global, part: &Part<'_>, key: &str) -> Result<Vec<Look>, Failure>
    ensures { Says (λ looks. map sight looks.items) result (sights_by (table_view part.now.table.now) Sought.Steps (value_of part.now key.now)) }
{
    match number_if(alloc, part, key, MAX_COUNT)? {
        Some(least) => Ok(one(alloc, Look::LeastSteps(least))?),
        None => Ok(Vec::new(alloc)),
    }
}

/// How many timers and idle scripts wait.
fn timers_at(alloc: Global, part: &Part<'_>, key: &str) -> Result<Vec<Look>, Failure>
    ensures { Says (λ looks. map sight looks.items) result (sights_by (table_view part.now.table.now) Sought.Timers (value_of part.now key.now)) }
{
    match number_if(alloc, part, key, MAX_COUNT)? {
        Some(count) => Ok(one(alloc, Look::Waiting(count))?),
        None => Ok(Vec::new(alloc)),
    }
}

/// What a key says of what is sought.
fn sights_at(
    alloc: Global,
    part: &Part<'_>,
    key: &str,
    sought: Sought,
) -> Result<Vec<Look>, Failure>
    ensures { Says (λ looks. map sight looks.items) result (sights_by (table_view part.now.table.now) sought (value_of part.now key.now)) }
{
    match sought {
        Sought::There => there_at(alloc, part, key),
        Sought::Text => text_at(alloc, part, key),
        Sought::Class => class_at(alloc, part, key),
        Sought::Place => place_at(alloc, part, key),
        Sought::Mapped => mapped_at(alloc, part, key),
        Sought::Value => value_at(alloc, part, key),
        Sought::Options => options_at(alloc, part, key),
        Sought::Selection => selection_at(alloc, part, key),
        Sought::Active => active_at(alloc, part, key),
        Sought::Cursor => cursor_at(alloc, part, key),
        Sought::Focus => focus_at(alloc, part, key),
        Sought::Title => title_at(alloc, part, key),
        Sought::Variables => variables_at(alloc, part, key),
        Sought::Line => line_at(alloc, part, key),
        Sought::Errors => errors_at(alloc, part, key),
        Sought::State => state_at(alloc, part, key),
        Sought::Steps => steps_at(alloc, part, key),
        Sought::Timers => timers_at(alloc, part, key),
    }
}

/// What keys say, one after another.
fn all_sights(alloc: Global, part: &Part<'_>, rows: &[(&str, Sought)]) -> Result<Vec<Look>, Failure>
    ensures { Says (λ looks. map sight looks.items) result (all_said (map (λ row. sights_at (table_view part.now.table.now) row.0.now row.1) rows.now)) }
{
    let mut looks = Vec::new(alloc);
    for row in rows {
        let mut more = sights_at(alloc, part, row.0, row.1)?;
        looks.append(&mut more)?;
    }
    Ok(looks)
}

/// The keys of a table of what has to be seen.
fn known_keys() -> &'static [&'static str]
    ensures { words_of result.now ≡ keys }
{
    KEYS.as_slice()
}

/// What the keys of a window say.
fn sights_of_window(alloc: Global, part: &Part<'_>) -> Result<Vec<Look>, Failure>
    ensures { Says (λ looks. map sight looks.items) result (sights_of_window (table_view part.now.table.now)) }
{
    all_sights(alloc, part, OF_WINDOW.as_slice())
}

/// What those of a panel as a whole say.
fn sights_of_panel(alloc: Global, part: &Part<'_>) -> Result<Vec<Look>, Failure>
    ensures { Says (λ looks. map sight looks.items) result (sights_of_panel (table_view part.now.table.now)) }
{
    all_sights(alloc, part, OF_PANEL.as_slice())
}

/// Looks, of which there has to be one, unless there may be none.
fn unless_empty(
    alloc: Global,
    part: &Part<'_>,
    key: &str,
    words: &str,
    may_be: bool,
    looks: Vec<Look>,
) -> Result<Vec<Look>, Failure>
    ensures { Says (λ found. map sight found.items) result (unless_empty may_be (map sight looks.items)) }
{
    if looks.is_empty() {
        if may_be {
            return Ok(looks);
        }
        return Err(part.fault(alloc, key, words));
    }
    Ok(looks)
}

/// What has to be seen of a window: something, where one is named.
fn of_window(alloc: Global, part: &Part<'_>) -> Result<Vec<Look>, Failure>
    ensures { Says (λ looks. map sight looks.items) result (of_window (table_view part.now.table.now)) }
{
    let looks = sights_of_window(alloc, part)?;
    let may_be = !part.has("window");
    unless_empty(alloc, part, "window", WINDOW_WORDS, may_be, looks)
}

/// What has to be seen: something.
fn all_looks(alloc: Global, part: &Part<'_>) -> Result<Vec<Look>, Failure>
    ensures { Says (λ looks. map sight looks.items) result (looks_in (table_view part.now.table.now)) }
{
    let mut looks = of_window(alloc, part)?;
    let mut others = sights_of_panel(alloc, part)?;
    looks.append(&mut others)?;
    unless_empty(alloc, part, "", PANEL_WORDS, false, looks)
}

/// What has to be seen, by an entry, in the panel of which slot.
pub(crate) fn sights(
    alloc: Global,
    part: &Part<'_>,
    panels: &[AppBlock],
) -> Result<(usize, Vec<Look>), Failure>
    ensures { Says (λ found. (found.0, map sight found.1.items)) result (sights_in panels.now (table_view part.now.table.now)) }
{
    part.check_keys(alloc, known_keys())?;
    let slot = slot_named(alloc, part, "panel", panels)?;
    let looks = all_looks(alloc, part)?;
    Ok((slot, looks))
}
