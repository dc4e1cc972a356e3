//! What a person does.

ghost use Rattle.std.specs.Prelude.{◌≡◌, ◌∷◌, [], codes, map, option_map, IfOk};
ghost use Rattle.panels_bench.specs.Gestures.{LinesDeed, aim, aim_in, deed, deeds_at, deeds_by, deeds_in, deeds_of, drag_in, drag_keys, dropping_in, focus_in, focus_of, keys, line_in, line_of, of_panels, placing_in, placing_of, pointer_keys, pointing_in, presses, rect_keys, struck_in, touch_in, typed_in};
ghost use Rattle.panels_bench.specs.Values.{Says, all_said, counted, table_if};
ghost use Rattle.panels_text.specs.Tables.{value_of};
ghost use Rattle.panels_text.specs.Words.{words_of};
ghost use Rattle.toml.specs.View.{table_view};

use crate::sides::{rect, slot_by, slot_named};
use crate::typing::{struck, typed};
use crate::values::{counted, flag_if, number_if, text_if, text_in};
use panels::{Gesture, Pointing, Target, Touch};
use panels_text::{Failure, Part};
use std::alloc::{AllocError, Global};
use tk_session::{AppBlock, HostLine, read_event};
use toml::Value;

/// How a key says what is done.
#[derive(Clone, Copy)]
enum Way {
    /// The pointer comes to a window, and a button does something there.
    Touches(Touch),
    /// It is pressed, moved and released.
    Drags,
    /// Keys type a text.
    Types,
    /// A key is struck.
    Strikes,
    /// A panel is given the keyboard.
    Focuses,
    /// A panel is given its rectangle.
    Places,
    /// A line of a session.
    Tells,
}

const KEYS: [&str; 13] = [
    "time",
    "after",
    "click",
    "double-click",
    "press",
    "release",
    "move",
    "drag",
    "type",
    "key",
    "focus",
    "rect",
    "line",
];

/// The keys by which something is done.
const WAYS: [(&str, Way); 11] = [
    ("click", Way::Touches(Touch::Click)),
    ("double-click", Way::Touches(Touch::DoubleClick)),
    ("press", Way::Touches(Touch::Press)),
    ("release", Way::Touches(Touch::Release)),
    ("move", Way::Touches(Touch::Move)),
    ("drag", Way::Drags),
    ("type", Way::Types),
    ("key", Way::Strikes),
    ("focus", Way::Focuses),
    ("rect", Way::Places),
    ("line", Way::Tells),
];

const POINTER_KEYS: [&str; 6] = ["panel", "window", "x", "y", "button", "focus"];

const DRAG_KEYS: [&str; 10] = [
    "panel", "window", "x", "y", "to", "to-x", "to-y", "moves", "button", "focus",
];

const RECT_KEYS: [&str; 3] = ["panel", "at", "size"];

/// The largest place of the pointer in a window, in pixels.
const MAX_PLACE: u64 = 65_535;

/// How many moves a drag has where it doesn't say, and at most.
const MOVES: u32 = 8;

const MOST_MOVES: u32 = 1_000;

/// The window of a gesture, and the place in it.
fn target(
    alloc: Global,
    part: &Part<'_>,
    window: &str,
    x: &str,
    y: &str,
    panels: &[AppBlock],
) -> Result<Target, Failure>
    ensures { Says aim result (aim_in panels.now (table_view part.now.table.now) window.now x.now y.now) }
{
    let slot = slot_named(alloc, part, "panel", panels)?;
    let path = text_in(alloc, part, window, "a window, as \".switch\"")?;
    let across = number_if(alloc, part, x, MAX_PLACE)?;
    let down = number_if(alloc, part, y, MAX_PLACE)?;
    Ok(Target {
        slot,
        window: String::from_str(alloc, path)?,
        x: across,
        y: down,
    })
}

/// Whether a button is pressed.
fn presses(touch: Touch) -> bool
    ensures { result ≡ presses touch }
{
    match touch {
        Touch::Click | Touch::DoubleClick | Touch::Press => true,
        Touch::Release | Touch::Move => false,
    }
}

fn button(alloc: Global, part: &Part<'_>) -> Result<u32, Failure>
    ensures { Says (λ button. button) result (counted 1 5 (value_of part.now (codes "button"))) }
{
    counted(alloc, part, "button", 1, 5)
}

/// What the pointer does at a window.
fn pointing(
    alloc: Global,
    part: &Part<'_>,
    touch: Touch,
    panels: &[AppBlock],
) -> Result<Gesture, Failure>
    ensures { Says deed result (pointing_in panels.now touch (table_view part.now.table.now)) }
{
    let target = target(alloc, part, "window", "x", "y", panels)?;
    let button = button(alloc, part)?;
    let keys = flag_if(alloc, part, "focus")?;
    Ok(Gesture::Pointer(Pointing {
        target,
        moves: 1,
        touch,
        button,
        takes_keys: keys.unwrap_or(presses(touch)),
    }))
}

/// The moves of a drag, and the release that ends it.
fn dropping(alloc: Global, part: &Part<'_>, panels: &[AppBlock]) -> Result<Gesture, Failure>
    ensures { Says deed result (dropping_in panels.now (table_view part.now.table.now)) }
{
    let target = target(alloc, part, "to", "to-x", "to-y", panels)?;
    let moves = counted(alloc, part, "moves", MOVES, MOST_MOVES)?;
    let button = button(alloc, part)?;
    Ok(Gesture::Pointer(Pointing {
        target,
        moves,
        touch: Touch::Release,
        button,
        takes_keys: false,
    }))
}

/// The keys of a table of gestures.
fn known_keys() -> &'static [&'static str]
    ensures { words_of result.now ≡ keys }
{
    KEYS.as_slice()
}

/// The keys of a gesture at a window.
fn pointer_keys() -> &'static [&'static str]
    ensures { words_of result.now ≡ pointer_keys }
{
    POINTER_KEYS.as_slice()
}

/// Those of a drag.
fn drag_keys() -> &'static [&'static str]
    ensures { words_of result.now ≡ drag_keys }
{
    DRAG_KEYS.as_slice()
}

/// Those of a rectangle.
fn rect_keys() -> &'static [&'static str]
    ensures { words_of result.now ≡ rect_keys }
{
    RECT_KEYS.as_slice()
}

/// The table that a key has, with these keys.
fn inner<'a>(
    alloc: Global,
    part: &Part<'a>,
    key: &'static str,
    known: &[&str],
) -> Result<Option<Part<'a>>, Failure>
    ensures { Says (option_map (λ inner. table_view inner.table.now)) result (table_if (words_of known.now) (value_of part.now key.now)) }
{
    let Some(value) = part.value(key) else {
        return Ok(None);
    };
    let Value::Table(table) = value else {
        let wanted = "a table, as { panel = \"lamp\", window = \".switch\" }";
        return Err(part.refused(alloc, key, wanted));
    };
    let inner = part.inner(key, table);
    inner.check_keys(alloc, known)?;
    Ok(Some(inner))
}

/// One gesture.
fn one(alloc: Global, gesture: Gesture) -> Result<Vec<Gesture>, AllocError>
    ensures { IfOk result (λ found. map deed found.items ≡ deed gesture ∷ []) }
{
    let mut found = Vec::new(alloc);
    found.push(gesture)?;
    Ok(found)
}

/// A line of a session as a gesture.
fn told(alloc: Global, line: HostLine) -> Result<Vec<Gesture>, AllocError>
    ensures { IfOk result (λ found. map deed found.items ≡ LinesDeed (line ∷ []) ∷ []) }
{
    let mut lines = Vec::new(alloc);
    lines.push(line)?;
    one(alloc, Gesture::Lines(lines))
}

/// What the pointer does by a key, where the table has it.
fn touch_at(
    alloc: Global,
    part: &Part<'_>,
    key: &'static str,
    touch: Touch,
    panels: &[AppBlock],
) -> Result<Vec<Gesture>, Failure>
    ensures { Says (λ found. map deed found.items) result (touch_in panels.now touch (value_of part.now key.now)) }
{
    let Some(inner) = inner(alloc, part, key, pointer_keys())? else {
        return Ok(Vec::new(alloc));
    };
    let gesture = pointing(alloc, &inner, touch, panels)?;
    Ok(one(alloc, gesture)?)
}

/// A drag: a press, and moves that end in a release.
fn drag_at(
    alloc: Global,
    part: &Part<'_>,
    key: &'static str,
    panels: &[AppBlock],
) -> Result<Vec<Gesture>, Failure>
    ensures { Says (λ found. map deed found.items) result (drag_in panels.now (value_of part.now key.now)) }
{
    let Some(inner) = inner(alloc, part, key, drag_keys())? else {
        return Ok(Vec::new(alloc));
    };
    let press = pointing(alloc, &inner, Touch::Press, panels)?;
    let release = dropping(alloc, &inner, panels)?;
    let mut found = Vec::new(alloc);
    found.push(press)?;
    found.push(release)?;
    Ok(found)
}

/// The keys that type a text.
fn typed_at(alloc: Global, part: &Part<'_>, key: &str) -> Result<Vec<Gesture>, Failure>
    ensures { Says (λ found. map deed found.items) result (typed_in (value_of part.now key.now)) }
{
    let Some(text) = text_if(alloc, part, key)? else {
        return Ok(Vec::new(alloc));
    };
    let lines = typed(alloc, part, text)?;
    Ok(one(alloc, Gesture::Keys(lines))?)
}

/// A key that is struck.
fn struck_at(alloc: Global, part: &Part<'_>, key: &str) -> Result<Vec<Gesture>, Failure>
    ensures { Says (λ found. map deed found.items) result (struck_in (value_of part.now key.now)) }
{
    let Some(text) = text_if(alloc, part, key)? else {
        return Ok(Vec::new(alloc));
    };
    let lines = struck(alloc, part, text)?;
    Ok(one(alloc, Gesture::Keys(lines))?)
}

/// The line that gives the keyboard to the panel of this name, or to none.
fn focus_of(
    alloc: Global,
    part: &Part<'_>,
    key: &str,
    name: &str,
    panels: &[AppBlock],
) -> Result<HostLine, Failure>
    ensures { Says (λ line. line) result (focus_of panels.now name.now) }
{
    if name == "-" {
        return Ok(HostLine::Focus(None));
    }
    let slot = slot_by(alloc, part, key, name, panels)?;
    Ok(HostLine::Focus(Some(slot)))
}

fn focus_at(
    alloc: Global,
    part: &Part<'_>,
    key: &str,
    panels: &[AppBlock],
) -> Result<Vec<Gesture>, Failure>
    ensures { Says (λ found. map deed found.items) result (focus_in panels.now (value_of part.now key.now)) }
{
    let Some(name) = text_if(alloc, part, key)? else {
        return Ok(Vec::new(alloc));
    };
    let line = focus_of(alloc, part, key, name, panels)?;
    Ok(told(alloc, line)?)
}

/// The line that gives a panel's rectangle.
fn placing(alloc: Global, part: &Part<'_>, panels: &[AppBlock]) -> Result<HostLine, Failure>
    ensures { Says (λ line. line) result (placing_of panels.now (table_view part.now.table.now)) }
{
    let slot = slot_named(alloc, part, "panel", panels)?;
    let rect = rect(alloc, part)?;
    Ok(HostLine::Rect { slot, rect })
}

fn placing_at(
    alloc: Global,
    part: &Part<'_>,
    key: &'static str,
    panels: &[AppBlock],
) -> Result<Vec<Gesture>, Failure>
    ensures { Says (λ found. map deed found.items) result (placing_in panels.now (value_of part.now key.now)) }
{
    let Some(inner) = inner(alloc, part, key, rect_keys())? else {
        return Ok(Vec::new(alloc));
    };
    let line = placing(alloc, &inner, panels)?;
    Ok(told(alloc, line)?)
}

/// A line that names no panel which isn't there.
fn of_panels(line: HostLine, count: usize) -> Option<HostLine>
    ensures { result ≡ of_panels count line }
{
    match line {
        HostLine::Focus(Some(slot)) if slot >= count => None,
        HostLine::Rect { slot, .. } if slot >= count => None,
        line => Some(line),
    }
}

/// The line of a session that is written without its moment, where it is one.
fn line_of(alloc: Global, panels: &[AppBlock], words: &str) -> Result<Option<HostLine>, AllocError>
    ensures { IfOk result (λ line. line ≡ line_of panels.now words.now) }
{
    let line = format!(in alloc; "0 {words}")?;
    match read_event(panels, line.as_str().as_bytes()) {
        Some(event) => Ok(of_panels(event.line, panels.len())),
        None => Ok(None),
    }
}

fn line_at(
    alloc: Global,
    part: &Part<'_>,
    key: &str,
    panels: &[AppBlock],
) -> Result<Vec<Gesture>, Failure>
    ensures { Says (λ found. map deed found.items) result (line_in panels.now (value_of part.now key.now)) }
{
    let Some(words) = text_if(alloc, part, key)? else {
        return Ok(Vec::new(alloc));
    };
    match line_of(alloc, panels, words)? {
        Some(line) => Ok(told(alloc, line)?),
        None => {
            let wanted =
                "a line of a session without its moment: move X Y, press BUTTON, release BUTTON, keydown KEY, keyup KEY, focus NAME, focus - or rect NAME X Y WIDTH HEIGHT";
            Err(part.refused(alloc, key, wanted))
        }
    }
}

/// What a key says, by its way.
fn deeds_at(
    alloc: Global,
    part: &Part<'_>,
    key: &'static str,
    way: Way,
    panels: &[AppBlock],
) -> Result<Vec<Gesture>, Failure>
    ensures { Says (λ found. map deed found.items) result (deeds_by panels.now way (value_of part.now key.now)) }
{
    match way {
        Way::Touches(touch) => touch_at(alloc, part, key, touch, panels),
        Way::Drags => drag_at(alloc, part, key, panels),
        Way::Types => typed_at(alloc, part, key),
        Way::Strikes => struck_at(alloc, part, key),
        Way::Focuses => focus_at(alloc, part, key, panels),
        Way::Places => placing_at(alloc, part, key, panels),
        Way::Tells => line_at(alloc, part, key, panels),
    }
}

/// What keys say, one after another.
fn all_deeds(
    alloc: Global,
    part: &Part<'_>,
    ways: &[(&'static str, Way)],
    panels: &[AppBlock],
) -> Result<Vec<Gesture>, Failure>
    ensures { Says (λ found. map deed found.items) result (all_said (map (λ row. deeds_at panels.now (table_view part.now.table.now) row.0.now row.1) ways.now)) }
{
    let mut found = Vec::new(alloc);
    for way in ways {
        let mut more = deeds_at(alloc, part, way.0, way.1, panels)?;
        found.append(&mut more)?;
    }
    Ok(found)
}

/// What the keys of a table say.
fn deeds_of(alloc: Global, part: &Part<'_>, panels: &[AppBlock]) -> Result<Vec<Gesture>, Failure>
    ensures { Says (λ found. map deed found.items) result (deeds_of panels.now (table_view part.now.table.now)) }
{
    all_deeds(alloc, part, WAYS.as_slice(), panels)
}

/// The gestures of an entry: a drag is two, a press, and moves that end in a release.
pub(crate) fn gestures(
    alloc: Global,
    part: &Part<'_>,
    panels: &[AppBlock],
) -> Result<Vec<Gesture>, Failure>
    ensures { Says (λ found. map deed found.items) result (deeds_in panels.now (table_view part.now.table.now)) }
{
    part.check_keys(alloc, known_keys())?;
    let found = deeds_of(alloc, part, panels)?;
    let count = part.table.len();
    if count != 2 {
        let words =
            "a [[do]] has a time or an after, and one of click, double-click, press, release, move, drag, type, key, focus, rect and line";
        return Err(part.fault(alloc, "", words));
    }
    Ok(found)
}
