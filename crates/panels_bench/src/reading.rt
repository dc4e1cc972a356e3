//! How a bench is read.

ghost use Rattle.std.specs.Prelude.{◌≡◌, ◌≤◌, ◌++◌, List, length, map, IfOk, MatchResult};
ghost use Rattle.panels_bench.specs.Benches.{IsRead, IsReadOf};
ghost use Rattle.panels_bench.specs.Entries.{AreEntries, Happening, IsInOrder, IsMoment, deeds_from, deeds_of, does, happening, moment_in, moment_of_deed, most_moment, sights_from, sights_of};
ghost use Rattle.panels_bench.specs.Gestures.{deed};
ghost use Rattle.panels_bench.specs.Values.{Says};
ghost use Rattle.panels_text.specs.Tables.{IsSaid};
ghost use Rattle.toml.specs.View.{table_view};

use crate::doing::gestures;
use crate::seeing::sights;
use crate::sides::{Side, sides};
use crate::values::number_if;
use panels::{Act, Bench, Entry, Gesture};
use panels_text::{Failure, Part, fault, line_at};
use std::alloc::{AllocError, Global};
use std::rt::Files;
use tk_base::MAX_MOMENT;
use tk_session::AppBlock;
use toml::Table;
use toml::de::Error;

const KEYS: [&str; 5] = ["end", "slice", "panel", "do", "see"];

/// How many steps a panel takes before the next has its turn, where a bench doesn't say.
const SLICE: u64 = 64;

/// A bench as it was read, with what its file says beside it.
#[derive(Drop)]
pub struct Read {
    pub bench: Bench,
    /// At least 1.
    pub slice: u64,
    /// What is said of each panel beside its application.
    pub sides: Vec<Side>,
    /// The line of each entry.
    pub lines: Vec<usize>,
}

/// An entry, and where it stands.
#[derive(Drop)]
pub(crate) struct Placed {
    pub(crate) line: usize,
    pub(crate) entry: Entry,
}

/// The fault of a text that isn't TOML.
fn not_toml(alloc: Global, file: &str, text: &str, error: &Error) -> Failure {
    if error.is_memory() {
        return Failure::NoMemory;
    }
    let line = match error.span() {
        Some(span) => line_at(text, span.start),
        None => 0,
    };
    match format!(in alloc; "this isn't TOML: {}", error.message()) {
        Ok(words) => fault(alloc, file, line, words.as_str()),
        Err(_) => Failure::NoMemory,
    }
}

/// The moment of an entry, by `time`, or by `after` from the one above; that of the end where neither is said.
fn moment(alloc: Global, part: &Part<'_>, before: u64, end: u64) -> Result<u64, Failure>
    requires before { before ≤ end }
    requires end { end ≤ most_moment }
    ensures moment { IfOk result (IsMoment part.now before end) }
    ensures said { Says (λ moment. moment) result (moment_in before end (table_view part.now.table.now)) }
{
    let time = number_if(alloc, part, "time", MAX_MOMENT)?;
    let after = number_if(alloc, part, "after", MAX_MOMENT)?;
    let moment = match (time, after) {
        (None, None) => end,
        (Some(time), None) => time,
        (None, Some(after)) => before.saturating_add(after),
        (Some(_), Some(_)) => {
            return Err(part.fault(alloc, "after", "an entry has one of time and after"));
        }
    };
    if moment < before {
        let words = format!(in alloc;
            "time {moment} is before {before}, the time of the entry above"
        )?;
        return Err(part.fault(alloc, "time", words.as_str()));
    }
    if moment > end {
        let words = format!(in alloc; "time {moment} is behind the end, which is {end}")?;
        return Err(part.fault(alloc, "time", words.as_str()));
    }
    Ok(moment)
}

/// The gestures of an entry that stands in a line.
fn placed_gestures(
    alloc: Global,
    line: usize,
    moment: u64,
    gestures: Vec<Gesture>,
) -> Result<Vec<Placed>, AllocError>
    ensures { IfOk result (λ placed. map happening placed.items ≡ map (does line moment) (map deed gestures.items)) }
{
    let mut placed = Vec::new(alloc);
    for gesture in gestures {
        let act = Act::Do(gesture);
        let entry = Entry { moment, act };
        placed.push(Placed { line, entry })?;
    }
    Ok(placed)
}

/// Adds the gestures of an entry.
fn push_gestures(
    alloc: Global,
    part: &Part<'_>,
    moment: u64,
    panels: &[AppBlock],
    placed: &mut Vec<Placed>,
) -> Result<(), Failure>
    ensures { MatchResult result (λ done. (more : List Happening) × (deeds_of panels.now moment part.now ≡ Some more) × (map happening placed.new.items ≡ map happening placed.old.items ++ more)) (λ failure. IsSaid failure → deeds_of panels.now moment part.now ≡ None) }
{
    let gestures = gestures(alloc, part, panels)?;
    let mut more = placed_gestures(alloc, part.line(""), moment, gestures)?;
    Ok(placed.append(&mut more)?)
}

/// The moment of what is done, which has to be said.
fn moment_of_deed(alloc: Global, part: &Part<'_>, before: u64, end: u64) -> Result<u64, Failure>
    requires before { before ≤ end }
    requires end { end ≤ most_moment }
    ensures moment { IfOk result (IsMoment part.now before end) }
    ensures said { Says (λ moment. moment) result (moment_of_deed before end (table_view part.now.table.now)) }
{
    if !part.has("time") && !part.has("after") {
        let words = "a [[do]] has a time, or an after from the one above";
        return Err(part.fault(alloc, "", words));
    }
    moment(alloc, part, before, end)
}

/// Adds what is done.
fn push_deeds(
    alloc: Global,
    parts: &[Part<'_>],
    panels: &[AppBlock],
    end: u64,
    placed: &mut Vec<Placed>,
) -> Result<(), Failure>
    requires { end ≤ most_moment }
    ensures { MatchResult result (λ done. (more : List Happening) × (deeds_from panels.now end 0 parts.now ≡ Some more) × (map happening placed.new.items ≡ map happening placed.old.items ++ more)) (λ failure. IsSaid failure → deeds_from panels.now end 0 parts.now ≡ None) }
{
    let mut before = 0;
    for part in parts {
        before = moment_of_deed(alloc, part, before, end)?;
        push_gestures(alloc, part, before, panels, placed)?;
    }
    Ok(())
}

/// Adds what has to be seen, by an entry.
fn push_sight(
    alloc: Global,
    part: &Part<'_>,
    moment: u64,
    panels: &[AppBlock],
    placed: &mut Vec<Placed>,
) -> Result<(), Failure>
    ensures { MatchResult result (λ done. (more : List Happening) × (sights_of panels.now moment part.now ≡ Some more) × (map happening placed.new.items ≡ map happening placed.old.items ++ more)) (λ failure. IsSaid failure → sights_of panels.now moment part.now ≡ None) }
{
    let (slot, looks) = sights(alloc, part, panels)?;
    let act = Act::See { slot, looks };
    let line = part.line("");
    let entry = Entry { moment, act };
    Ok(placed.push(Placed { line, entry })?)
}

/// Adds what has to be seen.
fn push_sights(
    alloc: Global,
    parts: &[Part<'_>],
    panels: &[AppBlock],
    end: u64,
    placed: &mut Vec<Placed>,
) -> Result<(), Failure>
    requires { end ≤ most_moment }
    ensures { MatchResult result (λ done. (more : List Happening) × (sights_from panels.now end 0 parts.now ≡ Some more) × (map happening placed.new.items ≡ map happening placed.old.items ++ more)) (λ failure. IsSaid failure → sights_from panels.now end 0 parts.now ≡ None) }
{
    let mut before = 0;
    for part in parts {
        before = moment(alloc, part, before, end)?;
        push_sight(alloc, part, before, panels, placed)?;
    }
    Ok(())
}

/// Entries in the order of their moments.
fn in_order(mut placed: Vec<Placed>) -> Result<Vec<Placed>, AllocError>
    ensures { IfOk result (λ sorted. IsInOrder placed.items sorted.items) }
{
    placed.sort_by_key(|placed| placed.entry.moment)?;
    Ok(placed)
}

/// The line of each, and the entries.
fn parted(alloc: Global, placed: Vec<Placed>) -> Result<(Vec<usize>, Vec<Entry>), AllocError>
    ensures lines { IfOk result (λ parted. parted.0.items ≡ map (λ own. own.line) placed.items) }
    ensures entries { IfOk result (λ parted. parted.1.items ≡ map (λ own. own.entry) placed.items) }
{
    let mut lines = Vec::new(alloc);
    let mut entries = Vec::new(alloc);
    for placed in placed {
        let Placed { line, entry } = placed;
        lines.push(line)?;
        entries.push(entry)?;
    }
    Ok((lines, entries))
}

/// What happens on a bench, in the order of the moments: what is done at a moment comes before what is seen then. The line of each, and the entry.
fn placed_entries(
    alloc: Global,
    root: &Part<'_>,
    panels: &[AppBlock],
    end: u64,
) -> Result<(Vec<usize>, Vec<Entry>), Failure>
    requires { end ≤ most_moment }
    ensures count { IfOk result (λ read. length read.0.items ≡ length read.1.items) }
    ensures entries { IfOk result (λ read. AreEntries root.now panels.now end read.0.items read.1.items) }
{
    let deeds = root.entries(alloc, "do")?;
    let sights = root.entries(alloc, "see")?;
    let mut placed = Vec::new(alloc);
    push_deeds(alloc, deeds.as_slice(), panels, end, &mut placed)?;
    push_sights(alloc, sights.as_slice(), panels, end, &mut placed)?;
    let sorted = in_order(placed)?;
    Ok(parted(alloc, sorted)?)
}

/// What the table of a bench says.
fn read_table<R: Files + AllocGlobal>(rt: &R, root: &Part<'_>) -> Result<Read, Failure>
    ensures { IfOk result (IsRead root.now) }
{
    let alloc = rt.alloc();
    root.check_keys(alloc, KEYS.as_slice())?;
    let Some(end) = root.number(alloc, "end", MAX_MOMENT)? else {
        return Err(root.refused(alloc, "end", "the moment of the end, in milliseconds"));
    };
    let slice = root.number(alloc, "slice", 10_000_000)?.unwrap_or(SLICE);
    let (panels, sides) = sides(rt, root.entries(alloc, "panel")?.as_slice())?;
    let mut bench = Bench {
        panels,
        entries: Vec::new(alloc),
        end,
    };
    let (lines, entries) = placed_entries(alloc, root, bench.panels.as_slice(), end)?;
    bench.entries = entries;
    Ok(Read {
        bench,
        slice: slice.max(1),
        sides,
        lines,
    })
}

/// Reads a bench. What is wrong with it is told in words, with its file and its line: a key that isn't there, with what would serve; a value that
/// isn't what is wanted; a panel or a file that isn't there; a time that goes back; an entry that says nothing or too much.
pub(crate) fn read_bench<R: Files + AllocGlobal>(
    rt: &R,
    file: &str,
    text: &str,
) -> Result<Read, Failure>
    ensures { IfOk result (IsReadOf text.now) }
{
    let alloc = rt.alloc();
    let table: Table = match toml::table_from_str(alloc, text) {
        Ok(table) => table,
        Err(error) => return Err(not_toml(alloc, file, text, &error)),
    };
    let root = Part {
        file,
        bench: text,
        array: "",
        index: 0,
        key: "",
        table: &table,
    };
    read_table(rt, &root)
}
