//! What differs between two sections, for a person to read.

ghost use Rattle.std.specs.Prelude.{◌≡◌, ◌++◌, ◌∷◌, [], map, IfOk, OnOk};
ghost use Rattle.std.specs.String.{string_bytes};
ghost use Rattle.panels_text.specs.Differences.{counterpart, difference_words, differences, is_alike, or_same_lines, paired, path_in, topic, without_counterpart};

use crate::texts::{as_text, first_word, without};
use std::alloc::{AllocError, Global};

/// What a line of a section tells of: its windows one by one, and else all lines of a kind together.
fn part_of(line: &str) -> (&'static str, &str)
    ensures { record { kind = result.0.now; path = result.1.now } ≡ topic line.now }
{
    match first_word(line) {
        "app" => ("state", ""),
        "out" | "err" => ("transcript", ""),
        "timer" | "idle" => ("timers", ""),
        "win" => ("window ", path_of(line)),
        _ => ("section", ""),
    }
}

/// The path in the line of a window.
fn path_of(line: &str) -> &str
    ensures { result.now ≡ path_in line.now }
{
    first_word(line.strip_prefix("win ").unwrap_or(""))
}

/// Whether two lines tell of the same.
fn is_alike(line: &str, other: &str) -> bool
    ensures { result ≡ is_alike line.now other.now }
{
    let (kind, path) = part_of(line);
    let (other_kind, other_path) = part_of(other);
    other_kind == kind && other_path == path
}

/// Takes out the first line that tells of the same as another.
fn take_alike<'a>(others: &mut Vec<&'a str>, line: &str) -> &'a str
    ensures other { result.now ≡ counterpart line.now (map (λ other. other.now) others.old.items) }
    ensures left { map (λ other. other.now) others.new.items ≡ without_counterpart line.now (map (λ other. other.now) others.old.items) }
{
    for place in 0..others.len() {
        let other = others[place];
        if is_alike(line, other) {
            others.remove(place);
            return other;
        }
    }
    "(no line)"
}

/// Adds what differs in one place, which a line tells of: the line that was wanted and the one that there is.
fn push_difference(
    alloc: Global,
    found: &mut Vec<String>,
    line: &str,
    wanted: &str,
    got: &str,
) -> Result<(), AllocError>
    ensures { OnOk result (map string_bytes found.new.items ≡ map string_bytes found.old.items ++ difference_words (record { of = topic line.now; wanted = wanted.now; got = got.now }) ∷ []) }
{
    let (kind, path) = part_of(line);
    let text = format!(in alloc;
        "{kind}{path}, at the end:\n      wanted: {wanted}\n      got: {got}"
    )?;
    Ok(found.push(text)?)
}

/// Adds lines that weren't wanted.
fn push_unwanted(alloc: Global, found: &mut Vec<String>, lines: &[&str]) -> Result<(), AllocError>
    ensures { OnOk result (map string_bytes found.new.items ≡ map string_bytes found.old.items ++ map difference_words (paired [] (map (λ line. line.now) lines.now))) }
{
    for line in lines {
        push_difference(alloc, found, *line, "(no line)", *line)?;
    }
    Ok(())
}

/// Adds lines that were wanted and aren't there, each beside the first of the others that tells of the same, which is taken out.
fn push_wanted<'a>(
    alloc: Global,
    found: &mut Vec<String>,
    lines: &[&'a str],
    others: &mut Vec<&'a str>,
) -> Result<(), AllocError>
    ensures { OnOk result (map string_bytes found.new.items ++ map difference_words (paired [] (map (λ line. line.now) others.new.items)) ≡ map string_bytes found.old.items ++ map difference_words (paired (map (λ line. line.now) lines.now) (map (λ line. line.now) others.old.items))) }
{
    for line in lines {
        let other = take_alike(others, *line);
        push_difference(alloc, found, *line, *line, other)?;
    }
    Ok(())
}

/// What differs; where nothing does, that the same lines stand otherwise.
fn or_same_lines(alloc: Global, mut found: Vec<String>) -> Result<Vec<String>, AllocError>
    ensures { IfOk result (λ all. map string_bytes all.items ≡ or_same_lines (map string_bytes found.items)) }
{
    if found.is_empty() {
        let text = "the same lines stand in another order, or another number of times";
        found.push(String::from_str(alloc, text)?)?;
        return Ok(found);
    }
    Ok(found)
}

/// The lines that differ between the section that was wanted and the one that there is, each beside one of the other that tells of the same. Where the same
/// lines stand in another order, or in another number, that is said.
pub fn differences(alloc: Global, wanted: &[u8], got: &[u8]) -> Result<Vec<String>, AllocError>
    ensures { IfOk result (λ found. map string_bytes found.items ≡ differences wanted.now got.now) }
{
    let (wanted, got) = (as_text(wanted), as_text(got));
    let lines = without(alloc, wanted, got)?;
    let mut others = without(alloc, got, wanted)?;
    let mut found = Vec::new(alloc);
    push_wanted(alloc, &mut found, lines.as_slice(), &mut others)?;
    push_unwanted(alloc, &mut found, others.as_slice())?;
    or_same_lines(alloc, found)
}
