//! What is told of benches that were played.

ghost use Rattle.std.specs.Prelude.{◌≡◌, ◌≤◌, ◌+◌, ◌++◌, List, ℕ, length, map, None, option_map, slice_get, IfOk, OnOk};
ghost use Rattle.std.specs.String.{string_bytes};
ghost use Rattle.panels_report.specs.Cases.{AreCases, AreEnds, AreProblems, IsError, IsSpent, found_words, is_slot, last_case, placed, text_in, told as told_case};

use crate::ends::{error_words, has_run_out, spent_words, unwanted_error};
use crate::expecting::unexpected;
use crate::failing::{Failing, error_place, spent_place};
use crate::lists::push_all;
use panels::Played;
use panels_bench::{Read, Side, label_of, slot_of_finding, told};
use panels_film::section_in;
use panels_text::{Case, as_text, name_at};
use std::alloc::{AllocError, Global};
use tk_base::Budget;

/// Whether two panels are the same, or both none.
fn is_slot(one: Option<usize>, other: Option<usize>) -> bool
    ensures { result ≡ is_slot one other }
{
    match (one, other) {
        (None, None) => true,
        (Some(slot), Some(other)) => slot == other,
        (None, Some(_)) | (Some(_), None) => false,
    }
}

/// Adds what is found of a panel, or of none.
fn push_findings(
    alloc: Global,
    problems: &mut Vec<String>,
    read: &Read,
    played: &Played,
    slot: Option<usize>,
) -> Result<(), AllocError>
    ensures { OnOk result (map string_bytes problems.new.items ≡ map string_bytes problems.old.items ++ found_words read.now played.now slot) }
{
    for finding in &played.findings {
        if is_slot(slot_of_finding(&read.bench, finding), slot) {
            problems.push(told(alloc, &read.bench, read.lines.as_slice(), finding)?)?;
        }
    }
    Ok(())
}

/// A problem, and below it where it comes from.
fn placed(alloc: Global, words: String, place: Option<String>) -> Result<String, AllocError>
    ensures { IfOk result (λ text. string_bytes text ≡ placed (string_bytes words) (option_map string_bytes place)) }
{
    match place {
        Some(place) => format!(in alloc; "{}\n      {}", words.as_str(), place.as_str()),
        None => Ok(words),
    }
}

/// Adds an error of a script, where there is one.
fn push_error(
    alloc: Global,
    problems: &mut Vec<String>,
    failing: Option<Failing<'_>>,
    error: Option<&str>,
) -> Result<(), AllocError>
    ensures { OnOk result ((told : List (List ℕ)) × IsError (option_map (λ line. line.now) error.entry) told × (map string_bytes problems.new.items ≡ map string_bytes problems.old.items ++ told)) }
{
    let Some(line) = error else {
        return Ok(());
    };
    let place = match failing {
        Some(failing) => error_place(alloc, failing, line)?,
        None => None,
    };
    let words = error_words(alloc, line)?;
    Ok(problems.push(placed(alloc, words, place)?)?)
}

/// Adds that a panel with this budget ran out, where it did.
fn push_spent(
    alloc: Global,
    problems: &mut Vec<String>,
    failing: Option<Failing<'_>>,
    budget: Budget,
    is_spent: bool,
) -> Result<(), AllocError>
    ensures { OnOk result ((told : List (List ℕ)) × IsSpent budget is_spent told × (map string_bytes problems.new.items ≡ map string_bytes problems.old.items ++ told)) }
{
    if !is_spent {
        return Ok(());
    }
    let place = match failing {
        Some(failing) => spent_place(alloc, failing)?,
        None => None,
    };
    let words = spent_words(alloc, budget)?;
    Ok(problems.push(placed(alloc, words, place)?)?)
}

/// Adds an error of a script, and that a panel with this budget ran out, where the bench doesn't say that they may be.
fn push_ends(
    alloc: Global,
    problems: &mut Vec<String>,
    failing: Option<Failing<'_>>,
    side: &Side,
    budget: Budget,
    section: &str,
) -> Result<(), AllocError>
    ensures { OnOk result ((told : List (List ℕ)) × AreEnds side.now budget section.now told × (map string_bytes problems.new.items ≡ map string_bytes problems.old.items ++ told)) }
{
    push_error(alloc, problems, failing, unwanted_error(side, section))?;
    push_spent(alloc, problems, failing, budget, has_run_out(side, section))?;
    Ok(())
}

/// What a panel of a bench has of problems; the empty name is that of none.
fn case(alloc: Global, file: &str, name: &str, problems: Vec<String>) -> Result<Case, AllocError>
    ensures bench { IfOk result (λ case. string_bytes case.bench ≡ file.now) }
    ensures panel { IfOk result (λ case. string_bytes case.panel ≡ name.now) }
    ensures problems { IfOk result (λ case. case.problems.items ≡ problems.items) }
{
    Ok(Case {
        bench: String::from_str(alloc, file)?,
        panel: String::from_str(alloc, name)?,
        problems,
    })
}

/// The panel in a slot, by which it is told where it failed.
fn failing_of<'a>(
    script: &'a str,
    label: &'a str,
    played: &'a Played,
    slot: usize,
) -> Option<Failing<'a>> {
    let ending = played.endings.as_slice().get(slot)?;
    Some(Failing {
        script,
        label,
        events: played.events.as_slice(),
        ending,
    })
}

/// What isn't as it has to be of the panel in a slot.
fn problems_of(
    alloc: Global,
    file: &str,
    read: &Read,
    played: &Played,
    slot: usize,
    side: &Side,
    wanted: Option<&[u8]>,
) -> Result<Vec<String>, AllocError>
    ensures { IfOk result (λ problems. AreProblems read.now played.now slot side.now (option_map (λ text. text.now) wanted.entry) (slice_get read.now.bench.panels.items slot) (map string_bytes problems.items)) }
{
    let mut problems = Vec::new(alloc);
    let Some(panel) = read.bench.panels.as_slice().get(slot) else {
        return Ok(problems);
    };
    let section = section_in(played.sections.as_slice(), slot);
    let label = label_of(alloc, file, side, panel.name.as_str())?;
    let failing = failing_of(panel.script.as_str(), label.as_str(), played, slot);
    push_ends(
        alloc,
        &mut problems,
        failing,
        side,
        panel.budget,
        as_text(section),
    )?;
    push_findings(alloc, &mut problems, read, played, Some(slot))?;
    let others = unexpected(alloc, side, wanted, section)?;
    push_all(&mut problems, others)?;
    Ok(problems)
}

/// The text of the expected file of the panel in a slot, where it is there.
fn wanted_in(wanted: &[Option<Vec<u8>>], slot: usize) -> Option<&[u8]>
    ensures { option_map (λ text. text.now) result ≡ text_in (slice_get wanted.now slot) }
{
    match wanted.get(slot) {
        Some(Some(text)) => Some(text.as_slice()),
        Some(None) | None => None,
    }
}

/// Adds the case for what is of no panel, where there is such.
fn push_last(
    alloc: Global,
    cases: &mut Vec<Case>,
    file: &str,
    read: &Read,
    played: &Played,
) -> Result<(), AllocError>
    ensures least { OnOk result (length cases.old.items ≤ length cases.new.items) }
    ensures most { OnOk result (length cases.new.items ≤ length cases.old.items + 1) }
    ensures told { OnOk result (map told_case cases.new.items ≡ map told_case cases.old.items ++ last_case file.now (found_words read.now played.now None)) }
{
    let mut problems = Vec::new(alloc);
    push_findings(alloc, &mut problems, read, played, None)?;
    if !problems.is_empty() {
        cases.push(case(alloc, file, "", problems)?)?;
    }
    Ok(())
}

/// The cases of a bench that was played, whose panels have expected files with these texts, where these are there: a case for each panel, and behind them
/// one for what is of none, where there is such. An error where memory is refused.
pub fn cases_of(
    alloc: Global,
    file: &str,
    read: &Read,
    played: &Played,
    wanted: &[Option<Vec<u8>>],
) -> Result<Vec<Case>, AllocError>
    ensures least { IfOk result (λ cases. length read.now.sides.items ≤ length cases.items) }
    ensures most { IfOk result (λ cases. length cases.items ≤ length read.now.sides.items + 1) }
    ensures told { IfOk result (λ cases. AreCases file.now read.now played.now wanted.now 0 read.now.sides.items (map told_case cases.items)) }
{
    let mut cases = Vec::new(alloc);
    for (slot, side) in read.sides.iter().enumerate() {
        let name = name_at(read.bench.panels.as_slice(), slot);
        let wanted = wanted_in(wanted, slot);
        let problems = problems_of(alloc, file, read, played, slot, side, wanted)?;
        cases.push(case(alloc, file, name, problems)?)?;
    }
    push_last(alloc, &mut cases, file, read, played)?;
    Ok(cases)
}
