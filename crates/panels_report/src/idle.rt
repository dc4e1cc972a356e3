//! Presses and keys that did nothing, where a bench fails.

ghost use Rattle.std.specs.Prelude.{◌≡◌, None, Some, false, true, map, option_map, IfOk, OnOk};
ghost use Rattle.std.specs.List.{list_all};
ghost use Rattle.std.specs.Option.{option_copied};
ghost use Rattle.std.specs.String.{string_bytes};
ghost use Rattle.panels_film.specs.Getters.{told as told_getter};
ghost use Rattle.panels_report.specs.Cases.{told};
ghost use Rattle.panels_report.specs.Idle.{HaveIdle, case_for, has_problem, idle_getter, idle_words, more_problems, tell_idle, tell_line, tell_lines, telling, with_problem};
ghost use Rattle.panels_text.specs.Verdicts.{is_fine};
ghost use Rattle.panels_text.specs.declared.cases.Case.{Case as CaseOf};

use panels_film::{Getter, Note, notes_of};
use panels_text::{Case, line_words};
use std::alloc::{AllocError, Global};
use tk_session::{AppBlock, EventLine, Session};

/// How many of them are told of a bench.
const MOST_TOLD: usize = 5;

/// Whether a case fails.
fn has_problem(case: &Case) -> bool
    ensures { result ≡ has_problem (told case.now) }
{
    !case.problems.is_empty()
}

/// Whether all is as it has to be.
fn is_fine(case: &Case) -> bool
    ensures { result ≡ is_fine case.now }
{
    case.problems.is_empty()
}

fn are_fine(cases: &[Case]) -> bool
    ensures { result ≡ list_all is_fine cases.now }
{
    cases.iter().all(|case| is_fine(case))
}

/// The case of a panel, if it fails.
fn failing(cases: &[Case], slot: usize) -> Option<usize>
    ensures { result ≡ case_for (λ (case : CaseOf). has_problem (told case)) cases.now (Some slot) }
{
    match cases.get(slot) {
        Some(case) if has_problem(case) => Some(slot),
        _ => None,
    }
}

/// The first case that fails.
fn first_failing(cases: &[Case]) -> Option<usize>
    ensures { result ≡ case_for (λ (case : CaseOf). has_problem (told case)) cases.now None }
{
    cases.iter().position(|case| has_problem(case))
}

/// The number of the case to which it is told who got a line: that of the panel, or the first that fails where no panel got it. None where it doesn't fail.
fn case_for(cases: &[Case], slot: Option<usize>) -> Option<usize>
    ensures { result ≡ case_for (λ (case : CaseOf). has_problem (told case)) cases.now slot }
{
    match slot {
        Some(slot) => failing(cases, slot),
        None => first_failing(cases),
    }
}

/// Adds a problem to a case.
fn add_problem(case: &mut Case, words: String) -> Result<(), AllocError>
    ensures { OnOk result (told case.new ≡ more_problems (string_bytes words) (told case.old)) }
{
    Ok(case.problems.push(words)?)
}

/// Adds a problem to the case of a number, where it is there.
fn push_problem(cases: &mut [Case], number: usize, words: String) -> Result<(), AllocError>
    ensures { OnOk result (map told cases.new ≡ with_problem (string_bytes words) number (map told cases.old)) }
{
    if number >= cases.len() {
        return Ok(());
    }
    add_problem(&mut cases[number], words)
}

/// Who got a press or a key that ran no script and changed nothing; nothing of other lines.
fn idle_getter(note: &Note) -> Option<&Getter>
    ensures { option_map told_getter (option_copied result) ≡ idle_getter note.now }
{
    if note.ran || note.changed {
        return None;
    }
    note.getter.as_ref()
}

/// A press or a key that did nothing, in words.
fn idle_words(
    alloc: Global,
    panels: &[AppBlock],
    event: EventLine,
    getter: &Getter,
) -> Result<String, AllocError>
    ensures { IfOk result (λ text. string_bytes text ≡ idle_words panels.now event (told_getter getter.now)) }
{
    let words = line_words(alloc, event.line, panels)?;
    let got = getter.words(alloc, panels)?;
    format!(in alloc;
        "at {} ms: {}: no script ran, {}",
        event.moment,
        words.as_str(),
        got.as_str()
    )
}

/// Tells of a line who got it, where so many were told and it did nothing; answers how many are told then.
fn tell_idle(
    alloc: Global,
    cases: &mut [Case],
    panels: &[AppBlock],
    event: EventLine,
    getter: Option<&Getter>,
    count: usize,
) -> Result<usize, AllocError>
    ensures { IfOk result (λ next. telling next (map told cases.new) ≡ tell_idle panels.now event (option_map told_getter (option_copied getter.entry)) (telling count (map told cases.old))) }
{
    let Some(getter) = getter else {
        return Ok(count);
    };
    if count >= MOST_TOLD {
        return Ok(count);
    }
    match case_for(cases, getter.slot()) {
        Some(number) => {
            let words = idle_words(alloc, panels, event, getter)?;
            push_problem(cases, number, words)?;
            Ok(count + 1)
        }
        None => Ok(count),
    }
}

/// The same by the line's note, where there is one.
fn tell_line(
    alloc: Global,
    cases: &mut [Case],
    panels: &[AppBlock],
    event: EventLine,
    note: Option<&Note>,
    count: usize,
) -> Result<usize, AllocError>
    ensures { IfOk result (λ next. telling next (map told cases.new) ≡ tell_line panels.now event (option_copied note.entry) (telling count (map told cases.old))) }
{
    match note {
        Some(note) => tell_idle(alloc, cases, panels, event, idle_getter(note), count),
        None => Ok(count),
    }
}

/// Adds to the cases that fail who got the first presses and keys that ran no script and changed nothing.
fn tell_lines(
    alloc: Global,
    cases: &mut [Case],
    panels: &[AppBlock],
    events: &[EventLine],
    notes: &[Note],
) -> Result<(), AllocError>
    ensures { OnOk result (map told cases.new ≡ (tell_lines panels.now notes.now 0 events.now (telling 0 (map told cases.old))).cases) }
{
    let mut count = 0usize;
    for (number, event) in events.iter().enumerate() {
        count = tell_line(alloc, cases, panels, *event, notes.get(number), count)?;
    }
    Ok(())
}

/// Adds to the cases of a bench that fail, of which this is the session, who got the first presses and keys that ran no script and changed nothing. Where
/// none fails nothing is added, and nothing is played. An error where memory is refused.
pub fn push_idle(alloc: Global, cases: &mut [Case], session: &Session) -> Result<(), AllocError>
    ensures none { list_all is_fine cases.old ≡ true → cases.new ≡ cases.old }
    ensures told { list_all is_fine cases.old ≡ false → OnOk result (HaveIdle session.now (map told cases.old) (map told cases.new)) }
{
    if are_fine(cases) {
        return Ok(());
    }
    let notes = notes_of(alloc, session)?;
    tell_lines(
        alloc,
        cases,
        session.apps(),
        session.events(),
        notes.as_slice(),
    )
}
