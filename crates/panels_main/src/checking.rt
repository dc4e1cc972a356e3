//! Benches that are checked.

use crate::playing::played;
use panels::Played;
use panels_bench::{Read, load};
use panels_film::session_of;
use panels_report::{cases_of, disturbances, not_played, push_idle};
use panels_text::{
    Case, Failure, Format, Options, count_failed, expected, json, junit, report, shard_of, tap,
};
use std::alloc::Global;
use std::env::Env;
use std::io::Eprint;
use std::rt::Files;

/// The texts of the expected files of a bench, by the slots of its panels, where these are there.
fn wanted<R: Files + AllocGlobal>(
    rt: &R,
    file: &str,
    read: &Read,
) -> Result<Vec<Option<Vec<u8>>>, Failure> {
    let mut texts = Vec::new(rt.alloc());
    for side in &read.sides {
        texts.push(match &side.expect {
            Some(name) => expected(rt, file, name.as_str())?,
            None => None,
        })?;
    }
    Ok(texts)
}

/// Adds to the case of the panel in a slot where it shows something else beside other neighbours.
fn push_disturbed(
    alloc: Global,
    case: &mut Case,
    file: &str,
    read: &Read,
    played: &Played,
    slot: usize,
) -> Result<(), Failure> {
    match disturbances(alloc, &read.bench, played, read.slice, slot) {
        Ok(problems) => {
            for problem in problems {
                case.problems.push(problem)?;
            }
            Ok(())
        }
        Err(why) => Err(not_played(alloc, file, read, why)),
    }
}

/// Adds to the cases of a bench where its panels show something else beside other neighbours.
fn push_all_disturbed(
    alloc: Global,
    cases: &mut [Case],
    file: &str,
    read: &Read,
    played: &Played,
) -> Result<(), Failure> {
    for (slot, _) in played.sections.iter().enumerate() {
        if let Some(case) = cases.get_mut(slot) {
            push_disturbed(alloc, case, file, read, played, slot)?;
        }
    }
    Ok(())
}

/// Plays a bench, and tells its cases.
fn cases<R: Files + AllocGlobal>(rt: &R, file: &str, isolates: bool) -> Result<Vec<Case>, Failure> {
    let alloc = rt.alloc();
    let read = load(rt, file)?;
    let played = played(alloc, file, &read)?;
    let wanted = wanted(rt, file, &read)?;
    let mut cases = cases_of(alloc, file, &read, &played, wanted.as_slice())?;
    let session = session_of(alloc, &played)?;
    push_idle(alloc, cases.as_mut_slice(), &session)?;
    if isolates {
        push_all_disturbed(alloc, cases.as_mut_slice(), file, &read, &played)?;
    }
    Ok(cases)
}

/// Adds the cases of a bench.
fn push_cases<R: Files + AllocGlobal>(
    rt: &R,
    all: &mut Vec<Case>,
    file: &str,
    isolates: bool,
) -> Result<(), Failure> {
    for case in cases(rt, file, isolates)? {
        all.push(case)?;
    }
    Ok(())
}

/// The verdicts in a format.
fn formatted(alloc: Global, format: Format, cases: &[Case]) -> Result<String, Failure> {
    match format {
        Format::Text => Ok(report(alloc, cases)?),
        Format::Tap => Ok(tap(alloc, cases)?),
        Format::Junit => Ok(junit(alloc, cases)?),
        Format::Json => json(alloc, cases),
    }
}

/// Begins the line of a terminal again.
const LINE_AGAIN: &str = "\r\u{1b}[K";

/// Says on a terminal which bench is played.
fn show_progress<R: AllocGlobal + Eprint>(
    rt: &R,
    files: &[String],
    number: usize,
    file: &str,
) -> Result<(), Failure> {
    let number = number.saturating_add(1);
    let text = format!(in rt.alloc(); "{LINE_AGAIN}{number} of {}: {file}", files.len())?;
    Ok(rt.eprint(text.as_str())?)
}

/// Checks the benches of a share. `on_terminal` says that standard error is a terminal, which shows how far the run is.
pub(crate) fn check<R: Env + Files + AllocGlobal + Print + Eprint>(
    rt: &R,
    options: &Options,
    on_terminal: bool,
) -> Result<u8, Failure> {
    let files = options.files.as_slice();
    let shard = shard_of(rt, options.shard)?;
    let mut cases: Vec<Case> = Vec::new(rt.alloc());
    for (number, file) in files.iter().enumerate() {
        if shard.has(number) {
            if on_terminal {
                show_progress(rt, files, number, file.as_str())?;
            }
            let added = push_cases(rt, &mut cases, file.as_str(), options.isolates);
            if on_terminal {
                rt.eprint(LINE_AGAIN)?;
            }
            added?;
        }
    }
    let text = formatted(rt.alloc(), options.format, cases.as_slice())?;
    rt.print(text.as_str())?;
    Ok(u8::from(count_failed(cases.as_slice()) > 0))
}
