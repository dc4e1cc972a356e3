//! Where commands of a panel stand in its script.

ghost use Rattle.std.specs.Prelude.{◌≡◌, ◌+◌, ◌≤◌, Some, reverse, IfOk, IfSome};
ghost use Rattle.std.specs.String.{string_bytes};
ghost use Rattle.panels_bench.specs.Stands.{ArePlaceWords, IsTold, StandsAt, placed, run_by, words_by};
ghost use Rattle.panels_text.specs.Places.{line_at};

use panels::Stand;
use panels_text::{Runner, line_at, runner_of};
use std::alloc::{AllocError, Global};
use tcl_words::parse;

/// How much of a command is told, in characters.
const MOST_TOLD: usize = 60;

/// A command, and where its script stands in the panel's script, if it does.
#[derive(Clone, Copy)]
struct Spot<'a> {
    stand: &'a Stand,
    at: Option<usize>,
}

/// The text between two bytes.
fn part(text: &str, from: usize, to: usize) -> &str {
    text.get(from..to).unwrap_or("")
}

/// Where a text stands first in another.
fn find(text: &str, wanted: &str) -> Option<usize>
    ensures { StandsAt text.now wanted.now result }
{
    text.find(wanted)
}

/// Where it stands first in a part of the other.
fn find_within(text: &str, from: usize, to: usize, wanted: &str) -> Option<usize>
    ensures { IfSome result (λ at. StandsAt text.now wanted.now (Some at)) }
{
    let _short = text.len();
    let part = text.get(from..to)?;
    let at = find(part, wanted)?;
    Some(from.saturating_add(at))
}

/// Where a text stands in a part of another, and else in all of it.
fn place_in(text: &str, from: usize, to: usize, wanted: &str) -> Option<usize>
    ensures { StandsAt text.now wanted.now result }
{
    match find_within(text, from, to, wanted) {
        Some(at) => Some(at),
        None => find(text, wanted),
    }
}

/// The line in which a byte stands, counted from one at which a text begins in another.
fn line_behind(text: &str, at: usize, byte: usize) -> usize
    ensures { result ≡ line_at text.now (at + byte) }
{
    let _short = text.len();
    line_at(text, at.saturating_add(byte))
}

/// The byte at which a line of a text begins, counted from 1.
fn line_start(text: &str, line: usize) -> usize {
    let mut start = 0usize;
    for (number, row) in text.split('\n').enumerate() {
        if number.saturating_add(1) >= line {
            return start;
        }
        start = start.saturating_add(row.len()).saturating_add(1);
    }
    start
}

/// The places of commands in a panel's script, the outermost command first: a script is looked for in the command that holds it, the first from a line on.
/// Beside them, from where to where the last one's command stands.
fn spots_of<'a>(
    alloc: Global,
    script: &str,
    line: usize,
    stands: &'a [Stand],
) -> Result<(Vec<Spot<'a>>, usize, usize), AllocError> {
    let mut spots = Vec::new(alloc);
    let (mut from, mut to) = (line_start(script, line), script.len());
    for stand in stands.iter().rev() {
        let at = place_in(script, from, to, stand.script.as_str());
        if let Some(at) = at {
            from = at.saturating_add(stand.start);
            to = at.saturating_add(stand.end);
        }
        spots.push(Spot { stand, at })?;
    }
    Ok((spots, from, to))
}

/// The first line of a command.
fn row_of(alloc: Global, command: &str) -> Result<String, AllocError> {
    let line = command.split('\n').next().unwrap_or("");
    let mut row = String::new(alloc);
    for (number, character) in line.chars().enumerate() {
        if number < MOST_TOLD {
            row.push(character)?;
        }
    }
    if row.len() < command.len() {
        row.push_str(" ..")?;
    }
    Ok(row)
}

/// A command, of which this is the first line, behind its place: its line, where its script stands in the panel's.
fn placed(
    alloc: Global,
    label: &str,
    script: &str,
    at: Option<usize>,
    start: usize,
    row: &str,
) -> Result<String, AllocError>
    ensures { IfOk result (λ words. string_bytes words ≡ placed label.now script.now at start row.now) }
{
    match at {
        Some(at) => {
            let line = line_behind(script, at, start);
            format!(in alloc; "{label}:{line}: {row}")
        }
        None => format!(in alloc; "{label}, in a script that it makes: {row}"),
    }
}

/// The first word of the command of a spot.
fn name_of<'a>(spot: &Spot<'a>) -> &'a str {
    let command = part(spot.stand.script.as_str(), spot.stand.start, spot.stand.end);
    command.split(' ').next().unwrap_or("")
}

/// Adds the procedure that a command calls.
fn push_caller(
    alloc: Global,
    text: &mut String,
    script: &str,
    caller: &Spot<'_>,
) -> Result<(), AllocError> {
    let name = name_of(caller);
    let words = match caller.at {
        Some(at) => {
            let line = line_behind(script, at, caller.stand.start);
            format!(in alloc; "\n      in {name}, called in line {line}")?
        }
        None => format!(in alloc; "\n      in {name}")?,
    };
    Ok(text.push_str(words.as_str())?)
}

/// The procedures in which a command stands, the innermost first.
fn callers(alloc: Global, script: &str, spots: &[Spot<'_>]) -> Result<String, AllocError> {
    let mut text = String::new(alloc);
    for index in (0..spots.len()).rev() {
        let caller = index.checked_sub(1).and_then(|before| spots.get(before));
        if let (Some(spot), Some(caller)) = (spots.get(index), caller) {
            if spot.stand.is_in_body {
                push_caller(alloc, &mut text, script, caller)?;
            }
        }
    }
    Ok(text)
}

/// What ran the outermost of the scripts that stand in the panel's; nothing where that is the panel's own.
fn runner(
    alloc: Global,
    script: &str,
    stands: &[Stand],
    by_timer: bool,
) -> Result<Option<Runner>, AllocError>
    ensures { IfOk result (λ found. words_by found ≡ run_by script.now by_timer (reverse stands.now)) }
{
    let mut rest = stands;
    while let Some((stand, others)) = rest.split_last() {
        let body = stand.script.as_str();
        if body == script {
            return Ok(None);
        }
        if let Some(runner) = runner_of(alloc, script, body, by_timer)? {
            return Ok(Some(runner));
        }
        rest = others;
    }
    let words = String::from_str(alloc, "a binding, a timer or a command")?;
    Ok(Some(Runner {
        line: 1,
        words,
        is_timer: by_timer,
    }))
}

/// What ran it, in words.
fn words_by(runner: &Option<Runner>) -> &str
    ensures { result.now ≡ words_by runner.now }
{
    match runner {
        Some(runner) => runner.words.as_str(),
        None => "the panel's script",
    }
}

/// The first command from a byte of a script on that has a text; nothing where none has.
fn command_with(
    alloc: Global,
    script: &str,
    from: usize,
    wanted: &str,
) -> Result<Option<(usize, usize)>, AllocError>
    ensures { IfOk result (λ found. IfSome found (λ place. from ≤ place.0)) }
{
    let Ok(read) = parse(alloc, script.as_bytes()) else {
        return Ok(None);
    };
    for command in read.commands() {
        let (start, end) = (command.span().start(), command.span().end());
        if start >= from && part(script, start, end).contains(wanted) {
            return Ok(Some((start, end)));
        }
    }
    Ok(None)
}

/// The variable that an error couldn't read, as a script writes it.
fn unread_variable(alloc: Global, error: &str) -> Result<Option<String>, AllocError> {
    let Some((_, rest)) = error.split_once("can't read \"") else {
        return Ok(None);
    };
    let (name, _) = rest.split_once('"').unwrap_or((rest, ""));
    let (name, _) = name.split_once('(').unwrap_or((name, ""));
    Ok(Some(format!(in alloc; "${name}")?))
}

/// The command that an error is of: the innermost one, or the first from it on that reads the variable that couldn't be read.
fn culprit(alloc: Global, stand: &Stand, error: &str) -> Result<(usize, usize), AllocError>
    ensures { IfOk result (λ place. stand.now.start ≤ place.0) }
{
    if let Some(variable) = unread_variable(alloc, error)? {
        let script = stand.script.as_str();
        if let Some(place) = command_with(alloc, script, stand.start, variable.as_str())? {
            return Ok(place);
        }
    }
    Ok((stand.start, stand.end))
}

/// The command that an error is of, behind its place, where the script of the innermost one stands here.
fn told(
    alloc: Global,
    label: &str,
    script: &str,
    stand: &Stand,
    at: Option<usize>,
    error: &str,
) -> Result<String, AllocError>
    ensures { IfOk result (λ words. IsTold label.now script.now stand.now at (string_bytes words)) }
{
    let (start, end) = culprit(alloc, stand, error)?;
    let row = row_of(alloc, part(stand.script.as_str(), start, end))?;
    placed(alloc, label, script, at, start, row.as_str())
}

/// Where a panel stood: the line of its script and the command, the procedures in which it stood, and what ran them. `error` is the error that came then,
/// and `by_timer` says that no line came at that moment. Nothing where it stood nowhere.
pub fn place_words(
    alloc: Global,
    label: &str,
    script: &str,
    stands: &[Stand],
    error: &str,
    by_timer: bool,
) -> Result<Option<String>, AllocError>
    ensures { IfOk result (ArePlaceWords label.now script.now by_timer stands.now) }
{
    let [innermost, outer @ ..] = stands else {
        return Ok(None);
    };
    let runner = runner(alloc, script, stands, by_timer)?;
    let line = runner.as_ref().map_or(1, |runner| runner.line);
    let (mut spots, from, to) = spots_of(alloc, script, line, outer)?;
    let at = place_in(script, from, to, innermost.script.as_str());
    spots.push(Spot {
        stand: innermost,
        at,
    })?;
    let words = told(alloc, label, script, innermost, at, error)?;
    let callers = callers(alloc, script, spots.as_slice())?;
    let by = words_by(&runner);
    Ok(Some(format!(in alloc; "{words}{callers}\n      run by {by}")?))
}
