//! What a section is to tell.

ghost use Rattle.std.specs.Prelude.{◌≡◌, ◌++◌, ℕ, List, map, option_map, IfOk, OnOk};
ghost use Rattle.std.specs.Borrow.{Bor};
ghost use Rattle.std.specs.List.{list_any};
ghost use Rattle.std.specs.Str.{bytes_eq};
ghost use Rattle.panels.specs.Asked.{answer_to, told_by};
ghost use Rattle.panels.specs.Words.{after};
ghost use Rattle.panels.specs.Looks.{head_of, is_fact, is_place, is_seen, is_told, told, unseen_from, waiting_in, window_line};

use crate::asking::{answer_to, is_alike};
use crate::bench::{Answer, Fact, Look};
use crate::finding::{Finding, Found};
use crate::pane::index_of;
use crate::words::{after, front, lines_with, number_at, word};
use std::alloc::{AllocError, Global};
use tk_base::Rect;
use tk_host::{AliasService, Host};

/// Whether the line of a window tells this place.
fn is_place(place: Rect, line: &[u8]) -> bool
    ensures { result ≡ is_place place line.now }
{
    number_at(line, 3) == u64::from(place.x)
        && number_at(line, 4) == u64::from(place.y)
        && number_at(line, 5) == u64::from(place.width)
        && number_at(line, 6) == u64::from(place.height)
}

/// Whether a window shows what it is to, by its line where it has one.
fn is_fact(fact: &Fact, line: Option<&[u8]>) -> bool
    ensures { result ≡ is_fact fact.now (option_map (λ line. line.now) line.entry) }
{
    let Some(line) = line else {
        return matches!(fact, Fact::There(false));
    };
    match fact {
        Fact::There(wanted) => *wanted,
        Fact::Text(text) => after(line, 8) == text.as_str().as_bytes(),
        Fact::Class(class) => word(line, 2) == class.as_str().as_bytes(),
        Fact::Place(place) => is_place(*place, line),
        Fact::Mapped(wanted) => (word(line, 7) == b"1".as_slice()) == *wanted,
    }
}

/// The line of a window.
fn window_line<'a>(
    alloc: Global,
    path: &str,
    section: &'a [u8],
) -> Result<Option<&'a [u8]>, AllocError>
    ensures { IfOk result (λ line. option_map (λ line. line.now) line ≡ window_line path.now section.now) }
{
    let lines = lines_with(alloc, section, b"win")?;
    match index_of(lines.as_slice(), path.as_bytes()) {
        None => Ok(None),
        Some(index) => Ok(lines.as_slice().get(index).copied()),
    }
}

/// Whether one of the lines has this text behind two words.
fn has_text(text: &[u8], lines: &[&[u8]]) -> bool
    ensures { result ≡ list_any (λ (line : Bor (List ℕ)). bytes_eq (after 2 line.now) text.now) lines.now }
{
    lines.iter().any(|line| after(*line, 2) == text)
}

/// Whether one of the lines of a transcript has this text.
fn is_told(text: &[u8], lines: &[&[u8]]) -> bool
    ensures { result ≡ is_told text.now (map (λ line. line.now) lines.now) }
{
    has_text(text, lines)
}

/// How many timers and idle scripts wait.
fn waiting_in(alloc: Global, section: &[u8]) -> Result<u64, AllocError>
    ensures { IfOk result (λ count. count ≡ waiting_in section.now) }
{
    let timers = lines_with(alloc, section, b"timer")?;
    let idles = lines_with(alloc, section, b"idle")?;
    Ok((timers.len() as u64).saturating_add(idles.len() as u64))
}

/// Whether a panel with this section tells what it is to, where it answers this to the look.
fn is_seen(alloc: Global, look: &Look, answer: &Answer, section: &[u8]) -> Result<bool, AllocError>
    ensures { IfOk result (λ seen. seen ≡ is_seen look.now (told_by answer.now) section.now) }
{
    match look {
        Look::Asked {
            question: _,
            wanted,
        } => Ok(is_alike(wanted, answer)),
        Look::Window { path, fact } => {
            let line = window_line(alloc, path.as_str(), section)?;
            Ok(is_fact(fact, line))
        }
        Look::Says(text) => {
            let said = lines_with(alloc, section, b"out")?;
            Ok(is_told(text.as_str().as_bytes(), said.as_slice()))
        }
        Look::HasError(wanted) => {
            let errors = lines_with(alloc, section, b"err")?;
            Ok(errors.is_empty() != *wanted)
        }
        Look::State(state) => Ok(word(front(section, b'\n'), 2) == state.as_str().as_bytes()),
        Look::LeastSteps(least) => Ok(*least <= number_at(front(section, b'\n'), 3)),
        Look::Waiting(wanted) => Ok(waiting_in(alloc, section)? == *wanted),
    }
}

/// Adds a finding for each of the looks that the panel in a slot, which has this section, doesn't tell.
pub(crate) fn push_unseen<M: AliasService>(
    alloc: Global,
    host: &Host<M>,
    slot: usize,
    entry: usize,
    looks: &[Look],
    section: &[u8],
    findings: &mut Vec<Finding>,
) -> Result<(), AllocError>
    ensures { OnOk result (map told findings.new.items ≡ map told findings.old.items ++ unseen_from (answer_to slot host.now.held) entry 0 looks.now section.now) }
{
    for (number, look) in looks.iter().enumerate() {
        let answer = answer_to(alloc, host, slot, look)?;
        if !is_seen(alloc, look, &answer, section)? {
            findings.push(Finding {
                entry,
                found: Found::Unseen(number),
                section: Vec::from_slice(alloc, section)?,
                answer,
            })?;
        }
    }
    Ok(())
}
