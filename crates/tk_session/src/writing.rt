//! The writing of a session.

ghost use Rattle.std.specs.Prelude.{◌≡◌, ◌↔◌, ◌≤◌, ℕ, [], ◌∷◌, ◌++◌, codes, length, flat_map, IsTrue, IfOk, OnOk};
ghost use Rattle.std.specs.Fmt.{decimal};
ghost use Rattle.tcl_text.specs.Limits.{most_bytes};
ghost use Rattle.tk_session.specs.Names.{kind_word};
ghost use Rattle.tk_session.specs.Session.{Plan, HasFault, IsSession, rect_fields};
ghost use Rattle.tk_session.specs.Writing.{alias_text, app_line_text, app_text, budget_field, event_fields, event_text, key_name, line_count, line_text, name_at, script_text, text_of, words};
ghost use Rattle.tk_route.specs.declared.fault.LineFault.{LineFault as FaultOf};

use crate::fault::SessionFault;
use crate::reading::read_session;
use crate::session::{AliasLine, AppBlock, EventLine, Session};
use itoa::Buffer;
use std::alloc::{AllocError, Global};
use thiserror::Error;
use tk_alias::ServiceKind;
use tk_base::{Budget, Rect};
use tk_route::{HostLine, LineFault};

/// Why a session was not written.
#[derive(Clone, Copy, Debug, PartialEq, Eq, Drop, Error)]
pub enum WritingFault {
    /// A reader refuses its text: the first faulty line, counted from 1, and what is wrong with it.
    #[error("{fault} at line {line}")]
    Refused { fault: LineFault, line: usize },
    /// A reader takes its text for another session, as where a configuration has a line feed.
    #[error("the text says another session")]
    Unlike,
    /// Memory was refused.
    #[error("out of memory")]
    NoMemory,
}

impl From<AllocError> for WritingFault {
    ghost use Rattle.tk_session.specs.declared.writing.WritingFault.{WritingFault};

    ghost from_gives = { λ _ e. e ≡ WritingFault.NoMemory };

    fn from(_refused: AllocError) -> WritingFault {
        WritingFault::NoMemory
    }
}

/// Adds a blank and a word.
fn push_word(text: &mut Vec<u8>, word: &[u8]) -> Result<(), AllocError>
    ensures { OnOk result (text.new.items ≡ text.old.items ++ 32 ∷ word.now) }
{
    text.push(b' ')?;
    text.extend_from_slice(word)
}

/// Adds a blank and a number.
fn push_number(text: &mut Vec<u8>, number: u64) -> Result<(), AllocError>
    ensures { OnOk result (text.new.items ≡ text.old.items ++ 32 ∷ decimal number) }
{
    push_word(text, Buffer::new().format(number).as_bytes())
}

fn push_rect(text: &mut Vec<u8>, rect: Rect) -> Result<(), AllocError>
    ensures { OnOk result (text.new.items ≡ text.old.items ++ words (rect_fields rect)) }
{
    push_number(text, u64::from(rect.x))?;
    push_number(text, u64::from(rect.y))?;
    push_number(text, u64::from(rect.width))?;
    push_number(text, u64::from(rect.height))
}

fn push_budget(text: &mut Vec<u8>, budget: Budget) -> Result<(), AllocError>
    ensures { OnOk result (text.new.items ≡ text.old.items ++ 32 ∷ budget_field budget) }
{
    push_number(text, budget.total)?;
    if budget.refill == 0 {
        return Ok(());
    }
    text.push(b'/')?;
    text.extend_from_slice(Buffer::new().format(budget.refill).as_bytes())
}

fn kind_word(kind: ServiceKind) -> &'static [u8]
    ensures { result.now ≡ kind_word kind }
{
    match kind {
        ServiceKind::Const => b"const",
        ServiceKind::Upper => b"upper",
        ServiceKind::Table => b"table",
        ServiceKind::Sum => b"sum",
        ServiceKind::Fail => b"fail",
    }
}

fn push_alias(text: &mut Vec<u8>, alias: &AliasLine) -> Result<(), AllocError>
    ensures { OnOk result (text.new.items ≡ text.old.items ++ alias_text alias.now) }
{
    text.extend_from_slice(b"alias")?;
    push_word(text, alias.name.as_str().as_bytes())?;
    push_word(text, kind_word(alias.service.kind))?;
    push_word(text, alias.service.config.as_str().as_bytes())?;
    Ok(text.push(b'\n')?)
}

fn push_aliases(text: &mut Vec<u8>, aliases: &[AliasLine]) -> Result<(), AllocError>
    ensures { OnOk result (text.new.items ≡ text.old.items ++ flat_map alias_text aliases.now) }
{
    for alias in aliases {
        push_alias(text, alias)?;
    }
    Ok(())
}

/// How many lines a script has.
fn line_count(script: &[u8]) -> usize
    requires { length script.now ≤ most_bytes }
    ensures { result ≡ line_count script.now }
{
    let mut count = 1;
    for byte in script {
        if *byte == b'\n' {
            count += 1;
        }
    }
    count
}

fn push_script(text: &mut Vec<u8>, script: &[u8]) -> Result<(), AllocError>
    requires { length script.now ≤ most_bytes }
    ensures { OnOk result (text.new.items ≡ text.old.items ++ script_text script.now) }
{
    text.extend_from_slice(b"script")?;
    push_number(text, line_count(script) as u64)?;
    text.push(b'\n')?;
    text.extend_from_slice(script)?;
    Ok(text.push(b'\n')?)
}

fn push_app_line(text: &mut Vec<u8>, app: &AppBlock) -> Result<(), AllocError>
    ensures { OnOk result (text.new.items ≡ text.old.items ++ app_line_text app.now) }
{
    text.extend_from_slice(b"app")?;
    push_word(text, app.name.as_str().as_bytes())?;
    push_rect(text, app.rect)?;
    push_budget(text, app.budget)?;
    Ok(text.push(b'\n')?)
}

fn push_app(text: &mut Vec<u8>, app: &AppBlock) -> Result<(), AllocError>
    ensures { OnOk result (text.new.items ≡ text.old.items ++ app_text app.now) }
{
    push_app_line(text, app)?;
    push_aliases(text, app.aliases.as_slice())?;
    push_script(text, app.script.as_str().as_bytes())
}

fn push_apps(text: &mut Vec<u8>, apps: &[AppBlock]) -> Result<(), AllocError>
    ensures { OnOk result (text.new.items ≡ text.old.items ++ flat_map app_text apps.now) }
{
    for app in apps {
        push_app(text, app)?;
    }
    Ok(())
}

/// The name of the application in a slot.
fn name_at(apps: &[AppBlock], slot: usize) -> &[u8]
    ensures { result.now ≡ name_at apps.now slot }
{
    match apps.get(slot) {
        None => b"-",
        Some(app) => app.name.as_str().as_bytes(),
    }
}

/// Adds a word that says what happens, and a number.
fn push_told(text: &mut Vec<u8>, word: &[u8], number: u32) -> Result<(), AllocError>
    ensures { OnOk result (text.new.items ≡ text.old.items ++ words (word.now ∷ decimal number ∷ [])) }
{
    push_word(text, word)?;
    push_number(text, u64::from(number))
}

/// Adds a word that says what happens, and a name.
fn push_named(text: &mut Vec<u8>, word: &[u8], name: &[u8]) -> Result<(), AllocError>
    ensures { OnOk result (text.new.items ≡ text.old.items ++ words (word.now ∷ name.now ∷ [])) }
{
    push_word(text, word)?;
    push_word(text, name)
}

/// The name of the key that goes down or up; empty for another line.
pub fn key_name(line: HostLine) -> &'static str
    ensures { result.now ≡ key_name line }
{
    match line {
        HostLine::Keydown(key) => key.name(),
        HostLine::Keyup(key) => key.name(),
        _ => "",
    }
}

/// Adds what an event says behind its moment.
fn push_fields(text: &mut Vec<u8>, apps: &[AppBlock], line: HostLine) -> Result<(), AllocError>
    ensures { OnOk result (text.new.items ≡ text.old.items ++ words (event_fields apps.now line)) }
{
    match line {
        HostLine::Move { x, y } => {
            push_told(text, b"move", x)?;
            push_number(text, u64::from(y))
        }
        HostLine::Press(button) => push_told(text, b"press", button),
        HostLine::Release(button) => push_told(text, b"release", button),
        HostLine::Keydown(_) => push_named(text, b"keydown", key_name(line).as_bytes()),
        HostLine::Keyup(_) => push_named(text, b"keyup", key_name(line).as_bytes()),
        HostLine::Focus(None) => push_named(text, b"focus", b"-"),
        HostLine::Focus(Some(slot)) => push_named(text, b"focus", name_at(apps, slot)),
        HostLine::Rect { slot, rect } => {
            push_named(text, b"rect", name_at(apps, slot))?;
            push_rect(text, rect)
        }
    }
}

fn push_event(text: &mut Vec<u8>, apps: &[AppBlock], event: &EventLine) -> Result<(), AllocError>
    ensures { OnOk result (text.new.items ≡ text.old.items ++ event_text apps.now event.now) }
{
    text.extend_from_slice(Buffer::new().format(event.moment).as_bytes())?;
    push_fields(text, apps, event.line)?;
    Ok(text.push(b'\n')?)
}

fn push_events(
    text: &mut Vec<u8>,
    apps: &[AppBlock],
    events: &[EventLine],
) -> Result<(), AllocError>
    ensures { OnOk result (text.new.items ≡ text.old.items ++ flat_map (event_text apps.now) events.now) }
{
    for event in events {
        push_event(text, apps, event)?;
    }
    Ok(())
}

fn push_end(text: &mut Vec<u8>, end: u64) -> Result<(), AllocError>
    ensures { OnOk result (text.new.items ≡ text.old.items ++ line_text (decimal end) (codes "end" ∷ [])) }
{
    text.extend_from_slice(Buffer::new().format(end).as_bytes())?;
    text.extend_from_slice(b" end\n")
}

/// The text of a plan.
fn text_of(
    alloc: Global,
    apps: &[AppBlock],
    events: &[EventLine],
    end: u64,
) -> Result<Vec<u8>, AllocError>
    ensures { IfOk result (λ text. text.items ≡ text_of (record { apps = apps.now; events = events.now; end = end })) }
{
    let mut text = Vec::new(alloc);
    text.extend_from_slice(b"tkhost 2\n")?;
    push_apps(&mut text, apps)?;
    text.extend_from_slice(b"events\n")?;
    push_events(&mut text, apps, events)?;
    push_end(&mut text, end)?;
    Ok(text)
}

fn is_same_alias(alias: &AliasLine, other: &AliasLine) -> bool
    ensures { IsTrue result ↔ (alias.now ≡ other.now) }
{
    alias.name == other.name
        && alias.service.kind == other.service.kind
        && alias.service.config == other.service.config
}

fn are_same_aliases(aliases: &[AliasLine], others: &[AliasLine]) -> bool
    ensures { IsTrue result ↔ (aliases.now ≡ others.now) }
{
    let mut rest = others;
    for alias in aliases {
        match rest {
            [other, more @ ..] if is_same_alias(alias, other) => rest = more,
            _ => return false,
        }
    }
    rest.is_empty()
}

fn is_same_app(app: &AppBlock, other: &AppBlock) -> bool
    ensures { IsTrue result ↔ (app.now ≡ other.now) }
{
    app.name == other.name
        && app.rect == other.rect
        && app.budget == other.budget
        && are_same_aliases(app.aliases.as_slice(), other.aliases.as_slice())
        && app.script == other.script
}

fn are_same_apps(apps: &[AppBlock], others: &[AppBlock]) -> bool
    ensures { IsTrue result ↔ (apps.now ≡ others.now) }
{
    let mut rest = others;
    for app in apps {
        match rest {
            [other, more @ ..] if is_same_app(app, other) => rest = more,
            _ => return false,
        }
    }
    rest.is_empty()
}

fn is_same_event(event: &EventLine, other: &EventLine) -> bool
    ensures { IsTrue result ↔ (event.now ≡ other.now) }
{
    event == other
}

fn are_same_events(events: &[EventLine], others: &[EventLine]) -> bool
    ensures { IsTrue result ↔ (events.now ≡ others.now) }
{
    let mut rest = others;
    for event in events {
        match rest {
            [other, more @ ..] if is_same_event(event, other) => rest = more,
            _ => return false,
        }
    }
    rest.is_empty()
}

/// Whether a session says these.
fn is_said(session: &Session, apps: &[AppBlock], events: &[EventLine], end: u64) -> bool
    ensures { IsTrue result ↔ (session.now ≡ record { apps = apps.now; events = events.now; end = end }) }
{
    are_same_apps(session.apps(), apps)
        && are_same_events(session.events(), events)
        && session.end() == end
}

/// Writes a session of format 2 that says these applications, these events and this end, names, scripts and configurations byte for byte;
/// and gives it as it is read from that text. The text is refused where a reader refuses it, and where what a reader takes from it isn't what
/// was to be written.
///
/// It takes time in proportion to the text, which is written and read once.
pub fn write_session(
    alloc: Global,
    apps: &[AppBlock],
    events: &[EventLine],
    end: u64,
) -> Result<(Vec<u8>, Session), WritingFault>
    ensures text { IfOk result (λ written. written.0.items ≡ text_of (record { apps = apps.now; events = events.now; end = end })) }
    ensures said { IfOk result (λ written. IsSession written.0.items (record { apps = apps.now; events = events.now; end = end })) }
    ensures read { IfOk result (λ written. written.1 ≡ record { apps = apps.now; events = events.now; end = end }) }
    ensures refused { (fault : FaultOf) (line : ℕ) → result ≡ Err (WritingFault.Refused fault line)
        → HasFault (text_of (record { apps = apps.now; events = events.now; end = end })) fault line }
    ensures unlike { result ≡ Err WritingFault.Unlike
        → ¬ IsSession (text_of (record { apps = apps.now; events = events.now; end = end })) (record { apps = apps.now; events = events.now; end = end }) }
{
    let text = text_of(alloc, apps, events, end)?;
    match read_session(alloc, text.as_slice()) {
        Ok(session) => {
            if is_said(&session, apps, events, end) {
                Ok((text, session))
            } else {
                Err(WritingFault::Unlike)
            }
        }
        Err(SessionFault::Refused { fault, line }) => Err(WritingFault::Refused { fault, line }),
        Err(SessionFault::NoMemory) => Err(WritingFault::NoMemory),
    }
}
