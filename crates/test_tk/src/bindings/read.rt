//! The words of questions.
use anyhow::{Result, bail};
use asking::number;
use std::alloc::Global;
use tcl_text::Text;
use tk_patterns::{Event, EventKind, EventType, Keysym, Sequence, VirtualName};

pub fn sequence_of(alloc: Global, word: &str) -> Result<Sequence> {
    let text = Text::new(alloc, word)?;
    match Sequence::parse(alloc, &text) {
        Ok(sequence) => Ok(sequence),
        Err(_) => bail!("a word that is no sequence"),
    }
}

pub fn name_of(alloc: Global, word: &str) -> Result<VirtualName> {
    let text = Text::new(alloc, word)?;
    match VirtualName::parse(alloc, &text)? {
        Some(name) => Ok(name),
        None => bail!("a word that is no virtual event"),
    }
}

fn key_of(word: &str) -> Result<Keysym> {
    match Keysym::named(word) {
        Some(key) => Ok(key),
        None => bail!("a word that is no key"),
    }
}

fn type_of(word: &str) -> Result<EventType> {
    match EventType::named(word) {
        Some(kind) => Ok(kind),
        None => bail!("a word that is no type"),
    }
}

fn event_at(alloc: Global, kind: EventKind, window: &str, moment: u64) -> Result<Event> {
    let window = number(window)?;
    let path = Text::new(alloc, ".")?;
    Ok(Event::new(kind, window, path, moment))
}

fn set_place(event: &mut Event, state: &str, x: &str, y: &str) -> Result<()> {
    event.state = Some(number(state)?);
    event.root_x = Some(number(x)?);
    event.root_y = Some(number(y)?);
    Ok(())
}

/// Gives an event its key or its button.
fn set_detail(event: &mut Event, kind: EventType, detail: &str) -> Result<()> {
    if kind.is_key() {
        event.key = Some(key_of(detail)?);
    } else if kind.is_button() {
        event.button = Some(number(detail)?);
    }
    Ok(())
}

pub fn event_of(alloc: Global, words: &[&str]) -> Result<Event> {
    match words {
        [name, window] => event_at(alloc, EventKind::Virtual(name_of(alloc, name)?), window, 0),
        [kind, window, moment, state, detail, x, y] => {
            let kind = type_of(kind)?;
            let moment = number(moment)?;
            let mut event = event_at(alloc, EventKind::Physical(kind), window, moment)?;
            set_place(&mut event, state, x, y)?;
            set_detail(&mut event, kind, detail)?;
            Ok(event)
        }
        _ => bail!("no event"),
    }
}
