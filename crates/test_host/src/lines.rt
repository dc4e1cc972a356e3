//! Lines of a session with slots in place of names: `move X Y`, `press B`, `release B`, `keydown KEY`, `keyup KEY`, `focus SLOT`, `focus -`,
//! `rect SLOT X Y W H`.
use anyhow::{Result, bail};
use asking::number;
use tk_host::{HostLine, Keysym, Rect};

fn key_of(word: &str) -> Result<Keysym> {
    match Keysym::named(word) {
        Some(key) => Ok(key),
        None => bail!("a word that is no key"),
    }
}

pub fn rect_of(x: &str, y: &str, width: &str, height: &str) -> Result<Rect> {
    Ok(Rect {
        x: number(x)?,
        y: number(y)?,
        width: number(width)?,
        height: number(height)?,
    })
}

fn focus_of(slot: &str) -> Result<HostLine> {
    if slot == "-" {
        return Ok(HostLine::Focus(None));
    }
    Ok(HostLine::Focus(Some(number(slot)?)))
}

/// A line of one word.
fn short_line(first: &str, word: &str) -> Result<HostLine> {
    match first {
        "press" => Ok(HostLine::Press(number(word)?)),
        "release" => Ok(HostLine::Release(number(word)?)),
        "keydown" => Ok(HostLine::Keydown(key_of(word)?)),
        "keyup" => Ok(HostLine::Keyup(key_of(word)?)),
        "focus" => focus_of(word),
        _ => bail!("no such line"),
    }
}

/// The line that these words are.
pub fn line_of(words: &[&str]) -> Result<HostLine> {
    match words {
        [first, word] => short_line(first, word),
        ["move", x, y] => Ok(HostLine::Move {
            x: number(x)?,
            y: number(y)?,
        }),
        ["rect", slot, x, y, width, height] => Ok(HostLine::Rect {
            slot: number(slot)?,
            rect: rect_of(x, y, width, height)?,
        }),
        _ => bail!("no such line"),
    }
}
