//! The words of requests (pack(n)).

use anyhow::{Result, bail};
use asking::number;
use tk_packer::{Anchor, Fill, Pads, Side};

pub fn side_of(word: &str) -> Result<Side> {
    match word {
        "top" => Ok(Side::Top),
        "bottom" => Ok(Side::Bottom),
        "left" => Ok(Side::Left),
        "right" => Ok(Side::Right),
        _ => bail!("no such side"),
    }
}

pub fn anchor_of(word: &str) -> Result<Anchor> {
    match word {
        "center" => Ok(Anchor::Center),
        "n" => Ok(Anchor::N),
        "ne" => Ok(Anchor::Ne),
        "e" => Ok(Anchor::E),
        "se" => Ok(Anchor::Se),
        "s" => Ok(Anchor::S),
        "sw" => Ok(Anchor::Sw),
        "w" => Ok(Anchor::W),
        "nw" => Ok(Anchor::Nw),
        _ => bail!("no such anchor"),
    }
}

pub fn fill_of(word: &str) -> Result<Fill> {
    match word {
        "none" => Ok(Fill::None),
        "x" => Ok(Fill::X),
        "y" => Ok(Fill::Y),
        "both" => Ok(Fill::Both),
        _ => bail!("no such fill"),
    }
}

/// Two pads, joined by a comma, or one that is both.
pub fn pads_of(word: &str) -> Result<Pads> {
    let (before, after) = word.split_once(',').unwrap_or((word, word));
    Ok(Pads {
        before: number(before)?,
        after: number(after)?,
    })
}
