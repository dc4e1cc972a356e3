//! The questions of `windows`: windows (`trees`), how they are packed (`packings`), and how they are laid out (`layouts`). Each is answered `=` and
//! what it tells.
mod layouts;
mod packings;
mod requests;
mod trees;

use crate::windows::layouts::Layouts;
use crate::windows::packings::Packings;
use crate::windows::trees::Trees;
pub use crate::windows::trees::remove;
use anyhow::{Result, bail};
use asking::{result_of, words_of};
use std::alloc::Global;

/// What the questions of a table are put to.
#[derive(Drop)]
pub enum Screen {
    Trees(Trees),
    Packings(Packings),
    Layouts(Layouts),
}

/// The first part of a table's name, and what stands behind it.
pub fn first_part(table: &str) -> (&str, &str) {
    table.split_once('/').unwrap_or((table, ""))
}

impl Screen {
    pub fn new(alloc: Global, table: &str) -> Result<Screen> {
        let (part, _name) = first_part(table);
        match part {
            "trees" => Ok(Screen::Trees(Trees::new(alloc))),
            "packings" => Ok(Screen::Packings(Packings::new(alloc))),
            "layouts" => Ok(Screen::Layouts(Layouts::new(alloc))),
            _ => bail!("no such table"),
        }
    }

    /// What a question is answered.
    pub fn answer(&mut self, alloc: Global, question: &str) -> Result<String> {
        let words = words_of(alloc, question, ' ')?;
        let words = words.as_slice();
        let told = match self {
            Screen::Trees(trees) => trees.answer(alloc, words)?,
            Screen::Packings(packings) => packings.answer(alloc, words)?,
            Screen::Layouts(layouts) => layouts.answer(alloc, words)?,
        };
        result_of(alloc, told.as_str())
    }
}
