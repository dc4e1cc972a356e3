//! The questions of `embedding`: what the example of a program that embeds a host gets. `section` is answered `=` and the lines of the section
//! beside one that never ends, and `greeted TEXT` those of an application whose command a closure serves that keeps the text.

use anyhow::{Result, bail};
use asking::first_word;
use embedding::{section_beside_a_runaway, section_of_the_greeted};
use std::alloc::Global;
use std::str;
use tcl_text::Text;

/// What a question is answered.
pub fn answer(alloc: Global, question: &str) -> Result<String> {
    let section = match first_word(question) {
        ("section", "") => section_beside_a_runaway(alloc)?,
        ("greeted", text) => section_of_the_greeted(alloc, Text::new(alloc, text)?)?,
        _ => bail!("no such question"),
    };
    let told = str::from_utf8(section.as_slice())?;
    Ok(format!(in alloc; "={told}")?)
}
