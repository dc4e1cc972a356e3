//! The questions of `virtuals`: the virtual events of applications.
//!
//! `add OWNER NAME SEQUENCE` adds a pair, and `delete OWNER NAME SEQUENCE ..` takes those out, or all of the name where no sequence stands there; `names
//! OWNER` is answered the names that an application has, and `sequences OWNER NAME` the sequences of one, with bars between. What is refused is
//! answered `!` and its number.
use crate::words::{texts_of, word_of};
use anyhow::{Result, bail};
use asking::{number, push_barred, refused, result_of, words_of};
use std::alloc::Global;
use tcl_text::{Text, TextFault, TextList};
use tk_sequences::VirtualName;
use tk_virtual::{VirtualFault, VirtualTable};

/// The table that the questions are put to.
#[derive(Drop)]
pub struct Virtuals {
    table: VirtualTable,
}

/// What a call that tells nothing is answered.
fn told(alloc: Global, answer: Result<(), VirtualFault>) -> Result<String> {
    match answer {
        Ok(()) => result_of(alloc, ""),
        Err(fault) => refused(alloc, fault.number()),
    }
}

/// Texts with a bar between two.
fn barred(alloc: Global, texts: &TextList) -> Result<String> {
    let mut told = String::from_str(alloc, "=")?;
    for (place, text) in texts.as_slice().iter().enumerate() {
        push_barred(&mut told, place, text.as_str())?;
    }
    Ok(told)
}

impl Virtuals {
    pub fn new(alloc: Global) -> Virtuals {
        Virtuals {
            table: VirtualTable::new(alloc),
        }
    }

    fn names(&self, alloc: Global, owner: usize) -> Result<String> {
        match self.table.info(alloc, owner) {
            Ok(names) => barred(alloc, &names),
            Err(TextFault::TooLong) => Ok(format!(in alloc; "!4")?),
            Err(TextFault::NoMemory) => bail!("out of memory"),
        }
    }

    fn sequences(&self, alloc: Global, owner: usize, name: &Text) -> Result<String> {
        let Some(name) = VirtualName::parse(alloc, name)? else {
            bail!("no name of a virtual event");
        };
        barred(alloc, &self.table.sequences_of(alloc, owner, &name)?)
    }

    /// What a question about a name is answered.
    fn named(
        &mut self,
        alloc: Global,
        what: &str,
        owner: usize,
        name: &str,
        sequences: &[&str],
    ) -> Result<String> {
        let name = word_of(alloc, name)?;
        let texts = texts_of(alloc, sequences)?;
        match (what, texts.as_slice()) {
            ("add", [sequence]) => told(alloc, self.table.add(alloc, owner, &name, sequence)),
            ("delete", texts) => told(alloc, self.table.delete(alloc, owner, &name, texts)),
            ("sequences", []) => self.sequences(alloc, owner, &name),
            _ => bail!("no such question"),
        }
    }

    /// What a question is answered.
    pub fn answer(&mut self, alloc: Global, question: &str) -> Result<String> {
        match words_of(alloc, question, ' ')?.as_slice() {
            ["names", owner] => self.names(alloc, number(owner)?),
            [what, owner, name, sequences @ ..] => {
                self.named(alloc, what, number(owner)?, name, sequences)
            }
            _ => bail!("no such question"),
        }
    }
}
