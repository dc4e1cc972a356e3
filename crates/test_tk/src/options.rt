//! The questions of `options`: a widget's table of options, that of a button where a table begins anew.
//!
//! `new KIND` begins with the options of a `frame`, `label`, `button`, `entry` or `listbox`; `configure WORD|WORD|..` sets options, `cget WORD` is
//! answered a value, and `describe` how many options there are, with the lists that tell them behind, a bar before each. What is refused is answered
//! `!` and its number.
use crate::words::{barred_texts, word_of};
use anyhow::{Result, bail};
use asking::{first_word, refused, result_of};
use std::alloc::Global;
use tk_base::Kind;
use tk_options::OptionTable;

/// The table that the questions are put to.
#[derive(Drop)]
pub struct Options {
    table: OptionTable,
}

/// The kind of a name.
pub fn kind_of(word: &str) -> Result<Kind> {
    match word {
        "frame" => Ok(Kind::Frame),
        "label" => Ok(Kind::Label),
        "button" => Ok(Kind::Button),
        "entry" => Ok(Kind::Entry),
        "listbox" => Ok(Kind::Listbox),
        _ => bail!("no such kind"),
    }
}

impl Options {
    pub fn new(alloc: Global) -> Result<Options> {
        Ok(Options {
            table: OptionTable::new(alloc, Kind::Button)?,
        })
    }

    fn configure(&mut self, alloc: Global, words: &str) -> Result<String> {
        let words = barred_texts(alloc, words)?;
        match self.table.configure(alloc, words.as_slice()) {
            Ok(()) => result_of(alloc, ""),
            Err(fault) => refused(alloc, fault.number()),
        }
    }

    fn cget(&self, alloc: Global, word: &str) -> Result<String> {
        match self.table.cget(&word_of(alloc, word)?) {
            Ok(value) => result_of(alloc, value.as_str()),
            Err(fault) => refused(alloc, fault.number()),
        }
    }

    fn describe(&self, alloc: Global) -> Result<String> {
        let all = self.table.describe(alloc)?;
        let mut told = format!(in alloc; "={}", all.as_slice().len())?;
        for one in all.as_slice() {
            told.push('|')?;
            told.push_str(one.as_str())?;
        }
        Ok(told)
    }

    /// What a question is answered.
    pub fn answer(&mut self, alloc: Global, question: &str) -> Result<String> {
        let (what, words) = first_word(question);
        match what {
            "new" => {
                self.table = OptionTable::new(alloc, kind_of(words)?)?;
                result_of(alloc, "")
            }
            "configure" => self.configure(alloc, words),
            "cget" => self.cget(alloc, words),
            "describe" => self.describe(alloc),
            _ => bail!("no such question"),
        }
    }
}
