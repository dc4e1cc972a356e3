//! The questions of `kept`: which scripts a cache keeps.
//!
//! `capacity N` begins with a cache of that many scripts. `parsed TEXT` asks it for the script of a text, and is answered `=` and the script's text, or
//! `!` and its fault; `kept TEXT` is answered whether the script of a text is kept.
use anyhow::{Result, bail};
use asking::{error_of, first_word, number, result_of};
use std::alloc::Global;
use tcl_table::ScriptCache;
use tcl_text::Text;
use tcl_words::ParseFault;

/// A cache.
pub struct Kept {
    cache: ScriptCache,
}

fn cache_of(alloc: Global, capacity: usize) -> Result<ScriptCache> {
    if capacity == 0 {
        bail!("a cache of nothing");
    }
    Ok(ScriptCache::new(alloc, capacity)?)
}

impl Kept {
    pub fn new(alloc: Global) -> Result<Kept> {
        Ok(Kept {
            cache: cache_of(alloc, 1)?,
        })
    }

    fn parsed(&mut self, alloc: Global, text: &Text) -> Result<String> {
        match self.cache.parsed(text) {
            Ok(script) => result_of(alloc, script.text().as_str()),
            Err(ParseFault::NoMemory) => Err(ParseFault::NoMemory.into()),
            Err(fault) => error_of(alloc, fault.text()),
        }
    }

    /// What a question is answered.
    pub fn answer(&mut self, alloc: Global, question: &str) -> Result<String> {
        match first_word(question) {
            ("capacity", capacity) => {
                self.cache = cache_of(alloc, number(capacity)?)?;
                result_of(alloc, "")
            }
            ("parsed", text) => self.parsed(alloc, &Text::new(alloc, text)?),
            ("kept", text) => {
                let is_kept = self.cache.kept(&Text::new(alloc, text)?);
                result_of(alloc, if is_kept { "1" } else { "0" })
            }
            _ => bail!("no such question"),
        }
    }
}

/// By hand: a proof sees one call where it is dropped, and not its parts.
impl Drop for Kept {
    fn drop(self) {
        let Kept { cache: _ } = self;
    }
}
