//! The questions of `scopes`: variables by the calls of what keeps them, with a global frame alone where a table begins anew.
//!
//! `set LEVEL NAME TEXT`, `get LEVEL NAME`, `unset LEVEL NAME`, `pairs LEVEL NAME` and `link LEVEL NAME TO_LEVEL TO_NAME` are the calls of these names,
//! `push` and `pop` those that add and take a frame. `get` is answered the text, `pairs` the names and texts of an array's elements with bars between.
//! What is refused is answered `!` and its number, or `!` and what it shows where it has none. Memory for the answer is taken before the call, so that a
//! call that was refused memory may be made once more.
use anyhow::{Result, bail};
use asking::{number, push_barred, refused, result_of, words_of};
use std::alloc::Global;
use tcl_text::{LinkFault, Text};
use tcl_vars::Scopes;

/// The frames that the questions are put to.
#[derive(Drop)]
pub struct Store {
    scopes: Scopes,
}

impl Store {
    pub fn new(alloc: Global) -> Result<Store> {
        Ok(Store {
            scopes: Scopes::new(alloc)?,
        })
    }

    fn set(&mut self, alloc: Global, level: usize, name: &Text, text: &str) -> Result<String> {
        if self.scopes.levels() <= level {
            bail!("no such level");
        }
        match self.scopes.set(level, name, Text::new(alloc, text)?) {
            Ok(()) => result_of(alloc, ""),
            Err(fault) => refused(alloc, fault.number()),
        }
    }

    fn get(&self, alloc: Global, level: usize, name: &Text) -> Result<String> {
        if self.scopes.levels() <= level {
            bail!("no such level");
        }
        match self.scopes.get(level, name) {
            Ok(text) => result_of(alloc, text.as_str()),
            Err(fault) => refused(alloc, Some(fault.number())),
        }
    }

    fn unset(&mut self, alloc: Global, level: usize, name: &Text) -> Result<String> {
        if self.scopes.levels() <= level {
            bail!("no such level");
        }
        let done = result_of(alloc, "")?;
        match self.scopes.unset(level, name) {
            Ok(()) => Ok(done),
            Err(fault) => refused(alloc, fault.number()),
        }
    }

    fn pairs(&self, alloc: Global, level: usize, name: &Text) -> Result<String> {
        if self.scopes.levels() <= level {
            bail!("no such level");
        }
        let pairs = self.scopes.array_pairs(level, name)?;
        let mut told = String::from_str(alloc, "=")?;
        for (place, text) in pairs.as_slice().iter().enumerate() {
            push_barred(&mut told, place, text.as_str())?;
        }
        Ok(told)
    }

    fn link(
        &mut self,
        alloc: Global,
        level: usize,
        name: &Text,
        to_level: usize,
        to_name: &Text,
    ) -> Result<String> {
        if self.scopes.levels() <= level || level <= to_level {
            bail!("no such levels");
        }
        match self.scopes.link(level, name, to_level, to_name) {
            Ok(()) => result_of(alloc, ""),
            Err(LinkFault::NoMemory) => bail!("out of memory"),
            Err(fault) => Ok(format!(in alloc; "!{fault}")?),
        }
    }

    fn pop(&mut self, alloc: Global) -> Result<String> {
        if self.scopes.levels() < 2 {
            bail!("no frame of a procedure");
        }
        let done = result_of(alloc, "")?;
        self.scopes.pop_frame();
        Ok(done)
    }

    /// What a question is answered.
    pub fn answer(&mut self, alloc: Global, question: &str) -> Result<String> {
        match words_of(alloc, question, ' ')?.as_slice() {
            ["set", level, name, text] => {
                self.set(alloc, number(level)?, &Text::new(alloc, name)?, text)
            }
            ["get", level, name] => self.get(alloc, number(level)?, &Text::new(alloc, name)?),
            ["unset", level, name] => self.unset(alloc, number(level)?, &Text::new(alloc, name)?),
            ["pairs", level, name] => self.pairs(alloc, number(level)?, &Text::new(alloc, name)?),
            ["link", level, name, to_level, to_name] => {
                let name = Text::new(alloc, name)?;
                let to_name = Text::new(alloc, to_name)?;
                self.link(alloc, number(level)?, &name, number(to_level)?, &to_name)
            }
            ["push"] => {
                let done = result_of(alloc, "")?;
                self.scopes.push_frame()?;
                Ok(done)
            }
            ["pop"] => self.pop(alloc),
            _ => bail!("no such question"),
        }
    }
}
