//! Adding to what is kept.
ghost use Rattle.tkhost_c.specs.Calls.{ReadsAlias, ReadsApp, kind_of};

use crate::kept::Kept;
use crate::refusal::Refusal;
use crate::texts::{kind_of, text_of};
use std::alloc::Global;
use std::mem;
use tcl_text::Text;
use tk_host::{Alias, Aliases, Budget, LineFault, MAX_ALIASES, Rect, is_command_name};
use tk_session::{AppBlock, Listing, Service};
use tkhost::Served;

/// What is kept of an application for the lines that name it, and its script.
fn read_app(
    alloc: Global,
    name: &[u8],
    rect: Rect,
    script: &[u8],
    budget: Budget,
) -> Result<(AppBlock, Text), Refusal>
    ensures { ReadsApp name.now rect script.now budget result }
{
    let name = text_of(alloc, name)?;
    let script = text_of(alloc, script)?;
    let block = AppBlock {
        name,
        rect,
        budget,
        aliases: Listing::new(alloc),
        script: Text::empty(),
    };
    Ok((block, script))
}

/// An alias that a service answers, of a name and a configuration that are texts.
fn alias_of(alloc: Global, name: &[u8], kind: u32, config: &[u8]) -> Result<Alias<Served>, Refusal>
    ensures { ReadsAlias (kind_of kind) name.now config.now result }
{
    let Some(kind) = kind_of(kind) else {
        return Err(Refusal::Fault(LineFault::BadLine));
    };
    let name = text_of(alloc, name)?;
    let config = text_of(alloc, config)?;
    Ok(Alias::of(name, Served::new(alloc, Service { kind, config })))
}

impl Kept {
    ghost use Rattle.tkhost_c.specs.Calls.{Adds, AddsWith, Pushes, Waits, kind_of};

    /// An alias waits for the next application.
    pub(crate) fn wait(
        &mut self,
        alloc: Global,
        name: &[u8],
        kind: u32,
        config: &[u8],
    ) -> Result<(), Refusal>
        ensures { Waits (kind_of kind) name.now config.now self.old self.new result }
    {
        if self.has_begun {
            return Err(Refusal::Fault(LineFault::Started));
        }
        if !is_command_name(name) || self.waiting.as_slice().len() >= MAX_ALIASES {
            return Err(Refusal::Fault(LineFault::BadLine));
        }
        match alias_of(alloc, name, kind, config) {
            Ok(alias) => self.push(alias),
            Err(refusal) => Err(refusal),
        }
    }

    /// One more alias waits.
    fn push(&mut self, alias: Alias<Served>) -> Result<(), Refusal>
        ensures { Pushes alias self.old self.new result }
    {
        match self.waiting.push(alias) {
            Ok(()) => Ok(()),
            Err(_) => Err(Refusal::NoMemory),
        }
    }

    /// Adds an application with the aliases that wait.
    pub(crate) fn add(
        &mut self,
        alloc: Global,
        name: &[u8],
        rect: Rect,
        script: &[u8],
        budget: Budget,
    ) -> Result<(), Refusal>
        ensures { Adds name.now rect script.now budget self.old self.new result }
    {
        let aliases = mem::replace(&mut self.waiting, Aliases::new(alloc));
        match read_app(alloc, name, rect, script, budget) {
            Ok((block, script)) => self.add_with(block, script, aliases),
            Err(refusal) => Err(refusal),
        }
    }

    /// Adds an application of these.
    fn add_with(
        &mut self,
        block: AppBlock,
        script: Text,
        aliases: Aliases<Served>,
    ) -> Result<(), Refusal>
        ensures { AddsWith block script aliases self.old self.new result }
    {
        self.apps.reserve(1)?;
        let name = block.name.copy()?;
        match self
            .host
            .add_app(name, block.rect, script, block.budget, aliases)
        {
            Ok(()) => {}
            Err(fault) => return Err(Refusal::from(fault)),
        }
        match self.apps.push(block) {
            Ok(()) => Ok(()),
            Err(_) => unreachable!(),
        }
    }
}
