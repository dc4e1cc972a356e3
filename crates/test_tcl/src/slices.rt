//! The questions of `slices`: what slices answer one after another.
//!
//! A question `BUDGET SIZE SCRIPT` is a script of which so many steps may be taken, in slices of so many. It is answered `=` and what each slice
//! answers, up to the one that isn't `more`: `done`, `error` or `exhausted`, with how many steps are left behind it.
ghost use Rattle.std.specs.Prelude.{◌<◌};

use crate::panel::names;
use crate::runner::Runner;
use anyhow::{Result, bail};
use asking::{first_word, number};
use std::alloc::Global;

/// What the slices of a script answer.
fn slices(alloc: Global, budget: u64, size: u64, script: &str) -> Result<String>
    requires { 0 < size }
{
    let names = names(alloc)?;
    let mut runner = Runner::new(alloc, budget, names.as_slice())?;
    runner.slices(script, size)
}

/// What a question is answered.
pub fn answer(alloc: Global, question: &str) -> Result<String> {
    let (budget, rest) = first_word(question);
    let (size, script) = first_word(rest);
    let size: u64 = number(size)?;
    if size == 0 {
        bail!("a slice of no step");
    }
    slices(alloc, number(budget)?, size, script)
}
