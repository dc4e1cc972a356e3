//! The questions of `runs`: how scripts end.
//!
//! A question `BUDGET SCRIPT` is a script of which so many steps may be taken. It is answered how the script ends: `=LEFT RESULT` normally, with so
//! many steps left, `!LEFT MESSAGE` with an error, and `-` where it needs a step and none is left. Each script runs by itself, four times: in slices
//! of 1, 2, 3 and 1,000 steps.
ghost use Rattle.std.specs.Prelude.{◌<◌};

use crate::panel::names;
use crate::runner::Runner;
use anyhow::Result;
use asking::{first_word, number};
use std::alloc::Global;

/// How a script ends, as a table has it.
fn ending(alloc: Global, script: &str, budget: u64, slice: u64) -> Result<String>
    requires { 0 < slice }
{
    let names = names(alloc)?;
    let mut runner = Runner::new(alloc, budget, names.as_slice())?;
    runner.ending(script, slice)
}

/// How a script ends in slices of any size; a slice in which it ends otherwise is told.
fn ending_of(alloc: Global, script: &str, budget: u64) -> Result<String> {
    let whole = ending(alloc, script, budget, 1000)?;
    for slice in [1, 2, 3] {
        let told = ending(alloc, script, budget, slice)?;
        if told != whole {
            return Ok(format!(in alloc; "{whole}, and in slices of {slice} {told}")?);
        }
    }
    Ok(whole)
}

/// What a question is answered.
pub fn answer(alloc: Global, question: &str) -> Result<String> {
    let (budget, script) = first_word(question);
    ending_of(alloc, script, number(budget)?)
}
