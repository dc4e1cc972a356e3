//! An interpreter with its variables, whose outside commands are those of the panel.
ghost use Rattle.std.specs.Prelude.{◌≡◌, ◌≢◌, ◌<◌, ◌+◌, IfOk, OnOk, Ok};
ghost use Rattle.tcl_interp.specs.Finish.{Idle};
ghost use Rattle.tcl_interp.specs.Interp.{rest_of, left_of, LeavesRest};

use crate::panel::Panel;
use anyhow::{Result, bail};
use std::alloc::Global;
use tcl_interp::{Code, Interp, SliceEnd};
use tcl_text::Text;
use tcl_vars::Scopes;

/// The interpreter. Contracts say of it only whether there is something to do: what it does is not said again here.
#[derive(Drop)]
pub struct Runner {
    alloc: Global,
    interp: Interp<u64>,
    scopes: Scopes,
}

/// What a slice answers, in a word.
fn word_of(end: &SliceEnd) -> &'static str {
    match end {
        SliceEnd::Done(Code::Error, _) => "error",
        SliceEnd::Done(_, _) => "done",
        SliceEnd::More => "more",
        SliceEnd::Exhausted => "exhausted",
    }
}

impl Runner {
    /// One that takes at most so many steps, where outside commands have these names.
    pub fn new(alloc: Global, budget: u64, names: &[Text]) -> Result<Runner>
        ensures idle { IfOk result (λ runner. rest_of runner.interp ≡ Idle) }
    {
        Ok(Runner {
            alloc,
            interp: Interp::new(alloc, budget, names)?,
            scopes: Scopes::new(alloc)?,
        })
    }

    /// Begins a script.
    fn begin(&mut self, script: &str) -> Result<()>
        requires idle { rest_of self.old.interp ≡ Idle }
        ensures begun { OnOk result (rest_of self.new.interp ≢ Idle) }
    {
        self.interp.begin(Text::new(self.alloc, script)?)?;
        Ok(())
    }

    /// A slice of so many steps.
    fn slice(&mut self, steps: u64) -> Result<SliceEnd>
        requires positive { 0 < steps }
        requires begun { rest_of self.old.interp ≢ Idle }
        ensures rest { IfOk result (λ end. LeavesRest end (rest_of self.new.interp)) }
        ensures more { result ≡ Ok SliceEnd.More → left_of self.new.interp + steps ≡ left_of self.old.interp }
    {
        let end = self
            .interp
            .run_slice(&mut Panel { alloc: self.alloc }, &mut self.scopes, steps)?;
        Ok(end)
    }

    /// Slices of one size, to the end.
    fn to_end(&mut self, size: u64) -> Result<SliceEnd>
        requires positive { 0 < size }
        requires begun { rest_of self.old.interp ≢ Idle }
        ensures rest { IfOk result (λ end. LeavesRest end (rest_of self.new.interp)) }
    {
        'slices: loop {
            match self.slice(size)? {
                SliceEnd::More => {}
                end => return Ok(end),
            }
        }
    }

    /// What each slice of one size answers of a script, up to the last one, with the steps that are left behind it.
    pub fn slices(&mut self, script: &str, size: u64) -> Result<String>
        requires idle { rest_of self.old.interp ≡ Idle }
        requires positive { 0 < size }
    {
        self.begin(script)?;
        let mut told = String::from_str(self.alloc, "=")?;
        'slices: loop {
            let end = self.slice(size)?;
            let left = self.interp.steps_left();
            let one = format!(in self.alloc; "{} {left}", word_of(&end))?;
            told.push_str(one.as_str())?;
            if !matches!(end, SliceEnd::More) {
                return Ok(told);
            }
            told.push_str(", ")?;
        }
    }

    /// How a script ends that is run in slices of one size, as a table has it.
    pub fn ending(&mut self, script: &str, slice: u64) -> Result<String>
        requires idle { rest_of self.old.interp ≡ Idle }
        requires positive { 0 < slice }
    {
        self.begin(script)?;
        let end = self.to_end(slice)?;
        let left = self.interp.steps_left();
        match end {
            SliceEnd::Done(Code::Error, text) => {
                Ok(format!(in self.alloc; "!{left} {}", text.as_str())?)
            }
            SliceEnd::Done(_, text) => Ok(format!(in self.alloc; "={left} {}", text.as_str())?),
            SliceEnd::Exhausted => Ok(String::from_str(self.alloc, "-")?),
            SliceEnd::More => bail!("there is more to do"),
        }
    }
}
