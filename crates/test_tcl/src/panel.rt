//! A few outside commands: enough to see each kind of act, and tasks of several steps and scripts.
ghost use Rattle.std.specs.Prelude.{◌≡◌, ◌≤◌, length, IfOk};
ghost use Rattle.test_tcl.specs.Sample.{alone_act, resumed_act, sample_act};
ghost use Rattle.tcl_text.specs.Limits.{most_bytes};

use std::alloc::{AllocError, Global};
use tcl_interp::{Act, Code, ReturnCode, Tasks};
use tcl_text::{Text, TextFault, TextList};
use tcl_vars::Scopes;
use tcl_words::{ParseFault, Script, parse};

fn done(alloc: Global, code: Code, text: &str) -> Result<Act<u64>, AllocError>
    requires { length text.now ≤ most_bytes }
    ensures { IfOk result (λ act. act ≡ Act.Done code text.now) }
{
    Ok(Act::Done(code, Text::of_short(alloc, text)?))
}

fn alone(alloc: Global, name: &str) -> Result<Act<u64>, AllocError>
    ensures { IfOk result (λ act. act ≡ alone_act name.now) }
{
    if name == "ask" {
        done(alloc, Code::Normal, "answer")
    } else if name == "fail" {
        done(alloc, Code::Error, "failed")
    } else if name == "stop" {
        done(alloc, Code::Break, "")
    } else if name == "go" {
        done(alloc, Code::Continue, "")
    } else if name == "leave" {
        done(alloc, Code::Return(ReturnCode::Normal), "left")
    } else if name == "rest" {
        Ok(Act::Step(10))
    } else {
        Ok(Act::Unknown)
    }
}

fn act(alloc: Global, words: &[Text]) -> Result<Act<u64>, AllocError>
    ensures { IfOk result (λ act. act ≡ sample_act words.now) }
{
    match words {
        [name] => alone(alloc, name.as_str()),
        [name, script] => {
            if name.as_str() == "again" {
                Ok(Act::Run {
                    script: script.copy()?,
                    task: 3,
                })
            } else {
                Ok(Act::Unknown)
            }
        }
        _ => Ok(Act::Unknown),
    }
}

fn resumed(alloc: Global, task: u64, code: Code, text: Text) -> Result<Act<u64>, AllocError>
    ensures { IfOk result (λ act. act ≡ resumed_act task code text) }
{
    if task == 0 {
        Ok(Act::Done(code, text))
    } else if task < 10 {
        Ok(Act::Run {
            script: Text::of_short(alloc, "ask")?,
            task: task - 1,
        })
    } else if task < 12 {
        Ok(Act::Step(task + 1))
    } else {
        done(alloc, Code::Normal, "rested")
    }
}

/// Serves the commands.
#[derive(Drop)]
pub struct Panel {
    pub alloc: Global,
}

impl Tasks for Panel {
    type Task = u64;

    ghost use Rattle.test_tcl.specs.Sample.{sample};
    ghost use Rattle.test_tcl.specs.SampleFalls.{sample_falls};

    ghost Shows = { Unit {0} };

    ghost shows = { λ _. tt };

    ghost outside = { sample };

    ghost Left = { Unit {0} };

    ghost left_alone = { λ _. tt };

    #[tactic(auto, using(tcl_table::proofs::SourceLemmas::script_walk))]
    fn parsed(&mut self, text: &Text) -> Result<Script, ParseFault> {
        parse(self.alloc, text.as_str().as_bytes())
    }

    fn call(&mut self, _scopes: &mut Scopes, words: &[Text]) -> Result<Act<u64>, AllocError> {
        act(self.alloc, words)
    }

    fn resume(
        &mut self,
        _scopes: &mut Scopes,
        task: u64,
        code: Code,
        text: Text,
    ) -> Result<Act<u64>, AllocError> {
        resumed(self.alloc, task, code, text)
    }

    ghost falls = { sample_falls };
}

/// The names of the commands.
pub fn names(alloc: Global) -> Result<TextList, TextFault> {
    let mut names = TextList::new(alloc);
    for name in ["ask", "fail", "stop", "go", "leave", "rest", "again"] {
        names.push(Text::new(alloc, name)?)?;
    }
    Ok(names)
}
