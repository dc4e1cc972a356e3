//! How far scripts and commands came that are run without moves.
use crate::machine::{Front, ScriptPlace};
use tcl_control::Code;
use tcl_text::Text;

/// A script that has stopped at a place, where the command before it has ended so. Others wait for it, each for the one before it.
#[derive(Drop)]
pub struct Stop {
    pub place: ScriptPlace,
    pub outer: Vec<ScriptPlace>,
    pub code: Code,
    pub text: Text,
    pub front: Front,
}

/// How far the commands of a script came.
#[derive(Drop)]
pub enum Came {
    /// To this place, where the command before it has ended so.
    At {
        next: usize,
        code: Code,
        text: Text,
        front: Front,
    },
    /// A script in it has stopped.
    Within(Box<Stop>),
}

/// How far the commands of a script came, and the steps that they took.
#[derive(Drop)]
pub struct Went {
    pub came: Came,
    pub steps: u64,
}

/// How far a script came that others wait for.
#[derive(Drop)]
pub enum Reach {
    /// All its commands have run, and ended normally: this is the last one's result.
    Whole(Text),
    /// It has stopped, or one in it.
    Stopped(Stop),
}

/// How far a script came that others wait for, and the steps that it took.
#[derive(Drop)]
pub struct Reached {
    pub reach: Reach,
    pub steps: u64,
}

/// How far a command came.
#[derive(Drop)]
pub enum Past {
    /// Nothing was done.
    Before(Front),
    /// It has ended.
    Behind(Code, Text),
    /// A script that it runs has stopped.
    Within(Box<Stop>),
}

/// How far a command came, and the steps that it took.
#[derive(Drop)]
pub struct Passed {
    pub past: Past,
    pub steps: u64,
}
