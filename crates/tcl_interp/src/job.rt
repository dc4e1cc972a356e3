//! What is kept of a job, and what it does next.

use crate::Code;
use tcl_text::Text;

/// What comes next of a job.
#[derive(Drop)]
pub enum Looked<J> {
    /// It starts a script, once its step is taken.
    Wants(J),
    /// It has ended, with a code and a result or an error's text.
    Ends(Code, Text),
}

/// What a job starts once its step is taken.
#[derive(Drop)]
pub struct Started<J> {
    /// The script, which runs at global level.
    pub script: Text,
    /// What is left of the job, behind the script.
    pub job: J,
}

/// What an interpreter keeps of a job between its steps and scripts.
#[derive(Drop)]
pub enum Task<J> {
    /// A script runs first, without a step, and then the job goes on as behind a script of its own.
    Begins { script: Text, job: J },
    /// What comes next waits for its step.
    Waits(J),
    /// A script of the job runs.
    Runs(J),
    /// A script runs whose end is the answer, as that of a widget's `-command` is the answer of `invoke` (button(n)).
    Invoked,
}
