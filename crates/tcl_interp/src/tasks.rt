ghost use Rattle.std.specs.Prelude.{◌≡◌, ◌⊎◌, Err, IfErr, IfOk, IsOk};
ghost use Rattle.tcl_table.specs.Source.{script_of};

use std::alloc::AllocError;
use tcl_control::Code;
use tcl_text::Text;
use tcl_vars::Scopes;
use tcl_words::{ParseFault, Script};

/// What an outside command, or a task that it began, does next.
#[derive(Drop)]
pub enum Act<K> {
    /// It has ended, with a code and a result or an error's text.
    Done(Code, Text),
    /// It takes one step, and then goes on with `resume`, given the normal code and the empty text.
    Step(K),
    /// A script runs at global level, and then it goes on with `resume`, given the code and the text of the script. A return
    /// of the script has become its `-code`; what a break or a continue means is the task's to say.
    Run { script: Text, task: K },
    /// No command has this name: it ends with that error.
    Unknown,
}

/// Serves the commands that the interpreter doesn't have itself.
pub trait Tasks {
    /// What a command keeps while it takes a step or a script of its runs.
    type Task: Drop;

    ghost use Rattle.std.specs.Prelude.{ℕ, ◌<◌};
    ghost use Rattle.tcl_interp.specs.Outside.{Outside, Falls};

    /// The type of what scripts can learn of it.
    ghost Shows: { Type 0 };

    /// What scripts can learn of it.
    ghost shows: { Self → Shows };

    /// What `call` and `resume` answer, show and leave, and the size of each task.
    ghost outside: { Outside Shows Self.Task };

    /// The type of what all calls leave alone.
    ghost Left: { Type 0 };

    /// What all calls leave alone, whatever they answer.
    ghost left_alone: { Self → Left };

    /// The commands of a script's text (Tcl(n)), or its fault (4 to 10), as `parse` answers: who serves several interpreters can keep what it
    /// read for all of them. What scripts can learn stays.
    fn parsed(&mut self, text: &Text) -> Result<Script, ParseFault>
        ensures text { IfOk result (λ script. script ≡ text.now) }
        ensures ok { IfOk result (λ _. IsOk (script_of text.now)) }
        ensures fault { IfErr result (λ fault. (script_of text.now ≡ Err fault) ⊎ (fault ≡ ParseFault.NoMemory)) }
        ensures shows { shows self.new ≡ shows self.old }
        ensures left { left_alone self.new ≡ left_alone self.old };

    /// Calls a command, whose step is taken. The words begin with its first name, before any `rename` (rename(n)), without a leading `::`: one of the
    /// names that the interpreter was given, or what begins with a dot, as a window's path. Where no window has the path, the answer is `Unknown`.
    /// An error of the script's is a `Done` with code 1.
    fn call(&mut self, scopes: &mut Scopes, words: &[Text]) -> Result<Act<Self::Task>, AllocError>
        ensures ok { IfOk result (λ act. record { shows = shows self.new; store = scopes.new; act = act }
            ≡ outside.calls (shows self.old) scopes.old words.now) }
        ensures left { left_alone self.new ≡ left_alone self.old };

    /// Goes on with a task: as it begins or after its step, with the normal code and the empty text, or after its script, with that one's.
    fn resume(
        &mut self,
        scopes: &mut Scopes,
        task: Self::Task,
        code: Code,
        text: Text,
    ) -> Result<Act<Self::Task>, AllocError>
        ensures ok { IfOk result (λ act. record { shows = shows self.new; store = scopes.new; act = act }
            ≡ outside.resumes (shows self.old) scopes.old task code text) }
        ensures left { left_alone self.new ≡ left_alone self.old };

    /// A task that runs one script after another comes to an end: each time what is left of it is smaller.
    ghost falls: { Falls outside };
}
