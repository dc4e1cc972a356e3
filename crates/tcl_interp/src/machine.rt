ghost use Rattle.std.specs.Prelude.{◌≡◌, ◌<◌, is_some, length, true};
ghost use Rattle.tcl_expr.specs.Resuming.{is_waiting};

use std::alloc::AllocError;
use tcl_commands::Choices;
use tcl_control::{Code, Looping};
use tcl_expr::Eval;
use tcl_table::{Levels, Source};
use tcl_text::{Text, TextList};
use tcl_words::{Index, Script};

/// A script of which the commands before `next` have run, and the room for scripts in it.
#[derive(Drop)]
pub struct ScriptPlace {
    pub script: Script,
    pub next: usize,
    pub room: u64,
}

/// The next command of a script, whose words are being put together: those before `word` are whole, and the pieces of that
/// word before `piece` are joined.
#[derive(Drop)]
pub struct Wording {
    pub place: ScriptPlace,
    pub word: usize,
    pub piece: usize,
    pub whole: TextList,
    pub so_far: Text,
}

/// An element whose index is being put together: its pieces before `piece` are joined. There is room for so many scripts, and for
/// indices that go so deep, in it.
#[derive(Drop)]
pub struct Indexing {
    pub room: u64,
    pub depth: u64,
    pub name: Text,
    pub index: Index,
    pub piece: usize,
    pub so_far: Text,
}

/// An evaluation that goes on, with the answer to what it asked.
#[derive(Drop)]
pub struct Answered {
    pub eval: Eval,
    pub given: Option<Text>,
    ghost answered: { is_some given ≡ is_waiting eval.state },
}

/// An evaluation that has asked for something.
#[derive(Drop)]
pub struct Asking {
    pub eval: Eval,
    ghost asking: { is_waiting eval.state ≡ true },
}

/// The branches of `if`, of which the condition at a place was begun.
#[derive(Drop)]
pub struct Choosing {
    pub choices: Choices,
    pub place: usize,
    ghost within: { place < length choices.branches },
}

/// What is done now. A move carries it along, so what is large stands behind a box.
#[derive(Drop)]
pub enum Now<K> {
    /// A script begins, with room for so many one in another.
    Begins {
        room: u64,
        script: Source,
    },
    /// A command of a script has given its result, and the script goes on behind it.
    GoesOn {
        place: ScriptPlace,
        result: Text,
    },
    /// The index of an element is put together.
    Indexes(Box<Indexing>),
    /// An expression goes on.
    Evaluates {
        room: u64,
        answered: Box<Answered>,
    },
    /// A command is called with these words.
    Calls {
        room: u64,
        words: TextList,
    },
    /// A loop tests its condition.
    Tests {
        room: u64,
        looping: Looping,
    },
    /// A task of an outside command takes a step.
    Steps {
        room: u64,
        task: Box<K>,
    },
    /// A task goes on, with how the script that it has run has ended.
    Resumes {
        room: u64,
        task: Box<K>,
        code: Code,
        text: Text,
    },
    /// What was done has ended, and what waits for it is told so.
    Ends {
        code: Code,
        text: Text,
    },
}

/// What is known of the next command of a script, so that nothing is tried twice. It may be any: no clause depends on it.
#[derive(Clone, Copy)]
pub enum Front {
    /// Nothing.
    New,
    /// It calls another command than those that are done on their words.
    Other,
    /// Its words aren't plain.
    Unplain,
}

/// What is done next, unless memory is refused.
pub type Next<K> = Result<Now<K>, AllocError>;

/// What waits for something to end, with what is large behind a box.
#[derive(Drop)]
pub enum Frame<K> {
    /// A script waits for its command.
    ForCommand(ScriptPlace),
    /// A word waits for a script in brackets, or for the value of an element.
    ForPart(Box<Wording>),
    /// An index waits for a script in brackets, or for an element in it.
    ForIndex(Box<Indexing>),
    /// An expression waits for what it has asked.
    ForValue { room: u64, asking: Box<Asking> },
    /// A loop waits for its condition.
    ForTest { room: u64, looping: Looping },
    /// `if` waits for the condition of a branch.
    ForChoice { room: u64, choosing: Box<Choosing> },
    /// A loop waits for its body.
    ForBody { room: u64, looping: Looping },
    /// `for` waits for the script between two iterations.
    ForNext { room: u64, looping: Looping },
    /// `for` waits for its first script.
    ForStart { room: u64, looping: Looping },
    /// `catch` waits for its script, and sets this variable, if one is named.
    ForCatch(Option<Text>),
    /// `uplevel` waits for its script, and gives the levels back.
    ForLevels(Levels),
    /// A procedure's frame waits for its body.
    ForProcedure,
    /// A task waits for the script that it runs.
    ForScript { room: u64, task: Box<K> },
    /// The caller waits for the whole.
    ForAll,
}

/// What an interpreter does.
#[derive(Drop)]
pub enum Machine<K> {
    /// Nothing was begun.
    Idle,
    /// Something is done.
    Running(Now<K>),
    /// A step was wanted, and none is left.
    Spent,
    /// Memory was refused: what was done is lost.
    Broken,
}
