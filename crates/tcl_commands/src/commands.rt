//! The commands on variables, by their names.
ghost use Rattle.std.specs.Prelude.{◌≡◌, ◌<◌, [], ◌∷◌, length, IfOk};
ghost use Rattle.tcl_commands.specs.Commands as spec;
ghost use Rattle.tcl_commands.specs.Refusals.{Does};
ghost use Rattle.tcl_commands.specs.Links.{upvar_words};
ghost use Rattle.tcl_commands.specs.Values.{exists_words};

use crate::arrays::array_words;
use crate::links::{global_words, upvar_words};
use crate::unset::unset_words;
use crate::values::{
    append_one, append_words, exists_words, incr_words, increase, lappend_words, set_to, set_words,
};
use std::alloc::{AllocError, Global};
use tcl_text::Text;
use tcl_text::answers::{Refusal, Reply};
use tcl_vars::Scopes;

/// A command on variables, which the manual page of its name describes, as set(n).
#[derive(Clone, Copy)]
pub enum VariableCommand {
    Set,
    Unset,
    Incr,
    Append,
    Lappend,
    Array,
    Global,
}

/// What a command on variables does, called in a frame with words of which the first is its name: its
/// result, or the text of its error. None, and nothing is done, where the first word names no such command, or there
/// is no word. `info exists` and `upvar` stand apart, since other forms of theirs know more than variables. Level 0 is
/// that of the global frame. The errors are those of `call_variable_command`.
pub fn variable_command(
    alloc: Global,
    scopes: &mut Scopes,
    frame: usize,
    words: &[Text],
) -> Result<Option<Result<Text, Text>>, AllocError>
    requires { frame < length scopes.old }
    ensures does { IfOk result (λ answer. record { store = scopes.new; answer = answer } ≡ spec.variable_command_of frame words.now scopes.old) }
    ensures levels { length scopes.new ≡ length scopes.old }
{
    let Some((name, arguments)) = words.split_first() else {
        return Ok(None);
    };
    let Some(command) = VariableCommand::named(name.as_str()) else {
        return Ok(None);
    };
    match command.done(alloc, scopes, frame, arguments) {
        Ok(text) => Ok(Some(Ok(text))),
        Err(Refusal::Error(message)) => Ok(Some(Err(message))),
        Err(Refusal::NoMemory) => Err(AllocError),
    }
}

/// What a command on variables does, called in a frame with the words after its name: its result, or the text of
/// its error: no integer (1) or a sum past 64 bits (13) of `incr`, no list (3), a text past 65,536 bytes (4), what can't be read,
/// set or unset (15 to 18), more than 4,096 variables (19), a key without a value of `array set` (23), and those without a
/// number. Where memory is refused, `set` and `incr` have changed nothing, and the others may have done a part.
pub fn call_variable_command(
    alloc: Global,
    scopes: &mut Scopes,
    frame: usize,
    command: VariableCommand,
    words: &[Text],
) -> Result<Result<Text, Text>, AllocError>
    requires { frame < length scopes.old }
    ensures does { IfOk result (λ answer. record { store = scopes.new; answer = answer } ≡ spec.command_done command frame words.now scopes.old) }
    ensures levels { length scopes.new ≡ length scopes.old }
{
    match command.done(alloc, scopes, frame, words) {
        Ok(text) => Ok(Ok(text)),
        Err(Refusal::Error(message)) => Ok(Err(message)),
        Err(Refusal::NoMemory) => Err(AllocError),
    }
}

/// The same of a command with one word behind its name.
pub fn call_with_one(
    alloc: Global,
    scopes: &mut Scopes,
    frame: usize,
    command: VariableCommand,
    word: &Text,
) -> Result<Result<Text, Text>, AllocError>
    requires { frame < length scopes.old }
    ensures does { IfOk result (λ answer. record { store = scopes.new; answer = answer } ≡ spec.command_done command frame (word.now ∷ []) scopes.old) }
    ensures levels { length scopes.new ≡ length scopes.old }
{
    match command.done_with_one(alloc, scopes, frame, word) {
        Ok(text) => Ok(Ok(text)),
        Err(Refusal::Error(message)) => Ok(Err(message)),
        Err(Refusal::NoMemory) => Err(AllocError),
    }
}

/// The same of a command with two words behind its name.
pub fn call_with_two(
    alloc: Global,
    scopes: &mut Scopes,
    frame: usize,
    command: VariableCommand,
    word: &Text,
    value: Text,
) -> Result<Result<Text, Text>, AllocError>
    requires { frame < length scopes.old }
    ensures does { IfOk result (λ answer. record { store = scopes.new; answer = answer } ≡ spec.command_done command frame (word.now ∷ value ∷ []) scopes.old) }
    ensures levels { length scopes.new ≡ length scopes.old }
{
    match command.done_with_two(alloc, scopes, frame, word, value) {
        Ok(text) => Ok(Ok(text)),
        Err(Refusal::Error(message)) => Ok(Err(message)),
        Err(Refusal::NoMemory) => Err(AllocError),
    }
}

impl VariableCommand {
    /// The command of this name.
    #[tactic(auto, unfolding(crate::specs::Commands::variable_command_named))]
    fn named(name: &str) -> Option<VariableCommand>
        ensures { result ≡ spec.variable_command_named name.now }
    {
        match name {
            "set" => Some(VariableCommand::Set),
            "unset" => Some(VariableCommand::Unset),
            "incr" => Some(VariableCommand::Incr),
            "append" => Some(VariableCommand::Append),
            "lappend" => Some(VariableCommand::Lappend),
            "array" => Some(VariableCommand::Array),
            "global" => Some(VariableCommand::Global),
            _ => None,
        }
    }

    /// What a command does, called with one word after its name: `incr` needs no list of it.
    fn done_with_one(self, alloc: Global, scopes: &mut Scopes, frame: usize, word: &Text) -> Reply
        requires { frame < length scopes.old }
        ensures does { Does result scopes.new (spec.command_done self frame (word.now ∷ []) scopes.old) }
        ensures levels { length scopes.new ≡ length scopes.old }
    {
        match self {
            VariableCommand::Incr => increase(alloc, scopes, frame, word, None),
            command => command.done(alloc, scopes, frame, &[word.copy()?]),
        }
    }

    /// What a command does, called with two words after its name: `set`, `incr` and `append` need no list of them.
    fn done_with_two(
        self,
        alloc: Global,
        scopes: &mut Scopes,
        frame: usize,
        word: &Text,
        value: Text,
    ) -> Reply
        requires { frame < length scopes.old }
        ensures does { Does result scopes.new (spec.command_done self frame (word.now ∷ value ∷ []) scopes.old) }
        ensures levels { length scopes.new ≡ length scopes.old }
    {
        match self {
            VariableCommand::Set => set_to(alloc, scopes, frame, word, value),
            VariableCommand::Incr => increase(alloc, scopes, frame, word, Some(&value)),
            VariableCommand::Append => append_one(alloc, scopes, frame, word, &value),
            command => command.done(alloc, scopes, frame, &[word.copy()?, value]),
        }
    }

    /// What a command does, called with the words after its name.
    fn done(self, alloc: Global, scopes: &mut Scopes, frame: usize, words: &[Text]) -> Reply
        requires { frame < length scopes.old }
        ensures does { Does result scopes.new (spec.command_done self frame words.now scopes.old) }
        ensures levels { length scopes.new ≡ length scopes.old }
    {
        match self {
            VariableCommand::Set => set_words(alloc, scopes, frame, words),
            VariableCommand::Unset => unset_words(alloc, scopes, frame, words),
            VariableCommand::Incr => incr_words(alloc, scopes, frame, words),
            VariableCommand::Append => append_words(alloc, scopes, frame, words),
            VariableCommand::Lappend => lappend_words(alloc, scopes, frame, words),
            VariableCommand::Array => array_words(alloc, scopes, frame, words),
            VariableCommand::Global => global_words(alloc, scopes, frame, words),
        }
    }
}

/// `info exists name`, with the words behind `exists`: whether there is a variable or element that a name means in the
/// frame at a level (info(n)). The answer is the command's result, 1 or 0, or the text of its error, a wrong number of words.
pub fn info_exists(
    alloc: Global,
    scopes: &Scopes,
    frame: usize,
    words: &[Text],
) -> Result<Result<Text, Text>, AllocError>
    requires { frame < length scopes.now }
    ensures { IfOk result (λ answer. answer ≡ exists_words frame words.now scopes.now) }
{
    match exists_words(alloc, scopes, frame, words) {
        Ok(text) => Ok(Ok(text)),
        Err(Refusal::Error(message)) => Ok(Err(message)),
        Err(Refusal::NoMemory) => Err(AllocError),
    }
}

/// `upvar` with the words behind its level: links names of a frame to names of the frame at an earlier
/// one (upvar(n)), up to the first that can't be. The answer is the command's result, which is empty, or the text of its error:
/// more than 4,096 variables (19), or one without a number: a wrong number of words, a name that can't be a link's, one that is taken.
pub fn upvar_command(
    alloc: Global,
    scopes: &mut Scopes,
    frame: usize,
    to_frame: usize,
    words: &[Text],
) -> Result<Result<Text, Text>, AllocError>
    requires level { frame < length scopes.old }
    requires earlier { to_frame < frame }
    ensures does { IfOk result (λ answer. record { store = scopes.new; answer = answer } ≡ upvar_words frame to_frame words.now scopes.old) }
    ensures levels { length scopes.new ≡ length scopes.old }
{
    match upvar_words(alloc, scopes, frame, to_frame, words) {
        Ok(text) => Ok(Ok(text)),
        Err(Refusal::Error(message)) => Ok(Err(message)),
        Err(Refusal::NoMemory) => Err(AllocError),
    }
}
