//! Commands on variables, texts and lists, and those that leave scripts, called on their words as they are written, without moves.
ghost use Rattle.std.specs.Prelude.{◌≡◌, ◌<◌, ◌≤◌, ◌+◌, [], ◌∷◌, length, Some, IfOk, IfSome, OnErr};
ghost use Rattle.tcl_vars.specs.Store.{Store};
ghost use Rattle.tcl_table.specs.Names.{plain_name};
ghost use Rattle.tcl_table.specs.Table.{command_of};
ghost use Rattle.tcl_interp.specs.Simple.{EndsCall};
ghost use Rattle.tcl_interp.specs.Whole.{Passes, WrittenAt};

use crate::machine::Front;
use crate::reach::{Passed, Past};
use crate::simple::{DEPTH, call_texts, end_of, plain_words, word_value, written};
use crate::tasks::Tasks;
use std::alloc::{AllocError, Global};
use tcl_commands::{VariableCommand, call_variable_command, call_with_one, call_with_two};
use tcl_control::{Context, End, Plan, leaving_plan};
use tcl_table::{Builtin, Command};
use tcl_text::{Text, TextCommand};
use tcl_vars::Scopes;
use tcl_words::Word;

/// Calls a command on variables of this name with these words behind it.
fn call_variable<T: Tasks>(
    alloc: Global,
    scopes: &mut Scopes,
    context: &Context,
    name: &Text,
    command: VariableCommand,
    arguments: &[Text],
) -> Result<End, AllocError>
    requires { command_of context.now.commands (plain_name name.now) ≡ Some (Command.Builtin (Builtin.Variable command)) }
    ensures { IfOk result (λ end. EndsCall T.outside (name.now ∷ arguments.now) scopes.old context.now scopes.new end.code end.text) }
{
    let level = context.levels.here(scopes);
    let answer = call_variable_command(alloc, scopes, level, command, arguments)?;
    Ok(end_of(answer))
}

/// Calls a command on variables of this name with one word behind it.
fn call_one<T: Tasks>(
    alloc: Global,
    scopes: &mut Scopes,
    context: &Context,
    name: &Text,
    command: VariableCommand,
    word: &Text,
) -> Result<End, AllocError>
    requires { command_of context.now.commands (plain_name name.now) ≡ Some (Command.Builtin (Builtin.Variable command)) }
    ensures { IfOk result (λ end. EndsCall T.outside (name.now ∷ word.now ∷ []) scopes.old context.now scopes.new end.code end.text) }
{
    let level = context.levels.here(scopes);
    let answer = call_with_one(alloc, scopes, level, command, word)?;
    Ok(end_of(answer))
}

/// Calls a command on variables of this name with two words behind it.
fn call_two<T: Tasks>(
    alloc: Global,
    scopes: &mut Scopes,
    context: &Context,
    name: &Text,
    command: VariableCommand,
    word: &Text,
    value: Text,
) -> Result<End, AllocError>
    requires { command_of context.now.commands (plain_name name.now) ≡ Some (Command.Builtin (Builtin.Variable command)) }
    ensures { IfOk result (λ end. EndsCall T.outside (name.now ∷ word.now ∷ value ∷ []) scopes.old context.now scopes.new end.code end.text) }
{
    let level = context.levels.here(scopes);
    let answer = call_with_two(alloc, scopes, level, command, word, value)?;
    Ok(end_of(answer))
}

/// A command on variables of this name, with one word behind it, which is written.
fn with_written<T: Tasks>(
    alloc: Global,
    scopes: &mut Scopes,
    context: &Context,
    words: &[Word],
    name: &Text,
    command: VariableCommand,
    word: &Text,
    room: u64,
    most: u64,
    left: &mut u64,
) -> Result<Passed, AllocError>
    requires two { length words.now ≡ 2 }
    requires name { WrittenAt 0 words.now name.now }
    requires word { WrittenAt 1 words.now word.now }
    requires calls { command_of context.now.commands (plain_name name.now) ≡ Some (Command.Builtin (Builtin.Variable command)) }
    requires some { 0 < most }
    requires there { most ≤ left.old }
    ensures ok { IfOk result (λ passed. Passes T.outside room words.now scopes.old context.now passed.steps passed.past scopes.new) }
    ensures most { IfOk result (λ passed. passed.steps ≤ most) }
    ensures counted { IfOk result (λ passed. passed.steps + left.new ≡ left.old) }
    ensures taken { left.new ≤ left.old }
    ensures within { left.old ≤ left.new + most }
    ensures untaken { IfOk result (λ passed. passed.steps ≡ 0 → scopes.new ≡ scopes.old) }
    ensures uncounted { OnErr result (left.new ≡ left.old → scopes.new ≡ scopes.old) }
{
    *left -= 1;
    let End { code, text } = call_one::<T>(alloc, scopes, context, name, command, word)?;
    let past = Past::Behind(code, text);
    Ok(Passed { past, steps: 1 })
}

/// A command on variables of this name, with two words behind it, the first of which is written.
fn with_written_first<T: Tasks>(
    alloc: Global,
    scopes: &mut Scopes,
    context: &Context,
    words: &[Word],
    name: &Text,
    command: VariableCommand,
    word: &Text,
    room: u64,
    most: u64,
    left: &mut u64,
) -> Result<Passed, AllocError>
    requires three { length words.now ≡ 3 }
    requires name { WrittenAt 0 words.now name.now }
    requires word { WrittenAt 1 words.now word.now }
    requires calls { command_of context.now.commands (plain_name name.now) ≡ Some (Command.Builtin (Builtin.Variable command)) }
    requires some { 0 < most }
    requires there { most ≤ left.old }
    ensures ok { IfOk result (λ passed. Passes T.outside room words.now scopes.old context.now passed.steps passed.past scopes.new) }
    ensures most { IfOk result (λ passed. passed.steps ≤ most) }
    ensures counted { IfOk result (λ passed. passed.steps + left.new ≡ left.old) }
    ensures taken { left.new ≤ left.old }
    ensures within { left.old ≤ left.new + most }
    ensures untaken { IfOk result (λ passed. passed.steps ≡ 0 → scopes.new ≡ scopes.old) }
    ensures uncounted { OnErr result (left.new ≡ left.old → scopes.new ≡ scopes.old) }
{
    let level = context.levels.here(scopes);
    let few = most - 1;
    let second = word_value::<T>(alloc, scopes, context, level, words, 2, room, few, DEPTH)?;
    let Some(second) = second else {
        return Ok(Passed {
            past: Past::Before(Front::Unplain),
            steps: 0,
        });
    };
    let steps = second.steps + 1;
    *left -= steps;
    let value = second.text;
    let End { code, text } = call_two::<T>(alloc, scopes, context, name, command, word, value)?;
    let past = Past::Behind(code, text);
    Ok(Passed { past, steps })
}

/// A command on variables of this name, with one word behind it.
fn with_one<T: Tasks>(
    alloc: Global,
    scopes: &mut Scopes,
    context: &Context,
    words: &[Word],
    name: &Text,
    command: VariableCommand,
    room: u64,
    most: u64,
    left: &mut u64,
) -> Result<Passed, AllocError>
    requires two { length words.now ≡ 2 }
    requires name { WrittenAt 0 words.now name.now }
    requires calls { command_of context.now.commands (plain_name name.now) ≡ Some (Command.Builtin (Builtin.Variable command)) }
    requires some { 0 < most }
    requires there { most ≤ left.old }
    ensures ok { IfOk result (λ passed. Passes T.outside room words.now scopes.old context.now passed.steps passed.past scopes.new) }
    ensures most { IfOk result (λ passed. passed.steps ≤ most) }
    ensures counted { IfOk result (λ passed. passed.steps + left.new ≡ left.old) }
    ensures taken { left.new ≤ left.old }
    ensures within { left.old ≤ left.new + most }
    ensures untaken { IfOk result (λ passed. passed.steps ≡ 0 → scopes.new ≡ scopes.old) }
    ensures uncounted { OnErr result (left.new ≡ left.old → scopes.new ≡ scopes.old) }
{
    let level = context.levels.here(scopes);
    let Some(first) = word_value::<T>(
        alloc,
        scopes,
        context,
        level,
        words,
        1,
        room,
        most - 1,
        DEPTH,
    )?
    else {
        return Ok(Passed {
            past: Past::Before(Front::Unplain),
            steps: 0,
        });
    };
    let steps = first.steps + 1;
    *left -= steps;
    let End { code, text } = call_variable::<T>(
        alloc,
        scopes,
        context,
        name,
        command,
        &[first.text],
    )?;
    let past = Past::Behind(code, text);
    Ok(Passed { past, steps })
}

/// A command on variables of this name, with two words behind it.
fn with_two<T: Tasks>(
    alloc: Global,
    scopes: &mut Scopes,
    context: &Context,
    words: &[Word],
    name: &Text,
    command: VariableCommand,
    room: u64,
    most: u64,
    left: &mut u64,
) -> Result<Passed, AllocError>
    requires three { length words.now ≡ 3 }
    requires name { WrittenAt 0 words.now name.now }
    requires calls { command_of context.now.commands (plain_name name.now) ≡ Some (Command.Builtin (Builtin.Variable command)) }
    requires some { 0 < most }
    requires there { most ≤ left.old }
    ensures ok { IfOk result (λ passed. Passes T.outside room words.now scopes.old context.now passed.steps passed.past scopes.new) }
    ensures most { IfOk result (λ passed. passed.steps ≤ most) }
    ensures counted { IfOk result (λ passed. passed.steps + left.new ≡ left.old) }
    ensures taken { left.new ≤ left.old }
    ensures within { left.old ≤ left.new + most }
    ensures untaken { IfOk result (λ passed. passed.steps ≡ 0 → scopes.new ≡ scopes.old) }
    ensures uncounted { OnErr result (left.new ≡ left.old → scopes.new ≡ scopes.old) }
{
    let level = context.levels.here(scopes);
    let few = most - 1;
    let first = word_value::<T>(alloc, scopes, context, level, words, 1, room, few, DEPTH)?;
    let Some(first) = first else {
        return Ok(Passed {
            past: Past::Before(Front::Unplain),
            steps: 0,
        });
    };
    let fewer = few - first.steps;
    let second = word_value::<T>(alloc, scopes, context, level, words, 2, room, fewer, DEPTH)?;
    let Some(second) = second else {
        return Ok(Passed {
            past: Past::Before(Front::Unplain),
            steps: 0,
        });
    };
    let steps = first.steps + second.steps + 1;
    *left -= steps;
    let arguments = [first.text, second.text];
    let End { code, text } = call_variable::<T>(alloc, scopes, context, name, command, &arguments)?;
    let past = Past::Behind(code, text);
    Ok(Passed { past, steps })
}

/// A command on variables of this name, with as many words behind it as there are.
fn with_all<T: Tasks>(
    alloc: Global,
    scopes: &mut Scopes,
    context: &Context,
    words: &[Word],
    name: &Text,
    command: VariableCommand,
    room: u64,
    most: u64,
    left: &mut u64,
) -> Result<Passed, AllocError>
    requires name { WrittenAt 0 words.now name.now }
    requires calls { command_of context.now.commands (plain_name name.now) ≡ Some (Command.Builtin (Builtin.Variable command)) }
    requires some { 0 < most }
    requires there { most ≤ left.old }
    ensures ok { IfOk result (λ passed. Passes T.outside room words.now scopes.old context.now passed.steps passed.past scopes.new) }
    ensures most { IfOk result (λ passed. passed.steps ≤ most) }
    ensures counted { IfOk result (λ passed. passed.steps + left.new ≡ left.old) }
    ensures taken { left.new ≤ left.old }
    ensures within { left.old ≤ left.new + most }
    ensures untaken { IfOk result (λ passed. passed.steps ≡ 0 → scopes.new ≡ scopes.old) }
    ensures uncounted { OnErr result (left.new ≡ left.old → scopes.new ≡ scopes.old) }
{
    let few = most - 1;
    let found = plain_words::<T>(alloc, scopes, context, words, 1, room, few, DEPTH)?;
    let Some(found) = found else {
        return Ok(Passed {
            past: Past::Before(Front::Unplain),
            steps: 0,
        });
    };
    let steps = found.steps + 1;
    *left -= steps;
    let arguments = found.words.as_slice();
    let End { code, text } = call_variable::<T>(alloc, scopes, context, name, command, arguments)?;
    let past = Past::Behind(code, text);
    Ok(Passed { past, steps })
}

/// Does a command on texts or lists of this name on its words, for so many steps at most, where they are plain. Nothing is done where they aren't.
#[inline(never)]
pub fn do_texts<T: Tasks>(
    alloc: Global,
    scopes: &Scopes,
    context: &Context,
    words: &[Word],
    name: &Text,
    command: TextCommand,
    room: u64,
    most: u64,
    left: &mut u64,
) -> Result<Passed, AllocError>
    requires name { WrittenAt 0 words.now name.now }
    requires calls { command_of context.now.commands (plain_name name.now) ≡ Some (Command.Texts command) }
    requires some { 0 < most }
    requires there { most ≤ left.old }
    ensures ok { IfOk result (λ passed. Passes T.outside room words.now scopes.now context.now passed.steps passed.past scopes.now) }
    ensures most { IfOk result (λ passed. passed.steps ≤ most) }
    ensures counted { IfOk result (λ passed. passed.steps + left.new ≡ left.old) }
    ensures taken { left.new ≤ left.old }
    ensures within { left.old ≤ left.new + most }
{
    let few = most - 1;
    let found = plain_words::<T>(alloc, scopes, context, words, 1, room, few, DEPTH)?;
    let Some(found) = found else {
        return Ok(Passed {
            past: Past::Before(Front::Unplain),
            steps: 0,
        });
    };
    let steps = found.steps + 1;
    *left -= steps;
    let arguments = found.words.as_slice();
    let End { code, text } = call_texts::<T>(alloc, context, name, command, arguments)?;
    let past = Past::Behind(code, text);
    Ok(Passed { past, steps })
}

/// Calls `break`, `continue` or `return` by this name with these words behind it, which ends at once; none for another command.
fn call_leaving<T: Tasks>(
    alloc: Global,
    context: &Context,
    name: &Text,
    builtin: Builtin,
    arguments: &[Text],
) -> Result<Option<End>, AllocError>
    requires { command_of context.now.commands (plain_name name.now) ≡ Some (Command.Builtin builtin) }
    ensures { IfOk result (λ found. IfSome found (λ end. (store : Store) → EndsCall T.outside (name.now ∷ arguments.now) store context.now store end.code end.text)) }
{
    let _ = &context.commands;
    let _ = name.as_str();
    match leaving_plan(alloc, builtin, arguments)? {
        Some(Plan::Ends(code, text)) => Ok(Some(End { code, text })),
        _ => Ok(None),
    }
}

/// Does `break`, `continue` or `return` of this name on its words, for so many steps at most, where they are plain. Nothing is done where they aren't, nor
/// for another command.
#[inline(never)]
pub fn do_leaving<T: Tasks>(
    alloc: Global,
    scopes: &Scopes,
    context: &Context,
    words: &[Word],
    name: &Text,
    builtin: Builtin,
    room: u64,
    most: u64,
    left: &mut u64,
) -> Result<Passed, AllocError>
    requires name { WrittenAt 0 words.now name.now }
    requires calls { command_of context.now.commands (plain_name name.now) ≡ Some (Command.Builtin builtin) }
    requires some { 0 < most }
    requires there { most ≤ left.old }
    ensures ok { IfOk result (λ passed. Passes T.outside room words.now scopes.now context.now passed.steps passed.past scopes.now) }
    ensures most { IfOk result (λ passed. passed.steps ≤ most) }
    ensures counted { IfOk result (λ passed. passed.steps + left.new ≡ left.old) }
    ensures taken { left.new ≤ left.old }
    ensures within { left.old ≤ left.new + most }
{
    let few = most - 1;
    let found = plain_words::<T>(alloc, scopes, context, words, 1, room, few, DEPTH)?;
    let Some(found) = found else {
        return Ok(Passed {
            past: Past::Before(Front::Unplain),
            steps: 0,
        });
    };
    let behind = found.words.as_slice();
    let ended = call_leaving::<T>(alloc, context, name, builtin, behind)?;
    let Some(End { code, text }) = ended else {
        return Ok(Passed {
            past: Past::Before(Front::Other),
            steps: 0,
        });
    };
    let steps = found.steps + 1;
    *left -= steps;
    let past = Past::Behind(code, text);
    Ok(Passed { past, steps })
}

/// Does a command on variables of this name on its words, for so many steps at most, where they are plain. Nothing is done where they aren't. Its steps
/// are counted before it is called.
#[inline(never)]
pub fn do_variable<T: Tasks>(
    alloc: Global,
    scopes: &mut Scopes,
    context: &Context,
    words: &[Word],
    name: &Text,
    command: VariableCommand,
    room: u64,
    most: u64,
    left: &mut u64,
) -> Result<Passed, AllocError>
    requires name { WrittenAt 0 words.now name.now }
    requires calls { command_of context.now.commands (plain_name name.now) ≡ Some (Command.Builtin (Builtin.Variable command)) }
    requires some { 0 < most }
    requires there { most ≤ left.old }
    ensures ok { IfOk result (λ passed. Passes T.outside room words.now scopes.old context.now passed.steps passed.past scopes.new) }
    ensures most { IfOk result (λ passed. passed.steps ≤ most) }
    ensures counted { IfOk result (λ passed. passed.steps + left.new ≡ left.old) }
    ensures taken { left.new ≤ left.old }
    ensures within { left.old ≤ left.new + most }
    ensures untaken { IfOk result (λ passed. passed.steps ≡ 0 → scopes.new ≡ scopes.old) }
    ensures uncounted { OnErr result (left.new ≡ left.old → scopes.new ≡ scopes.old) }
{
    match (words.len(), written(words, 1)) {
        (2, Some(word)) => with_written::<T>(
            alloc, scopes, context, words, name, command, word, room, most, left,
        ),
        (2, None) => with_one::<T>(
            alloc, scopes, context, words, name, command, room, most, left,
        ),
        (3, Some(word)) => with_written_first::<T>(
            alloc, scopes, context, words, name, command, word, room, most, left,
        ),
        (3, None) => with_two::<T>(
            alloc, scopes, context, words, name, command, room, most, left,
        ),
        _ => with_all::<T>(
            alloc, scopes, context, words, name, command, room, most, left,
        ),
    }
}
