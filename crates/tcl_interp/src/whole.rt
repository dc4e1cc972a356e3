//! Scripts of commands that are done on their words as they are written, and `if` and `switch` among them, as far as they go on without moves.
ghost use Rattle.std.specs.Prelude.{◌≡◌, IsTrue, ◌<◌, ◌≤◌, ◌+◌, ◌-◌, [], ◌∷◌, ℕ, length, drop, List, Some, IfOk, OnErr};
ghost use Rattle.tcl_table.specs.Names.{plain_name};
ghost use Rattle.tcl_table.specs.Table.{command_of};
ghost use Rattle.tcl_interp.specs.Finish.{ForCommand, GoesOn, Waiting};
ghost use Rattle.tcl_interp.specs.Moves.{moved, standing};
ghost use Rattle.tcl_interp.specs.Rests.{commands_in, words_in_front};
ghost use Rattle.tcl_interp.specs.Steps.{TakesSteps};
ghost use Rattle.tcl_interp.specs.Whole.{WrittenAt, came_to, past_to, reached_to, stopped_in};

use crate::calls::{do_leaving, do_texts, do_variable};
use crate::chosen::{Choice, Chosen, Switched, choose_arm, choose_body};
use crate::machine::{Front, ScriptPlace};
use crate::reach::{Came, Passed, Past, Reach, Reached, Stop, Went};
use crate::simple::{DEPTH, command_named, plain_words, written};
use crate::tasks::Tasks;
use crate::words::{commands, words_at};
use std::alloc::{AllocError, Global};
use tcl_control::{Code, Context};
use tcl_table::{Builtin, Command};
use tcl_text::Text;
use tcl_vars::Scopes;
use tcl_words::{Script, Word};

/// A script waits for one that has stopped in it.
fn stopped_within<K>(
    script: &Script,
    next: usize,
    room: u64,
    stop: Stop,
) -> Result<Stop, AllocError>
    ensures { IfOk result (λ stopped. (waits : List (Waiting K)) → stopped_in stopped waits
        ≡ stopped_in stop (ForCommand room (drop next (commands_in script.now)) ∷ waits)) }
{
    let mut outer = stop.outer;
    outer.push(ScriptPlace {
        script: script.copy()?,
        next,
        room,
    })?;
    Ok(Stop { outer, ..stop })
}

/// The place behind a command of a script.
fn place_behind(script: &Script, place: usize) -> usize
    requires { place < length (commands_in script.now) }
    ensures { result ≡ place + 1 }
{
    let count = commands(script).len();
    if place < count { place + 1 } else { place }
}

/// Runs the body that `if` or `switch` has chosen, by the command at a place of a script, for so many steps at most.
#[cycle(scripts)]
fn run_body<T: Tasks>(
    alloc: Global,
    scopes: &mut Scopes,
    context: &Context,
    script: &Script,
    place: usize,
    body: &Script,
    room: u64,
    most: u64,
    left: &mut u64,
) -> Result<Passed, AllocError>
    requires room { 0 < room }
    requires there { most ≤ left.old }
    requires place { place < length (commands_in script.now) }
    ensures ok { IfOk result (λ passed. (previous : List ℕ) (waits : List (Waiting T.Task)) (shows : T.Shows) → TakesSteps T.outside passed.steps
        (standing (moved (GoesOn (room - 1) (commands_in body.now) []) (ForCommand room (drop (place + 1) (commands_in script.now)) ∷ waits)) scopes.old context.now) shows
        (standing (past_to room place (commands_in script.now) previous passed.past waits) scopes.new context.now) shows) }
    ensures most { IfOk result (λ passed. passed.steps ≤ most) }
    ensures counted { IfOk result (λ passed. passed.steps + left.new ≡ left.old) }
    ensures taken { left.new ≤ left.old }
    ensures within { left.old ≤ left.new + most }
{
    let inner = room - 1;
    let reached = run_through::<T>(alloc, scopes, context, body, inner, most, left)?;
    let steps = reached.steps;
    match reached.reach {
        Reach::Whole(text) => Ok(Passed {
            past: Past::Behind(Code::Normal, text),
            steps,
        }),
        Reach::Stopped(stop) => {
            let next = place_behind(script, place);
            let stop = stopped_within::<T::Task>(script, next, room, stop)?;
            let past = Past::Within(Box::new(alloc, stop)?);
            Ok(Passed { past, steps })
        }
    }
}

/// Runs `if` of this name at a place of a script, where what it runs is known at once, for so many steps at most.
#[cycle(scripts)]
#[inline(never)]
fn run_if<T: Tasks>(
    alloc: Global,
    scopes: &mut Scopes,
    context: &Context,
    script: &Script,
    place: usize,
    words: &[Word],
    name: &Text,
    room: u64,
    most: u64,
    left: &mut u64,
) -> Result<Passed, AllocError>
    requires place { place < length (commands_in script.now) }
    requires words { words.now ≡ words_in_front (drop place (commands_in script.now)) }
    requires name { WrittenAt 0 words.now name.now }
    requires calls { command_of context.now.commands (plain_name name.now) ≡ Some (Command.Builtin Builtin.If) }
    requires some { 0 < most }
    requires there { most ≤ left.old }
    ensures ok { IfOk result (λ passed. (previous : List ℕ) (waits : List (Waiting T.Task)) (shows : T.Shows) → TakesSteps T.outside passed.steps
        (standing (moved (GoesOn room (drop place (commands_in script.now)) previous) waits) scopes.old context.now) shows
        (standing (past_to room place (commands_in script.now) previous passed.past waits) scopes.new context.now) shows) }
    ensures most { IfOk result (λ passed. passed.steps ≤ most) }
    ensures counted { IfOk result (λ passed. passed.steps + left.new ≡ left.old) }
    ensures taken { left.new ≤ left.old }
    ensures within { left.old ≤ left.new + most }
    ensures untaken { IfOk result (λ passed. passed.steps ≡ 0 → scopes.new ≡ scopes.old) }
    ensures uncounted { OnErr result (left.new ≡ left.old → scopes.new ≡ scopes.old) }
{
    let level = context.levels.here(scopes);
    let few = most - 1;
    let found = choose_body::<T>(alloc, scopes, context, level, words, room, few)?;
    let Some(Choice { chosen, steps }) = found else {
        return Ok(Passed {
            past: Past::Before(Front::Other),
            steps: 0,
        });
    };
    let before = steps + 1;
    match chosen {
        Chosen::Nothing => {
            *left -= before;
            let past = Past::Behind(Code::Normal, Text::empty());
            let steps = before;
            Ok(Passed { past, steps })
        }
        Chosen::Body(body) if room > 0 => {
            *left -= before;
            let fewer = most - before;
            let Passed { past, steps } = run_body::<T>(
                alloc, scopes, context, script, place, &body, room, fewer, left,
            )?;
            let steps = steps + before;
            Ok(Passed { past, steps })
        }
        _ => Ok(Passed {
            past: Past::Before(Front::Other),
            steps: 0,
        }),
    }
}

/// Runs `switch` of this name at a place of a script, where its words are plain and its body was read before, for so many steps at most.
#[cycle(scripts)]
#[inline(never)]
fn run_switch<T: Tasks>(
    alloc: Global,
    scopes: &mut Scopes,
    context: &Context,
    script: &Script,
    place: usize,
    words: &[Word],
    name: &Text,
    room: u64,
    most: u64,
    left: &mut u64,
) -> Result<Passed, AllocError>
    requires place { place < length (commands_in script.now) }
    requires words { words.now ≡ words_in_front (drop place (commands_in script.now)) }
    requires name { WrittenAt 0 words.now name.now }
    requires calls { command_of context.now.commands (plain_name name.now) ≡ Some (Command.Builtin Builtin.Switch) }
    requires some { 0 < most }
    requires there { most ≤ left.old }
    ensures ok { IfOk result (λ passed. (previous : List ℕ) (waits : List (Waiting T.Task)) (shows : T.Shows) → TakesSteps T.outside passed.steps
        (standing (moved (GoesOn room (drop place (commands_in script.now)) previous) waits) scopes.old context.now) shows
        (standing (past_to room place (commands_in script.now) previous passed.past waits) scopes.new context.now) shows) }
    ensures most { IfOk result (λ passed. passed.steps ≤ most) }
    ensures counted { IfOk result (λ passed. passed.steps + left.new ≡ left.old) }
    ensures taken { left.new ≤ left.old }
    ensures within { left.old ≤ left.new + most }
    ensures untaken { IfOk result (λ passed. passed.steps ≡ 0 → scopes.new ≡ scopes.old) }
    ensures uncounted { OnErr result (left.new ≡ left.old → scopes.new ≡ scopes.old) }
{
    let few = most - 1;
    let found = plain_words::<T>(alloc, scopes, context, words, 1, room, few, DEPTH)?;
    let Some(found) = found else {
        return Ok(Passed {
            past: Past::Before(Front::Unplain),
            steps: 0,
        });
    };
    let before = found.steps + 1;
    let arguments = found.words.as_slice();
    let done = choose_arm(alloc, context, arguments)?;
    match done {
        Switched::Ends(code, text) => {
            *left -= before;
            let past = Past::Behind(code, text);
            let steps = before;
            Ok(Passed { past, steps })
        }
        Switched::Runs(body) if room > 0 => {
            *left -= before;
            let fewer = most - before;
            let Passed { past, steps } = run_body::<T>(
                alloc, scopes, context, script, place, &body, room, fewer, left,
            )?;
            let steps = steps + before;
            Ok(Passed { past, steps })
        }
        _ => Ok(Passed {
            past: Past::Before(Front::Other),
            steps: 0,
        }),
    }
}

/// Whether a command is one that only leaves what runs it.
fn leaves(builtin: Builtin) -> bool {
    matches!(
        builtin,
        Builtin::Break | Builtin::Continue | Builtin::Return
    )
}

/// Runs the command at a place of a script, where it can be done on its words, for so many steps at most.
#[cycle(scripts)]
fn run_command<T: Tasks>(
    alloc: Global,
    scopes: &mut Scopes,
    context: &Context,
    script: &Script,
    place: usize,
    room: u64,
    most: u64,
    left: &mut u64,
) -> Result<Passed, AllocError>
    requires place { place < length (commands_in script.now) }
    requires some { 0 < most }
    requires there { most ≤ left.old }
    ensures ok { IfOk result (λ passed. (previous : List ℕ) (waits : List (Waiting T.Task)) (shows : T.Shows) → TakesSteps T.outside passed.steps
        (standing (moved (GoesOn room (drop place (commands_in script.now)) previous) waits) scopes.old context.now) shows
        (standing (past_to room place (commands_in script.now) previous passed.past waits) scopes.new context.now) shows) }
    ensures most { IfOk result (λ passed. passed.steps ≤ most) }
    ensures counted { IfOk result (λ passed. passed.steps + left.new ≡ left.old) }
    ensures taken { left.new ≤ left.old }
    ensures within { left.old ≤ left.new + most }
    ensures untaken { IfOk result (λ passed. passed.steps ≡ 0 → scopes.new ≡ scopes.old) }
    ensures uncounted { OnErr result (left.new ≡ left.old → scopes.new ≡ scopes.old) }
{
    let words = words_at(script, place);
    let Some(name) = written(words, 0) else {
        return Ok(Passed {
            past: Past::Before(Front::Other),
            steps: 0,
        });
    };
    match command_named(context, name) {
        Some(Command::Builtin(Builtin::Variable(command))) => {
            let command = *command;
            do_variable::<T>(
                alloc, scopes, context, words, name, command, room, most, left,
            )
        }
        Some(Command::Texts(command)) => {
            let command = *command;
            do_texts::<T>(
                alloc, scopes, context, words, name, command, room, most, left,
            )
        }
        Some(Command::Builtin(Builtin::If)) => run_if::<T>(
            alloc, scopes, context, script, place, words, name, room, most, left,
        ),
        Some(Command::Builtin(Builtin::Switch)) => run_switch::<T>(
            alloc, scopes, context, script, place, words, name, room, most, left,
        ),
        Some(Command::Builtin(builtin)) if leaves(*builtin) => {
            let builtin = *builtin;
            do_leaving::<T>(
                alloc, scopes, context, words, name, builtin, room, most, left,
            )
        }
        _ => Ok(Passed {
            past: Past::Before(Front::Other),
            steps: 0,
        }),
    }
}

/// The commands of a script came to this place, where the command before it has ended so.
#[inline]
fn stands(next: usize, code: Code, text: Text, front: Front) -> Came
    ensures { result ≡ Came.At next code text front }
{
    Came::At {
        next,
        code,
        text,
        front,
    }
}

/// Runs commands of a script from a place on, behind one with this result, as long as they can be done on their words, for so many steps at most.
#[cycle(scripts)]
pub fn run_whole<T: Tasks>(
    alloc: Global,
    scopes: &mut Scopes,
    context: &Context,
    script: &Script,
    from: usize,
    previous: Text,
    room: u64,
    most: u64,
    left: &mut u64,
) -> Result<Went, AllocError>
    requires there { most ≤ left.old }
    ensures ok { IfOk result (λ went. (waits : List (Waiting T.Task)) (shows : T.Shows) → TakesSteps T.outside went.steps
        (standing (moved (GoesOn room (drop from (commands_in script.now)) previous) waits) scopes.old context.now) shows
        (standing (came_to room (commands_in script.now) went.came waits) scopes.new context.now) shows) }
    ensures most { IfOk result (λ went. went.steps ≤ most) }
    ensures counted { IfOk result (λ went. went.steps + left.new ≡ left.old) }
    ensures taken { left.new ≤ left.old }
    ensures within { left.old ≤ left.new + most }
    ensures untaken { IfOk result (λ went. went.steps ≡ 0 → scopes.new ≡ scopes.old) }
    ensures uncounted { OnErr result (left.new ≡ left.old → scopes.new ≡ scopes.old) }
{
    let count = commands(script).len();
    let mut next = from;
    let mut text = previous;
    let mut steps = 0;
    'commands: while steps < most && next < count {
        let more = most - steps;
        let passed = run_command::<T>(alloc, scopes, context, script, next, room, more, left)?;
        steps += passed.steps;
        match passed.past {
            Past::Before(front) => {
                let here = stands(next, Code::Normal, text, front);
                return Ok(Went { came: here, steps });
            }
            Past::Behind(Code::Normal, result) => {
                next += 1;
                text = result;
            }
            Past::Behind(code, result) => {
                let behind = stands(next + 1, code, result, Front::New);
                return Ok(Went {
                    came: behind,
                    steps,
                });
            }
            Past::Within(stop) => {
                let came = Came::Within(stop);
                return Ok(Went { came, steps });
            }
        }
    }
    let last = stands(next, Code::Normal, text, Front::New);
    Ok(Went { came: last, steps })
}

/// Whether a command that has ended so is the last one of a script, which has ended normally.
fn is_whole(script: &Script, next: usize, code: Code) -> bool
    ensures { IsTrue result → (length (commands_in script.now) ≤ next) × (code ≡ Code.Normal) }
{
    next >= commands(script).len() && matches!(code, Code::Normal)
}

/// How far a script came for which others wait, whose commands came so far.
fn reach_of<K>(alloc: Global, script: &Script, room: u64, came: Came) -> Result<Reach, AllocError>
    ensures { IfOk result (λ reach. (waits : List (Waiting K)) → came_to room (commands_in script.now) came waits ≡ reached_to room reach waits) }
{
    match came {
        Came::At {
            next,
            code,
            text,
            ..
        } if is_whole(script, next, code) => Ok(Reach::Whole(text)),
        Came::At {
            next,
            code,
            text,
            front,
        } => {
            let script = script.copy()?;
            Ok(Reach::Stopped(Stop {
                place: ScriptPlace { script, next, room },
                outer: Vec::new(alloc),
                code,
                text,
                front,
            }))
        }
        Came::Within(stop) => Ok(Reach::Stopped(Box::into_inner(stop))),
    }
}

/// Runs a script from its beginning, for which others wait, as long as its commands can be done on their words, for so many steps at most.
#[cycle(scripts)]
pub fn run_through<T: Tasks>(
    alloc: Global,
    scopes: &mut Scopes,
    context: &Context,
    script: &Script,
    room: u64,
    most: u64,
    left: &mut u64,
) -> Result<Reached, AllocError>
    requires there { most ≤ left.old }
    ensures ok { IfOk result (λ reached. (waits : List (Waiting T.Task)) (shows : T.Shows) → TakesSteps T.outside reached.steps
        (standing (moved (GoesOn room (commands_in script.now) []) waits) scopes.old context.now) shows
        (standing (reached_to room reached.reach waits) scopes.new context.now) shows) }
    ensures most { IfOk result (λ reached. reached.steps ≤ most) }
    ensures counted { IfOk result (λ reached. reached.steps + left.new ≡ left.old) }
    ensures taken { left.new ≤ left.old }
    ensures within { left.old ≤ left.new + most }
{
    let first = Text::empty();
    let went = run_whole::<T>(alloc, scopes, context, script, 0, first, room, most, left)?;
    let steps = went.steps;
    let reach = reach_of::<T::Task>(alloc, script, room, went.came)?;
    Ok(Reached { reach, steps })
}
