ghost use Rattle.std.specs.Prelude.{◌≡◌, ◌∷◌, IfOk, OnOk};
ghost use Rattle.tcl_vars.specs.Store.{Store};
ghost use Rattle.tcl_table.specs.Levels.{here};
ghost use Rattle.tcl_control.specs.Loops.{items_tested};
ghost use Rattle.tcl_interp.specs.Plans.{with_first_levels, others};
ghost use Rattle.tcl_interp.specs.Finish.{Calls, ForLevels};
ghost use Rattle.tcl_interp.specs.Moves.{moved, standing, plan_move, items_move, test_move, act_move};
ghost use Rattle.tcl_interp.specs.Quiet.{Leads};
ghost use Rattle.tcl_interp.specs.Rests.{standing_of, waits_of};
ghost use Rattle.tcl_interp.specs.Steps.{TakesStep, Resumed};

use crate::expressions::iteration_by;
use crate::machine::{Frame, Next, Now};
use crate::openings::{Condition, choose_first, open_condition, valued};
use crate::tasks::{Act, Tasks};
use crate::words::{begin_for, wait};
use std::alloc::{AllocError, Global};
use tcl_commands::Groups;
use tcl_control::{
    Call, Code, Context, Loop, Looping, Plan, Test, Verdict, call_command, items_tested,
};
use tcl_table::texts::unknown_command;
use tcl_table::{CommandTable, Source};
use tcl_text::{Text, TextList};
use tcl_vars::Scopes;

/// A script runs where only so many of the levels are.
fn run_at<K: Drop>(
    alloc: Global,
    context: &mut Context,
    frames: &mut Vec<Frame<K>>,
    count: usize,
) -> Result<(), AllocError>
    ensures { OnOk result ((context.new ≡ with_first_levels count context.old)
        × (waits_of frames.new.items ≡ ForLevels (others count context.old) ∷ waits_of frames.old.items)) }
{
    let others = context.levels.cut(alloc, count)?;
    wait(frames, Frame::ForLevels(others))?;
    Ok(())
}

/// A command does what its plan says.
fn follow<K: Drop>(
    alloc: Global,
    scopes: &Scopes,
    context: &mut Context,
    frames: &mut Vec<Frame<K>>,
    plan: Plan,
    room: u64,
) -> Next<K>
    ensures { IfOk result (λ now. Leads (plan_move room scopes.now context.old (waits_of frames.old.items) plan)
        (standing_of now frames.new.items scopes.now context.new)) }
{
    match plan {
        Plan::Ends(code, text) => Ok(Now::Ends { code, text }),
        Plan::Runs(script) => Ok(Now::Begins { room, script }),
        Plan::Catches(script, name) => begin_for(frames, Frame::ForCatch(name), room, script),
        Plan::RunsAt(count, script) => {
            run_at(alloc, context, frames, count)?;
            Ok(Now::Begins { room, script })
        }
        Plan::Enters(script) => begin_for(frames, Frame::ForProcedure, room, script),
        Plan::Evaluates(expression) => valued(alloc, scopes, context, &expression, room),
        Plan::Chooses(choices) => choose_first(alloc, scopes, context, frames, room, choices),
        Plan::Loops(looping) => Ok(Now::Tests { room, looping }),
        Plan::Starts(script, looping) => {
            begin_for(frames, Frame::ForStart { room, looping }, room, script)
        }
    }
}

/// What an act of a command of this name, or of a task, leads to.
fn act_on<K: Drop>(
    alloc: Global,
    context: &mut Context,
    frames: &mut Vec<Frame<K>>,
    act: Act<K>,
    name: &str,
    room: u64,
) -> Next<K>
    ensures { IfOk result (λ now. (store : Store) → standing_of now frames.new.items store context.new
        ≡ act_move room name.now store context.old (waits_of frames.old.items) act) }
{
    match act {
        Act::Done(code, text) => Ok(Now::Ends { code, text }),
        Act::Step(task) => Ok(Now::Steps {
            room,
            task: Box::new(alloc, task)?,
        }),
        Act::Run { script, task } => {
            let task = Box::new(alloc, task)?;
            wait(frames, Frame::ForScript { room, task })?;
            run_at(alloc, context, frames, 1)?;
            Ok(Now::Begins {
                room,
                script: Source::of_text(script),
            })
        }
        Act::Unknown => Ok(Now::Ends {
            code: Code::Error,
            text: unknown_command(alloc, name)?,
        }),
    }
}

/// A loop tests whether there are items left.
fn test_items<K: Drop>(
    alloc: Global,
    scopes: &mut Scopes,
    context: &Context,
    frames: &mut Vec<Frame<K>>,
    groups: Groups,
    body: Source,
    next: Option<Source>,
    room: u64,
) -> Next<K>
    ensures { IfOk result (λ now. standing_of now frames.new.items scopes.new context.now
        ≡ items_move room (record { test = Test.Items groups; body = body; next = next }) context.now (waits_of frames.old.items)
        (items_tested (here context.now.levels scopes.old) groups scopes.old)) }
{
    let level = context.levels.here(scopes);
    match items_tested(alloc, scopes, level, groups)? {
        Verdict::More(groups) => {
            let script = body.copy()?;
            let test = Test::Items(groups);
            let looping = Looping::new(alloc, Loop { test, body, next })?;
            begin_for(frames, Frame::ForBody { room, looping }, room, script)
        }
        Verdict::NoMore => Ok(Now::Ends {
            code: Code::Normal,
            text: Text::empty(),
        }),
        Verdict::Fails(text) => Ok(Now::Ends {
            code: Code::Error,
            text,
        }),
    }
}

/// A loop tests whether it has another iteration.
pub fn test<K: Drop>(
    alloc: Global,
    scopes: &mut Scopes,
    context: &Context,
    frames: &mut Vec<Frame<K>>,
    looping: Looping,
    room: u64,
) -> Next<K>
    ensures { IfOk result (λ now. Leads (test_move room looping scopes.old context.now (waits_of frames.old.items) looping.test)
        (standing_of now frames.new.items scopes.new context.now)) }
{
    match &looping.get().test {
        Test::Holds(expression) => {
            let level = context.levels.here(scopes);
            match open_condition(alloc, scopes, level, expression, room)? {
                Condition::Known(holds) => iteration_by(frames, room, looping, holds),
                Condition::Begins(now) => {
                    wait(frames, Frame::ForTest { room, looping })?;
                    Ok(now)
                }
            }
        }
        Test::Items(_) => {
            let Loop { test, body, next } = looping.into_inner();
            match test {
                Test::Items(groups) => {
                    test_items(alloc, scopes, context, frames, groups, body, next, room)
                }
                Test::Holds(_) => unreachable!(),
            }
        }
    }
}

/// These texts, and copies of more.
fn with_copies(alloc: Global, first: Text, more: &[Text]) -> Result<TextList, AllocError>
    ensures { IfOk result (λ all. all ≡ first ∷ more.now) }
{
    let mut texts = TextList::new(alloc);
    texts.push(first)?;
    for text in more {
        texts.push(text.copy()?)?;
    }
    Ok(texts)
}

/// Calls an outside command, which first had this name, with these words behind it.
fn call_outside<T: Tasks>(
    alloc: Global,
    tasks: &mut T,
    scopes: &mut Scopes,
    first: Text,
    arguments: &[Text],
) -> Result<Act<T::Task>, AllocError>
    ensures ok { IfOk result (λ act. record { shows = (T.shows tasks.new); store = scopes.new; act = act }
        ≡ T.outside.calls (T.shows tasks.old) scopes.old (first ∷ arguments.now)) }
    ensures left { T.left_alone tasks.new ≡ T.left_alone tasks.old }
{
    let words = with_copies(alloc, first, arguments)?;
    tasks.call(scopes, words.as_slice())
}

/// Calls a command of this name with these words behind it.
fn call_named<T: Tasks>(
    alloc: Global,
    tasks: &mut T,
    scopes: &mut Scopes,
    context: &mut Context,
    frames: &mut Vec<Frame<T::Task>>,
    name: &Text,
    arguments: &[Text],
    room: u64,
) -> Next<T::Task>
    ensures ok { IfOk result (λ now. TakesStep T.outside
        (standing (moved (Calls room (name.now ∷ arguments.now)) (waits_of frames.old.items)) scopes.old context.old) (T.shows tasks.old)
        (standing_of now frames.new.items scopes.new context.new) (T.shows tasks.new)) }
    ensures left { T.left_alone tasks.new ≡ T.left_alone tasks.old }
{
    match call_command(alloc, scopes, context, name, arguments)? {
        Call::Plans(plan) => follow(alloc, scopes, context, frames, plan, room),
        Call::Outside(first) => {
            let act = call_outside(alloc, tasks, scopes, first, arguments)?;
            act_on(alloc, context, frames, act, name.as_str(), room)
        }
        Call::Unknown => Ok(Now::Ends {
            code: Code::Error,
            text: unknown_command(alloc, name.as_str())?,
        }),
    }
}

/// Calls a command with these words, of which there is one at least.
pub fn call<T: Tasks>(
    alloc: Global,
    tasks: &mut T,
    scopes: &mut Scopes,
    context: &mut Context,
    frames: &mut Vec<Frame<T::Task>>,
    words: &[Text],
    room: u64,
) -> Next<T::Task>
    ensures ok { IfOk result (λ now. TakesStep T.outside (standing (moved (Calls room words.now) (waits_of frames.old.items)) scopes.old context.old)
        (T.shows tasks.old) (standing_of now frames.new.items scopes.new context.new) (T.shows tasks.new)) }
    ensures left { T.left_alone tasks.new ≡ T.left_alone tasks.old }
{
    match words {
        [] => Ok(Now::Ends {
            code: Code::Normal,
            text: Text::empty(),
        }),
        [name, arguments @ ..] => {
            call_named(alloc, tasks, scopes, context, frames, name, arguments, room)
        }
    }
}

/// The text of the error with which a script of a task has ended, if it has.
fn failure_of(code: Code, text: &Text) -> Result<Option<Text>, AllocError> {
    match code {
        Code::Error => Ok(Some(text.copy()?)),
        _ => Ok(None),
    }
}

/// The error of a task's script goes no further, and is noted, unless the task ends with it.
fn end_failure<K>(
    table: &mut CommandTable,
    failure: Option<Text>,
    act: &Act<K>,
) -> Result<(), AllocError>
    ensures { table.new ≡ table.old }
{
    let Some(failed) = failure else {
        return Ok(());
    };
    match act {
        Act::Done(Code::Error, text) if text.as_str() == failed.as_str() => Ok(()),
        _ => table.end_trail(&failed),
    }
}

/// Resumes a task.
pub fn resume<T: Tasks>(
    alloc: Global,
    tasks: &mut T,
    scopes: &mut Scopes,
    context: &mut Context,
    frames: &mut Vec<Frame<T::Task>>,
    room: u64,
    task: T::Task,
    code: Code,
    text: Text,
) -> Next<T::Task>
    ensures ok { IfOk result (λ now. Resumed T.outside room task code text (waits_of frames.old.items) (T.shows tasks.old) scopes.old context.old
        (standing_of now frames.new.items scopes.new context.new) (T.shows tasks.new)) }
    ensures left { T.left_alone tasks.new ≡ T.left_alone tasks.old }
{
    let failure = failure_of(code, &text)?;
    let act = tasks.resume(scopes, task, code, text)?;
    end_failure(&mut context.commands, failure, &act)?;
    act_on(alloc, context, frames, act, "", room)
}
