ghost use Rattle.std.specs.Prelude.{◌≡◌, ◌<◌, ◌≤◌, ◌+◌, ◌*◌, true, IfOk, List};
ghost use Rattle.tcl_interp.specs.Finish.{Waiting};
ghost use Rattle.tcl_interp.specs.Moves.{begin_move, moved};
ghost use Rattle.tcl_interp.specs.Quiet.{IsDue, Leads};
ghost use Rattle.tcl_interp.specs.Rests.{moved_of, doing_of, standing_of};
ghost use Rattle.tcl_interp.specs.Runs.{Comes, IfPaused};
ghost use Rattle.tcl_interp.specs.Steps.{GoesByStep, NeedsStep, IsSettled, TakesStep, TakesSteps, TakesNone, finish_from, pauses_left};

use crate::machine::{Frame, Front, Next, Now};
use crate::moves::{begun, quiet};
use crate::onward::run_commands;
use crate::simple::Gone;
use crate::steps::{call, resume, test};
use crate::tasks::Tasks;
use std::alloc::{AllocError, Global};
use tcl_control::{Code, Context};
use tcl_table::Source;
use tcl_text::Text;
use tcl_vars::Scopes;
use tcl_words::ParseFault;

/// A script by its text, which what serves the interpreter reads.
fn source_of<T: Tasks>(tasks: &mut T, text: &Text) -> Result<Source, AllocError>
    ensures source { IfOk result (λ source. source ≡ text.now) }
    ensures shows { T.shows tasks.new ≡ T.shows tasks.old }
    ensures left { T.left_alone tasks.new ≡ T.left_alone tasks.old }
{
    match tasks.parsed(text) {
        Ok(script) => Ok(Source::of_script(script)),
        Err(ParseFault::NoMemory) => Err(AllocError),
        Err(fault) => Ok(Source::at_fault(fault, text.copy()?)),
    }
}

/// A script that isn't known is read and begins.
fn begin_unread<T: Tasks>(
    alloc: Global,
    tasks: &mut T,
    context: &mut Context,
    script: Source,
    room: u64,
) -> Next<T::Task>
    ensures context { context.new ≡ context.old }
    ensures now { IfOk result (λ now. (waits : List (Waiting T.Task)) → moved (doing_of now) waits ≡ begin_move room script waits) }
    ensures shows { T.shows tasks.new ≡ T.shows tasks.old }
    ensures left { T.left_alone tasks.new ≡ T.left_alone tasks.old }
{
    let source = source_of(tasks, &script.text()?)?;
    source.keep(&mut context.commands)?;
    begun(alloc, &mut context.commands, source, room)
}

/// Moves on without a step, and reads what is to be read, up to where a step is needed, a task is to be resumed, or all has ended; or, if it
/// pauses, up to a command with plain words.
fn read_on<T: Tasks>(
    alloc: Global,
    tasks: &mut T,
    scopes: &mut Scopes,
    context: &mut Context,
    frames: &mut Vec<Frame<T::Task>>,
    now: Now<T::Task>,
    pauses: bool,
) -> Next<T::Task>
    ensures leads { IfOk result (λ due. Leads (standing_of now frames.old.items scopes.old context.old)
        (standing_of due frames.new.items scopes.new context.new)) }
    ensures due { IfOk result (λ due. IsDue pauses (moved_of due frames.new.items)) }
    ensures shows { T.shows tasks.new ≡ T.shows tasks.old }
    ensures left { T.left_alone tasks.new ≡ T.left_alone tasks.old }
{
    let mut doing = now;
    'scripts: loop {
        match quiet(alloc, scopes, context, frames, doing, pauses)? {
            Now::Begins { room, script } => {
                doing = begin_unread(alloc, tasks, context, script, room)?;
            }
            due => return Ok(due),
        }
    }
}

/// Moves on without a step, through tasks too, up to where a step is needed or all has ended; or, if it pauses, up to a command with plain
/// words.
fn settle<T: Tasks>(
    alloc: Global,
    tasks: &mut T,
    scopes: &mut Scopes,
    context: &mut Context,
    frames: &mut Vec<Frame<T::Task>>,
    now: Now<T::Task>,
    pauses: bool,
) -> Next<T::Task>
    ensures ok { IfOk result (λ settled. TakesNone T.outside (standing_of now frames.old.items scopes.old context.old) (T.shows tasks.old)
        (standing_of settled frames.new.items scopes.new context.new) (T.shows tasks.new)) }
    ensures settled { IfOk result (λ settled. IsSettled pauses (moved_of settled frames.new.items)) }
    ensures left { T.left_alone tasks.new ≡ T.left_alone tasks.old }
{
    let mut doing = now;
    'moves: loop {
        match read_on(alloc, tasks, scopes, context, frames, doing, pauses)? {
            Now::Resumes {
                room,
                task,
                code,
                text,
            } => {
                let task = Box::into_inner(task);
                doing = resume(
                    alloc, tasks, scopes, context, frames, room, task, code, text,
                )?;
            }
            settled => return Ok(settled),
        }
    }
}

/// Takes a step.
#[inline]
fn take_step<T: Tasks>(
    alloc: Global,
    tasks: &mut T,
    scopes: &mut Scopes,
    context: &mut Context,
    frames: &mut Vec<Frame<T::Task>>,
    now: Now<T::Task>,
) -> Next<T::Task>
    requires { NeedsStep (doing_of now) }
    ensures ok { IfOk result (λ next. TakesStep T.outside (standing_of now frames.old.items scopes.old context.old) (T.shows tasks.old)
        (standing_of next frames.new.items scopes.new context.new) (T.shows tasks.new)) }
    ensures left { T.left_alone tasks.new ≡ T.left_alone tasks.old }
{
    match now {
        Now::Calls { room, words } => {
            call(
                alloc,
                tasks,
                scopes,
                context,
                frames,
                words.as_slice(),
                room,
            )
        }
        Now::Tests { room, looping } => test(alloc, scopes, context, frames, looping, room),
        Now::Steps { room, task } => Ok(Now::Resumes {
            room,
            task,
            code: Code::Normal,
            text: Text::empty(),
        }),
        _ => unreachable!(),
    }
}

/// Whether steps were taken.
fn went(steps: u64) -> bool
    ensures { result ≡ true → 0 < steps }
{
    steps > 0
}

/// Goes on from a command, or takes a step, for so many steps at most; and moves on up to the next command with plain words, or to where the next
/// step is needed. Where no step was taken, it is needed then. Each is counted before it is taken. Of a refusal of memory only `run_commands` says so.
fn proceed<T: Tasks>(
    alloc: Global,
    tasks: &mut T,
    scopes: &mut Scopes,
    context: &mut Context,
    frames: &mut Vec<Frame<T::Task>>,
    now: Now<T::Task>,
    most: u64,
    left: &mut u64,
) -> Result<Gone<T::Task>, AllocError>
    requires doing { GoesByStep (doing_of now) }
    requires some { 0 < most }
    requires there { most ≤ left.old }
    ensures ok { IfOk result (λ gone. TakesSteps T.outside gone.steps (standing_of now frames.old.items scopes.old context.old) (T.shows tasks.old)
        (standing_of gone.now frames.new.items scopes.new context.new) (T.shows tasks.new)) }
    ensures settled { IfOk result (λ gone. IsSettled true (moved_of gone.now frames.new.items)) }
    ensures most { IfOk result (λ gone. gone.steps ≤ most) }
    ensures on { IfOk result (λ gone. pauses_left (doing_of gone.now) + 1 ≤ 2 * gone.steps + pauses_left (doing_of now)) }
    ensures counted { IfOk result (λ gone. gone.steps + left.new ≡ left.old) }
    ensures taken { left.new ≤ left.old }
    ensures within { left.old ≤ left.new + most }
    ensures left { T.left_alone tasks.new ≡ T.left_alone tasks.old }
{
    match now {
        Now::GoesOn { place, result } => {
            let Gone { now, steps, .. } = run_commands(
                alloc, tasks, scopes, context, frames, place, result, most, left,
            )?;
            let now = settle(alloc, tasks, scopes, context, frames, now, went(steps))?;
            Ok(Gone {
                now,
                steps,
                front: Front::New,
            })
        }
        needed => {
            *left -= 1;
            let next = take_step(alloc, tasks, scopes, context, frames, needed)?;
            let now = settle(alloc, tasks, scopes, context, frames, next, true)?;
            Ok(Gone {
                now,
                steps: 1,
                front: Front::New,
            })
        }
    }
}

/// How far a slice came.
#[derive(Drop)]
pub enum Ran<K> {
    /// All has ended.
    Ended(Code, Text),
    /// The slice's steps are taken, and this is to be done next.
    Paused(Now<K>),
    /// A step is needed, and none is left.
    Spent,
}

/// Runs what is to be done, for at most so many steps, of which so many are left in all.
pub fn run<T: Tasks>(
    alloc: Global,
    tasks: &mut T,
    scopes: &mut Scopes,
    context: &mut Context,
    frames: &mut Vec<Frame<T::Task>>,
    left: &mut u64,
    now: Now<T::Task>,
    steps: u64,
) -> Result<Ran<T::Task>, AllocError>
    ensures comes { IfOk result (λ ran. Comes ran
        (finish_from T.outside (standing_of now frames.old.items scopes.old context.old) (T.shows tasks.old) left.old)
        (record { shows = (T.shows tasks.new); store = scopes.new; context = context.new; steps = left.new })
        (λ next. finish_from T.outside (standing_of next frames.new.items scopes.new context.new) (T.shows tasks.new) left.new)) }
    ensures paused { IfOk result (λ ran. IfPaused ran (left.new + steps ≡ left.old)) }
    ensures most { left.old ≤ left.new + steps }
    ensures taken { left.new ≤ left.old }
    ensures left_alone { T.left_alone tasks.new ≡ T.left_alone tasks.old }
{
    let mut doing = settle(alloc, tasks, scopes, context, frames, now, true)?;
    let mut taken = 0;
    'iterations: while taken < steps && *left > 0 {
        match doing {
            Now::Ends { code, text } => return Ok(Ran::Ended(code, text)),
            needed => {
                let most = (steps - taken).min(*left);
                let gone = proceed(alloc, tasks, scopes, context, frames, needed, most, left)?;
                taken += gone.steps;
                doing = gone.now;
            }
        }
    }
    match settle(alloc, tasks, scopes, context, frames, doing, false)? {
        Now::Ends { code, text } => Ok(Ran::Ended(code, text)),
        needed => {
            if *left == 0 {
                Ok(Ran::Spent)
            } else {
                Ok(Ran::Paused(needed))
            }
        }
    }
}
