//! Whole turns of loops whose bodies can be done on their words: no move is made between the test, the body and what `for` runs behind it.
ghost use Rattle.std.specs.Prelude.{◌≡◌, ◌<◌, ◌≤◌, ◌+◌, ◌-◌, [], ◌∷◌, ℕ, List, length, IfOk, IfSome, IsOk, OnErr};
ghost use Rattle.std.proofs.Props.{props};
ghost use Rattle.tcl_table.specs.Source.{script_of};
ghost use Rattle.tcl_interp.specs.Finish.{ForBody, GoesOn, Tests, Waiting};
ghost use Rattle.tcl_interp.specs.Moves.{moved, standing};
ghost use Rattle.tcl_interp.specs.Rests.{commands_in, left_in, moved_of, standing_of, waiting_of, waits_of};
ghost use Rattle.tcl_interp.specs.Steps.{TakesSteps};
ghost use Rattle.tcl_interp.specs.Turns.{KnowsTest, halted};
ghost use Rattle.tcl_interp.specs.Whole.{came_to, stopped_in};

use crate::machine::{Frame, Front, Next, Now, ScriptPlace};
use crate::moves::after_command;
use crate::openings::known_condition;
use crate::reach::{Came, Reach, Stop, Went};
use crate::simple::Gone;
use crate::stopped::note_ended;
use crate::tasks::Tasks;
use crate::whole::{run_through, run_whole};
use crate::words::wait;
use std::alloc::{AllocError, Global};
use tcl_control::{Code, Context, Loop, Looping, Test};
use tcl_table::{CommandTable, Source};
use tcl_text::Text;
use tcl_vars::Scopes;
use tcl_words::Script;

/// The scripts of a loop, which have been read.
#[derive(Drop)]
struct Scripts {
    body: Script,
    next: Option<Script>,
    ghost body_read: { IsOk (script_of body) },
    ghost next_read: { IfSome next (λ script. IsOk (script_of script)) } by { Prim.hlevel props },
}

/// Where turns of a loop have stopped.
#[derive(Drop)]
pub enum Halt {
    /// Before a test.
    Test,
    /// Behind one that didn't hold.
    Over,
    /// In the body.
    Body(Stop),
    /// In what `for` runs behind it.
    Next(Stop),
}

/// How far turns of a loop came, and the steps that they took.
#[derive(Drop)]
pub struct Turned {
    pub at: Halt,
    pub steps: u64,
}

/// A script that has been read, with its commands.
pub fn script_read(table: &mut CommandTable, source: &Source) -> Result<Option<Script>, AllocError>
    ensures table { table.new ≡ table.old }
    ensures script { IfOk result (λ found. IfSome found (λ script. (script ≡ source.now) × IsOk (script_of script))) }
{
    if !source.is_read() {
        return Ok(None);
    }
    match source.copy()?.read(table)? {
        Ok(script) => Ok(Some(script)),
        Err(_) => Ok(None),
    }
}

/// The scripts of a loop with a condition, where they have been read.
fn scripts_of(table: &mut CommandTable, looping: &Loop) -> Result<Option<Scripts>, AllocError>
    ensures table { table.new ≡ table.old }
    ensures scripts { IfOk result (λ found. IfSome found (λ scripts. (scripts.body ≡ looping.now.body) × (scripts.next ≡ looping.now.next))) }
{
    if !matches!(looping.test, Test::Holds(_)) {
        return Ok(None);
    }
    let Some(body) = script_read(table, &looping.body)? else {
        return Ok(None);
    };
    match &looping.next {
        None => Ok(Some(Scripts { body, next: None })),
        Some(source) => match script_read(table, source)? {
            Some(script) => Ok(Some(Scripts {
                body,
                next: Some(script),
            })),
            None => Ok(None),
        },
    }
}

/// What `for` runs behind the body of a loop, which has ended, for so many steps at most.
fn behind_body<T: Tasks>(
    alloc: Global,
    scopes: &mut Scopes,
    context: &Context,
    looping: &Loop,
    scripts: &Scripts,
    room: u64,
    most: u64,
    left: &mut u64,
) -> Result<Turned, AllocError>
    requires room { 0 < room }
    requires there { most ≤ left.old }
    requires next { scripts.now.next ≡ looping.now.next }
    ensures ok { IfOk result (λ turned. (text : List ℕ) (waits : List (Waiting T.Task)) (shows : T.Shows) → TakesSteps T.outside turned.steps
        (standing (moved (GoesOn (room - 1) [] text) (ForBody room looping.now ∷ waits)) scopes.old context.now) shows
        (standing (halted room looping.now waits turned.at) scopes.new context.now) shows) }
    ensures most { IfOk result (λ turned. turned.steps ≤ most) }
    ensures counted { IfOk result (λ turned. turned.steps + left.new ≡ left.old) }
    ensures taken { left.new ≤ left.old }
    ensures within { left.old ≤ left.new + most }
{
    let Some(next) = &scripts.next else {
        return Ok(Turned {
            at: Halt::Test,
            steps: 0,
        });
    };
    let inner = room - 1;
    let reached = run_through::<T>(alloc, scopes, context, next, inner, most, left)?;
    let steps = reached.steps;
    match reached.reach {
        Reach::Whole(_) => Ok(Turned {
            at: Halt::Test,
            steps,
        }),
        Reach::Stopped(stop) => Ok(Turned {
            at: Halt::Next(stop),
            steps,
        }),
    }
}

/// The body of a loop, whose test held, and what `for` runs behind it, for so many steps at most.
fn through_body<T: Tasks>(
    alloc: Global,
    scopes: &mut Scopes,
    context: &Context,
    looping: &Loop,
    scripts: &Scripts,
    room: u64,
    most: u64,
    left: &mut u64,
) -> Result<Turned, AllocError>
    requires room { 0 < room }
    requires there { most ≤ left.old }
    requires next { scripts.now.next ≡ looping.now.next }
    ensures ok { IfOk result (λ turned. (waits : List (Waiting T.Task)) (shows : T.Shows) → TakesSteps T.outside turned.steps
        (standing (moved (GoesOn (room - 1) (commands_in scripts.now.body) []) (ForBody room looping.now ∷ waits)) scopes.old context.now) shows
        (standing (halted room looping.now waits turned.at) scopes.new context.now) shows) }
    ensures most { IfOk result (λ turned. turned.steps ≤ most) }
    ensures counted { IfOk result (λ turned. turned.steps + left.new ≡ left.old) }
    ensures taken { left.new ≤ left.old }
    ensures within { left.old ≤ left.new + most }
{
    let inner = room - 1;
    let body = &scripts.body;
    let reached = run_through::<T>(alloc, scopes, context, body, inner, most, left)?;
    let steps = reached.steps;
    match reached.reach {
        Reach::Stopped(stop) => Ok(Turned {
            at: Halt::Body(stop),
            steps,
        }),
        Reach::Whole(_) => {
            let more = most - steps;
            let behind = behind_body::<T>(
                alloc, scopes, context, looping, scripts, room, more, left,
            )?;
            Ok(Turned {
                at: behind.at,
                steps: steps + behind.steps,
            })
        }
    }
}

/// Whether a loop has another turn, where straight code says so. Variables are those of a level.
fn known_test(
    alloc: Global,
    scopes: &Scopes,
    level: usize,
    looping: &Loop,
) -> Result<Option<bool>, AllocError>
    requires { level < length scopes.now }
    ensures { IfOk result (λ known. IfSome known (KnowsTest scopes.now level looping.now.test)) }
{
    match &looping.test {
        Test::Holds(expression) => known_condition(alloc, scopes, level, expression),
        Test::Items(_) => Ok(None),
    }
}

/// A turn of a loop whose condition is known at once, for so many steps at most. Nothing is done where that isn't known.
fn turn<T: Tasks>(
    alloc: Global,
    scopes: &mut Scopes,
    context: &Context,
    looping: &Loop,
    scripts: &Scripts,
    room: u64,
    most: u64,
    left: &mut u64,
) -> Result<Turned, AllocError>
    requires room { 0 < room }
    requires some { 0 < most }
    requires there { most ≤ left.old }
    requires body { scripts.now.body ≡ looping.now.body }
    requires next { scripts.now.next ≡ looping.now.next }
    ensures ok { IfOk result (λ turned. (waits : List (Waiting T.Task)) (shows : T.Shows) → TakesSteps T.outside turned.steps
        (standing (moved (Tests room looping.now) waits) scopes.old context.now) shows
        (standing (halted room looping.now waits turned.at) scopes.new context.now) shows) }
    ensures most { IfOk result (λ turned. turned.steps ≤ most) }
    ensures counted { IfOk result (λ turned. turned.steps + left.new ≡ left.old) }
    ensures taken { left.new ≤ left.old }
    ensures within { left.old ≤ left.new + most }
    ensures untaken { IfOk result (λ turned. turned.steps ≡ 0 → scopes.new ≡ scopes.old) }
    ensures uncounted { OnErr result (left.new ≡ left.old → scopes.new ≡ scopes.old) }
{
    let level = context.levels.here(scopes);
    let known = known_test(alloc, scopes, level, looping)?;
    let Some(holds) = known else {
        return Ok(Turned {
            at: Halt::Test,
            steps: 0,
        });
    };
    *left -= 1;
    if !holds {
        return Ok(Turned {
            at: Halt::Over,
            steps: 1,
        });
    }
    let fewer = most - 1;
    let turned = through_body::<T>(alloc, scopes, context, looping, scripts, room, fewer, left)?;
    Ok(Turned {
        at: turned.at,
        steps: turned.steps + 1,
    })
}

/// Turns of a loop, as long as they are whole, for so many steps at most.
fn turns<T: Tasks>(
    alloc: Global,
    scopes: &mut Scopes,
    context: &Context,
    looping: &Loop,
    scripts: &Scripts,
    room: u64,
    most: u64,
    left: &mut u64,
) -> Result<Turned, AllocError>
    requires room { 0 < room }
    requires there { most ≤ left.old }
    requires body { scripts.now.body ≡ looping.now.body }
    requires next { scripts.now.next ≡ looping.now.next }
    ensures ok { IfOk result (λ turned. (waits : List (Waiting T.Task)) (shows : T.Shows) → TakesSteps T.outside turned.steps
        (standing (moved (Tests room looping.now) waits) scopes.old context.now) shows
        (standing (halted room looping.now waits turned.at) scopes.new context.now) shows) }
    ensures most { IfOk result (λ turned. turned.steps ≤ most) }
    ensures counted { IfOk result (λ turned. turned.steps + left.new ≡ left.old) }
    ensures taken { left.new ≤ left.old }
    ensures within { left.old ≤ left.new + most }
    ensures untaken { IfOk result (λ turned. turned.steps ≡ 0 → scopes.new ≡ scopes.old) }
    ensures uncounted { OnErr result (left.new ≡ left.old → scopes.new ≡ scopes.old) }
{
    let mut steps = 0;
    'turns: while steps < most {
        let more = most - steps;
        let turned = turn::<T>(alloc, scopes, context, looping, scripts, room, more, left)?;
        let taken = turned.steps;
        steps += taken;
        match turned.at {
            Halt::Test if taken > 0 => {}
            at => return Ok(Turned { at, steps }),
        }
    }
    Ok(Turned {
        at: Halt::Test,
        steps,
    })
}

/// Makes whole turns of a loop, for so many steps at most. Nothing is done where none is taken.
pub fn go_round<T: Tasks>(
    alloc: Global,
    scopes: &mut Scopes,
    context: &mut Context,
    looping: &Loop,
    room: u64,
    most: u64,
    left: &mut u64,
) -> Result<Turned, AllocError>
    requires there { most ≤ left.old }
    ensures context { context.new ≡ context.old }
    ensures ok { IfOk result (λ turned. (waits : List (Waiting T.Task)) (shows : T.Shows) → TakesSteps T.outside turned.steps
        (standing (moved (Tests room looping.now) waits) scopes.old context.old) shows
        (standing (halted room looping.now waits turned.at) scopes.new context.new) shows) }
    ensures most { IfOk result (λ turned. turned.steps ≤ most) }
    ensures counted { IfOk result (λ turned. turned.steps + left.new ≡ left.old) }
    ensures taken { left.new ≤ left.old }
    ensures within { left.old ≤ left.new + most }
    ensures untaken { IfOk result (λ turned. turned.steps ≡ 0 → scopes.new ≡ scopes.old) }
    ensures uncounted { OnErr result (left.new ≡ left.old → scopes.new ≡ scopes.old) }
{
    if room == 0 {
        return Ok(Turned {
            at: Halt::Test,
            steps: 0,
        });
    }
    let Some(scripts) = scripts_of(&mut context.commands, looping)? else {
        return Ok(Turned {
            at: Halt::Test,
            steps: 0,
        });
    };
    turns::<T>(alloc, scopes, context, looping, &scripts, room, most, left)
}

/// A script has stopped: the scripts that wait for it do so in frames from then on.
fn stand<K: Drop>(context: &mut Context, frames: &mut Vec<Frame<K>>, stop: Stop) -> Next<K>
    ensures context { context.new ≡ context.old }
    ensures now { IfOk result (λ now. moved_of now frames.new.items ≡ stopped_in stop (waits_of frames.old.items)) }
{
    let Stop {
        place,
        mut outer,
        code,
        text,
        front: _,
    } = stop;
    'places: while let Some(waiting) = outer.pop() {
        wait(frames, Frame::ForCommand(waiting))?;
    }
    note_ended(&mut context.commands, frames.as_slice(), &place, code)?;
    Ok(after_command(place, code, text))
}

/// The same, where this waits for the last of them.
pub fn stand_in<K: Drop>(
    context: &mut Context,
    frames: &mut Vec<Frame<K>>,
    frame: Frame<K>,
    stop: Stop,
) -> Next<K>
    ensures context { context.new ≡ context.old }
    ensures now { IfOk result (λ now. moved_of now frames.new.items ≡ stopped_in stop (waiting_of frame ∷ waits_of frames.old.items)) }
{
    wait(frames, frame)?;
    stand(context, frames, stop)
}

/// What is to be done where turns of a loop have stopped.
pub fn stand_at<K: Drop>(
    context: &mut Context,
    frames: &mut Vec<Frame<K>>,
    looping: Looping,
    room: u64,
    at: Halt,
) -> Next<K>
    ensures context { context.new ≡ context.old }
    ensures now { IfOk result (λ now. moved_of now frames.new.items ≡ halted room looping (waits_of frames.old.items) at) }
{
    match at {
        Halt::Test => Ok(Now::Tests { room, looping }),
        Halt::Over => Ok(Now::Ends {
            code: Code::Normal,
            text: Text::empty(),
        }),
        Halt::Body(stop) => stand_in(context, frames, Frame::ForBody { room, looping }, stop),
        Halt::Next(stop) => stand_in(context, frames, Frame::ForNext { room, looping }, stop),
    }
}

/// What is known of the next command, where turns of a loop have stopped.
pub fn front_at(at: &Halt) -> Front {
    match at {
        Halt::Test | Halt::Over => Front::New,
        Halt::Body(stop) | Halt::Next(stop) => stop.front,
    }
}

/// What is to be done where the commands of a script have come so far.
fn come_on<K: Drop>(
    context: &mut Context,
    frames: &mut Vec<Frame<K>>,
    script: Script,
    room: u64,
    came: Came,
) -> Next<K>
    ensures context { context.new ≡ context.old }
    ensures now { IfOk result (λ now. moved_of now frames.new.items ≡ came_to room (commands_in script) came (waits_of frames.old.items)) }
{
    match came {
        Came::At {
            next,
            code,
            text,
            front: _,
        } => {
            let place = ScriptPlace { script, next, room };
            note_ended(&mut context.commands, frames.as_slice(), &place, code)?;
            Ok(after_command(place, code, text))
        }
        Came::Within(stop) => stand(context, frames, Box::into_inner(stop)),
    }
}

/// What is known of the next command, where the commands of a script have come so far.
fn front_of(came: &Came) -> Front {
    match came {
        Came::At { front, .. } => *front,
        Came::Within(stop) => stop.front,
    }
}

/// Runs the next commands of a script, as long as they can be done on their words, for so many steps at most.
pub fn run_on<T: Tasks>(
    alloc: Global,
    scopes: &mut Scopes,
    context: &mut Context,
    frames: &mut Vec<Frame<T::Task>>,
    from: ScriptPlace,
    previous: Text,
    most: u64,
    left: &mut u64,
) -> Result<Gone<T::Task>, AllocError>
    requires there { most ≤ left.old }
    ensures context { context.new ≡ context.old }
    ensures ok { IfOk result (λ gone. (shows : T.Shows) → TakesSteps T.outside gone.steps
        (standing (moved (GoesOn from.room (left_in from) previous) (waits_of frames.old.items)) scopes.old context.old) shows
        (standing_of gone.now frames.new.items scopes.new context.new) shows) }
    ensures most { IfOk result (λ gone. gone.steps ≤ most) }
    ensures counted { IfOk result (λ gone. gone.steps + left.new ≡ left.old) }
    ensures taken { left.new ≤ left.old }
    ensures within { left.old ≤ left.new + most }
    ensures untaken { IfOk result (λ gone. gone.steps ≡ 0 → scopes.new ≡ scopes.old) }
    ensures uncounted { OnErr result (left.new ≡ left.old → scopes.new ≡ scopes.old) }
{
    let ScriptPlace { script, next, room } = from;
    let Went { came, steps } = run_whole::<T>(
        alloc, scopes, context, &script, next, previous, room, most, left,
    )?;
    let front = front_of(&came);
    let now = come_on(context, frames, script, room, came)?;
    Ok(Gone { now, steps, front })
}
