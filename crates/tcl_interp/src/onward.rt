//! From command to command, where the machine need not make its moves one by one: scripts that have ended, scripts that begin and were read before,
//! and tests of loops.
ghost use Rattle.std.specs.Prelude.{◌≡◌, ◌<◌, ◌≤◌, ◌+◌, IfOk, List, OnErr};
ghost use Rattle.tcl_vars.specs.Store.{Store};
ghost use Rattle.tcl_interp.specs.Finish.{GoesOn, Tests, Waiting};
ghost use Rattle.tcl_interp.specs.Moves.{moved, standing};
ghost use Rattle.tcl_interp.specs.Quiet.{Leads, ends_move};
ghost use Rattle.tcl_interp.specs.Rests.{doing_of, left_in, standing_of, waits_of};
ghost use Rattle.tcl_interp.specs.Steps.{TakesSteps};

use crate::items::{Over, front_over, items_turns, lists_of, stand_over};
use crate::machine::{Frame, Front, Next, Now, ScriptPlace};
use crate::moves::{begun, ended, wake};
use crate::simple::{Gone, run_one};
use crate::steps::test;
use crate::tasks::Tasks;
use crate::turns::{front_at, go_round, run_on, stand_at};
use crate::words::commands;
use std::alloc::{AllocError, Global};
use tcl_control::{Code, Context, Looping, Test};
use tcl_text::Text;
use tcl_vars::Scopes;

/// How many ends of scripts and commands follow one another at most, before moves are made one by one.
const ENDS: usize = 3;

/// Something has ended, and what waited for it goes on, if anything did.
fn woken<K: Drop>(
    alloc: Global,
    scopes: &mut Scopes,
    context: &mut Context,
    frames: &mut Vec<Frame<K>>,
    code: Code,
    text: Text,
) -> Next<K>
    ensures { IfOk result (λ now. standing_of now frames.new.items scopes.new context.new
        ≡ ends_move scopes.old context.old code text (waits_of frames.old.items)) }
{
    match wake(frames) {
        Some(frame) => ended(alloc, scopes, context, frames, frame, code, text),
        None => Ok(Now::Ends { code, text }),
    }
}

/// Whether all commands of a script have run.
fn has_run(place: &ScriptPlace) -> bool {
    place.next >= commands(&place.script).len()
}

/// Whether a script or a command has ended.
fn is_end<K>(now: &Now<K>) -> bool {
    match now {
        Now::GoesOn { place, .. } => has_run(place),
        Now::Ends { .. } => true,
        _ => false,
    }
}

/// Where a script or a command has ended, what waited for it goes on.
fn past_end<K: Drop>(
    alloc: Global,
    scopes: &mut Scopes,
    context: &mut Context,
    frames: &mut Vec<Frame<K>>,
    now: Now<K>,
) -> Next<K>
    ensures { IfOk result (λ next. Leads (standing_of now frames.old.items scopes.old context.old)
        (standing_of next frames.new.items scopes.new context.new)) }
{
    match now {
        Now::GoesOn { place, result } => {
            if place.next < commands(&place.script).len() {
                return Ok(Now::GoesOn { place, result });
            }
            woken(alloc, scopes, context, frames, Code::Normal, result)
        }
        Now::Ends { code, text } => woken(alloc, scopes, context, frames, code, text),
        now => Ok(now),
    }
}

/// Where a script begins that was read before, its first command is next.
fn first_known<K: Drop>(alloc: Global, context: &mut Context, now: Now<K>) -> Next<K>
    ensures { IfOk result (λ next. (store : Store) (waits : List (Waiting K)) → Leads (standing (moved (doing_of now) waits) store context.old)
        (standing (moved (doing_of next) waits) store context.new)) }
{
    match now {
        Now::Begins { room, script } => {
            let script = script.known(&context.commands)?;
            if room > 0 && !script.is_read() {
                return Ok(Now::Begins { room, script });
            }
            begun(alloc, &mut context.commands, script, room)
        }
        now => Ok(now),
    }
}

/// On to the next command or test, where it is near.
fn onward<K: Drop>(
    alloc: Global,
    scopes: &mut Scopes,
    context: &mut Context,
    frames: &mut Vec<Frame<K>>,
    now: Now<K>,
) -> Next<K>
    ensures { IfOk result (λ next. Leads (standing_of now frames.old.items scopes.old context.old)
        (standing_of next frames.new.items scopes.new context.new)) }
{
    let mut doing = now;
    let mut times = 0;
    'ends: while times < ENDS && is_end(&doing) {
        doing = past_end(alloc, scopes, context, frames, doing)?;
        times += 1;
    }
    first_known(alloc, context, doing)
}

/// Runs the next commands of a script, as long as they can be done on their words, for so many steps at most; none where it is known that the first can't.
fn run_known<T: Tasks>(
    alloc: Global,
    scopes: &mut Scopes,
    context: &mut Context,
    frames: &mut Vec<Frame<T::Task>>,
    from: ScriptPlace,
    previous: Text,
    front: Front,
    most: u64,
    left: &mut u64,
) -> Result<Gone<T::Task>, AllocError>
    requires there { most ≤ left.old }
    ensures context { context.new ≡ context.old }
    ensures ok { IfOk result (λ gone. (shows : T.Shows) → TakesSteps T.outside gone.steps
        (standing (moved (GoesOn from.room (left_in from) previous) (waits_of frames.old.items)) scopes.old context.old) shows
        (standing_of gone.now frames.new.items scopes.new context.new) shows) }
    ensures most { IfOk result (λ gone. gone.steps ≤ most) }
    ensures counted { IfOk result (λ gone. gone.steps + left.new ≡ left.old) }
    ensures taken { left.new ≤ left.old }
    ensures within { left.old ≤ left.new + most }
    ensures untaken { IfOk result (λ gone. gone.steps ≡ 0 → scopes.new ≡ scopes.old) }
    ensures uncounted { OnErr result (left.new ≡ left.old → scopes.new ≡ scopes.old) }
{
    match front {
        Front::New => run_on::<T>(alloc, scopes, context, frames, from, previous, most, left),
        front => Ok(Gone {
            now: Now::GoesOn {
                place: from,
                result: previous,
            },
            steps: 0,
            front,
        }),
    }
}

/// Runs the next commands of a script, as long as they can be done on their words, for so many steps at most, or calls one whose words are plain. Where no
/// step was taken, the script stands where it was.
fn run_script<T: Tasks>(
    alloc: Global,
    tasks: &mut T,
    scopes: &mut Scopes,
    context: &mut Context,
    frames: &mut Vec<Frame<T::Task>>,
    from: ScriptPlace,
    previous: Text,
    front: Front,
    most: u64,
    left: &mut u64,
) -> Result<Gone<T::Task>, AllocError>
    requires some { 0 < most }
    requires there { most ≤ left.old }
    ensures ok { IfOk result (λ gone. TakesSteps T.outside gone.steps
        (standing (moved (GoesOn from.room (left_in from) previous) (waits_of frames.old.items)) scopes.old context.old) (T.shows tasks.old)
        (standing_of gone.now frames.new.items scopes.new context.new) (T.shows tasks.new)) }
    ensures most { IfOk result (λ gone. gone.steps ≤ most) }
    ensures counted { IfOk result (λ gone. gone.steps + left.new ≡ left.old) }
    ensures taken { left.new ≤ left.old }
    ensures within { left.old ≤ left.new + most }
    ensures uncounted { OnErr result (left.new ≡ left.old → (scopes.new ≡ scopes.old) × (context.new ≡ context.old) × (T.shows tasks.new ≡ T.shows tasks.old)) }
    ensures left { T.left_alone tasks.new ≡ T.left_alone tasks.old }
{
    let gone = run_known::<T>(
        alloc, scopes, context, frames, from, previous, front, most, left,
    )?;
    if gone.steps > 0 || matches!(gone.front, Front::Unplain) {
        return Ok(gone);
    }
    match gone.now {
        Now::GoesOn { place, result } => run_one(
            alloc, tasks, scopes, context, frames, place, result, most, left,
        ),
        now => Ok(Gone {
            now,
            steps: 0,
            front,
        }),
    }
}

/// Whether a loop goes over lists.
fn is_over_lists(looping: &Looping) -> bool {
    matches!(looping.get().test, Test::Items(_))
}

/// Makes whole turns of a loop over lists, for so many steps at most, and goes on to the next command or test. Where no step was taken, the loop stands
/// where it was.
fn run_items<T: Tasks>(
    alloc: Global,
    scopes: &mut Scopes,
    context: &mut Context,
    frames: &mut Vec<Frame<T::Task>>,
    looping: Looping,
    room: u64,
    front: Front,
    most: u64,
    left: &mut u64,
) -> Result<Gone<T::Task>, AllocError>
    requires some { 0 < most }
    requires there { most ≤ left.old }
    ensures ok { IfOk result (λ gone. (shows : T.Shows) → TakesSteps T.outside gone.steps
        (standing (moved (Tests room looping) (waits_of frames.old.items)) scopes.old context.old) shows
        (standing_of gone.now frames.new.items scopes.new context.new) shows) }
    ensures most { IfOk result (λ gone. gone.steps ≤ most) }
    ensures counted { IfOk result (λ gone. gone.steps + left.new ≡ left.old) }
    ensures taken { left.new ≤ left.old }
    ensures within { left.old ≤ left.new + most }
    ensures uncounted { OnErr result (left.new ≡ left.old → (scopes.new ≡ scopes.old) × (context.new ≡ context.old)) }
{
    let over = lists_of(alloc, &mut context.commands, looping, room)?;
    match over {
        Over::Other(looping) => Ok(Gone {
            now: Now::Tests { room, looping },
            steps: 0,
            front,
        }),
        Over::Lists(groups, body) => {
            let turned = items_turns::<T>(alloc, scopes, context, groups, &body, room, most, left)?;
            let steps = turned.steps;
            let front = front_over(&turned.at);
            let stopped = stand_over(alloc, context, frames, room, body, turned.at)?;
            let now = onward(alloc, scopes, context, frames, stopped)?;
            Ok(Gone { now, steps, front })
        }
    }
}

/// Makes whole turns of a loop, or tests it, for so many steps at most, and goes on to the next command or test. Where no step was taken, the loop stands
/// where it was.
fn run_turns<T: Tasks>(
    alloc: Global,
    scopes: &mut Scopes,
    context: &mut Context,
    frames: &mut Vec<Frame<T::Task>>,
    looping: Looping,
    room: u64,
    front: Front,
    most: u64,
    left: &mut u64,
) -> Result<Gone<T::Task>, AllocError>
    requires some { 0 < most }
    requires there { most ≤ left.old }
    ensures ok { IfOk result (λ gone. (shows : T.Shows) → TakesSteps T.outside gone.steps
        (standing (moved (Tests room looping) (waits_of frames.old.items)) scopes.old context.old) shows
        (standing_of gone.now frames.new.items scopes.new context.new) shows) }
    ensures most { IfOk result (λ gone. gone.steps ≤ most) }
    ensures counted { IfOk result (λ gone. gone.steps + left.new ≡ left.old) }
    ensures taken { left.new ≤ left.old }
    ensures within { left.old ≤ left.new + most }
    ensures uncounted { OnErr result (left.new ≡ left.old → (scopes.new ≡ scopes.old) × (context.new ≡ context.old)) }
{
    if is_over_lists(&looping) {
        return run_items::<T>(
            alloc, scopes, context, frames, looping, room, front, most, left,
        );
    }
    let turned = go_round::<T>(alloc, scopes, context, looping.get(), room, most, left)?;
    let steps = turned.steps;
    if steps > 0 {
        let front = front_at(&turned.at);
        let stopped = stand_at(context, frames, looping, room, turned.at)?;
        let now = onward(alloc, scopes, context, frames, stopped)?;
        return Ok(Gone { now, steps, front });
    }
    *left -= 1;
    let tested = test(alloc, scopes, context, frames, looping, room)?;
    let now = onward(alloc, scopes, context, frames, tested)?;
    Ok(Gone {
        now,
        steps: 1,
        front: Front::New,
    })
}

/// Runs the next commands of a script, or tests a loop, for so many steps at most, and goes on to the next command or test. Where no step was taken,
/// what is to be done needs a move.
fn run_next<T: Tasks>(
    alloc: Global,
    tasks: &mut T,
    scopes: &mut Scopes,
    context: &mut Context,
    frames: &mut Vec<Frame<T::Task>>,
    now: Now<T::Task>,
    front: Front,
    most: u64,
    left: &mut u64,
) -> Result<Gone<T::Task>, AllocError>
    requires some { 0 < most }
    requires there { most ≤ left.old }
    ensures ok { IfOk result (λ gone. TakesSteps T.outside gone.steps (standing_of now frames.old.items scopes.old context.old) (T.shows tasks.old)
        (standing_of gone.now frames.new.items scopes.new context.new) (T.shows tasks.new)) }
    ensures most { IfOk result (λ gone. gone.steps ≤ most) }
    ensures counted { IfOk result (λ gone. gone.steps + left.new ≡ left.old) }
    ensures taken { left.new ≤ left.old }
    ensures within { left.old ≤ left.new + most }
    ensures uncounted { OnErr result (left.new ≡ left.old → (scopes.new ≡ scopes.old) × (context.new ≡ context.old) × (T.shows tasks.new ≡ T.shows tasks.old)) }
    ensures left { T.left_alone tasks.new ≡ T.left_alone tasks.old }
{
    match now {
        Now::GoesOn { place, result } => {
            let gone = run_script(
                alloc, tasks, scopes, context, frames, place, result, front, most, left,
            )?;
            let steps = gone.steps;
            let front = gone.front;
            if steps == 0 {
                return Ok(gone);
            }
            let now = onward(alloc, scopes, context, frames, gone.now)?;
            Ok(Gone { now, steps, front })
        }
        Now::Tests { room, looping } => run_turns::<T>(
            alloc, scopes, context, frames, looping, room, front, most, left,
        ),
        now => Ok(Gone {
            now,
            steps: 0,
            front,
        }),
    }
}

/// Runs commands and tests loops from a place of a script on, as long as no move has to be made by itself, for so many steps at most.
pub fn run_commands<T: Tasks>(
    alloc: Global,
    tasks: &mut T,
    scopes: &mut Scopes,
    context: &mut Context,
    frames: &mut Vec<Frame<T::Task>>,
    from: ScriptPlace,
    previous: Text,
    most: u64,
    left: &mut u64,
) -> Result<Gone<T::Task>, AllocError>
    requires { most ≤ left.old }
    ensures ok { IfOk result (λ gone. TakesSteps T.outside gone.steps
        (standing (moved (GoesOn from.room (left_in from) previous) (waits_of frames.old.items)) scopes.old context.old) (T.shows tasks.old)
        (standing_of gone.now frames.new.items scopes.new context.new) (T.shows tasks.new)) }
    ensures most { IfOk result (λ gone. gone.steps ≤ most) }
    ensures counted { IfOk result (λ gone. gone.steps + left.new ≡ left.old) }
    ensures taken { left.new ≤ left.old }
    ensures within { left.old ≤ left.new + most }
    ensures uncounted { OnErr result (left.new ≡ left.old → (scopes.new ≡ scopes.old) × (context.new ≡ context.old) × (T.shows tasks.new ≡ T.shows tasks.old)) }
    ensures left { T.left_alone tasks.new ≡ T.left_alone tasks.old }
{
    let mut doing = Now::GoesOn {
        place: from,
        result: previous,
    };
    let mut front = Front::New;
    let mut steps = 0;
    'commands: while steps < most {
        let more = most - steps;
        let gone = run_next(
            alloc, tasks, scopes, context, frames, doing, front, more, left,
        )?;
        let taken = gone.steps;
        steps += taken;
        doing = gone.now;
        front = gone.front;
        if taken == 0 {
            return Ok(Gone {
                now: doing,
                steps,
                front,
            });
        }
    }
    Ok(Gone {
        now: doing,
        steps,
        front,
    })
}
