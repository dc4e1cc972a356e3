//! Whole turns of loops over lists, whose bodies can be done on their words: no move is made between the test, which gives names their items, and the body.
ghost use Rattle.std.specs.Prelude.{◌≡◌, ◌<◌, ◌≤◌, ◌+◌, ◌-◌, [], ◌∷◌, ℕ, List, IfOk, IsOk, OnErr};
ghost use Rattle.tcl_table.specs.Source.{script_of};
ghost use Rattle.tcl_interp.specs.Finish.{Tests, Waiting};
ghost use Rattle.tcl_interp.specs.Items.{IsReadOver, halted_over, looped, looping_over};
ghost use Rattle.tcl_interp.specs.Moves.{moved, standing};
ghost use Rattle.tcl_interp.specs.Rests.{moved_of, waits_of};
ghost use Rattle.tcl_interp.specs.Steps.{TakesSteps};

use crate::machine::{Frame, Front, Next, Now};
use crate::reach::{Reach, Stop};
use crate::tasks::Tasks;
use crate::turns::{script_read, stand_in};
use crate::whole::run_through;
use std::alloc::{AllocError, Global};
use tcl_commands::Groups;
use tcl_control::{Code, Context, Loop, Looping, Test, Verdict, items_tested};
use tcl_table::{CommandTable, Source};
use tcl_text::Text;
use tcl_vars::Scopes;
use tcl_words::Script;

/// What a loop goes over.
#[derive(Drop)]
pub enum Over {
    /// What is left of lists, with this body, which was read. Nothing is run behind it.
    Lists(Groups, Script),
    /// Something else, or its body wasn't read.
    Other(Looping),
}

/// Where turns of a loop over lists have stopped.
#[derive(Drop)]
pub enum ItemsHalt {
    /// Before a test, with this left of the lists.
    Test(Groups),
    /// Behind one that found no items.
    Over,
    /// Behind one whose items couldn't be given to their names, with this error.
    Failed(Text),
    /// In the body, behind which this is left.
    Body(Groups, Stop),
}

/// How far turns of a loop over lists came, and the steps that they took.
#[derive(Drop)]
pub struct ItemsTurned {
    pub at: ItemsHalt,
    pub steps: u64,
}

/// What a loop goes over, with so much room for scripts in it.
pub fn lists_of(
    alloc: Global,
    table: &mut CommandTable,
    looping: Looping,
    room: u64,
) -> Result<Over, AllocError>
    ensures table { table.new ≡ table.old }
    ensures same { IfOk result (λ over. looped over ≡ looping) }
    ensures read { IfOk result (IsReadOver room) }
{
    if room == 0 {
        return Ok(Over::Other(looping));
    }
    let Some(script) = script_read(table, &looping.get().body)? else {
        return Ok(Over::Other(looping));
    };
    let Loop { test, body, next } = looping.into_inner();
    match (test, next) {
        (Test::Items(groups), None) => Ok(Over::Lists(groups, script)),
        (test, next) => {
            let looping = Looping::new(alloc, Loop { test, body, next })?;
            Ok(Over::Other(looping))
        }
    }
}

/// A turn of a loop over what is left of lists, for so many steps at most.
fn items_turn<T: Tasks>(
    alloc: Global,
    scopes: &mut Scopes,
    context: &Context,
    groups: Groups,
    body: &Script,
    room: u64,
    most: u64,
    left: &mut u64,
) -> Result<ItemsTurned, AllocError>
    requires room { 0 < room }
    requires some { 0 < most }
    requires there { most ≤ left.old }
    requires read { IsOk (script_of body.now) }
    ensures ok { IfOk result (λ turned. (waits : List (Waiting T.Task)) (shows : T.Shows) → TakesSteps T.outside turned.steps
        (standing (moved (Tests room (looping_over body.now groups)) waits) scopes.old context.now) shows
        (standing (halted_over room body.now waits turned.at) scopes.new context.now) shows) }
    ensures some { IfOk result (λ turned. 0 < turned.steps) }
    ensures most { IfOk result (λ turned. turned.steps ≤ most) }
    ensures counted { IfOk result (λ turned. turned.steps + left.new ≡ left.old) }
    ensures taken { left.new < left.old }
    ensures within { left.old ≤ left.new + most }
{
    let level = context.levels.here(scopes);
    *left -= 1;
    let verdict = items_tested(alloc, scopes, level, groups)?;
    match verdict {
        Verdict::NoMore => Ok(ItemsTurned {
            at: ItemsHalt::Over,
            steps: 1,
        }),
        Verdict::Fails(text) => Ok(ItemsTurned {
            at: ItemsHalt::Failed(text),
            steps: 1,
        }),
        Verdict::More(groups) => {
            let inner = room - 1;
            let few = most - 1;
            let reached = run_through::<T>(alloc, scopes, context, body, inner, few, left)?;
            let steps = reached.steps + 1;
            match reached.reach {
                Reach::Whole(_) => Ok(ItemsTurned {
                    at: ItemsHalt::Test(groups),
                    steps,
                }),
                Reach::Stopped(stop) => Ok(ItemsTurned {
                    at: ItemsHalt::Body(groups, stop),
                    steps,
                }),
            }
        }
    }
}

/// Turns of a loop over what is left of lists, as long as they are whole, for so many steps at most.
pub fn items_turns<T: Tasks>(
    alloc: Global,
    scopes: &mut Scopes,
    context: &Context,
    groups: Groups,
    body: &Script,
    room: u64,
    most: u64,
    left: &mut u64,
) -> Result<ItemsTurned, AllocError>
    requires room { 0 < room }
    requires some { 0 < most }
    requires there { most ≤ left.old }
    requires read { IsOk (script_of body.now) }
    ensures ok { IfOk result (λ turned. (waits : List (Waiting T.Task)) (shows : T.Shows) → TakesSteps T.outside turned.steps
        (standing (moved (Tests room (looping_over body.now groups)) waits) scopes.old context.now) shows
        (standing (halted_over room body.now waits turned.at) scopes.new context.now) shows) }
    ensures some { IfOk result (λ turned. 0 < turned.steps) }
    ensures most { IfOk result (λ turned. turned.steps ≤ most) }
    ensures counted { IfOk result (λ turned. turned.steps + left.new ≡ left.old) }
    ensures taken { left.new < left.old }
    ensures within { left.old ≤ left.new + most }
{
    let mut items = groups;
    let mut steps = 0;
    'turns: while steps < most {
        let more = most - steps;
        let turned = items_turn::<T>(alloc, scopes, context, items, body, room, more, left)?;
        steps += turned.steps;
        match turned.at {
            ItemsHalt::Test(rest) => items = rest,
            at => return Ok(ItemsTurned { at, steps }),
        }
    }
    let at = ItemsHalt::Test(items);
    Ok(ItemsTurned { at, steps })
}

/// The loop over what is left of lists.
fn looping_over(alloc: Global, groups: Groups, body: Script) -> Result<Looping, AllocError>
    ensures { IfOk result (λ looping. looping ≡ looping_over body groups) }
{
    let looping = Loop {
        test: Test::Items(groups),
        body: Source::of_script(body),
        next: None,
    };
    Looping::new(alloc, looping)
}

/// What is to be done where turns of a loop over lists have stopped.
pub fn stand_over<K: Drop>(
    alloc: Global,
    context: &mut Context,
    frames: &mut Vec<Frame<K>>,
    room: u64,
    body: Script,
    at: ItemsHalt,
) -> Next<K>
    ensures context { context.new ≡ context.old }
    ensures now { IfOk result (λ now. moved_of now frames.new.items ≡ halted_over room body (waits_of frames.old.items) at) }
{
    match at {
        ItemsHalt::Test(groups) => {
            let looping = looping_over(alloc, groups, body)?;
            Ok(Now::Tests { room, looping })
        }
        ItemsHalt::Over => Ok(Now::Ends {
            code: Code::Normal,
            text: Text::empty(),
        }),
        ItemsHalt::Failed(text) => Ok(Now::Ends {
            code: Code::Error,
            text,
        }),
        ItemsHalt::Body(groups, stop) => {
            let looping = looping_over(alloc, groups, body)?;
            stand_in(context, frames, Frame::ForBody { room, looping }, stop)
        }
    }
}

/// What is known of the next command, where turns of a loop over lists have stopped.
pub fn front_over(at: &ItemsHalt) -> Front {
    match at {
        ItemsHalt::Test(_) | ItemsHalt::Over | ItemsHalt::Failed(_) => Front::New,
        ItemsHalt::Body(_, stop) => stop.front,
    }
}
