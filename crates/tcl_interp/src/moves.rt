ghost use Rattle.std.specs.Prelude.{◌≡◌, true, [], List, drop, IfOk, IsOk, MatchResult, MatchOption, ◌∷◌, Err};
ghost use Rattle.tcl_control.specs.Commands.{caught_ending};
ghost use Rattle.tcl_table.specs.Levels.{here, popped};
ghost use Rattle.tcl_table.specs.Source.{script_of};
ghost use Rattle.tcl_interp.specs.Plans.{with_levels_behind, callers, procedure_code, procedure_text};
ghost use Rattle.tcl_interp.specs.Scripts.{out_of_global};
ghost use Rattle.tcl_interp.specs.Moves.{after_command, after_part, after_index, after_value_move, after_test_move, after_choice_move, begin_move, parsed_move, end_move, next_move, after_body_move, after_next_move, after_start_move, ending_move, moved, standing, global_end};
ghost use Rattle.tcl_interp.specs.Finish.{Waiting, Begins, Ends, ForCommand};
ghost use Rattle.tcl_interp.specs.Rests.{indexing_of, waiting_of, wording_of, moved_of, waits_of, doing_of, left_in, standing_of};
ghost use Rattle.tcl_interp.specs.Advances.{MoveGives};
ghost use Rattle.tcl_interp.specs.Quiet.{Leads, Stops};

use crate::expressions::{branch_by, evaluate, iteration};
use crate::machine::{
    Answered, Asking, Choosing, Frame, Indexing, Next, Now, ScriptPlace, Wording,
};
use crate::stopped::{note_ended, note_part};
use crate::words::{begin_for, go_on, is_plain, longer_index, longer_word, put_index};
use std::alloc::{AllocError, Global};
use tcl_control::{Code, Context, End, Looping, ReturnCode, STRAY_BREAK, STRAY_CONTINUE, caught};
use tcl_table::{CommandTable, Source};
use tcl_text::Text;
use tcl_vars::Scopes;
use tcl_words::Script;

/// What a return becomes where it leaves a script at global level.
pub fn out_of_global(code: Code) -> Code
    ensures { result ≡ out_of_global code }
{
    match code {
        Code::Normal => Code::Normal,
        Code::Error => Code::Error,
        Code::Return(onward) => match onward {
            ReturnCode::Normal => Code::Normal,
            ReturnCode::Error => Code::Error,
            ReturnCode::Return => Code::Normal,
            ReturnCode::Break => Code::Break,
            ReturnCode::Continue => Code::Continue,
        },
        Code::Break => Code::Break,
        Code::Continue => Code::Continue,
    }
}

/// A script that has been read begins.
#[tactic(auto, using(tcl_table::proofs::SourceLemmas::script_walk))]
fn first_command<K>(alloc: Global, script: Script, room: u64) -> Next<K>
    ensures { IfOk result (λ now. (waits : List (Waiting K)) → moved (doing_of now) waits ≡ parsed_move room waits (script_of script)) }
{
    let _commands = script.commands();
    Ok(Now::GoesOn {
        place: ScriptPlace {
            script,
            next: 0,
            room,
        },
        result: Text::empty(),
    })
}

/// A script begins: it is read whole first, unless there is no room for it.
pub fn begun<K: Drop>(alloc: Global, table: &mut CommandTable, script: Source, room: u64) -> Next<K>
    ensures table { table.new ≡ table.old }
    ensures now { IfOk result (λ now. (waits : List (Waiting K)) → moved (doing_of now) waits ≡ begin_move room script waits) }
{
    if room == 0 {
        return Ok(Now::Ends {
            code: Code::Error,
            text: Text::of_short(alloc, "too many nested evaluations (infinite loop?)")?,
        });
    }
    match script.read(table)? {
        Ok(script) => first_command(alloc, script, room - 1),
        Err(fault) => Ok(Now::Ends {
            code: Code::Error,
            text: fault.told(alloc)?,
        }),
    }
}

/// On to the next test of a loop.
fn next_iteration<K: Drop>(frames: &mut Vec<Frame<K>>, room: u64, looping: Looping) -> Next<K>
    ensures { IfOk result (λ now. moved_of now frames.new.items ≡ next_move room looping (waits_of frames.old.items) looping.next) }
{
    match &looping.get().next {
        None => Ok(Now::Tests { room, looping }),
        Some(next) => {
            let script = next.copy()?;
            begin_for(frames, Frame::ForNext { room, looping }, room, script)
        }
    }
}

/// The body of a loop has ended.
fn after_body<K: Drop>(
    alloc: Global,
    frames: &mut Vec<Frame<K>>,
    room: u64,
    looping: Looping,
    code: Code,
    text: Text,
) -> Next<K>
    ensures { IfOk result (λ now. moved_of now frames.new.items ≡ after_body_move room looping (waits_of frames.old.items) code text) }
{
    match code {
        Code::Normal => next_iteration(frames, room, looping),
        Code::Continue => next_iteration(frames, room, looping),
        Code::Break => Ok(Now::Ends {
            code: Code::Normal,
            text: Text::empty(),
        }),
        Code::Error => Ok(Now::Ends { code, text }),
        Code::Return(_) => Ok(Now::Ends { code, text }),
    }
}

/// What `for` runs behind the body has ended.
fn after_next<K: Drop>(
    alloc: Global,
    room: u64,
    looping: Looping,
    code: Code,
    text: Text,
) -> Next<K>
    ensures { IfOk result (λ now. (waits : List (Waiting K)) → moved (doing_of now) waits ≡ after_next_move room looping waits code text) }
{
    match code {
        Code::Normal => Ok(Now::Tests { room, looping }),
        Code::Break => Ok(Now::Ends {
            code: Code::Normal,
            text: Text::empty(),
        }),
        Code::Continue => Ok(Now::Ends { code, text }),
        Code::Error => Ok(Now::Ends { code, text }),
        Code::Return(_) => Ok(Now::Ends { code, text }),
    }
}

/// What `for` runs before the first test has ended.
fn after_start<K: Drop>(room: u64, looping: Looping, code: Code, text: Text) -> Now<K>
    ensures { (waits : List (Waiting K)) → moved (doing_of result) waits ≡ after_start_move room looping waits code text }
{
    match code {
        Code::Normal => Now::Tests { room, looping },
        code => Now::Ends { code, text },
    }
}

/// The script of `catch` has ended.
fn after_catch<K: Drop>(
    alloc: Global,
    scopes: &mut Scopes,
    context: &Context,
    frames: &mut Vec<Frame<K>>,
    name: Option<Text>,
    code: Code,
    text: Text,
) -> Next<K>
    ensures { IfOk result (λ now. standing_of now frames.new.items scopes.new context.now
        ≡ ending_move (caught_ending (here context.now.levels scopes.old) name code text scopes.old) context.now (waits_of frames.old.items)) }
{
    let level = context.levels.here(scopes);
    let End { code, text } = caught(alloc, scopes, level, name, code, text)?;
    Ok(Now::Ends { code, text })
}

/// How a procedure ends, by how its body does.
fn procedure_code(code: Code) -> Code
    ensures { result ≡ procedure_code code }
{
    match code {
        Code::Normal => Code::Normal,
        Code::Error => Code::Error,
        Code::Return(code) => match code {
            ReturnCode::Normal => Code::Normal,
            ReturnCode::Error => Code::Error,
            ReturnCode::Return => Code::Return(ReturnCode::Normal),
            ReturnCode::Break => Code::Break,
            ReturnCode::Continue => Code::Continue,
        },
        Code::Break => Code::Error,
        Code::Continue => Code::Error,
    }
}

fn procedure_text(alloc: Global, code: Code, text: Text) -> Result<Text, AllocError>
    ensures { IfOk result (λ told. told ≡ procedure_text code text) }
{
    match code {
        Code::Break => Text::of_short(alloc, STRAY_BREAK),
        Code::Continue => Text::of_short(alloc, STRAY_CONTINUE),
        Code::Normal => Ok(text),
        Code::Error => Ok(text),
        Code::Return(_) => Ok(text),
    }
}

/// The body of a procedure has ended, and its frame goes.
fn after_procedure<K: Drop>(
    alloc: Global,
    scopes: &mut Scopes,
    context: &mut Context,
    code: Code,
    text: Text,
) -> Next<K>
    ensures now { IfOk result (λ now. (waits : List (Waiting K)) → standing (moved (doing_of now) waits) scopes.new context.new
        ≡ standing (moved (Ends (procedure_code code) (procedure_text code text)) waits) (popped scopes.old) (callers context.old)) }
{
    if scopes.levels() > 1 {
        scopes.pop_frame();
    }
    context.levels.pop();
    Ok(Now::Ends {
        code: procedure_code(code),
        text: procedure_text(alloc, code, text)?,
    })
}

/// A script at global level that the interpreter began has ended: there is no loop around it.
fn global_end<K: Drop>(alloc: Global, code: Code, text: Text) -> Next<K>
    ensures { IfOk result (λ now. doing_of now ≡ global_end (out_of_global code) text) }
{
    match out_of_global(code) {
        Code::Break => Ok(Now::Ends {
            code: Code::Error,
            text: Text::of_short(alloc, STRAY_BREAK)?,
        }),
        Code::Continue => Ok(Now::Ends {
            code: Code::Error,
            text: Text::of_short(alloc, STRAY_CONTINUE)?,
        }),
        code => Ok(Now::Ends { code, text }),
    }
}

/// A command of a script has ended.
pub fn after_command<K: Drop>(place: ScriptPlace, code: Code, text: Text) -> Now<K>
    ensures { (waits : List (Waiting K)) → moved (doing_of result) waits ≡ after_command place.room (left_in place) waits code text }
{
    match code {
        Code::Normal => Now::GoesOn {
            place,
            result: text,
        },
        code => Now::Ends { code, text },
    }
}

/// A part of the words of a command has ended.
fn after_part<K: Drop>(
    alloc: Global,
    scopes: &Scopes,
    context: &mut Context,
    frames: &mut Vec<Frame<K>>,
    wording: Box<Wording>,
    code: Code,
    text: Text,
) -> Next<K>
    ensures context { context.new ≡ context.old }
    ensures now { IfOk result (λ now. moved_of now frames.new.items
        ≡ after_part (here context.old.levels scopes.now) scopes.now (wording_of wording.value) (waits_of frames.old.items) code text) }
{
    match code {
        Code::Normal => {
            let level = context.levels.here(scopes);
            let table = &mut context.commands;
            longer_word(alloc, scopes, level, table, frames, wording, text)
        }
        code => {
            let part = Box::into_inner(wording);
            note_part(&mut context.commands, frames.as_slice(), &part, code)?;
            Ok(Now::Ends { code, text })
        }
    }
}

/// A part of an index has ended.
fn after_index<K: Drop>(alloc: Global, indexing: Box<Indexing>, code: Code, text: Text) -> Next<K>
    ensures { IfOk result (λ now. (waits : List (Waiting K)) → moved (doing_of now) waits ≡ after_index (indexing_of indexing.value) waits code text) }
{
    match code {
        Code::Normal => longer_index(alloc, indexing, text),
        code => Ok(Now::Ends { code, text }),
    }
}

/// A script that an evaluation asked for has ended.
fn after_value<K: Drop>(
    alloc: Global,
    room: u64,
    asking: Box<Asking>,
    code: Code,
    text: Text,
) -> Next<K>
    ensures { IfOk result (λ now. (waits : List (Waiting K)) → moved (doing_of now) waits ≡ after_value_move room asking.value.eval waits code text) }
{
    match code {
        Code::Normal => {
            let Asking { eval } = Box::into_inner(asking);
            let given = Some(text);
            let answered = Box::new(alloc, Answered { eval, given })?;
            Ok(Now::Evaluates { room, answered })
        }
        code => Ok(Now::Ends { code, text }),
    }
}

/// The condition of a loop has ended.
fn after_test<K: Drop>(
    alloc: Global,
    frames: &mut Vec<Frame<K>>,
    room: u64,
    looping: Looping,
    code: Code,
    text: Text,
) -> Next<K>
    ensures { IfOk result (λ now. moved_of now frames.new.items ≡ after_test_move room looping (waits_of frames.old.items) code text) }
{
    match code {
        Code::Normal => iteration(alloc, frames, room, looping, &text),
        code => Ok(Now::Ends { code, text }),
    }
}

/// A condition of `if` has ended.
fn after_choice<K: Drop>(
    alloc: Global,
    table: &mut CommandTable,
    frames: &mut Vec<Frame<K>>,
    room: u64,
    choosing: Box<Choosing>,
    code: Code,
    text: Text,
) -> Next<K>
    ensures table { table.new ≡ table.old }
    ensures now { IfOk result (λ now. moved_of now frames.new.items
        ≡ after_choice_move room (drop choosing.value.place choosing.value.choices.branches) choosing.value.choices.otherwise (waits_of frames.old.items)
        code text) }
{
    match code {
        Code::Normal => branch_by(alloc, table, frames, room, choosing, &text),
        code => Ok(Now::Ends { code, text }),
    }
}

/// Something has ended, and what waited for it goes on.
pub fn ended<K: Drop>(
    alloc: Global,
    scopes: &mut Scopes,
    context: &mut Context,
    frames: &mut Vec<Frame<K>>,
    frame: Frame<K>,
    code: Code,
    text: Text,
) -> Next<K>
    ensures { IfOk result (λ now. standing_of now frames.new.items scopes.new context.new
        ≡ end_move scopes.old context.old code text (waiting_of frame) (waits_of frames.old.items)) }
{
    match frame {
        Frame::ForCommand(place) => {
            note_ended(&mut context.commands, frames.as_slice(), &place, code)?;
            Ok(after_command(place, code, text))
        }
        Frame::ForPart(wording) => after_part(alloc, scopes, context, frames, wording, code, text),
        Frame::ForIndex(indexing) => after_index(alloc, indexing, code, text),
        Frame::ForValue { room, asking } => after_value(alloc, room, asking, code, text),
        Frame::ForTest { room, looping } => after_test(alloc, frames, room, looping, code, text),
        Frame::ForChoice { room, choosing } => {
            let table = &mut context.commands;
            after_choice(alloc, table, frames, room, choosing, code, text)
        }
        Frame::ForBody { room, looping } => after_body(alloc, frames, room, looping, code, text),
        Frame::ForNext { room, looping } => after_next(alloc, room, looping, code, text),
        Frame::ForStart { room, looping } => Ok(after_start(room, looping, code, text)),
        Frame::ForCatch(name) => {
            context.commands.forget_trail();
            after_catch(alloc, scopes, context, frames, name, code, text)
        }
        Frame::ForLevels(levels) => {
            context.levels.join(levels)?;
            Ok(Now::Ends { code, text })
        }
        Frame::ForProcedure => after_procedure(alloc, scopes, context, code, text),
        Frame::ForScript { room, task } => Ok(Now::Resumes {
            room,
            task,
            code: out_of_global(code),
            text,
        }),
        Frame::ForAll => global_end(alloc, code, text),
    }
}

/// Takes out what waits innermost.
#[tactic(auto, unfolding(crate::specs::Rests::waits_of))]
pub fn wake<K: Drop>(frames: &mut Vec<Frame<K>>) -> Option<Frame<K>>
    ensures { MatchOption result
        ((waits_of frames.old.items ≡ []) × (waits_of frames.new.items ≡ []))
        (λ frame. waits_of frames.old.items ≡ waiting_of frame ∷ waits_of frames.new.items) }
{
    frames.pop()
}

/// What one move comes to.
#[derive(Drop)]
pub enum Move<K> {
    /// There is more to do.
    On(Now<K>),
    /// So there is, several moves on.
    Far(Now<K>),
    /// A step is needed, a script is to be read, a task is to be resumed, or all has ended.
    Due(Now<K>),
}

/// A command has ended, and the next one of its script begins, or the script ends as the command did.
fn command_ended<K: Drop>(
    alloc: Global,
    scopes: &Scopes,
    context: &mut Context,
    frames: &mut Vec<Frame<K>>,
    place: ScriptPlace,
    code: Code,
    text: Text,
    pauses: bool,
) -> Result<Move<K>, AllocError>
    ensures { IfOk result (MoveGives pauses (standing
        (moved (Ends code text) (ForCommand place.room
        (left_in place) ∷ waits_of frames.old.items)) scopes.now context.old) frames.new.items scopes.now context.new) }
{
    match code {
        Code::Normal => {
            if pauses && is_plain(&place) {
                return Ok(Move::On(Now::GoesOn {
                    place,
                    result: text,
                }));
            }
            let level = context.levels.here(scopes);
            let now = go_on(
                alloc,
                scopes,
                level,
                &mut context.commands,
                frames,
                place,
                text,
            )?;
            Ok(Move::Far(now))
        }
        code => {
            note_ended(&mut context.commands, frames.as_slice(), &place, code)?;
            Ok(Move::On(Now::Ends { code, text }))
        }
    }
}

/// A script begins that has been read, or whose text is kept, and its first command with it. Another is to be read.
fn script_begins<K: Drop>(
    alloc: Global,
    scopes: &Scopes,
    context: &mut Context,
    frames: &mut Vec<Frame<K>>,
    script: Source,
    room: u64,
    pauses: bool,
) -> Result<Move<K>, AllocError>
    ensures { IfOk result (MoveGives pauses (standing
        (moved (Begins room script) (waits_of frames.old.items)) scopes.now context.old) frames.new.items scopes.now context.new) }
{
    let script = script.known(&context.commands)?;
    if room > 0 && !script.is_read() {
        return Ok(Move::Due(Now::Begins { room, script }));
    }
    match begun(alloc, &mut context.commands, script, room)? {
        Now::GoesOn { place, result } => {
            if pauses && is_plain(&place) {
                return Ok(Move::On(Now::GoesOn { place, result }));
            }
            let level = context.levels.here(scopes);
            let now = go_on(
                alloc,
                scopes,
                level,
                &mut context.commands,
                frames,
                place,
                result,
            )?;
            Ok(Move::Far(now))
        }
        now => Ok(Move::On(now)),
    }
}

/// Whether a step is needed for what is to be done, or a task is to be resumed; or a command with plain words is in front, where moves may stop
/// before one.
fn needs_turn<K>(now: &Now<K>, pauses: bool) -> bool
    ensures { result ≡ true → (waits : List (Waiting K)) → Stops pauses (moved (doing_of now.now) waits) }
{
    match now {
        Now::Calls { .. } | Now::Tests { .. } | Now::Steps { .. } | Now::Resumes { .. } => true,
        Now::GoesOn { place, .. } => pauses && is_plain(place),
        _ => false,
    }
}

/// Makes one move that takes no step, or several.
#[inline(always)]
fn advance<K: Drop>(
    alloc: Global,
    scopes: &mut Scopes,
    context: &mut Context,
    frames: &mut Vec<Frame<K>>,
    now: Now<K>,
    pauses: bool,
) -> Result<Move<K>, AllocError>
    ensures { IfOk result (MoveGives pauses (standing_of now frames.old.items scopes.old context.old) frames.new.items scopes.new context.new) }
{
    match now {
        Now::Begins { room, script } => {
            script_begins(alloc, scopes, context, frames, script, room, pauses)
        }
        Now::GoesOn { place, result } => {
            if pauses && is_plain(&place) {
                return Ok(Move::Due(Now::GoesOn { place, result }));
            }
            let level = context.levels.here(scopes);
            let now = go_on(
                alloc,
                scopes,
                level,
                &mut context.commands,
                frames,
                place,
                result,
            )?;
            Ok(Move::On(now))
        }
        Now::Ends { code, text } => match wake(frames) {
            Some(Frame::ForCommand(place)) => {
                command_ended(alloc, scopes, context, frames, place, code, text, pauses)
            }
            Some(frame) => {
                let now = ended(alloc, scopes, context, frames, frame, code, text)?;
                Ok(Move::On(now))
            }
            None => Ok(Move::Due(Now::Ends { code, text })),
        },
        Now::Indexes(indexing) => {
            let level = context.levels.here(scopes);
            let now = put_index(alloc, scopes, level, frames, indexing)?;
            Ok(Move::On(now))
        }
        Now::Evaluates { room, answered } => {
            let now = evaluate(alloc, scopes, context, frames, room, answered)?;
            Ok(Move::Far(now))
        }
        Now::Calls { room, words } => Ok(Move::Due(Now::Calls { room, words })),
        Now::Tests { room, looping } => Ok(Move::Due(Now::Tests { room, looping })),
        Now::Steps { room, task } => Ok(Move::Due(Now::Steps { room, task })),
        Now::Resumes {
            room,
            task,
            code,
            text,
        } => Ok(Move::Due(Now::Resumes {
            room,
            task,
            code,
            text,
        })),
    }
}

/// Moves on without a step, up to where a step is needed, a script is to be read, a task is to be resumed, or all has ended; or, if it
/// pauses, up to a command with plain words.
#[inline(always)]
pub fn quiet<K: Drop>(
    alloc: Global,
    scopes: &mut Scopes,
    context: &mut Context,
    frames: &mut Vec<Frame<K>>,
    now: Now<K>,
    pauses: bool,
) -> Next<K>
    ensures leads { IfOk result (λ due. Leads (standing_of now frames.old.items scopes.old context.old)
        (standing_of due frames.new.items scopes.new context.new)) }
    ensures due { IfOk result (λ due. Stops pauses (moved_of due frames.new.items)) }
{
    let mut doing = now;
    loop {
        match advance(alloc, scopes, context, frames, doing, pauses)? {
            Move::On(next) => {
                if needs_turn(&next, pauses) {
                    return Ok(next);
                }
                doing = next;
            }
            Move::Far(next) => doing = next,
            Move::Due(due) => return Ok(due),
        }
    }
}
