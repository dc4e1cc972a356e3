//! Evaluations of expressions, and the conditions of `if` and of loops.
ghost use Rattle.std.specs.Prelude.{◌≡◌, ◌≢◌, ◌<◌, List, drop, length, Ok, IfOk};
ghost use Rattle.tcl_expr.specs.declared.fault.EvalFault.TheVariants.{NoMemory};
ghost use Rattle.tcl_expr.specs.Messages.{eval_message};
ghost use Rattle.tcl_control.specs.declared.code.Code.TheVariants.{Error};
ghost use Rattle.tcl_control.specs.Expressions.{truth_of_text};
ghost use Rattle.tcl_interp.specs.Moves.{moved, standing, expression_begins, otherwise_move, choice_move, iteration_move, chosen_move};
ghost use Rattle.tcl_interp.specs.Finish.{Waiting, Ends, Evaluates};
ghost use Rattle.tcl_interp.specs.Quiet.{MovesOn};
ghost use Rattle.tcl_interp.specs.Replies.{reply_to};
ghost use Rattle.tcl_interp.specs.Rests.{doing_of, moved_of, standing_of, waits_of};

use crate::machine::{Answered, Asking, Choosing, Frame, Next, Now};
use crate::openings::straight_value;
use crate::words::{begin_for, wait};
use std::alloc::{AllocError, Global};
use tcl_commands::Choices;
use tcl_control::{Code, Context, Expression, Looping, truth};
use tcl_expr::{Ask, Eval, EvalFault};
use tcl_table::texts::cannot_read_element;
use tcl_table::{CommandTable, Source};
use tcl_text::Text;
use tcl_vars::Scopes;
use tcl_words::Script;

/// An expression begins, unless it has a fault.
pub fn begins<K: Drop>(alloc: Global, expression: &Expression, room: u64) -> Next<K>
    ensures { IfOk result (λ now. doing_of now ≡ expression_begins room expression.now) }
{
    match expression.begin(alloc)? {
        Ok(eval) => Ok(Now::Evaluates {
            room,
            answered: Box::new(alloc, Answered { eval, given: None })?,
        }),
        Err(text) => Ok(Now::Ends {
            code: Code::Error,
            text,
        }),
    }
}

/// What an evaluation gets for what it asked.
#[derive(Drop)]
pub enum Reply {
    /// The text that it asked for.
    Given(Text),
    /// No such text is there: the error's text.
    Missing(Text),
    /// A script has to give it.
    Script(Script),
    /// Nothing: this is its value.
    Value(Text),
}

/// What is there for what an evaluation asks, where variables are those of a level.
fn reply_to(alloc: Global, scopes: &Scopes, level: usize, ask: Ask) -> Result<Reply, AllocError>
    requires { level < length scopes.now }
    ensures { IfOk result (λ reply. reply ≡ reply_to level scopes.now ask) }
{
    match ask {
        Ask::Variable(name) => match scopes.get(level, &name) {
            Ok(value) => Ok(Reply::Given(value.copy()?)),
            Err(fault) => Ok(Reply::Missing(fault.text(alloc, name.as_str())?)),
        },
        Ask::Element(array, index) => match scopes.get_element(level, &array, &index) {
            Ok(value) => Ok(Reply::Given(value.copy()?)),
            Err(fault) => Ok(Reply::Missing(cannot_read_element(alloc, &array, &index, fault)?)),
        },
        Ask::Command(script) => Ok(Reply::Script(script)),
        Ask::Value(text) => Ok(Reply::Value(text)),
    }
}

/// An evaluation has this fault.
fn failed<K: Drop>(alloc: Global, fault: &EvalFault) -> Next<K>
    ensures doing { IfOk result (λ now. doing_of now ≡ Ends Error (eval_message fault.now)) }
    ensures memory { IfOk result (λ now. fault.now ≢ NoMemory) }
{
    match fault {
        EvalFault::NoMemory => Err(AllocError),
        fault => Ok(Now::Ends {
            code: Code::Error,
            text: fault.text(alloc)?,
        }),
    }
}

/// An evaluation goes on, up to where it asks for the result of a script or ends. Straight code is asked first.
pub fn evaluate<K: Drop>(
    alloc: Global,
    scopes: &Scopes,
    context: &Context,
    frames: &mut Vec<Frame<K>>,
    room: u64,
    answered: Box<Answered>,
) -> Next<K>
    ensures { IfOk result (λ now. MovesOn (standing
        (moved (Evaluates room answered.value.eval answered.value.given) (waits_of frames.old.items)) scopes.now context.now)
        (standing_of now frames.new.items scopes.now context.now)) }
{
    let level = context.levels.here(scopes);
    match straight_value(scopes, level, &answered.eval) {
        Some(number) => {
            let text = Text::from_integer(alloc, number)?;
            Ok(Now::Ends {
                code: Code::Normal,
                text,
            })
        }
        None => ask_on(alloc, scopes, context, frames, room, answered),
    }
}

/// An evaluation goes on step by step. What it asks of variables is answered here.
fn ask_on<K: Drop>(
    alloc: Global,
    scopes: &Scopes,
    context: &Context,
    frames: &mut Vec<Frame<K>>,
    room: u64,
    answered: Box<Answered>,
) -> Next<K>
    ensures { IfOk result (λ now. MovesOn (standing
        (moved (Evaluates room answered.value.eval answered.value.given) (waits_of frames.old.items)) scopes.now context.now)
        (standing_of now frames.new.items scopes.now context.now)) }
{
    let level = context.levels.here(scopes);
    let Answered {
        mut eval,
        mut given,
    } = Box::into_inner(answered);
    'answers: loop {
        let ask = match eval.resume(given) {
            Ok(ask) => ask,
            Err(fault) => return failed(alloc, &fault),
        };
        match reply_to(alloc, scopes, level, ask)? {
            Reply::Given(text) => given = Some(text),
            Reply::Missing(text) => {
                return Ok(Now::Ends {
                    code: Code::Error,
                    text,
                });
            }
            Reply::Script(script) => {
                let asking = Box::new(alloc, Asking { eval })?;
                let script = Source::of_script(script);
                return begin_for(frames, Frame::ForValue { room, asking }, room, script);
            }
            Reply::Value(text) => {
                return Ok(Now::Ends {
                    code: Code::Normal,
                    text,
                });
            }
        }
    }
}

/// The condition of a loop holds, or doesn't.
pub fn iteration_by<K: Drop>(
    frames: &mut Vec<Frame<K>>,
    room: u64,
    looping: Looping,
    holds: bool,
) -> Next<K>
    ensures { IfOk result (λ now. moved_of now frames.new.items ≡ iteration_move room looping (waits_of frames.old.items) (Ok holds)) }
{
    if holds {
        let script = looping.get().body.copy()?;
        begin_for(frames, Frame::ForBody { room, looping }, room, script)
    } else {
        Ok(Now::Ends {
            code: Code::Normal,
            text: Text::empty(),
        })
    }
}

/// The condition of a loop has this value.
pub fn iteration<K: Drop>(
    alloc: Global,
    frames: &mut Vec<Frame<K>>,
    room: u64,
    looping: Looping,
    value: &Text,
) -> Next<K>
    ensures { IfOk result (λ now. moved_of now frames.new.items ≡ iteration_move room looping (waits_of frames.old.items) (truth_of_text value.now)) }
{
    match truth(alloc, value)? {
        Ok(holds) => iteration_by(frames, room, looping, holds),
        Err(text) => Ok(Now::Ends {
            code: Code::Error,
            text,
        }),
    }
}

/// No condition of `if` holds.
fn otherwise<K: Drop>(alloc: Global, room: u64, body: &Option<Text>) -> Next<K>
    ensures { IfOk result (λ now. (waits : List (Waiting K)) → moved (doing_of now) waits ≡ otherwise_move room body.now waits) }
{
    match body {
        Some(body) => Ok(Now::Begins {
            room,
            script: Source::of_text(body.copy()?),
        }),
        None => Ok(Now::Ends {
            code: Code::Normal,
            text: Text::empty(),
        }),
    }
}

/// On to the condition of `if` at a place.
pub fn choose<K: Drop>(
    alloc: Global,
    table: &mut CommandTable,
    frames: &mut Vec<Frame<K>>,
    room: u64,
    choices: Choices,
    place: usize,
) -> Next<K>
    ensures table { table.new ≡ table.old }
    ensures now { IfOk result (λ now. moved_of now frames.new.items
        ≡ choice_move room (drop place choices.branches) choices.otherwise (waits_of frames.old.items)) }
{
    let branches = choices.branches.as_slice();
    if place < branches.len() {
        let expression = Expression::read_by(alloc, table, &branches[place].test)?;
        let choosing = Box::new(alloc, Choosing { choices, place })?;
        wait(frames, Frame::ForChoice { room, choosing })?;
        return begins(alloc, &expression, room);
    }
    otherwise(alloc, room, &choices.otherwise)
}

/// The condition of `if` that was begun has this value.
pub fn branch_by<K: Drop>(
    alloc: Global,
    table: &mut CommandTable,
    frames: &mut Vec<Frame<K>>,
    room: u64,
    choosing: Box<Choosing>,
    value: &Text,
) -> Next<K>
    ensures table { table.new ≡ table.old }
    ensures now { IfOk result (λ now. moved_of now frames.new.items
        ≡ chosen_move room (drop choosing.value.place choosing.value.choices.branches) choosing.value.choices.otherwise (waits_of frames.old.items)
        (truth_of_text value.now)) }
{
    let Choosing { choices, place } = Box::into_inner(choosing);
    match truth(alloc, value)? {
        Ok(true) => Ok(Now::Begins {
            room,
            script: Source::of_text(choices.branches.as_slice()[place].body.copy()?),
        }),
        Ok(false) => choose(alloc, table, frames, room, choices, place + 1),
        Err(text) => Ok(Now::Ends {
            code: Code::Error,
            text,
        }),
    }
}
