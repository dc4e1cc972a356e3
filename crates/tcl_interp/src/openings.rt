//! Expressions of which straight code says the value: they have ended as soon as they begin, and nothing waits for them.
ghost use Rattle.std.specs.Prelude.{◌≡◌, ◌<◌, List, length, None, Ok, IfOk, IfSome};
ghost use Rattle.std.specs.Fmt.{signed_decimal};
ghost use Rattle.tcl_expr.specs.declared.state.State.TheVariants.{Ready};
ghost use Rattle.tcl_expr.specs.Straight.{ComesTo};
ghost use Rattle.tcl_vars.specs.Store.{number_in};
ghost use Rattle.tcl_control.specs.Expressions.{truth_of_text};
ghost use Rattle.tcl_interp.specs.Finish.{Evaluates, Waiting};
ghost use Rattle.tcl_interp.specs.Moves.{moved, standing, choice_move, expression_begins};
ghost use Rattle.tcl_interp.specs.Openings.{Knows, Opens, OpensAs};
ghost use Rattle.tcl_interp.specs.Quiet.{Leads};
ghost use Rattle.tcl_interp.specs.Rests.{doing_of, standing_of, waits_of};

use crate::expressions::choose;
use crate::machine::{Answered, Choosing, Frame, Next, Now};
use crate::seen::Seen;
use crate::words::wait;
use std::alloc::{AllocError, Global};
use tcl_commands::Choices;
use tcl_control::{Code, Context, Expression};
use tcl_expr::Eval;
use tcl_table::Source;
use tcl_text::Text;
use tcl_vars::Scopes;

/// An expression that begins.
#[derive(Drop)]
enum Opening {
    /// Straight code says that it is this integer.
    Integer(i64),
    /// It is to be evaluated.
    Evaluation(Eval),
    /// It has a fault, of which this is told.
    Fault(Text),
}

/// A condition that begins.
#[derive(Drop)]
pub enum Condition<K> {
    /// Straight code says whether it holds.
    Known(bool),
    /// This is to be done for it.
    Begins(Now<K>),
}

/// The value of an evaluation, where straight code says what it is. Variables are those of a level.
pub fn straight_value(scopes: &Scopes, level: usize, eval: &Eval) -> Option<i64>
    requires { level < length scopes.now }
    ensures { IfSome result (ComesTo (number_in scopes.now level) eval.now) }
{
    eval.integer(&Seen { scopes, level })
}

/// An expression begins, and straight code is asked first. Variables are those of a level.
fn open_expression(
    alloc: Global,
    scopes: &Scopes,
    level: usize,
    expression: &Expression,
) -> Result<Opening, AllocError>
    requires { level < length scopes.now }
    ensures { IfOk result (Opens scopes.now level expression.now) }
{
    if let Some(number) = expression.integer(&Seen { scopes, level }) {
        return Ok(Opening::Integer(number));
    }
    match expression.begin(alloc)? {
        Ok(eval) => Ok(Opening::Evaluation(eval)),
        Err(text) => Ok(Opening::Fault(text)),
    }
}

/// An evaluation begins.
fn evaluates<K: Drop>(alloc: Global, room: u64, eval: Eval) -> Next<K>
    requires { eval.state ≡ Ready }
    ensures { IfOk result (λ now. doing_of now ≡ Evaluates room eval None) }
{
    Ok(Now::Evaluates {
        room,
        answered: Box::new(alloc, Answered { eval, given: None })?,
    })
}

/// `expr` begins, and has ended where straight code says its value.
pub fn valued<K: Drop>(
    alloc: Global,
    scopes: &Scopes,
    context: &Context,
    expression: &Expression,
    room: u64,
) -> Next<K>
    ensures { IfOk result (λ now. (waits : List (Waiting K)) → Leads
        (standing (moved (expression_begins room expression.now) waits) scopes.now context.now)
        (standing (moved (doing_of now) waits) scopes.now context.now)) }
{
    let level = context.levels.here(scopes);
    match open_expression(alloc, scopes, level, expression)? {
        Opening::Integer(number) => Ok(Now::Ends {
            code: Code::Normal,
            text: Text::from_integer(alloc, number)?,
        }),
        Opening::Evaluation(eval) => evaluates(alloc, room, eval),
        Opening::Fault(text) => Ok(Now::Ends {
            code: Code::Error,
            text,
        }),
    }
}

/// Whether a condition holds that is an integer.
#[tactic(auto, using(crate::proofs::Straight::integer_truth))]
pub fn holds(number: i64) -> bool
    ensures { truth_of_text (signed_decimal number) ≡ Ok result }
{
    number != 0
}

/// A condition begins. Variables are those of a level.
pub fn open_condition<K: Drop>(
    alloc: Global,
    scopes: &Scopes,
    level: usize,
    expression: &Expression,
    room: u64,
) -> Result<Condition<K>, AllocError>
    requires { level < length scopes.now }
    ensures { IfOk result (OpensAs scopes.now level room expression.now) }
{
    match open_expression(alloc, scopes, level, expression)? {
        Opening::Integer(number) => Ok(Condition::Known(holds(number))),
        Opening::Evaluation(eval) => Ok(Condition::Begins(evaluates(alloc, room, eval)?)),
        Opening::Fault(text) => Ok(Condition::Begins(Now::Ends {
            code: Code::Error,
            text,
        })),
    }
}

/// Whether a condition holds, where straight code says so. Variables are those of a level.
pub fn known_condition(
    alloc: Global,
    scopes: &Scopes,
    level: usize,
    expression: &Expression,
) -> Result<Option<bool>, AllocError>
    requires { level < length scopes.now }
    ensures { IfOk result (λ known. IfSome known (Knows scopes.now level expression.now)) }
{
    match open_expression(alloc, scopes, level, expression)? {
        Opening::Integer(number) => Ok(Some(holds(number))),
        Opening::Evaluation(_) | Opening::Fault(_) => Ok(None),
    }
}

/// `if` begins: its first body, where straight code says that the condition holds.
pub fn choose_first<K: Drop>(
    alloc: Global,
    scopes: &Scopes,
    context: &mut Context,
    frames: &mut Vec<Frame<K>>,
    room: u64,
    choices: Choices,
) -> Next<K>
    ensures context { context.new ≡ context.old }
    ensures now { IfOk result (λ now. Leads
        (standing (choice_move room choices.branches choices.otherwise (waits_of frames.old.items)) scopes.now context.old)
        (standing_of now frames.new.items scopes.now context.old)) }
{
    let branches = choices.branches.as_slice();
    if branches.is_empty() {
        return choose(alloc, &mut context.commands, frames, room, choices, 0);
    }
    let level = context.levels.here(scopes);
    let expression = Expression::read_by(alloc, &mut context.commands, &branches[0].test)?;
    match open_condition(alloc, scopes, level, &expression, room)? {
        Condition::Known(true) => Ok(Now::Begins {
            room,
            script: Source::of_text(branches[0].body.copy()?),
        }),
        Condition::Known(false) => {
            choose(alloc, &mut context.commands, frames, room, choices, 1)
        }
        Condition::Begins(now) => {
            let choosing = Box::new(alloc, Choosing { choices, place: 0 })?;
            wait(frames, Frame::ForChoice { room, choosing })?;
            Ok(now)
        }
    }
}
