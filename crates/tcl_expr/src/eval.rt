ghost use Rattle.std.specs.Prelude.{◌≡◌, IfOk};
ghost use Rattle.tcl_expr.specs.Machine.{Halts};
ghost use Rattle.tcl_expr.specs.Reading.{compiled};
ghost use Rattle.tcl_expr.specs.Resuming.{Repeats, state_after, steps_in, with_given};

use crate::ask::Ask;
use crate::expr::Expr;
use crate::fault::EvalFault;
use crate::machine::{Halt, run};
use crate::operands::Operands;
use crate::state::State;
use crate::straight::{Numbers, integer_by};
use crate::value::Value;
use std::alloc::{AllocError, Global};
use std::marker::Model;
use tcl_text::Text;

/// The evaluation of an expression (expr(n)), which stops where something has to be asked and goes on once it is answered.
pub struct Eval {
    alloc: Global,
    expr: Expr,
    place: usize,
    stack: Operands,
    state: State,
}

impl Model for Eval {
    ghost use Rattle.tcl_expr.specs.Resuming.{Resumption, evaluation_at};
    ghost use Rattle.tcl_expr.specs.Reading.{compiled};

    ghost Value = { Resumption };

    ghost view = { λ e. evaluation_at e.place (compiled e.expr) e.stack e.state };
}

/// Goes on from a place, with the answer to what was asked.
fn go_on(
    alloc: Global,
    expr: &Expr,
    place: usize,
    stack: &mut Operands,
    given: Option<Text>,
) -> Result<Halt, EvalFault>
    ensures { Halts (steps_in (compiled expr.now)) place (with_given given stack.old) result stack.new }
{
    if let Some(text) = given {
        stack.push(Value::Words(text))?;
    }
    run(alloc, stack, expr.steps(), place)
}

/// The state once this is told.
fn state_of(ask: &Ask) -> Result<State, AllocError>
    ensures { IfOk result (λ state. state ≡ state_after ask.now) }
{
    match ask {
        Ask::Value(text) => {
            let text = text.copy()?;
            Ok(State::Ended(text))
        }
        _ => Ok(State::Waiting),
    }
}

/// What is told again in a state, if all is told.
fn repeated(state: &State) -> Option<Result<Ask, EvalFault>>
    ensures { Repeats state.now result }
{
    match state {
        State::Ended(text) => match text.copy() {
            Ok(text) => Some(Ok(Ask::Value(text))),
            Err(_refused) => Some(Err(EvalFault::NoMemory)),
        },
        State::Failed(fault) => Some(Err(fault.copied())),
        _ => None,
    }
}

impl Eval {
    ghost use Rattle.std.specs.Prelude.{◌≡◌, ◌⊎◌, [], Option, is_some, Ok, IfOk, IfSome};
    ghost use Rattle.tcl_expr.specs.declared.state.State.TheVariants.{Failed, Ready};
    ghost use Rattle.tcl_expr.specs.declared.fault.EvalFault.TheVariants.{NoMemory};
    ghost use Rattle.tcl_expr.specs.Resuming.{Tells, evaluation_at, evaluation_told, is_waiting, to_come, with_given};
    ghost use Rattle.tcl_expr.specs.Machine.{AsksBy};
    ghost use Rattle.tcl_expr.specs.Straight.{ComesTo};
    ghost use Rattle.tcl_expr.specs.Grammar.{IsTreeOf};
    ghost use Rattle.tcl_expr.specs.Reading.{compiled};
    ghost use Rattle.tcl_expr.specs.Trees.{Tree};
    ghost use Rattle.tcl_expr.specs.Run.{evaluation};

    /// The evaluation of an expression, from its beginning. It takes no memory.
    pub fn new(alloc: Global, expr: Expr) -> Eval
        ensures tree { (tree : Tree) × IsTreeOf expr tree × (evaluation_told result None ≡ evaluation tree) }
        ensures value { (tree : Tree) → IsTreeOf expr tree → evaluation_told result None ≡ evaluation tree }
        ensures ready { result.state ≡ Ready }
        ensures walk { result ≡ evaluation_at 0 (compiled expr) [] Ready }
    {
        let _source = expr.text();
        Eval {
            alloc,
            expr,
            place: 0,
            stack: Operands::new(alloc),
            state: State::Ready,
        }
    }

    /// The integer that it comes to, where nothing was asked yet, and it needs nothing but integers and variables that are some. It says
    /// nothing of a sum that 64 bits don't hold, of a division by 0, or where many operands wait. It takes no memory, and the evaluation
    /// stays where it is.
    pub fn integer<N: Numbers>(&self, numbers: &N) -> Option<i64>
        ensures { IfSome result (ComesTo (N.number numbers.now) self.now) }
    {
        if self.place == 0
            && self.expr.is_straight()
            && self.stack.is_empty()
            && matches!(self.state, State::Ready)
        {
            integer_by(numbers, self.expr.steps())
        } else {
            None
        }
    }

    /// It ends with a fault, and answers that from now on, or `NoMemory` where the fault's text can't be shared.
    fn fail(&mut self, fault: EvalFault) -> Result<Ask, EvalFault>
        ensures { (result ≡ Err fault) × (self.new.state ≡ Failed fault) ⊎ (result ≡ Err NoMemory) × (self.new.state ≡ Failed NoMemory) }
    {
        match fault.copied() {
            EvalFault::NoMemory => {
                self.state = State::Failed(EvalFault::NoMemory);
                Err(EvalFault::NoMemory)
            }
            copy => {
                self.state = State::Failed(copy);
                Err(fault)
            }
        }
    }

    /// Goes on until something is asked, or to the end. Where the last answer asked for something, and only there, its text is
    /// given. The faults are 2 to 4 and 12 to 14, as `EvalFault` tells them. After a value or a fault that is answered again, and
    /// after `NoMemory` that.
    pub fn resume(&mut self, given: Option<Text>) -> Result<Ask, EvalFault>
        requires { is_some given ≡ is_waiting self.old.state }
        ensures tells { Tells (evaluation_told self.old given) result self.new }
        ensures asks { IfOk result (λ ask. AsksBy self.old.steps ask self.new.steps) }
    {
        if let Some(answer) = repeated(&self.state) {
            return match answer {
                Ok(ask) => Ok(ask),
                Err(fault) => self.fail(fault),
            };
        }
        match go_on(self.alloc, &self.expr, self.place, &mut self.stack, given) {
            Ok(halt) => {
                self.place = halt.place;
                match state_of(&halt.ask) {
                    Ok(state) => {
                        self.state = state;
                        Ok(halt.ask)
                    }
                    Err(_refused) => self.fail(EvalFault::NoMemory),
                }
            }
            Err(fault) => self.fail(fault),
        }
    }
}

/// By hand: a proof sees one call where it is dropped, and not its parts.
impl Drop for Eval {
    fn drop(self) {
        let Eval {
            alloc: _,
            expr: _,
            place: _,
            stack: _,
            state: _,
        } = self;
    }
}
