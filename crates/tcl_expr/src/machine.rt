//! Steps, performed one after another until something has to be asked.
ghost use Rattle.std.specs.Prelude.{◌≡◌, ◌≤◌, ◌<◌, length, Ok};
ghost use Rattle.tcl_expr.specs.Faults.{IsEvaluatedAs};
ghost use Rattle.tcl_expr.specs.Machine.{Performs, Advances, Halts};
ghost use Rattle.tcl_expr.specs.Trees as trees;

use crate::ask::Ask;
use crate::fault::EvalFault;
use crate::operands::Operands;
use crate::operators::{BinaryOperator, UnaryOperator};
use crate::step::Step;
use crate::value::{Value, into_text, need_truth, number_in, truth_value, unary_value};
use std::alloc::Global;
use tcl_text::Text;

/// How it goes on behind a step.
#[derive(Drop)]
pub enum Turn {
    /// With so many steps left out.
    Skip(usize),
    /// Once this is answered, with the next step.
    Stop(Ask),
}

/// What has to be asked, or the value, and the place of the step that comes then.
#[derive(Drop)]
pub struct Halt {
    pub ask: Ask,
    pub place: usize,
}

/// Where it goes on behind a step.
#[derive(Drop)]
pub enum Advance {
    /// At this step.
    On(usize),
    /// Nowhere, until what was asked is answered.
    Halted(Halt),
}

/// Two texts, one after the other.
fn joined(alloc: Global, left: Value, right: Value) -> Result<Value, EvalFault>
    ensures { IsEvaluatedAs result (trees.joined_values left right) }
{
    let left = into_text(alloc, left)?;
    let right = into_text(alloc, right)?;
    let mut both = String::from_str(alloc, left.as_str())?;
    both.push_str(right.as_str())?;
    let text = Text::new(alloc, both.as_str())?;
    Ok(Value::Words(text))
}

/// The text of the last value, an integer in decimal.
fn final_text(alloc: Global, value: Value) -> Result<Text, EvalFault>
    ensures { IsEvaluatedAs result (Ok (trees.final_text value)) }
{
    match number_in(&value) {
        Some(number) => Ok(Text::from_integer(alloc, number)?),
        None => Ok(into_text(alloc, value)?),
    }
}

fn plain(stack: &mut Operands, text: &Text) -> Result<Turn, EvalFault>
    ensures { Performs (Step.Plain text.now) stack.old result stack.new }
{
    let text = text.copy()?;
    stack.push(Value::Words(text))?;
    Ok(Turn::Skip(0))
}

fn element(alloc: Global, stack: &mut Operands, array: &Text) -> Result<Turn, EvalFault>
    ensures { Performs (Step.Element array.now) stack.old result stack.new }
{
    let index = stack.pop();
    let index = into_text(alloc, index)?;
    let array = array.copy()?;
    Ok(Turn::Stop(Ask::Element(array, index)))
}

fn join(alloc: Global, stack: &mut Operands) -> Result<Turn, EvalFault>
    ensures { Performs Step.Join stack.old result stack.new }
{
    let right = stack.pop();
    let left = stack.pop();
    stack.push(joined(alloc, left, right)?)?;
    Ok(Turn::Skip(0))
}

fn unary(alloc: Global, stack: &mut Operands, operator: UnaryOperator) -> Result<Turn, EvalFault>
    ensures { Performs (Step.Unary operator) stack.old result stack.new }
{
    let operand = stack.pop();
    stack.push(unary_value(alloc, operator, operand)?)?;
    Ok(Turn::Skip(0))
}

fn binary(alloc: Global, stack: &mut Operands, operator: BinaryOperator) -> Result<Turn, EvalFault>
    ensures { Performs (Step.Binary operator) stack.old result stack.new }
{
    let right = stack.pop();
    let left = stack.pop();
    let value = stack.binary_value(alloc, operator, left, right)?;
    stack.push(value)?;
    Ok(Turn::Skip(0))
}

fn and(alloc: Global, stack: &mut Operands, count: usize) -> Result<Turn, EvalFault>
    ensures { Performs (Step.And count) stack.old result stack.new }
{
    let truth = need_truth(alloc, stack.pop())?;
    if truth {
        return Ok(Turn::Skip(0));
    }
    stack.push(truth_value(false))?;
    Ok(Turn::Skip(count))
}

fn or(alloc: Global, stack: &mut Operands, count: usize) -> Result<Turn, EvalFault>
    ensures { Performs (Step.Or count) stack.old result stack.new }
{
    let truth = need_truth(alloc, stack.pop())?;
    if !truth {
        return Ok(Turn::Skip(0));
    }
    stack.push(truth_value(true))?;
    Ok(Turn::Skip(count))
}

fn truth(alloc: Global, stack: &mut Operands) -> Result<Turn, EvalFault>
    ensures { Performs Step.Truth stack.old result stack.new }
{
    let truth = need_truth(alloc, stack.pop())?;
    stack.push(truth_value(truth))?;
    Ok(Turn::Skip(0))
}

fn branch(alloc: Global, stack: &mut Operands, count: usize) -> Result<Turn, EvalFault>
    ensures { Performs (Step.Branch count) stack.old result stack.new }
{
    let truth = need_truth(alloc, stack.pop())?;
    if truth {
        Ok(Turn::Skip(0))
    } else {
        Ok(Turn::Skip(count))
    }
}

/// Performs one step.
fn perform(alloc: Global, stack: &mut Operands, step: &Step) -> Result<Turn, EvalFault>
    ensures { Performs step.now stack.old result stack.new }
{
    match step {
        Step::TooLarge => Err(EvalFault::Overflow),
        Step::Plain(text) => plain(stack, text),
        Step::Variable(name) => {
            let name = name.text().copy()?;
            Ok(Turn::Stop(Ask::Variable(name)))
        }
        Step::Element(array) => element(alloc, stack, array),
        Step::Command(script) => {
            stack.forget_searches();
            let script = script.copy()?;
            Ok(Turn::Stop(Ask::Command(script)))
        }
        Step::Join => join(alloc, stack),
        Step::Unary(operator) => unary(alloc, stack, *operator),
        Step::Binary(operator) => binary(alloc, stack, *operator),
        Step::And(count) => and(alloc, stack, *count),
        Step::Or(count) => or(alloc, stack, *count),
        Step::Truth => truth(alloc, stack),
        Step::Branch(count) => branch(alloc, stack, *count),
        Step::Jump(count) => Ok(Turn::Skip(*count)),
    }
}

/// Performs the step at a place.
fn step_at(
    alloc: Global,
    stack: &mut Operands,
    steps: &[Step],
    place: usize,
) -> Result<Advance, EvalFault>
    requires { place < length steps.now }
    ensures { Advances steps.now place stack.old result stack.new }
{
    match perform(alloc, stack, &steps[place])? {
        Turn::Skip(count) => Ok(Advance::On(place + 1 + count.min(steps.len() - place - 1))),
        Turn::Stop(ask) => Ok(Advance::Halted(Halt {
            ask,
            place: place + 1,
        })),
    }
}

/// Performs the steps from a place on, until something has to be asked or the value is there.
pub fn run(
    alloc: Global,
    stack: &mut Operands,
    steps: &[Step],
    start: usize,
) -> Result<Halt, EvalFault>
    ensures { Halts steps.now start stack.old result stack.new }
{
    let mut place = start;
    while place < steps.len() {
        match step_at(alloc, stack, steps, place)? {
            Advance::On(next) => place = next,
            Advance::Halted(halt) => return Ok(halt),
        }
    }
    let value = stack.pop();
    let text = final_text(alloc, value)?;
    Ok(Halt {
        ask: Ask::Value(text),
        place,
    })
}
