//! Straight code: the steps of an expression, performed on integers alone where it needs nothing else.
ghost use Rattle.std.specs.Prelude.{◌≡◌, ◌<◌, length, List, ℕ, ℤ, Option, [], ◌∷◌, IfSome, not};
ghost use Rattle.tcl_expr.specs.Straight as integers;

use crate::arithmetic::{complement, negated};
use crate::integers::Integers;
use crate::operators::{BinaryOperator, UnaryOperator};
use crate::step::Step;
use crate::value::{arithmetic, holds};
use crate::variable::VariableName;

/// The variables that straight code reads.
pub trait Numbers {
    ghost use Rattle.std.specs.Prelude.{◌≡◌, ℕ, ℤ, List, Option};

    /// The integer that the text of a variable of a name is, if it is there and is one.
    ghost number: { Self → List ℕ → Option ℤ };

    /// The integer that the text of a variable is, if it is there and is one.
    fn number(&self, name: &VariableName) -> Option<i64>
        ensures { result ≡ number self.now name.now };
}

/// Whether straight code has this step.
pub fn is_straight(step: &Step) -> bool {
    !matches!(
        step,
        Step::TooLarge
            | Step::Element(_)
            | Step::Command(_)
            | Step::Join
            | Step::Binary(BinaryOperator::Text(_))
    )
}

/// 1 for true, 0 for false.
fn truth_integer(truth: bool) -> i64
    ensures { result ≡ integers.truth_integer truth }
{
    if truth { 1 } else { 0 }
}

/// What an operator makes of the integer behind it, where 64 bits hold that.
fn unary_integer(operator: UnaryOperator, number: i64) -> Option<i64>
    ensures { result ≡ integers.unary_integer operator number }
{
    match operator {
        UnaryOperator::Not => Some(truth_integer(number == 0)),
        UnaryOperator::Negate => negated(number),
        UnaryOperator::Keep => Some(number),
        UnaryOperator::Complement => Some(complement(number)),
    }
}

/// What an operator makes of the integers at its sides, where it is one of integers and doesn't refuse them.
fn binary_integer(operator: BinaryOperator, left: i64, right: i64) -> Option<i64>
    ensures { result ≡ integers.binary_integer operator left right }
{
    match operator {
        BinaryOperator::Arithmetic(operator) => arithmetic(operator, left, right).ok(),
        BinaryOperator::Comparison(comparison) => {
            Some(truth_integer(holds(comparison, left.cmp(&right))))
        }
        BinaryOperator::Text(_) => None,
    }
}

/// An integer is there.
#[inline]
fn put(stack: &mut Integers, number: Option<i64>) -> Option<usize>
    ensures { integers.Puts number stack.old result stack.new }
{
    stack.push(number?)?;
    Some(0)
}

fn unary(stack: &mut Integers, operator: UnaryOperator) -> Option<usize>
    ensures { (number : List ℕ → Option ℤ) → integers.Performs number (Step.Unary operator) stack.old result stack.new }
{
    let operand = stack.pop();
    put(stack, unary_integer(operator, operand))
}

fn binary(stack: &mut Integers, operator: BinaryOperator) -> Option<usize>
    ensures { (number : List ℕ → Option ℤ) → integers.Performs number (Step.Binary operator) stack.old result stack.new }
{
    let right = stack.pop();
    let left = stack.pop();
    put(stack, binary_integer(operator, left, right))
}

fn and(stack: &mut Integers, count: usize) -> Option<usize>
    ensures { (number : List ℕ → Option ℤ) → integers.Performs number (Step.And count) stack.old result stack.new }
{
    if stack.pop() != 0 {
        return Some(0);
    }
    stack.push(0)?;
    Some(count)
}

fn or(stack: &mut Integers, count: usize) -> Option<usize>
    ensures { (number : List ℕ → Option ℤ) → integers.Performs number (Step.Or count) stack.old result stack.new }
{
    if stack.pop() == 0 {
        return Some(0);
    }
    stack.push(1)?;
    Some(count)
}

fn truth(stack: &mut Integers) -> Option<usize>
    ensures { (number : List ℕ → Option ℤ) → integers.Performs number Step.Truth stack.old result stack.new }
{
    let number = stack.pop();
    stack.push(truth_integer(number != 0))?;
    Some(0)
}

fn branch(stack: &mut Integers, count: usize) -> Option<usize>
    ensures { (number : List ℕ → Option ℤ) → integers.Performs number (Step.Branch count) stack.old result stack.new }
{
    if stack.pop() != 0 {
        Some(0)
    } else {
        Some(count)
    }
}

/// Performs one step; what it gives is how many of the next ones are left out.
fn perform<N: Numbers>(numbers: &N, stack: &mut Integers, step: &Step) -> Option<usize>
    ensures { integers.Performs (N.number numbers.now) step.now stack.old result stack.new }
{
    match step {
        Step::TooLarge | Step::Element(_) | Step::Command(_) | Step::Join => None,
        Step::Plain(text) => put(stack, text.integer().ok()),
        Step::Variable(name) => put(stack, numbers.number(name)),
        Step::Unary(operator) => unary(stack, *operator),
        Step::Binary(operator) => binary(stack, *operator),
        Step::And(count) => and(stack, *count),
        Step::Or(count) => or(stack, *count),
        Step::Truth => truth(stack),
        Step::Branch(count) => branch(stack, *count),
        Step::Jump(count) => Some(*count),
    }
}

/// Performs the step at a place, and gives the place of the next.
fn step_at<N: Numbers>(
    numbers: &N,
    stack: &mut Integers,
    steps: &[Step],
    place: usize,
) -> Option<usize>
    requires { place < length steps.now }
    ensures { IfSome result (integers.Advances (N.number numbers.now) steps.now place stack.old stack.new) }
{
    let skip = perform(numbers, stack, &steps[place])?;
    Some(place + 1 + skip.min(steps.len() - place - 1))
}

/// The integer that steps come to with these integers waiting, where all that they need is integers.
fn integer_over<N: Numbers>(numbers: &N, steps: &[Step], waiting: Integers) -> Option<i64>
    ensures { IfSome result (λ n. integers.straight (N.number numbers.now) 0 steps.now waiting ≡ Option.Some n) }
{
    let mut stack = waiting;
    let mut place = 0;
    while place < steps.len() {
        place = step_at(numbers, &mut stack, steps, place)?;
    }
    Some(stack.pop())
}

/// The integer that steps come to, where all that they need is integers.
pub fn integer_by<N: Numbers>(numbers: &N, steps: &[Step]) -> Option<i64>
    ensures { IfSome result (λ n. integers.straight (N.number numbers.now) 0 steps.now [] ≡ Option.Some n) }
{
    integer_over(numbers, steps, Integers::new())
}

/// The integer that steps come to behind one that gives this integer, where all that they need is integers.
pub fn integer_behind<N: Numbers>(numbers: &N, steps: &[Step], first: i64) -> Option<i64>
    ensures { IfSome result (λ n. integers.straight (N.number numbers.now) 0 steps.now (first ∷ []) ≡ Option.Some n) }
{
    let mut waiting = Integers::new();
    waiting.push(first)?;
    integer_over(numbers, steps, waiting)
}
