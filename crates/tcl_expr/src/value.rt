//! The values of operands, and what each operator makes of them.
ghost use Rattle.std.specs.Prelude.{◌≡◌, IfOk, not};
ghost use Rattle.tcl_expr.specs.Faults.{IsEvaluatedAs};
ghost use Rattle.tcl_expr.specs.Values as values;

use crate::arithmetic::{
    complement, difference, floor_quotient, floor_remainder, negated, product, shifted_left,
    shifted_right, sum,
};
use crate::fault::EvalFault;
use crate::operators::{
    ArithmeticOperator, BinaryOperator, Comparison, NumberOperator, TextOperator, UnaryOperator,
};
use crate::searches::Searches;
use std::alloc::{AllocError, Global};
use std::cmp::Ordering;
use tcl_text::Text;

/// The value of an operand: an integer that was computed, or a text, which may spell one.
#[derive(Drop)]
pub enum Value {
    Number(i64),
    Words(Text),
}

/// The integer that a value is, if it is one.
pub fn number_in(value: &Value) -> Option<i64>
    ensures { result ≡ values.number_of value.now }
{
    match value {
        Value::Number(number) => Some(*number),
        Value::Words(text) => text.integer().ok(),
    }
}

/// The boolean that a value is, if it is one.
pub fn truth_in(value: &Value) -> Option<bool>
    ensures { result ≡ values.truth_of value.now }
{
    match value {
        Value::Number(number) => Some(*number != 0),
        Value::Words(text) => text.boolean().ok(),
    }
}

/// The text of a value.
pub fn into_text(alloc: Global, value: Value) -> Result<Text, AllocError>
    ensures { IfOk result (λ text. text ≡ values.text_of_value value) }
{
    match value {
        Value::Number(number) => Text::from_integer(alloc, number),
        Value::Words(text) => Ok(text),
    }
}

/// 1 for true, 0 for false.
pub fn truth_value(truth: bool) -> Value
    ensures { result ≡ values.truth_value truth }
{
    if truth {
        Value::Number(1)
    } else {
        Value::Number(0)
    }
}

/// The boolean that a value has to be.
pub fn need_truth(alloc: Global, value: Value) -> Result<bool, EvalFault>
    ensures { IsEvaluatedAs result (values.needed_truth value) }
{
    match truth_in(&value) {
        Some(truth) => Ok(truth),
        None => {
            let text = into_text(alloc, value)?;
            Err(EvalFault::NotBoolean(text))
        }
    }
}

/// The integer that an operand of this operator has to be.
fn need_number(operator: NumberOperator, value: &Value) -> Result<i64, EvalFault>
    ensures { result ≡ values.needed_number operator value.now }
{
    match number_in(value) {
        Some(number) => Ok(number),
        None => Err(EvalFault::NotNumber(operator)),
    }
}

/// A result of arithmetic, which is refused where 64 bits don't hold it.
fn or_overflow(number: Option<i64>) -> Result<i64, EvalFault>
    ensures { result ≡ values.or_overflow number }
{
    match number {
        Some(number) => Ok(number),
        None => Err(EvalFault::Overflow),
    }
}

/// A quotient, rounded down.
fn quotient(left: i64, right: i64) -> Result<i64, EvalFault>
    ensures { result ≡ values.quotient left right }
{
    if right == 0 {
        return Err(EvalFault::DivideByZero);
    }
    or_overflow(floor_quotient(left, right))
}

/// What a quotient leaves, on the divisor's side of 0.
fn remainder(left: i64, right: i64) -> Result<i64, EvalFault>
    ensures { result ≡ values.remainder left right }
{
    if right == 0 {
        return Err(EvalFault::DivideByZero);
    }
    Ok(floor_remainder(left, right))
}

/// What an operator makes of integers.
pub fn arithmetic(operator: ArithmeticOperator, left: i64, right: i64) -> Result<i64, EvalFault>
    ensures { result ≡ values.arithmetic operator left right }
{
    match operator {
        ArithmeticOperator::Multiply => or_overflow(product(left, right)),
        ArithmeticOperator::Divide => quotient(left, right),
        ArithmeticOperator::Remainder => remainder(left, right),
        ArithmeticOperator::Add => or_overflow(sum(left, right)),
        ArithmeticOperator::Subtract => or_overflow(difference(left, right)),
        ArithmeticOperator::ShiftLeft => or_overflow(shifted_left(left, right)),
        ArithmeticOperator::ShiftRight => or_overflow(shifted_right(left, right)),
        ArithmeticOperator::BitAnd => Ok(left & right),
        ArithmeticOperator::BitXor => Ok(left ^ right),
        ArithmeticOperator::BitOr => Ok(left | right),
    }
}

/// How two values stand to one another: as integers where both are, else as texts by their bytes.
fn order(alloc: Global, left: Value, right: Value) -> Result<Ordering, AllocError>
    ensures { IfOk result (λ ordering. ordering ≡ values.order left right) }
{
    if let (Some(left), Some(right)) = (number_in(&left), number_in(&right)) {
        return Ok(left.cmp(&right));
    }
    let left = into_text(alloc, left)?;
    let right = into_text(alloc, right)?;
    Ok(left.cmp(&right))
}

/// Whether a comparison holds of values that stand so to one another.
pub fn holds(comparison: Comparison, order: Ordering) -> bool
    ensures { result ≡ values.holds comparison order }
{
    match comparison {
        Comparison::Less => order == Ordering::Less,
        Comparison::LessOrEqual => order != Ordering::Greater,
        Comparison::Greater => order == Ordering::Greater,
        Comparison::GreaterOrEqual => order != Ordering::Less,
        Comparison::Same => order == Ordering::Equal,
        Comparison::Different => order != Ordering::Equal,
    }
}

fn test(
    alloc: Global,
    searches: &mut Searches,
    operator: TextOperator,
    left: &Text,
    right: &Text,
) -> Result<bool, EvalFault>
    ensures { IsEvaluatedAs result (values.test operator left.now right.now) }
{
    match operator {
        TextOperator::Same => Ok(left.as_str() == right.as_str()),
        TextOperator::Different => Ok(left.as_str() != right.as_str()),
        TextOperator::In => searches.is_in(alloc, left, right),
        TextOperator::NotIn => {
            let found = searches.is_in(alloc, left, right)?;
            Ok(!found)
        }
    }
}

/// What an operator makes of the value behind it.
pub fn unary_value(alloc: Global, operator: UnaryOperator, value: Value) -> Result<Value, EvalFault>
    ensures { IsEvaluatedAs result (values.unary_value operator value) }
{
    match operator {
        UnaryOperator::Not => {
            let truth = need_truth(alloc, value)?;
            Ok(truth_value(!truth))
        }
        UnaryOperator::Negate => {
            let number = need_number(NumberOperator::Unary(operator), &value)?;
            let number = or_overflow(negated(number))?;
            Ok(Value::Number(number))
        }
        UnaryOperator::Keep => {
            let number = need_number(NumberOperator::Unary(operator), &value)?;
            Ok(Value::Number(number))
        }
        UnaryOperator::Complement => {
            let number = need_number(NumberOperator::Unary(operator), &value)?;
            Ok(Value::Number(complement(number)))
        }
    }
}

fn arithmetic_value(
    operator: ArithmeticOperator,
    left: &Value,
    right: &Value,
) -> Result<Value, EvalFault>
    ensures { IsEvaluatedAs result (values.arithmetic_value operator left.now right.now) }
{
    let left = need_number(NumberOperator::Arithmetic(operator), left)?;
    let right = need_number(NumberOperator::Arithmetic(operator), right)?;
    let number = arithmetic(operator, left, right)?;
    Ok(Value::Number(number))
}

/// What an operator makes of the values at its sides.
pub fn binary_value(
    alloc: Global,
    searches: &mut Searches,
    operator: BinaryOperator,
    left: Value,
    right: Value,
) -> Result<Value, EvalFault>
    ensures { IsEvaluatedAs result (values.binary_value operator left right) }
{
    match operator {
        BinaryOperator::Arithmetic(operator) => arithmetic_value(operator, &left, &right),
        BinaryOperator::Comparison(comparison) => {
            let order = order(alloc, left, right)?;
            Ok(truth_value(holds(comparison, order)))
        }
        BinaryOperator::Text(operator) => {
            let left = into_text(alloc, left)?;
            let right = into_text(alloc, right)?;
            let truth = test(alloc, searches, operator, &left, &right)?;
            Ok(truth_value(truth))
        }
    }
}
