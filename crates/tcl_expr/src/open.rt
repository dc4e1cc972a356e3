//! What stands open while an expression is read, beside the steps that were written.
ghost use Rattle.std.specs.Prelude.{◌≡◌, ◌-◌, ◌<◌, OnOk, OnErr, List, [], ◌∷◌, ◌++◌, length, set};
ghost use Rattle.tcl_expr.specs.Operators as operators;
ghost use Rattle.tcl_expr.specs.Reading.{Opened};
ghost use Rattle.tcl_expr.specs.Trees.{Tree};
ghost use Rattle.tcl_expr.specs.Steps.{steps_of};
ghost use Rattle.tcl_expr.specs.Parsing as parsing;

use crate::operators::{ArithmeticOperator, BinaryOperator, Comparison, Infix, UnaryOperator};
use crate::step::Step;
use std::alloc::AllocError;

/// What waits for what stands behind it. Some keep the place of the step that is to be told how many steps it can leave out.
#[derive(Clone, Copy, Drop)]
pub enum Open {
    Before(UnaryOperator),
    After(Infix, usize),
    Paren,
    Question(usize),
    Otherwise(usize),
}

fn arithmetic_level(operator: ArithmeticOperator) -> usize
    ensures { result ≡ operators.arithmetic_level operator }
{
    match operator {
        ArithmeticOperator::Multiply | ArithmeticOperator::Divide | ArithmeticOperator::Remainder =>
            10,
        ArithmeticOperator::Add | ArithmeticOperator::Subtract => 9,
        ArithmeticOperator::ShiftLeft | ArithmeticOperator::ShiftRight => 8,
        ArithmeticOperator::BitAnd => 5,
        ArithmeticOperator::BitXor => 4,
        ArithmeticOperator::BitOr => 3,
    }
}

/// How tight an operator binds.
pub fn level_of(operator: Infix) -> usize
    ensures { result ≡ operators.level_of operator }
{
    match operator {
        Infix::Or => 1,
        Infix::And => 2,
        Infix::Binary(BinaryOperator::Arithmetic(operator)) => arithmetic_level(operator),
        Infix::Binary(BinaryOperator::Comparison(Comparison::Same | Comparison::Different)) => 6,
        Infix::Binary(BinaryOperator::Comparison(_)) => 7,
        Infix::Binary(BinaryOperator::Text(_)) => 6,
    }
}

/// Whether it ends where what comes binds no tighter than this level.
fn ends_at(level: usize, own: Open) -> bool
    ensures { result ≡ parsing.is_ended_at level own }
{
    match own {
        Open::Before(_) => true,
        Open::After(operator, _) => level <= level_of(operator),
        Open::Paren | Open::Question(_) => false,
        Open::Otherwise(_) => level == 0,
    }
}

/// Writes a step over one that was written, if there is one.
fn write_over(steps: &mut Vec<Step>, place: usize, step: Step)
    ensures { steps.new.items ≡ set steps.old.items place step }
{
    if place < steps.len() {
        steps[place] = step;
    }
}

/// An operator with both its operands written ends.
fn end_infix(steps: &mut Vec<Step>, operator: Infix, mark: usize) -> Result<(), AllocError>
    ensures { OnOk result (steps.new.items ≡ parsing.infix_ended operator mark steps.old.items) }
{
    let count = steps.len().saturating_sub(mark);
    match operator {
        Infix::And => {
            write_over(steps, mark, Step::And(count));
            steps.push(Step::Truth)?;
        }
        Infix::Or => {
            write_over(steps, mark, Step::Or(count));
            steps.push(Step::Truth)?;
        }
        Infix::Binary(operator) => steps.push(Step::Binary(operator))?,
    }
    Ok(())
}

/// What stood open ends, with what stands behind it written.
fn end_open(steps: &mut Vec<Step>, own: Open) -> Result<(), AllocError>
    ensures { OnOk result (steps.new.items ≡ parsing.open_ended own steps.old.items) }
{
    match own {
        Open::Before(operator) => steps.push(Step::Unary(operator))?,
        Open::After(operator, mark) => end_infix(steps, operator, mark)?,
        Open::Otherwise(mark) => {
            let count = steps.len().saturating_sub(mark).saturating_sub(1);
            write_over(steps, mark, Step::Jump(count));
        }
        Open::Paren | Open::Question(_) => {}
    }
    Ok(())
}

/// The innermost that stands open ends, if it does at this level.
fn end_last(steps: &mut Vec<Step>, opened: &mut Vec<Open>, level: usize) -> Result<bool, AllocError>
    ensures { parsing.EndsLast level opened.old.items steps.old.items result opened.new.items steps.new.items }
{
    let Some(last) = opened.pop() else {
        return Ok(false);
    };
    if ends_at(level, last) {
        end_open(steps, last)?;
        Ok(true)
    } else {
        opened.push(last)?;
        Ok(false)
    }
}

/// All that ends at this level does, innermost first.
pub fn close(steps: &mut Vec<Step>, opened: &mut Vec<Open>, level: usize) -> Result<(), AllocError>
    ensures { OnOk result (parsing.Closes level opened.old.items steps.old.items opened.new.items steps.new.items) }
{
    'closing: loop {
        if !end_last(steps, opened, level)? {
            return Ok(());
        }
    }
}

/// An operator behind its left operand opens.
pub fn push_infix(
    steps: &mut Vec<Step>,
    opened: &mut Vec<Open>,
    operator: Infix,
) -> Result<(), AllocError>
    ensures steps { OnOk result (steps.new.items ≡ steps.old.items ++ parsing.infix_hole operator) }
    ensures opened { OnOk result (opened.new.items ≡ opened.old.items ++ Open.After operator (length steps.old.items) ∷ []) }
{
    let mark = steps.len();
    match operator {
        Infix::And => steps.push(Step::And(0))?,
        Infix::Or => steps.push(Step::Or(0))?,
        Infix::Binary(_) => {}
    }
    opened.push(Open::After(operator, mark))?;
    Ok(())
}

/// A condition opens.
pub fn push_question(steps: &mut Vec<Step>, opened: &mut Vec<Open>) -> Result<(), AllocError>
    ensures steps { OnOk result (steps.new.items ≡ steps.old.items ++ Step.Branch 0 ∷ []) }
    ensures opened { OnOk result (opened.new.items ≡ opened.old.items ++ Open.Question (length steps.old.items) ∷ []) }
{
    let mark = steps.len();
    steps.push(Step::Branch(0))?;
    opened.push(Open::Question(mark))?;
    Ok(())
}

/// What is chosen where the condition at this mark is false opens.
pub fn push_otherwise(
    steps: &mut Vec<Step>,
    opened: &mut Vec<Open>,
    mark: usize,
) -> Result<(), AllocError>
    ensures steps { OnOk result (steps.new.items ≡ set steps.old.items mark (Step.Branch (length steps.old.items - mark)) ++ Step.Jump 0 ∷ []) }
    ensures opened { OnOk result (opened.new.items ≡ opened.old.items ++ Open.Otherwise (length steps.old.items) ∷ []) }
{
    let place = steps.len();
    let count = place.saturating_sub(mark);
    write_over(steps, mark, Step::Branch(count));
    steps.push(Step::Jump(0))?;
    opened.push(Open::Otherwise(place))?;
    Ok(())
}
