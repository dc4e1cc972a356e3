//! What an application is told of a fault.
ghost use Rattle.std.specs.Prelude.{◌≡◌};
ghost use Rattle.tcl_expr.specs.Messages.{operator_name};

use crate::fault::{EvalFault, ExprFault};
use crate::operators::{ArithmeticOperator, NumberOperator, UnaryOperator};
use std::alloc::{AllocError, Global};
use tcl_text::message::{about, limit, too_large_text};
use tcl_text::{NotBoolean, Text};

/// An operator on integers as it is written.
fn operator_name(operator: NumberOperator) -> &'static str
    ensures { result.now ≡ operator_name operator }
{
    match operator {
        NumberOperator::Unary(UnaryOperator::Negate) => "-",
        NumberOperator::Unary(UnaryOperator::Keep) => "+",
        NumberOperator::Unary(UnaryOperator::Complement) => "~",
        NumberOperator::Unary(UnaryOperator::Not) => "!",
        NumberOperator::Arithmetic(ArithmeticOperator::Multiply) => "*",
        NumberOperator::Arithmetic(ArithmeticOperator::Divide) => "/",
        NumberOperator::Arithmetic(ArithmeticOperator::Remainder) => "%",
        NumberOperator::Arithmetic(ArithmeticOperator::Add) => "+",
        NumberOperator::Arithmetic(ArithmeticOperator::Subtract) => "-",
        NumberOperator::Arithmetic(ArithmeticOperator::ShiftLeft) => "<<",
        NumberOperator::Arithmetic(ArithmeticOperator::ShiftRight) => ">>",
        NumberOperator::Arithmetic(ArithmeticOperator::BitAnd) => "&",
        NumberOperator::Arithmetic(ArithmeticOperator::BitXor) => "^",
        NumberOperator::Arithmetic(ArithmeticOperator::BitOr) => "|",
    }
}

impl ExprFault {
    ghost use Rattle.std.specs.Prelude.{◌≡◌, IfOk};
    ghost use Rattle.tcl_expr.specs.Messages.{parse_message};

    /// The fault of a text as an application is told of it; `source` is that text, which a syntax error (11) tells. A message past
    /// 65,536 bytes is that of the limit (4). Refused memory has no such text: it is empty.
    pub fn text(&self, alloc: Global, source: &str) -> Result<Text, AllocError>
        ensures { IfOk result (λ text. text ≡ parse_message source.now self.now) }
    {
        match self {
            ExprFault::Script(fault) => fault.told(alloc),
            ExprFault::Syntax => about(alloc, "syntax error in expression ", source),
        }
    }
}

impl EvalFault {
    ghost use Rattle.std.specs.Prelude.{◌≡◌, IfOk};
    ghost use Rattle.tcl_expr.specs.Messages.{eval_message};

    /// The fault as an application is told of it. A message past 65,536 bytes is that of the limit (4). Refused memory has no such
    /// text: it is empty.
    pub fn text(&self, alloc: Global) -> Result<Text, AllocError>
        ensures { IfOk result (λ text. text ≡ eval_message self.now) }
    {
        match self {
            EvalFault::NotBoolean(text) => NotBoolean.text(alloc, text.as_str()),
            EvalFault::BadList(fault) => fault.told(alloc),
            EvalFault::TooLong => limit(alloc),
            EvalFault::DivideByZero => Text::of_short(alloc, "divide by zero"),
            EvalFault::Overflow => too_large_text(alloc),
            EvalFault::NotNumber(operator) => about(
                alloc,
                "can't use non-numeric string as operand of ",
                operator_name(*operator),
            ),
            EvalFault::NoMemory => Ok(Text::empty()),
        }
    }
}
