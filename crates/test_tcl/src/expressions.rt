//! The questions of `expressions`: what expressions come to.
//!
//! A question `value EXPRESSION` is answered `=` and the value, or `!` and the number of a fault; `text EXPRESSION` likewise, but with the text of a
//! fault. The value of the variable `NAME` is NAME, that of an element its index, and that of a script `list WORD` the rest of its text.
ghost use Rattle.std.specs.Prelude.{◌≡◌, is_some, IfOk};
ghost use Rattle.tcl_expr.specs.Resuming.{is_waiting, state_after};

use anyhow::{Result, bail};
use asking::{error_of, first_word, result_of};
use std::alloc::Global;
use tcl_expr::{Ask, Eval, EvalFault, ExprFault, parse_expr};
use tcl_text::Text;
use tcl_words::ParseFault;

/// How many things an expression of a table asks at most.
const MAX_ASKS: u32 = 1000;

fn number_of_text(fault: ExprFault) -> &'static str {
    match fault {
        ExprFault::Script(ParseFault::TooLong) => "4",
        ExprFault::Script(ParseFault::MissingBrace) => "5",
        ExprFault::Script(ParseFault::MissingBracket) => "6",
        ExprFault::Script(ParseFault::MissingQuote) => "7",
        ExprFault::Script(ParseFault::ExtraAfterBrace) => "8",
        ExprFault::Script(ParseFault::ExtraAfterQuote) => "9",
        ExprFault::Script(ParseFault::MissingParen) => "10",
        ExprFault::Script(ParseFault::NoMemory) => "out of memory",
        ExprFault::Syntax => "11",
    }
}

fn number_of_value(fault: &EvalFault) -> &'static str {
    match fault {
        EvalFault::NotBoolean(_) => "2",
        EvalFault::BadList(_) => "3",
        EvalFault::TooLong => "4",
        EvalFault::DivideByZero => "12",
        EvalFault::Overflow => "13",
        EvalFault::NotNumber(_) => "14",
        EvalFault::NoMemory => "out of memory",
    }
}

/// What is answered to something that an expression asks; none to its value.
fn answer_to(alloc: Global, ask: &Ask) -> Result<Option<Text>>
    ensures { IfOk result (λ answer. is_some answer ≡ is_waiting (state_after ask.now)) }
{
    let answer = match ask {
        Ask::Variable(name) => name.copy()?,
        Ask::Element(_array, index) => index.copy()?,
        Ask::Command(script) => {
            let script = script.text().as_str();
            let words = script.strip_prefix("list ").unwrap_or(script);
            Text::new(alloc, words)?
        }
        Ask::Value(_) => return Ok(None),
    };
    Ok(Some(answer))
}

/// The fault of a text, by its number or its text.
fn told_of_text(alloc: Global, source: &str, fault: ExprFault, by_text: bool) -> Result<String> {
    if by_text {
        return error_of(alloc, fault.text(alloc, source)?.as_str());
    }
    error_of(alloc, number_of_text(fault))
}

/// The fault of a value, by its number or its text.
fn told_of_value(alloc: Global, fault: &EvalFault, by_text: bool) -> Result<String> {
    if by_text {
        return error_of(alloc, fault.text(alloc)?.as_str());
    }
    error_of(alloc, number_of_value(fault))
}

/// What an expression comes to, as a table has it.
fn told(alloc: Global, source: &str, by_text: bool) -> Result<String> {
    let expr = match parse_expr(alloc, source.as_bytes()) {
        Ok(expr) => expr,
        Err(fault) => return told_of_text(alloc, source, fault, by_text),
    };
    if expr.text().as_str() != source {
        bail!("an expression of another text");
    }
    let mut eval = Eval::new(alloc, expr.copy()?);
    let mut given = None;
    'asking: for _ in 0..MAX_ASKS {
        match eval.resume(given) {
            Ok(Ask::Value(text)) => return result_of(alloc, text.as_str()),
            Ok(ask) => given = answer_to(alloc, &ask)?,
            Err(fault) => return told_of_value(alloc, &fault, by_text),
        }
    }
    bail!("an expression asks too much");
}

/// What a question is answered.
pub fn answer(alloc: Global, question: &str) -> Result<String> {
    match first_word(question) {
        ("value", source) => told(alloc, source, false),
        ("text", source) => told(alloc, source, true),
        _ => bail!("no such question"),
    }
}
