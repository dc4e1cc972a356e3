//! The questions of `faults`: what faults show where a program prints them.
//!
//! A question `TYPE FAULT` is answered `=` and the text that the fault shows, which is none of those that a script is told.
use anyhow::{Result, bail};
use asking::{first_word, shown};
use std::alloc::Global;
use tcl_expr::{EvalFault, ExprFault, NumberOperator, UnaryOperator};
use tcl_text::{
    ChangeFault, EditFault, LinkFault, ListFault, NotBoolean, NotInteger, ReadFault, SetFault,
    SplitFault, Text, TextFault, UnsetFault,
};
use tcl_words::ParseFault;

/// What texts and lists are refused for.
fn of_text(alloc: Global, fault: &str) -> Result<String> {
    match fault {
        "integer" => shown(alloc, NotInteger),
        "boolean" => shown(alloc, NotBoolean),
        "long" => shown(alloc, TextFault::TooLong),
        "memory" => shown(alloc, TextFault::NoMemory),
        "open-brace" => shown(alloc, ListFault::OpenBrace),
        "open-quote" => shown(alloc, ListFault::OpenQuote),
        "extra" => shown(alloc, ListFault::ExtraCharacters),
        "split" => shown(alloc, SplitFault::BadList(ListFault::OpenBrace)),
        "split-memory" => shown(alloc, SplitFault::NoMemory),
        "edit" => shown(alloc, EditFault::BadList(ListFault::OpenQuote)),
        "edit-long" => shown(alloc, EditFault::TooLong),
        "edit-memory" => shown(alloc, EditFault::NoMemory),
        _ => bail!("no such fault"),
    }
}

/// What scripts are refused for.
fn of_script(alloc: Global, fault: &str) -> Result<String> {
    match fault {
        "long" => shown(alloc, ParseFault::TooLong),
        "brace" => shown(alloc, ParseFault::MissingBrace),
        "bracket" => shown(alloc, ParseFault::MissingBracket),
        "quote" => shown(alloc, ParseFault::MissingQuote),
        "behind-brace" => shown(alloc, ParseFault::ExtraAfterBrace),
        "behind-quote" => shown(alloc, ParseFault::ExtraAfterQuote),
        "parenthesis" => shown(alloc, ParseFault::MissingParen),
        "memory" => shown(alloc, ParseFault::NoMemory),
        _ => bail!("no such fault"),
    }
}

/// What expressions and their values are refused for.
fn of_expression(alloc: Global, fault: &str) -> Result<String> {
    match fault {
        "script" => shown(alloc, ExprFault::Script(ParseFault::MissingBrace)),
        "syntax" => shown(alloc, ExprFault::Syntax),
        "boolean" => shown(alloc, EvalFault::NotBoolean(Text::empty())),
        "list" => shown(alloc, EvalFault::BadList(ListFault::OpenBrace)),
        "long" => shown(alloc, EvalFault::TooLong),
        "zero" => shown(alloc, EvalFault::DivideByZero),
        "overflow" => shown(alloc, EvalFault::Overflow),
        "operand" => shown(
            alloc,
            EvalFault::NotNumber(NumberOperator::Unary(UnaryOperator::Negate)),
        ),
        "memory" => shown(alloc, EvalFault::NoMemory),
        _ => bail!("no such fault"),
    }
}

/// What is refused where a variable is read, set or changed.
fn of_variable(alloc: Global, fault: &str) -> Result<String> {
    match fault {
        "read" => shown(alloc, ReadFault::NoVariable),
        "read-element" => shown(alloc, ReadFault::NoElement),
        "read-array" => shown(alloc, ReadFault::IsArray),
        "read-index" => shown(alloc, ReadFault::NotArray),
        "set-array" => shown(alloc, SetFault::IsArray),
        "set-index" => shown(alloc, SetFault::NotArray),
        "set-full" => shown(alloc, SetFault::Full),
        "set-memory" => shown(alloc, SetFault::NoMemory),
        "change" => shown(alloc, ChangeFault::Unread(ReadFault::NoVariable)),
        "change-long" => shown(alloc, ChangeFault::TooLong),
        "change-list" => shown(alloc, ChangeFault::BadList(ListFault::OpenBrace)),
        "change-memory" => shown(alloc, ChangeFault::NoMemory),
        _ => bail!("no such fault"),
    }
}

/// What is refused where a variable is unset or linked.
fn of_link(alloc: Global, fault: &str) -> Result<String> {
    match fault {
        "unset" => shown(alloc, UnsetFault::NoVariable),
        "unset-element" => shown(alloc, UnsetFault::NoElement),
        "unset-index" => shown(alloc, UnsetFault::NotArray),
        "unset-memory" => shown(alloc, UnsetFault::NoMemory),
        "name" => shown(alloc, LinkFault::BadName),
        "taken" => shown(alloc, LinkFault::Exists),
        "full" => shown(alloc, LinkFault::Full),
        "memory" => shown(alloc, LinkFault::NoMemory),
        _ => bail!("no such fault"),
    }
}

/// What a question is answered.
pub fn answer(alloc: Global, question: &str) -> Result<String> {
    match first_word(question) {
        ("text", fault) => of_text(alloc, fault),
        ("script", fault) => of_script(alloc, fault),
        ("expression", fault) => of_expression(alloc, fault),
        ("variable", fault) => of_variable(alloc, fault),
        ("link", fault) => of_link(alloc, fault),
        _ => bail!("no such question"),
    }
}
