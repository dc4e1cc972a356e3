//! The operators and operands of an expression, read one after another into steps.
ghost use Rattle.std.specs.Prelude.{◌≡◌, ◌++◌, [], ◌∷◌, OnOk};
ghost use Rattle.tcl_expr.specs.Parsing as parsing;
ghost use Rattle.tcl_expr.specs.Standing as standing;

use crate::fault::ExprFault;
use crate::open::{Open, close, level_of, push_infix, push_otherwise, push_question};
use crate::operators::Infix;
use crate::step::Step;
use crate::tokens::Link;
use std::alloc::AllocError;

/// What was read of an expression: the steps, what stands open, how many parentheses of it, and whether an operand is due.
#[derive(Drop)]
pub struct Parser {
    pub steps: Vec<Step>,
    pub opened: Vec<Open>,
    pub parens: usize,
    pub is_due: bool,
}

/// Takes a condition off, if one stands open last.
fn pop_question(opened: &mut Vec<Open>) -> Option<usize>
    ensures { standing.PopsQuestion opened.old.items result opened.new.items }
{
    match opened.pop() {
        Some(Open::Question(mark)) => Some(mark),
        _ => None,
    }
}

/// Takes a parenthesis off, if one stands open last.
fn pop_paren(opened: &mut Vec<Open>) -> bool
    ensures { standing.PopsParen opened.old.items result opened.new.items }
{
    match opened.pop() {
        Some(Open::Paren) => true,
        _ => false,
    }
}

/// An operator behind its left operand.
fn take_infix(parser: &mut Parser, operator: Infix) -> Result<(), ExprFault>
    ensures { standing.Links (Link.Infix operator) parser.old result parser.new }
{
    close(&mut parser.steps, &mut parser.opened, level_of(operator))?;
    push_infix(&mut parser.steps, &mut parser.opened, operator)?;
    parser.is_due = true;
    Ok(())
}

/// A `?` behind a condition.
fn take_question(parser: &mut Parser) -> Result<(), ExprFault>
    ensures { standing.Links Link.Question parser.old result parser.new }
{
    close(&mut parser.steps, &mut parser.opened, 1)?;
    push_question(&mut parser.steps, &mut parser.opened)?;
    parser.is_due = true;
    Ok(())
}

/// A `:` behind what is chosen where the condition is true.
fn take_colon(parser: &mut Parser) -> Result<(), ExprFault>
    ensures { standing.Links Link.Colon parser.old result parser.new }
{
    close(&mut parser.steps, &mut parser.opened, 0)?;
    let Some(mark) = pop_question(&mut parser.opened) else {
        return Err(ExprFault::Syntax);
    };
    push_otherwise(&mut parser.steps, &mut parser.opened, mark)?;
    parser.is_due = true;
    Ok(())
}

/// A `)` behind what stands in parentheses.
fn take_close(parser: &mut Parser) -> Result<(), ExprFault>
    ensures { standing.Links Link.Close parser.old result parser.new }
{
    close(&mut parser.steps, &mut parser.opened, 0)?;
    if !pop_paren(&mut parser.opened) {
        return Err(ExprFault::Syntax);
    }
    parser.parens = parser.parens.saturating_sub(1);
    Ok(())
}

/// What stands behind an operand.
pub fn take_link(parser: &mut Parser, link: Link) -> Result<(), ExprFault>
    ensures { standing.Links link parser.old result parser.new }
{
    match link {
        Link::Infix(operator) => take_infix(parser, operator),
        Link::Question => take_question(parser),
        Link::Colon => take_colon(parser),
        Link::Close => take_close(parser),
    }
}
