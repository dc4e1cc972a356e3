//! An expression, read from its bytes.
ghost use Rattle.std.specs.Prelude.{◌≡◌, ◌≤◌, ◌+◌, ◌-◌, ◌^◌, ◌<◌, length, drop, slice_index, IfOk, IfErr, OnOk, [], ◌∷◌, Ok};
ghost use Rattle.std.specs.Str.{IsUtf8};
ghost use Rattle.tcl_text.specs.Readings.{integer_of};
ghost use Rattle.tcl_words.specs.Kinds.{name_bytes};
ghost use Rattle.tcl_expr.specs.Faults.{no_memory};
ghost use Rattle.tcl_expr.specs.Reading as reading;
ghost use Rattle.tcl_expr.specs.Steps.{literal_step};
ghost use Rattle.tcl_expr.specs.Standing as standing;
ghost use Rattle.tcl_expr.specs.Counts as counts;
ghost use Rattle.tcl_expr.specs.Tokens as tokens;
ghost use Rattle.tcl_expr.specs.Braces.{braced as braced_text};
ghost use Rattle.tcl_expr.specs.declared.braces.BracePlace.TheVariants.{Plain};
ghost use Rattle.tcl_text.specs.Limits.{most_bytes, most_nested};

use crate::braces::braced;
use crate::fault::ExprFault;
use crate::open::{Open, close};
use crate::operators::UnaryOperator;
use crate::parser::{Parser, take_link};
use crate::step::Step;
use crate::substitution::{push_piece, push_text};
use crate::tokens::{
    Link, Mark, begins_newline, ends_number, link_at, mark_of, name_bytes, number_length,
};
use std::alloc::{AllocError, Global};
use tcl_text::Text;
use tcl_words::{
    MAX_DEPTH, ParseFault, SourceText, bracket_behind, quotes_behind, substitution_behind,
};

/// The text of some bytes, which are characters.
fn text_of(alloc: Global, bytes: &[u8]) -> Result<Text, AllocError>
    requires short { length bytes.now ≤ most_bytes }
    requires utf8 { IsUtf8 bytes.now }
    ensures { IfOk result (λ text. text ≡ bytes.now) }
{
    Text::of_short(alloc, str::from_utf8(bytes).unwrap())
}

/// A text that spells an integer, kept with that where it is its decimal form.
fn with_number(alloc: Global, spelling: Text, number: i64) -> Result<Text, AllocError>
    ensures { IfOk result (λ text. text ≡ spelling) }
{
    let decimal = Text::from_integer(alloc, number)?;
    if decimal.as_str() == spelling.as_str() {
        Ok(decimal)
    } else {
        Ok(spelling)
    }
}

/// The step of an integer that is spelled so.
fn literal(alloc: Global, spelling: Text) -> Result<Step, AllocError>
    ensures { IfOk result (λ step. step ≡ literal_step spelling (integer_of spelling)) }
{
    match spelling.integer() {
        Ok(number) => Ok(Step::Plain(with_number(alloc, spelling, number)?)),
        Err(_) => Ok(Step::TooLarge),
    }
}

/// An operand of one step.
fn push_operand(parser: &mut Parser, step: Step) -> Result<(), ExprFault>
    ensures ok { OnOk result (standing.HasOperand parser.old parser.new (step ∷ [])) }
    ensures err { IfErr result (λ fault. fault ≡ no_memory) }
{
    parser.steps.push(step)?;
    parser.is_due = false;
    Ok(())
}

/// An operator before its operand.
fn take_sign(parser: &mut Parser, operator: UnaryOperator) -> Result<usize, ExprFault>
    ensures { standing.Takes parser.old result parser.new (λ before. reading.at_sign operator before) }
{
    parser.opened.push(Open::Before(operator))?;
    Ok(0)
}

/// A parenthesis where an operand is due.
fn take_paren(parser: &mut Parser) -> Result<usize, ExprFault>
    ensures { standing.Takes parser.old result parser.new reading.at_paren }
{
    if parser.parens >= MAX_DEPTH {
        return Err(ExprFault::Script(ParseFault::TooLong));
    }
    parser.opened.push(Open::Paren)?;
    parser.parens += 1;
    Ok(0)
}

/// An integer.
fn take_number(alloc: Global, parser: &mut Parser, text: &[u8]) -> Result<usize, ExprFault>
    requires { length text.now ≤ most_bytes }
    ensures { standing.Takes parser.old result parser.new (λ before. reading.at_number (counts.number_length text.now) before text.now) }
{
    let count = number_length(text);
    if !ends_number(&text[count..]) {
        return Err(ExprFault::Syntax);
    }
    let spelling = text_of(alloc, &text[..count])?;
    push_operand(parser, literal(alloc, spelling)?)?;
    Ok(count.saturating_sub(1))
}

/// A boolean word.
fn take_word(alloc: Global, parser: &mut Parser, text: &[u8]) -> Result<usize, ExprFault>
    requires { length text.now ≤ most_bytes }
    ensures { standing.Takes parser.old result parser.new (λ before. reading.at_word (name_bytes text.now) before text.now) }
{
    let count = name_bytes(text);
    let word = text_of(alloc, &text[..count])?;
    match word.boolean() {
        Ok(_) => {
            push_operand(parser, Step::Plain(word))?;
            Ok(count.saturating_sub(1))
        }
        Err(_) => Err(ExprFault::Syntax),
    }
}

/// How many parentheses, brackets and indices may still be opened in one another.
fn room_in(parser: &Parser) -> usize
    ensures room { result ≡ most_nested - parser.now.parens }
    ensures most { result ≤ most_nested }
{
    MAX_DEPTH.saturating_sub(parser.parens)
}

/// A variable or an element, behind its `$`.
fn take_dollar(
    whole: &SourceText,
    parser: &mut Parser,
    source: &str,
    at: usize,
) -> Result<usize, ExprFault>
    requires short { length source.now ≤ most_bytes }
    requires within { at < length source.now }
    requires ascii { slice_index source.now at < 128 }
    ensures { standing.Takes parser.old result parser.new (λ before. reading.at_dollar before (drop (at + 1) source.now)) }
{
    let room = room_in(parser);
    let Some((piece, taken)) = substitution_behind(whole, source, at, room)? else {
        return Err(ExprFault::Syntax);
    };
    push_piece(whole.alloc(), &mut parser.steps, &piece, room)?;
    parser.is_due = false;
    Ok(taken)
}

/// A script in brackets, behind the opening one.
fn take_bracket(
    whole: &SourceText,
    parser: &mut Parser,
    source: &str,
    at: usize,
) -> Result<usize, ExprFault>
    requires short { length source.now ≤ most_bytes }
    requires within { at < length source.now }
    requires ascii { slice_index source.now at < 128 }
    ensures { standing.Takes parser.old result parser.new (λ before. reading.at_bracket before (drop (at + 1) source.now)) }
{
    let room = room_in(parser);
    let (piece, taken) = bracket_behind(whole, source, at, room)?;
    push_piece(whole.alloc(), &mut parser.steps, &piece, room)?;
    parser.is_due = false;
    Ok(taken)
}

/// A text in quotes, behind the opening one.
fn take_quotes(
    whole: &SourceText,
    parser: &mut Parser,
    source: &str,
    at: usize,
) -> Result<usize, ExprFault>
    requires short { length source.now ≤ most_bytes }
    requires within { at < length source.now }
    requires ascii { slice_index source.now at < 128 }
    ensures { standing.Takes parser.old result parser.new (λ before. reading.at_quote before (drop (at + 1) source.now)) }
{
    let room = room_in(parser);
    let (pieces, taken) = quotes_behind(whole, source, at, room)?;
    push_text(whole.alloc(), &mut parser.steps, pieces.as_slice(), room)?;
    parser.is_due = false;
    Ok(taken)
}

/// A text in braces, behind the opening one.
#[tactic(auto, using(crate::proofs::OperandBytes::found_utf8))]
fn take_braces(alloc: Global, parser: &mut Parser, behind: &[u8]) -> Result<usize, ExprFault>
    requires short { length behind.now ≤ most_bytes }
    requires utf8 { IsUtf8 behind.now }
    ensures { standing.Takes parser.old result parser.new (λ before. reading.at_brace before (braced_text Plain 0 behind.now)) }
{
    let (bytes, count) = braced(alloc, behind)?;
    let text = text_of(alloc, bytes.as_slice())?;
    push_operand(parser, Step::Plain(text))?;
    Ok(count + 1)
}

/// What stands where an operand is due.
fn take_operand(
    whole: &SourceText,
    parser: &mut Parser,
    source: &str,
    at: usize,
) -> Result<usize, ExprFault>
    requires short { length source.now ≤ most_bytes }
    requires within { at < length source.now }
    ensures { standing.Takes parser.old result parser.new (standing.operand_at (drop at source.now)) }
{
    let text = &source.as_bytes()[at..];
    let [first, behind @ ..] = text else {
        return Err(ExprFault::Syntax);
    };
    match mark_of(*first) {
        Mark::White => Ok(0),
        Mark::Backslash => {
            if begins_newline(behind) {
                Ok(1)
            } else {
                Err(ExprFault::Syntax)
            }
        }
        Mark::Minus => take_sign(parser, UnaryOperator::Negate),
        Mark::Plus => take_sign(parser, UnaryOperator::Keep),
        Mark::Tilde => take_sign(parser, UnaryOperator::Complement),
        Mark::Bang => take_sign(parser, UnaryOperator::Not),
        Mark::OpenParen => take_paren(parser),
        Mark::Dollar => take_dollar(whole, parser, source, at),
        Mark::OpenBracket => take_bracket(whole, parser, source, at),
        Mark::Quote => take_quotes(whole, parser, source, at),
        Mark::OpenBrace => take_braces(whole.alloc(), parser, behind),
        Mark::Digit => take_number(whole.alloc(), parser, text),
        Mark::Letter => take_word(whole.alloc(), parser, text),
        _ => Err(ExprFault::Syntax),
    }
}

/// What stands behind an operand.
fn take_operator(parser: &mut Parser, text: &[u8]) -> Result<usize, ExprFault>
    ensures { standing.TakesLink parser.old result parser.new text.now }
{
    let [first, behind @ ..] = text else {
        return Err(ExprFault::Syntax);
    };
    match mark_of(*first) {
        Mark::White => Ok(0),
        Mark::Backslash => {
            if begins_newline(behind) {
                Ok(1)
            } else {
                Err(ExprFault::Syntax)
            }
        }
        _ => take_found(parser, link_at(text)),
    }
}

/// An operator that was found behind an operand.
fn take_found(parser: &mut Parser, found: Option<(Link, usize)>) -> Result<usize, ExprFault>
    ensures { standing.TakesFound parser.old result parser.new found }
{
    let Some((link, length)) = found else {
        return Err(ExprFault::Syntax);
    };
    take_link(parser, link)?;
    Ok(length.saturating_sub(1))
}

/// What stands at a place, and how many further bytes it takes.
fn take_token(
    whole: &SourceText,
    parser: &mut Parser,
    source: &str,
    at: usize,
) -> Result<usize, ExprFault>
    requires short { length source.now ≤ most_bytes }
    requires within { at < length source.now }
    ensures { standing.TakesToken parser.old result parser.new (drop at source.now) }
{
    if parser.is_due {
        take_operand(whole, parser, source, at)
    } else {
        take_operator(parser, &source.as_bytes()[at..])
    }
}

/// The fault of a text that ends where this stands open.
fn end_fault(opened: &mut Vec<Open>) -> Option<ExprFault>
    ensures { standing.EndsOpen opened.old.items result }
{
    match opened.pop() {
        None => None,
        Some(Open::Paren) => Some(ExprFault::Script(ParseFault::MissingParen)),
        Some(_) => Some(ExprFault::Syntax),
    }
}

/// The steps of the whole text.
fn finish(parser: Parser) -> Result<Vec<Step>, ExprFault>
    ensures steps { IfOk result (λ steps. standing.Finishes parser steps.items) }
    ensures fault { IfErr result (λ fault. standing.FailsAtEnd parser fault) }
{
    let Parser {
        mut steps,
        mut opened,
        is_due,
        ..
    } = parser;
    if is_due {
        return Err(ExprFault::Syntax);
    }
    close(&mut steps, &mut opened, 0)?;
    match end_fault(&mut opened) {
        None => Ok(steps),
        Some(fault) => Err(fault),
    }
}

/// The steps of a text's tree, in one pass over its bytes.
pub fn read_all(whole: &SourceText, source: &str) -> Result<Vec<Step>, ExprFault>
    requires { length source.now ≤ most_bytes }
    ensures steps { IfOk result (λ steps. reading.compiled_by (reading.tree_reading 0 reading.AtOperand [] source.now) ≡ Ok steps.items) }
    ensures fault { IfErr result (λ fault. standing.IsFaultOrMemory (reading.tree_reading 0 reading.AtOperand [] source.now) fault) }
{
    let mut parser = Parser {
        steps: Vec::new(whole.alloc()),
        opened: Vec::new(whole.alloc()),
        parens: 0,
        is_due: true,
    };
    let mut at = 0;
    while at < source.len() {
        let skip = take_token(whole, &mut parser, source, at)?;
        let left = source.len() - at - 1;
        at = at + 1 + skip.min(left);
    }
    finish(parser)
}
