//! What stands in front of a text where an operand or an operator is due.
ghost use Rattle.std.specs.Prelude.{◌≡◌, ◌≢◌, ◌≤◌, ◌<◌, ◌+◌, ◌^◌, length, IfOk, IfSome};
ghost use Rattle.tcl_words.specs.Classes.{is_alphabetic, is_name_byte, begins_newline};
ghost use Rattle.tcl_words.specs.Grammar.{begins_name_byte};
ghost use Rattle.tcl_words.specs.Kinds.{name_bytes};
ghost use Rattle.tcl_expr.specs.Counts as counts;
ghost use Rattle.tcl_expr.specs.Tokens as tokens;

use crate::fault::ExprFault;
use crate::operators::{ArithmeticOperator, BinaryOperator, Comparison, Infix, TextOperator};
use tcl_text::{base_named, digit_value};

/// What a byte can begin.
#[derive(Clone, Copy, Drop)]
pub enum Mark {
    White,
    Backslash,
    Plus,
    Minus,
    Star,
    Slash,
    Percent,
    Less,
    Greater,
    Equals,
    Bang,
    Ampersand,
    Bar,
    Caret,
    Tilde,
    Question,
    Colon,
    OpenParen,
    CloseParen,
    Dollar,
    OpenBrace,
    Digit,
    Letter,
    OpenBracket,
    Quote,
    Other,
}

/// What stands between two operands, or behind the last one.
#[derive(Clone, Copy, Drop)]
pub enum Link {
    Infix(Infix),
    Question,
    Colon,
    Close,
}

/// Whether the byte is an ASCII letter.
fn is_alphabetic(byte: u8) -> bool
    ensures { result ≡ is_alphabetic byte }
{
    byte.is_ascii_lowercase() || byte.is_ascii_uppercase()
}

/// Whether the byte is one of a variable's name: a letter, a digit or `_`.
fn is_name_byte(byte: u8) -> bool
    ensures { result ≡ is_name_byte byte }
{
    is_alphabetic(byte) || byte.is_ascii_digit() || byte == b'_'
}

/// What a byte can begin.
#[tactic(auto, unfolding(crate::specs::Tokens::mark_of))]
pub fn mark_of(byte: u8) -> Mark
    ensures mark { result ≡ tokens.mark_of byte }
    ensures ascii { result ≢ Mark.Other → byte < 128 }
{
    match byte {
        b' ' | 9..=13 => Mark::White,
        b'+' => Mark::Plus,
        b'-' => Mark::Minus,
        b'*' => Mark::Star,
        b'/' => Mark::Slash,
        b'%' => Mark::Percent,
        b'<' => Mark::Less,
        b'>' => Mark::Greater,
        b'=' => Mark::Equals,
        b'!' => Mark::Bang,
        b'&' => Mark::Ampersand,
        b'|' => Mark::Bar,
        b'^' => Mark::Caret,
        b'~' => Mark::Tilde,
        b'?' => Mark::Question,
        b':' => Mark::Colon,
        b'(' => Mark::OpenParen,
        b')' => Mark::CloseParen,
        b'$' => Mark::Dollar,
        b'{' => Mark::OpenBrace,
        b'"' => Mark::Quote,
        b'[' => Mark::OpenBracket,
        b'\\' => Mark::Backslash,
        b'0'..=b'9' => Mark::Digit,
        b'a'..=b'z' | b'A'..=b'Z' => Mark::Letter,
        _ => Mark::Other,
    }
}

fn first_mark(text: &[u8]) -> Mark
    ensures { result ≡ tokens.first_mark text.now }
{
    match text {
        [] => Mark::Other,
        [byte, ..] => mark_of(*byte),
    }
}

/// Whether a newline is the first byte.
pub fn begins_newline(text: &[u8]) -> bool
    ensures { result ≡ begins_newline text.now }
{
    text.starts_with(b"\n")
}

fn begins_letter(text: &[u8]) -> bool
    ensures { result ≡ tokens.begins_letter text.now }
{
    match text {
        [] => false,
        [byte, ..] => is_alphabetic(*byte),
    }
}

fn begins_name_byte(text: &[u8]) -> bool
    ensures { result ≡ begins_name_byte text.now }
{
    match text {
        [] => false,
        [byte, ..] => is_name_byte(*byte),
    }
}

/// How many bytes of a name stand in front.
pub fn name_bytes(text: &[u8]) -> usize
    ensures count { result ≡ name_bytes text.now }
    ensures within { result ≤ length text.now }
{
    for (count, byte) in text.iter().enumerate() {
        if !is_name_byte(*byte) {
            return count;
        }
    }
    text.len()
}

fn text_link(operator: TextOperator) -> Link
    ensures { result ≡ tokens.text_link operator }
{
    Link::Infix(Infix::Binary(BinaryOperator::Text(operator)))
}

fn arithmetic_link(operator: ArithmeticOperator) -> Link
    ensures { result ≡ tokens.arithmetic_link operator }
{
    Link::Infix(Infix::Binary(BinaryOperator::Arithmetic(operator)))
}

fn comparison_link(operator: Comparison) -> Link
    ensures { result ≡ tokens.comparison_link operator }
{
    Link::Infix(Infix::Binary(BinaryOperator::Comparison(operator)))
}

/// The operator word in front, and how long it is.
fn word_link(text: &[u8]) -> Option<(Link, usize)>
    ensures { result ≡ tokens.word_link text.now }
{
    if text.starts_with(b"eq") && !begins_letter(&text[2..]) {
        Some((text_link(TextOperator::Same), 2))
    } else if text.starts_with(b"ne") && !begins_letter(&text[2..]) {
        Some((text_link(TextOperator::Different), 2))
    } else if text.starts_with(b"in") && !begins_letter(&text[2..]) {
        Some((text_link(TextOperator::In), 2))
    } else if text.starts_with(b"ni") && !begins_letter(&text[2..]) {
        Some((text_link(TextOperator::NotIn), 2))
    } else {
        None
    }
}

fn equals_link(operator: Comparison, next: Mark) -> Option<(Link, usize)>
    ensures { result ≡ tokens.equals_link operator next }
{
    match next {
        Mark::Equals => Some((comparison_link(operator), 2)),
        _ => None,
    }
}

/// The operator in front of a text, and how long it is: as long as can be.
pub fn link_at(text: &[u8]) -> Option<(Link, usize)>
    ensures { result ≡ tokens.link_at text.now }
{
    let (first, behind) = text.split_first()?;
    let next = first_mark(behind);
    match mark_of(*first) {
        Mark::Plus => Some((arithmetic_link(ArithmeticOperator::Add), 1)),
        Mark::Minus => Some((arithmetic_link(ArithmeticOperator::Subtract), 1)),
        Mark::Star => Some((arithmetic_link(ArithmeticOperator::Multiply), 1)),
        Mark::Slash => Some((arithmetic_link(ArithmeticOperator::Divide), 1)),
        Mark::Percent => Some((arithmetic_link(ArithmeticOperator::Remainder), 1)),
        Mark::Caret => Some((arithmetic_link(ArithmeticOperator::BitXor), 1)),
        Mark::Less => match next {
            Mark::Less => Some((arithmetic_link(ArithmeticOperator::ShiftLeft), 2)),
            Mark::Equals => Some((comparison_link(Comparison::LessOrEqual), 2)),
            _ => Some((comparison_link(Comparison::Less), 1)),
        },
        Mark::Greater => match next {
            Mark::Greater => Some((arithmetic_link(ArithmeticOperator::ShiftRight), 2)),
            Mark::Equals => Some((comparison_link(Comparison::GreaterOrEqual), 2)),
            _ => Some((comparison_link(Comparison::Greater), 1)),
        },
        Mark::Ampersand => match next {
            Mark::Ampersand => Some((Link::Infix(Infix::And), 2)),
            _ => Some((arithmetic_link(ArithmeticOperator::BitAnd), 1)),
        },
        Mark::Bar => match next {
            Mark::Bar => Some((Link::Infix(Infix::Or), 2)),
            _ => Some((arithmetic_link(ArithmeticOperator::BitOr), 1)),
        },
        Mark::Equals => equals_link(Comparison::Same, next),
        Mark::Bang => equals_link(Comparison::Different, next),
        Mark::Question => Some((Link::Question, 1)),
        Mark::Colon => Some((Link::Colon, 1)),
        Mark::CloseParen => Some((Link::Close, 1)),
        Mark::Letter => word_link(text),
        _ => None,
    }
}

/// How many digits of a base stand in front.
fn digits(base: u8, text: &[u8]) -> usize
    ensures count { result ≡ counts.digits base text.now }
    ensures within { result ≤ length text.now }
{
    for (count, byte) in text.iter().enumerate() {
        if digit_value(*byte) >= base {
            return count;
        }
    }
    text.len()
}

/// How long a number is, from the 0 that it begins with on: a base's letter needs a digit of the base behind it.
fn past_zero(text: &[u8]) -> usize
    requires { length text.now < 2 ^ 32 }
    ensures length { result ≡ counts.past_zero text.now }
    ensures within { result ≤ length text.now + 1 }
{
    let [letter, behind @ ..] = text else {
        return 1;
    };
    if let Some(base) = base_named(*letter) {
        let count = digits(base, behind);
        if count > 0 {
            return count + 2;
        }
    }
    digits(8, text) + 1
}

/// How long the number in front of a text is that begins with a digit: as long as can be.
pub fn number_length(text: &[u8]) -> usize
    requires { length text.now < 2 ^ 32 }
    ensures length { result ≡ counts.number_length text.now }
    ensures within { result ≤ length text.now }
{
    match text {
        [] => 0,
        [b'0', behind @ ..] => past_zero(behind),
        _ => digits(10, text),
    }
}

/// Whether a number can end before these bytes: no byte of a name is first, or an operator word.
pub fn ends_number(behind: &[u8]) -> bool
    ensures { result ≡ tokens.ends_number behind.now }
{
    !begins_name_byte(behind) || word_link(behind).is_some()
}
