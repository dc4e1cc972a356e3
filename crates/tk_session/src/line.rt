//! What one line of a session says.

ghost use Rattle.std.specs.Prelude.{◌≡◌, ◌≤◌, length, option_map, IfSome};
ghost use Rattle.std.specs.List.{list_all};
ghost use Rattle.std.specs.Char.{is_ascii_digit};
ghost use Rattle.std.specs.Str.{IsUtf8};
ghost use Rattle.tk_route.specs.Limits.{most_name};
ghost use Rattle.tk_session.specs.Reading.{cut_at, behind, has_plain_front, is_numeral, number_of, number_field, rect_field, rect_of, name_of, utf8_of, fixed_of, refilled_of, budget_of, app_line_of, script_line_of, end_line_of};

use crate::stage::Format;
use memchr::memchr;
use tcl_text::MAX_BYTES;
use tk_base::{Budget, MAX_MOMENT, MAX_PIXELS, Rect};
use tk_route::{MAX_BUDGET, is_name};

/// The largest coordinate, width and height of a rectangle.
const MAX_SIDE: u64 = MAX_PIXELS as u64;

/// As many lines of a script may be empty, with an LF between neighbours.
const MAX_SCRIPT_LINES: u64 = MAX_BYTES as u64 + 1;

/// The values of an `app` line.
#[derive(Drop)]
pub(crate) struct AppLine<'a> {
    pub name: &'a str,
    pub rect: Rect,
    pub budget: Budget,
}

/// Bytes that are known to be UTF-8, as text.
pub(crate) fn as_text(bytes: &[u8]) -> &str
    requires { IsUtf8 bytes.now }
    ensures { result.now ≡ bytes.now }
{
    std::str::from_utf8(bytes).unwrap()
}

/// Bytes as text, where they are UTF-8.
pub(crate) fn utf8(bytes: &[u8]) -> Option<&str>
    ensures { option_map (λ text. text.now) result ≡ utf8_of bytes.now }
{
    std::str::from_utf8(bytes).ok()
}

/// What stands before the first such byte, and what stands after it.
pub(crate) fn cut(text: &[u8], byte: u8) -> Option<(&[u8], &[u8])>
    ensures { option_map (λ parts. (parts.0.now, parts.1.now)) result ≡ cut_at byte text.now }
{
    let at = memchr(byte, text)?;
    Some((&text[..at], &text[at + 1..]))
}

/// The fields after a first one that is this word.
pub(crate) fn fields_behind<'a>(word: &[u8], line: &'a [u8]) -> Option<&'a [u8]>
    ensures { option_map (λ fields. fields.now) result ≡ behind word.now line.now }
{
    let (first, fields) = cut(line, b' ')?;
    if first == word { Some(fields) } else { None }
}

/// Whether a text has something, with no 0 in front of anything.
fn is_plain(text: &[u8]) -> bool
    ensures { result ≡ has_plain_front text.now }
{
    match text {
        [] => false,
        [_] => true,
        [first, ..] => *first != b'0',
    }
}

fn are_digits(text: &[u8]) -> bool
    ensures { result ≡ list_all is_ascii_digit text.now }
{
    text.iter().all(|c| c.is_ascii_digit())
}

/// Whether a text is digits, with no 0 in front.
fn is_decimal(text: &[u8]) -> bool
    ensures { result ≡ is_numeral text.now }
{
    are_digits(text) && is_plain(text)
}

/// The number that a text spells, with neither a sign nor a 0 in front.
pub(crate) fn number(text: &[u8], least: u64, most: u64) -> Option<u64>
    ensures number { result ≡ number_of least most text.now }
    ensures most { IfSome result (λ number. number ≤ most) }
{
    if !is_decimal(text) {
        return None;
    }
    match as_text(text).parse::<u64>() {
        Ok(number) if least <= number && number <= most => Some(number),
        _ => None,
    }
}

#[tactic(auto, unfolding(crate::specs::Reading::number_field))]
pub(crate) fn leading_number(text: &[u8], least: u64, most: u64) -> Option<(u64, &[u8])>
    ensures parts { option_map (λ parts. (parts.0, parts.1.now)) result ≡ number_field least most text.now }
    ensures most { IfSome result (λ parts. parts.0 ≤ most) }
{
    let (field, rest) = cut(text, b' ')?;
    Some((number(field, least, most)?, rest))
}

#[tactic(auto, unfolding(crate::specs::Reading::rect_field))]
fn leading_rect(text: &[u8]) -> Option<(Rect, &[u8])>
    ensures { option_map (λ parts. (parts.0, parts.1.now)) result ≡ rect_field text.now }
{
    let (x, rest) = leading_number(text, 0, MAX_SIDE)?;
    let (y, rest) = leading_number(rest, 0, MAX_SIDE)?;
    let (width, rest) = leading_number(rest, 1, MAX_SIDE)?;
    let (height, rest) = leading_number(rest, 1, MAX_SIDE)?;
    let rect = Rect {
        x: x as u32,
        y: y as u32,
        width: width as u32,
        height: height as u32,
    };
    Some((rect, rest))
}

/// Reads a rectangle that ends the text.
#[tactic(auto, unfolding(crate::specs::Reading::rect_of))]
pub(crate) fn last_rect(text: &[u8]) -> Option<Rect>
    ensures { result ≡ rect_of text.now }
{
    let (x, rest) = leading_number(text, 0, MAX_SIDE)?;
    let (y, rest) = leading_number(rest, 0, MAX_SIDE)?;
    let (width, rest) = leading_number(rest, 1, MAX_SIDE)?;
    let height = number(rest, 1, MAX_SIDE)?;
    Some(Rect {
        x: x as u32,
        y: y as u32,
        width: width as u32,
        height: height as u32,
    })
}

pub(crate) fn name(field: &[u8]) -> Option<&str>
    ensures short { IfSome result (λ name. length name.now ≤ most_name) }
    ensures name { option_map (λ name. name.now) result ≡ name_of field.now }
{
    if !is_name(field) {
        return None;
    }
    Some(as_text(field))
}

fn fixed_budget(field: &[u8]) -> Option<Budget>
    ensures { result ≡ fixed_of field.now }
{
    let total = number(field, 0, MAX_BUDGET)?;
    Some(Budget { total, refill: 0 })
}

fn refilled_budget(total: &[u8], refill: &[u8]) -> Option<Budget>
    ensures { result ≡ refilled_of (total.now, refill.now) }
{
    let total = number(total, 0, MAX_BUDGET)?;
    let refill = number(refill, 0, MAX_BUDGET)?;
    Some(Budget { total, refill })
}

/// Reads `TOTAL`, or in the second format `TOTAL/REFILL` too.
#[tactic(auto, unfolding(crate::specs::Reading::budget_of))]
fn budget(format: Format, field: &[u8]) -> Option<Budget>
    ensures { result ≡ budget_of format field.now }
{
    match format {
        Format::First => fixed_budget(field),
        Format::Second => match cut(field, b'/') {
            None => fixed_budget(field),
            Some((total, refill)) => refilled_budget(total, refill),
        },
    }
}

/// Reads `app NAME X Y WIDTH HEIGHT BUDGET`.
#[tactic(auto, unfolding(crate::specs::Reading::app_line_of))]
pub(crate) fn app_line(format: Format, line: &[u8]) -> Option<AppLine<'_>>
    ensures short { IfSome result (λ app. length app.name.now ≤ most_name) }
    ensures app { option_map (λ app. (app.name.now, app.rect, app.budget)) result ≡ app_line_of format line.now }
{
    let fields = fields_behind(b"app", line)?;
    let (field, rest) = cut(fields, b' ')?;
    let name = name(field)?;
    let (rect, rest) = leading_rect(rest)?;
    let budget = budget(format, rest)?;
    Some(AppLine { name, rect, budget })
}

/// Reads `script COUNT`.
#[tactic(auto, unfolding(crate::specs::Reading::script_line_of))]
pub(crate) fn script_line(line: &[u8]) -> Option<u64>
    ensures { result ≡ script_line_of line.now }
{
    let count = fields_behind(b"script", line)?;
    number(count, 0, MAX_SCRIPT_LINES)
}

/// Reads `MOMENT end`.
#[tactic(auto, unfolding(crate::specs::Reading::end_line_of))]
pub(crate) fn end_line(line: &[u8]) -> Option<u64>
    ensures { result ≡ end_line_of line.now }
{
    let (field, rest) = cut(line, b' ')?;
    let moment = number(field, 0, MAX_MOMENT)?;
    if rest == b"end".as_slice() {
        Some(moment)
    } else {
        None
    }
}
