//! How much room a text takes.
ghost use Rattle.std.specs.Prelude.{◌≡◌, ◌+◌, ◌*◌, ◌<◌, ◌≤◌, [], ◌∷◌, length, MatchOption, IfSome};
ghost use Rattle.tk_widgets.specs.Lines.{lines_in, columns_in, widest};

use memchr::memchr;
use unicode_width::UnicodeWidthStr;

/// The columns of the widest line, and how many lines there are. The empty text is one line without columns.
pub fn measure(text: &str) -> (usize, usize)
    ensures columns { result.0 ≡ widest (lines_in text.now) }
    ensures lines { result.1 ≡ length (lines_in text.now) }
    ensures columns_bound { result.0 ≤ 2 * length text.now }
    ensures lines_bound { result.1 ≤ length text.now + 1 }
{
    let mut rest = text;
    let mut columns = 0;
    let mut lines = 1;
    while let Some((line, others)) = cut_line(rest) {
        columns = columns.max(columns_in(line));
        lines += 1;
        rest = others;
    }
    (columns.max(columns_in(rest)), lines)
}

/// The first line and those behind it; nothing where there is only one.
fn cut_line(text: &str) -> Option<(&str, &str)>
    ensures lines { MatchOption result
        (lines_in text.now ≡ text.now ∷ [])
        (λ parts. lines_in text.now ≡ parts.0.now ∷ lines_in parts.1.now) }
    ensures shorter { IfSome result (λ parts. length parts.0.now + length parts.1.now < length text.now) }
{
    let place = memchr(b'\n', text.as_bytes())?;
    Some((&text[..place], &text[place + 1..]))
}

/// The columns of a line.
#[tactic(auto, unfolding(crate::specs::Lines::columns_in))]
fn columns_in(line: &str) -> usize
    ensures value { result ≡ columns_in line.now }
    ensures bound { result ≤ 2 * length line.now }
{
    line.width()
}
