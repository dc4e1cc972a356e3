//! The columns of characters.
ghost use Rattle.std.specs.Prelude.{◌≡◌};
ghost use Rattle.std.specs.Str.{chars};
ghost use Rattle.tk_widgets.specs.Columns.{columns, characters_within};
ghost use Rattle.tk_widgets.specs.Walk.{walk};

use tcl_text::characters::split_first_char;
use unicode_width::UnicodeWidthStr;

/// The greatest number of characters, from the first on, whose columns, each by itself, are at most so many together.
pub fn characters_within(text: &str, columns: usize) -> usize
    ensures { result ≡ characters_within columns (chars text.now) }
{
    walk(text, columns)
}

/// The same, by a walk from the first character on.
fn walk(text: &str, columns: usize) -> usize
    ensures { result ≡ walk columns (chars text.now) }
{
    let mut room = columns;
    let mut count = 0;
    let mut rest = text;
    while let Some((first, after)) = split_first_char(rest) {
        let wide = columns_of(first);
        if wide > room {
            return count;
        }
        room -= wide;
        count += 1;
        rest = after;
    }
    count
}

/// The columns of a character as a text of its own.
fn columns_of(character: char) -> usize
    ensures { result ≡ columns character }
{
    let mut bytes = [0; 4];
    character.encode_utf8(&mut bytes).width()
}
