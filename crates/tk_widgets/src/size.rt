//! The sizes that widgets request, in pixels.
ghost use Rattle.std.specs.Prelude.{◌≡◌, ◌≤◌, [], length, unwrap_or};
ghost use Rattle.std.specs.Option.{option_copied};
ghost use Rattle.tk_options.specs.Options.{value_of};
ghost use Rattle.tk_widgets.specs.Sizes.{text_shown, or_else, frame_size, text_size, entry_size, listbox_size};
ghost use Rattle.tcl_text.specs.Limits.{most_bytes};

use crate::measure::measure;
use tcl_text::Text;
use tk_options::{OptionName, OptionTable};

/// The width of a column.
const COLUMN: u32 = 8;

/// The height of a line.
const LINE: u32 = 16;

/// What a label or a button shows: the variable's text, or else its own.
pub fn text_shown<'a>(variable: Option<&'a Text>, options: &'a OptionTable) -> &'a str
    ensures text { result.now ≡ text_shown (option_copied variable.entry) options.now }
    ensures short { length result.now ≤ most_bytes }
{
    match variable {
        Some(text) => text.as_str(),
        None => own_text(options),
    }
}

/// The value of `-text`.
fn own_text(options: &OptionTable) -> &str
    ensures text { result.now ≡ unwrap_or (value_of OptionName.Text options.now) [] }
    ensures short { length result.now ≤ most_bytes }
{
    match options.value(OptionName::Text) {
        Some(text) => text.as_str(),
        None => "",
    }
}

/// The size of a frame.
pub fn frame_size(options: &OptionTable) -> (u32, u32)
    ensures { result ≡ frame_size options.now }
{
    let width = options.amount(OptionName::Width);
    let height = options.amount(OptionName::Height);
    (width.max(1), height.max(1))
}

/// The size of a label or a button with a text of at most 65,536 bytes.
pub fn text_size(options: &OptionTable, text: &str) -> (u32, u32)
    requires { length text.now ≤ most_bytes }
    ensures { result ≡ text_size options.now text.now }
{
    let (columns, lines) = measure(text);
    let columns = or_else(options.amount(OptionName::Width), columns as u32);
    let lines = or_else(options.amount(OptionName::Height), lines as u32);
    let border = options.amount(OptionName::BorderWidth);
    let across = options.amount(OptionName::PadX) + border;
    let down = options.amount(OptionName::PadY) + border;
    (
        (columns * COLUMN + 2 * across).max(1),
        (lines * LINE + 2 * down).max(1),
    )
}

/// A number that was asked for, or where it is 0 another.
fn or_else(wanted: u32, other: u32) -> u32
    ensures { result ≡ or_else wanted other }
{
    if wanted > 0 { wanted } else { other }
}

/// The size of an entry.
pub fn entry_size(options: &OptionTable) -> (u32, u32)
    ensures { result ≡ entry_size options.now }
{
    let border = 2 * options.amount(OptionName::BorderWidth);
    let width = options.amount(OptionName::Width) * COLUMN;
    ((width + border).max(1), (LINE + border).max(1))
}

/// The size of a listbox.
pub fn listbox_size(options: &OptionTable) -> (u32, u32)
    ensures { result ≡ listbox_size options.now }
{
    let border = 2 * options.amount(OptionName::BorderWidth);
    let width = options.amount(OptionName::Width) * COLUMN;
    let height = options.amount(OptionName::Height) * LINE;
    ((width + border).max(1), (height + border).max(1))
}
