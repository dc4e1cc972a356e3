//! What values options take.
ghost use Rattle.std.specs.Prelude.{◌≡◌, ◌≤◌, IfOk, IfSome, Some};
ghost use Rattle.tk_options.specs.Forms.{amount, amount_in, is_word_of, most_amount, word_in, value_in};

use std::alloc::{AllocError, Global};
use tcl_text::Text;

/// The most pixels, columns or lines that an option takes.
const MOST: u64 = 32_767;

/// The values that an option takes.
#[derive(Clone, Copy, Debug, PartialEq, Eq)]
pub enum Form {
    /// So many pixels, columns or lines: an integer from 0 to 32767.
    Amount,
    /// How the border looks (Tk_GetRelief(3)).
    Relief,
    /// Where the contents stand (Tk_GetAnchor(3)).
    Anchor,
    /// Whether a button can be pressed.
    ButtonState,
    /// Whether an entry can be edited.
    EntryState,
    /// How many items of a listbox can be selected.
    SelectMode,
    /// Any text.
    AnyText,
}

/// The number of pixels, columns or lines that a text spells; none where it spells none from 0 to 32767. It takes no memory.
#[tactic(auto, unfolding(crate::specs::Forms::amount_in))]
pub fn amount_in(text: &Text) -> Option<u32>
    ensures value { result ≡ amount_in text.now }
    ensures bound { IfSome result (λ amount. amount ≤ most_amount) }
{
    match text.integer() {
        Ok(number) => amount(number),
        Err(_) => None,
    }
}

/// The number, where it is from 0 to 32767.
fn amount(number: i64) -> Option<u32>
    ensures value { result ≡ amount (Some number) }
    ensures bound { IfSome result (λ amount. amount ≤ most_amount) }
{
    match u64::try_from(number) {
        Ok(amount) if amount <= MOST => Some(amount as u32),
        _ => None,
    }
}

impl Form {
    /// A value as it is kept: an amount in decimal, one of the words of the form, any text. None where the text is no such value.
    pub(crate) fn value_in(self, alloc: Global, text: &Text) -> Result<Option<Text>, AllocError>
        ensures { IfOk result (λ value. value ≡ value_in self text.now) }
    {
        match self {
            Form::Amount => amount_value(alloc, text),
            Form::AnyText => Ok(Some(text.copy()?)),
            words => word_value(words, text),
        }
    }

    /// Whether it is one of the words of this form.
    fn has_word(self, text: &str) -> bool
        ensures { result ≡ is_word_of self text.now }
    {
        match self {
            Form::Relief => is_relief(text),
            Form::Anchor => is_anchor(text),
            Form::ButtonState => matches!(text, "normal" | "active" | "disabled"),
            Form::EntryState => matches!(text, "normal" | "disabled" | "readonly"),
            Form::SelectMode => matches!(text, "single" | "browse" | "multiple"),
            Form::Amount | Form::AnyText => false,
        }
    }
}

/// Whether the text is a border's look.
fn is_relief(text: &str) -> bool
    ensures { result ≡ is_word_of Form.Relief text.now }
{
    matches!(
        text,
        "flat" | "raised" | "sunken" | "groove" | "ridge" | "solid"
    )
}

/// Whether the text is a place in a rectangle.
fn is_anchor(text: &str) -> bool
    ensures { result ≡ is_word_of Form.Anchor text.now }
{
    matches!(
        text,
        "center" | "n" | "ne" | "e" | "se" | "s" | "sw" | "w" | "nw"
    )
}

/// The number of pixels, columns or lines in decimal.
fn amount_value(alloc: Global, text: &Text) -> Result<Option<Text>, AllocError>
    ensures { IfOk result (λ value. value ≡ value_in Form.Amount text.now) }
{
    match amount_in(text) {
        Some(amount) => Ok(Some(Text::from_integer(alloc, i64::from(amount))?)),
        None => Ok(None),
    }
}

/// The text, where it is one of the words of a form.
fn word_value(words: Form, text: &Text) -> Result<Option<Text>, AllocError>
    ensures { IfOk result (λ value. value ≡ word_in words text.now) }
{
    if words.has_word(text.as_str()) {
        Ok(Some(text.copy()?))
    } else {
        Ok(None)
    }
}
