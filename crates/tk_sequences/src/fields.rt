//! White space, and the fields of a pattern in brackets.
ghost use Rattle.std.specs.Prelude.{◌≡◌, ◌<◌, [], ◌∷◌, length, IfSome, MatchOption};
ghost use Rattle.std.specs.List.{prefix_len, position_or_len};
ghost use Rattle.tcl_text.specs.Backslash as backslash;
ghost use Rattle.tk_sequences.specs.Reading.{behind_white, fields};
ghost use Rattle.tk_sequences.specs.Words.{is_separator};

/// Whether the byte is white space: blank, tab, newline, vertical tab, form feed or carriage return.
pub fn is_white(byte: u8) -> bool
    ensures { result ≡ backslash.is_white byte }
{
    matches!(byte, b' ' | 9..=13)
}

/// How much white space stands in front.
fn white_len(text: &[u8]) -> usize
    ensures { result ≡ prefix_len backslash.is_white text.now }
{
    text.iter().take_while(|byte| is_white(**byte)).count()
}

/// What stands behind the white space in front.
pub fn behind_white(text: &str) -> &str
    ensures { result.now ≡ behind_white text.now }
{
    &text[white_len(text.as_bytes())..]
}

/// Whether the byte stands between fields.
fn is_separator(byte: u8) -> bool
    ensures { result ≡ is_separator byte }
{
    byte == b'-' || is_white(byte)
}

/// How many separators stand in front.
fn separators_len(text: &[u8]) -> usize
    ensures { result ≡ prefix_len is_separator text.now }
{
    text.iter().take_while(|byte| is_separator(**byte)).count()
}

/// How many bytes stand before the first separator.
fn field_len(text: &[u8]) -> usize
    ensures { result ≡ position_or_len is_separator text.now }
{
    text.iter().take_while(|byte| !is_separator(**byte)).count()
}

/// The first field, if there is one, and what stands behind it.
pub fn first_field(text: &str) -> Option<(&str, &str)>
    ensures fields { MatchOption result (fields text.now ≡ []) (λ r. fields text.now ≡ r.0.now ∷ fields r.1.now) }
    ensures shorter { IfSome result (λ r. length r.1.now < length text.now) }
{
    let text = &text[separators_len(text.as_bytes())..];
    let length = field_len(text.as_bytes());
    if length == 0 {
        return None;
    }
    Some((&text[..length], &text[length..]))
}
