ghost use Rattle.std.specs.Prelude.{◌≡◌};
ghost use Rattle.std.specs.List.{list_all, list_any};
ghost use Rattle.tcl_text.specs.Backslash as backslash;
ghost use Rattle.tcl_text.specs.Readings as readings;

/// Whether the byte is white space: blank, tab, newline, vertical tab, form feed or carriage return.
#[inline]
pub fn is_white(byte: u8) -> bool
    ensures { result ≡ backslash.is_white byte }
{
    byte == b' ' || (9 <= byte && byte <= 13)
}

/// The bytes behind the white space in front.
#[inline]
pub fn skip_white(text: &[u8]) -> &[u8]
    ensures { result.now ≡ readings.skip_white text.now }
{
    let mut rest = text;
    while let [first, others @ ..] = rest {
        if !is_white(*first) {
            break;
        }
        rest = others;
    }
    rest
}

/// The text behind the white space in front.
pub fn behind_white(text: &str) -> &str
    ensures { result.now ≡ readings.skip_white text.now }
{
    let behind = skip_white(text.as_bytes());
    &text[text.len() - behind.len()..]
}

/// Whether the bytes are white space and nothing else.
pub fn is_blank(text: &[u8]) -> bool
    ensures { result ≡ list_all backslash.is_white text.now }
{
    text.iter().all(|byte| is_white(*byte))
}

/// Whether white space stands among the bytes.
pub fn has_white(text: &[u8]) -> bool
    ensures { result ≡ list_any backslash.is_white text.now }
{
    text.iter().any(|byte| is_white(*byte))
}
