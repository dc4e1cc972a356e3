//! Texts and numbers in the lines of a section.
ghost use Rattle.std.specs.Prelude.{◌≡◌, ◌++◌, OnOk, decimal};
ghost use Rattle.tk_screen.specs.Fields.{escaped, escaped_byte, escaped_path, field, path_byte};

use itoa::Buffer;
use memchr::memchr3;
use std::alloc::AllocError;

/// Adds a number in decimal.
pub fn push_number(out: &mut Vec<u8>, number: u64) -> Result<(), AllocError>
    ensures { OnOk result (out.new.items ≡ out.old.items ++ decimal number) }
{
    let mut buffer = Buffer::new();
    out.extend_from_slice(buffer.format(number).as_bytes())
}

/// Adds a number after a blank.
pub fn push_field(out: &mut Vec<u8>, number: u64) -> Result<(), AllocError>
    ensures { OnOk result (out.new.items ≡ out.old.items ++ field number) }
{
    out.push(b' ')?;
    push_number(out, number)
}

/// Adds a byte of a text, escaped where it would end the line or be read as an escape.
fn push_escaped_byte(out: &mut Vec<u8>, byte: u8) -> Result<(), AllocError>
    ensures { OnOk result (out.new.items ≡ out.old.items ++ escaped_byte byte) }
{
    match byte {
        b'\\' => out.extend_from_slice(b"\\\\"),
        b'\n' => out.extend_from_slice(b"\\n"),
        b'\r' => out.extend_from_slice(b"\\r"),
        other => Ok(out.push(other)?),
    }
}

/// Adds a text with its backslashes and ends of line escaped.
pub fn push_escaped(out: &mut Vec<u8>, text: &[u8]) -> Result<(), AllocError>
    ensures { OnOk result (out.new.items ≡ out.old.items ++ escaped text.now) }
{
    let mut rest = text;
    while let Some(place) = memchr3(b'\\', b'\n', b'\r', rest) {
        out.extend_from_slice(&rest[..place])?;
        push_escaped_byte(out, rest[place])?;
        rest = &rest[place + 1..];
    }
    out.extend_from_slice(rest)
}

/// Adds a byte of a path, escaped where it is a blank, too.
fn push_path_byte(out: &mut Vec<u8>, byte: u8) -> Result<(), AllocError>
    ensures { OnOk result (out.new.items ≡ out.old.items ++ path_byte byte) }
{
    match byte {
        b' ' => out.extend_from_slice(b"\\s"),
        other => push_escaped_byte(out, other),
    }
}

/// Adds a path, with its blanks escaped, too.
pub fn push_path(out: &mut Vec<u8>, path: &[u8]) -> Result<(), AllocError>
    ensures { OnOk result (out.new.items ≡ out.old.items ++ escaped_path path.now) }
{
    for byte in path {
        push_path_byte(out, *byte)?;
    }
    Ok(())
}
