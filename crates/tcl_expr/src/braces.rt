//! A text in braces, where only a backslash before a newline is substituted.
ghost use Rattle.std.specs.Prelude.{◌≡◌, ◌⊎◌, ◌≤◌, ◌<◌, ◌+◌, ◌++◌, length, true, IfOk, IfErr, OnOk, Ok, Err};
ghost use Rattle.tcl_expr.specs.Braces as braces;
ghost use Rattle.tcl_expr.specs.Faults.{no_memory};
ghost use Rattle.tcl_text.specs.Limits.{most_bytes};

use crate::fault::ExprFault;
use std::alloc::{AllocError, Global};
use tcl_words::ParseFault;

/// Where a byte of a text in braces stands.
#[derive(Clone, Copy, Drop)]
pub enum BracePlace {
    Plain,
    /// Behind a backslash.
    Escaped,
    /// At the beginning of a line that goes on from the last.
    Indented,
}

/// Where the next byte stands.
fn place_behind(place: BracePlace, byte: u8) -> BracePlace
    ensures { result ≡ braces.place_behind place byte }
{
    match (place, byte) {
        (BracePlace::Escaped, b'\n') => BracePlace::Indented,
        (BracePlace::Escaped, _) => BracePlace::Plain,
        (BracePlace::Indented, b' ' | b'\t') => BracePlace::Indented,
        (_, b'\\') => BracePlace::Escaped,
        _ => BracePlace::Plain,
    }
}

/// How many braces more are open behind a byte.
fn depth_behind(place: BracePlace, depth: usize, byte: u8) -> usize
    requires { depth < most_bytes }
    ensures depth { result ≡ braces.depth_behind place depth byte }
    ensures most { result ≤ depth + 1 }
{
    match (place, byte) {
        (BracePlace::Escaped, _) => depth,
        (_, b'{') => depth + 1,
        (_, b'}') => depth.saturating_sub(1),
        _ => depth,
    }
}

/// Whether a byte is the brace that closes.
fn closes(place: BracePlace, depth: usize, byte: u8) -> bool
    ensures { result ≡ braces.closes place depth byte }
{
    match place {
        BracePlace::Escaped => false,
        _ => byte == b'}' && depth == 0,
    }
}

/// Adds what a byte stands for.
fn push_byte(bytes: &mut Vec<u8>, place: BracePlace, byte: u8) -> Result<(), AllocError>
    ensures { OnOk result (bytes.new.items ≡ bytes.old.items ++ braces.bytes_of place byte) }
{
    match (place, byte) {
        (BracePlace::Escaped, b'\n') => bytes.push(b' ')?,
        (BracePlace::Escaped, _) => {
            bytes.push(b'\\')?;
            bytes.push(byte)?;
        }
        (BracePlace::Indented, b' ' | b'\t') => {}
        (_, b'\\') => {}
        _ => bytes.push(byte)?,
    }
    Ok(())
}

/// What a text stands for up to the brace that closes, and how many bytes stand before that.
pub fn braced(alloc: Global, text: &[u8]) -> Result<(Vec<u8>, usize), ExprFault>
    requires { length text.now ≤ most_bytes }
    ensures found { IfOk result (λ found. braces.braced BracePlace.Plain 0 text.now ≡ Ok (found.0.items, found.1)) }
    ensures short { IfOk result (λ found. length found.0.items ≤ found.1) }
    ensures within { IfOk result (λ found. found.1 < length text.now) }
    ensures fault { IfErr result (λ fault. (braces.braced BracePlace.Plain 0 text.now ≡ Err fault) ⊎ (fault ≡ no_memory)) }
{
    let mut bytes = Vec::new(alloc);
    let mut place = BracePlace::Plain;
    let mut depth = 0usize;
    let mut count = 0usize;
    let mut left = text;
    while let [byte, behind @ ..] = left {
        if closes(place, depth, *byte) {
            return Ok((bytes, count));
        }
        push_byte(&mut bytes, place, *byte)?;
        depth = depth_behind(place, depth, *byte);
        place = place_behind(place, *byte);
        count += 1;
        left = behind;
    }
    Err(ExprFault::Script(ParseFault::MissingBrace))
}
