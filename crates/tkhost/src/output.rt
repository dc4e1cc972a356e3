ghost use Rattle.std.specs.Prelude.{OnOk, OnErr};
ghost use Rattle.std.specs.Io.KnownBytes.{Appends};
ghost use Rattle.tkhost.specs.Output.{AppendsFront};

use std::io::Write;
use thiserror::Error;

/// The writer failed or took nothing.
#[derive(Clone, Copy, Debug, PartialEq, Eq, Drop, Error)]
#[error("write fault")]
pub struct WriteFault;

/// Writes a whole text by calls of `write`. An error or a count of 0 ends it, and what went out is then a front of the text.
pub fn write_whole<W: Write>(writer: &mut W, text: &[u8]) -> Result<(), WriteFault>
    ensures ok { OnOk result (Appends (W.contents writer.old) (W.contents writer.new) text.now) }
    ensures err { OnErr result (AppendsFront (W.contents writer.old) (W.contents writer.new) text.now) }
{
    let mut rest = text;
    while !rest.is_empty() {
        match writer.write(rest) {
            Ok(0) | Err(_) => return Err(WriteFault),
            Ok(count) => rest = &rest[count..],
        }
    }
    Ok(())
}
