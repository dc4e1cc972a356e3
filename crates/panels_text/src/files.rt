//! Files, and what stands beside a bench.

ghost use Rattle.std.specs.Prelude.{◌≡◌, ◌++◌, codes, map, IfErr, IfOk};
ghost use Rattle.std.specs.String.{string_bytes};
ghost use Rattle.panels_text.specs.Places.{IsFault, IsNoMemory, fault_text};
ghost use Rattle.panels_text.specs.Texts.{folder, lines_of, plain_line, plain_script};

use crate::failure::{Failure, fault};
use crate::texts::{before, behind, joined};
use std::alloc::{AllocError, Global};
use std::fs;
use std::rt::Files;

/// The path of a file that stands beside another.
pub fn file_beside(alloc: Global, file: &str, name: &str) -> Result<String, AllocError>
    ensures { IfOk result (λ path. string_bytes path ≡ folder file.now ++ name.now) }
{
    match file.rsplit_once('/') {
        Some((folder, _)) => format!(in alloc; "{folder}/{name}"),
        None => String::from_str(alloc, name),
    }
}

/// A line without the carriage return that it ends with.
fn plain_line(line: &str) -> &str
    ensures { result.now ≡ plain_line line.now }
{
    before(line, "\r").unwrap_or(line)
}

/// The lines of a text, without the carriage returns that they end with.
fn plain_lines<'a>(alloc: Global, text: &'a str) -> Result<Vec<&'a str>, AllocError>
    ensures { IfOk result (λ lines. map (λ line. line.now) lines.items ≡ map plain_line (lines_of text.now)) }
{
    let mut lines = Vec::new(alloc);
    for line in text.split('\n') {
        lines.push(plain_line(line))?;
    }
    Ok(lines)
}

/// The script of a file: without a byte order mark, with line feeds alone between its lines, and with none behind the last.
pub fn plain_script(alloc: Global, file: &str) -> Result<String, AllocError>
    ensures { IfOk result (λ script. string_bytes script ≡ plain_script file.now) }
{
    let text = behind(file, "\u{feff}").unwrap_or(file);
    let text = before(text, "\n").unwrap_or(text);
    let lines = plain_lines(alloc, text)?;
    joined(alloc, lines.as_slice(), "\n")
}

pub fn write<R: Files>(rt: &R, alloc: Global, file: &str, bytes: &[u8]) -> Result<(), Failure>
    ensures { IfErr result (IsFault (fault_text (codes "panels") 0 (file.now ++ codes " can't be written"))) }
{
    match fs::write(rt, file, bytes) {
        Ok(()) => Ok(()),
        Err(_) => Err(fault(
            alloc,
            "panels",
            0,
            format!(in alloc; "{file} can't be written")?.as_str(),
        )),
    }
}

/// The text of an expected file, where it is there.
pub fn expected<R: Files + AllocGlobal>(
    rt: &R,
    file: &str,
    name: &str,
) -> Result<Option<Vec<u8>>, Failure>
    ensures { IfErr result IsNoMemory }
{
    let path = file_beside(rt.alloc(), file, name)?;
    Ok(fs::read(rt, path.as_str()).ok())
}
