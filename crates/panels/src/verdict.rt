//! Whether a panel's section is the expected one.

ghost use Rattle.std.specs.Prelude.{◌≡◌, ◌↔◌, map, IsTrue, IfOk};
ghost use Rattle.panels.specs.Verdict.{compared, sections_in};

use crate::words::{before_last, behind, cut_line, front};
use std::alloc::{AllocError, Global};

/// Whether two texts are the same bytes: nothing is trimmed, and nothing is left out.
pub fn is_same(wanted: &[u8], got: &[u8]) -> bool
    ensures { IsTrue result ↔ (wanted.now ≡ got.now) }
{
    wanted == got
}

/// What is compared of a section: all of it where the steps count, else all but the steps that are left, with the blank before them. An error where memory
/// is refused.
pub fn compared(alloc: Global, section: &[u8], counts_steps: bool) -> Result<Vec<u8>, AllocError>
    ensures { IfOk result (λ text. text.items ≡ compared counts_steps section.now) }
{
    if counts_steps {
        return Vec::from_slice(alloc, section);
    }
    let mut text = Vec::from_slice(alloc, before_last(front(section, b'\n'), b' '))?;
    text.push(b'\n')?;
    text.extend_from_slice(behind(section, b'\n'))?;
    Ok(text)
}

/// The sections of an output, each up to its line `done`.
pub(crate) fn sections_of(alloc: Global, output: &[u8]) -> Result<Vec<Vec<u8>>, AllocError>
    ensures { IfOk result (λ sections. map (λ section. section.items) sections.items ≡ sections_in output.now) }
{
    let mut sections = Vec::new(alloc);
    let mut section = Vec::new(alloc);
    let mut rest = output;
    while !rest.is_empty() {
        let (line, others) = cut_line(rest);
        rest = others;
        section.extend_from_slice(line)?;
        section.push(b'\n')?;
        if line == b"done".as_slice() {
            sections.push(section)?;
            section = Vec::new(alloc);
        }
    }
    Ok(sections)
}
