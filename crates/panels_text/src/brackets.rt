//! The scripts in the brackets of a text.

ghost use Rattle.std.specs.Prelude.{◌≡◌, ◌++◌, map, IfOk, OnOk};
ghost use Rattle.panels_text.specs.Scripts.{begins, behind, brackets_in, closes, depth_of, emptied, ends, next_depth, next_line, opens, passage_of};

use crate::calls::{Body, Form};
use std::alloc::{AllocError, Global};
use std::mem;

/// How far a text is read.
#[derive(Drop)]
struct Brackets {
    /// How many brackets are open.
    depth: usize,
    /// What stands behind the outermost of them.
    inside: Vec<u8>,
    /// The line of the next byte.
    line: usize,
    /// The line of the outermost bracket.
    opened_at: usize,
    is_escaped: bool,
}

impl Brackets {
    ghost use Rattle.std.specs.Prelude.{◌≡◌, IfOk, OnOk};
    ghost use Rattle.panels_text.specs.Scripts.{begins, behind, closes, depth_of, ends, next_depth, opens};

    /// Whether a byte opens a bracket.
    fn opens(&self, byte: u8) -> bool
        ensures { result ≡ opens (depth_of self.now) byte }
    {
        byte == b'[' && !self.is_escaped
    }

    /// Whether it closes one.
    fn closes(&self, byte: u8) -> bool
        ensures { result ≡ closes (depth_of self.now) byte }
    {
        byte == b']' && !self.is_escaped && self.depth > 0
    }

    /// How many brackets are open behind a byte.
    fn depth_behind(&self, byte: u8) -> usize
        ensures { result ≡ next_depth (depth_of self.now) byte }
    {
        if self.opens(byte) {
            return self.depth.saturating_add(1);
        }
        if self.closes(byte) {
            return self.depth.saturating_sub(1);
        }
        self.depth
    }

    /// Reads a byte; answers whether the outermost bracket is closed by it.
    fn take(&mut self, byte: u8) -> Result<bool, AllocError>
        ensures state { OnOk result (depth_of self.new ≡ behind (depth_of self.old) byte) }
        ensures ends { IfOk result (λ is_end. is_end ≡ ends (depth_of self.old) byte) }
    {
        let begins = self.opens(byte) && self.depth == 0;
        let ends = self.closes(byte) && self.depth == 1;
        let depth = self.depth_behind(byte);
        self.line = line_behind(self.line, byte);
        if begins {
            self.opened_at = self.line;
        } else if depth > 0 {
            self.inside.push(byte)?;
        }
        self.depth = depth;
        self.is_escaped = byte == b'\\' && !self.is_escaped;
        Ok(ends)
    }
}

/// The line behind a byte that stands in one.
fn line_behind(line: usize, byte: u8) -> usize
    ensures { result ≡ next_line line byte }
{
    if byte == b'\n' {
        line.saturating_add(1)
    } else {
        line
    }
}

/// Adds the scripts in the outermost brackets of a text that begins in this line.
pub(crate) fn brackets_of(
    alloc: Global,
    text: &[u8],
    line: usize,
    bodies: &mut Vec<Body>,
) -> Result<(), AllocError>
    ensures { OnOk result (map passage_of bodies.new.items ≡ map passage_of bodies.old.items ++ brackets_in line text.now) }
{
    let mut brackets = Brackets {
        depth: 0,
        inside: Vec::new(alloc),
        line,
        opened_at: line,
        is_escaped: false,
    };
    for byte in text {
        if brackets.take(*byte)? {
            let text = mem::replace(&mut brackets.inside, Vec::new(alloc));
            bodies.push(Body {
                text,
                line: brackets.opened_at,
                form: Form::Commands,
            })?;
        }
    }
    Ok(())
}
