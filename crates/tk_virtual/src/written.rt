//! A sequence, and how it is written.
ghost use Rattle.std.specs.Prelude.{◌≡◌, IfOk};
ghost use Rattle.tk_sequences.specs.Writing.{canonical};

use std::alloc::{AllocError, Global};
use std::marker::Model;
use tcl_text::Text;
use tk_sequences::Sequence;

/// A sequence that keeps its canonical form, which is compared and told in its place. Contracts see the sequence.
pub struct WrittenSequence {
    sequence: Sequence,
    written: Text,
}

impl Model for WrittenSequence {
    ghost use Rattle.std.specs.Prelude.{◌≡◌};
    ghost use Rattle.tk_sequences.specs.Writing.{canonical};
    ghost use Rattle.tk_sequences.specs.declared.sequence.Sequence.{Sequence};

    ghost Value = { Sequence };

    ghost view = { λ w. w.sequence };

    ghost invariant = { λ w. w.written ≡ canonical w.sequence };
}

impl WrittenSequence {
    /// The sequence, with its canonical form.
    pub(crate) fn new(alloc: Global, sequence: Sequence) -> Result<WrittenSequence, AllocError>
        ensures { IfOk result (λ kept. kept ≡ sequence) }
    {
        let written = sequence.canonical(alloc)?;
        Ok(WrittenSequence { sequence, written })
    }

    /// The sequence itself.
    pub fn sequence(&self) -> &Sequence
        ensures { result.now ≡ self.now }
    {
        &self.sequence
    }

    /// Its canonical form (event(n)).
    pub fn canonical(&self) -> &Text
        ensures { result.now ≡ canonical self.now }
    {
        &self.written
    }

    /// The same sequence.
    pub fn copy(&self, alloc: Global) -> Result<WrittenSequence, AllocError>
        ensures { IfOk result (λ kept. kept ≡ self.now) }
    {
        Ok(WrittenSequence {
            sequence: self.sequence.copy(alloc)?,
            written: self.written.copy()?,
        })
    }
}

/// By hand: a proof sees one call where it is dropped, and not its parts.
impl Drop for WrittenSequence {
    fn drop(self) {
        let WrittenSequence {
            sequence: _,
            written: _,
        } = self;
    }
}
