//! For which types of events tags have bindings, told by marks that several tags and types may share.
ghost use Rattle.std.specs.Prelude.{◌≡◌, ◌<◌, ℕ, List, true};
ghost use Rattle.tk_patterns.specs.Marks.{has_mark, last_type, mark_of};

use crate::filing::filing_number;
use tk_sequences::Sequence;

/// How many marks there are.
const MARKS: u64 = 1_024;

/// What stands for the type of virtual events, which no other has.
pub(crate) const VIRTUAL_TYPE: u64 = 0;

/// Each tag and type that has a binding has its mark. Others may share it, and it stays where the bindings go: where there is none, there is nothing to
/// look for.
#[derive(Drop)]
pub struct TypeMarks {
    marks: [bool; 1_024],
}

impl TypeMarks {
    /// No marks.
    pub(crate) fn new() -> TypeMarks {
        TypeMarks {
            marks: [false; 1_024],
        }
    }

    /// Whether a tag and the number of a type have their mark.
    pub(crate) fn has(&self, tag: &str, number: u64) -> bool
        ensures { result ≡ has_mark self.now tag.now number }
    {
        self.marks[mark_of(tag, number)]
    }

    /// A tag and the number of a type have their mark from now on.
    pub(crate) fn mark(&mut self, tag: &str, number: u64)
        ensures own { has_mark self.new tag.now number ≡ true }
        ensures others { (other : List ℕ) (type : ℕ) → has_mark self.old other type ≡ true → has_mark self.new other type ≡ true }
    {
        self.marks[mark_of(tag, number)] = true;
    }
}

/// Where the mark of a tag and the number of a type stands.
fn mark_of(tag: &str, number: u64) -> usize
    ensures place { result ≡ mark_of tag.now number }
    ensures bound { result < 1024 }
{
    (filing_number(tag, number) % MARKS) as usize
}

/// The number of the type of the events that a sequence ends with.
pub(crate) fn last_type(sequence: &Sequence) -> u64
    ensures { result ≡ last_type sequence.now }
{
    match sequence {
        Sequence::Virtual(_) => VIRTUAL_TYPE,
        Sequence::Physical(patterns) => match patterns.as_slice().last() {
            Some(pattern) => u64::from(pattern.kind.number()),
            None => VIRTUAL_TYPE,
        },
    }
}
