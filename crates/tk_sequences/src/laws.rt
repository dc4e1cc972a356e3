//! Laws of sequences, as contracts of functions that do nothing.
ghost use Rattle.std.specs.Prelude.{◌≡◌, ℕ, List, Ok};
ghost use Rattle.tk_sequences.specs.Laws.{SequencesAreRead, FaultsAreTold, IsOneOrOther, IsOneSequence, IsOneFault, IsNotBoth};
ghost use Rattle.tk_sequences.specs.Reading.{read_sequence};
ghost use Rattle.tk_sequences.specs.Writing.{canonical};
ghost use Rattle.tk_sequences.specs.declared.sequence.Sequence.{Sequence};

/// The canonical form of what was read is read as the same sequence.
pub fn canonical_form_is_read_back()
    ensures { (text : List ℕ) (sequence : Sequence) → read_sequence text ≡ Ok sequence → read_sequence (canonical sequence) ≡ Ok sequence }
{}

/// Sequences that were read differ in their canonical forms too.
pub fn canonical_forms_differ()
    ensures { (text other : List ℕ) (sequence another : Sequence) → read_sequence text ≡ Ok sequence → read_sequence other ≡ Ok another
        → canonical sequence ≡ canonical another → sequence ≡ another }
{}

/// A text is read as a sequence exactly where the grammar makes it that sequence (bind(n), EVENT PATTERNS).
pub fn sequences_are_read()
    ensures { SequencesAreRead }
{}

/// A text is refused with a fault exactly where that is its fault by the grammar.
pub fn faults_are_told()
    ensures { FaultsAreTold }
{}

/// By the grammar each text is one sequence or has one fault, and never both.
pub fn one_sequence_or_fault()
    ensures some { IsOneOrOther }
    ensures one_sequence { IsOneSequence }
    ensures one_fault { IsOneFault }
    ensures not_both { IsNotBoth }
{}
