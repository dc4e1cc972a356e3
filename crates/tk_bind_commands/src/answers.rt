//! Answers, and words that are tested.
ghost use Rattle.std.specs.Prelude.{◌≡◌, [], IfOk};
ghost use Rattle.tcl_text.specs.Answers.{Gives, Refuses, bounded, fails};
ghost use Rattle.tk_bind_commands.specs.Words as words_of;
ghost use Rattle.tk_sequences.specs.FaultTexts as sequence_faults;
ghost use Rattle.tk_virtual.specs.Parse.{parsed};
ghost use Rattle.tk_tree.specs.Shared.{own_of};
ghost use Rattle.tk_virtual.specs.FaultTexts as virtual_faults;

use std::alloc::{AllocError, Global};
use tcl_text::Text;
use tcl_text::answers::{Refusal, quoting_error};
use tcl_text::message::Answer;
use tk_dispatch::is_live;
use tk_sequences::{Sequence, SequenceFault};
use tk_tree::{Windows, bad_path};
use tk_virtual::VirtualFault;

/// Tests a binding tag: where it is a path, it must be a window's (24).
pub fn test_tag(alloc: Global, windows: &Windows, slot: usize, tag: &Text) -> Result<Text, Refusal>
    ensures { Gives result (words_of.tag_or_error (own_of slot windows.now) tag.now) }
{
    if is_live(windows, slot, tag.as_str()) {
        Ok(tag.copy()?)
    } else {
        bad_path(alloc, tag)
    }
}

/// The sequence that a word is, or its error (29, 30).
pub fn sequence_in(alloc: Global, word: &Text) -> Result<Sequence, Refusal>
    ensures { Gives result (words_of.or_sequence_fault (parsed word.now)) }
{
    match Sequence::parse(alloc, word) {
        Ok(sequence) => Ok(sequence),
        Err(SequenceFault::NoMemory) => Err(Refusal::NoMemory),
        Err(fault) => Err(sequence_refusal(alloc, &fault)),
    }
}

/// The error of a sequence, with its text.
fn sequence_refusal(alloc: Global, fault: &SequenceFault) -> Refusal
    ensures { Refuses result (bounded (sequence_faults.fault_text fault.now)) }
{
    match fault.message(alloc) {
        Ok(text) => Refusal::Error(text),
        Err(AllocError) => Refusal::NoMemory,
    }
}

/// The error of a virtual event, with its text.
pub fn virtual_refusal(alloc: Global, fault: &VirtualFault) -> Refusal
    ensures { Refuses result (bounded (virtual_faults.fault_text fault.now)) }
{
    match fault.message(alloc) {
        Ok(text) => Refusal::Error(text),
        Err(AllocError) => Refusal::NoMemory,
    }
}

/// The same, as a step that gives nothing.
pub fn virtual_refused<T>(alloc: Global, fault: &VirtualFault) -> Result<T, Refusal>
    ensures { Gives result (fails (virtual_faults.fault_text fault.now)) }
{
    Err(virtual_refusal(alloc, fault))
}
