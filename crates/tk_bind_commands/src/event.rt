//! The command `event` without `generate`.
ghost use Rattle.std.specs.Prelude.{◌≡◌, IfOk, OnErr, Ok, Err};
ghost use Rattle.tcl_text.specs.Answers.{Gives, answers};
ghost use Rattle.tcl_text.specs.Readings.{list_form};
ghost use Rattle.tk_bind_commands.specs.Event as spec;
ghost use Rattle.tk_bind_commands.specs.Steps.{IsRefusal};
ghost use Rattle.tk_bind_commands.specs.Words.{or_virtual_fault};
ghost use Rattle.tk_sequences.specs.Words.{name_in};
ghost use Rattle.tk_virtual.specs.Virtual.{name_or_fault, written_names};
ghost use Rattle.tk_virtual.specs.Shared.{LeavesOthers, own_of};

use crate::answers::{virtual_refusal, virtual_refused};
use std::alloc::{AllocError, Global};
use tcl_text::answers::{Refusal, answered, bad_option, limit_reached, wrong_args};
use tcl_text::items::list_answer;
use tcl_text::message::Answer;
use tcl_text::{Text, TextFault};
use tk_sequences::VirtualName;
use tk_virtual::{VirtualFault, VirtualTable, name_meant};

/// The command `event` of event(n) in the forms `add`, `delete` and `info`, with the words behind its name. Another word in their place is a bad
/// option here.
#[tactic(auto, unfolding(crate::specs::Event::event_words))]
pub fn event_command(
    alloc: Global,
    virtuals: &mut VirtualTable,
    slot: usize,
    words: &[Text],
) -> Result<Answer, AllocError>
    ensures own { IfOk result (λ answer. (own_of slot virtuals.new, answer) ≡ spec.event_words words.now (own_of slot virtuals.old)) }
    ensures others { LeavesOthers slot virtuals.old virtuals.new }
    ensures err { OnErr result (virtuals.new ≡ virtuals.old) }
{
    let Some((name, words)) = words.split_first() else {
        return answered(wrong_args(alloc, "event option ?arg ..?"));
    };
    match name.as_str() {
        "add" => event_add(alloc, virtuals, slot, words),
        "delete" => event_delete(alloc, virtuals, slot, words),
        "info" => answered(event_info(alloc, virtuals, slot, words)),
        _ => answered(bad_option(alloc, name)),
    }
}

/// `event add <<name>> sequence ?sequence ..?`, with the words behind `add`: adds pairs of the name and each sequence, in order. Errors are a
/// name that is none (33), and of each sequence in turn what is none (29, 30), a virtual event (32), and a pair more than 4,096 (31); none is
/// added then, nor after want of memory.
pub fn event_add(
    alloc: Global,
    virtuals: &mut VirtualTable,
    slot: usize,
    words: &[Text],
) -> Result<Answer, AllocError>
    ensures own { IfOk result (λ answer. (own_of slot virtuals.new, answer) ≡ spec.add_words words.now (own_of slot virtuals.old)) }
    ensures others { LeavesOthers slot virtuals.old virtuals.new }
    ensures err { OnErr result (virtuals.new ≡ virtuals.old) }
{
    match words {
        [name, sequences @ ..] if !sequences.is_empty() => {
            add_sequences(alloc, virtuals, slot, name, sequences)
        }
        _ => answered(wrong_args(alloc, "event add <<name>> sequence ?sequence ..?")),
    }
}

/// Adds the pairs of a name and sequences.
#[tactic(auto, unfolding(crate::specs::Event::added_told))]
fn add_sequences(
    alloc: Global,
    virtuals: &mut VirtualTable,
    slot: usize,
    name: &Text,
    sequences: &[Text],
) -> Result<Answer, AllocError>
    ensures own { IfOk result (λ answer. (own_of slot virtuals.new, answer) ≡ spec.added_told name.now sequences.now (own_of slot virtuals.old)) }
    ensures others { LeavesOthers slot virtuals.old virtuals.new }
    ensures err { OnErr result (virtuals.new ≡ virtuals.old) }
{
    let done = Text::empty();
    match virtuals.add_all(alloc, slot, name, sequences) {
        Ok(()) => Ok(Ok(done)),
        Err(fault) => refused(alloc, &fault),
    }
}

/// `event delete <<name>> ?sequence ..?`, with the words behind `delete`: takes out all pairs of the name, or those with the sequences. Errors are
/// a name that is none (33), and of each sequence in turn what is none (29, 30) and a virtual event (32); none is taken out then, nor after
/// want of memory.
pub fn event_delete(
    alloc: Global,
    virtuals: &mut VirtualTable,
    slot: usize,
    words: &[Text],
) -> Result<Answer, AllocError>
    ensures own { IfOk result (λ answer. (own_of slot virtuals.new, answer) ≡ spec.delete_words words.now (own_of slot virtuals.old)) }
    ensures others { LeavesOthers slot virtuals.old virtuals.new }
    ensures err { OnErr result (virtuals.new ≡ virtuals.old) }
{
    let done = Text::empty();
    match words {
        [name, sequences @ ..] => {
            match virtuals.delete(alloc, slot, name, sequences) {
                Ok(()) => Ok(Ok(done)),
                Err(fault) => refused(alloc, &fault),
            }
        }
        [] => answered(wrong_args(alloc, "event delete <<name>> ?sequence ..?")),
    }
}

/// The text of a refusal, unless memory was refused.
#[tactic(auto, using(crate::proofs::EventLemmas::refusal_told))]
fn refused(alloc: Global, fault: &VirtualFault) -> Result<Answer, AllocError>
    ensures { IfOk result (λ answer. IsRefusal fault.now answer) }
{
    match fault.number() {
        Some(_number) => answered(virtual_refused(alloc, fault)),
        None => Err(AllocError),
    }
}

/// `event info ?<<name>>?`, with the words behind `info`: the names that have pairs, each where it first stands, or the sequences of a name in
/// their canonical form, in the order in which they were added. Errors are a name that is none (33) and an answer past 65,536 bytes (4).
pub fn event_info(
    alloc: Global,
    virtuals: &VirtualTable,
    slot: usize,
    words: &[Text],
) -> Result<Text, Refusal>
    ensures { Gives result (spec.info_words words.now (own_of slot virtuals.now)) }
{
    match words {
        [] => names_answer(alloc, virtuals, slot),
        [name] => sequences_answer(alloc, virtuals, slot, name),
        _ => wrong_args(alloc, "event info ?<<name>>?"),
    }
}

/// The names that have pairs, or the error of a value past 65,536 bytes (4).
#[tactic(auto, using(tcl_text::proofs::AnswerLemmas::bounds))]
fn names_answer(alloc: Global, virtuals: &VirtualTable, slot: usize) -> Result<Text, Refusal>
    ensures { Gives result (answers (list_form (written_names (own_of slot virtuals.now)))) }
{
    match virtuals.info(alloc, slot) {
        Ok(names) => list_answer(alloc, names.as_slice()),
        Err(TextFault::TooLong) => Err(limit_reached(alloc)),
        Err(TextFault::NoMemory) => Err(Refusal::NoMemory),
    }
}

/// The sequences of a name.
fn sequences_answer(
    alloc: Global,
    virtuals: &VirtualTable,
    slot: usize,
    word: &Text,
) -> Result<Text, Refusal>
    ensures { Gives result (spec.sequences_told word.now (own_of slot virtuals.now)) }
{
    let name = name_in(alloc, word)?;
    let sequences = virtuals.sequences_of(alloc, slot, &name)?;
    list_answer(alloc, sequences.as_slice())
}

/// The name that a word has in its brackets, or its error (33).
fn name_in(alloc: Global, word: &Text) -> Result<VirtualName, Refusal>
    ensures { Gives result (or_virtual_fault (name_or_fault word.now (name_in word.now))) }
{
    match name_meant(alloc, word) {
        Ok(name) => Ok(name),
        Err(VirtualFault::NoMemory) => Err(Refusal::NoMemory),
        Err(fault) => Err(virtual_refusal(alloc, &fault)),
    }
}
