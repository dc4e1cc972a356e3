//! The command `bind`.
ghost use Rattle.std.specs.Prelude.{◌≡◌, ◌≢◌, ◌++◌, ◌<◌, length, map, IfOk, IfErr, OnErr, Ok, codes};
ghost use Rattle.std.specs.Option.{option_copied};
ghost use Rattle.tcl_text.specs.Answers.{Gives, answers};
ghost use Rattle.tcl_text.specs.Limits.{most_bytes};
ghost use Rattle.tcl_text.specs.Readings.{list_form};
ghost use Rattle.tk_bind_commands.specs.Bind as spec;
ghost use Rattle.tk_bind_commands.specs.Steps.{IsWithScript, IsWithWord};
ghost use Rattle.tk_patterns.specs.Own.{script_of, sequences_of};
ghost use Rattle.tk_patterns.specs.Shared.{LeavesAll, LeavesOthers, own_of};
ghost use Rattle.tk_sequences.specs.Writing.{canonical};
ghost use Rattle.tk_tree.specs.Shared as windows_of;

use crate::answers::{sequence_in, test_tag};
use std::alloc::{AllocError, Global};
use tcl_text::answers::{Refusal, answered, copy_answer, limit_reached, text_answer, wrong_args};
use tcl_text::items::list_answer;
use tcl_text::lengths::longer;
use tcl_text::message::Answer;
use tcl_text::{Text, TextFault, TextList};
use tk_patterns::{BindFault, BindTable, Sequence};
use tk_tree::Windows;

/// The command `bind tag ?sequence? ?script?` of bind(n), with the words behind its name. A tag alone lists its sequences in their canonical
/// form, in the order of registration; a sequence too tells the script; a script binds it, where the empty script takes the binding out and one
/// behind a `+` comes behind what is there and a newline. Errors are a path that no window has (24), what is no sequence (29, 30), a script or
/// an answer past 65,536 bytes (4), and a binding more than 4,096 (31); nothing is changed then, nor after want of memory.
#[tactic(auto, unfolding(crate::specs::Bind::bind_words))]
pub fn bind_command(
    alloc: Global,
    windows: &Windows,
    bindings: &mut BindTable,
    slot: usize,
    words: &[Text],
) -> Result<Answer, AllocError>
    ensures own { IfOk result (λ answer. (own_of slot bindings.new, answer)
        ≡ spec.bind_words (windows_of.own_of slot windows.now) words.now (own_of slot bindings.old)) }
    ensures others { LeavesOthers slot bindings.old bindings.new }
    ensures err { OnErr result (LeavesAll bindings.old bindings.new) }
{
    match words {
        [tag] => {
            let answer = told_sequences(alloc, windows, bindings, slot, tag)?;
            Ok(answer)
        }
        [tag, sequence] => {
            let answer = told_script(alloc, windows, bindings, slot, tag, sequence)?;
            Ok(answer)
        }
        [tag, sequence, script] => {
            bind_told(alloc, windows, bindings, slot, tag, sequence, script)
        }
        _ => answered(wrong_args(alloc, "bind tag ?sequence? ?script?")),
    }
}

/// The sequences of a tag, or the text of an error.
fn told_sequences(
    alloc: Global,
    windows: &Windows,
    bindings: &BindTable,
    slot: usize,
    tag: &Text,
) -> Result<Answer, AllocError>
    ensures { IfOk result (λ answer. answer ≡ spec.list_words (windows_of.own_of slot windows.now) tag.now (own_of slot bindings.now)) }
{
    answered(sequences_answer(alloc, windows, bindings, slot, tag))
}

/// The script of a tag for a sequence, or the text of an error.
fn told_script(
    alloc: Global,
    windows: &Windows,
    bindings: &BindTable,
    slot: usize,
    tag: &Text,
    sequence: &Text,
) -> Result<Answer, AllocError>
    ensures { IfOk result (λ answer. answer ≡ spec.script_words (windows_of.own_of slot windows.now) tag.now sequence.now (own_of slot bindings.now)) }
{
    answered(script_answer(alloc, windows, bindings, slot, tag, sequence))
}

/// Binds what a word means to the sequence that another is.
fn bind_told(
    alloc: Global,
    windows: &Windows,
    bindings: &mut BindTable,
    slot: usize,
    tag: &Text,
    sequence: &Text,
    script: &Text,
) -> Result<Answer, AllocError>
    ensures own { IfOk result (λ answer. (own_of slot bindings.new, answer)
        ≡ spec.with_word tag.now (spec.sequence_words (windows_of.own_of slot windows.now) tag.now sequence.now) script.now (own_of slot bindings.old)) }
    ensures others { LeavesOthers slot bindings.old bindings.new }
    ensures err { OnErr result (LeavesAll bindings.old bindings.new) }
{
    let sequence = tested_sequence(alloc, windows, slot, tag, sequence);
    bind_word(alloc, bindings, slot, tag, sequence, script)
}

/// The sequences of a tag.
fn sequences_answer(
    alloc: Global,
    windows: &Windows,
    bindings: &BindTable,
    slot: usize,
    tag: &Text,
) -> Result<Text, Refusal>
    ensures { Gives result (spec.list_words (windows_of.own_of slot windows.now) tag.now (own_of slot bindings.now)) }
{
    let tag = test_tag(alloc, windows, slot, tag)?;
    sequences_listed(alloc, bindings, slot, tag.as_str())
}

/// The sequences of a tag in their canonical form, in the order of registration, or the error of a value past 65,536 bytes (4).
#[tactic(auto, using(tcl_text::proofs::AnswerLemmas::bounds))]
fn sequences_listed(
    alloc: Global,
    bindings: &BindTable,
    slot: usize,
    tag: &str,
) -> Result<Text, Refusal>
    ensures { Gives result (spec.sequences_told tag.now (own_of slot bindings.now)) }
{
    let sequences = bindings.sequences(slot, tag)?;
    match written(alloc, sequences.as_slice()) {
        Ok(list) => list_answer(alloc, list.as_slice()),
        Err(TextFault::TooLong) => Err(limit_reached(alloc)),
        Err(TextFault::NoMemory) => Err(Refusal::NoMemory),
    }
}

/// Sequences in their canonical form. `TooLong` where they are past 65,536 bytes by themselves; the others aren't spelled out then.
fn written(alloc: Global, sequences: &[Sequence]) -> Result<TextList, TextFault>
    ensures ok { IfOk result (λ list. list ≡ map canonical sequences.now) }
    ensures too_long { IfErr result (λ fault. fault ≢ TextFault.NoMemory → most_bytes < length (list_form (map canonical sequences.now))) }
{
    let mut list = TextList::new(alloc);
    let mut sum = 0;
    for sequence in sequences {
        let text = sequence.canonical(alloc)?;
        let Some(more) = longer(sum, text.as_str().len()) else {
            return Err(TextFault::TooLong);
        };
        list.push(text)?;
        sum = more;
    }
    Ok(list)
}

/// The sequence that a word is, where the tag may be one.
fn tested_sequence(
    alloc: Global,
    windows: &Windows,
    slot: usize,
    tag: &Text,
    word: &Text,
) -> Result<Sequence, Refusal>
    ensures { Gives result (spec.sequence_words (windows_of.own_of slot windows.now) tag.now word.now) }
{
    let _tag = test_tag(alloc, windows, slot, tag)?;
    sequence_in(alloc, word)
}

/// The script of a tag for a sequence; the empty text where there is none.
fn script_answer(
    alloc: Global,
    windows: &Windows,
    bindings: &BindTable,
    slot: usize,
    tag: &Text,
    word: &Text,
) -> Result<Text, Refusal>
    ensures { Gives result (spec.script_words (windows_of.own_of slot windows.now) tag.now word.now (own_of slot bindings.now)) }
{
    let sequence = tested_sequence(alloc, windows, slot, tag, word)?;
    let script = script_told(alloc, bindings, slot, tag.as_str(), &sequence)?;
    Ok(script)
}

fn script_told(
    alloc: Global,
    bindings: &BindTable,
    slot: usize,
    tag: &str,
    sequence: &Sequence,
) -> Result<Text, AllocError>
    ensures { IfOk result (λ text. text ≡ spec.script_told tag.now sequence.now (own_of slot bindings.now)) }
{
    match bindings.script(slot, tag, sequence) {
        Some(script) => script.copy(),
        None => Ok(Text::empty()),
    }
}

/// Binds what a word means to a sequence, if it is one.
fn bind_word(
    alloc: Global,
    bindings: &mut BindTable,
    slot: usize,
    tag: &Text,
    sequence: Result<Sequence, Refusal>,
    word: &Text,
) -> Result<Answer, AllocError>
    ensures own { IfOk result (λ answer. IsWithWord tag.now sequence word.now (own_of slot bindings.old)
        (own_of slot bindings.new, answer)) }
    ensures others { LeavesOthers slot bindings.old bindings.new }
    ensures err { OnErr result (LeavesAll bindings.old bindings.new) }
{
    match sequence {
        Ok(sequence) => {
            let script = script_for(alloc, bindings, slot, tag.as_str(), &sequence, word);
            bind_script(alloc, bindings, slot, tag, sequence, script)
        }
        Err(Refusal::Error(text)) => Ok(Err(text)),
        Err(Refusal::NoMemory) => Err(AllocError),
    }
}

/// The script that a word means for a tag and a sequence.
fn script_for(
    alloc: Global,
    bindings: &BindTable,
    slot: usize,
    tag: &str,
    sequence: &Sequence,
    word: &Text,
) -> Result<Text, Refusal>
    ensures { Gives result (answers (spec.script_meant (script_of tag.now sequence.now (own_of slot bindings.now)) word.now)) }
{
    script_meant(alloc, bindings.script(slot, tag, sequence), word)
}

/// The script that a word means: behind a `+` stands what comes behind the script that is there.
fn script_meant(alloc: Global, there: Option<&Text>, word: &Text) -> Result<Text, Refusal>
    ensures { Gives result (answers (spec.script_meant (option_copied there.entry) word.now)) }
{
    match behind_plus(word.as_str()) {
        Some(more) => behind(alloc, there, more),
        None => copy_answer(word),
    }
}

/// What stands behind a `+` in front.
fn behind_plus(word: &str) -> Option<&str>
    ensures { option_copied result ≡ spec.behind_plus word.now }
{
    match word.strip_prefix("+") {
        Some(more) => Some(more),
        None => None,
    }
}

/// What comes behind a script and a newline, or alone.
fn behind(alloc: Global, there: Option<&Text>, more: &str) -> Result<Text, Refusal>
    ensures { Gives result (answers (spec.behind (option_copied there.entry) more.now)) }
{
    match there {
        Some(script) => joined(alloc, script, more),
        None => text_answer(alloc, more),
    }
}

/// A script, a newline and what comes behind.
#[tactic(auto, using(tcl_text::proofs::AnswerLemmas::bounds))]
fn joined(alloc: Global, script: &Text, more: &str) -> Result<Text, Refusal>
    ensures { Gives result (answers (script.now ++ (codes "\n" ++ more.now))) }
{
    let mut string = String::from_str(alloc, script.as_str())?;
    string.push_str("\n")?;
    string.push_str(more)?;
    text_answer(alloc, string.as_str())
}

/// Binds a script to a sequence, if there is one.
fn bind_script(
    alloc: Global,
    bindings: &mut BindTable,
    slot: usize,
    tag: &Text,
    sequence: Sequence,
    script: Result<Text, Refusal>,
) -> Result<Answer, AllocError>
    ensures own { IfOk result (λ answer. IsWithScript tag.now sequence script (own_of slot bindings.old)
        (own_of slot bindings.new, answer)) }
    ensures others { LeavesOthers slot bindings.old bindings.new }
    ensures err { OnErr result (LeavesAll bindings.old bindings.new) }
{
    match script {
        Ok(script) => put(alloc, bindings, slot, tag, sequence, script),
        Err(Refusal::Error(text)) => Ok(Err(text)),
        Err(Refusal::NoMemory) => Err(AllocError),
    }
}

/// Binds a script to a sequence; the empty one takes the binding out.
fn put(
    alloc: Global,
    bindings: &mut BindTable,
    slot: usize,
    tag: &Text,
    sequence: Sequence,
    script: Text,
) -> Result<Answer, AllocError>
    ensures own { IfOk result (λ answer. (own_of slot bindings.new, answer)
        ≡ spec.with_script tag.now sequence (Ok script) (own_of slot bindings.old)) }
    ensures others { LeavesOthers slot bindings.old bindings.new }
    ensures err { OnErr result (LeavesAll bindings.old bindings.new) }
{
    let done = Text::empty();
    if is_empty(script.as_str()) {
        bindings.unbind(slot, tag.as_str(), &sequence);
        return Ok(Ok(done));
    }
    let full = BindFault::Full.message(alloc)?;
    match bindings.bind(slot, tag.copy()?, sequence, script) {
        Ok(()) => Ok(Ok(done)),
        Err(BindFault::Full) => Ok(Err(full)),
        Err(BindFault::NoMemory) => Err(AllocError),
    }
}

fn is_empty(script: &str) -> bool
    ensures { result ≡ spec.is_empty script.now }
{
    script.is_empty()
}
