//! What the words behind a command's name ask for.
ghost use Rattle.std.specs.Prelude.{◌≡◌};
ghost use Rattle.tcl_text.specs.Answers.{Gives};
ghost use Rattle.tk_class_commands.specs.Requests as spec;
ghost use Rattle.tk_screen.specs.Shared.{own_of};

use crate::buttons::ButtonRequest;
use crate::entries::EntryRequest;
use crate::listboxes::ListboxRequest;
use crate::table::{ClassCommand, ClassForm, PathForm, WordForm};
use crate::targets::{integer_in, number_of};
use std::alloc::Global;
use tcl_text::Text;
use tcl_text::answers::{Refusal, bad_option, wrong_args};
use tk_screen::Screen;
use tk_widgets::{EntryEdit, Move, RowStep};

/// What a command asks of a widget.
#[derive(Drop)]
pub enum ClassRequest {
    Button(ButtonRequest),
    Entry(EntryRequest),
    Listbox(ListboxRequest),
}

/// A widget, by the number of its window, and what a command asks of it.
#[derive(Drop)]
pub struct ClassTarget {
    pub number: u64,
    pub request: ClassRequest,
}

/// The widget that the words are for, and what they ask of it.
pub fn target_in(
    alloc: Global,
    screen: &Screen,
    slot: usize,
    command: &ClassCommand,
    words: &[Text],
) -> Result<ClassTarget, Refusal>
    ensures { Gives result (spec.target_in command.now words.now (own_of slot screen.now)) }
{
    match command.form {
        ClassForm::Path(form) => path_target(alloc, screen, slot, command, form, words),
        ClassForm::Word(form) => word_target(alloc, screen, slot, command, form, words),
    }
}

fn path_target(
    alloc: Global,
    screen: &Screen,
    slot: usize,
    command: &ClassCommand,
    form: PathForm,
    words: &[Text],
) -> Result<ClassTarget, Refusal>
    ensures { Gives result (spec.path_target command.now form words.now (own_of slot screen.now)) }
{
    match words {
        [path] => {
            let number = number_of(alloc, screen, slot, command.kind, path)?;
            let request = path_request(form);
            Ok(ClassTarget { number, request })
        }
        _ => wrong_args(alloc, command.usage),
    }
}

fn word_target(
    alloc: Global,
    screen: &Screen,
    slot: usize,
    command: &ClassCommand,
    form: WordForm,
    words: &[Text],
) -> Result<ClassTarget, Refusal>
    ensures { Gives result (spec.word_target command.now form words.now (own_of slot screen.now)) }
{
    match words {
        [path, word] => {
            let number = number_of(alloc, screen, slot, command.kind, path)?;
            let request = word_request(alloc, form, word)?;
            Ok(ClassTarget { number, request })
        }
        _ => wrong_args(alloc, command.usage),
    }
}

/// What a path alone asks for.
fn path_request(form: PathForm) -> ClassRequest
    ensures { result ≡ spec.path_request form }
{
    match form {
        PathForm::Button(request) => ClassRequest::Button(request),
        PathForm::Backspace => ClassRequest::Entry(EntryRequest::Edit(EntryEdit::Backspace)),
        PathForm::Delete => ClassRequest::Entry(EntryRequest::Edit(EntryEdit::DeleteBehind)),
        PathForm::Choose => ClassRequest::Listbox(ListboxRequest::Choose),
    }
}

/// What the word behind a path asks for: the errors of a word that is no integer (1), no way and no step.
fn word_request(alloc: Global, form: WordForm, word: &Text) -> Result<ClassRequest, Refusal>
    ensures { Gives result (spec.word_request form word.now) }
{
    match form {
        WordForm::Typed => {
            let typed = EntryEdit::Typed(word.copy()?);
            Ok(ClassRequest::Entry(EntryRequest::Edit(typed)))
        }
        WordForm::Move => {
            let way = way_in(alloc, word)?;
            Ok(ClassRequest::Entry(EntryRequest::Move(way)))
        }
        WordForm::Point => {
            let x = integer_in(alloc, word)?;
            Ok(ClassRequest::Entry(EntryRequest::Point(x)))
        }
        WordForm::Press => {
            let y = integer_in(alloc, word)?;
            Ok(ClassRequest::Listbox(ListboxRequest::Press(y)))
        }
        WordForm::Drag => {
            let y = integer_in(alloc, word)?;
            Ok(ClassRequest::Listbox(ListboxRequest::Drag(y)))
        }
        WordForm::Step => {
            let step = step_in(alloc, word)?;
            Ok(ClassRequest::Listbox(ListboxRequest::Step(step)))
        }
    }
}

/// The way of the cursor that a word names.
fn way_in(alloc: Global, word: &Text) -> Result<Move, Refusal>
    ensures { Gives result (spec.way_in word.now) }
{
    match Move::named(word.as_str()) {
        Some(way) => Ok(way),
        None => bad_option(alloc, word),
    }
}

/// The step that a word is.
fn step_in(alloc: Global, word: &Text) -> Result<RowStep, Refusal>
    ensures { Gives result (spec.step_in word.now) }
{
    match RowStep::named(word.as_str()) {
        Some(step) => Ok(step),
        None => bad_option(alloc, word),
    }
}
