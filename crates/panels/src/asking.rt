//! What is asked of a panel that its section doesn't tell: its application's record is looked at, which changes nothing.

ghost use Rattle.std.specs.Prelude.{◌≡◌, option_and_then, IfOk};
ghost use Rattle.std.specs.Option.{option_copied};
ghost use Rattle.tk_widgets.specs.Commands.{variable_of as variable_named};
ghost use Rattle.tk_app.specs.Inspection.{variable_of};
ghost use Rattle.tk_host.specs.Inspection.{seen};
ghost use Rattle.panels.specs.Asked.{active_told, answer_to, asked, cursor_told, is_alike, option_told, rows_told, text_told, told_by, value_told};

use crate::bench::{Answer, Look, Question};
use std::alloc::{AllocError, Global};
use tcl_text::Text;
use tk_host::{AliasService, Host, OptionFault, Widget, WidgetParts};

/// A text as an answer; without one there is nothing to tell.
fn text_told(text: Option<&Text>) -> Result<Answer, AllocError>
    ensures { IfOk result (λ answer. told_by answer ≡ text_told (option_copied text.entry)) }
{
    match text {
        Some(text) => Ok(Answer::Text(text.copy()?)),
        None => Ok(Answer::Nothing),
    }
}

/// The value of an option, as `cget` tells it.
fn option_told(widget: Option<&Widget>, name: &Text) -> Result<Answer, AllocError>
    ensures { IfOk result (λ answer. told_by answer ≡ option_told name.now (option_copied widget.entry)) }
{
    let Some(widget) = widget else {
        return Ok(Answer::Nothing);
    };
    match widget.options.cget(name) {
        Ok(value) => Ok(Answer::Text(value.copy()?)),
        Err(OptionFault::NoMemory) => Err(AllocError),
        Err(_) => Ok(Answer::Nothing),
    }
}

/// What a widget tells as its value, where its variable has this text.
fn value_told(
    alloc: Global,
    widget: Option<&Widget>,
    variable: Option<&Text>,
) -> Result<Answer, AllocError>
    ensures { IfOk result (λ answer. told_by answer ≡ value_told (option_copied variable.entry) (option_copied widget.entry)) }
{
    let Some(widget) = widget else {
        return Ok(Answer::Nothing);
    };
    match widget.value(alloc, variable)? {
        Some(value) => Ok(Answer::Text(value)),
        None => Ok(Answer::Nothing),
    }
}

/// The rows of a listbox that are selected.
fn rows_told(alloc: Global, widget: Option<&Widget>) -> Result<Answer, AllocError>
    ensures { IfOk result (λ answer. told_by answer ≡ rows_told (option_copied widget.entry)) }
{
    let Some(widget) = widget else {
        return Ok(Answer::Nothing);
    };
    match &widget.parts {
        WidgetParts::Listbox(listbox) => Ok(Answer::Rows(listbox.selection(alloc)?)),
        WidgetParts::Frame | WidgetParts::Label | WidgetParts::Button | WidgetParts::Entry(_) => Ok(
            Answer::Nothing,
        ),
    }
}

/// The active row of a listbox.
fn active_told(widget: Option<&Widget>) -> Answer
    ensures { told_by result ≡ active_told (option_copied widget.entry) }
{
    let Some(widget) = widget else {
        return Answer::Nothing;
    };
    match &widget.parts {
        WidgetParts::Listbox(listbox) => Answer::Number(listbox.active()),
        WidgetParts::Frame | WidgetParts::Label | WidgetParts::Button | WidgetParts::Entry(_) =>
            Answer::Nothing,
    }
}

/// How many characters stand before the cursor of an entry, where its variable has this text.
fn cursor_told(widget: Option<&Widget>, variable: Option<&Text>) -> Answer
    ensures { told_by result ≡ cursor_told (option_copied variable.entry) (option_copied widget.entry) }
{
    let Some(widget) = widget else {
        return Answer::Nothing;
    };
    match &widget.parts {
        WidgetParts::Entry(entry) => Answer::Number(entry.cursor(variable)),
        WidgetParts::Frame | WidgetParts::Label | WidgetParts::Button | WidgetParts::Listbox(_) =>
            Answer::Nothing,
    }
}

/// The text of the variable that a widget shows.
fn variable_shown<'a, M: AliasService>(
    host: &'a Host<M>,
    slot: usize,
    widget: Option<&Widget>,
) -> Option<&'a Text>
    ensures { option_copied result ≡ option_and_then (λ name. seen (variable_of name) slot host.now.held) (option_and_then variable_named (option_copied widget.entry)) }
{
    host.variable(slot, widget?.variable()?)
}

/// What the panel in a slot answers.
pub(crate) fn asked<M: AliasService>(
    alloc: Global,
    host: &Host<M>,
    slot: usize,
    question: &Question,
) -> Result<Answer, AllocError>
    ensures { IfOk result (λ answer. told_by answer ≡ asked slot host.now.held question.now) }
{
    match question {
        Question::Option { window, name } => option_told(host.widget(slot, window.as_str()), name),
        Question::Value(window) => {
            let widget = host.widget(slot, window.as_str());
            value_told(alloc, widget, variable_shown(host, slot, widget))
        }
        Question::Selection(window) => rows_told(alloc, host.widget(slot, window.as_str())),
        Question::Active(window) => Ok(active_told(host.widget(slot, window.as_str()))),
        Question::Cursor(window) => {
            let widget = host.widget(slot, window.as_str());
            Ok(cursor_told(widget, variable_shown(host, slot, widget)))
        }
        Question::Focus => text_told(host.focus(slot)),
        Question::Title => text_told(host.title(slot)),
        Question::Variable(name) => text_told(host.variable(slot, name)),
    }
}

/// What the panel in a slot answers to a look; nothing where that asks nothing.
pub(crate) fn answer_to<M: AliasService>(
    alloc: Global,
    host: &Host<M>,
    slot: usize,
    look: &Look,
) -> Result<Answer, AllocError>
    ensures { IfOk result (λ answer. told_by answer ≡ answer_to slot host.now.held look.now) }
{
    match look {
        Look::Asked {
            question,
            wanted: _,
        } => asked(alloc, host, slot, question),
        Look::Window { .. }
        | Look::Says(_)
        | Look::HasError(_)
        | Look::State(_)
        | Look::LeastSteps(_)
        | Look::Waiting(_) => Ok(Answer::Nothing),
    }
}

/// Whether two answers are the same.
pub(crate) fn is_alike(one: &Answer, other: &Answer) -> bool
    ensures { result ≡ is_alike (told_by one.now) (told_by other.now) }
{
    match (one, other) {
        (Answer::Nothing, Answer::Nothing) => true,
        (Answer::Text(one), Answer::Text(other)) => one.as_str() == other.as_str(),
        (Answer::Number(one), Answer::Number(other)) => *one == *other,
        (Answer::Rows(one), Answer::Rows(other)) => one.as_slice() == other.as_slice(),
        _ => false,
    }
}
