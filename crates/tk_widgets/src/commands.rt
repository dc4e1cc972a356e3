//! The command of a widget, by its words.
ghost use Rattle.std.specs.Prelude.{◌≡◌, [], ◌∷◌, IfOk, OnErr};
ghost use Rattle.std.specs.Option.{option_copied};
ghost use Rattle.tcl_text.specs.Answers.{Gives, Refuses, answers, bounded};
ghost use Rattle.tk_options.specs.Options.{description};
ghost use Rattle.tk_options.specs.FaultTexts.{fault_text};
ghost use Rattle.tk_widgets.specs.Commands as spec;
ghost use Rattle.tk_widgets.specs.Outcomes.{asked_by};
ghost use Rattle.tk_widgets.specs.Steps.{IsAskedBy};

use crate::entry_commands::{EntryEdit, edit_wanted, entry_words};
use crate::listbox_commands::listbox_words;
use crate::outcome::{WidgetAct, WidgetChange, WidgetRequest, nothing, told};
use crate::widget::{Parts, Widget};
use std::alloc::{AllocError, Global};
use tcl_text::answers::{Refusal, bad_option, copy_answer, limit_reached, wrong_args};
use tcl_text::items::list_answer;
use tcl_text::{Text, TextFault};
use tk_options::{OptionEntry, OptionFault, OptionTable};

impl Widget {
    /// The widget's command, called with the words behind the widget's name: `cget` and `configure` (options(n)), `invoke` of button(n), the
    /// sub-commands of entry(n) and listbox(n). `variable` is the text of the variable that the widget shows, where it can be read. It sets no
    /// variable: where that may be asked for, `ask` and `make` are called with `variable_write` between them. Errors are the texts of 20 to 23
    /// (options), the limit's (4) where the result, an entry's text or the list of a listbox's items would pass 65,536 bytes, and those without
    /// a number (a wrong number of words, a bad option or index); then nothing is changed.
    pub fn command(
        &mut self,
        alloc: Global,
        variable: Option<&Text>,
        words: &[Text],
    ) -> Result<WidgetAct, AllocError>
        ensures told { IfOk result (λ act. spec.commanded words.now (option_copied variable.entry) self.old ≡ record { widget = self.new; act = act }) }
        ensures err { OnErr result (self.new ≡ self.old) }
    {
        match self.ask(alloc, variable, words)? {
            WidgetRequest::Done(act) => Ok(act),
            WidgetRequest::Wants(change) => self.make(alloc, change),
        }
    }

    /// What the words of the command ask for, tested: what is told at once, or a change to be made. Nothing is changed yet.
    pub fn ask(
        &self,
        alloc: Global,
        variable: Option<&Text>,
        words: &[Text],
    ) -> Result<WidgetRequest, AllocError>
        ensures { IfOk result (λ asked. asked ≡ asked_by (spec.wanted words.now (option_copied variable.entry) self.now)) }
    {
        asked(wanted(alloc, self, variable, words))
    }

    /// What a key asks of an entry, tested: its edit, where the entry can be edited and the key edits it. The error's text is the limit's (4) where
    /// the entry's text would pass 65,536 bytes. Nothing is asked of another widget, and nothing is changed yet.
    pub fn ask_edit(
        &self,
        alloc: Global,
        variable: Option<&Text>,
        edit: &EntryEdit,
    ) -> Result<WidgetRequest, AllocError>
        ensures { IfOk result (λ asked. asked ≡ asked_by (spec.edit_asked edit.now (option_copied variable.entry) self.now)) }
    {
        match &self.parts {
            Parts::Entry(entry) => asked(edit_wanted(alloc, &self.options, entry, variable, edit)),
            _ => Ok(nothing()),
        }
    }
}

/// What is asked for, an error too.
fn asked(wanted: Result<WidgetRequest, Refusal>) -> Result<WidgetRequest, AllocError>
    ensures { IfOk result (λ asked. IsAskedBy wanted asked) }
{
    match wanted {
        Ok(asked) => Ok(asked),
        Err(Refusal::Error(text)) => Ok(WidgetRequest::Done(WidgetAct::Fault(text))),
        Err(Refusal::NoMemory) => Err(AllocError),
    }
}

/// What the words ask for.
#[tactic(auto, unfolding(crate::specs::Commands::sub_command))]
fn wanted(
    alloc: Global,
    widget: &Widget,
    variable: Option<&Text>,
    words: &[Text],
) -> Result<WidgetRequest, Refusal>
    ensures { Gives result (spec.wanted words.now (option_copied variable.entry) widget.now) }
{
    let Some((name, words)) = words.split_first() else {
        return wrong_args(alloc, "path option ?arg ..?");
    };
    match name.as_str() {
        "cget" => cget(alloc, &widget.options, words),
        "configure" => configure(alloc, &widget.options, words),
        _ => own_words(alloc, widget, variable, name, words),
    }
}

/// The sub-commands that widgets of one kind alone have.
fn own_words(
    alloc: Global,
    widget: &Widget,
    variable: Option<&Text>,
    name: &Text,
    words: &[Text],
) -> Result<WidgetRequest, Refusal>
    ensures { Gives result (spec.own_words name.now words.now (option_copied variable.entry) widget.now.options widget.now.parts) }
{
    match &widget.parts {
        Parts::Frame => bad_option(alloc, name),
        Parts::Label => bad_option(alloc, name),
        Parts::Button => button_words(alloc, widget, name, words),
        Parts::Entry(entry) => entry_words(alloc, &widget.options, entry, variable, name, words),
        Parts::Listbox(listbox) => listbox_words(alloc, listbox, name, words),
    }
}

/// The sub-command of a button of a name, with the words behind it.
#[tactic(auto, unfolding(crate::specs::Commands::button_words))]
fn button_words(
    alloc: Global,
    button: &Widget,
    name: &Text,
    words: &[Text],
) -> Result<WidgetRequest, Refusal>
    ensures { Gives result (spec.button_words name.now words.now button.now.options) }
{
    match name.as_str() {
        "invoke" => button_invoke(alloc, button, words),
        _ => bad_option(alloc, name),
    }
}

fn button_invoke(alloc: Global, button: &Widget, words: &[Text]) -> Result<WidgetRequest, Refusal>
    ensures { Gives result (spec.button_invoke words.now button.now.options) }
{
    match words {
        [] => match button.invoked() {
            Some(script) => Ok(WidgetRequest::Done(WidgetAct::Script(script.copy()?))),
            None => Ok(nothing()),
        },
        _ => wrong_args(alloc, "path invoke"),
    }
}

fn cget(alloc: Global, options: &OptionTable, words: &[Text]) -> Result<WidgetRequest, Refusal>
    ensures { Gives result (spec.cget words.now options.now) }
{
    match words {
        [option] => match options.cget(option) {
            Ok(value) => Ok(told(value.copy()?)),
            Err(OptionFault::NoMemory) => Err(Refusal::NoMemory),
            Err(fault) => Err(option_refusal(alloc, &fault)),
        },
        _ => wrong_args(alloc, "path cget option"),
    }
}

fn configure(alloc: Global, options: &OptionTable, words: &[Text]) -> Result<WidgetRequest, Refusal>
    ensures { Gives result (spec.configure words.now options.now) }
{
    match words {
        [] => describe_all(alloc, options),
        [option] => describe(alloc, options, option),
        [_first, _second, ..] => set_options(alloc, options, words),
    }
}

/// Options are set.
fn set_options(
    alloc: Global,
    options: &OptionTable,
    words: &[Text],
) -> Result<WidgetRequest, Refusal>
    ensures { Gives result (spec.configure_pairs words.now options.now) }
{
    match options.settings(alloc, words) {
        Ok(all) => Ok(WidgetRequest::Wants(WidgetChange::Configure(all))),
        Err(OptionFault::NoMemory) => Err(Refusal::NoMemory),
        Err(fault) => Err(option_refusal(alloc, &fault)),
    }
}

/// All options are told.
#[tactic(auto, using(crate::proofs::CommandLemmas::long_lists))]
fn describe_all(alloc: Global, options: &OptionTable) -> Result<WidgetRequest, Refusal>
    ensures { Gives result (spec.configure [] options.now) }
{
    match options.describe(alloc) {
        Ok(all) => {
            let text = list_answer(alloc, all.as_slice())?;
            Ok(told(text))
        }
        Err(TextFault::TooLong) => Err(limit_reached(alloc)),
        Err(TextFault::NoMemory) => Err(Refusal::NoMemory),
    }
}

/// One option is told, which is found without a copy of the others.
fn describe(alloc: Global, options: &OptionTable, option: &Text) -> Result<WidgetRequest, Refusal>
    ensures { Gives result (spec.configure (option.now ∷ []) options.now) }
{
    match options.entry(option) {
        Ok(entry) => {
            let text = description_of(alloc, entry)?;
            Ok(told(text))
        }
        Err(OptionFault::NoMemory) => Err(Refusal::NoMemory),
        Err(fault) => Err(option_refusal(alloc, &fault)),
    }
}

/// An option as it is told, or the limit's error.
#[tactic(auto, using(tcl_text::proofs::AnswerLemmas::bounds))]
fn description_of(alloc: Global, entry: &OptionEntry) -> Result<Text, Refusal>
    ensures { Gives result (answers (description entry.now)) }
{
    match entry.description(alloc) {
        Ok(text) => copy_answer(&text),
        Err(TextFault::TooLong) => Err(limit_reached(alloc)),
        Err(TextFault::NoMemory) => Err(Refusal::NoMemory),
    }
}

/// The error of an option, with its text.
fn option_refusal(alloc: Global, fault: &OptionFault) -> Refusal
    ensures { Refuses result (bounded (fault_text fault.now)) }
{
    match fault.message(alloc) {
        Ok(text) => Refusal::Error(text),
        Err(AllocError) => Refusal::NoMemory,
    }
}
