//! Changes of a widget that its command asked for, and what they ask of a variable.
ghost use Rattle.std.specs.Prelude.{◌≡◌, [], Ok, Err, true, IfOk, IfErr, OnOk, OnErr};
ghost use Rattle.std.specs.Option.{option_copied};
ghost use Rattle.tcl_text.specs.Answers.{Gives};
ghost use Rattle.tk_widgets.specs.Listboxes.{activated, deleted, inserted, selected};
ghost use Rattle.tk_options.specs.Options.{last_setting, with_settings};
ghost use Rattle.tk_widgets.specs.Commands as spec;
ghost use Rattle.tk_widgets.specs.declared.widget.Widget.{Widget};

use crate::outcome::{VariableWrite, WidgetAct, WidgetChange};
use crate::widget::{Parts, Widget};
use crate::{Choice, Entry};
use std::alloc::{AllocError, Global};
use tcl_text::answers::{Refusal, limit_reached};
use tcl_text::{Text, TextFault};
use tk_options::{OptionName, Settings};

impl Widget {
    /// Makes a change that this widget was asked for, and answers what its command tells then.
    pub fn make(&mut self, alloc: Global, change: WidgetChange) -> Result<WidgetAct, AllocError>
        ensures told { IfOk result (λ act. spec.made change self.old ≡ record { widget = self.new; act = act }) }
        ensures err { OnErr result (self.new ≡ self.old) }
    {
        let nothing = Text::empty();
        match make_change(alloc, self, change) {
            Ok(()) => Ok(WidgetAct::Answer(nothing)),
            Err(Refusal::Error(text)) => Ok(WidgetAct::Fault(text)),
            Err(Refusal::NoMemory) => Err(AllocError),
        }
    }

    /// The variable that the widget shows, which its `-textvariable` names; none where the name is empty or there is no such option. It takes
    /// no memory.
    pub fn variable(&self) -> Option<&Text>
        ensures { option_copied result ≡ spec.variable_of self.now }
    {
        linked(self.options.value(OptionName::TextVariable)?)
    }

    /// The variable that is to be set before a change is made, and to what; the caller sets it, and makes the change only if that could be done.
    /// An edit of an entry sets its variable. Setting `-textvariable` sets the variable that it names to the widget's own text, as it is once all
    /// options are set, where there is no such variable.
    pub fn variable_write(
        &self,
        alloc: Global,
        change: &WidgetChange,
    ) -> Result<Option<VariableWrite>, AllocError>
        ensures { IfOk result (λ wanted. wanted ≡ spec.variable_write change.now self.now) }
    {
        match change {
            WidgetChange::Edit(edited) => write(&edited.text, false, self.variable()),
            WidgetChange::Configure(all) => self.configure_write(alloc, all),
            _ => Ok(None),
        }
    }

    /// The variable that setting options makes.
    fn configure_write(
        &self,
        alloc: Global,
        all: &Settings,
    ) -> Result<Option<VariableWrite>, AllocError>
        ensures { IfOk result (λ wanted. wanted ≡ spec.write (spec.own_text_after all.now self.now) true
            (spec.linked (last_setting OptionName.TextVariable all.now))) }
    {
        let Some(name) = all.value(OptionName::TextVariable) else {
            return Ok(None);
        };
        let text = self.own_text_after(alloc, all)?;
        write(&text, true, linked(name))
    }

    /// The widget's own text once options are set.
    fn own_text_after(&self, alloc: Global, all: &Settings) -> Result<Text, AllocError>
        ensures { IfOk result (λ text. text ≡ spec.own_text_after all.now self.now) }
    {
        if let Parts::Entry(entry) = &self.parts {
            return entry.text.copy();
        }
        match all
            .value(OptionName::Text)
            .or(self.options.value(OptionName::Text))
        {
            Some(text) => text.copy(),
            None => Ok(Text::empty()),
        }
    }
}

/// The name of a variable; the empty one is that of none.
fn linked(name: &Text) -> Option<&Text>
    ensures { option_copied result ≡ spec.linked (Some name.now) }
{
    if name.as_str().is_empty() {
        None
    } else {
        Some(name)
    }
}

/// What is to be written into a variable, if there is one.
fn write(
    text: &Text,
    absent_only: bool,
    name: Option<&Text>,
) -> Result<Option<VariableWrite>, AllocError>
    ensures { IfOk result (λ wanted. wanted ≡ spec.write text.now absent_only (option_copied name.entry)) }
{
    match name {
        Some(name) => Ok(Some(VariableWrite {
            name: name.copy()?,
            text: text.copy()?,
            absent_only,
        })),
        None => Ok(None),
    }
}

/// Makes a change.
fn make_change(alloc: Global, widget: &mut Widget, change: WidgetChange) -> Result<(), Refusal>
    ensures ok { OnOk result (spec.with_change change widget.old ≡ Ok widget.new) }
    ensures refused { IfErr result (λ refusal. Gives {T = Widget} (Err refusal) (spec.with_change change widget.old)) }
    ensures err { OnErr result (widget.new ≡ widget.old) }
{
    match change {
        WidgetChange::Configure(all) => widget.options.set_all(all),
        WidgetChange::Edit(edited) => widget.put_entry(edited),
        WidgetChange::PutCursor(at) => widget.put_cursor(at),
        WidgetChange::InsertItems { at, items } => insert_items(
            alloc,
            widget,
            at,
            items.as_slice(),
        )?,
        WidgetChange::DeleteItems { from, to } => widget.delete_items(alloc, from, to)?,
        WidgetChange::Activate(place) => widget.activate(place),
        WidgetChange::Select(how) => widget.select(how),
    }
    Ok(())
}

/// Inserts items into a listbox.
#[tactic(auto, using(crate::proofs::CommandLemmas::lists_within))]
fn insert_items(
    alloc: Global,
    widget: &mut Widget,
    at: usize,
    items: &[Text],
) -> Result<(), Refusal>
    ensures ok { OnOk result (spec.within_list (spec.with_listbox (inserted at items.now) widget.old) ≡ Ok widget.new) }
    ensures refused { IfErr result (λ refusal. Gives {T = Widget} (Err refusal)
        (spec.within_list (spec.with_listbox (inserted at items.now) widget.old))) }
    ensures err { OnErr result (widget.new ≡ widget.old) }
{
    if let Parts::Listbox(listbox) = &mut widget.parts {
        match listbox.insert(alloc, at, items) {
            Ok(()) => {}
            Err(TextFault::TooLong) => return Err(limit_reached(alloc)),
            Err(TextFault::NoMemory) => return Err(Refusal::NoMemory),
        }
    }
    Ok(())
}

impl Widget {
    /// Puts an edited text with its cursor in the place of an entry's.
    fn put_entry(&mut self, edited: Entry)
        ensures { self.new ≡ spec.with_entry (λ _. edited) self.old }
    {
        if let Parts::Entry(entry) = &mut self.parts {
            *entry = edited;
        }
    }

    /// Puts an entry's cursor behind so many characters.
    fn put_cursor(&mut self, at: usize)
        ensures { self.new ≡ spec.with_entry (λ entry. record entry { cursor = at }) self.old }
    {
        if let Parts::Entry(entry) = &mut self.parts {
            entry.put_cursor(at);
        }
    }

    /// Deletes the items of a listbox from a place on and before another.
    fn delete_items(&mut self, alloc: Global, from: usize, to: usize) -> Result<(), AllocError>
        ensures ok { OnOk result (self.new ≡ spec.with_listbox (deleted from to) self.old) }
        ensures err { OnErr result (self.new ≡ self.old) }
    {
        if let Parts::Listbox(listbox) = &mut self.parts {
            listbox.delete(alloc, from, to)?;
        }
        Ok(())
    }

    /// Makes an item of a listbox active.
    fn activate(&mut self, place: usize)
        ensures { self.new ≡ spec.with_listbox (activated place) self.old }
    {
        if let Parts::Listbox(listbox) = &mut self.parts {
            listbox.activate(place);
        }
    }

    /// Changes the selection of a listbox.
    fn select(&mut self, how: Choice)
        ensures { self.new ≡ spec.with_listbox (selected how) self.old }
    {
        if let Parts::Listbox(listbox) = &mut self.parts {
            listbox.select(how);
        }
    }
}
