//! What the words of a widget's command ask for, and what is told.
ghost use Rattle.std.specs.Prelude.{◌≡◌, Ok};
ghost use Rattle.tk_widgets.specs.Outcomes.{nothing, told};

use crate::{Choice, Entry};
use tcl_text::{Text, TextList};
use tk_options::Settings;

/// What a widget's command answers.
#[derive(Drop)]
pub enum WidgetAct {
    /// The command's result.
    Answer(Text),
    /// The script that it runs, at global level, and whose result is its own.
    Script(Text),
    /// The text of its error.
    Fault(Text),
}

/// What a widget's command asks for.
#[derive(Drop)]
pub enum WidgetRequest {
    /// Nothing is changed, and this is told.
    Done(WidgetAct),
    /// The widget is to be changed; the command's result is empty then.
    Wants(WidgetChange),
}

/// How a widget is to be changed. It is made of the widget as it is, and tested, and is to be made before the widget is changed in another way.
#[derive(Drop)]
pub enum WidgetChange {
    /// Options are set.
    Configure(Settings),
    /// An entry's text is edited, and becomes this one with this cursor.
    Edit(Entry),
    /// An entry's cursor is put behind so many characters.
    PutCursor(usize),
    /// Items are inserted before the one at a place of a listbox, or behind the last.
    InsertItems { at: usize, items: TextList },
    /// The items of a listbox from a place on and before another are deleted.
    DeleteItems { from: usize, to: usize },
    /// The item at a place becomes active, or the last.
    Activate(usize),
    /// The selection of a listbox is changed.
    Select(Choice),
}

/// Nothing is changed, and this is the result.
pub fn told(text: Text) -> WidgetRequest
    ensures { Ok result ≡ told (Ok text) }
{
    WidgetRequest::Done(WidgetAct::Answer(text))
}

/// Nothing is changed, and the result is empty.
pub fn nothing() -> WidgetRequest
    ensures { Ok result ≡ nothing }
{
    told(Text::empty())
}

/// A variable that is to be set before a widget is changed.
#[derive(Drop)]
pub struct VariableWrite {
    /// The name of the variable, which is looked for at global level.
    pub name: Text,
    /// What it is set to.
    pub text: Text,
    /// It is set only where there is no such variable.
    pub absent_only: bool,
}
