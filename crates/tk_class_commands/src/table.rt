//! The commands by their names: a row for each.
ghost use Rattle.std.specs.Prelude.{◌≡◌, Some};
ghost use Rattle.tk_class_commands.specs.Table as spec;

use crate::buttons::ButtonRequest;
use std::marker::Model;
use tk_base::Kind;

/// A command that class bindings run, as its row in the table says.
#[derive(Drop)]
pub struct ClassCommand {
    /// Its name, and what the bindings put behind it.
    pub usage: &'static str,
    /// The kind of widgets that it is for.
    pub kind: Kind,
    pub form: ClassForm,
}

impl Model for ClassCommand {
    ghost use Rattle.tk_class_commands.specs.Table.{ClassCommand};

    ghost Value = { ClassCommand };

    ghost view = { λ c. record { usage = c.usage.now; kind = c.kind; form = c.form } };
}

/// What the words behind a command's name are.
#[derive(Clone, Copy)]
pub enum ClassForm {
    /// The path of a widget alone.
    Path(PathForm),
    /// The path of a widget and another word.
    Word(WordForm),
}

/// What a command does that takes a path alone.
#[derive(Clone, Copy)]
pub enum PathForm {
    /// Something is done to a button.
    Button(ButtonRequest),
    /// The character before an entry's cursor is deleted.
    Backspace,
    /// The character behind an entry's cursor is deleted.
    Delete,
    /// The active item of a listbox is selected.
    Choose,
}

/// What a command does with the word behind the path.
#[derive(Clone, Copy)]
pub enum WordForm {
    /// The text of a key is inserted into an entry.
    Typed,
    /// An entry's cursor goes this way.
    Move,
    /// An entry is pressed, so many pixels from its left edge.
    Point,
    /// A listbox is pressed, so many pixels from its upper edge.
    Press,
    /// The pointer is dragged over a listbox, so many pixels from its upper edge.
    Drag,
    /// The active item of a listbox goes a step.
    Step,
}

fn command(kind: Kind, usage: &'static str, form: ClassForm) -> Option<ClassCommand>
    ensures { result ≡ Some (record { usage = usage.now; kind = kind; form = form }) }
{
    Some(ClassCommand { usage, kind, form })
}

fn on_path(kind: Kind, usage: &'static str, form: PathForm) -> Option<ClassCommand>
    ensures { result ≡ Some (spec.on_path kind usage.now form) }
{
    command(kind, usage, ClassForm::Path(form))
}

fn with_word(kind: Kind, usage: &'static str, form: WordForm) -> Option<ClassCommand>
    ensures { result ≡ Some (spec.with_word kind usage.now form) }
{
    command(kind, usage, ClassForm::Word(form))
}

fn on_button(usage: &'static str, request: ButtonRequest) -> Option<ClassCommand>
    ensures { result ≡ Some (spec.on_button usage.now request) }
{
    on_path(Kind::Button, usage, PathForm::Button(request))
}

/// The one of a name.
#[tactic(auto, unfolding(crate::specs::Table::class_command_named))]
pub fn class_command_named(name: &str) -> Option<ClassCommand>
    ensures { result ≡ spec.class_command_named name.now }
{
    match name {
        "tk::ButtonEnter" => on_button("tk::ButtonEnter %W", ButtonRequest::Enter),
        "tk::ButtonLeave" => on_button("tk::ButtonLeave %W", ButtonRequest::Leave),
        "tk::ButtonDown" => on_button("tk::ButtonDown %W", ButtonRequest::Press),
        "tk::ButtonUp" => on_button("tk::ButtonUp %W", ButtonRequest::Release),
        "tk::ButtonInvoke" => on_button("tk::ButtonInvoke %W", ButtonRequest::Invoke),
        "tk::EntryInsert" => with_word(Kind::Entry, "tk::EntryInsert %W %A", WordForm::Typed),
        "tk::EntryBackspace" => on_path(Kind::Entry, "tk::EntryBackspace %W", PathForm::Backspace),
        "tk::EntryDelete" => on_path(Kind::Entry, "tk::EntryDelete %W", PathForm::Delete),
        "tk::EntryMove" => with_word(Kind::Entry, "tk::EntryMove %W left", WordForm::Move),
        "tk::EntryDown" => with_word(Kind::Entry, "tk::EntryDown %W %x", WordForm::Point),
        "tk::ListboxDown" => with_word(Kind::Listbox, "tk::ListboxDown %W %y", WordForm::Press),
        "tk::ListboxDrag" => with_word(Kind::Listbox, "tk::ListboxDrag %W %y", WordForm::Drag),
        "tk::ListboxMove" => with_word(Kind::Listbox, "tk::ListboxMove %W -1", WordForm::Step),
        "tk::ListboxSpace" => on_path(Kind::Listbox, "tk::ListboxSpace %W", PathForm::Choose),
        _ => None,
    }
}
