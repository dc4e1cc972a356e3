//! What each kind of widget is: a row for each. Its class is `Kind::class`.
ghost use Rattle.std.specs.Prelude.{◌≡◌, map};
ghost use Rattle.tk_options.specs.Rows as spec;

use crate::form::Form;
use crate::option::OptionName;
use tk_base::Kind;

/// A kind of widget.
#[derive(Clone, Copy)]
pub struct KindRow {
    /// The command that makes one.
    pub command: &'static str,
    /// How that command is called.
    pub usage: &'static str,
    /// Its options, in the order in which they are told.
    pub options: &'static [OptionRow],
    /// What its class binds, in the order in which it is bound.
    pub bindings: &'static [BindingRow],
}

/// An option: its name, what values it takes, and the value of a new widget.
#[derive(Clone, Copy)]
pub struct OptionRow(pub OptionName, pub Form, pub &'static str);

/// A sequence that a class binds, and the script.
#[derive(Clone, Copy)]
pub struct BindingRow(pub &'static str, pub &'static str);

/// The kinds, by the names of their commands.
pub const KINDS: &[Kind] = &[
    Kind::Button,
    Kind::Entry,
    Kind::Frame,
    Kind::Label,
    Kind::Listbox,
];

const FRAME: KindRow = KindRow {
    command: "frame",
    usage: "frame path ?option value ..?",
    options: &[
        OptionRow(OptionName::Background, Form::AnyText, ""),
        OptionRow(OptionName::BorderWidth, Form::Amount, "0"),
        OptionRow(OptionName::Height, Form::Amount, "0"),
        OptionRow(OptionName::Relief, Form::Relief, "flat"),
        OptionRow(OptionName::Width, Form::Amount, "0"),
    ],
    bindings: &[],
};

const LABEL: KindRow = KindRow {
    command: "label",
    usage: "label path ?option value ..?",
    options: &[
        OptionRow(OptionName::Anchor, Form::Anchor, "center"),
        OptionRow(OptionName::Background, Form::AnyText, ""),
        OptionRow(OptionName::BorderWidth, Form::Amount, "1"),
        OptionRow(OptionName::Foreground, Form::AnyText, ""),
        OptionRow(OptionName::Height, Form::Amount, "0"),
        OptionRow(OptionName::PadX, Form::Amount, "1"),
        OptionRow(OptionName::PadY, Form::Amount, "1"),
        OptionRow(OptionName::Relief, Form::Relief, "flat"),
        OptionRow(OptionName::Text, Form::AnyText, ""),
        OptionRow(OptionName::TextVariable, Form::AnyText, ""),
        OptionRow(OptionName::Width, Form::Amount, "0"),
    ],
    bindings: &[],
};

const BUTTON: KindRow = KindRow {
    command: "button",
    usage: "button path ?option value ..?",
    options: &[
        OptionRow(OptionName::Anchor, Form::Anchor, "center"),
        OptionRow(OptionName::Background, Form::AnyText, ""),
        OptionRow(OptionName::BorderWidth, Form::Amount, "2"),
        OptionRow(OptionName::Command, Form::AnyText, ""),
        OptionRow(OptionName::Foreground, Form::AnyText, ""),
        OptionRow(OptionName::Height, Form::Amount, "0"),
        OptionRow(OptionName::PadX, Form::Amount, "8"),
        OptionRow(OptionName::PadY, Form::Amount, "4"),
        OptionRow(OptionName::Relief, Form::Relief, "raised"),
        OptionRow(OptionName::State, Form::ButtonState, "normal"),
        OptionRow(OptionName::Text, Form::AnyText, ""),
        OptionRow(OptionName::TextVariable, Form::AnyText, ""),
        OptionRow(OptionName::Width, Form::Amount, "0"),
    ],
    bindings: &[
        BindingRow("<Enter>", "tk::ButtonEnter %W"),
        BindingRow("<Leave>", "tk::ButtonLeave %W"),
        BindingRow("<Button-1>", "tk::ButtonDown %W"),
        BindingRow("<ButtonRelease-1>", "tk::ButtonUp %W"),
        BindingRow("<Key-space>", "tk::ButtonInvoke %W"),
    ],
};

const ENTRY: KindRow = KindRow {
    command: "entry",
    usage: "entry path ?option value ..?",
    options: &[
        OptionRow(OptionName::Background, Form::AnyText, ""),
        OptionRow(OptionName::BorderWidth, Form::Amount, "2"),
        OptionRow(OptionName::Foreground, Form::AnyText, ""),
        OptionRow(OptionName::Relief, Form::Relief, "sunken"),
        OptionRow(OptionName::State, Form::EntryState, "normal"),
        OptionRow(OptionName::TextVariable, Form::AnyText, ""),
        OptionRow(OptionName::Width, Form::Amount, "20"),
    ],
    bindings: &[
        BindingRow("<Key>", "tk::EntryInsert %W %A"),
        BindingRow("<Control-Key>", "# nothing"),
        BindingRow("<Mod1-Key>", "# nothing"),
        BindingRow("<Key-BackSpace>", "tk::EntryBackspace %W"),
        BindingRow("<Key-Delete>", "tk::EntryDelete %W"),
        BindingRow("<Key-Left>", "tk::EntryMove %W left"),
        BindingRow("<Key-Right>", "tk::EntryMove %W right"),
        BindingRow("<Key-Home>", "tk::EntryMove %W home"),
        BindingRow("<Key-End>", "tk::EntryMove %W end"),
        BindingRow("<Button-1>", "tk::EntryDown %W %x"),
    ],
};

const LISTBOX: KindRow = KindRow {
    command: "listbox",
    usage: "listbox path ?option value ..?",
    options: &[
        OptionRow(OptionName::Background, Form::AnyText, ""),
        OptionRow(OptionName::BorderWidth, Form::Amount, "1"),
        OptionRow(OptionName::Foreground, Form::AnyText, ""),
        OptionRow(OptionName::Height, Form::Amount, "10"),
        OptionRow(OptionName::Relief, Form::Relief, "sunken"),
        OptionRow(OptionName::SelectMode, Form::SelectMode, "browse"),
        OptionRow(OptionName::Width, Form::Amount, "20"),
    ],
    bindings: &[
        BindingRow("<Button-1>", "tk::ListboxDown %W %y"),
        BindingRow("<B1-Motion>", "tk::ListboxDrag %W %y"),
        BindingRow("<Key-Up>", "tk::ListboxMove %W -1"),
        BindingRow("<Key-Down>", "tk::ListboxMove %W 1"),
        BindingRow("<Key-space>", "tk::ListboxSpace %W"),
    ],
};

/// The row of a kind.
pub fn row_of(kind: Kind) -> &'static KindRow
    ensures command { result.now.command.now ≡ (spec.row_of kind).command }
    ensures usage { result.now.usage.now ≡ (spec.row_of kind).usage }
    ensures options { map (λ row. spec.row row.0 row.1 row.2.now) result.now.options.now ≡ (spec.row_of kind).options }
    ensures bindings { map (λ row. spec.binding row.0.now row.1.now) result.now.bindings.now ≡ (spec.row_of kind).bindings }
{
    match kind {
        Kind::Frame => &FRAME,
        Kind::Label => &LABEL,
        Kind::Button => &BUTTON,
        Kind::Entry => &ENTRY,
        Kind::Listbox => &LISTBOX,
    }
}

/// The kind whose widgets the command of a name makes.
pub fn kind_named(name: &str) -> Option<Kind>
    ensures { result ≡ spec.kind_named name.now }
{
    kind_in(KINDS, name)
}

/// The one of some kinds.
fn kind_in(kinds: &[Kind], name: &str) -> Option<Kind>
    ensures { result ≡ spec.kind_in name.now kinds.now }
{
    let mut rest = kinds;
    while let [kind, others @ ..] = rest {
        if row_of(*kind).command == name {
            return Some(*kind);
        }
        rest = others;
    }
    None
}
