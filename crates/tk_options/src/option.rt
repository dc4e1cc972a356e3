ghost use Rattle.std.specs.Prelude.{◌≡◌};
ghost use Rattle.tk_options.specs.Names.{name_of};

use crate::form::Form;
use std::alloc::Global;
use tcl_text::{Text, TextFault};

/// The options that widgets have (options(n), frame(n), label(n), button(n), entry(n), listbox(n)).
#[derive(Clone, Copy, Debug, PartialEq, Eq)]
pub enum OptionName {
    Anchor,
    Background,
    BorderWidth,
    Command,
    Foreground,
    Height,
    PadX,
    PadY,
    Relief,
    SelectMode,
    State,
    Text,
    TextVariable,
    Width,
}

impl OptionName {
    /// How scripts write it.
    pub fn name(self) -> &'static str
        ensures { result.now ≡ name_of self }
    {
        match self {
            OptionName::Anchor => "-anchor",
            OptionName::Background => "-background",
            OptionName::BorderWidth => "-borderwidth",
            OptionName::Command => "-command",
            OptionName::Foreground => "-foreground",
            OptionName::Height => "-height",
            OptionName::PadX => "-padx",
            OptionName::PadY => "-pady",
            OptionName::Relief => "-relief",
            OptionName::SelectMode => "-selectmode",
            OptionName::State => "-state",
            OptionName::Text => "-text",
            OptionName::TextVariable => "-textvariable",
            OptionName::Width => "-width",
        }
    }
}

/// An option of one widget.
#[derive(Drop)]
pub struct OptionEntry {
    pub option: OptionName,
    /// What values it takes.
    pub form: Form,
    /// The value that a new widget of this kind has.
    pub default: Text,
    /// The value that the widget has.
    pub value: Text,
}

impl OptionEntry {
    ghost use Rattle.std.specs.Prelude.{◌≡◌, ◌≢◌, IfOk, IfErr};
    ghost use Rattle.tcl_text.specs.ListForm.{Joins};
    ghost use Rattle.tk_options.specs.Options.{description, IsTooLong};

    /// The option as `configure` tells it (options(n)): the list of its name, its default and its value. `TooLong` (4) where that
    /// would pass 65,536 bytes.
    pub fn description(&self, alloc: Global) -> Result<Text, TextFault>
        ensures ok { IfOk result (λ text. text ≡ description self.now) }
        ensures too_long { IfErr result (λ fault. fault ≢ TextFault.NoMemory → IsTooLong self.now) }
    {
        let name = Text::new(alloc, self.option.name())?;
        Text::join_list(alloc, &[name, self.default.copy()?, self.value.copy()?])
    }
}
