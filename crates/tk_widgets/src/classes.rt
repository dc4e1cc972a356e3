//! What keys and the pointer ask of widgets, as the class bindings of button(n), entry(n) and listbox(n) do.
ghost use Rattle.std.specs.Prelude.{◌≡◌, IfOk, codes};
ghost use Rattle.std.specs.Option.{option_copied};
ghost use Rattle.tk_widgets.specs.Classes.{has_value, invoked, relief_of};

use crate::widget::Widget;
use std::alloc::{AllocError, Global};
use tcl_text::Text;
use tk_options::{OptionName, OptionTable};

/// Whether an option has this very value.
pub fn has_value(options: &OptionTable, option: OptionName, word: &str) -> bool
    ensures { result ≡ has_value option word.now options.now }
{
    match options.value(option) {
        Some(value) => value.as_str() == word,
        None => false,
    }
}

impl Widget {
    /// Whether a button can't be pressed, and an entry takes no part in anything: its state is `disabled`.
    pub fn is_disabled(&self) -> bool
        ensures { result ≡ has_value OptionName.State (codes "disabled") self.now.options }
    {
        has_value(&self.options, OptionName::State, "disabled")
    }

    /// The script that a button runs (`invoke` of button(n)), which is not copied; none where it is disabled, and of a widget without `-command`.
    /// It takes no memory.
    pub fn invoked(&self) -> Option<&Text>
        ensures { option_copied result ≡ invoked self.now.options }
    {
        if self.is_disabled() {
            return None;
        }
        self.options.value(OptionName::Command)
    }

    /// A copy of the relief, to be put back.
    pub fn relief(&self, alloc: Global) -> Result<Text, AllocError>
        ensures { IfOk result (λ relief. relief ≡ relief_of self.now.options) }
    {
        match self.options.value(OptionName::Relief) {
            Some(relief) => relief.copy(),
            None => Ok(Text::empty()),
        }
    }

    /// Whether several items of a listbox can be selected by the pointer.
    pub fn is_multiple(&self) -> bool
        ensures { result ≡ has_value OptionName.SelectMode (codes "multiple") self.now.options }
    {
        has_value(&self.options, OptionName::SelectMode, "multiple")
    }

    /// Whether the selection of a listbox goes with the pointer.
    pub fn is_browse(&self) -> bool
        ensures { result ≡ has_value OptionName.SelectMode (codes "browse") self.now.options }
    {
        has_value(&self.options, OptionName::SelectMode, "browse")
    }
}
