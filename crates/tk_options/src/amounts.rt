//! The amounts among a widget's options, read once.
ghost use Rattle.std.specs.Prelude.{◌≡◌, []};
ghost use Rattle.tk_options.specs.Amounts.{amount_kept, amount_read, amounts_of, with_amount};

use crate::form::amount_in;
use crate::option::OptionName;
use tcl_text::Text;

/// The pixels, columns and lines that a widget's options spell; 0 where the widget has no such option.
#[derive(Clone, Copy)]
pub struct Amounts {
    border_width: u32,
    height: u32,
    pad_x: u32,
    pad_y: u32,
    width: u32,
}

impl Amounts {
    /// Those of a widget that has no options.
    #[tactic(auto, unfolding(crate::specs::Options::amount_of))]
    pub fn none() -> Amounts
        ensures { result ≡ amounts_of [] }
    {
        Amounts {
            border_width: 0,
            height: 0,
            pad_x: 0,
            pad_y: 0,
            width: 0,
        }
    }

    /// The amount of an option; none where the option takes no amount.
    pub fn of(&self, option: OptionName) -> Option<u32>
        ensures { result ≡ amount_kept option self.now }
    {
        match option {
            OptionName::BorderWidth => Some(self.border_width),
            OptionName::Height => Some(self.height),
            OptionName::PadX => Some(self.pad_x),
            OptionName::PadY => Some(self.pad_y),
            OptionName::Width => Some(self.width),
            _ => None,
        }
    }

    /// The amounts with an option at another value. A value that is no amount is not read.
    pub fn with(self, option: OptionName, value: &Text) -> Amounts
        ensures { result ≡ with_amount option (amount_read value.now) self }
    {
        match option {
            OptionName::BorderWidth => Amounts {
                border_width: read(value),
                ..self
            },
            OptionName::Height => Amounts {
                height: read(value),
                ..self
            },
            OptionName::PadX => Amounts {
                pad_x: read(value),
                ..self
            },
            OptionName::PadY => Amounts {
                pad_y: read(value),
                ..self
            },
            OptionName::Width => Amounts {
                width: read(value),
                ..self
            },
            _ => self,
        }
    }
}

/// The amount that a value spells; 0 where it spells none.
fn read(value: &Text) -> u32
    ensures { result ≡ amount_read value.now }
{
    amount_in(value).unwrap_or(0)
}
