//! Options with the values that they are to have.
ghost use Rattle.std.specs.Prelude.{◌≡◌};
ghost use Rattle.std.specs.Option.{option_copied};
ghost use Rattle.tk_options.specs.Options.{last_setting, value_for};

use crate::option::OptionName;
use std::marker::Model;
use tcl_text::Text;

/// An option and the value that it is to have.
#[derive(Drop)]
pub struct Setting {
    pub option: OptionName,
    pub value: Text,
}

/// What words in pairs set: options with their values as they are kept, tested, in the order of the words.
pub struct Settings {
    all: Vec<Setting>,
}

impl Model for Settings {
    ghost use Rattle.std.specs.Prelude.{List};
    ghost use Rattle.tk_options.specs.declared.settings.Setting.{Setting};

    ghost Value = { List Setting };

    ghost view = { λ s. s.all.items };
}

impl Settings {
    pub(crate) fn of(all: Vec<Setting>) -> Settings
        ensures { result ≡ all.items }
    {
        Settings { all }
    }

    pub(crate) fn into_vec(self) -> Vec<Setting>
        ensures { result.items ≡ self }
    {
        let Settings { all } = self;
        all
    }

    /// The value that an option has once all are set; none where it isn't among them. It takes no memory.
    pub fn value(&self, option: OptionName) -> Option<&Text>
        ensures { option_copied result ≡ last_setting option self.now }
    {
        last_value(&self.all, option)
    }
}

/// The last value for an option.
fn last_value(all: &[Setting], option: OptionName) -> Option<&Text>
    ensures { option_copied result ≡ last_setting option all.now }
{
    let mut last = None;
    for setting in all {
        last = value_for(setting, option).or(last);
    }
    last
}

/// The value, where it is for this option.
fn value_for(setting: &Setting, option: OptionName) -> Option<&Text>
    ensures { option_copied result ≡ value_for option setting.now }
{
    if setting.option.name() == option.name() {
        Some(&setting.value)
    } else {
        None
    }
}

/// By hand: a proof sees one call where it is dropped, and not its parts.
impl Drop for Settings {
    fn drop(self) {
        let Settings { all: _ } = self;
    }
}
