//! The options of `event generate`.
ghost use Rattle.std.specs.Prelude.{◌≡◌};
ghost use Rattle.tcl_text.specs.Answers.{Gives};
ghost use Rattle.tk_generate.specs.Given.{given_from, nothing_given, option_in, option_named, option_or_fault, with_value};

use crate::refusals::option_refused;
use crate::values::{button_in, coordinate_in, keysym_in, state_in, when_in};
use std::alloc::Global;
use tcl_text::Text;
use tcl_text::answers::Refusal;
use tk_base::Keysym;
use tk_options::OptionFault;

/// When an event comes (event(n), `-when`).
#[derive(Clone, Copy, Debug, PartialEq, Eq)]
pub enum When {
    /// At once, before the command answers.
    Now,
    /// Behind all events that wait.
    Tail,
    /// Before all events that wait.
    Head,
}

/// The options that there are.
#[derive(Clone, Copy)]
pub enum GenerateOption {
    When,
    X,
    Y,
    Button,
    State,
    Keysym,
    Data,
}

/// What the options say; of an option that stands twice the last value.
#[derive(Drop)]
pub struct Given {
    pub when: When,
    pub x: Option<i32>,
    pub y: Option<i32>,
    pub button: Option<u8>,
    pub state: Option<u16>,
    pub keysym: Option<Keysym>,
    /// What `-data` gives.
    pub detail: Option<Text>,
}

impl GenerateOption {
    /// The option of a name. Names are taken whole.
    fn named(name: &str) -> Option<GenerateOption>
        ensures { result ≡ option_named name.now }
    {
        match name {
            "-when" => Some(GenerateOption::When),
            "-x" => Some(GenerateOption::X),
            "-y" => Some(GenerateOption::Y),
            "-button" => Some(GenerateOption::Button),
            "-state" => Some(GenerateOption::State),
            "-keysym" => Some(GenerateOption::Keysym),
            "-data" => Some(GenerateOption::Data),
            _ => None,
        }
    }
}

/// The option of a name, or the error of an unknown one (20).
fn option_in(alloc: Global, name: &Text) -> Result<GenerateOption, Refusal>
    ensures { Gives result (option_in name.now) }
{
    match GenerateOption::named(name.as_str()) {
        Some(option) => Ok(option),
        None => option_refused(alloc, OptionFault::UnknownOption(name.copy()?)),
    }
}

/// No options.
fn nothing_given() -> Given
    ensures { result ≡ nothing_given }
{
    Given {
        when: When::Now,
        x: None,
        y: None,
        button: None,
        state: None,
        keysym: None,
        detail: None,
    }
}

/// What options say, each with its value, from left to right.
pub fn given_in(alloc: Global, words: &[Text]) -> Result<Given, Refusal>
    ensures { Gives result (given_from words.now nothing_given) }
{
    let mut given = nothing_given();
    let mut rest = words;
    while let Some((name, behind)) = rest.split_first() {
        let option = option_in(alloc, name)?;
        let Some((value, later)) = behind.split_first() else {
            return option_refused(alloc, OptionFault::NoValue(name.copy()?));
        };
        given = with_value(alloc, option, name, value, given)?;
        rest = later;
    }
    Ok(given)
}

/// With one option more.
fn with_value(
    alloc: Global,
    option: GenerateOption,
    name: &Text,
    value: &Text,
    mut given: Given,
) -> Result<Given, Refusal>
    ensures { Gives result (with_value option name.now value.now given) }
{
    match option {
        GenerateOption::When => given.when = when_in(alloc, name, value)?,
        GenerateOption::X => given.x = Some(coordinate_in(alloc, name, value)?),
        GenerateOption::Y => given.y = Some(coordinate_in(alloc, name, value)?),
        GenerateOption::Button => given.button = Some(button_in(alloc, name, value)?),
        GenerateOption::State => given.state = Some(state_in(alloc, name, value)?),
        GenerateOption::Keysym => given.keysym = Some(keysym_in(alloc, value)?),
        GenerateOption::Data => given.detail = Some(value.copy()?),
    }
    Ok(given)
}
