ghost use Rattle.std.specs.Prelude.{◌≡◌, ◌<◌, ◌≤◌, [], ◌∷◌, ◌++◌, length, drop, string_bytes, IfOk, OnOk};
ghost use Rattle.tcl_text.specs.Readings.{list_form};
ghost use Rattle.tcl_vars.specs.Store.{with_variable};
ghost use Rattle.tcl_control.specs.Assign.{done, on_set};
ghost use Rattle.tcl_table.specs.Levels.{popped};
ghost use Rattle.tcl_control.specs.Procedures.{is_rest, fits, value_for, rest_set, entered, usage_word, usage_words, usage, procedure_call, by_entered};

use crate::assign::set_one;
use crate::code::Code;
use crate::plan::Plan;
use std::alloc::{AllocError, Global};
use tcl_commands::Parameter;
use tcl_table::{Levels, Procedure, plain_name};
use tcl_text::message::{limit, wrong_args_text};
use tcl_text::{Text, TextFault};
use tcl_vars::Scopes;

/// Whether a parameter takes the rest of the words, with these behind it.
fn is_rest(parameter: &Parameter, behind: &[Parameter]) -> bool
    ensures { result ≡ is_rest parameter.now behind.now }
{
    behind.is_empty() && parameter.name.as_str() == "args"
}

/// Whether there are as many words as parameters take.
fn fits(parameters: &[Parameter], words: &[Text]) -> bool
    ensures { result ≡ fits parameters.now words.now }
{
    let mut left = parameters;
    let mut rest = words;
    'parameters: while let [parameter, behind @ ..] = left {
        if is_rest(parameter, behind) {
            return true;
        }
        match rest {
            [_, words @ ..] => rest = words,
            [] => {
                if parameter.fallback.is_none() {
                    return false;
                }
            }
        }
        left = behind;
    }
    rest.is_empty()
}

/// The word of a parameter, or its default.
fn value_for(alloc: Global, fallback: &Option<Text>, words: &[Text]) -> Result<Text, AllocError>
    ensures { IfOk result (λ value. value ≡ value_for fallback.now words.now) }
{
    match words {
        [word, ..] => word.copy(),
        [] => match fallback {
            Some(value) => value.copy(),
            None => Ok(Text::empty()),
        },
    }
}

/// The words behind the first one.
fn behind_first(words: &[Text]) -> &[Text]
    ensures { result.now ≡ drop 1 words.now }
{
    match words {
        [] => words,
        [_, rest @ ..] => rest,
    }
}

/// The last parameter is given the rest of the words.
fn set_rest(
    alloc: Global,
    scopes: &mut Scopes,
    frame: usize,
    name: &Text,
    words: &[Text],
) -> Result<Option<Text>, AllocError>
    requires { frame < length scopes.old }
    ensures set { IfOk result (λ refused. record { store = scopes.new; refused = refused } ≡ rest_set frame name.now scopes.old (list_form words.now)) }
    ensures levels { length scopes.new ≡ length scopes.old }
{
    match Text::join_list(alloc, words) {
        Ok(form) => set_one(alloc, scopes, frame, name, form),
        Err(TextFault::TooLong) => Ok(Some(limit(alloc)?)),
        Err(TextFault::NoMemory) => Err(AllocError),
    }
}

/// Gives parameters their words, up to the first that is refused.
fn enter(
    alloc: Global,
    scopes: &mut Scopes,
    frame: usize,
    parameters: &[Parameter],
    words: &[Text],
) -> Result<Option<Text>, AllocError>
    requires { frame < length scopes.old }
    ensures set { IfOk result (λ refused. record { store = scopes.new; refused = refused } ≡ entered frame parameters.now words.now scopes.old) }
    ensures levels { length scopes.new ≡ length scopes.old }
{
    let mut left = parameters;
    let mut rest = words;
    'parameters: while let [parameter, behind @ ..] = left {
        if is_rest(parameter, behind) {
            return set_rest(alloc, scopes, frame, &parameter.name, rest);
        }
        let value = value_for(alloc, &parameter.fallback, rest)?;
        match set_one(alloc, scopes, frame, &parameter.name, value)? {
            Some(text) => return Ok(Some(text)),
            None => {}
        }
        rest = behind_first(rest);
        left = behind;
    }
    Ok(None)
}

/// Adds a parameter as a usage text has it.
fn push_usage(
    usage: &mut String,
    parameter: &Parameter,
    behind: &[Parameter],
) -> Result<(), AllocError>
    ensures { OnOk result (string_bytes usage.new ≡ string_bytes usage.old ++ usage_word parameter.now behind.now parameter.now.fallback) }
{
    if is_rest(parameter, behind) {
        usage.push_str("?arg ..?")?;
    } else if parameter.fallback.is_none() {
        usage.push_str(parameter.name.as_str())?;
    } else {
        usage.push_str("?")?;
        usage.push_str(parameter.name.as_str())?;
        usage.push_str("?")?;
    }
    Ok(())
}

/// How parameters are called.
fn usage_words(alloc: Global, name: &str, parameters: &[Parameter]) -> Result<String, AllocError>
    ensures { IfOk result (λ words. string_bytes words ≡ name.now ++ usage_words parameters.now) }
{
    let mut words = String::from_str(alloc, name)?;
    let mut left = parameters;
    'parameters: while let [parameter, behind @ ..] = left {
        words.push_str(" ")?;
        push_usage(&mut words, parameter, behind)?;
        left = behind;
    }
    Ok(words)
}

/// The error that a procedure has too few or too many words.
fn usage(alloc: Global, name: &str, parameters: &[Parameter]) -> Result<Text, AllocError>
    ensures { IfOk result (λ text. text ≡ usage name.now parameters.now) }
{
    let words = usage_words(alloc, plain_name(name), parameters)?;
    wrong_args_text(alloc, words.as_str())
}

/// Calls a procedure with these words behind a name: it gets a frame of its own, in which its body is to run.
pub fn call_procedure(
    alloc: Global,
    scopes: &mut Scopes,
    levels: &mut Levels,
    name: &Text,
    procedure: &Procedure,
    words: &[Text],
) -> Result<Plan, AllocError>
    ensures { IfOk result (λ plan. record { store = scopes.new; levels = levels.new; plan = plan }
        ≡ procedure_call name.now procedure.now words.now scopes.old levels.old) }
{
    let parameters = procedure.parameters.as_slice();
    if !fits(parameters, words) {
        return Ok(Plan::Ends(Code::Error, usage(alloc, name.as_str(), parameters)?));
    }
    let frame = scopes.levels();
    scopes.push_frame()?;
    match enter(alloc, scopes, frame, parameters, words)? {
        None => {
            levels.push(frame)?;
            Ok(Plan::Enters(procedure.body.copy()?))
        }
        Some(text) => {
            pop_last(scopes);
            Ok(Plan::Ends(Code::Error, text))
        }
    }
}

/// Drops the last frame of variables, as where a procedure ends; the global one stays. It takes no memory.
fn pop_last(scopes: &mut Scopes)
    ensures { scopes.new ≡ popped scopes.old }
{
    if scopes.levels() > 1 {
        scopes.pop_frame();
    }
}
