ghost use Rattle.std.specs.Prelude.{◌≡◌, IfOk};
ghost use Rattle.tcl_text.specs.Readings.{list_of};
ghost use Rattle.tcl_commands.specs.Parameters.{has_colons, is_element, is_parameter_name, parameter_named, parameter_parts, parameter_of, parameters_of, parameters_in};

use crate::listing::Listing;
use std::alloc::{AllocError, Global};
use tcl_text::{SplitFault, Text};
use tcl_vars::element_of;

/// What is told of items that are no parameters.
const BAD_LIST: &str = "bad parameter list";

/// A parameter of a procedure, and its default (proc(n)). A call gives the last one the rest of its words where that is named `args`.
#[derive(Drop)]
pub struct Parameter {
    pub name: Text,
    /// What it is where a call gives no word for it, if there is a default.
    pub fallback: Option<Text>,
}

/// Parameters in order.
pub type Parameters = Listing<Parameter>;

fn has_colons(name: &[u8]) -> bool
    ensures { result ≡ has_colons name.now }
{
    let mut rest = name;
    'bytes: while let [_, behind @ ..] = rest {
        if rest.starts_with(b"::") {
            return true;
        }
        rest = behind;
    }
    false
}

fn is_element(name: &str) -> bool
    ensures { result ≡ is_element name.now }
{
    element_of(name).is_some()
}

fn is_parameter_name(name: &Text) -> bool
    ensures { result ≡ is_parameter_name name.now }
{
    let characters = name.as_str();
    !(characters.is_empty() || is_element(characters) || has_colons(characters.as_bytes()))
}

fn parameter_named(
    alloc: Global,
    name: &Text,
    fallback: Option<Text>,
) -> Result<Result<Parameter, Text>, AllocError>
    ensures { IfOk result (λ parameter. parameter ≡ parameter_named name.now fallback) }
{
    if is_parameter_name(name) {
        Ok(Ok(Parameter {
            name: name.copy()?,
            fallback,
        }))
    } else {
        Ok(Err(Text::of_short(alloc, BAD_LIST)?))
    }
}

fn parameter_parts(alloc: Global, parts: &[Text]) -> Result<Result<Parameter, Text>, AllocError>
    ensures { IfOk result (λ parameter. parameter ≡ parameter_parts parts.now) }
{
    match parts {
        [name] => parameter_named(alloc, name, None),
        [name, fallback] => parameter_named(alloc, name, Some(fallback.copy()?)),
        _ => Ok(Err(Text::of_short(alloc, BAD_LIST)?)),
    }
}

/// A parameter as a list of its name and perhaps a default, or the error's text.
fn parameter_of(alloc: Global, item: &Text) -> Result<Result<Parameter, Text>, AllocError>
    ensures { IfOk result (λ parameter. parameter ≡ parameter_of (list_of item.now)) }
{
    match item.split_list(alloc) {
        Ok(parts) => parameter_parts(alloc, parts.as_slice()),
        Err(SplitFault::BadList(fault)) => Ok(Err(fault.told(alloc)?)),
        Err(SplitFault::NoMemory) => Err(AllocError),
    }
}

/// The parameters that items give, or the first error's text.
fn parameters_of(alloc: Global, items: &[Text]) -> Result<Result<Parameters, Text>, AllocError>
    ensures { IfOk result (λ parameters. parameters ≡ parameters_of items.now) }
{
    let mut parameters = Listing::new(alloc);
    for item in items {
        match parameter_of(alloc, item)? {
            Ok(parameter) => parameters.push(parameter)?,
            Err(text) => return Ok(Err(text)),
        }
    }
    Ok(Ok(parameters))
}

/// The parameters that a list gives, each as `name` or `{name default}` (proc(n)). Or the text of the first error: the list or an item is
/// no list (3), or it is `bad parameter list`, where an item has another length or a name is empty, is an element's or holds `::`.
#[tactic(auto, unfolding(crate::specs::Parameters::parameters_in))]
pub fn parameters_in(alloc: Global, list: &Text) -> Result<Result<Parameters, Text>, AllocError>
    ensures { IfOk result (λ parameters. parameters ≡ parameters_in (list_of list.now)) }
{
    match list.split_list(alloc) {
        Ok(items) => parameters_of(alloc, items.as_slice()),
        Err(SplitFault::BadList(fault)) => Ok(Err(fault.told(alloc)?)),
        Err(SplitFault::NoMemory) => Err(AllocError),
    }
}
