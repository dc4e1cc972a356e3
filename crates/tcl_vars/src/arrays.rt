ghost use Rattle.std.specs.Prelude.{◌≡◌, ◌≤◌, length, map, IfOk};
ghost use Rattle.tcl_vars.specs.Store.{pairs_of};
ghost use Rattle.tcl_text.specs.Limits.{most_bytes};

use crate::table::Table;
use std::alloc::{AllocError, Global};
use tcl_text::{Text, TextFault, TextList};

/// The indices of the elements, in their order.
pub(crate) fn names_of(alloc: Global, elements: &Table<Text>) -> Result<TextList, AllocError>
    ensures { IfOk result (λ names. names ≡ map (λ e. e.0) elements.now) }
{
    let mut names = TextList::new(alloc);
    for place in 0..elements.len() {
        let (index, _) = elements.at(place);
        names.push(text_from(alloc, index)?)?;
    }
    Ok(names)
}

/// The indices and values of the elements in turn, in their order.
pub(crate) fn pairs_of(alloc: Global, elements: &Table<Text>) -> Result<TextList, AllocError>
    ensures { IfOk result (λ pairs. pairs ≡ pairs_of elements.now) }
{
    let mut pairs = TextList::new(alloc);
    for place in 0..elements.len() {
        let (index, value) = elements.at(place);
        pairs.push(text_from(alloc, index)?)?;
        pairs.push(value.copy()?)?;
    }
    Ok(pairs)
}

// A text of an index, which is short enough.
fn text_from(alloc: Global, index: &str) -> Result<Text, AllocError>
    requires { length index.now ≤ most_bytes }
    ensures { IfOk result (λ text. text ≡ index.now) }
{
    match Text::new(alloc, index) {
        Ok(text) => Ok(text),
        Err(TextFault::NoMemory) => Err(AllocError),
        Err(TextFault::TooLong) => unreachable!(),
    }
}
