//! The names of pairs, each told of the pair that is marked as its first: no name is hashed or compared.
ghost use Rattle.std.specs.Prelude.{◌≡◌, ◌≢◌, ◌<◌, length, map, IfOk, IfErr, IfSome, IfNone};
ghost use Rattle.std.specs.List.{concat};
ghost use Rattle.tcl_text.specs.Limits.{most_bytes};
ghost use Rattle.tk_sequences.specs.Words.{in_brackets};
ghost use Rattle.tk_virtual.specs.First.{first_names};

use crate::pair::Pair;
use indexmap::IndexMap;
use std::alloc::{AllocError, Global};
use tcl_text::lengths::longer;
use tcl_text::{TextFault, TextList};

/// How many bytes the brackets of a name are.
const BRACKETS: usize = 4;

/// The names of the pairs that are marked, in their brackets. `TooLong` where they are past 65,536 bytes, one behind another; none is copied
/// then.
pub(crate) fn first_names(
    alloc: Global,
    pairs: &IndexMap<Pair, bool>,
) -> Result<TextList, TextFault>
    ensures ok { IfOk result (λ list. list ≡ map in_brackets (first_names pairs.now.entries)) }
    ensures too_long { IfErr result (λ fault. fault ≢ TextFault.NoMemory → most_bytes < length (concat (map in_brackets (first_names pairs.now.entries)))) }
{
    match names_length(pairs) {
        Some(_length) => Ok(written_names(alloc, pairs)?),
        None => Err(TextFault::TooLong),
    }
}

/// How long the names of the pairs that are marked are in their brackets, one behind another; none past 65,536 bytes.
fn names_length(pairs: &IndexMap<Pair, bool>) -> Option<usize>
    ensures exact { IfSome result (λ sum. sum ≡ length (concat (map in_brackets (first_names pairs.now.entries)))) }
    ensures none { IfNone result (most_bytes < length (concat (map in_brackets (first_names pairs.now.entries)))) }
{
    let mut sum = 0;
    for (pair, first) in pairs.iter() {
        if *first {
            sum = longer(sum, pair.name.as_str().len() + BRACKETS)?;
        }
    }
    Some(sum)
}

/// Copies of them.
fn written_names(alloc: Global, pairs: &IndexMap<Pair, bool>) -> Result<TextList, AllocError>
    ensures { IfOk result (λ list. list ≡ map in_brackets (first_names pairs.now.entries)) }
{
    let mut list = TextList::new(alloc);
    for (pair, first) in pairs.iter() {
        if *first {
            list.push(pair.name.canonical(alloc)?)?;
        }
    }
    Ok(list)
}
