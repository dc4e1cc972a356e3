//! The command of lsort(n).
ghost use Rattle.std.specs.Prelude.{◌≡◌, IfOk, IfErr, ℤ, List, ℕ, map, Ok, Err};
ghost use Rattle.tcl_text.specs.Answers.{Gives};
ghost use Rattle.tcl_text.specs.ListCommands as spec;

use crate::commands::answers::{Refusal, Reply, bad_option, wrong_args};
use crate::commands::integers::integer_of;
use crate::commands::items::{items_in, list_answer};
use crate::list::TextList;
use crate::text::Text;
use std::alloc::{AllocError, Global};

/// How items are compared: as integers or by their bytes, and which way.
#[derive(Clone, Copy)]
pub struct Order {
    pub as_integers: bool,
    pub decreasing: bool,
}

impl Order {
    /// By their bytes, upwards.
    const PLAIN: Order = Order {
        as_integers: false,
        decreasing: false,
    };
}

/// `lsort ?-integer? ?-decreasing? list`: the items in order; equal ones keep theirs.
pub fn lsort_words(alloc: Global, words: &[Text]) -> Reply
    ensures { Gives result (spec.lsort_words words.now) }
{
    match words {
        [list] => sort_list(alloc, Order::PLAIN, list),
        [option, list] => {
            let order = with_option(alloc, option, Order::PLAIN)?;
            sort_list(alloc, order, list)
        }
        [option, second, list] => {
            let order = with_option(alloc, option, Order::PLAIN)?;
            let order = with_option(alloc, second, order)?;
            sort_list(alloc, order, list)
        }
        _ => wrong_args(alloc, "lsort ?-integer? ?-decreasing? list"),
    }
}

/// The order with what an option says of it.
#[tactic(auto, unfolding(crate::specs::ListCommands::with_option))]
fn with_option(alloc: Global, option: &Text, order: Order) -> Result<Order, Refusal>
    ensures { Gives result (spec.with_option option.now order) }
{
    match option.as_str() {
        "-integer" => Ok(Order {
            as_integers: true,
            ..order
        }),
        "-decreasing" => Ok(Order {
            decreasing: true,
            ..order
        }),
        _ => bad_option(alloc, option),
    }
}

fn sort_list(alloc: Global, order: Order, list: &Text) -> Reply
    ensures { Gives result (spec.sort_list order list.now) }
{
    let items = items_in(alloc, list)?;
    let ordered = in_order(alloc, order, items)?;
    list_answer(alloc, ordered.as_slice())
}

/// The items in order, or the error that one is no integer (1).
fn in_order(alloc: Global, order: Order, items: TextList) -> Result<TextList, Refusal>
    ensures { Gives result (spec.in_order order items) }
{
    if order.as_integers {
        let keyed = keyed(alloc, items.as_slice())?;
        Ok(texts_of(alloc, by_keys(keyed, order.decreasing)?)?)
    } else {
        Ok(by_bytes(items, order.decreasing)?)
    }
}

/// The texts in the order of their bytes.
fn by_bytes(items: TextList, decreasing: bool) -> Result<TextList, AllocError>
    ensures { IfOk result (λ ordered.
        ordered ≡ spec.sorted (spec.turned decreasing spec.bytes_less) items) }
{
    let texts = items.into_vec();
    let ordered = if decreasing {
        bytes_falling(texts)?
    } else {
        bytes_rising(texts)?
    };
    Ok(TextList::from_vec(ordered))
}

fn bytes_rising(mut texts: Vec<Text>) -> Result<Vec<Text>, AllocError>
    ensures { IfOk result (λ ordered. ordered.items ≡ spec.sorted spec.bytes_less texts.items) }
{
    texts.sort_by(|x, y| x.as_str().cmp(y.as_str()))?;
    Ok(texts)
}

fn bytes_falling(mut texts: Vec<Text>) -> Result<Vec<Text>, AllocError>
    ensures { IfOk result (λ ordered.
        ordered.items ≡ spec.sorted (λ x y. spec.bytes_less y x) texts.items) }
{
    texts.sort_by(|x, y| y.as_str().cmp(x.as_str()))?;
    Ok(texts)
}

/// Each text with the integer that it is.
fn keyed(alloc: Global, items: &[Text]) -> Result<Vec<(i64, Text)>, Refusal>
    ensures ok { IfOk result (λ pairs. spec.keyed items.now ≡ Ok pairs.items) }
    ensures err { IfErr result (λ refusal.
        Gives {T = List (ℤ × List ℕ)} (Err refusal) (spec.keyed items.now)) }
{
    let mut pairs = Vec::new(alloc);
    for item in items {
        let key = integer_of(alloc, item)?;
        pairs.push((key, item.copy()?))?;
    }
    Ok(pairs)
}

/// The texts in the order of their integers.
fn by_keys(pairs: Vec<(i64, Text)>, decreasing: bool) -> Result<Vec<(i64, Text)>, AllocError>
    ensures { IfOk result (λ ordered.
        ordered.items ≡ spec.sorted (spec.turned decreasing spec.key_less) pairs.items) }
{
    if decreasing {
        keys_falling(pairs)
    } else {
        keys_rising(pairs)
    }
}

fn keys_rising(mut pairs: Vec<(i64, Text)>) -> Result<Vec<(i64, Text)>, AllocError>
    ensures { IfOk result (λ ordered. ordered.items ≡ spec.sorted spec.key_less pairs.items) }
{
    pairs.sort_by(|x, y| x.0.cmp(&y.0))?;
    Ok(pairs)
}

fn keys_falling(mut pairs: Vec<(i64, Text)>) -> Result<Vec<(i64, Text)>, AllocError>
    ensures { IfOk result (λ ordered.
        ordered.items ≡ spec.sorted (λ x y. spec.key_less y x) pairs.items) }
{
    pairs.sort_by(|x, y| y.0.cmp(&x.0))?;
    Ok(pairs)
}

/// The texts without their integers.
fn texts_of(alloc: Global, pairs: Vec<(i64, Text)>) -> Result<TextList, AllocError>
    ensures { IfOk result (λ texts. texts ≡ map (λ pair. pair.1) pairs.items) }
{
    let texts = pairs.into_iter().map(|pair| pair.1).collect(alloc)?;
    Ok(TextList::from_vec(texts))
}
