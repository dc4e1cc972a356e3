//! Items and lists of them.
ghost use Rattle.std.specs.Prelude.{◌≡◌, ◌++◌, [], ◌∷◌, take, drop, map, IfOk};
ghost use Rattle.tk_widgets.specs.Items.{new_items, texts};

use std::alloc::{AllocError, Global};
use tcl_text::{Text, TextList};

/// An item of a listbox.
#[derive(Drop)]
pub struct Item {
    pub text: Text,
    /// Whether it is selected.
    pub selected: bool,
}

/// The first so many items, or all where there are fewer.
pub fn first_items(items: &[Item], count: usize) -> &[Item]
    ensures { result.now ≡ take count items.now }
{
    if count < items.len() {
        items.split_at(count).0
    } else {
        items
    }
}

/// The items behind the first so many.
pub fn items_behind(items: &[Item], count: usize) -> &[Item]
    ensures { result.now ≡ drop count items.now }
{
    items.split_at(count.min(items.len())).1
}

/// Some items with copies of more behind them.
pub fn with_copies(mut all: Vec<Item>, items: &[Item]) -> Result<Vec<Item>, AllocError>
    ensures { IfOk result (λ longer. longer.items ≡ all.items ++ items.now) }
{
    for item in items {
        all.push(copy_of(item)?)?;
    }
    Ok(all)
}

/// Some items with new ones of these texts behind them, which aren't selected.
pub fn with_new(mut all: Vec<Item>, texts: &[Text]) -> Result<Vec<Item>, AllocError>
    ensures { IfOk result (λ longer. longer.items ≡ all.items ++ new_items texts.now) }
{
    for text in texts {
        all.push(new_item(text)?)?;
    }
    Ok(all)
}

/// The texts of some items.
pub fn texts_of(alloc: Global, items: &[Item]) -> Result<TextList, AllocError>
    ensures { IfOk result (λ list. list ≡ texts items.now) }
{
    let mut list = TextList::with_capacity(alloc, items.len())?;
    for item in items {
        list.push(item.text.copy()?)?;
    }
    Ok(list)
}

fn copy_of(item: &Item) -> Result<Item, AllocError>
    ensures { IfOk result (λ copy. copy ≡ item.now) }
{
    Ok(Item {
        text: item.text.copy()?,
        selected: item.selected,
    })
}

fn new_item(text: &Text) -> Result<Item, AllocError>
    ensures { IfOk result (λ item. new_items (text.now ∷ []) ≡ item ∷ []) }
{
    Ok(Item {
        text: text.copy()?,
        selected: false,
    })
}
