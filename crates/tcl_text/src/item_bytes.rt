//! The items of a list by their bytes alone.
ghost use Rattle.std.specs.Prelude.{◌≡◌, ◌++◌, List, ℕ, length, map, sum, bytes_eq, IfOk, OnOk};
ghost use Rattle.std.specs.List.{concat, list_any};
ghost use Rattle.tcl_text.specs.ItemBytes.{items_cut};

use crate::sought::is_same;
use crate::text::Text;
use std::alloc::{AllocError, Global};
use std::marker::Model;

/// Items, one after another, and how many bytes each has. That is never longer than a text in which they are read, as the form of the list may be.
#[derive(Drop)]
pub struct ItemBytes {
    bytes: Vec<u8>,
    lengths: Vec<u32>,
}

impl Model for ItemBytes {
    ghost use Rattle.std.specs.Prelude.{◌≡◌, ℕ, List, length, sum};
    ghost use Rattle.tcl_text.specs.ItemBytes.{items_cut};

    ghost Value = { List (List ℕ) };

    ghost view = { λ i. items_cut i.lengths.items i.bytes.items };

    ghost invariant = { λ i. sum i.lengths.items ≡ length i.bytes.items };
}

/// Adds the bytes of items, and how many each has.
fn push_items(bytes: &mut Vec<u8>, lengths: &mut Vec<u32>, items: &[Text]) -> Result<(), AllocError>
    ensures bytes { OnOk result (bytes.new.items ≡ bytes.old.items ++ concat items.now) }
    ensures lengths { OnOk result (lengths.new.items ≡ lengths.old.items ++ map (λ (item : List ℕ). length item) items.now) }
{
    for item in items {
        let characters = item.as_str();
        bytes.extend_from_slice(characters.as_bytes())?;
        lengths.push(characters.len() as u32)?;
    }
    Ok(())
}

/// Whether one of the items that have so many bytes each is this one.
fn is_cut_off(bytes: &[u8], lengths: &[u32], item: &[u8]) -> bool
    requires { sum lengths.now ≡ length bytes.now }
    ensures { result ≡ list_any (λ one. bytes_eq one item.now) (items_cut lengths.now bytes.now) }
{
    let mut rest = bytes;
    for length in lengths {
        let (front, behind) = rest.split_at(*length as usize);
        if is_same(front, item) {
            return true;
        }
        rest = behind;
    }
    false
}

impl ItemBytes {
    /// These items.
    pub fn new(alloc: Global, items: &[Text]) -> Result<ItemBytes, AllocError>
        ensures { IfOk result (λ list. list ≡ items.now) }
    {
        let mut bytes = Vec::new(alloc);
        let mut lengths = Vec::with_capacity(alloc, items.len())?;
        push_items(&mut bytes, &mut lengths, items)?;
        Ok(ItemBytes { bytes, lengths })
    }

    /// Whether one of the items is this one.
    pub fn has(&self, item: &[u8]) -> bool
        ensures { result ≡ list_any (λ one. bytes_eq one item.now) self.now }
    {
        is_cut_off(self.bytes.as_slice(), self.lengths.as_slice(), item)
    }
}
