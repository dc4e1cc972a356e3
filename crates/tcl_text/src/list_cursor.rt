//! The items of a list that is read while they are taken.
ghost use Rattle.std.specs.Prelude.{◌≡◌, nat_lt, length, IfOk, OnErr};
ghost use Rattle.tcl_text.specs.ListCursor.{TakesFirst};
ghost use Rattle.tcl_text.specs.Readings.{list_of};
ghost use Rattle.tcl_text.specs.Splitting.{Splits};

use crate::fault::SplitFault;
use crate::searching::is_among;
use crate::splitting::first_element;
use crate::text::Text;
use crate::white_space::behind_white;
use std::alloc::{AllocError, Global};
use std::marker::Model;

/// The items of a list that are left, from a place of its text on. The text is shared, and no item is kept.
#[derive(Drop)]
pub struct ListCursor {
    text: Text,
    place: usize,
}

impl Model for ListCursor {
    ghost use Rattle.std.specs.Prelude.{ℕ, List, drop};
    ghost use Rattle.tcl_text.specs.ListCursor.{IsListFrom};
    ghost use Rattle.tcl_text.specs.ListString.{items_kept};

    ghost Value = { List (List ℕ) };

    ghost view = { λ c. items_kept (drop c.place c.text) };

    ghost invariant = { λ c. IsListFrom c.text c.place };
}

impl ListCursor {
    /// All items of the list that a text is. It is read to its end, so that its first fault is told.
    pub fn new(alloc: Global, text: &Text) -> Result<ListCursor, SplitFault>
        ensures { Splits result (list_of text.now) }
    {
        let characters = text.as_str();
        let _found = is_among(characters, "")?;
        let place = characters.len() - behind_white(characters).len();
        let text = text.copy()?;
        Ok(ListCursor { text, place })
    }

    /// The items that are left, once more, of the same text.
    pub fn copy(&self) -> Result<ListCursor, AllocError>
        ensures { IfOk result (λ items. items ≡ self.now) }
    {
        Ok(ListCursor {
            text: self.text.copy()?,
            place: self.place,
        })
    }

    /// Whether items are left. It takes no memory.
    pub fn has_more(&self) -> bool
        ensures { result ≡ nat_lt 0 (length self.now) }
    {
        self.place < self.text.as_str().len()
    }

    /// Takes the first item, if one is left.
    pub fn take_first(&mut self, alloc: Global) -> Result<Option<Text>, AllocError>
        ensures ok { IfOk result (λ item. TakesFirst self.old item self.new) }
        ensures err { OnErr result (self.new ≡ self.old) }
    {
        let characters = self.text.as_str();
        let rest = &characters[self.place..];
        if rest.is_empty() {
            return Ok(None);
        }
        match first_element(alloc, rest) {
            Ok((item, behind)) => {
                self.place = characters.len() - behind_white(behind).len();
                Ok(Some(item))
            }
            Err(_) => Err(AllocError),
        }
    }
}
