//! The items of a list, to be taken one by one.
ghost use Rattle.std.specs.Prelude.{◌≡◌, nat_lt, length, IfOk, OnErr};
ghost use Rattle.tcl_text.specs.ListCursor.{TakesFirst};
ghost use Rattle.tcl_text.specs.Readings.{list_of};
ghost use Rattle.tcl_text.specs.Splitting.{Splits};

use crate::fault::SplitFault;
use crate::list_cursor::ListCursor;
use crate::list_string::ListString;
use crate::text::Text;
use std::alloc::{AllocError, Global};
use std::marker::Model;
use std::rc::Rc;

/// The items that are left of a list that a text keeps, and shares with them.
#[derive(Drop)]
struct KeptItems {
    list: Rc<ListString>,
    /// How many of its items were taken.
    taken: usize,
}

impl Model for KeptItems {
    ghost use Rattle.std.specs.Prelude.{ℕ, ◌≤◌, List, length, drop};

    ghost Value = { List (List ℕ) };

    ghost view = { λ k. drop k.taken k.list.value };

    ghost invariant = { λ k. k.taken ≤ length k.list.value };
}

/// Where items are taken from.
#[derive(Drop)]
enum ItemsForm {
    /// A list that a text keeps.
    Kept(KeptItems),
    /// A text, in which they are read.
    Read(ListCursor),
}

/// The items of a list that are left, in order: none is kept, and an item costs what it is written in.
pub struct ListItems {
    form: ItemsForm,
}

impl Model for ListItems {
    ghost use Rattle.std.specs.Prelude.{ℕ, List};

    ghost Value = { List (List ℕ) };

    ghost use Rattle.tcl_text.specs.ItemsForm.{items_of};

    ghost view = { λ i. items_of i.form };
}

impl KeptItems {
    /// The same items, of the same list.
    fn copy(&self) -> Result<KeptItems, AllocError>
        ensures { IfOk result (λ items. items ≡ self.now) }
    {
        Ok(KeptItems {
            list: self.list.clone()?,
            taken: self.taken,
        })
    }

    /// Whether items are left.
    fn has_more(&self) -> bool
        ensures { result ≡ nat_lt 0 (length self.now) }
    {
        self.taken < self.list.as_ref().len()
    }

    /// Takes the first item, if one is left.
    fn take_first(&mut self, alloc: Global) -> Result<Option<Text>, AllocError>
        ensures ok { IfOk result (λ item. TakesFirst self.old item self.new) }
        ensures err { OnErr result (self.new ≡ self.old) }
    {
        let list = self.list.as_ref();
        if self.taken == list.len() {
            return Ok(None);
        }
        let item = list.item(alloc, self.taken)?;
        self.taken += 1;
        Ok(Some(item))
    }
}

impl ListItems {
    /// The items that are left, once more, of the same list or text. It takes no memory; it is refused only where the count of what is shared
    /// is full.
    pub fn copy(&self) -> Result<ListItems, AllocError>
        ensures { IfOk result (λ items. items ≡ self.now) }
    {
        let form = match &self.form {
            ItemsForm::Kept(items) => ItemsForm::Kept(items.copy()?),
            ItemsForm::Read(items) => ItemsForm::Read(items.copy()?),
        };
        Ok(ListItems { form })
    }

    /// Whether items are left. It takes no memory.
    pub fn has_more(&self) -> bool
        ensures { result ≡ nat_lt 0 (length self.now) }
    {
        match &self.form {
            ItemsForm::Kept(items) => items.has_more(),
            ItemsForm::Read(items) => items.has_more(),
        }
    }

    /// Takes the first item, if one is left.
    pub fn take_first(&mut self, alloc: Global) -> Result<Option<Text>, AllocError>
        ensures ok { IfOk result (λ item. TakesFirst self.old item self.new) }
        ensures err { OnErr result (self.new ≡ self.old) }
    {
        match &mut self.form {
            ItemsForm::Kept(items) => items.take_first(alloc),
            ItemsForm::Read(items) => items.take_first(alloc),
        }
    }
}

impl Text {
    /// The elements of the list that the text is, as `split_list` gives them, to be taken one by one. `BadList` (3) says which is the
    /// first fault, wherever it stands.
    pub fn list_items(&self, alloc: Global) -> Result<ListItems, SplitFault>
        ensures { Splits result (list_of self.now) }
    {
        let form = match self.as_kept(alloc) {
            Some(list) => ItemsForm::Kept(KeptItems {
                list: list.clone()?,
                taken: 0,
            }),
            None => ItemsForm::Read(ListCursor::new(alloc, self)?),
        };
        Ok(ListItems { form })
    }
}

/// By hand: a proof sees one call where it is dropped, and not its parts.
impl Drop for ListItems {
    fn drop(self) {
        let ListItems { form: _ } = self;
    }
}
