//! The names of a group of `foreach`.
ghost use Rattle.std.specs.Prelude.{◌≡◌, nat_lt, length, IfOk};
ghost use Rattle.tcl_text.specs.Readings.{list_of};
ghost use Rattle.tcl_text.specs.Splitting.{Splits};
ghost use Rattle.tcl_commands.specs.Names.{names_of};

use std::alloc::{AllocError, Global};
use std::marker::Model;
use tcl_text::{ListItems, SplitFault, Text, TextList};

/// How many bytes a list has at most whose names are kept apart.
const FEW_BYTES: usize = 128;

/// How names are kept.
#[derive(Drop)]
pub enum NamesForm {
    /// Each by itself, where their list is short: they are taken in each iteration.
    Few(TextList),
    /// As the items of their list, which are read in each iteration: so a list costs the same whatever its length, and groups share it.
    Many(Box<ListItems>),
}

/// Names in order.
pub struct Names {
    form: NamesForm,
}

impl Model for Names {
    ghost use Rattle.std.specs.Prelude.{ℕ, List};
    ghost use Rattle.tcl_commands.specs.Names.{names_of};

    ghost Value = { List (List ℕ) };

    ghost view = { λ n. names_of n.form };
}

/// Items in memory of their own, so that a group of few names takes no more for these.
fn boxed(alloc: Global, items: ListItems) -> Result<Box<ListItems>, AllocError>
    ensures { IfOk result (λ boxed. boxed.value ≡ items) }
{
    Ok(Box::new(alloc, items)?)
}

impl Names {
    /// The names that the list of a text has. `BadList` (3) says which is the first fault.
    pub fn of(alloc: Global, text: &Text) -> Result<Names, SplitFault>
        ensures { Splits result (list_of text.now) }
    {
        let form = if text.as_str().len() <= FEW_BYTES {
            NamesForm::Few(text.split_list(alloc)?)
        } else {
            NamesForm::Many(boxed(alloc, text.list_items(alloc)?)?)
        };
        Ok(Names { form })
    }

    /// Whether there are names.
    pub fn has_some(&self) -> bool
        ensures { result ≡ nat_lt 0 (length self.now) }
    {
        match &self.form {
            NamesForm::Few(names) => names.len() > 0,
            NamesForm::Many(names) => names.has_more(),
        }
    }

    /// How they are kept.
    pub fn form(&self) -> &NamesForm
        ensures { names_of result.now ≡ self.now }
    {
        &self.form
    }
}

/// By hand: a proof sees one call where it is dropped, and not its forms.
impl Drop for Names {
    fn drop(self) {
        let Names { form: _ } = self;
    }
}
