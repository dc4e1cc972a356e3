ghost use Rattle.std.specs.Prelude.{◌≡◌, [], ◌∷◌, ◌++◌, OnOk, OnErr};

use std::alloc::{AllocError, Global};
use std::marker::Model;

/// Branches, groups or parameters, in order.
pub struct Listing<T: Drop> {
    list: Vec<T>,
}

impl<T: Drop> Model for Listing<T> {
    ghost use Rattle.std.specs.Prelude.{List};

    ghost Value = { List T };

    ghost view = { λ l. l.list.items };
}

impl<T: Drop> Listing<T> {
    pub(crate) fn new(alloc: Global) -> Listing<T>
        ensures { result ≡ [] }
    {
        Listing {
            list: Vec::new(alloc),
        }
    }

    pub(crate) fn push(&mut self, next: T) -> Result<(), AllocError>
        ensures ok { OnOk result (self.new ≡ self.old ++ next ∷ []) }
        ensures err { OnErr result (self.new ≡ self.old) }
    {
        self.list.push(next)?;
        Ok(())
    }

    /// All of them, in order.
    pub fn as_slice(&self) -> &[T]
        ensures { result.now ≡ self.now }
    {
        self.list.as_slice()
    }

    /// These, in order.
    pub fn of_vec(list: Vec<T>) -> Listing<T>
        ensures { result ≡ list.items }
    {
        Listing { list }
    }

    /// All of them, in order, to be changed.
    pub fn into_vec(self) -> Vec<T>
        ensures { result.items ≡ self }
    {
        let Listing { list } = self;
        list
    }
}

/// By hand: a proof sees one call where it is dropped, and not its parts.
impl<T: Drop> Drop for Listing<T> {
    fn drop(self) {
        let Listing { list: _ } = self;
    }
}
