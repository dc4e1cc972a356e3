ghost use Rattle.std.specs.Prelude.{◌≡◌, ◌<◌, [], ◌∷◌, ◌++◌, length, slice_set, OnOk, OnErr};

use std::alloc::{AllocError, Global};
use std::marker::Model;

/// Parts of a session in their order.
pub struct Listing<T: Drop> {
    parts: Vec<T>,
}

impl<T: Drop> Model for Listing<T> {
    ghost use Rattle.std.specs.Prelude.{List};

    ghost Value = { List T };

    ghost view = { λ l. l.parts.items };
}

impl<T: Drop> Listing<T> {
    /// No parts. It takes no memory.
    pub fn new(alloc: Global) -> Listing<T>
        ensures { result ≡ [] }
    {
        Listing {
            parts: Vec::new(alloc),
        }
    }

    /// The parts, to look at.
    pub fn as_slice(&self) -> &[T]
        ensures { result.now ≡ self.now }
    {
        self.parts.as_slice()
    }

    /// Adds a part at the end.
    pub fn push(&mut self, part: T) -> Result<(), AllocError>
        ensures ok { OnOk result (self.new ≡ self.old ++ part ∷ []) }
        ensures err { OnErr result (self.new ≡ self.old) }
    {
        self.parts.push(part)?;
        Ok(())
    }

    /// Puts a part in the place of another.
    pub(crate) fn set(&mut self, place: usize, part: T)
        requires { place < length self.old }
        ensures { self.new ≡ slice_set self.old place part }
    {
        self.parts[place] = part;
    }
}

/// By hand: a proof sees one call where it is dropped, and not its parts.
impl<T: Drop> Drop for Listing<T> {
    fn drop(self) {
        let Listing { parts: _ } = self;
    }
}
