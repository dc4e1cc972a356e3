ghost use Rattle.std.specs.Prelude.{◌≡◌, ℕ, None, Some, OnOk, IsSome};

use crate::{KeptArrangement, Request};
use std::alloc::{AllocError, Global};
use std::collections::HashMap;
use tk_base::Rect;

/// Where the slaves of each master of one application lie, kept from one layout to the next.
pub struct Arrangements {
    rows: HashMap<u64, KeptArrangement>,
    alloc: Global,
}

impl Arrangements {
    ghost use Rattle.tk_packer.specs.Arrangements.{inputs_at};
    ghost use Rattle.tk_packer.specs.Kept.{Inputs};
    ghost use Rattle.tk_packer.specs.Parcels.{arrangement};

    /// Nothing is kept. It takes no memory.
    pub fn new(alloc: Global) -> Arrangements
        ensures { (number : ℕ) → inputs_at result number ≡ None }
    {
        Arrangements {
            rows: HashMap::new(alloc),
            alloc,
        }
    }

    /// Forgets what is kept for a master, as one that is gone. It takes no memory.
    pub fn forget(&mut self, number: u64)
        ensures { inputs_at self.new number ≡ None }
    {
        self.rows.remove(&number);
    }

    /// Arranges the slaves of a master in a cavity of a size, unless what is kept was made from just that.
    pub fn arrange(
        &mut self,
        number: u64,
        size: (u32, u32),
        requests: &[Request],
    ) -> Result<(), AllocError>
        ensures { OnOk result (inputs_at self.new number ≡ Some (record { size = size; requests = requests.now })) }
    {
        self.open(number)?;
        match self.rows.get_mut(&number) {
            Some(kept) => kept.arrange(size, requests),
            None => unreachable!(),
        }
    }

    /// Makes a row for a master that has none.
    fn open(&mut self, number: u64) -> Result<(), AllocError>
        ensures { OnOk result (IsSome (inputs_at self.new number)) }
    {
        if self.rows.contains_key(&number) {
            return Ok(());
        }
        self.rows.insert(number, KeptArrangement::new(self.alloc))?;
        Ok(())
    }

    /// Where the slaves of a master lie in its cavity, as it was last arranged. It takes no memory.
    pub fn places(&self, number: u64) -> &[Option<Rect>]
        ensures { (inputs : Inputs) → inputs_at self.now number ≡ Some inputs
            → result.now ≡ arrangement inputs.size inputs.requests }
    {
        match self.rows.get(&number) {
            Some(kept) => kept.places(),
            None => &[],
        }
    }
}

/// By hand: a proof sees one call where it is dropped, and not its parts.
impl Drop for Arrangements {
    fn drop(self) {
        let Arrangements { rows: _, alloc: _ } = self;
    }
}
