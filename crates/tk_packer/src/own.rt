ghost use Rattle.std.specs.Prelude.{◌≡◌, OnOk, OnErr};

use crate::Request;
use crate::lists::{close, drop_slave, move_slave, open, slaves_at};
use crate::packed::Packed;
use std::alloc::{AllocError, Global};
use std::collections::{HashMap, HashSet};
use std::marker::Model;
use tk_base::Siblings;

/// What one application has packed, found by hashing.
#[derive(Drop)]
pub struct OwnPacks {
    /// Each packed window, by its number.
    windows: HashMap<u64, Packed>,
    /// The same windows in order, by their masters.
    masters: HashMap<u64, Siblings<Packed>>,
    /// The windows that don't propagate.
    rigid: HashSet<u64>,
    alloc: Global,
}

impl Model for OwnPacks {
    ghost use Rattle.std.specs.Prelude.{nat_eq};
    ghost use Rattle.std.specs.Map.{lookup};
    ghost use Rattle.tk_packer.specs.Packs.{Packing};
    ghost use Rattle.tk_packer.specs.Tables.{gathered, rising, slaves_at, AreTied};

    ghost Value = { Packing };

    ghost view = { λ o. record { packs = gathered o.masters.entries; rigid = rising o.rigid.keys } };

    ghost invariant = { λ o. AreTied (λ number. lookup (nat_eq number) o.windows.entries) (λ master. slaves_at master o.masters.entries) };
}

impl OwnPacks {
    ghost use Rattle.tk_packer.specs.Packs.{no_packs, slaves_of, with_packed, without_packed, without_window, with_propagation, propagates_in, request_in};

    /// An application with nothing packed. It takes no memory.
    pub fn new(alloc: Global) -> OwnPacks
        ensures { result ≡ no_packs }
    {
        OwnPacks {
            windows: HashMap::new(alloc),
            masters: HashMap::new(alloc),
            rigid: HashSet::new(alloc),
            alloc,
        }
    }

    /// The slaves of a master, in order.
    pub fn slaves(&self, master: u64) -> &[Packed]
        ensures { result.now ≡ slaves_of master self.now.packs }
    {
        slaves_at(&self.masters, master)
    }

    /// Packs a window at a place among the slaves of its master, after it was taken out of where it was.
    pub fn put(&mut self, place: usize, packed: Packed) -> Result<(), AllocError>
        ensures ok { OnOk result (self.new ≡ with_packed place packed self.old) }
        ensures err { OnErr result (self.new ≡ self.old) }
    {
        open(self.alloc, &mut self.masters, packed.master)?;
        match self.windows.insert(packed.number, packed) {
            Ok(before) => {
                move_slave(&mut self.masters, before, place, packed);
                Ok(())
            }
            Err(_) => {
                close(&mut self.masters, packed.master);
                Err(AllocError)
            }
        }
    }

    /// Takes a window out.
    pub fn forget(&mut self, number: u64)
        ensures { self.new ≡ without_packed number self.old }
    {
        let before = self.windows.remove(&number);
        drop_slave(&mut self.masters, before, number);
    }

    /// Takes a window out, and what is said of it.
    pub fn remove(&mut self, number: u64)
        ensures { self.new ≡ without_window number self.old }
    {
        let before = self.windows.remove(&number);
        drop_slave(&mut self.masters, before, number);
        self.rigid.remove(&number);
    }

    /// Whether a window propagates.
    pub fn propagates(&self, number: u64) -> bool
        ensures { result ≡ propagates_in number self.now }
    {
        !self.rigid.contains(&number)
    }

    /// Makes a window propagate, or not.
    pub fn set_propagates(&mut self, number: u64, propagates: bool) -> Result<(), AllocError>
        ensures ok { OnOk result (self.new ≡ with_propagation number propagates self.old) }
        ensures err { OnErr result (self.new ≡ self.old) }
    {
        if propagates {
            self.rigid.remove(&number);
        } else {
            self.rigid.insert(number)?;
        }
        Ok(())
    }

    /// What a window was packed with.
    pub fn request(&self, number: u64) -> Option<Request>
        ensures { result ≡ request_in number self.now.packs }
    {
        let packed = self.windows.get(&number)?;
        Some(packed.request)
    }
}
