ghost use Rattle.std.specs.Prelude.{◌≡◌, ◌≢◌, ℕ, [], insert, IfOk, OnOk, OnErr};
ghost use Rattle.tk_packer.specs.Packs.{no_packs, with_packed, without_packed, without_window, with_propagation, propagates_in, without, slaves_of, request_in, wins_of};
ghost use Rattle.tk_packer.specs.Shared.{own_of, LeavesOthers};

use crate::Request;
use crate::own::OwnPacks;
use crate::packed::Packed;
use std::alloc::{AllocError, Global};
use std::collections::HashMap;
use std::marker::Model;
use tk_base::Win;

/// Which windows are packed in which master, and how, for all applications, each application's apart from the others' (pack(n)).
///
/// A window is packed in one master at most, and masters and slaves are windows of one application.
pub struct PackTable {
    owners: HashMap<usize, OwnPacks>,
    alloc: Global,
}

impl Model for PackTable {
    ghost use Rattle.tk_packer.specs.Shared.{Held};

    ghost Value = { Held };

    ghost view = { λ t. t.owners.entries };
}

impl PackTable {
    /// Nothing is packed. It takes no memory.
    pub fn new(alloc: Global) -> PackTable
        ensures { result ≡ [] }
    {
        PackTable {
            owners: HashMap::new(alloc),
            alloc,
        }
    }

    /// Packs a window in a master of the same application, whose number is given. It comes to stand at a place among the master's slaves,
    /// from 0 on; a place past the end is the end. A window that is packed already is first taken out.
    pub fn put(
        &mut self,
        master: u64,
        win: Win,
        place: usize,
        request: Request,
    ) -> Result<(), AllocError>
        ensures own { OnOk result (own_of win.owner self.new
            ≡ with_packed place (record { master = master; number = win.number; request = request }) (own_of win.owner self.old)) }

        // It stands at its place among the slaves of its master, and among those of no other.
        ensures slaves { OnOk result (slaves_of master (own_of win.owner self.new).packs
            ≡ insert (slaves_of master (without win.number (own_of win.owner self.old).packs)) place
            (record { master = master; number = win.number; request = request })) }
        ensures masters { OnOk result ((other : ℕ) → other ≢ master → slaves_of other (own_of win.owner self.new).packs
            ≡ without win.number (slaves_of other (own_of win.owner self.old).packs)) }
        ensures others { LeavesOthers win.owner self.old self.new }
        ensures err { OnErr result (self.new ≡ self.old) }
    {
        let packed = Packed {
            master,
            number: win.number,
            request,
        };
        self.insert(win.owner, place, packed)?;
        Ok(())
    }

    /// Takes a window out; nothing changes where it isn't packed. It takes no memory.
    pub fn forget(&mut self, win: Win)
        ensures own { own_of win.owner self.new ≡ without_packed win.number (own_of win.owner self.old) }
        ensures masters { (master : ℕ) → slaves_of master (own_of win.owner self.new).packs
            ≡ without win.number (slaves_of master (own_of win.owner self.old).packs) }
        ensures others { LeavesOthers win.owner self.old self.new }
    {
        self.take_out(win);
    }

    /// Takes out a window that is gone: it is packed no longer, and that it doesn't propagate is forgotten. It takes no memory.
    pub fn remove(&mut self, win: Win)
        ensures own { own_of win.owner self.new ≡ without_window win.number (own_of win.owner self.old) }
        ensures others { LeavesOthers win.owner self.old self.new }
    {
        if let Some(own) = self.owners.get_mut(&win.owner) {
            own.remove(win.number);
        }
    }

    /// Whether what is packed in a window decides what it asks for (`pack propagate` of pack(n)). It takes no memory.
    pub fn propagates(&self, win: Win) -> bool
        ensures { result ≡ propagates_in win.number (own_of win.owner self.now) }
    {
        match self.owners.get(&win.owner) {
            Some(own) => own.propagates(win.number),
            None => true,
        }
    }

    /// Makes what is packed in a window decide what it asks for, or not.
    pub fn set_propagates(&mut self, win: Win, propagates: bool) -> Result<(), AllocError>
        ensures own { OnOk result (own_of win.owner self.new
            ≡ with_propagation win.number propagates (own_of win.owner self.old)) }
        ensures others { LeavesOthers win.owner self.old self.new }
        ensures err { OnErr result (self.new ≡ self.old) }
    {
        if let Some(own) = self.owners.get_mut(&win.owner) {
            return own.set_propagates(win.number, propagates);
        }
        let mut own = OwnPacks::new(self.alloc);
        own.set_propagates(win.number, propagates)?;
        self.owners.insert(win.owner, own)?;
        Ok(())
    }

    /// The slaves of a master, in order, with what they are packed with. It takes no memory.
    pub fn packed_in(&self, master: Win) -> &[Packed]
        ensures { result.now ≡ slaves_of master.number (own_of master.owner self.now).packs }
    {
        match self.owners.get(&master.owner) {
            Some(own) => own.slaves(master.number),
            None => &[],
        }
    }

    /// What an application has packed, if that is kept; otherwise nothing. It takes no memory.
    pub(crate) fn own_or<'a>(&'a self, owner: usize, nothing: &'a OwnPacks) -> &'a OwnPacks
        requires { nothing.now ≡ no_packs }
        ensures { result.now ≡ own_of owner self.now }
    {
        match self.owners.get(&owner) {
            Some(own) => own,
            None => nothing,
        }
    }

    /// The windows that are packed in a master, in order.
    pub fn slaves(&self, alloc: Global, master: Win) -> Result<Vec<Win>, AllocError>
        ensures { IfOk result (λ list. list.items
            ≡ wins_of master.owner (slaves_of master.number (own_of master.owner self.now).packs)) }
    {
        wins_of(alloc, master.owner, self.packed_in(master))
    }

    /// What a window is packed with; none where it isn't packed. It takes no memory.
    pub fn request(&self, win: Win) -> Option<Request>
        ensures { result ≡ request_in win.number (own_of win.owner self.now).packs }
    {
        self.owners.get(&win.owner)?.request(win.number)
    }

    fn insert(&mut self, owner: usize, place: usize, packed: Packed) -> Result<(), AllocError>
        ensures own { OnOk result (own_of owner self.new ≡ with_packed place packed (own_of owner self.old)) }
        ensures others { LeavesOthers owner self.old self.new }
        ensures err { OnErr result (self.new ≡ self.old) }
    {
        if let Some(own) = self.owners.get_mut(&owner) {
            return own.put(place, packed);
        }
        let mut own = OwnPacks::new(self.alloc);
        own.put(place, packed)?;
        self.owners.insert(owner, own)?;
        Ok(())
    }

    fn take_out(&mut self, win: Win)
        ensures own { own_of win.owner self.new ≡ without_packed win.number (own_of win.owner self.old) }
        ensures others { LeavesOthers win.owner self.old self.new }
    {
        if let Some(own) = self.owners.get_mut(&win.owner) {
            own.forget(win.number);
        }
    }
}

fn wins_of(alloc: Global, owner: usize, packs: &[Packed]) -> Result<Vec<Win>, AllocError>
    ensures { IfOk result (λ list. list.items ≡ wins_of owner packs.now) }
{
    let wins = packs.iter().map(|packed| Win {
        owner,
        number: packed.number,
    });
    wins.collect(alloc)
}

/// By hand: a proof sees one call where it is dropped, and not its parts.
impl Drop for PackTable {
    fn drop(self) {
        let PackTable {
            owners: _,
            alloc: _,
        } = self;
    }
}
