ghost use Rattle.std.specs.Prelude.{◌≡◌, ◌↔◌, IsTrue, OnOk, OnErr, IsOk};

use crate::same::are_same;
use crate::{Request, arrange};
use std::alloc::{AllocError, Global};
use std::marker::Model;
use tk_base::Rect;

/// Where the slaves of a master lie, kept with what that was made from: the size of the cavity and the requests, in pixels.
#[derive(Drop)]
pub struct KeptArrangement {
    size: (u32, u32),
    requests: Vec<Request>,
    places: Vec<Option<Rect>>,
}

impl Model for KeptArrangement {
    ghost use Rattle.std.specs.Prelude.{◌≡◌};
    ghost use Rattle.tk_packer.specs.Parcels.{arrangement};
    ghost use Rattle.tk_packer.specs.Kept.{Inputs};

    ghost Value = { Inputs };

    ghost view = { λ k. record { size = k.size; requests = k.requests.items } };

    ghost invariant = { λ k. k.places.items ≡ arrangement k.size k.requests.items };
}

impl KeptArrangement {
    ghost use Rattle.tk_packer.specs.Kept.{nothing};
    ghost use Rattle.tk_packer.specs.Parcels.{arrangement};

    /// Nothing is arranged yet. It takes no memory.
    #[tactic(auto, unfolding(crate::specs::Parcels::packed))]
    pub fn new(alloc: Global) -> KeptArrangement
        ensures { result ≡ nothing }
    {
        KeptArrangement {
            size: (0, 0),
            requests: Vec::new(alloc),
            places: Vec::new(alloc),
        }
    }

    /// Arranges windows in a cavity of a size, unless what is kept was made from just these: then nothing is done, and no memory taken.
    pub fn arrange(&mut self, size: (u32, u32), requests: &[Request]) -> Result<(), AllocError>
        ensures ok { OnOk result (self.new ≡ record { size = size; requests = requests.now }) }

        // Without memory it can only succeed where it arranges nothing.
        ensures again { self.old ≡ record { size = size; requests = requests.now } → IsOk result }
        ensures err { OnErr result (self.new ≡ self.old) }
    {
        if self.is_from(size, requests) {
            return Ok(());
        }
        let alloc = *self.requests.allocator();
        let places = arrange(alloc, size, requests)?;
        let requests = Vec::from_slice(alloc, requests)?;
        *self = KeptArrangement {
            size,
            requests,
            places,
        };
        Ok(())
    }

    /// Whether what is kept was made from these.
    fn is_from(&self, size: (u32, u32), requests: &[Request]) -> bool
        ensures { IsTrue result ↔ (self.now ≡ record { size = size; requests = requests.now }) }
    {
        self.size == size && are_same(&self.requests, requests)
    }

    /// The rectangles of the windows that were arranged last, as `arrange` gives them. It takes no memory.
    pub fn places(&self) -> &[Option<Rect>]
        ensures { result.now ≡ arrangement self.now.size self.now.requests }
    {
        &self.places
    }
}
