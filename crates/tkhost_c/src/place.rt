ghost use Rattle.std.specs.Prelude.{Option};
ghost use Rattle.std.specs.Coded.{coded_option};
ghost use Rattle.tkhost_c.specs.contracts.kept.Kept.{the_row};
ghost use Rattle.tkhost_c.specs.Keeping.{owns_kept};
ghost use Rattle.tkhost_c.specs.Keeps.{Keeps};

use crate::kept::Kept;
use crate::loose::Loose;
use std::alloc::Global;
use std::marker::Model;

/// A handle: the pointer that a program in C holds, null where nothing is kept.
#[repr(C)]
#[derive(Drop)]
pub struct Place {
    at: *mut u8,
    pub ghost kept: { Option Keeps } by { coded_option the_row.coded },
}

impl Model for Place {
    ghost use Rattle.tkhost_c.specs.Keeping.{owns_kept};

    ghost also_owns = { λ p. owns_kept p.kept p.at };
}

impl Place {
    ghost use Rattle.std.specs.Prelude.{◌≡◌, Some, None, option_map};

    /// A place that keeps nothing.
    pub(crate) fn none() -> Place
        ensures { result.kept ≡ None }
    {
        Place {
            at: std::ptr::null_mut(),
        }
    }

    /// A place that keeps what was boxed.
    pub(crate) fn of(loose: Loose<Kept, Global>) -> Place
        ensures { result.kept ≡ Some loose.value }
    {
        let Loose { at, alloc: _ } = loose;
        Place { at: at as *mut u8 }
    }

    /// What is kept, taken apart, if anything is.
    pub(crate) fn into_loose(self, alloc: Global) -> Option<Loose<Kept, Global>>
        ensures { option_map (λ loose. loose.value) result ≡ self.kept }
    {
        let Place { at } = self;
        if at.is_null() {
            None
        } else {
            Some(Loose {
                at: at as *mut Kept,
                alloc,
            })
        }
    }
}
