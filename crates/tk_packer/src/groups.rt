//! Packed windows by their masters.
ghost use Rattle.std.specs.Prelude.{◌≡◌};
ghost use Rattle.tk_packer.specs.Groups.{slaves_in};

use crate::{PackTable, Packed};
use tk_base::Win;

/// The slaves of a master, in order.
pub fn slaves_in(packs: &PackTable, owner: usize, master: u64) -> &[Packed]
    ensures { result.now ≡ slaves_in owner packs.now master }
{
    packs.packed_in(Win {
        owner,
        number: master,
    })
}
