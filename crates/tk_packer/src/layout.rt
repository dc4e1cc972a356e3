ghost use Rattle.std.specs.Prelude.{◌≡◌, IfOk, nat_eq};
ghost use Rattle.std.specs.Map.{lookup};
ghost use Rattle.tk_packer.specs.Asked.{sizes_asked};
ghost use Rattle.tk_packer.specs.Changes.{changes_of};
ghost use Rattle.tk_packer.specs.Layout.{layout};
ghost use Rattle.tk_packer.specs.Packs.{slaves_of};
ghost use Rattle.tk_packer.specs.Shared.{own_of};

use crate::PackTable;
use crate::arrangements::Arrangements;
use crate::asked::sizes_asked;
use crate::changes::{PlaceChange, changes_of};
use crate::rectangles::places_of;
use crate::shape::Shape;
use std::alloc::{AllocError, Global};

/// Lays out the windows of an application of a size, in pixels, and answers what that changes, in the order of the windows: for each that is
/// changed Unmap, Configure and Map, of these what applies. The windows stand in pre-order, the main window first, and what they are is as they
/// were laid out last. What was arranged before is used again.
pub fn lay_out(
    alloc: Global,
    size: (u32, u32),
    packs: &PackTable,
    owner: usize,
    shapes: &[Shape],
    arrangements: &mut Arrangements,
) -> Result<Vec<PlaceChange>, AllocError>
    ensures { IfOk result (λ changes. changes.items
        ≡ changes_of shapes.now (layout size (own_of owner packs.now).packs shapes.now)) }
{
    let sizes = sizes_asked(alloc, packs, owner, shapes)?;
    let places = places_of(alloc, size, packs, owner, &sizes, arrangements, shapes)?;
    changes_of(alloc, shapes, places.as_slice())
}

/// The size that a window asks for, in pixels, with what is packed in it (`winfo reqwidth` and `reqheight` of winfo(n)); none where it isn't
/// among the windows, which stand as in `lay_out`.
pub fn requested_size(
    alloc: Global,
    packs: &PackTable,
    owner: usize,
    shapes: &[Shape],
    number: u64,
) -> Result<Option<(u32, u32)>, AllocError>
    ensures { IfOk result (λ size. size
        ≡ lookup (nat_eq number) (sizes_asked (λ master. slaves_of master (own_of owner packs.now).packs) shapes.now)) }
{
    let sizes = sizes_asked(alloc, packs, owner, shapes)?;
    Ok(sizes.get(&number).copied())
}
