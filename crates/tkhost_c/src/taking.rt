ghost use Rattle.std.specs.Prelude.{◌≡◌, Some, None, option_map};

use crate::kept::Kept;
use crate::loose::Loose;
use crate::place::Place;
use std::alloc::Global;
use std::mem;

/// Takes what is kept out of a place, which then keeps nothing.
pub(crate) fn take(place: &mut Place, alloc: Global) -> Option<Box<Kept>>
    ensures kept { option_map (λ kept. kept.value) result ≡ place.old.kept }
    ensures none { place.new.kept ≡ None }
{
    let old = mem::replace(place, Place::none());
    match old.into_loose(alloc) {
        Some(loose) => Some(loose.into_box()),
        None => None,
    }
}

/// Puts a box into a place that keeps nothing.
pub(crate) fn put(place: &mut Place, kept: Box<Kept>)
    requires { place.old.kept ≡ None }
    ensures { place.new.kept ≡ Some kept.value }
{
    *place = Place::of(Loose::of(kept));
}
