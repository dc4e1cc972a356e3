//! Where names stood when they were looked up last.
ghost use Rattle.std.specs.Prelude.{◌<◌};

use std::cell::Cell;

/// How many places are hinted.
const SLOTS: usize = 32;

/// Places of names in some order, for a look-up that first tries the place where a name stood last. They may be any: whoever asks compares the name
/// that stands there.
#[derive(Drop)]
pub struct Hints {
    places: Cell<[u16; SLOTS]>,
}

/// The slot of a name, by its length and the bytes at its ends: names that share one are looked up each time.
#[inline]
fn slot_of(name: &str) -> usize
    ensures { result < 32 }
{
    let bytes = name.as_bytes();
    let [first, ..] = bytes else {
        return 0;
    };
    let last = bytes[bytes.len() - 1];
    let ends = usize::from(*first) + 2 * usize::from(last);
    bytes.len().wrapping_mul(9).wrapping_add(ends) % SLOTS
}

impl Hints {
    /// No name was looked up yet. It takes no memory.
    pub fn new() -> Hints {
        Hints {
            places: Cell::new([0; SLOTS]),
        }
    }

    /// A place to try for a name.
    #[inline]
    pub fn place(&self, name: &str) -> usize {
        let places = self.places.get();
        usize::from(places[slot_of(name)])
    }

    /// A name stands at a place.
    pub fn keep(&self, name: &str, place: usize) {
        if let Ok(place) = u16::try_from(place) {
            let mut places = self.places.get();
            places[slot_of(name)] = place;
            self.places.set(places);
        }
    }
}
