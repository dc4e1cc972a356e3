//! The room that packed windows ask for.
ghost use Rattle.std.specs.Prelude.{◌≡◌, ◌≤◌, min, List, ◌∷◌};
ghost use Rattle.tk_packer.specs.declared.ask.Ask.{Ask};
ghost use Rattle.tk_packer.specs.Parcels.{asks_of, wanted, most_wanted, size_wanted};

use crate::ask::{Ask, Axis};
use crate::request::Request;

/// The greatest width or height that a window asks for, in pixels.
const MOST_WANTED: u64 = 2_147_483_647;

/// The least width and height of a cavity in which all the windows have the room that they ask for, in pixels, each at most
/// 2,147,483,647: what a master asks for that propagates, without its border (pack(n), "GEOMETRY PROPAGATION").
pub fn request_of(requests: &[Request]) -> (u32, u32)
    ensures { result ≡ size_wanted requests.now }
{
    (
        wanted(Axis::Horizontal, requests),
        wanted(Axis::Vertical, requests),
    )
}

/// The length wanted along one axis.
fn wanted(axis: Axis, requests: &[Request]) -> u32
    ensures { result ≡ min (wanted (asks_of axis requests.now)) most_wanted }
{
    let mut reach = Reach { along: 0, most: 0 };
    for request in requests {
        reach = reach.past(&Ask::of(axis, request));
    }
    reach.along.max(reach.most) as u32
}

/// How far windows reach along one axis. Both are cut to the bound as soon as they pass it, so that no sum is too large.
#[derive(Clone, Copy)]
struct Reach {
    /// The room of those along the axis.
    along: u64,
    /// The most that those across have taken, beside those before them.
    most: u64,
}

impl Reach {
    ghost use Rattle.tk_packer.specs.Loops.{reached};

    /// With one more window.
    #[tactic(auto, unfolding(crate::specs::Parcels::wanted))]
    fn past(self, ask: &Ask) -> Reach
        requires along { self.along ≤ most_wanted }
        requires most { self.most ≤ most_wanted }
        ensures reached { (later : List Ask) → reached result later ≡ reached self (ask.now ∷ later) }
        ensures along { result.along ≤ most_wanted }
        ensures most { result.most ≤ most_wanted }
    {
        let end = MOST_WANTED.min(self.along + ask.outer_length());
        if ask.edge.is_some() {
            Reach { along: end, ..self }
        } else {
            Reach {
                most: end.max(self.most),
                ..self
            }
        }
    }
}
