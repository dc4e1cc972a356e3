//! The pairs of virtual events that an event means, found once for all tags of its window.
ghost use Rattle.std.specs.Prelude.{◌≡◌, false, [], ◌∷◌, ◌++◌, IfOk, OnOk};
ghost use Rattle.std.specs.List.{list_any};
ghost use Rattle.tk_patterns.specs.Matching.{matching};
ghost use Rattle.tk_virtual.specs.Virtual.{is_same};

use crate::History;
use std::alloc::{AllocError, Global};
use tk_sequences::Event;
use tk_virtual::{Pair, VirtualPairs};

/// The pairs whose sequences match an event after a history, in their order. They give each tag the winner that all pairs give it, and are
/// found once where a window has many tags.
pub fn matching_pairs(
    alloc: Global,
    virtuals: &VirtualPairs,
    event: &Event,
    history: &History,
) -> Result<VirtualPairs, AllocError>
    ensures { IfOk result (λ pairs. pairs ≡ matching event.now history.now virtuals.now) }
{
    let all = virtuals.all();
    let mut pairs = VirtualPairs::new(alloc);
    for pair in all {
        push_matching(alloc, &mut pairs, pair, event, history)?;
    }
    Ok(pairs)
}

/// Adds a copy of a pair that isn't there, if its sequence matches.
fn push_matching(
    alloc: Global,
    pairs: &mut VirtualPairs,
    pair: &Pair,
    event: &Event,
    history: &History,
) -> Result<(), AllocError>
    requires { list_any (is_same pair.now) pairs.old ≡ false }
    ensures { OnOk result (pairs.new ≡ pairs.old ++ matching event.now history.now (pair.now ∷ [])) }
{
    if history.matches(pair.sequence.sequence(), event) {
        pairs.push_copy(alloc, pair)?;
    }
    Ok(())
}
