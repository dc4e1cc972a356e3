//! What was put together in a list leaves it, so that the list's memory serves what comes next.

ghost use Rattle.std.specs.Prelude.{◌≡◌, [], ◌∷◌, MatchOption};

use std::alloc::Global;
use std::mem;

/// The only item, which leaves its memory to the list; nothing, where there are none or more.
#[tactic(auto, using(crate::proofs::Taken::only_popped))]
pub fn take_only<T>(items: &mut Vec<T>) -> Option<T>
    ensures { MatchOption result (items.new.items ≡ items.old.items) (λ item. (items.old.items ≡ item ∷ []) × (items.new.items ≡ [])) }
{
    match items.len() {
        1 => items.pop(),
        _ => None,
    }
}

/// All items, in as much memory as they take.
pub fn take_all<T>(alloc: Global, items: &mut Vec<T>) -> Vec<T>
    ensures all { result.items ≡ items.old.items }
    ensures none_left { items.new.items ≡ [] }
{
    let mut all = mem::replace(items, Vec::new(alloc));
    all.shrink_to_fit();
    all
}
