//! Laws over the definitions of the commands. Each is the contract of a function that does nothing.
ghost use Rattle.std.specs.Prelude.{List, ℕ, Bool};
ghost use Rattle.std.specs.Cmp.{IsStrictWeakOrder};
ghost use Rattle.std.specs.List.Sorted.{IsSortedBy, IsStableBy};
ghost use Rattle.tcl_text.specs.ListCommands.{sorted};

/// What putting each item in order gives ascends.
pub fn sorted_items_ascend()
    ensures { (less : List ℕ → List ℕ → Bool) → IsStrictWeakOrder less →
        (items : List (List ℕ)) → IsSortedBy less (sorted less items) }
{}

/// What putting each item in order gives has the items that were there, those that tie in the order that they had.
pub fn sorted_items_are_stable()
    ensures { (less : List ℕ → List ℕ → Bool) → IsStrictWeakOrder less →
        (items : List (List ℕ)) → IsStableBy less items (sorted less items) }
{}
