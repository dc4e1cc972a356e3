//! Laws of bags: a table that keeps the items of all owners in any order, as an arena does at its places, has for each owner a list in the
//! order of numbers. Where an item comes, changes or goes anywhere in the bag, one law says what becomes of its owner's list, and another
//! that the other owners' lists stay.
//!
//! The functions do nothing: their contracts are the laws, for any type of values and any way to number them.
ghost use Rattle.std.specs.Prelude.{◌≡◌, ◌≢◌, ℕ, Bool, List, [], ◌∷◌, ◌++◌, Some, None, find};
ghost use Rattle.tk_base.specs.Bag.{Item, NonePasses, listed};
ghost use Rattle.tk_base.specs.Numbered.{numbered, without, changed_at, AllBelow, IsRising};

/// An item whose number is above all of its owner's comes last in the owner's list, wherever it stands in the bag.
pub fn new_comes_last<T>()
    ensures { (number : T → ℕ) (owner : ℕ) (y : T) (a b : List (Item T))
        → AllBelow number (number y) (listed number owner (a ++ b))
        → listed number owner (a ++ record { owner = owner; value = y } ∷ b)
        ≡ listed number owner (a ++ b) ++ y ∷ [] }
{}

/// An item that goes, from anywhere in the bag, leaves its owner's list without its number.
pub fn gone_leaves_the_rest<T>()
    ensures { (number : T → ℕ) (owner : ℕ) (y : T) (a b : List (Item T))
        → IsRising number (listed number owner (a ++ record { owner = owner; value = y } ∷ b))
        → listed number owner (a ++ b)
        ≡ without number (number y) (listed number owner (a ++ record { owner = owner; value = y } ∷ b)) }
{}

/// An item that changes in its place and keeps its number is changed in its owner's list, in its place there.
pub fn changed_keeps_its_place<T>()
    ensures { (number : T → ℕ) (owner : ℕ) (y : T) (change : T → T) (a b : List (Item T))
        → number (change y) ≡ number y
        → IsRising number (listed number owner (a ++ record { owner = owner; value = y } ∷ b))
        → listed number owner (a ++ record { owner = owner; value = change y } ∷ b)
        ≡ changed_at number (number y) change (listed number owner (a ++ record { owner = owner; value = y } ∷ b)) }
{}

/// An item of the bag is what its owner's list has under its number.
pub fn item_is_listed<T>()
    ensures { (number : T → ℕ) (owner : ℕ) (y : T) (a b : List (Item T))
        → IsRising number (listed number owner (a ++ record { owner = owner; value = y } ∷ b))
        → numbered number (number y) (listed number owner (a ++ record { owner = owner; value = y } ∷ b)) ≡ Some y }
{}

/// What no item of an owner passes, nothing in the owner's list passes.
pub fn none_is_listed<T>()
    ensures { (number : T → ℕ) (owner : ℕ) (test : T → Bool) (bag : List (Item T))
        → NonePasses owner test bag
        → find test (listed number owner bag) ≡ None }
{}

/// An item that comes, goes or changes is not seen in the lists of other owners.
pub fn others_stay<T>()
    ensures { (number : T → ℕ) (owner other : ℕ) (y : T) (a b : List (Item T))
        → other ≢ owner
        → listed number other (a ++ record { owner = owner; value = y } ∷ b) ≡ listed number other (a ++ b) }
{}
